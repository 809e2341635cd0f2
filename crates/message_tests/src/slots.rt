//! Slots for a decoder or an encoder.

ghost use Rattle.std.specs.Prelude.{IfOk};
ghost use Rattle.fast_walk.specs.Traversals.{ServesAll};

use crate::base::*;
use fast_dictionary::SlotEntries;

// Slots of a set, which serve its keys.
pub(crate) fn slots_of<'a>(on: &'a Loaded) -> Tried<SlotEntries<'a>>
    ensures { IfOk result
        (λ s. ServesAll (⟦<SlotEntries<'a> as Entries>⟧.serves s) on.now.set) }
{
    match SlotEntries::new(on.alloc, &on.set) {
        Err(error) => Err(error),
        Ok(entries) => Ok(entries),
    }
}
