//! Entries in the slots of a template set.

ghost use Rattle.std.specs.Prelude.{◌≡◌, Contains, IfOk, IsTrue, false, vec_len};
ghost use Rattle.std.specs.FinMap as map;
ghost use Rattle.fast_value.specs.declared.key.Key.{Key as KeyOf};
ghost use Rattle.fast_template.specs.TemplateSets.{keys_in};
ghost use Rattle.fast_dictionary.specs.Slots.{AllUndefined, AreBelow, HaveOwnSlots, dictionary_in, is_key_in};

use crate::entries::Entries;
use crate::entry::{Entry, EntryRef};
use crate::spare::Spare;
use fast_template::{Key, TemplateSet};
use std::alloc::{AllocError, Global};
use std::mem;

/// Entries of the keys of one template set, in a vector by slot.
///
/// A look-up takes the same time for each key, and no change of an entry asks for memory for its key.
#[derive(Drop)]
pub struct SlotEntries<'a> {
    set: &'a TemplateSet,
    entries: Vec<Entry>,
    ghost one_each: { vec_len entries ≡ set.now.slots },
    ghost below: { AreBelow set.now },
    ghost own_slots: { HaveOwnSlots set.now },
}

impl<'a> SlotEntries<'a> {
    /// Entries that are all undefined, for the keys of a set.
    ///
    /// # Errors
    ///
    /// Where memory is refused.
    pub fn new(alloc: Global, set: &'a TemplateSet) -> Result<SlotEntries<'a>, AllocError>
        ensures empty { IfOk result
            (λ s. ⟦<SlotEntries<'a> as Entries>⟧.contents s ≡ map.empty) }
        ensures keys { IfOk result
            (λ s. ⟦<SlotEntries<'a> as Entries>⟧.serves s ≡ is_key_in set.now) }
        ensures serves_all { IfOk result (λ s. (k : KeyOf) → Contains (keys_in set.now) k
            → IsTrue (⟦<SlotEntries<'a> as Entries>⟧.serves s k)) }
    {
        let slots = set.slots();
        let mut entries = Vec::with_capacity(alloc, slots as usize)?;
        for _ in 0..slots {
            entries.push(Entry::Undefined)?;
        }
        Ok(SlotEntries { set, entries })
    }
}

impl Entries for SlotEntries<'_> {
    ghost contents = { λ s. dictionary_in s.set.now s.entries.items };

    ghost serves = { λ s. is_key_in s.set.now };

    ghost takes_memory = { false };

    #[inline(always)]
    fn get(&self, key: &Key) -> EntryRef<'_> {
        self.entries[key.slot as usize].view()
    }

    #[inline(always)]
    fn entry_mut(&mut self, key: &Key) -> Result<&mut Entry, AllocError> {
        Ok(&mut self.entries[key.slot as usize])
    }

    fn reset(&mut self) {
        undefine(&mut self.entries);
    }

    fn reset_into(&mut self, spare: &mut Spare) {
        undefine_into(&mut self.entries, spare);
    }

    fn copy(&self, alloc: Global) -> Result<Self, AllocError> {
        let entries = copies(&self.entries, alloc)?;
        Ok(SlotEntries {
            set: self.set,
            entries,
        })
    }
}

// Makes every entry undefined.
fn undefine(entries: &mut Vec<Entry>)
    ensures undefined { AllUndefined entries.new.items }
    ensures len { vec_len entries.new ≡ vec_len entries.old }
{
    for slot in 0..entries.len() {
        entries[slot] = Entry::Undefined;
    }
}

// The same, and keeps the memory of their strings.
fn undefine_into(entries: &mut Vec<Entry>, spare: &mut Spare)
    ensures undefined { AllUndefined entries.new.items }
    ensures len { vec_len entries.new ≡ vec_len entries.old }
{
    for slot in 0..entries.len() {
        spare.keep_entry(mem::replace(&mut entries[slot], Entry::Undefined));
    }
}

// The same entries once more.
fn copies(entries: &[Entry], alloc: Global) -> Result<Vec<Entry>, AllocError>
    ensures { IfOk result (λ copy. copy.items ≡ entries.now) }
{
    let mut copy = Vec::with_capacity(alloc, entries.len())?;
    for entry in entries {
        copy.push(entry.view().copy(alloc)?)?;
    }
    Ok(copy)
}
