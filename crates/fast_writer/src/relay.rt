//! A part that is taken, and its best form appended, one after the other.

ghost use Rattle.std.specs.Prelude.{◌≡◌, ◌≤◌, ◌++◌, IsTrue, OnOk, length, false, true};
ghost use Rattle.fast_walk.specs.Told.{KeepScalars};
ghost use Rattle.fast_template.specs.Resolved.{part_needs_bit as part_needs_bit_of};
ghost use Rattle.fast_field.specs.Parts.{IsFieldPart};
ghost use Rattle.fast_take.specs.Takes.{best_bit, best_form, first_of, place_of};
ghost use Rattle.fast_wire.specs.PresenceMap.{next_bit};
ghost use Rattle.fast_writer.specs.Drafts.{Marked};
ghost use Rattle.fast_writer.specs.Quick.{RelaysField};

use crate::run::Run;
use fast_dictionary::Entries;
use fast_field::FieldFault;
use fast_take::{Aside, Took, take};
use fast_template::{FieldPart, part_needs_bit};
use fast_wire::Level;
use std::alloc::AllocError;

/// Appends the best form of a part that was taken, and passes its bit.
#[inline(always)]
pub(crate) fn put_at_once(
    run: &mut Run,
    needs: bool,
    bit: bool,
    took: Took,
    aside: &Aside,
    bytes: &[u8],
    at: usize,
) -> Result<(), AllocError>
    requires place { (at ≤ place_of took) × (place_of took ≤ length bytes.now) }
    requires first { first_of at aside.now took ≤ place_of took }
    requires none { run.now.passed ≡ 0 }
    requires bit { needs ≡ true → bit ≡ next_bit run.now.draft.inner.left }
    requires lower { needs ≡ true → bit ≡ false → best_bit bit aside.now took ≡ false }
    ensures around { run.new.draft.around ≡ run.old.draft.around }
    ensures none { run.new.passed ≡ 0 }
    ensures marked { OnOk result (Marked needs (best_bit bit aside.now took) run.old.draft.inner run.new.draft.inner) }
    ensures bytes { OnOk result (run.new.draft.inner.bytes
        ≡ run.old.draft.inner.bytes ++ best_form bytes.now at aside.now took) }
{
    run.mark_at_once(needs, bit, took.best_bit(bit, aside));
    run.begin(at);
    if !run.put_taken(took, aside, bytes) || !run.flush(bytes) {
        return Err(AllocError);
    }
    Ok(())
}

/// Takes a part that the walk over a segment has left, and appends its best form to the segment; answers whether its value is
/// there, and the place behind what was read. (A call of its own, so that the walk over a segment has room for one answer
/// only.)
#[inline(never)]
#[tactic(auto, using(fast_walk::proofs::Telling::kept_hold))]
pub(crate) fn relay_part<E: Entries>(
    entries: &mut E,
    part: &FieldPart,
    bit: bool,
    level: Level,
    bytes: &[u8],
    at: usize,
    run: &mut Run,
    aside: &mut Aside,
) -> Result<(bool, usize), FieldFault>
    requires place { at ≤ length bytes.now }
    requires bit { part_needs_bit_of part.now ≡ false → bit ≡ true }
    requires none { run.now.passed ≡ 0 }
    requires next { part_needs_bit_of part.now ≡ true → bit ≡ next_bit run.now.draft.inner.left }
    requires served { IsTrue (E.serves entries.now part.now.key) }
    requires part { IsFieldPart part.now }
    requires kept { KeepScalars (E.contents entries.now) }
    ensures relays { RelaysField level part.now (E.contents entries.old) (E.contents entries.new) bit
        bytes.now at run.old.draft.inner run.new.draft.inner result }
    ensures around { run.new.draft.around ≡ run.old.draft.around }
    ensures none { run.new.passed ≡ 0 }
    ensures same_keys { E.serves entries.new ≡ E.serves entries.old }
{
    let entry = entries.entry_mut(&part.key)?;
    let took = take(part, entry, bit, level, bytes, at, aside)?;
    put_at_once(run, part_needs_bit(part), bit, took, aside, bytes, at)?;
    Ok((took.is_there(aside), took.place()))
}
