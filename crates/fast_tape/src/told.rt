//! Takes a field's value from the bytes, and tells it from where it lies.

ghost use Rattle.std.specs.Prelude.{◌≡◌, ◌≢◌, ◌≤◌, true, false, Option, Err, IfOk, IfErr, IsTrue, length, drop};
ghost use Rattle.fast_value.specs.declared.scalar.Scalar.{Scalar as ScalarOf};
ghost use Rattle.fast_dictionary.specs.Dictionary.{entry_at};
ghost use Rattle.fast_field.specs.FieldReading.{field_at};
ghost use Rattle.fast_field.specs.Parts.{IsBitOf, IsFieldPart};
ghost use Rattle.fast_field.specs.Within.{HoldsScalar};
ghost use Rattle.fast_walk.specs.Received.{Took};
ghost use Rattle.fast_walk.specs.Told.{IsTold, KeepScalars};
ghost use Rattle.fast_template.specs.Resolved.{part_needs_bit};
ghost use Rattle.fast_value.specs.declared.kind.Part.TheVariants.{Whole};
ghost use Rattle.fast_tape.specs.Open.{Adds};
ghost use Rattle.fast_tape.specs.Tapes.{tells};
ghost use Rattle.fast_tape.specs.Taking.{TellsNext};

use crate::open::OpenTape;
use fast_dictionary::{Entries, Entry};
use fast_field::FieldFault;
use fast_take::{Aside, Room, take};
use fast_template::FieldPart;
use fast_wire::Level;
use std::alloc::Global;

// Takes a field's value, and tells it from where it lies.
#[inline(always)]
fn take_and_tell(
    alloc: Global,
    part: &FieldPart,
    entry: &mut Entry,
    bit: bool,
    level: Level,
    bytes: &[u8],
    at: usize,
    tape: &mut OpenTape,
    aside: &mut Aside,
    room: &mut Room,
) -> Result<usize, FieldFault>
    requires place { at ≤ length bytes.now }
    requires bit { IsBitOf part.now bit }
    requires part { IsFieldPart part.now }
    requires kept { HoldsScalar entry.old }
    ensures { TellsNext level part.now bit bytes.now at result entry.old entry.new tape.old tape.new }
{
    let took = take(part, entry, bit, level, bytes, at, aside)?;
    let value = aside.value(alloc, took, part, entry, bit, bytes, room)?;
    tape.push_value(part.number, part.key.slot, value)?;
    Ok(took.place())
}

/// Takes a field's value from the bytes, makes its entry the one afterwards, and tells the value.
///
/// # Errors
///
/// The first fault of the field, and then nothing has changed. Memory: a growth was refused.
#[inline(always)]
pub fn tell<E: Entries>(
    alloc: Global,
    entries: &mut E,
    part: &FieldPart,
    bit: bool,
    level: Level,
    bytes: &[u8],
    at: usize,
    tape: &mut OpenTape,
    aside: &mut Aside,
    room: &mut Room,
) -> Result<usize, FieldFault>
    requires place { at ≤ length bytes.now }
    requires served { IsTrue (E.serves entries.now part.now.key) }
    requires told { IsTold Whole part.now.kind part.now }
    requires bit { part_needs_bit part.now ≡ false → bit ≡ true }
    requires kept { KeepScalars (E.contents entries.now) }
    ensures place { IfOk result (λ n. (at ≤ n) × (n ≤ length bytes.now)) }
    ensures told { IfOk result (λ n. (v : Option ScalarOf)
        × Took level part.now bit (E.contents entries.old) (E.contents entries.new) v
        (drop at bytes.now) (drop n bytes.now)
        × Adds (tells v) tape.old tape.new) }
    ensures stops { IfErr result (λ f. f ≢ FieldFault.Memory
        → (field_at level part.now (entry_at (E.contents entries.old) part.now.key) bit
        (drop at bytes.now) ≡ Err f)
        × (E.contents entries.new ≡ E.contents entries.old) × (tape.new ≡ tape.old)) }
    ensures same_keys { E.serves entries.new ≡ E.serves entries.old }
{
    let entry = entries.entry_mut(&part.key)?;
    let next = take_and_tell(alloc, part, entry, bit, level, bytes, at, tape, aside, room)?;
    Ok(next)
}
