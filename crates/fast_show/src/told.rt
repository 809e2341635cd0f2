//! Takes a field's value from the bytes, and tells it from where it lies.

ghost use Rattle.std.specs.Prelude.{◌≡◌, ◌≢◌, ◌≤◌, true, false, Option, Err, IfOk, IfErr, IsTrue, length, drop};
ghost use Rattle.fast_value.specs.declared.scalar.Scalar.{Scalar as ScalarOf};
ghost use Rattle.fast_dictionary.specs.Dictionary.{entry_at};
ghost use Rattle.fast_field.specs.FieldReading.{field_at};
ghost use Rattle.fast_field.specs.Parts.{IsBitOf};
ghost use Rattle.fast_stream.specs.Nodes.{single};
ghost use Rattle.fast_walk.specs.Received.{Took};
ghost use Rattle.fast_walk.specs.Told.{IsTold, KeepScalars};
ghost use Rattle.fast_template.specs.Resolved.{part_needs_bit};
ghost use Rattle.fast_value.specs.declared.kind.Part.TheVariants.{Whole};
ghost use Rattle.fast_lines.specs.Lines.{field_text};
ghost use Rattle.fast_show.specs.Taking.{CanTake, TellsNext};
ghost use Rattle.fast_show.specs.Told.{Said, line_now};

use crate::line::Line;
use fast_dictionary::{Entries, Entry};
use fast_field::FieldFault;
use fast_lines::Signs;
use fast_take::{Aside, Room, take_left_out, take_sent};
use fast_template::{FieldPart, Name, Part, Presence};
use fast_wire::Level;
use std::alloc::Global;

// Takes what was sent of a field, and tells its value from where it lies.
#[inline(always)]
fn tell_sent<S: Signs>(
    signs: S,
    alloc: Global,
    name: &Name,
    part: &FieldPart,
    entry: &mut Entry,
    level: Level,
    bytes: &[u8],
    at: usize,
    line: &mut Line,
    aside: &mut Aside,
    room: &mut Room,
) -> Result<usize, FieldFault>
    requires next { CanTake part.now entry.old bytes.now at }
    ensures { TellsNext S.form level name.now part.now true bytes.now at result entry.old entry.new line.old line.new }
{
    let took = take_sent(part, entry, level, bytes, at, aside)?;
    let value = aside.value(alloc, took, part, entry, true, bytes, room)?;
    line.tell(signs, name, part, value)?;
    Ok(took.place())
}

// Takes what bit 0 gives a field, and tells its value from where it lies.
#[inline(always)]
fn tell_left_out<S: Signs>(
    signs: S,
    name: &Name,
    part: &FieldPart,
    entry: &mut Entry,
    level: Level,
    bytes: &[u8],
    at: usize,
    line: &mut Line,
    aside: &mut Aside,
) -> Result<usize, FieldFault>
    requires next { CanTake part.now entry.old bytes.now at }
    requires bit { IsBitOf part.now false }
    requires whole { part.now.part ≡ Whole }
    ensures { TellsNext S.form level name.now part.now false bytes.now at result entry.old entry.new line.old line.new }
{
    let took = take_left_out(Part::Whole, part, entry, level, bytes, at, aside)?;
    let value = aside.value_left_out(took, part, entry);
    line.tell(signs, name, part, value)?;
    Ok(took.place())
}

// The same under any bit: what bit 0 gives and what was sent come together nowhere, so that neither is asked which it was.
#[inline(always)]
fn take_and_tell<S: Signs>(
    signs: S,
    alloc: Global,
    name: &Name,
    part: &FieldPart,
    entry: &mut Entry,
    bit: bool,
    level: Level,
    bytes: &[u8],
    at: usize,
    line: &mut Line,
    aside: &mut Aside,
    room: &mut Room,
) -> Result<usize, FieldFault>
    requires next { CanTake part.now entry.old bytes.now at }
    requires bit { IsBitOf part.now bit }
    requires whole { part.now.part ≡ Whole }
    ensures { TellsNext S.form level name.now part.now bit bytes.now at result entry.old entry.new line.old line.new }
{
    if bit {
        tell_sent(
            signs, alloc, name, part, entry, level, bytes, at, line, aside, room,
        )
    } else {
        tell_left_out(signs, name, part, entry, level, bytes, at, line, aside)
    }
}

/// Takes a field's value from the bytes, makes its entry the one afterwards, and tells the value.
///
/// # Errors
///
/// The first fault of the field, and then nothing has changed. Memory: a growth was refused.
#[inline(always)]
pub(crate) fn tell<S: Signs, E: Entries>(
    signs: S,
    alloc: Global,
    name: &Name,
    presence: Presence,
    entries: &mut E,
    part: &FieldPart,
    bit: bool,
    level: Level,
    bytes: &[u8],
    at: usize,
    line: &mut Line,
    aside: &mut Aside,
    room: &mut Room,
) -> Result<usize, FieldFault>
    requires place { at ≤ length bytes.now }
    requires served { IsTrue (E.serves entries.now part.now.key) }
    requires told { IsTold Whole part.now.kind part.now }
    requires presence { part.now.presence ≡ presence }
    requires bit { part_needs_bit part.now ≡ false → bit ≡ true }
    requires kept { KeepScalars (E.contents entries.now) }
    ensures place { IfOk result (λ n. (at ≤ n) × (n ≤ length bytes.now)) }
    ensures told { IfOk result (λ n. (v : Option ScalarOf)
        × Took level part.now bit (E.contents entries.old) (E.contents entries.new) v
        (drop at bytes.now) (drop n bytes.now)
        × Said S.form name.now (field_text S.form part.now.kind presence (single v)) (line_now S.form line.old)
        (line_now S.form line.new)) }
    ensures stops { IfErr result (λ f. f ≢ FieldFault.Memory
        → (field_at level part.now (entry_at (E.contents entries.old) part.now.key) bit
        (drop at bytes.now) ≡ Err f)
        × (E.contents entries.new ≡ E.contents entries.old) × (line.new ≡ line.old)) }
    ensures same_keys { E.serves entries.new ≡ E.serves entries.old }
{
    let entry = entries.entry_mut(&part.key)?;
    let next = take_and_tell(
        signs, alloc, name, part, entry, bit, level, bytes, at, line, aside, room,
    )?;
    Ok(next)
}
