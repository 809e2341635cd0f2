//! The identifier of a template or the length of a sequence, read and written at once: a part whose number is wanted.

ghost use Rattle.std.specs.Prelude.{◌≡◌, ◌<◌, ◌≤◌, MatchOption, IfSome, IsTrue, Some, drop, length, false, true};
ghost use Rattle.fast_template.specs.Resolved.{part_needs_bit as part_needs_bit_of};
ghost use Rattle.fast_value.specs.declared.kind.Kind.TheVariants.{UInt32};
ghost use Rattle.fast_value.specs.declared.kind.Operator.TheVariants.{Copy};
ghost use Rattle.fast_value.specs.declared.kind.Part.TheVariants.{Whole};
ghost use Rattle.fast_value.specs.declared.scalar.Scalar.TheVariants.{U32};
ghost use Rattle.fast_field.specs.AsUsual.{ReadsAsUsual};
ghost use Rattle.fast_field.specs.Parts.{IsFieldPart};
ghost use Rattle.fast_field.specs.Passed.{Passes};
ghost use Rattle.fast_take.specs.OneByte.{StandsByte};
ghost use Rattle.fast_walk.specs.Received.{length_of};
ghost use Rattle.fast_walk.specs.Told.{KeepScalars};
ghost use Rattle.fast_wire.specs.PresenceMap.{next_bit};
ghost use Rattle.fast_writer.specs.Quick.{RelaysCount};

use crate::relay::put_at_once;
use crate::run::Run;
use fast_dictionary::{Entries, Entry};
use fast_field::{FieldFault, reads_as_usual};
use fast_take::{Aside, take, take_short_number};
use fast_template::{FieldPart, Scalar, part_needs_bit};
use fast_wire::Level;

// The number of the entry, which bit 0 repeats. None: the part goes the general way.
#[inline(always)]
fn repeat_count(part: &FieldPart, entry: &Entry) -> Option<u32>
    requires copied { part.now.operator ≡ Copy }
    requires kind { part.now.kind ≡ UInt32 }
    requires whole { part.now.part ≡ Whole }
    ensures { IfSome result (λ count. Passes part.now entry.now entry.now (Some (U32 count))) }
{
    match entry {
        Entry::Assigned(value) => match value {
            Scalar::U32(number) => Some(*number),
            _ => None,
        },
        Entry::Undefined | Entry::Empty => None,
    }
}

/// Takes a part that is a number without sign of 32 bits, and appends the best form of its value to a segment; answers
/// the number, none where it is absent, and the place behind what was read.
#[inline(never)]
#[tactic(auto, using(fast_walk::proofs::Telling::kept_hold))]
pub(crate) fn relay_count<E: Entries>(
    entries: &mut E,
    part: &FieldPart,
    bit: bool,
    level: Level,
    bytes: &[u8],
    at: usize,
    run: &mut Run,
    aside: &mut Aside,
) -> Result<(Option<u32>, usize), FieldFault>
    requires place { at ≤ length bytes.now }
    requires bit { part_needs_bit_of part.now ≡ false → bit ≡ true }
    requires none { run.now.passed ≡ 0 }
    requires next { part_needs_bit_of part.now ≡ true → bit ≡ next_bit run.now.draft.inner.left }
    requires served { IsTrue (E.serves entries.now part.now.key) }
    requires part { IsFieldPart part.now }
    requires kept { KeepScalars (E.contents entries.now) }
    requires kind { part.now.kind ≡ UInt32 }
    ensures relays { RelaysCount level part.now (E.contents entries.old) (E.contents entries.new) bit
        bytes.now at run.old.draft.inner run.new.draft.inner result }
    ensures around { run.new.draft.around ≡ run.old.draft.around }
    ensures none { run.new.passed ≡ 0 }
    ensures same_keys { E.serves entries.new ≡ E.serves entries.old }
{
    let entry = entries.entry_mut(&part.key)?;
    let took = take(part, entry, bit, level, bytes, at, aside)?;
    let count = aside.count_in(took, part, entry, bit);
    put_at_once(run, part_needs_bit(part), bit, took, aside, bytes, at)?;
    Ok((count, took.place()))
}

// Takes a number of one byte that is best as it stands. None: nothing has changed, and the part goes the general way.
#[inline(always)]
fn short_count(
    part: &FieldPart,
    entry: &mut Entry,
    level: Level,
    bytes: &[u8],
    at: usize,
) -> Option<u32>
    requires place { at ≤ length bytes.now }
    requires kind { part.now.kind ≡ UInt32 }
    requires whole { part.now.part ≡ Whole }
    ensures { MatchOption result (entry.new ≡ entry.old) (λ count. (at < length bytes.now)
        × ReadsAsUsual level part.now (drop at bytes.now)
        × StandsByte part.now entry.old entry.new count bytes.now at) }
{
    if !reads_as_usual(level, part, bytes, at) {
        return None;
    }
    take_short_number(part, entry, bytes, at)
}

// The same as `relay_count` of an identifier that was sent, as most are in one byte.
#[inline(always)]
#[tactic(auto, using(fast_walk::proofs::Telling::kept_hold))]
fn relay_sent_identifier<E: Entries>(
    entries: &mut E,
    part: &FieldPart,
    level: Level,
    bytes: &[u8],
    at: usize,
    run: &mut Run,
    aside: &mut Aside,
) -> Result<(Option<u32>, usize), FieldFault>
    requires place { at ≤ length bytes.now }
    requires none { run.now.passed ≡ 0 }
    requires needs { part_needs_bit_of part.now ≡ true }
    requires next { true ≡ next_bit run.now.draft.inner.left }
    requires served { IsTrue (E.serves entries.now part.now.key) }
    requires part { IsFieldPart part.now }
    requires kept { KeepScalars (E.contents entries.now) }
    requires kind { part.now.kind ≡ UInt32 }
    requires whole { part.now.part ≡ Whole }
    ensures relays { RelaysCount level part.now (E.contents entries.old) (E.contents entries.new) true
        bytes.now at run.old.draft.inner run.new.draft.inner result }
    ensures around { run.new.draft.around ≡ run.old.draft.around }
    ensures none { run.new.passed ≡ 0 }
    ensures same_keys { E.serves entries.new ≡ E.serves entries.old }
{
    let entry = entries.entry_mut(&part.key)?;
    match short_count(part, entry, level, bytes, at) {
        None => relay_count(entries, part, true, level, bytes, at, run, aside),
        Some(count) => {
            match run.draft.push(bytes[at]) {
                Err(_) => return Err(FieldFault::Memory),
                Ok(()) => {}
            }
            run.mark_at_once(true, true, true);
            Ok((Some(count), at + 1))
        }
    }
}

/// The same of the identifier of a template. Most are the one before, so that no byte is read.
#[inline(always)]
pub(crate) fn relay_identifier<E: Entries>(
    entries: &mut E,
    part: &FieldPart,
    bit: bool,
    level: Level,
    bytes: &[u8],
    at: usize,
    run: &mut Run,
    aside: &mut Aside,
) -> Result<(Option<u32>, usize), FieldFault>
    requires place { at ≤ length bytes.now }
    requires needs { part_needs_bit_of part.now ≡ true }
    requires none { run.now.passed ≡ 0 }
    requires next { bit ≡ next_bit run.now.draft.inner.left }
    requires served { IsTrue (E.serves entries.now part.now.key) }
    requires part { IsFieldPart part.now }
    requires kept { KeepScalars (E.contents entries.now) }
    requires copied { part.now.operator ≡ Copy }
    requires kind { part.now.kind ≡ UInt32 }
    requires whole { part.now.part ≡ Whole }
    ensures relays { RelaysCount level part.now (E.contents entries.old) (E.contents entries.new) bit
        bytes.now at run.old.draft.inner run.new.draft.inner result }
    ensures around { run.new.draft.around ≡ run.old.draft.around }
    ensures none { run.new.passed ≡ 0 }
    ensures same_keys { E.serves entries.new ≡ E.serves entries.old }
{
    if bit {
        return relay_sent_identifier(entries, part, level, bytes, at, run, aside);
    }
    let entry = entries.entry_mut(&part.key)?;
    match repeat_count(part, entry) {
        None => relay_count(entries, part, bit, level, bytes, at, run, aside),
        Some(count) => {
            run.mark_at_once(true, false, false);
            Ok((Some(count), at))
        }
    }
}
