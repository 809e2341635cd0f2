//! Fields that are taken one after the other, with no call of the walk between them.

ghost use Rattle.std.specs.Prelude.{◌≡◌, ◌≢◌, ◌≤◌, ◌<◌, ◌+◌, ◌-◌, ◌*◌, ◌^◌, ℕ, Bool, List, true, false, Option, None, IsSome, IfOk, IfSome, MatchOption, OnOk, IsTrue, length, drop, slice_range};
ghost use Rattle.fast_template.specs.Resolved.{instruction_of, list_of, part_needs_bit as part_needs_bit_of};
ghost use Rattle.fast_value.specs.declared.scalar.Scalar.{Scalar as ScalarOf};
ghost use Rattle.fast_dictionary.specs.declared.entry.Entry.{Entry as EntryOf};
ghost use Rattle.fast_stream.specs.Bits.{after_bit, bit_for};
ghost use Rattle.fast_field.specs.Parts.{IsFieldPart};
ghost use Rattle.fast_field.specs.Passed.{Passes};
ghost use Rattle.fast_field.specs.AsUsual.{ReadsAsUsual};
ghost use Rattle.fast_field.specs.Within.{HoldsScalar};
ghost use Rattle.fast_walk.specs.Told.{KeepScalars};
ghost use Rattle.fast_walk.specs.Walks.{AreServed, IsNextServed, IsServed};
ghost use Rattle.fast_walk.specs.Passing.{next_behind};
ghost use Rattle.fast_take.specs.Relayed.{IsThere};
ghost use Rattle.fast_take.specs.Best.{form_of};
ghost use Rattle.fast_take.specs.Judged.{IsJudged};
ghost use Rattle.fast_take.specs.Takes.{best_bit, best_form, first_of, is_there, place_of};
ghost use Rattle.fast_writer.specs.Drafts.{Marked, noted};
ghost use Rattle.fast_writer.specs.Runs.{IsRun, written};
ghost use Rattle.fast_wire.specs.PresenceMap.{next_bit};
ghost use Rattle.fast_writer.specs.Takings.{BeginsWith, IsFirstTold, MatchTaken, Takes, TakesPart, TakesUnder, TookFields, front_of};
ghost use Rattle.fast_value.specs.declared.key.Key.{Key};
ghost use Rattle.fast_value.specs.declared.kind.Kind.TheVariants.{Int32};
ghost use Rattle.fast_value.specs.declared.kind.Part.TheVariants.{Exponent, Whole};

use crate::run::Run;
use fast_dictionary::{Entries, Entry};
use fast_field::{FieldFault, Passed};
use fast_take::{Aside, Judged, is_always_there, judge_sent, pass_quickly, relay_judged};
use fast_template::{FieldPart, Flat, Part, part_needs_bit};
use fast_walk::{Fields, Leveled, take_for};
use fast_wire::{Bits, Level};
use std::alloc::AllocError;

/// What became of a part.
pub(crate) enum Taken {
    /// It was taken: whether its value is there.
    Part(bool),
    /// Nothing has changed: it has no reading, or the walk hands it on by itself.
    Elsewhere,
    /// Memory was refused.
    Refused,
}

// Takes a part that bit 0 gives.
#[inline(always)]
fn take_given<L: Leveled>(
    which: Part,
    part: &FieldPart,
    entry: &mut Entry,
    bits: &mut Bits,
    level: L,
    bytes: &[u8],
    run: &mut Run,
) -> Taken
    requires run { IsRun bytes.now run.now.place run.now }
    requires which { which ≡ part.now.part }
    requires part { IsFieldPart part.now }
    requires needs { IsTrue (part_needs_bit_of part.now) }
    requires bit { next_bit bits.now ≡ false }
    requires left { bits.now ≡ drop run.now.passed run.now.draft.inner.left }
    requires few { run.now.passed < 2 ^ 60 }
    ensures taken { TakesPart L.at part.now entry.old entry.new bits.old bits.new bytes.now
        run.old.place run.old run.new result }
    ensures around { run.new.draft.around ≡ run.old.draft.around }
    ensures few { run.new.passed ≤ run.old.passed + 1 }
{
    match pass_quickly(which, part, entry) {
        Passed::Present => {
            take_for(bits, true);
            run.mark(true, false, false);
            Taken::Part(true)
        }
        Passed::Absent => {
            take_for(bits, true);
            run.mark(true, false, false);
            Taken::Part(false)
        }
        Passed::Elsewhere => Taken::Elsewhere,
    }
}

// Takes a part that was judged, or is taken now. (A call of its own, so that the loop over fields has one for all that does
// not stand.)
#[inline(never)]
fn take_rest(
    judged: Judged,
    part: &FieldPart,
    entry: &mut Entry,
    bits: &mut Bits,
    level: Level,
    bytes: &[u8],
    run: &mut Run,
    aside: &mut Aside,
) -> Taken
    requires run { IsRun bytes.now run.now.place run.now }
    requires judged { (before : EntryOf) × IsJudged part.now before entry.now bytes.now run.now.place judged }
    requires usual { judged ≢ Judged.Elsewhere → ReadsAsUsual level part.now (drop run.now.place bytes.now) }
    requires kept { judged ≡ Judged.Elsewhere → HoldsScalar entry.now }
    requires part { IsFieldPart part.now }
    requires bit { bit_for (part_needs_bit_of part.now) bits.now ≡ true }
    requires left { bits.now ≡ drop run.now.passed run.now.draft.inner.left }
    requires few { run.now.passed < 2 ^ 60 }
    ensures taken { (before : EntryOf) → IsJudged part.now before entry.old bytes.now run.old.place judged
        → TakesPart level part.now before entry.new bits.old bits.new bytes.now run.old.place
        run.old run.new result }
    ensures around { run.new.draft.around ≡ run.old.draft.around }
    ensures few { run.new.passed ≤ run.old.passed + 1 }
{
    let at = run.place;
    match relay_judged(judged, part, entry, level, bytes, at, aside) {
        Err(FieldFault::Memory) => Taken::Refused,
        Err(_) => Taken::Elsewhere,
        Ok(took) => {
            let needs = part_needs_bit(part);
            take_for(bits, needs);
            run.mark(needs, true, took.best_bit(true, aside));
            if run.put_taken(took, aside, bytes) {
                Taken::Part(took.is_there(aside))
            } else {
                Taken::Refused
            }
        }
    }
}

// Takes a part that was sent.
#[inline(always)]
fn take_sent<L: Leveled>(
    which: Part,
    part: &FieldPart,
    entry: &mut Entry,
    bits: &mut Bits,
    level: L,
    bytes: &[u8],
    run: &mut Run,
    aside: &mut Aside,
) -> Taken
    requires run { IsRun bytes.now run.now.place run.now }
    requires which { which ≡ part.now.part }
    requires kept { HoldsScalar entry.now }
    requires part { IsFieldPart part.now }
    requires bit { bit_for (part_needs_bit_of part.now) bits.now ≡ true }
    requires left { bits.now ≡ drop run.now.passed run.now.draft.inner.left }
    requires few { run.now.passed < 2 ^ 60 }
    ensures taken { TakesPart L.at part.now entry.old entry.new bits.old bits.new bytes.now
        run.old.place run.old run.new result }
    ensures around { run.new.draft.around ≡ run.old.draft.around }
    ensures few { run.new.passed ≤ run.old.passed + 1 }
{
    let at = run.place;
    let spare = &mut aside.spare;
    match judge_sent(which, spare, part, entry, level.level(), bytes, at) {
        Judged::Stands(next) => {
            run.keep(next);
            let needs = part_needs_bit(part);
            take_for(bits, needs);
            run.mark(needs, true, true);
            Taken::Part(true)
        }
        judged => take_rest(judged, part, entry, bits, level.level(), bytes, run, aside),
    }
}

// Takes a part and its bit.
#[inline(always)]
#[tactic(auto, using(fast_walk::proofs::Telling::kept_hold, crate::proofs::Takings::taken_under, crate::proofs::Takings::always_there))]
fn take_part<L: Leveled, E: Entries>(
    which: Part,
    entries: &mut E,
    part: &FieldPart,
    bits: &mut Bits,
    level: L,
    bytes: &[u8],
    run: &mut Run,
    aside: &mut Aside,
) -> Taken
    requires run { IsRun bytes.now run.now.place run.now }
    requires which { which ≡ part.now.part }
    requires served { IsTrue (E.serves entries.now part.now.key) }
    requires part { IsFieldPart part.now }
    requires kept { KeepScalars (E.contents entries.now) }
    requires left { bits.now ≡ drop run.now.passed run.now.draft.inner.left }
    requires few { run.now.passed < 2 ^ 60 }
    ensures taken { TakesUnder L.at part.now (E.contents entries.old) (E.contents entries.new) bits.old bits.new
        bytes.now run.old.place run.old run.new result }
    ensures around { run.new.draft.around ≡ run.old.draft.around }
    ensures few { run.new.passed ≤ run.old.passed + 1 }
    ensures same_keys { E.serves entries.new ≡ E.serves entries.old }
{
    // (most constants are: nothing is to be done)
    if is_always_there(which, part) {
        return Taken::Part(true);
    }
    match entries.entry_mut(&part.key) {
        Err(_) => Taken::Refused,
        Ok(entry) => {
            // one way for each bit, so that nothing is asked twice of what they answer
            if part_needs_bit(part) && !bits.first() {
                take_given(which, part, entry, bits, level, bytes, run)
            } else {
                take_sent(which, part, entry, bits, level, bytes, run, aside)
            }
        }
    }
}

// The part that a field begins with, and the mantissa behind the exponent of a decimal in parts. None for a group or
// a sequence.
#[inline(always)]
fn first_part(flat: &Flat) -> Option<(&FieldPart, Option<&FieldPart>)>
    requires { (serves : Key → Bool) × IsServed serves (instruction_of flat.now) }
    ensures begins { IfSome result (λ x. BeginsWith (instruction_of flat.now) x.0.now x.1) }
    ensures served { IfSome result (λ x. (serves : Key → Bool) → IsServed serves (instruction_of flat.now)
        → IsTrue (serves x.0.now.key) × IsFirstTold x.1 x.0.now × IsNextServed serves (next_behind x.1)) }
{
    match flat {
        Flat::Field { whole, .. } => Some((whole, None)),
        Flat::Parts {
            exponent,
            mantissa,
            ..
        } => Some((exponent, Some(mantissa))),
        Flat::Group { .. } | Flat::Sequence { .. } => None,
    }
}

// Takes fields from the front of a body, up to what is no field, or goes by itself. Answers the instructions behind
// them, and the mantissa that is next where only the exponent of the last one was taken.
fn take_all<'a, L: Leveled, E: Entries>(
    rest: &'a [Flat],
    entries: &mut E,
    bits: &mut Bits,
    level: L,
    bytes: &[u8],
    run: &mut Run,
    aside: &mut Aside,
) -> Result<(&'a [Flat], Option<&'a FieldPart>), AllocError>
    requires run { IsRun bytes.now run.now.place run.now }
    requires served { AreServed (E.serves entries.now) (list_of rest.now) }
    requires kept { KeepScalars (E.contents entries.now) }
    requires left { bits.now ≡ run.now.draft.inner.left }
    requires few { length rest.now < 2 ^ 32 }
    requires none { run.now.passed ≡ 0 }
    ensures run { OnOk result (IsRun bytes.now run.new.place run.new) }
    ensures around { run.new.draft.around ≡ run.old.draft.around }
    ensures fewer { IfOk result (λ x. length x.0.now ≤ length rest.now) }
    ensures took { IfOk result (λ x. TookFields L.at (E.serves entries.old) rest.now bytes.now
        (noted bytes.now run.old) (E.contents entries.old) bits.old run.old.place
        (length rest.now - length x.0.now) x.1 (noted bytes.now run.new) (E.contents entries.new) bits.new run.new.place) }
    ensures same_keys { E.serves entries.new ≡ E.serves entries.old }
{
    // no function of its own: what it changes stays in registers here (the instructions go by a slice, since an index would not)
    let mut others = rest;
    'pieces: while let Some(flat) = others.first() {
        match first_part(flat) {
            None => return Ok((others, None)),
            Some((whole, None)) => match take_part(
                Part::Whole,
                entries,
                whole,
                bits,
                level,
                bytes,
                run,
                aside,
            ) {
                Taken::Part(_there) => others = &others[1..],
                Taken::Elsewhere => return Ok((others, None)),
                Taken::Refused => return Err(AllocError),
            },
            Some((exponent, Some(mantissa))) => match take_part(
                Part::Exponent,
                entries,
                exponent,
                bits,
                level,
                bytes,
                run,
                aside,
            ) {
                Taken::Part(true) => match take_part(
                    Part::Mantissa,
                    entries,
                    mantissa,
                    bits,
                    level,
                    bytes,
                    run,
                    aside,
                ) {
                    Taken::Part(_there) => others = &others[1..],
                    Taken::Elsewhere => return Ok((&others[1..], Some(mantissa))),
                    Taken::Refused => return Err(AllocError),
                },
                Taken::Part(false) => others = &others[1..],
                Taken::Elsewhere => return Ok((others, None)),
                Taken::Refused => return Err(AllocError),
            },
        }
    }
    Ok((others, None))
}

// Takes fields from the front of a body, and appends what is noted of them. Answers how many instructions were passed, and puts
// the mantissa that is next where one is. (No call of its own: the walk has one place from which it comes.)
#[inline(always)]
fn take_run<'a, L: Leveled, E: Entries>(
    rest: &'a [Flat],
    entries: &mut E,
    bits: &mut Bits,
    level: L,
    bytes: &[u8],
    run: &mut Run,
    aside: &mut Aside,
    mantissa: &mut Option<&'a FieldPart>,
) -> Result<usize, AllocError>
    requires run { IsRun bytes.now run.now.place run.now }
    requires served { AreServed (E.serves entries.now) (list_of rest.now) }
    requires kept { KeepScalars (E.contents entries.now) }
    requires left { bits.now ≡ run.now.draft.inner.left }
    requires few { length rest.now < 2 ^ 32 }
    requires none { run.now.passed ≡ 0 }
    ensures none { OnOk result (run.new.passed ≡ 0) }
    ensures within { OnOk result (run.new.place ≤ length bytes.now) }
    ensures around { run.new.draft.around ≡ run.old.draft.around }
    ensures took { IfOk result (λ n. TookFields L.at (E.serves entries.old) rest.now bytes.now
        (noted bytes.now run.old) (E.contents entries.old) bits.old run.old.place
        n mantissa.new run.new.draft.inner (E.contents entries.new) bits.new run.new.place) }
    ensures same_keys { E.serves entries.new ≡ E.serves entries.old }
{
    let (others, next) = take_all(rest, entries, bits, level, bytes, run, aside)?;
    run.settle();
    if !run.flush_short(bytes) {
        return Err(AllocError);
    }
    *mantissa = next;
    Ok(rest.len() - others.len())
}

/// Takes fields from the front of the open body, up to what is no field, or goes by itself.
#[inline(always)]
pub(crate) fn take_fields<'a, L: Leveled, E: Entries>(
    entries: &mut E,
    rest: &'a [Flat],
    bits: &mut Bits,
    spare: u32,
    level: L,
    bytes: &[u8],
    at: usize,
    run: &mut Run,
    aside: &mut Aside,
) -> Result<Fields<'a>, AllocError>
    requires place { at ≤ length bytes.now }
    requires served { AreServed (E.serves entries.now) (list_of rest.now) }
    requires kept { KeepScalars (E.contents entries.now) }
    requires left { bits.now ≡ run.now.draft.inner.left }
    requires none { run.now.passed ≡ 0 }
    ensures none { OnOk result (run.new.passed ≡ 0) }
    ensures place { IfOk result (λ f. (at ≤ f.place) × (f.place ≤ length bytes.now)) }
    ensures few { IfOk result (λ f. f.spare ≤ spare) }
    ensures fewer { IfOk result (λ f. IsSome f.mantissa → f.spare < spare) }
    ensures served { IfOk result (λ f. AreServed (E.serves entries.old) (list_of f.rest.now)
        × IsNextServed (E.serves entries.old) (next_behind f.mantissa)) }
    ensures takes { IfOk result (λ f. Takes L.at bytes.now run.old.draft.inner
        (E.contents entries.old) bits.old
        (record { mantissa = None; rest = list_of rest.now; spare = spare; place = at })
        run.new.draft.inner (E.contents entries.new) bits.new (front_of f)) }
    ensures around { run.new.draft.around ≡ run.old.draft.around }
    ensures left { OnOk result (bits.new ≡ run.new.draft.inner.left) }
    ensures kept { OnOk result (KeepScalars (E.contents entries.new)) }
    ensures same_keys { E.serves entries.new ≡ E.serves entries.old }
{
    // (asked once for all of them: near the greatest number of nodes each field goes by itself)
    if rest.len() > spare as usize {
        return Ok(Fields {
            mantissa: None,
            rest,
            spare,
            place: at,
        });
    }
    run.begin(at);
    let mut mantissa = None;
    let count = take_run(rest, entries, bits, level, bytes, run, aside, &mut mantissa)?;
    Ok(Fields {
        mantissa,
        rest: &rest[count..],
        spare: spare - count as u32,
        place: run.place,
    })
}
