//! Unicode strings and byte vectors that are judged as they stand: whether their bytes are the best form of the value, or
//! bit 0 is. The entry goes on, and nothing is written. What is not served here goes the general way.

ghost use Rattle.std.specs.Prelude.{◌≡◌, ◌≢◌, ◌≤◌, ◌+◌, ◌<◌, ℕ, ℤ, pos, true, false, drop, length, IfNone, IfSome};
ghost use Rattle.fast_value.specs.declared.kind.Operator.TheVariants as operator_type;
ghost use Rattle.fast_value.specs.declared.kind.Part.TheVariants as part_type;
ghost use Rattle.fast_dictionary.specs.declared.entry.Entry.TheVariants as entry_type;
ghost use Rattle.fast_wire.specs.declared.level.Level.TheVariants.{Strict};
ghost use Rattle.fast_value.specs.declared.kind.Presence.TheVariants.{Mandatory};
ghost use Rattle.fast_field.specs.AsUsual.{ReadsAsUsual};
ghost use Rattle.fast_field.specs.Within.{HoldsScalar};
ghost use Rattle.fast_take.specs.Judged.{Gives, IsJudged, StandsAt, StandsFrom, UnitsGive, UnitsStandFrom};
ghost use Rattle.fast_take.specs.Numbers.{SpellsWhole};
ghost use Rattle.fast_take.specs.Texts.{IsVectorKind};

use crate::characters::is_text;
use crate::copied::put_part;
use crate::given::units_bit;
use crate::judged::{Judged, answer, is_refused};
use crate::one_byte::{find_removal, read_length, read_length_behind};
use crate::vector_units::{are_text, keep_bytes, make_units, may_end};
use fast_dictionary::{Entry, Spare};
use fast_field::{goes_on_otherwise, is_vector_cut_at_end, units};
use fast_template::{FieldPart, Kind, Operator, Presence, Scalar};
use fast_value::UNIT_LIMIT;
use fast_wire::Level;
use std::alloc::Global;

/// Where the bytes of a string or vector begin and end whose length is spelled in its shortest form: with it in front they
/// are the shortest form of the string or vector.
#[inline(always)]
fn find_shortest(kind: Kind, presence: Presence, bytes: &[u8], at: usize) -> Option<(usize, usize)>
    requires at { at ≤ length bytes.now }
    requires kind { IsVectorKind kind }
    ensures start { IfSome result (λ x. (at ≤ x.0) × (x.0 ≤ x.1)) }
    ensures end { IfSome result (λ x. x.1 ≤ length bytes.now) }
    ensures stands { IfSome result (λ x. UnitsStandFrom kind presence bytes.now at at x.0 x.1) }
    ensures length { IfSome result (λ x. (n : ℤ) × StandsAt true presence bytes.now at x.0 n) }
{
    let (count, start) = read_length(presence, bytes, at)?;
    if bytes.len() - start < count {
        return None;
    }
    Some((start, start + count))
}

/// The same of a string or vector whose length is spelled in its shortest form behind one needless group or two, which are
/// no part of the shortest form; answers first where that begins. (A call of its own, so that others do not pay for it.)
#[inline(never)]
fn find_behind(
    kind: Kind,
    presence: Presence,
    bytes: &[u8],
    at: usize,
) -> Option<(usize, usize, usize)>
    requires at { at ≤ length bytes.now }
    requires kind { IsVectorKind kind }
    ensures first { IfSome result (λ x. (at + 1 ≤ x.0) × (x.0 ≤ at + 2)) }
    ensures start { IfSome result (λ x. (x.0 ≤ x.1) × (x.1 ≤ x.2)) }
    ensures end { IfSome result (λ x. x.2 ≤ length bytes.now) }
    ensures stands { IfSome result (λ x. UnitsStandFrom kind presence bytes.now at x.0 x.1 x.2) }
{
    let (count, first, start) = read_length_behind(presence, bytes, at)?;
    if bytes.len() - start < count {
        return None;
    }
    Some((first, start, start + count))
}

/// The bit of the best form of a string or vector that is spelled whole; the entry goes on. None: nothing has changed, and
/// another way tells.
#[inline(always)]
fn judge_whole(spare: &mut Spare, instr: &FieldPart, entry: &mut Entry, part: &[u8]) -> Option<bool>
    requires part { instr.now.part ≡ part_type.Whole }
    requires operator { SpellsWhole instr.now.operator }
    requires kind { IsVectorKind instr.now.kind }
    ensures gives { IfSome result (λ bit. UnitsGive bit instr.now entry.old entry.new part.now) }
    ensures entry { IfNone result (entry.new ≡ entry.old) }
{
    if !are_text(instr.kind, part) {
        return None;
    }
    if units_bit(instr, entry, part)? {
        keep_bytes(spare, instr.kind, instr.operator, entry, part).then_some(true)
    } else {
        Some(false)
    }
}

/// The same of a new end of the string or vector that the entry has.
#[inline(always)]
fn judge_end(alloc: Global, instr: &FieldPart, value: &mut Scalar, part: &[u8]) -> Option<bool>
    requires part { instr.now.part ≡ part_type.Whole }
    requires operator { instr.now.operator ≡ operator_type.Tail }
    requires kind { IsVectorKind instr.now.kind }
    ensures gives { IfSome result (λ bit. UnitsGive bit instr.now (entry_type.Assigned value.old)
        (entry_type.Assigned value.new) part.now) }
    ensures value { IfNone result (value.new ≡ value.old) }
{
    if !is_text(instr.kind, value) {
        return None;
    }
    let base = units(value);
    if part.len() > base.len() {
        return None;
    }
    let kept = base.len() - part.len();
    if !goes_on_otherwise(base, kept, part) {
        return None;
    }
    if !are_text(instr.kind, part) || !may_end(instr.kind, base, kept) {
        return None;
    }
    put_part(alloc, instr.kind, value, kept, part).then_some(true)
}

/// The same of a new end of an empty entry: it is the whole value.
#[inline(always)]
fn judge_first(spare: &mut Spare, instr: &FieldPart, entry: &mut Entry, part: &[u8]) -> Option<bool>
    requires entry { entry.now ≡ entry_type.Empty }
    requires part { instr.now.part ≡ part_type.Whole }
    requires operator { instr.now.operator ≡ operator_type.Tail }
    requires kind { IsVectorKind instr.now.kind }
    ensures gives { IfSome result (λ bit. UnitsGive bit instr.now entry.old entry.new part.now) }
    ensures entry { IfNone result (entry.new ≡ entry.old) }
{
    if instr.initial.is_some() || part.is_empty() || !are_text(instr.kind, part) {
        return None;
    }
    let value = make_units(spare, instr.kind, part)?;
    *entry = Entry::Assigned(value);
    Some(true)
}

/// The same of a string or vector, or a new end of one.
#[inline(always)]
fn judge_units(spare: &mut Spare, instr: &FieldPart, entry: &mut Entry, part: &[u8]) -> Option<bool>
    requires part { instr.now.part ≡ part_type.Whole }
    requires kind { IsVectorKind instr.now.kind }
    ensures gives { IfSome result (λ bit. UnitsGive bit instr.now entry.old entry.new part.now) }
    ensures entry { IfNone result (entry.new ≡ entry.old) }
{
    match instr.operator {
        Operator::Plain | Operator::Default | Operator::Copy => {
            judge_whole(spare, instr, entry, part)
        }
        Operator::Tail => match entry {
            Entry::Assigned(value) => judge_end(spare.alloc(), instr, value, part),
            Entry::Empty => judge_first(spare, instr, entry, part),
            Entry::Undefined => None,
        },
        Operator::Constant | Operator::Increment | Operator::Delta => None,
    }
}

/// Judges a new part behind the removal of few bytes at the end of the string or vector that the entry has, which was read;
/// answers the place behind it, where both are the best form.
#[inline(always)]
fn judge_vector_delta(
    alloc: Global,
    instr: &FieldPart,
    value: &mut Scalar,
    removed: usize,
    bytes: &[u8],
    at: usize,
    first: usize,
    middle: usize,
) -> Option<usize>
    requires first { first ≤ middle }
    requires within { middle ≤ length bytes.now }
    requires few { removed < 63 }
    requires part { instr.now.part ≡ part_type.Whole }
    requires operator { instr.now.operator ≡ operator_type.Delta }
    requires kind { IsVectorKind instr.now.kind }
    requires stands { StandsFrom false instr.now.presence bytes.now at first middle (pos removed) }
    ensures place { IfSome result (λ next. (middle ≤ next) × (next ≤ length bytes.now)) }
    ensures judged { IfSome result (λ next. Gives true instr.now (entry_type.Assigned value.old)
        (entry_type.Assigned value.new) bytes.now at first next) }
    ensures length { IfSome result (λ next. (start : ℕ) × (n : ℤ) × (middle ≤ start)
        × StandsAt true Mandatory bytes.now middle start n) }
    ensures value { IfNone result (value.new ≡ value.old) }
{
    let (start, next) = find_shortest(instr.kind, Presence::Mandatory, bytes, middle)?;
    if !is_text(instr.kind, value) {
        return None;
    }
    let part = &bytes[start..next];
    let base = units(value);
    if removed > base.len() {
        return None;
    }
    let kept = base.len() - removed;
    if !goes_on_otherwise(base, kept, part) || !is_vector_cut_at_end(base, kept, part) {
        return None;
    }
    if !are_text(instr.kind, part) || !may_end(instr.kind, base, kept) {
        return None;
    }
    if part.len() > UNIT_LIMIT - kept {
        return None;
    }
    put_part(alloc, instr.kind, value, kept, part).then_some(next)
}

/// Judges a difference from the string or vector that the entry has.
#[inline(always)]
fn judge_difference(
    alloc: Global,
    instr: &FieldPart,
    value: &mut Scalar,
    level: Level,
    bytes: &[u8],
    at: usize,
) -> Judged
    requires at { at ≤ length bytes.now }
    requires part { instr.now.part ≡ part_type.Whole }
    requires operator { instr.now.operator ≡ operator_type.Delta }
    requires kind { IsVectorKind instr.now.kind }
    ensures judged { IsJudged instr.now (entry_type.Assigned value.old) (entry_type.Assigned value.new) bytes.now at result }
    ensures usual { result ≢ Judged.Elsewhere → ReadsAsUsual level instr.now (drop at bytes.now) }
{
    let Some((removed, first, middle)) = find_removal(instr.presence, bytes, at) else {
        return Judged::Elsewhere;
    };
    if is_refused(level, at, first) {
        return Judged::Elsewhere;
    }
    match judge_vector_delta(alloc, instr, value, removed, bytes, at, first, middle) {
        Some(next) => answer(Some(true), at, first, next),
        None => Judged::Elsewhere,
    }
}

/// Judges a Unicode string or byte vector that is read under bit 1, and makes the entry the one afterwards. It takes no
/// memory but what the entry needs. Elsewhere: nothing has changed, and another way tells; so it is at the strict level where a
/// group is needless.
#[inline(always)]
fn judge_vector_at(
    spare: &mut Spare,
    instr: &FieldPart,
    entry: &mut Entry,
    level: Level,
    bytes: &[u8],
    at: usize,
) -> Judged
    requires place { at ≤ length bytes.now }
    requires part { instr.now.part ≡ part_type.Whole }
    requires kind { IsVectorKind instr.now.kind }
    requires kept { HoldsScalar entry.now }
    ensures judged { IsJudged instr.now entry.old entry.new bytes.now at result }
    ensures usual { result ≢ Judged.Elsewhere → ReadsAsUsual level instr.now (drop at bytes.now) }
{
    if instr.operator == Operator::Delta {
        return match entry {
            Entry::Assigned(value) => judge_difference(
                spare.alloc(),
                instr,
                value,
                level,
                bytes,
                at,
            ),
            Entry::Undefined | Entry::Empty => Judged::Elsewhere,
        };
    }
    if let Some((start, next)) = find_shortest(instr.kind, instr.presence, bytes, at) {
        let bit = judge_units(spare, instr, entry, &bytes[start..next]);
        return answer(bit, at, at, next);
    }
    if level == Level::Strict {
        return Judged::Elsewhere;
    }
    match find_behind(instr.kind, instr.presence, bytes, at) {
        Some((first, start, next)) => {
            let bit = judge_units(spare, instr, entry, &bytes[start..next]);
            answer(bit, at, first, next)
        }
        None => Judged::Elsewhere,
    }
}

/// The same at the usual level. (A call of its own, so that the walk over a segment stays short.)
#[inline(never)]
pub(crate) fn judge_vector(
    spare: &mut Spare,
    instr: &FieldPart,
    entry: &mut Entry,
    bytes: &[u8],
    at: usize,
) -> Judged
    requires place { at ≤ length bytes.now }
    requires part { instr.now.part ≡ part_type.Whole }
    requires kind { IsVectorKind instr.now.kind }
    requires kept { HoldsScalar entry.now }
    ensures { IsJudged instr.now entry.old entry.new bytes.now at result }
{
    judge_vector_at(spare, instr, entry, Level::Usual, bytes, at)
}

/// The same at the strict level.
#[inline(never)]
pub(crate) fn judge_vector_strictly(
    spare: &mut Spare,
    instr: &FieldPart,
    entry: &mut Entry,
    bytes: &[u8],
    at: usize,
) -> Judged
    requires place { at ≤ length bytes.now }
    requires part { instr.now.part ≡ part_type.Whole }
    requires kind { IsVectorKind instr.now.kind }
    requires kept { HoldsScalar entry.now }
    ensures judged { IsJudged instr.now entry.old entry.new bytes.now at result }
    ensures usual { result ≢ Judged.Elsewhere → ReadsAsUsual Strict instr.now (drop at bytes.now) }
{
    judge_vector_at(spare, instr, entry, Level::Strict, bytes, at)
}
