//! Deltas: FAST 1.1, Field Operators, Delta Operator.

ghost use Rattle.std.specs.Prelude.{◌≡◌, ◌^◌, ◌≤◌, ◌<ℤ◌, ◌+◌, ◌+ℤ◌, ◌-ℤ◌, pos, negsuc, None, Ok, true, false, length, drop, IfNone, IfOk, IfSome, IsTrue};
ghost use Rattle.fast_wire.specs.declared.level.Level.TheVariants.{Usual};
ghost use Rattle.fast_dictionary.specs.Dictionary.{entry_of};
ghost use Rattle.fast_value.specs.Scalar.{in_range, is_integer};
ghost use Rattle.fast_value.specs.declared.kind.Kind.TheVariants as kind;
ghost use Rattle.fast_wire.specs.Reading.{Gives, GivesAt};
ghost use Rattle.fast_field.specs.Calls.{Answers, AnswersAt, IsSentRange, OrRefused};
ghost use Rattle.fast_field.specs.Chosen.{AppendsOne, Both, CanBeUnits, HasSize, IsDelta, IsSmall, OnBase, ShortestPart, ShortestSigned, length_size, part_size};
ghost use Rattle.fast_field.specs.Bases.{delta_base};
ghost use Rattle.fast_field.specs.Refusals.{delta_refusal};
ghost use Rattle.fast_field.specs.Values.{exponent_of, mantissa_of, units_of};
ghost use Rattle.fast_field.specs.Found.{base_or_default};
ghost use Rattle.std.specs.Option.{option_copied};
ghost use Rattle.fast_value.specs.declared.scalar.Scalar as scalar;
ghost use Rattle.fast_value.specs.declared.kind.Kind as kind_type;
ghost use Rattle.fast_field.specs.FieldReading.{decimal_delta_at, delta_at, integer_delta_at, integer_sum, limited_value, mantissa_delta_behind, new_part_behind, unit_delta_at};
ghost use Rattle.fast_field.specs.Deltas.{put_together, removed_of};
ghost use Rattle.fast_field.specs.Removals.{length_of};
ghost use Rattle.fast_field.specs.Sent.{IsSent, units_sent};

use crate::base::{base_decimal, base_number, base_of_delta, base_units, decimal, integer, units};
use crate::cut::best_cut;
use crate::fault::FieldFault;
use crate::pieces::Pieces;
use crate::string::{find_part, sent_behind, sent_in_front};
use crate::whole::{
    exponent_within, mantissa_within, read_integer, read_mantissa_entity, size_part, size_signed,
    value_of_integer, write_part, write_signed,
};
use fast_dictionary::{EntryRef, Spare};
use fast_template::{FieldPart, Kind, Presence, Scalar};
use fast_wire::{Level, Nullable, WireFault};

/// The number that a delta makes of one of at most 64 bits.
#[inline(always)]
fn added(base: i128, delta: i128) -> i128
    requires above { negsuc (2 ^ 64) <ℤ base }
    requires below { base <ℤ pos (2 ^ 64) }
    requires range { IsSentRange delta }
    ensures { result ≡ base +ℤ delta }
{
    base + delta
}

/// The integer that a base and a delta make.
#[tactic(auto, using(crate::proofs::CallSteps::call_steps), unfolding(crate::specs::FieldReading::integer_sum))]
#[inline(always)]
pub fn sum_of_delta(instr: &FieldPart, kept: EntryRef, delta: i128) -> Result<Scalar, FieldFault>
    requires kind { IsTrue (is_integer instr.now.kind) }
    requires range { IsSentRange delta }
    ensures { Answers (λ v. v) result (integer_sum instr.now (entry_of kept.entry) delta) }
{
    let base = base_number(base_of_delta(instr, kept)?);
    value_of_integer(instr.part, instr.kind, added(base, delta))
}

/// Reads what is added to an integer, and answers the sum.
#[tactic(auto, using(crate::proofs::CallSteps::call_steps), unfolding(crate::specs::FieldReading::integer_delta_at))]
#[inline(never)]
fn read_integer_delta(
    instr: &FieldPart,
    kept: EntryRef,
    level: Level,
    bytes: &[u8],
    at: usize,
) -> Result<(Option<Scalar>, usize), FieldFault>
    requires place { at ≤ length bytes.now }
    requires kind { IsTrue (is_integer instr.now.kind) }
    ensures place { IfOk result (λ x. (at ≤ x.1) × (x.1 ≤ length bytes.now)) }
    ensures gives { AnswersAt (integer_delta_at level instr.now (entry_of kept.entry))
        (λ v. v) bytes.now at result }
{
    let (delta, next) = read_integer(false, instr.presence, level, bytes, at)?;
    match delta {
        Nullable::Null => Ok((None, next)),
        Nullable::Value(delta) => Ok((Some(sum_of_delta(instr, kept, delta)?), next)),
    }
}

/// Reads what is added to a mantissa, behind an exponent, and answers the decimal.
#[tactic(auto, using(crate::proofs::CallSteps::call_steps), unfolding(crate::specs::FieldReading::mantissa_delta_behind, crate::specs::FieldReading::decimal_value))]
fn read_mantissa_delta(
    exponent: i128,
    base: i64,
    level: Level,
    bytes: &[u8],
    at: usize,
) -> Result<(Option<Scalar>, usize), FieldFault>
    requires { at ≤ length bytes.now }
    ensures place { IfOk result (λ x. (at ≤ x.1) × (x.1 ≤ length bytes.now)) }
    ensures gives { AnswersAt (mantissa_delta_behind level exponent base) (λ v. v) bytes.now at result }
{
    let Some(exponent) = exponent_within(exponent) else {
        return Err(FieldFault::R1);
    };
    let (delta, next) = read_mantissa_entity(level, bytes, at)?;
    match mantissa_within(added(i128::from(base), delta)) {
        Some(mantissa) => Ok((Some(Scalar::Decimal { exponent, mantissa }), next)),
        None => Err(FieldFault::R1),
    }
}

/// Reads what is added to an exponent and to a mantissa, and answers the decimal.
#[tactic(auto, using(crate::proofs::CallSteps::call_steps), unfolding(crate::specs::FieldReading::decimal_delta_at))]
fn read_decimal_delta(
    instr: &FieldPart,
    kept: EntryRef,
    level: Level,
    bytes: &[u8],
    at: usize,
) -> Result<(Option<Scalar>, usize), FieldFault>
    requires { at ≤ length bytes.now }
    ensures place { IfOk result (λ x. (at ≤ x.1) × (x.1 ≤ length bytes.now)) }
    ensures gives { AnswersAt (decimal_delta_at level instr.now (entry_of kept.entry))
        (λ v. v) bytes.now at result }
{
    let (delta, next) = read_integer(false, instr.presence, level, bytes, at)?;
    match delta {
        Nullable::Null => Ok((None, next)),
        Nullable::Value(delta) => {
            let (exponent, mantissa) = base_decimal(base_of_delta(instr, kept)?);
            let exponent = added(i128::from(exponent), delta);
            read_mantissa_delta(exponent, mantissa, level, bytes, next)
        }
    }
}

/// What a string or vector delta removes of its base: FAST 1.1, Field Operators, Delta Operator, subtraction length.
#[derive(Clone, Copy, Debug, PartialEq, Eq, Drop)]
pub enum Removal {
    /// So many units at the end.
    AtEnd(usize),
    /// So many units in front.
    InFront(usize),
}

/// What a subtraction length removes; of a number that is no int32, nothing is said.
fn removal_of(length: i128) -> Option<Removal>
    ensures some { IfSome result (λ r. (length ≡ length_of r)
        × (in_range kind.Int32 length ≡ true)) }
    ensures none { IfNone result (in_range kind.Int32 length ≡ false) }
{
    let length = i32::try_from(length).ok()?;
    if length >= 0 {
        Some(Removal::AtEnd(length as usize))
    } else {
        Some(Removal::InFront((-1 - length) as usize))
    }
}

/// How many units are removed.
#[inline(always)]
fn removed_units(removal: Removal) -> usize
    ensures { result ≡ removed_of (length_of removal) }
{
    match removal {
        Removal::AtEnd(removed) | Removal::InFront(removed) => removed,
    }
}

/// The base with a new part where units were removed, as a value. Limit: it has too many units.
#[inline(always)]
fn changed(
    spare: &mut Spare,
    kind: Kind,
    removal: Removal,
    base: &[u8],
    part: &[u8],
) -> Result<Scalar, FieldFault>
    requires there { removed_of (length_of removal) ≤ length base.now }
    requires sent { IsSent kind part.now }
    ensures { Gives OrRefused (λ v. v) result
        (limited_value kind (put_together (length_of removal) base.now
        (units_sent kind part.now))) }
{
    match removal {
        Removal::AtEnd(removed) => { sent_behind(spare, kind, &base[..base.len() - removed], part) }
        Removal::InFront(removed) => sent_in_front(spare, kind, part, &base[removed..]),
    }
}

/// Reads a new part, and puts it where units were removed.
#[tactic(auto, using(crate::proofs::CallSteps::call_steps), unfolding(crate::specs::FieldReading::new_part_behind))]
fn read_new_part(
    spare: &mut Spare,
    kind: Kind,
    removal: Removal,
    base: &[u8],
    level: Level,
    bytes: &[u8],
    at: usize,
) -> Result<(Option<Scalar>, usize), FieldFault>
    requires { at ≤ length bytes.now }
    ensures place { IfOk result (λ x. (at ≤ x.1) × (x.1 ≤ length bytes.now)) }
    ensures gives { GivesAt OrRefused (new_part_behind level kind (length_of removal) base.now)
        (λ v. v) bytes.now at result }
{
    if removed_units(removal) > base.len() {
        return Err(FieldFault::D7);
    }
    let (span, next) = find_part(kind, level, bytes, at)?;
    let value = changed(spare, kind, removal, base, &bytes[span.start..span.end])?;
    Ok((Some(value), next))
}

/// Reads the delta of a string or vector that begins at `at`, and answers the value that it makes, none where it is NULL,
/// and the place after it: FAST 1.1, Field Operators, Delta Operator. Memory only for the value.
#[tactic(auto, using(crate::proofs::CallSteps::call_steps), unfolding(crate::specs::FieldReading::unit_delta_at))]
fn read_unit_delta(
    spare: &mut Spare,
    instr: &FieldPart,
    kept: EntryRef,
    level: Level,
    bytes: &[u8],
    at: usize,
) -> Result<(Option<Scalar>, usize), FieldFault>
    requires { at ≤ length bytes.now }
    ensures place { IfOk result (λ x. (at ≤ x.1) × (x.1 ≤ length bytes.now)) }
    ensures gives { GivesAt OrRefused (unit_delta_at level instr.now (entry_of kept.entry))
        (λ v. v) bytes.now at result }
{
    let (length, next) = read_integer(false, instr.presence, level, bytes, at)?;
    match length {
        Nullable::Null => Ok((None, next)),
        Nullable::Value(length) => {
            let Some(removal) = removal_of(length) else {
                return Err(FieldFault::D7);
            };
            let base = base_units(base_of_delta(instr, kept)?);
            read_new_part(spare, instr.kind, removal, base, level, bytes, next)
        }
    }
}

/// Reads a delta, and answers the value that it makes and the place after it. Memory only for strings and vectors.
#[tactic(auto, unfolding(crate::specs::FieldReading::delta_at))]
#[inline(always)]
pub(crate) fn read_delta(
    spare: &mut Spare,
    instr: &FieldPart,
    kept: EntryRef,
    level: Level,
    bytes: &[u8],
    at: usize,
) -> Result<(Option<Scalar>, usize), FieldFault>
    requires { at ≤ length bytes.now }
    ensures place { IfOk result (λ x. (at ≤ x.1) × (x.1 ≤ length bytes.now)) }
    ensures gives { GivesAt OrRefused (delta_at level instr.now.kind instr.now (entry_of kept.entry))
        (λ v. v) bytes.now at result }
{
    match instr.kind {
        Kind::UInt32 | Kind::Int32 | Kind::UInt64 | Kind::Int64 => {
            read_integer_delta(instr, kept, level, bytes, at)
        }
        Kind::Decimal => read_decimal_delta(instr, kept, level, bytes, at),
        Kind::Ascii | Kind::Unicode | Kind::Bytes => {
            read_unit_delta(spare, instr, kept, level, bytes, at)
        }
    }
}

// ---- Written

/// The subtraction length of a removal.
pub(crate) fn removal_length(removal: Removal) -> i128
    ensures { result ≡ length_of removal }
{
    match removal {
        Removal::AtEnd(removed) => removed as i128,
        Removal::InFront(removed) => -1 - removed as i128,
    }
}

/// The bytes of a subtraction length and of a new part.
#[tactic(auto, using(crate::proofs::TwoPieces::pieces))]
pub(crate) fn size_cut(kind: Kind, presence: Presence, removal: Removal, part: &[u8]) -> usize
    requires removal { IsSmall (length_of removal) }
    requires part { CanBeUnits kind part.now }
    ensures value { result ≡ length_size presence (length_of removal) + part_size kind part.now }
    ensures size { HasSize (Both (ShortestSigned presence (length_of removal))
        (ShortestPart kind part.now)) result }
{
    size_signed(presence, removal_length(removal)) + size_part(kind, part)
}

/// Appends a subtraction length and a new part, each in its shortest form, or nothing.
#[tactic(auto, using(crate::proofs::TwoPieces::pieces))]
pub(crate) fn write_cut(
    kind: Kind,
    presence: Presence,
    removal: Removal,
    part: &[u8],
    out: &mut Vec<u8>,
) -> Result<(), WireFault>
    requires removal { IsSmall (length_of removal) }
    requires part { CanBeUnits kind part.now }
    ensures { AppendsOne (Both (ShortestSigned presence (length_of removal))
        (ShortestPart kind part.now)) out.old.items out.new.items result }
{
    let start = out.len();
    write_signed(presence, removal_length(removal), out)?;
    match write_part(kind, part, out) {
        Ok(()) => Ok(()),
        Err(fault) => {
            out.truncate(start);
            Err(fault)
        }
    }
}

/// What is added to one number of at most 64 bits to make another.
#[inline(always)]
fn difference(value: i128, base: i128) -> i128
    requires value_above { negsuc (2 ^ 64) <ℤ value }
    requires value_below { value <ℤ pos (2 ^ 64) }
    requires base_above { negsuc (2 ^ 64) <ℤ base }
    requires base_below { base <ℤ pos (2 ^ 64) }
    ensures { result ≡ value -ℤ base }
{
    value - base
}

/// The same of two numbers of 64 bits.
fn apart(value: i64, base: i64) -> i128
    ensures { result ≡ value -ℤ base }
{
    i128::from(value) - i128::from(base)
}

/// What is added to the exponent and the mantissa of one decimal to make another.
#[inline(always)]
fn differences(value: &Scalar, base: Option<&Scalar>) -> (i128, i128)
    ensures exponent { (k : kind_type.Kind) → result.0
        ≡ exponent_of value.now -ℤ exponent_of (base_or_default k (option_copied base.entry)) }
    ensures mantissa { (k : kind_type.Kind) → result.1
        ≡ mantissa_of value.now -ℤ mantissa_of (base_or_default k (option_copied base.entry)) }
{
    let (exponent, mantissa) = decimal(value);
    let (base_exponent, base_mantissa) = base_decimal(base);
    (
        apart(i64::from(exponent), i64::from(base_exponent)),
        apart(mantissa, base_mantissa),
    )
}

/// What makes a value of its base, in the fewest bytes.
#[tactic(auto, using(crate::proofs::BaseSteps::base_steps))]
#[inline(always)]
pub(crate) fn delta_of<'a>(instr: &FieldPart, kept: EntryRef, value: &'a Scalar) -> Pieces<'a>
    requires judged { delta_refusal (delta_base instr.now (entry_of kept)) ≡ None }
    requires base { (base : scalar.Scalar) → delta_base instr.now (entry_of kept) ≡ Ok base
        → length (units_of base) ≤ 65535 }
    requires value { CanBeUnits instr.now.kind (units_of value.now) }
    ensures { OnBase (delta_base instr.now (entry_of kept.entry))
        (λ base. IsDelta instr.now.kind instr.now.presence base value.now result) }
{
    let Ok(base) = base_of_delta(instr, kept) else {
        unreachable!()
    };
    match instr.kind {
        Kind::UInt32 | Kind::Int32 | Kind::UInt64 | Kind::Int64 => {
            Pieces::Difference(difference(integer(value), base_number(base)))
        }
        Kind::Decimal => {
            let (exponent, mantissa) = differences(value, base);
            Pieces::Differences(exponent, mantissa)
        }
        Kind::Ascii | Kind::Unicode | Kind::Bytes => {
            let (removal, part) = best_cut(
                instr.kind,
                instr.presence,
                base_units(base),
                units(value),
            );
            Pieces::Cut(removal, part)
        }
    }
}
