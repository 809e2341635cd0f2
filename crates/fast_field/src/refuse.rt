//! Why a value cannot be written.

ghost use Rattle.std.specs.Prelude.{◌≡◌};
ghost use Rattle.std.specs.Option.{option_copied};
ghost use Rattle.fast_dictionary.specs.Dictionary.{entry_of};
ghost use Rattle.fast_field.specs.Bases.{delta_base, tail_base};
ghost use Rattle.fast_field.specs.Calls.{Judges};
ghost use Rattle.fast_field.specs.Refusals.{are_characters, base_refusal, constant_refusal, delta_refusal, has_characters, has_too_many, is_far, operator_refusal, other_than_constant, refusal_of, tail_refusal, value_refusal};

use crate::base::{base_of_delta, base_of_tail, base_units, integer, units};
use crate::fault::{FieldFault, FieldRefusal};
use crate::whole::exponent_within;
use fast_dictionary::EntryRef;
use fast_template::{FieldPart, Operator, Part, Presence, Scalar};
use fast_value::is_of_kind;

/// Whether each unit is a character of ASCII.
#[tactic(auto, using(crate::proofs::RefusalSteps::characters_told))]
fn all_characters(text: &[u8]) -> bool
    ensures { result ≡ are_characters text.now }
{
    text.is_ascii()
}

/// Whether a string of ASCII has its characters alone.
#[inline(always)]
pub fn is_spellable(value: &Scalar) -> bool
    ensures { result ≡ has_characters value.now }
{
    match value {
        Scalar::Ascii(text) => all_characters(text.as_slice()),
        _ => true,
    }
}

/// Whether there are too many units, or a length is of too many elements.
#[inline(always)]
fn is_too_long(part: Part, value: &Scalar) -> bool
    ensures { result ≡ has_too_many part value.now }
{
    match part {
        Part::Length => integer(value) > 65_535,
        Part::Whole | Part::Exponent | Part::Mantissa => units(value).len() > 65_535,
    }
}

/// Whether an exponent is out of range.
#[inline(always)]
fn is_far_off(part: Part, value: &Scalar) -> bool
    ensures { result ≡ is_far part value.now }
{
    match part {
        Part::Exponent => exponent_within(integer(value)).is_none(),
        Part::Whole | Part::Mantissa | Part::Length => match value {
            Scalar::Decimal { exponent, .. } => exponent_within(i128::from(*exponent)).is_none(),
            _ => false,
        },
    }
}

/// Why a value is refused that is not the constant's.
#[inline(always)]
fn not_the_constant(part: Part) -> FieldRefusal
    ensures { result ≡ other_than_constant part }
{
    match part {
        Part::Exponent | Part::Mantissa => FieldRefusal::D3,
        Part::Whole | Part::Length => FieldRefusal::NotConstant,
    }
}

/// Why a value has no base.
fn no_base(fault: FieldFault) -> FieldRefusal
    ensures { result ≡ base_refusal fault }
{
    match fault {
        FieldFault::D6 => FieldRefusal::D6,
        _ => FieldRefusal::D4,
    }
}

#[inline(always)]
fn judge_constant(instr: &FieldPart, value: &Scalar) -> Result<(), FieldRefusal>
    ensures { Judges (constant_refusal instr.now.part instr.now.initial value.now) result }
{
    match &instr.initial {
        Some(constant) if *value == *constant.value() => Ok(()),
        _ => Err(not_the_constant(instr.part)),
    }
}

#[inline(always)]
fn judge_delta(instr: &FieldPart, kept: EntryRef) -> Result<(), FieldRefusal>
    ensures { Judges (delta_refusal (delta_base instr.now (entry_of kept.entry))) result }
{
    match base_of_delta(instr, kept) {
        Ok(_) => Ok(()),
        Err(fault) => Err(no_base(fault)),
    }
}

fn judge_tail(instr: &FieldPart, kept: EntryRef, value: &Scalar) -> Result<(), FieldRefusal>
    ensures { Judges (tail_refusal (tail_base instr.now (entry_of kept.entry)) value.now) result }
{
    match base_of_tail(instr, kept) {
        Ok(base) if units(value).len() < base_units(base).len() => Err(FieldRefusal::TooShort),
        Ok(_) => Ok(()),
        Err(fault) => Err(no_base(fault)),
    }
}

/// The first reason why a value that is there cannot be written.
#[tactic(auto, unfolding(crate::specs::Refusals::value_refusal))]
#[inline(always)]
fn judge_value(instr: &FieldPart, kept: EntryRef, value: &Scalar) -> Result<(), FieldRefusal>
    ensures { Judges (value_refusal instr.now (entry_of kept.entry) value.now) result }
{
    if !is_of_kind(instr.kind, value) || !is_spellable(value) {
        return Err(FieldRefusal::Mismatch);
    }
    if is_too_long(instr.part, value) {
        return Err(FieldRefusal::Limit);
    }
    if is_far_off(instr.part, value) {
        return Err(FieldRefusal::R1);
    }
    match instr.operator {
        Operator::Constant => judge_constant(instr, value),
        Operator::Delta => judge_delta(instr, kept),
        Operator::Tail => judge_tail(instr, kept, value),
        Operator::Plain | Operator::Default | Operator::Copy | Operator::Increment => Ok(()),
    }
}

/// The first reason why a value cannot be written.
#[inline(always)]
pub(crate) fn judge(
    instr: &FieldPart,
    kept: EntryRef,
    value: Option<&Scalar>,
) -> Result<(), FieldRefusal>
    ensures { Judges (refusal_of instr.now (entry_of kept.entry)
        (option_copied value.entry)) result }
{
    match value {
        None => match instr.presence {
            Presence::Mandatory => Err(FieldRefusal::Mismatch),
            Presence::Optional => Ok(()),
        },
        Some(value) => judge_value(instr, kept, value),
    }
}
