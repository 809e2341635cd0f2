//! What an entry gives a field: FAST 1.1, Field Operators, Dictionaries and Previous Values.

ghost use Rattle.std.specs.Prelude.{◌≡◌, ◌^◌, ◌<◌, pos, negsuc, ◌<ℤ◌, IfOk};
ghost use Rattle.std.specs.Option.{option_copied};
ghost use Rattle.fast_value.specs.declared.kind.Kind as kind;
ghost use Rattle.fast_dictionary.specs.Dictionary.{entry_of};
ghost use Rattle.fast_field.specs.Bases.{delta_base, predicted, tail_base};
ghost use Rattle.fast_field.specs.Calls.{Answers};
ghost use Rattle.fast_field.specs.Found.{CanLie, base_or_default, value_found};
ghost use Rattle.fast_field.specs.Values.{exponent_of, increased, integer_of, mantissa_of, units_of};

use crate::fault::FieldFault;
use crate::found::Found;
use fast_dictionary::EntryRef;
use fast_template::{FieldPart, Kind, Operator, Presence, Scalar};
use fast_value::is_of_kind;

/// The number of an integer; of another value 0.
#[inline(always)]
pub(crate) fn integer(value: &Scalar) -> i128
    ensures value { result ≡ integer_of value.now }
    ensures above { negsuc (2 ^ 64) <ℤ result }
    ensures below { result <ℤ pos (2 ^ 64) }
{
    match value {
        Scalar::U32(number) => i128::from(*number),
        Scalar::I32(number) => i128::from(*number),
        Scalar::U64(number) => i128::from(*number),
        Scalar::I64(number) => i128::from(*number),
        _ => 0,
    }
}

/// The characters or bytes of a string or vector, of Unicode its bytes; of another value none.
#[inline(always)]
pub fn units(value: &Scalar) -> &[u8]
    ensures { result.now ≡ units_of value.now }
{
    match value {
        Scalar::Ascii(text) => text.as_slice(),
        Scalar::Unicode(text) => text.as_bytes(),
        Scalar::Bytes(bytes) => bytes.as_slice(),
        _ => &[],
    }
}

/// The exponent and the mantissa of a decimal; of another value 0 and 0.
pub(crate) fn decimal(value: &Scalar) -> (i32, i64)
    ensures exponent { result.0 ≡ exponent_of value.now }
    ensures mantissa { result.1 ≡ mantissa_of value.now }
{
    match value {
        Scalar::Decimal { exponent, mantissa } => (*exponent, *mantissa),
        _ => (0, 0),
    }
}

/// One more, and after the greatest number of the type its least. (Increment is for integers; of another value the
/// definition makes 0.)
#[inline(always)]
fn one_more(value: &Scalar) -> Scalar
    ensures { result ≡ increased value.now }
{
    match value {
        Scalar::U32(number) => Scalar::U32(number.checked_add(1).unwrap_or(0)),
        Scalar::I32(number) => Scalar::I32(number.checked_add(1).unwrap_or(i32::MIN)),
        Scalar::U64(number) => Scalar::U64(number.checked_add(1).unwrap_or(0)),
        Scalar::I64(number) => Scalar::I64(number.checked_add(1).unwrap_or(i64::MIN)),
        Scalar::Decimal { .. } | Scalar::Ascii(_) | Scalar::Unicode(_) | Scalar::Bytes(_) => {
            Scalar::I64(0)
        }
    }
}

/// What bit 0 of copy, increment and tail gives.
#[tactic(auto, using(crate::proofs::BaseSteps::base_steps))]
#[inline(always)]
pub(crate) fn predicted_value(instr: &FieldPart, kept: EntryRef) -> Result<Found, FieldFault>
    ensures lies { IfOk result (CanLie (entry_of kept.entry)) }
    ensures gives { Answers (value_found instr.now (entry_of kept.entry))
        result (predicted instr.now (entry_of kept.entry)) }
{
    match kept {
        EntryRef::Undefined => match instr.initial {
            Some(_) => Ok(Found::Initial),
            None => match instr.presence {
                Presence::Mandatory => Err(FieldFault::D5),
                Presence::Optional => Ok(Found::Absent),
            },
        },
        EntryRef::Empty => match instr.presence {
            Presence::Mandatory => Err(FieldFault::D6),
            Presence::Optional => Ok(Found::Absent),
        },
        EntryRef::Assigned(value) => {
            if !is_of_kind(instr.kind, value) {
                return Err(FieldFault::D4);
            }
            match instr.operator {
                Operator::Increment => Ok(Found::Value(one_more(value))),
                _ => Ok(Found::Kept),
            }
        }
    }
}

/// The value that a delta changes; none stands for 0, or for what is empty.
#[inline(always)]
pub fn base_of_delta<'a>(
    instr: &'a FieldPart,
    kept: EntryRef<'a>,
) -> Result<Option<&'a Scalar>, FieldFault>
    ensures { Answers (λ base. base_or_default instr.now.kind (option_copied base))
        result (delta_base instr.now (entry_of kept.entry)) }
{
    match kept {
        EntryRef::Undefined => Ok(instr.initial()),
        EntryRef::Empty => Err(FieldFault::D6),
        EntryRef::Assigned(value) => {
            if is_of_kind(instr.kind, value) {
                Ok(Some(value))
            } else {
                Err(FieldFault::D4)
            }
        }
    }
}

/// The value that a tail changes; none stands for what is empty.
pub(crate) fn base_of_tail<'a>(
    instr: &'a FieldPart,
    kept: EntryRef<'a>,
) -> Result<Option<&'a Scalar>, FieldFault>
    ensures { Answers (λ base. base_or_default instr.now.kind (option_copied base))
        result (tail_base instr.now (entry_of kept.entry)) }
{
    match kept {
        EntryRef::Empty => Ok(instr.initial()),
        EntryRef::Undefined | EntryRef::Assigned(_) => base_of_delta(instr, kept),
    }
}

/// The number of a base.
#[tactic(auto, using(crate::proofs::BaseSteps::base_steps))]
#[inline(always)]
pub(crate) fn base_number(base: Option<&Scalar>) -> i128
    ensures value { (k : kind.Kind)
        → result ≡ integer_of (base_or_default k (option_copied base.entry)) }
    ensures above { negsuc (2 ^ 64) <ℤ result }
    ensures below { result <ℤ pos (2 ^ 64) }
{
    match base {
        Some(value) => integer(value),
        None => 0,
    }
}

/// The units of a base.
#[tactic(auto, using(crate::proofs::BaseSteps::base_steps))]
pub(crate) fn base_units(base: Option<&Scalar>) -> &[u8]
    ensures { (k : kind.Kind)
        → result.now ≡ units_of (base_or_default k (option_copied base.entry)) }
{
    match base {
        Some(value) => units(value),
        None => &[],
    }
}

/// The exponent and the mantissa of a base.
#[tactic(auto, using(crate::proofs::BaseSteps::base_steps))]
pub fn base_decimal(base: Option<&Scalar>) -> (i32, i64)
    ensures exponent { (k : kind.Kind)
        → result.0 ≡ exponent_of (base_or_default k (option_copied base.entry)) }
    ensures mantissa { (k : kind.Kind)
        → result.1 ≡ mantissa_of (base_or_default k (option_copied base.entry)) }
{
    match base {
        Some(value) => decimal(value),
        None => (0, 0),
    }
}
