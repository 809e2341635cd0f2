//! Whether bit 0 of the presence map gives a value: FAST 1.1, Field Operators.

ghost use Rattle.std.specs.Prelude.{◌≡◌};
ghost use Rattle.std.specs.Option.{option_copied};
ghost use Rattle.fast_dictionary.specs.Dictionary.{entry_of};
ghost use Rattle.fast_field.specs.Bases.{predicted};
ghost use Rattle.fast_field.specs.Planning.{constant_gives, default_gives, gives_same, is_optional, is_same, left_out_of};

use crate::base::predicted_value;
use fast_dictionary::EntryRef;
use fast_template::{FieldPart, Operator, Presence, Scalar};

/// Whether two fields are both absent, or have the same value.
#[inline(always)]
fn are_same(value: Option<&Scalar>, other: Option<&Scalar>) -> bool
    ensures { result ≡ is_same (option_copied value.entry) (option_copied other.entry) }
{
    match value {
        None => other.is_none(),
        Some(value) => match other {
            None => false,
            Some(other) => *value == *other,
        },
    }
}

/// Whether bit 0 of copy, increment and tail gives a value.
#[inline(always)]
fn is_predicted(instr: &FieldPart, kept: EntryRef, value: Option<&Scalar>) -> bool
    ensures { result ≡ gives_same (predicted instr.now (entry_of kept.entry))
        (option_copied value.entry) }
{
    match predicted_value(instr, kept) {
        Ok(found) => are_same(found.value(instr, kept), value),
        Err(_) => false,
    }
}

/// Whether bit 0 gives a value, or where there is none that the field is absent.
#[inline(always)]
pub fn is_left_out(instr: &FieldPart, kept: EntryRef, value: Option<&Scalar>) -> bool
    ensures { result ≡ left_out_of instr.now.operator instr.now (entry_of kept.entry)
        (option_copied value.entry) }
{
    match instr.operator {
        Operator::Plain | Operator::Delta => false,
        Operator::Constant => value.is_none() && instr.presence == Presence::Optional,
        Operator::Default => match (instr.initial(), value) {
            (None, None) => instr.presence == Presence::Optional,
            (initial, value) => are_same(initial, value),
        },
        Operator::Copy | Operator::Increment | Operator::Tail => is_predicted(instr, kept, value),
    }
}
