//! Constants that are always there.

ghost use Rattle.std.specs.Prelude.{◌≡◌, true};
ghost use Rattle.fast_field.specs.Parts.{IsFieldPart};
ghost use Rattle.fast_take.specs.Constants.{StandsAlways};

use crate::passed::can_begin;
use fast_template::{FieldPart, Operator, Part, Presence};

/// Whether a field is a constant that is always there: nothing is read of it, no bit is asked for, and no entry changes, so that
/// nothing is to be done.
#[inline(always)]
pub fn is_always_there(which: Part, part: &FieldPart) -> bool
    requires which { which ≡ part.now.part }
    requires part { IsFieldPart part.now }
    ensures { result ≡ true → StandsAlways part.now }
{
    match part.operator {
        Operator::Constant => match part.presence {
            Presence::Mandatory => match &part.initial {
                Some(initial) => can_begin(which, part, initial.value()),
                None => false,
            },
            Presence::Optional => false,
        },
        _ => false,
    }
}
