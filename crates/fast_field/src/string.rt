//! Strings and vectors that are put together from a base and from what was sent, which is copied once.

ghost use Rattle.std.specs.Prelude.{◌≡◌, ◌≤◌, ◌<◌, ◌+◌, ◌⊎◌, [], ◌++◌, length, IfErr, IfOk, OnOk};
ghost use Rattle.fast_wire.specs.declared.level.Level.TheVariants.{Usual};
ghost use Rattle.fast_wire.specs.Entity.{groups};
ghost use Rattle.fast_wire.specs.Nullable.{IsNullOr};
ghost use Rattle.fast_wire.specs.Reading.{Gives};
ghost use Rattle.fast_wire.specs.Spans.{IsBetween, IsTail, nullable_in};
ghost use Rattle.fast_field.specs.Calls.{AnswersAt, OrRefused};
ghost use Rattle.fast_field.specs.FieldReading.{limited_value, part_at, unit_value, units_at};
ghost use Rattle.fast_field.specs.Sent.{IsSent, IsSentIn, units_in, units_sent};
ghost use Rattle.fast_field.specs.declared.fault.FieldFault.TheVariants as field_fault;

use crate::fault::FieldFault;
use crate::whole::{judge_units, value_of_units};
use fast_dictionary::Spare;
use fast_template::{Kind, Presence, Scalar};
use fast_value::UNIT_LIMIT;
use fast_wire::{Level, Nullable, Span};
use std::alloc::AllocError;

/// Finds characters or bytes in the form that has no NULL, of Unicode its bytes, and the place after them. It
/// takes no memory.
#[tactic(auto, using(crate::proofs::CallSteps::call_steps), unfolding(crate::specs::FieldReading::part_at))]
#[inline(always)]
pub(crate) fn find_part(
    kind: Kind,
    level: Level,
    bytes: &[u8],
    at: usize,
) -> Result<(Span, usize), FieldFault>
    requires { at ≤ length bytes.now }
    ensures place { IfOk result (λ x. (at < x.1) × (x.1 ≤ length bytes.now)) }
    ensures between { IfOk result (λ x. IsBetween at x.1 x.0) }
    ensures sent { IfOk result (λ x. IsSentIn kind bytes.now x.0) }
    ensures gives { AnswersAt (part_at level kind) (units_in kind bytes.now) bytes.now at result }
{
    judge_units(level, kind, Presence::Mandatory, bytes, at)?;
    match kind {
        Kind::Ascii => Ok(fast_wire::find_ascii(bytes, at)?),
        _ => Ok(fast_wire::find_vector(bytes, at)?),
    }
}

/// The same in the form of a presence.
#[tactic(auto, using(crate::proofs::CallSteps::call_steps), unfolding(crate::specs::FieldReading::units_at, crate::specs::FieldReading::part_at))]
#[inline(always)]
pub fn find_units(
    kind: Kind,
    presence: Presence,
    level: Level,
    bytes: &[u8],
    at: usize,
) -> Result<(Nullable<Span>, usize), FieldFault>
    requires { at ≤ length bytes.now }
    ensures place { IfOk result (λ x. (at < x.1) × (x.1 ≤ length bytes.now)) }
    ensures between { IfOk result (λ x. IsNullOr (IsBetween at x.1) x.0) }
    ensures sent { IfOk result (λ x. IsNullOr (IsSentIn kind bytes.now) x.0) }
    ensures gives { AnswersAt (units_at level kind presence) (nullable_in (units_in kind bytes.now))
        bytes.now at result }
{
    judge_units(level, kind, presence, bytes, at)?;
    match presence {
        Presence::Mandatory => {
            let (span, next) = find_part(kind, Level::Usual, bytes, at)?;
            Ok((Nullable::Value(span), next))
        }
        Presence::Optional => match kind {
            Kind::Ascii => Ok(fast_wire::find_ascii_nullable(bytes, at)?),
            _ => Ok(fast_wire::find_vector_nullable(bytes, at)?),
        },
    }
}

/// Appends the characters of the last bytes of an entity, without the stop bit.
#[inline(always)]
fn append_characters(tail: &[u8], text: &mut Vec<u8>) -> Result<(), AllocError>
    requires { IsTail tail.now }
    ensures { OnOk result (text.new.items ≡ text.old.items ++ groups tail.now) }
{
    text.extend_from_slice(tail)?;
    if !tail.is_empty() {
        let last = text.len() - 1;
        text[last] %= 128;
    }
    Ok(())
}

/// Appends the characters or bytes that were sent.
#[inline(always)]
fn append_sent(kind: Kind, sent: &[u8], units: &mut Vec<u8>) -> Result<(), AllocError>
    requires { IsSent kind sent.now }
    ensures { OnOk result (units.new.items ≡ units.old.items ++ units_sent kind sent.now) }
{
    match kind {
        Kind::Ascii => append_characters(sent, units),
        _ => units.extend_from_slice(sent),
    }
}

/// Room for so many units, and so many behind them. Limit: they are too many.
#[inline(always)]
fn room(spare: &mut Spare, front: usize, back: usize) -> Result<Vec<u8>, FieldFault>
    ensures ok { IfOk result (λ units. (units.items ≡ []) × (front + back ≤ 65535)) }
    ensures err { IfErr result (λ e. (e ≡ field_fault.Memory)
        ⊎ ((e ≡ field_fault.Limit) × (65535 < front + back))) }
{
    if front > UNIT_LIMIT || back > UNIT_LIMIT - front {
        return Err(FieldFault::Limit);
    }
    let mut units = spare.take();
    units.reserve(front + back)?;
    Ok(units)
}

/// What was sent, as a value.
#[tactic(auto, using(crate::proofs::CallSteps::call_steps, crate::proofs::PutTogether::no_copy, std::proofs::lemmas::Result::err_from_is_err_and))]
pub(crate) fn sent_whole(spare: &mut Spare, kind: Kind, sent: &[u8]) -> Result<Scalar, FieldFault>
    requires { IsSent kind sent.now }
    ensures { Gives OrRefused (λ v. v) result (unit_value kind (units_sent kind sent.now)) }
{
    let mut units = spare.take();
    append_sent(kind, sent, &mut units)?;
    value_of_units(kind, units)
}

/// What was sent behind units of the base, as a value. Limit: they are too many.
#[tactic(auto, using(crate::proofs::CallSteps::call_steps, crate::proofs::PutTogether::no_memory, std::proofs::lemmas::Result::err_from_is_err_and), unfolding(crate::specs::FieldReading::limited_value))]
pub(crate) fn sent_behind(
    spare: &mut Spare,
    kind: Kind,
    front: &[u8],
    sent: &[u8],
) -> Result<Scalar, FieldFault>
    requires { IsSent kind sent.now }
    ensures { Gives OrRefused (λ v. v)
        result (limited_value kind (front.now ++ units_sent kind sent.now)) }
{
    let mut units = room(spare, front.len(), sent.len())?;
    units.extend_from_slice(front)?;
    append_sent(kind, sent, &mut units)?;
    value_of_units(kind, units)
}

/// What was sent in front of units of the base, as a value. Limit: they are too many.
#[tactic(auto, using(crate::proofs::CallSteps::call_steps, crate::proofs::PutTogether::no_memory, std::proofs::lemmas::Result::err_from_is_err_and), unfolding(crate::specs::FieldReading::limited_value))]
pub(crate) fn sent_in_front(
    spare: &mut Spare,
    kind: Kind,
    sent: &[u8],
    back: &[u8],
) -> Result<Scalar, FieldFault>
    requires { IsSent kind sent.now }
    ensures { Gives OrRefused (λ v. v)
        result (limited_value kind (units_sent kind sent.now ++ back.now)) }
{
    let mut units = room(spare, sent.len(), back.len())?;
    append_sent(kind, sent, &mut units)?;
    units.extend_from_slice(back)?;
    value_of_units(kind, units)
}
