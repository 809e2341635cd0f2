//! Numbers as they are read where a field goes a quick way. All is inline, since the type is mostly known where it is called.

ghost use Rattle.std.specs.Prelude.{◌≡◌, ◌≤◌, ◌^◌, ◌<ℤ◌, pos, negsuc, length, drop, true, false, slice_range, IfSome};
ghost use Rattle.fast_wire.specs.Entity.{IsEntity};
ghost use Rattle.fast_field.specs.Spelled.{overlong_number};
ghost use Rattle.fast_field.specs.Values as values;
ghost use Rattle.fast_take.specs.Numbers.{Spelt};

use fast_template::{Kind, Presence};
use fast_wire::{Nullable, overlong_signed, overlong_unsigned};

/// Whether the integers of a type have no sign.
#[inline(always)]
pub(crate) fn is_unsigned(kind: Kind) -> bool
    ensures { result ≡ values.is_unsigned kind }
{
    match kind {
        Kind::UInt32 | Kind::UInt64 => true,
        _ => false,
    }
}

/// A number without a sign that has 64 bits; none where it has more, is NULL or faulty.
#[tactic(auto, unfolding(fast_field::specs::FieldReading::integer_at))]
#[inline(always)]
pub(crate) fn read_unsigned(presence: Presence, bytes: &[u8], at: usize) -> Option<(u64, usize)>
    requires { at ≤ length bytes.now }
    ensures place { IfSome result (λ x. (at ≤ x.1) × (x.1 ≤ length bytes.now)) }
    ensures gives { IfSome result (λ x. Spelt true presence (drop at bytes.now)
        (pos x.0) (drop x.1 bytes.now)) }
{
    match presence {
        Presence::Mandatory => match fast_wire::read_u64(bytes, at) {
            Ok(found) => Some(found),
            Err(_) => None,
        },
        Presence::Optional => match fast_wire::read_u64_nullable(bytes, at) {
            Ok((Nullable::Value(number), next)) => Some((number, next)),
            Ok((Nullable::Null, _)) => None,
            Err(_) => None,
        },
    }
}

/// A number with a sign that has 64 bits; none where it has more, is NULL or faulty.
#[tactic(auto, unfolding(fast_field::specs::FieldReading::integer_at))]
#[inline(always)]
pub(crate) fn read_signed(presence: Presence, bytes: &[u8], at: usize) -> Option<(i64, usize)>
    requires { at ≤ length bytes.now }
    ensures place { IfSome result (λ x. (at ≤ x.1) × (x.1 ≤ length bytes.now)) }
    ensures gives { IfSome result (λ x. Spelt false presence (drop at bytes.now)
        x.0 (drop x.1 bytes.now)) }
{
    match presence {
        Presence::Mandatory => match fast_wire::read_i64(bytes, at) {
            Ok(found) => Some(found),
            Err(_) => None,
        },
        Presence::Optional => match fast_wire::read_i64_nullable(bytes, at) {
            Ok((Nullable::Value(number), next)) => Some((number, next)),
            Ok((Nullable::Null, _)) => None,
            Err(_) => None,
        },
    }
}

/// A number that has 64 bits; none where it has more, is NULL or faulty.
#[inline(always)]
pub(crate) fn read_short(
    unsigned: bool,
    presence: Presence,
    bytes: &[u8],
    at: usize,
) -> Option<(i128, usize)>
    requires { at ≤ length bytes.now }
    ensures place { IfSome result (λ x. (at ≤ x.1) × (x.1 ≤ length bytes.now)) }
    ensures above { IfSome result (λ x. negsuc (2 ^ 64) <ℤ x.0) }
    ensures below { IfSome result (λ x. x.0 <ℤ pos (2 ^ 64)) }
    ensures gives { IfSome result (λ x. Spelt unsigned presence (drop at bytes.now)
        x.0 (drop x.1 bytes.now)) }
{
    if unsigned {
        match read_unsigned(presence, bytes, at) {
            Some((number, next)) => Some((i128::from(number), next)),
            None => None,
        }
    } else {
        match read_signed(presence, bytes, at) {
            Some((number, next)) => Some((i128::from(number), next)),
            None => None,
        }
    }
}

/// Whether the entity that stands from one place to the next has a needless group in front.
#[inline(always)]
pub(crate) fn is_overlong(unsigned: bool, bytes: &[u8], at: usize, next: usize) -> bool
    requires place { at ≤ next }
    requires within { next ≤ length bytes.now }
    requires entity { IsEntity (slice_range bytes.now at next) }
    ensures { result ≡ overlong_number unsigned (slice_range bytes.now at next) }
{
    let form = &bytes[at..next];
    if unsigned {
        overlong_unsigned(form)
    } else {
        overlong_signed(form)
    }
}
