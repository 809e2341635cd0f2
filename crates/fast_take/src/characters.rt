//! Whether bytes are the characters of an ASCII string, and whether they or a value are not too many.

ghost use Rattle.std.specs.Prelude.{◌≡◌, ◌≤◌, ◌<◌, ◌+◌, true, length, drop, slice_range, IfSome};
ghost use Rattle.std.specs.List.{AllByRecursion};
ghost use Rattle.fast_wire.specs.Plain.{IsPlain};
ghost use Rattle.fast_take.specs.Texts.{IsText};

use crate::words::plain_end;
use fast_template::{Kind, Scalar};
use fast_value::UNIT_LIMIT;
use fast_wire::plain_ascii_end;

/// Whether these are characters of ASCII, and not too many.
#[inline(always)]
fn are_characters(text: &[u8]) -> bool
    ensures { result ≡ true
        → (length text.now ≤ 65535) × AllByRecursion (λ c. c < 128) text.now }
{
    text.len() <= UNIT_LIMIT && text.is_ascii()
}

/// Whether there are not too many bytes.
#[inline(always)]
pub(crate) fn are_few(bytes: &[u8]) -> bool
    ensures { result ≡ true
        → (length bytes.now ≤ 65535) × AllByRecursion (λ c. c < 256) bytes.now }
{
    bytes.len() <= UNIT_LIMIT
}

/// Where a plain string begins and ends that stands behind one zero group, which is a preamble.
#[inline(never)]
fn find_behind_zero(bytes: &[u8], at: usize) -> Option<(usize, usize)>
    requires { at ≤ length bytes.now }
    ensures first { IfSome result (λ x. x.0 ≡ at + 1) }
    ensures place { IfSome result (λ x. (at ≤ x.0) × (x.0 < x.1) × (x.1 ≤ length bytes.now)) }
    ensures plain { IfSome result (λ x. IsPlain (drop at bytes.now)
        (slice_range bytes.now x.0 x.1) (drop x.1 bytes.now)) }
{
    if at < bytes.len() && bytes[at] == 0 {
        Some((at + 1, plain_ascii_end(bytes, at + 1)?))
    } else {
        None
    }
}

/// Where the ASCII string that is read from `at` on begins and ends, if its bytes there are the shortest form of it,
/// with NULL and without. A zero group may stand in front of them.
#[inline(always)]
pub(crate) fn find_plain(bytes: &[u8], at: usize) -> Option<(usize, usize)>
    requires { at ≤ length bytes.now }
    ensures first { IfSome result (λ x. x.0 ≤ at + 1) }
    ensures place { IfSome result (λ x. (at ≤ x.0) × (x.0 < x.1) × (x.1 ≤ length bytes.now)) }
    ensures plain { IfSome result (λ x. IsPlain (drop at bytes.now)
        (slice_range bytes.now x.0 x.1) (drop x.1 bytes.now)) }
{
    match plain_end(bytes, at) {
        Some(next) => Some((at, next)),
        None => find_behind_zero(bytes, at),
    }
}

/// Whether a value is a string or vector of a type, and within it.
#[inline(always)]
pub(crate) fn is_text(kind: Kind, value: &Scalar) -> bool
    ensures { result ≡ true → IsText kind value.now }
{
    match value {
        Scalar::Ascii(text) => kind == Kind::Ascii && are_characters(text.as_slice()),
        Scalar::Unicode(text) => kind == Kind::Unicode && are_few(text.as_bytes()),
        Scalar::Bytes(bytes) => kind == Kind::Bytes && are_few(bytes.as_slice()),
        _ => false,
    }
}
