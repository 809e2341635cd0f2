//! What is laid out in the room behind a text: forwards, each behind the last. Where it ends is told by the calls, and kept
//! nowhere meanwhile, so that it stays in a register.

ghost use Rattle.std.specs.Prelude.{◌≡◌, ◌≤◌, ◌<◌, ◌+◌, ◌++◌, ◌∷◌, [], Bool, if◌then◌else◌, length, take, IfSome};
ghost use Rattle.std.specs.Simd.Lanes.{chunk, put_chunk};
ghost use Rattle.hex.specs.Hex.{encode_lower};

use crate::bytes::hex_pair;
use std::simd::Simd;

/// Names and texts are laid out that have no more bytes.
pub(crate) const LONGEST: usize = 64;

/// Byte vectors are laid out that have no more bytes.
const MOST_HEX: usize = 32;

/// Lays a byte at a place; answers the place behind it.
#[inline(always)]
pub(crate) fn lay_byte(bytes: &mut [u8], at: usize, byte: u8) -> usize
    requires { at < length bytes.old }
    ensures place { result ≡ at + 1 }
    ensures laid { take result bytes.new ≡ take at bytes.old ++ byte ∷ [] }
    ensures length { length bytes.new ≡ length bytes.old }
{
    bytes[at] = byte;
    at + 1
}

/// The same where it is due.
#[inline(always)]
pub(crate) fn lay_if(bytes: &mut [u8], at: usize, byte: u8, due: bool) -> usize
    requires { at < length bytes.old }
    ensures place { (at ≤ result) × (result ≤ at + 1) }
    ensures laid { take result bytes.new ≡ take at bytes.old ++ (if due then byte ∷ [] else []) }
    ensures length { length bytes.new ≡ length bytes.old }
{
    bytes[at] = byte;
    at + usize::from(due)
}

/// Puts the first so many bytes of a text at a place, in one word.
#[inline(always)]
pub(crate) fn put_word<const N: usize>(bytes: &mut [u8], at: usize, text: &[u8])
    requires { (at + N ≤ length bytes.old) × (N ≤ length text.now) }
    ensures { bytes.new ≡ put_chunk at bytes.old (chunk 0 N text.now) }
{
    Simd::<u8, N>::from_slice(text).copy_to_slice(&mut bytes[at..]);
}

/// Lays a text, in two words of a fixed size that may lie over one another.
#[inline(always)]
fn lay_ends<const N: usize>(bytes: &mut [u8], at: usize, text: &[u8]) -> usize
    requires covers { (N ≤ length text.now) × (length text.now ≤ N + N) }
    requires room { at + length text.now ≤ length bytes.old }
    ensures place { result ≡ at + length text.now }
    ensures laid { take result bytes.new ≡ take at bytes.old ++ text.now }
    ensures length { length bytes.new ≡ length bytes.old }
{
    let last = text.len() - N;
    put_word::<N>(bytes, at, text);
    put_word::<N>(bytes, at + last, &text[last..]);
    at + text.len()
}

/// Puts sixteen bytes that stand as they are at a place.
#[inline(always)]
pub(crate) fn fill(bytes: &mut [u8], at: usize)
    requires { at + 16 ≤ length bytes.old }
    ensures before { take at bytes.new ≡ take at bytes.old }
    ensures length { length bytes.new ≡ length bytes.old }
{
    Simd::<u8, 16>::splat(b' ').copy_to_slice(&mut bytes[at..]);
}

/// Lays a text of sixteen bytes at most, in words; answers the place behind it.
#[inline(always)]
pub(crate) fn lay_few(bytes: &mut [u8], at: usize, text: &[u8]) -> usize
    requires count { length text.now ≤ 16 }
    requires room { at + length text.now ≤ length bytes.old }
    ensures place { result ≡ at + length text.now }
    ensures laid { take result bytes.new ≡ take at bytes.old ++ text.now }
    ensures length { length bytes.new ≡ length bytes.old }
{
    if text.len() >= 8 {
        lay_ends::<8>(bytes, at, text)
    } else if text.len() >= 4 {
        lay_ends::<4>(bytes, at, text)
    } else if text.len() >= 2 {
        lay_ends::<2>(bytes, at, text)
    } else if text.len() == 1 {
        lay_byte(bytes, at, text[0])
    } else {
        at
    }
}

/// Lays a short text, in words; answers the place behind it.
#[inline(always)]
pub(crate) fn lay_text(bytes: &mut [u8], at: usize, text: &[u8]) -> usize
    requires count { length text.now ≤ 64 }
    requires room { at + length text.now ≤ length bytes.old }
    ensures place { result ≡ at + length text.now }
    ensures laid { take result bytes.new ≡ take at bytes.old ++ text.now }
    ensures length { length bytes.new ≡ length bytes.old }
{
    if text.len() > 32 {
        lay_ends::<32>(bytes, at, text)
    } else if text.len() > 16 {
        lay_ends::<16>(bytes, at, text)
    } else {
        lay_few(bytes, at, text)
    }
}

/// Lays a text that is a name, mostly of eight bytes to sixteen; none where it is not short.
#[inline(always)]
pub(crate) fn lay_short(bytes: &mut [u8], at: usize, text: &[u8]) -> Option<usize>
    requires { at + 64 ≤ length bytes.old }
    ensures place { IfSome result (λ next. (at ≤ next) × (next ≤ at + 64)) }
    ensures laid { IfSome result (λ next. take next bytes.new ≡ take at bytes.old ++ text.now) }
    ensures before { take at bytes.new ≡ take at bytes.old }
    ensures length { length bytes.new ≡ length bytes.old }
{
    if text.len() >= 8 && text.len() <= 16 {
        return Some(lay_ends::<8>(bytes, at, text));
    }
    if text.len() < 8 {
        return Some(lay_few(bytes, at, text));
    }
    if text.len() > LONGEST {
        return None;
    }
    Some(lay_text(bytes, at, text))
}

/// Lays two hex digits.
#[tactic(auto, using(crate::proofs::Written::appended_more))]
#[inline(always)]
pub(crate) fn lay_hex_pair(bytes: &mut [u8], at: usize, byte: u8) -> usize
    requires { at + 2 ≤ length bytes.old }
    ensures place { result ≡ at + 2 }
    ensures laid { take result bytes.new ≡ take at bytes.old ++ encode_lower (byte ∷ []) }
    ensures length { length bytes.new ≡ length bytes.old }
{
    let [high, low] = hex_pair(byte);
    let at = lay_byte(bytes, at, high);
    lay_byte(bytes, at, low)
}

/// Lays two hex digits of each byte; none where there are many.
#[inline(always)]
pub(crate) fn lay_hex(bytes: &mut [u8], at: usize, vector: &[u8]) -> Option<usize>
    requires { at + 64 ≤ length bytes.old }
    ensures place { IfSome result (λ next. (at ≤ next) × (next ≤ at + 64)) }
    ensures laid { IfSome result (λ next. take next bytes.new ≡ take at bytes.old ++ encode_lower vector.now) }
    ensures before { take at bytes.new ≡ take at bytes.old }
    ensures length { length bytes.new ≡ length bytes.old }
{
    if vector.len() > MOST_HEX {
        return None;
    }
    let mut next = at;
    for byte in vector {
        next = lay_hex_pair(bytes, next, *byte);
    }
    Some(next)
}
