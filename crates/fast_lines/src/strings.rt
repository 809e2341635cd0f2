//! Strings put behind an output, their bytes as they are or escaped.

ghost use Rattle.std.specs.Prelude.{◌≡◌, ◌<◌, ◌≤◌, ◌+◌, ◌++◌, ◌∷◌, [], ℕ, true, length, slice_index, take, IfSome};
ghost use Rattle.std.specs.List.{flat_map, list_all};
ghost use Rattle.fast_lines.specs.Signs.{is_plain, quoted, unit_text};
ghost use Rattle.fast_lines.specs.Written.{Writes};
ghost use Rattle.fast_lines.specs.declared.form.Form.TheVariants.{Text};

use crate::bytes::{push, push_byte};
use crate::signs::Escape;
use crate::tail::{LONGEST, fill, lay_byte, lay_few, lay_text, put_word};
use std::alloc::AllocError;
use std::simd::prelude::*;

/// As many bytes of a string are laid out at once, each of which takes six bytes at most.
pub const UNITS: usize = 10;

/// Each byte of a string as it stands in a text, as it is or escaped: four bytes, of which as many count as its width has.
static UNIT_TEXTS: [u8; 1024] =
    *b"\\x00\\x01\\x02\\x03\\x04\\x05\\x06\\x07\\x08\\x09\\x0a\\x0b\\x0c\\x0d\\x0e\\x0f\\x10\\x11\\x12\\x13\\x14\\x15\\x16\\x17\\x18\\x19\\x1a\\x1b\\x1c\\x1d\\x1e\\x1f    !   \\x22#   $   %   &   '   (   )   *   +   ,   -   .   /   0   1   2   3   4   5   6   7   8   9   :   ;   <   =   >   ?   @   A   B   C   D   E   F   G   H   I   J   K   L   M   N   O   P   Q   R   S   T   U   V   W   X   Y   Z   [   \\x5c]   ^   _   `   a   b   c   d   e   f   g   h   i   j   k   l   m   n   o   p   q   r   s   t   u   v   w   x   y   z   {   |   }   ~   \\x7f\\x80\\x81\\x82\\x83\\x84\\x85\\x86\\x87\\x88\\x89\\x8a\\x8b\\x8c\\x8d\\x8e\\x8f\\x90\\x91\\x92\\x93\\x94\\x95\\x96\\x97\\x98\\x99\\x9a\\x9b\\x9c\\x9d\\x9e\\x9f\\xa0\\xa1\\xa2\\xa3\\xa4\\xa5\\xa6\\xa7\\xa8\\xa9\\xaa\\xab\\xac\\xad\\xae\\xaf\\xb0\\xb1\\xb2\\xb3\\xb4\\xb5\\xb6\\xb7\\xb8\\xb9\\xba\\xbb\\xbc\\xbd\\xbe\\xbf\\xc0\\xc1\\xc2\\xc3\\xc4\\xc5\\xc6\\xc7\\xc8\\xc9\\xca\\xcb\\xcc\\xcd\\xce\\xcf\\xd0\\xd1\\xd2\\xd3\\xd4\\xd5\\xd6\\xd7\\xd8\\xd9\\xda\\xdb\\xdc\\xdd\\xde\\xdf\\xe0\\xe1\\xe2\\xe3\\xe4\\xe5\\xe6\\xe7\\xe8\\xe9\\xea\\xeb\\xec\\xed\\xee\\xef\\xf0\\xf1\\xf2\\xf3\\xf4\\xf5\\xf6\\xf7\\xf8\\xf9\\xfa\\xfb\\xfc\\xfd\\xfe\\xff";

/// How many bytes each takes there.
static WIDTHS: [u8; 256] = [
    4, 4, 4, 4, 4, 4, 4, 4, 4, 4, 4, 4, 4, 4, 4, 4, 4, 4, 4, 4, 4, 4, 4, 4, 4, 4, 4, 4, 4, 4, 4, 4,
    1, 1, 4, 1, 1, 1, 1, 1, 1, 1, 1, 1, 1, 1, 1, 1, 1, 1, 1, 1, 1, 1, 1, 1, 1, 1, 1, 1, 1, 1, 1, 1,
    1, 1, 1, 1, 1, 1, 1, 1, 1, 1, 1, 1, 1, 1, 1, 1, 1, 1, 1, 1, 1, 1, 1, 1, 1, 1, 1, 1, 4, 1, 1, 1,
    1, 1, 1, 1, 1, 1, 1, 1, 1, 1, 1, 1, 1, 1, 1, 1, 1, 1, 1, 1, 1, 1, 1, 1, 1, 1, 1, 1, 1, 1, 1, 4,
    4, 4, 4, 4, 4, 4, 4, 4, 4, 4, 4, 4, 4, 4, 4, 4, 4, 4, 4, 4, 4, 4, 4, 4, 4, 4, 4, 4, 4, 4, 4, 4,
    4, 4, 4, 4, 4, 4, 4, 4, 4, 4, 4, 4, 4, 4, 4, 4, 4, 4, 4, 4, 4, 4, 4, 4, 4, 4, 4, 4, 4, 4, 4, 4,
    4, 4, 4, 4, 4, 4, 4, 4, 4, 4, 4, 4, 4, 4, 4, 4, 4, 4, 4, 4, 4, 4, 4, 4, 4, 4, 4, 4, 4, 4, 4, 4,
    4, 4, 4, 4, 4, 4, 4, 4, 4, 4, 4, 4, 4, 4, 4, 4, 4, 4, 4, 4, 4, 4, 4, 4, 4, 4, 4, 4, 4, 4, 4, 4,
];

/// Lays a byte of a string of a text at a place, and answers the place behind it. Strings that do not stand as they are have
/// both kinds in any order, so that no branch is guessed.
#[inline(always)]
pub(crate) fn lay_text_unit(byte: u8, bytes: &mut [u8], at: usize) -> usize
    requires { at + 4 ≤ length bytes.old }
    ensures place { (at ≤ result) × (result ≤ at + 4) }
    ensures laid { take result bytes.new ≡ take at bytes.old ++ unit_text Text byte }
    ensures length { length bytes.new ≡ length bytes.old }
{
    let place = usize::from(byte);
    put_word::<4>(bytes, at, &UNIT_TEXTS[place * 4..]);
    at + usize::from(WIDTHS[place])
}

/// Whether a byte stands as it is in a string of each form.
pub(crate) fn stands(byte: u8) -> bool
    ensures { result ≡ is_plain byte }
{
    WIDTHS[usize::from(byte)] == 1
}

/// Whether so many bytes from `at` on stand as they are.
#[inline(always)]
fn lanes_stand<const N: usize>(text: &[u8], at: usize) -> bool
    requires { (N ≤ 64) × (at + N ≤ length text.now) }
    ensures { result ≡ true → (k : ℕ) → at ≤ k → k < at + N → is_plain (slice_index text.now k) ≡ true }
{
    let lanes = Simd::<u8, N>::from_slice(&text[at..]);
    let below = lanes.simd_lt(Simd::splat(0x20)).to_bitmask();
    let above = lanes.simd_gt(Simd::splat(0x7E)).to_bitmask();
    let quotes = lanes.simd_eq(Simd::splat(b'"')).to_bitmask();
    let slashes = lanes.simd_eq(Simd::splat(b'\\')).to_bitmask();
    if below != 0 {
        return false;
    }
    if above != 0 {
        return false;
    }
    if quotes != 0 {
        return false;
    }
    slashes == 0
}

/// Whether each byte of a string of 16 bytes at least stands as it is.
fn long_stands(text: &[u8]) -> bool
    requires { 16 ≤ length text.now }
    ensures { result ≡ true → list_all is_plain text.now ≡ true }
{
    let last = text.len() - 16;
    let mut at = 0;
    while at < last {
        if !lanes_stand::<16>(text, at) {
            return false;
        }
        at += 16;
    }
    lanes_stand::<16>(text, last)
}

/// Whether each byte of a string stands as it is, looked at one by one.
#[inline(always)]
fn each_stands(text: &[u8]) -> bool
    ensures { result ≡ list_all is_plain text.now }
{
    text.iter().all(|byte| stands(*byte))
}

/// Whether each byte of a string stands as it is.
#[inline(always)]
pub fn all_stand(text: &[u8]) -> bool
    ensures { result ≡ true → list_all is_plain text.now ≡ true }
{
    if text.len() >= 16 {
        return long_stands(text);
    }
    if text.len() >= 8 {
        return lanes_stand::<8>(text, 0) && lanes_stand::<8>(text, text.len() - 8);
    }
    each_stands(text)
}

/// Lays a string of few bytes without its quotes at a place, and answers the place behind it.
#[inline(always)]
pub(crate) fn lay_units<S: Escape>(escape: S, text: &[u8], bytes: &mut [u8], at: usize) -> usize
    requires count { length text.now ≤ 10 }
    requires room { at + 60 ≤ length bytes.old }
    ensures place { (at ≤ result) × (result ≤ at + 60) }
    ensures laid { take result bytes.new ≡ take at bytes.old ++ flat_map (unit_text S.form) text.now }
    ensures length { length bytes.new ≡ length bytes.old }
{
    let mut next = at;
    for byte in text {
        next = escape.lay_unit(*byte, bytes, next);
    }
    next
}

/// Appends a string without its quotes, piece by piece.
#[tactic(auto, using(crate::proofs::Written::appended_more, crate::proofs::Written::flat_map_piece))]
fn push_units<S: Escape>(escape: S, text: &[u8], out: &mut Vec<u8>) -> Result<(), AllocError>
    ensures { Writes (flat_map (unit_text S.form) text.now) result out.old.items out.new.items }
{
    let mut piece = [0; 60];
    let mut at = 0;
    while text.len() - at >= UNITS {
        let end = lay_units(escape, &text[at..at + UNITS], &mut piece, 0);
        push(&piece[..end], out)?;
        at += UNITS;
    }
    let end = lay_units(escape, &text[at..], &mut piece, 0);
    push(&piece[..end], out)
}

/// Appends a string without its quotes; mostly it stands as it is, and goes there at once.
#[tactic(auto, using(crate::proofs::Written::plain_text))]
fn push_text<S: Escape>(escape: S, text: &[u8], out: &mut Vec<u8>) -> Result<(), AllocError>
    ensures { Writes (flat_map (unit_text S.form) text.now) result out.old.items out.new.items }
{
    if all_stand(text) {
        return push(text, out);
    }
    push_units(escape, text, out)
}

/// Appends a string in its quotes.
///
/// # Errors
///
/// An allocation was refused; a front of the string may stand there.
pub fn push_quoted<S: Escape>(escape: S, text: &[u8], out: &mut Vec<u8>) -> Result<(), AllocError>
    ensures { Writes (quoted S.form text.now) result out.old.items out.new.items }
{
    push_byte(b'"', out)?;
    push_text(escape, text, out)?;
    push_byte(b'"', out)
}

/// Lays a string of one byte in its quotes; none as below.
#[inline(always)]
fn lay_quoted_byte(byte: u8, bytes: &mut [u8], at: usize) -> Option<usize>
    requires { at + 3 ≤ length bytes.old }
    ensures place { IfSome result (λ next. next ≡ at + 3) }
    ensures stands { IfSome result (λ next. is_plain byte ≡ true) }
    ensures laid { IfSome result (λ next. take next bytes.new ≡ take at bytes.old ++ (34 ∷ (byte ∷ (34 ∷ [])))) }
    ensures before { take at bytes.new ≡ take at bytes.old }
    ensures length { length bytes.new ≡ length bytes.old }
{
    if !stands(byte) {
        return None;
    }
    let at = lay_byte(bytes, at, b'"');
    let at = lay_byte(bytes, at, byte);
    Some(lay_byte(bytes, at, b'"'))
}

/// Lays a string of sixteen bytes at most; none where it does not stand as it is.
#[inline(always)]
fn lay_few_plain(text: &[u8], bytes: &mut [u8], at: usize) -> Option<usize>
    requires count { length text.now ≤ 16 }
    requires room { at + 16 ≤ length bytes.old }
    ensures place { IfSome result (λ next. next ≡ at + length text.now) }
    ensures stands { IfSome result (λ next. list_all is_plain text.now ≡ true) }
    ensures laid { IfSome result (λ next. take next bytes.new ≡ take at bytes.old ++ text.now) }
    ensures before { take at bytes.new ≡ take at bytes.old }
    ensures length { length bytes.new ≡ length bytes.old }
{
    fill(bytes, at);
    let next = lay_few(bytes, at, text);
    if !lanes_stand::<16>(bytes, at) {
        return None;
    }
    Some(next)
}

/// Lays a string; none where it is not short, or does not stand as it is.
#[inline(always)]
fn lay_plain(text: &[u8], bytes: &mut [u8], at: usize) -> Option<usize>
    requires room { at + 64 ≤ length bytes.old }
    ensures place { IfSome result (λ next. (at ≤ next) × (next ≤ at + 64)) }
    ensures stands { IfSome result (λ next. list_all is_plain text.now ≡ true) }
    ensures laid { IfSome result (λ next. take next bytes.new ≡ take at bytes.old ++ text.now) }
    ensures before { take at bytes.new ≡ take at bytes.old }
    ensures length { length bytes.new ≡ length bytes.old }
{
    if text.len() <= 16 {
        return lay_few_plain(text, bytes, at);
    }
    if text.len() > LONGEST || !long_stands(text) {
        return None;
    }
    Some(lay_text(bytes, at, text))
}

/// Lays a string in its quotes at a place, and answers the place behind it; none where it is not short, or does not stand
/// as it is.
#[inline(always)]
pub(crate) fn lay_quoted<S: Escape>(
    _escape: S,
    text: &[u8],
    bytes: &mut [u8],
    at: usize,
) -> Option<usize>
    requires { at + 66 ≤ length bytes.old }
    ensures place { IfSome result (λ next. (at ≤ next) × (next ≤ at + 66)) }
    ensures laid { IfSome result (λ next. take next bytes.new ≡ take at bytes.old ++ quoted S.form text.now) }
    ensures before { take at bytes.new ≡ take at bytes.old }
    ensures length { length bytes.new ≡ length bytes.old }
{
    if let [byte] = text {
        return lay_quoted_byte(*byte, bytes, at);
    }
    let at = lay_byte(bytes, at, b'"');
    match lay_plain(text, bytes, at) {
        Some(at) => Some(lay_byte(bytes, at, b'"')),
        None => None,
    }
}
