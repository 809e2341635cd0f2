//! ASCII strings: FAST 1.1, Transfer Encoding, ASCII String Representation.

ghost use Rattle.std.specs.Prelude.{◌≡◌, ℕ, ◌+◌, ◌<◌, ◌≤◌, List, ◌++◌, length, drop, slice_range, All, IfErr, IfOk, MatchResult, OnOk, OnErr, IsErrOf, vec_capacity, ◌↔◌, ◌⊎◌};
ghost use Rattle.fast_wire.specs.Entity.{IsEntity, groups};
ghost use Rattle.fast_wire.specs.Ascii.{IsAscii, IsAsciiEntity, IsAsciiEntityNullable, IsAsciiNullable, IsAsciiText};
ghost use Rattle.fast_wire.specs.Nullable.{IsNullOr, borrowed, items_of, units};
ghost use Rattle.fast_wire.specs.Reading.{NothingElse, AsciiFault, GivesAt, OrMemory, Reads, ascii_at, ascii_nullable_at, IsReadAt};
ghost use Rattle.fast_wire.specs.Sizes.{ascii_size, ascii_nullable_size};
ghost use Rattle.fast_wire.specs.Spans.{IsBetween, IsTail, bytes_in, nullable_in, text_in};
ghost use Rattle.fast_wire.specs.Spellings.{behind_zeros, preamble_for, string_of, Appends};
ghost use Rattle.fast_wire.specs.Writing.{IsShortestSize, Writes, NoText};
ghost use Rattle.fast_wire.specs.declared.nullable.Nullable.{Nullable};

use crate::fault::WireFault;
use crate::nullable::Nullable;
use crate::span::Span;
use crate::stop_bit::{STOP_BIT, entity_end, find_stop};
use std::alloc::Global;

/// The most bytes of a string's entity.
const ENTITY_LIMIT: usize = 65_540;

/// The most characters of a string.
const CHARACTER_LIMIT: usize = 65_535;

/// The groups of a preamble in the form that has no NULL.
const PREAMBLE: usize = 1;

/// The groups of a preamble in the nullable form.
const NULLABLE_PREAMBLE: usize = 2;

/// The one byte of NULL's shortest form: a group of 0 with the stop bit.
const NULL: u8 = STOP_BIT;

/// The groups of the longest preamble.
const ZEROS: [u8; 2] = [0, 0];

/// How many groups in front are 0, but no more than `most`.
fn zero_groups(entity: &[u8], most: usize) -> usize
    ensures within { result ≤ length entity.now }
    ensures behind { drop result (groups entity.now) ≡ behind_zeros most (groups entity.now) }
{
    let end = most.min(entity.len());
    for i in 0..end {
        if entity[i] % 128 != 0 {
            return i;
        }
    }
    end
}

/// Where the string of the entity from `at` to `next` stands, behind at most `most` groups of 0. TooLong: it
/// has too many characters.
fn text_span(bytes: &[u8], at: usize, next: usize, most: usize) -> Result<Span, WireFault>
    requires place { next ≤ length bytes.now }
    requires entity { IsEntity (slice_range bytes.now at next) }
    ensures place { IfOk result (λ s. IsBetween at next s × (s.end ≡ next)) }
    ensures tail { IfOk result (λ s. IsTail (bytes_in bytes.now s)) }
    ensures ok { IfOk result (λ s. let text = text_in bytes.now s in
        (text ≡ behind_zeros most (groups (slice_range bytes.now at next)))
        × (length text ≤ 65535)) }
    ensures err { IfErr result (λ e. (e ≡ WireFault.TooLong)
        × (65535 < length (behind_zeros most (groups (slice_range bytes.now at next))))) }
{
    let start = at + zero_groups(&bytes[at..next], most);
    if next - start > CHARACTER_LIMIT {
        return Err(WireFault::TooLong);
    }
    Ok(Span { start, end: next })
}

/// Finds the ASCII string that begins at `at`, as `read_ascii` reads it: where its text stands, and the place
/// after it. It takes no memory.
pub fn find_ascii(bytes: &[u8], at: usize) -> Result<(Span, usize), WireFault>
    requires { at ≤ length bytes.now }
    ensures place { IfOk result (λ x. (at < x.1) × (x.1 ≤ length bytes.now)) }
    ensures between { IfOk result (λ x. IsBetween at x.1 x.0) }
    ensures tail { IfOk result (λ x. IsTail (bytes_in bytes.now x.0)) }
    ensures gives { GivesAt NothingElse ascii_at (text_in bytes.now) bytes.now at result }
{
    let next = entity_end(bytes, at, ENTITY_LIMIT)?;
    let span = text_span(bytes, at, next, PREAMBLE)?;
    Ok((span, next))
}

/// Finds the nullable ASCII string that begins at `at`, as `read_ascii_nullable` reads it: where its text
/// stands, and the place after it. It takes no memory.
pub fn find_ascii_nullable(bytes: &[u8], at: usize) -> Result<(Nullable<Span>, usize), WireFault>
    requires { at ≤ length bytes.now }
    ensures place { IfOk result (λ x. (at < x.1) × (x.1 ≤ length bytes.now)) }
    ensures between { IfOk result (λ x. IsNullOr (IsBetween at x.1) x.0) }
    ensures tail { IfOk result (λ x. IsNullOr (λ s. IsTail (bytes_in bytes.now s)) x.0) }
    ensures gives { GivesAt NothingElse ascii_nullable_at (nullable_in (text_in bytes.now))
        bytes.now at result }
{
    let next = entity_end(bytes, at, ENTITY_LIMIT)?;
    if bytes[at] == NULL {
        return Ok((Nullable::Null, next));
    }
    let span = text_span(bytes, at, next, NULLABLE_PREAMBLE)?;
    Ok((Nullable::Value(span), next))
}

/// Makes a vector hold the characters of the last bytes of an entity, without the stop bit, in place of what it
/// held. Memory: the one growth was refused, and what it held stays.
pub fn fill_characters(tail: &[u8], text: &mut Vec<u8>) -> Result<(), WireFault>
    requires { IsTail tail.now }
    ensures ok { OnOk result (text.new.items ≡ groups tail.now) }
    ensures err { IfErr result (λ e. (e ≡ WireFault.Memory) × (text.new.items ≡ text.old.items)
        × (vec_capacity text.old < length tail.now)) }
{
    if tail.len() > text.len() {
        text.reserve(tail.len() - text.len())?;
    }
    text.clear();
    text.extend_from_slice(tail).unwrap();
    if !text.is_empty() {
        let last = text.len() - 1;
        text[last] %= 128;
    }
    Ok(())
}

/// The characters of the last bytes of an entity, copied once, without the stop bit.
fn characters(alloc: Global, tail: &[u8]) -> Result<Vec<u8>, WireFault>
    requires { IsTail tail.now }
    ensures ok { IfOk result (λ text. text.items ≡ groups tail.now) }
    ensures err { IfErr result (λ e. e ≡ WireFault.Memory) }
{
    let mut text = Vec::new(alloc);
    fill_characters(tail, &mut text)?;
    Ok(text)
}

/// Reads an ASCII string that begins at `at`, of at most 65,540 bytes and 65,535 characters, and answers it
/// with the place after it. A first group of 0 is a preamble, also where none is needed. NeedMore: the bytes
/// end, fewer than 65,540, with no stop bit. TooLong: the first 65,540 have none, or there are too many
/// characters. Memory: the one copy was refused.
pub fn read_ascii(alloc: Global, bytes: &[u8], at: usize) -> Result<(Vec<u8>, usize), WireFault>
    requires { at ≤ length bytes.now }
    ensures { IsReadAt OrMemory ascii_at IsAscii IsAsciiText
        (AsciiFault IsAsciiEntity length) (λ v. v.items) bytes.now at result }
{
    ascii_from(alloc, bytes, at)
}

/// The string that stands at `at`, and the place after it.
fn ascii_from(alloc: Global, bytes: &[u8], at: usize) -> Result<(Vec<u8>, usize), WireFault>
    requires { at ≤ length bytes.now }
    ensures place { IfOk result (λ x. (at < x.1) × (x.1 ≤ length bytes.now)) }
    ensures gives { GivesAt OrMemory ascii_at (λ v. v.items) bytes.now at result }
{
    let (span, next) = find_ascii(bytes, at)?;
    let text = characters(alloc, &bytes[span.start..span.end])?;
    Ok((text, next))
}

/// Reads a nullable ASCII string that begins at `at`, as `read_ascii`: but the single group 0 is NULL, and
/// two first groups of 0 are a preamble, as one before another group is.
pub fn read_ascii_nullable(
    alloc: Global,
    bytes: &[u8],
    at: usize,
) -> Result<(Nullable<Vec<u8>>, usize), WireFault>
    requires { at ≤ length bytes.now }
    ensures { IsReadAt OrMemory ascii_nullable_at IsAsciiNullable (IsNullOr IsAsciiText)
        (AsciiFault IsAsciiEntityNullable units) items_of bytes.now at result }
{
    ascii_nullable_from(alloc, bytes, at)
}

/// The nullable string that stands at `at`, and the place after it.
fn ascii_nullable_from(
    alloc: Global,
    bytes: &[u8],
    at: usize,
) -> Result<(Nullable<Vec<u8>>, usize), WireFault>
    requires { at ≤ length bytes.now }
    ensures place { IfOk result (λ x. (at < x.1) × (x.1 ≤ length bytes.now)) }
    ensures gives { GivesAt OrMemory ascii_nullable_at items_of bytes.now at result }
{
    let (span, next) = find_ascii_nullable(bytes, at)?;
    let Nullable::Value(span) = span else {
        return Ok((Nullable::Null, next));
    };
    let text = characters(alloc, &bytes[span.start..span.end])?;
    Ok((Nullable::Value(text), next))
}

/// How many groups of 0 stand in front of a string: a whole preamble if it is empty or begins with NUL, and
/// else none.
fn preamble_size(text: &[u8], preamble: usize) -> usize
    ensures { result ≡ preamble_for text.now preamble }
{
    if text.is_empty() || text[0] == 0 {
        preamble
    } else {
        0
    }
}

/// Whether a string has a form. Range: a character is above 127. TooLong, where none is: there are more than
/// 65,535.
fn check_characters(text: &[u8]) -> Result<(), WireFault>
    ensures { MatchResult result (λ _. IsAsciiText text.now) (NoText (Nullable.Value text.now)) }
{
    if find_stop(text).is_some() {
        return Err(WireFault::Range);
    }
    if text.len() > CHARACTER_LIMIT {
        return Err(WireFault::TooLong);
    }
    Ok(())
}

/// Appends `preamble` groups of 0 and the characters, the stop bit on the last, or nothing.
fn append_string(text: &[u8], preamble: usize, out: &mut Vec<u8>) -> Result<(), WireFault>
    requires text { IsAsciiText text.now }
    requires few { preamble ≤ 2 }
    requires some { 0 < preamble + length text.now }
    ensures { Appends (string_of preamble text.now) out.old out.new result }
{
    out.reserve(preamble + text.len())?;
    out.extend_from_slice(&ZEROS[..preamble]).unwrap();
    out.extend_from_slice(text).unwrap();
    let last = out.len() - 1;
    out[last] += STOP_BIT;
    Ok(())
}

/// Appends the shortest form of an ASCII string, or answers and appends nothing. Range: a character is above
/// 127. TooLong, where none is: there are more than 65,535. Memory: the one growth was refused.
pub fn write_ascii(text: &[u8], out: &mut Vec<u8>) -> Result<(), WireFault>
    ensures { Writes IsAscii (λ s. NoText (Nullable.Value s)) out.old out.new text.now result }
{
    check_characters(text)?;
    append_string(text, preamble_size(text, PREAMBLE), out)
}

/// The number of bytes of the shortest form of an ASCII string that has one. It takes no memory.
pub fn size_ascii(text: &[u8]) -> usize
    requires { IsAsciiText text.now }
    ensures size { result ≡ ascii_size text.now }
    ensures few { result ≤ 65536 }
    ensures least { IsShortestSize IsAscii text.now result }
{
    preamble_size(text, PREAMBLE) + text.len()
}

/// Appends the shortest form of a nullable ASCII string, or answers and appends nothing. Range, TooLong,
/// Memory: as `write_ascii`.
pub fn write_ascii_nullable(value: Nullable<&[u8]>, out: &mut Vec<u8>) -> Result<(), WireFault>
    ensures { Writes IsAsciiNullable NoText out.old out.new (borrowed value.entry) result }
{
    match value {
        Nullable::Null => append_string(&[], 1, out),
        Nullable::Value(text) => {
            check_characters(text)?;
            append_string(text, preamble_size(text, NULLABLE_PREAMBLE), out)
        }
    }
}

/// The number of bytes of the shortest form of a nullable ASCII string that has one. It takes no memory.
pub fn size_ascii_nullable(value: Nullable<&[u8]>) -> usize
    requires { IsNullOr IsAsciiText (borrowed value) }
    ensures size { result ≡ ascii_nullable_size (borrowed value.entry) }
    ensures few { result ≤ 65537 }
    ensures least { IsShortestSize IsAsciiNullable (borrowed value.entry) result }
{
    match value {
        Nullable::Null => 1,
        Nullable::Value(text) => preamble_size(text, NULLABLE_PREAMBLE) + text.len(),
    }
}
