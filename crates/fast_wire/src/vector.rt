//! Byte vectors: FAST 1.1, Transfer Encoding, Byte Vector Representation.

ghost use Rattle.std.specs.Prelude.{◌≡◌, ℕ, ◌+◌, ◌-◌, ◌<◌, ◌≤◌, List, ◌++◌, length, drop, slice_range, IfErr, IfOk, MatchResult, OnOk, OnErr, IsErrOf, ◌↔◌, ◌⊎◌};
ghost use Rattle.fast_wire.specs.Integer.{IsUnsigned};
ghost use Rattle.fast_wire.specs.Nullable.{borrowed, items_of, units, IsNullOr};
ghost use Rattle.fast_wire.specs.Reader.{IsBytes};
ghost use Rattle.fast_wire.specs.Reading.{Gives, NothingElse, GivesAt, OrMemory, LengthFault, Reads, VectorFault, bytes_at, vector_at, vector_nullable_at, IsReadAt};
ghost use Rattle.fast_wire.specs.Sizes.{vector_size, vector_nullable_size, CanBeVector};
ghost use Rattle.fast_wire.specs.Spans.{IsBetween, bytes_in, nullable_in};
ghost use Rattle.fast_wire.specs.Spellings.{IsLeastSize, entity_of, Appends};
ghost use Rattle.fast_wire.specs.Vector.{IsLengthNullable, IsVector, IsVectorNullable};
ghost use Rattle.fast_wire.specs.Writing.{IsShortestSize, Writes, TooManyBytes};
ghost use Rattle.fast_wire.specs.declared.nullable.Nullable.{Nullable};

use crate::fault::WireFault;
use crate::integer::{append_entity, least_size, push_entity, read_unsigned};
use crate::nullable::{Nullable, read_unsigned_nullable};
use crate::span::Span;
use std::alloc::Global;

/// The most bytes of a vector.
const BYTE_LIMIT: usize = 65_535;

/// Where so many bytes from `start` on stand. TooLong: there are more than 65,535, whatever follows. NeedMore:
/// the bytes end before.
fn span_from(bytes: &[u8], start: usize, count: u128) -> Result<Span, WireFault>
    requires { start ≤ length bytes.now }
    ensures place { IfOk result (λ s. (s.start ≡ start) × (start ≤ s.end)
        × (s.end ≤ length bytes.now)) }
    ensures gives { Gives NothingElse (λ s. (bytes_in bytes.now s, drop s.end bytes.now)) result
        (bytes_at count (drop start bytes.now)) }
{
    if count > BYTE_LIMIT as u128 {
        return Err(WireFault::TooLong);
    }
    let count = count as usize;
    if bytes.len() - start < count {
        return Err(WireFault::NeedMore);
    }
    Ok(Span {
        start,
        end: start + count,
    })
}

/// Finds the byte vector that begins at `at`, as `read_vector` reads it: where its bytes stand, and the place
/// after it. It takes no memory.
pub fn find_vector(bytes: &[u8], at: usize) -> Result<(Span, usize), WireFault>
    requires { at ≤ length bytes.now }
    ensures place { IfOk result (λ x. (at < x.1) × (x.1 ≤ length bytes.now)) }
    ensures between { IfOk result (λ x. IsBetween at x.1 x.0) }
    ensures gives { GivesAt NothingElse vector_at (bytes_in bytes.now) bytes.now at result }
{
    let (count, start) = read_unsigned(bytes, at)?;
    let span = span_from(bytes, start, count)?;
    let next = span.end;
    Ok((span, next))
}

/// Finds the nullable byte vector that begins at `at`, as `read_vector_nullable` reads it: where its bytes
/// stand, and the place after it. It takes no memory.
pub fn find_vector_nullable(bytes: &[u8], at: usize) -> Result<(Nullable<Span>, usize), WireFault>
    requires { at ≤ length bytes.now }
    ensures place { IfOk result (λ x. (at < x.1) × (x.1 ≤ length bytes.now)) }
    ensures between { IfOk result (λ x. IsNullOr (IsBetween at x.1) x.0) }
    ensures gives { GivesAt NothingElse vector_nullable_at (nullable_in (bytes_in bytes.now))
        bytes.now at result }
{
    let (count, start) = read_unsigned_nullable(bytes, at)?;
    let Nullable::Value(count) = count else {
        return Ok((Nullable::Null, start));
    };
    let span = span_from(bytes, start, count)?;
    let next = span.end;
    Ok((Nullable::Value(span), next))
}

/// Reads a byte vector that begins at `at`, a length of at most ten bytes and at most 65,535 bytes, and
/// answers it with the place after it. The length may be longer than it need be. NeedMore: the bytes end
/// inside the length, or inside the vector. TooLong: the first ten bytes end no length, or it is above 65,535,
/// which is judged before any byte behind it. Memory: the one copy was refused.
pub fn read_vector(alloc: Global, bytes: &[u8], at: usize) -> Result<(Vec<u8>, usize), WireFault>
    requires { at ≤ length bytes.now }
    ensures { IsReadAt OrMemory vector_at IsVector CanBeVector
        (VectorFault IsUnsigned) (λ v. v.items) bytes.now at result }
{
    vector_from(alloc, bytes, at)
}

/// The vector that stands at `at`, and the place after it.
fn vector_from(alloc: Global, bytes: &[u8], at: usize) -> Result<(Vec<u8>, usize), WireFault>
    requires { at ≤ length bytes.now }
    ensures place { IfOk result (λ x. (at < x.1) × (x.1 ≤ length bytes.now)) }
    ensures gives { GivesAt OrMemory vector_at (λ v. v.items) bytes.now at result }
{
    let (span, next) = find_vector(bytes, at)?;
    let items = Vec::from_slice(alloc, &bytes[span.start..span.end])?;
    Ok((items, next))
}

/// Reads a nullable byte vector that begins at `at`, as `read_vector`: its length is nullable, and a NULL
/// length is NULL, behind which no bytes stand.
pub fn read_vector_nullable(
    alloc: Global,
    bytes: &[u8],
    at: usize,
) -> Result<(Nullable<Vec<u8>>, usize), WireFault>
    requires { at ≤ length bytes.now }
    ensures { IsReadAt OrMemory vector_nullable_at IsVectorNullable (IsNullOr CanBeVector)
        (VectorFault IsLengthNullable) items_of bytes.now at result }
{
    vector_nullable_from(alloc, bytes, at)
}

/// The nullable vector that stands at `at`, and the place after it.
fn vector_nullable_from(
    alloc: Global,
    bytes: &[u8],
    at: usize,
) -> Result<(Nullable<Vec<u8>>, usize), WireFault>
    requires { at ≤ length bytes.now }
    ensures place { IfOk result (λ x. (at < x.1) × (x.1 ≤ length bytes.now)) }
    ensures gives { GivesAt OrMemory vector_nullable_at items_of bytes.now at result }
{
    let (span, next) = find_vector_nullable(bytes, at)?;
    let Nullable::Value(span) = span else {
        return Ok((Nullable::Null, next));
    };
    let items = Vec::from_slice(alloc, &bytes[span.start..span.end])?;
    Ok((Nullable::Value(items), next))
}

/// Appends the shortest entity of what is sent for a length and then the bytes, or nothing.
fn append_vector(sent: u128, items: &[u8], out: &mut Vec<u8>) -> Result<(), WireFault>
    requires few { sent ≤ 65536 }
    requires bytes { length items.now ≤ 65535 }
    ensures appended { (size : ℕ) × IsLeastSize sent size
        × Appends (entity_of size sent ++ items.now) out.old out.new result }
    ensures fit { IsBytes items.now }
{
    let size = least_size(sent);
    out.reserve(size + items.len())?;
    push_entity(sent, size, out);
    out.extend_from_slice(items).unwrap();
    Ok(())
}

/// Appends the shortest form of a byte vector, or answers and appends nothing. TooLong: it has more than
/// 65,535 bytes. Memory: the one growth was refused.
pub fn write_vector(items: &[u8], out: &mut Vec<u8>) -> Result<(), WireFault>
    ensures { Writes IsVector (λ s. TooManyBytes (Nullable.Value s)) out.old out.new items.now
        result }
{
    if items.len() > BYTE_LIMIT {
        return Err(WireFault::TooLong);
    }
    append_vector(items.len() as u128, items, out)
}

/// The bytes of the shortest entity of what is sent for a length, and the bytes behind it.
fn form_size(sent: u128, items: &[u8]) -> usize
    requires few { sent ≤ 65536 }
    requires bytes { length items.now ≤ 65535 }
    ensures size { (groups : ℕ) × IsLeastSize sent groups × (result ≡ groups + length items.now) }
    ensures fit { IsBytes items.now }
{
    least_size(sent) + items.len()
}

/// The number of bytes of the shortest form of a byte vector that has one. It takes no memory.
pub fn size_vector(items: &[u8]) -> usize
    requires { length items.now ≤ 65535 }
    ensures size { result ≡ vector_size items.now }
    ensures few { result ≤ 65545 }
    ensures least { IsShortestSize IsVector items.now result }
{
    form_size(items.len() as u128, items)
}

/// Appends the shortest form of a nullable byte vector, or answers and appends nothing. TooLong, Memory: as
/// `write_vector`.
pub fn write_vector_nullable(value: Nullable<&[u8]>, out: &mut Vec<u8>) -> Result<(), WireFault>
    ensures { Writes IsVectorNullable TooManyBytes out.old out.new (borrowed value.entry) result }
{
    let Nullable::Value(items) = value else {
        return append_entity(0, 1, out);
    };
    if items.len() > BYTE_LIMIT {
        return Err(WireFault::TooLong);
    }
    append_vector(items.len() as u128 + 1, items, out)
}

/// The number of bytes of the shortest form of a nullable byte vector that has one. It takes no memory.
pub fn size_vector_nullable(value: Nullable<&[u8]>) -> usize
    requires { units (borrowed value) ≤ 65535 }
    ensures size { result ≡ vector_nullable_size (borrowed value.entry) }
    ensures few { result ≤ 65545 }
    ensures least { IsShortestSize IsVectorNullable (borrowed value.entry) result }
{
    match value {
        Nullable::Null => 1,
        Nullable::Value(items) => form_size(items.len() as u128 + 1, items),
    }
}
