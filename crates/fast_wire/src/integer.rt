//! Integers: FAST 1.1, Transfer Encoding, Integer Representation.

ghost use Rattle.std.specs.Prelude.{◌≡◌, ℕ, ℤ, ◌+◌, ◌-◌, ◌*◌, ◌^◌, ◌<◌, ◌≤◌, length, drop, slice_range, IfErr, IfOk, MatchResult, OnOk, OnErr, Ok, IsErrOf, ◌++◌, ◌↔◌, ◌⊎◌, vec_len, vec_capacity};
ghost use Rattle.fast_wire.specs.Reading.{EntityFault, IsReadAt, GivesAt, NothingElse, Reads, unsigned_at, signed_at};
ghost use Rattle.fast_wire.specs.Sizes.{unsigned_size, signed_size, CanBeUnsigned, CanBeSigned};
ghost use Rattle.fast_wire.specs.Writing.{IsShortestSize, Writes, OutOfRange};
ghost use Rattle.fast_wire.specs.Spellings.{entity_of, IsLeastSize, IsLeastSignedSize, Appends};
ghost use Rattle.fast_wire.specs.Integer.{unsigned_of, signed_of, magnitude, IsUnsigned, IsSigned};

use crate::fault::WireFault;
use crate::stop_bit::{STOP_BIT, entity_end};

/// The most bytes of an integer's entity.
const INTEGER_LIMIT: usize = 10;

/// The number that an entity of at most ten bytes spells.
fn unsigned_value(entity: &[u8]) -> u128
    requires { length entity.now ≤ 10 }
    ensures value { result ≡ unsigned_of entity.now }
    ensures bound { result < 128 ^ length entity.now }
{
    let mut value: u128 = 0;
    for byte in entity {
        value = value * 128 + u128::from(*byte % 128);
    }
    value
}

/// Reads an unsigned integer of at most ten bytes that begins at `at`, and answers it with the place after
/// it. Its form may be longer than it need be. NeedMore: the bytes end, fewer than ten, with no stop bit.
/// TooLong: the first ten have none. It takes no memory.
pub fn read_unsigned(bytes: &[u8], at: usize) -> Result<(u128, usize), WireFault>
    requires { at ≤ length bytes.now }
    ensures { IsReadAt NothingElse unsigned_at IsUnsigned CanBeUnsigned
        (EntityFault 10) (λ v. v) bytes.now at result }
{
    unsigned_from(bytes, at)
}

/// The number that stands at `at`, and the place after it.
fn unsigned_from(bytes: &[u8], at: usize) -> Result<(u128, usize), WireFault>
    requires { at ≤ length bytes.now }
    ensures place { IfOk result (λ x. (at < x.1) × (x.1 ≤ length bytes.now)) }
    ensures gives { GivesAt NothingElse unsigned_at (λ v. v) bytes.now at result }
{
    let next = entity_end(bytes, at, INTEGER_LIMIT)?;
    Ok((unsigned_value(&bytes[at..next]), next))
}

/// How many groups a number needs.
pub(crate) fn least_size(value: u128) -> usize
    requires { value < 128 ^ 10 }
    ensures { IsLeastSize value result }
{
    let mut limit: u128 = 128;
    for size in 1..INTEGER_LIMIT {
        if value < limit {
            return size;
        }
        limit *= 128;
    }
    INTEGER_LIMIT
}

/// Appends the lowest `size` groups of a number, the stop bit on the last, or nothing.
pub(crate) fn append_entity(value: u128, size: usize, out: &mut Vec<u8>) -> Result<(), WireFault>
    requires some { 0 < size }
    requires few { size ≤ 10 }
    ensures { Appends (entity_of size value) out.old out.new result }
{
    out.reserve(size)?;
    match u64::try_from(value) {
        Ok(value) => push_short_entity(value, size, out),
        Err(_) => push_entity(value, size, out),
    }
    Ok(())
}

/// The same of a number in 64 bits.
pub(crate) fn append_short_entity(
    value: u64,
    size: usize,
    out: &mut Vec<u8>,
) -> Result<(), WireFault>
    requires some { 0 < size }
    requires few { size ≤ 10 }
    ensures { Appends (entity_of size value) out.old out.new result }
{
    // most are of two groups
    if size == 2 {
        return append_two_groups(value, out);
    }
    out.reserve(size)?;
    push_short_entity(value, size, out);
    Ok(())
}

/// The same of two groups.
#[inline]
fn append_two_groups(value: u64, out: &mut Vec<u8>) -> Result<(), WireFault>
    ensures { Appends (entity_of 2 value) out.old out.new result }
{
    let first = (value / 128 % 128) as u8;
    let last = (value % 128) as u8 + STOP_BIT;
    out.extend_from_slice(&[first, last])?;
    Ok(())
}

/// The same as `push_entity` of a number in 64 bits.
fn push_short_entity(value: u64, size: usize, out: &mut Vec<u8>)
    requires some { 0 < size }
    requires few { size ≤ 10 }
    requires room { vec_len out.old + size ≤ vec_capacity out.old }
    ensures items { out.new.items ≡ out.old.items ++ entity_of size value }
{
    for left in (1..size).rev() {
        let group = (value >> (7 * left)) % 128;
        out.push(group as u8).unwrap();
    }
    out.push((value % 128) as u8 + STOP_BIT).unwrap();
}

/// Appends the lowest `size` groups of a number, the stop bit on the last, in room that is there.
pub(crate) fn push_entity(value: u128, size: usize, out: &mut Vec<u8>)
    requires some { 0 < size }
    requires few { size ≤ 10 }
    requires room { vec_len out.old + size ≤ vec_capacity out.old }
    ensures items { out.new.items ≡ out.old.items ++ entity_of size value }
    ensures len { vec_len out.new ≡ vec_len out.old + size }
    ensures capacity { vec_capacity out.old ≤ vec_capacity out.new }
{
    for left in (1..size).rev() {
        let group = (value >> (7 * left)) % 128;
        out.push(group as u8).unwrap();
    }
    let group = value % 128;
    out.push(group as u8 + STOP_BIT).unwrap();
}

/// The number of bytes of the shortest form of a number that fits ten bytes. It takes no memory.
pub fn size_unsigned(value: u128) -> usize
    requires { value < 128 ^ 10 }
    ensures size { result ≡ unsigned_size value }
    ensures few { result ≤ 10 }
    ensures least { IsShortestSize IsUnsigned value result }
{
    least_size(value)
}

/// Appends the shortest form of a number, or answers and appends nothing. Range: the number does not fit ten
/// bytes. Memory: the one growth was refused.
pub fn write_unsigned(value: u128, out: &mut Vec<u8>) -> Result<(), WireFault>
    ensures { Writes IsUnsigned (OutOfRange CanBeUnsigned) out.old out.new value result }
{
    if value >> 70 != 0 {
        return Err(WireFault::Range);
    }
    append_entity(value, least_size(value), out)
}

/// The signed number that an entity of at most ten bytes spells.
fn signed_value(entity: &[u8]) -> i128
    requires some { 0 < length entity.now }
    requires few { length entity.now ≤ 10 }
    ensures { result ≡ signed_of entity.now }
{
    let value = unsigned_value(entity) as i128;
    let span = (1u128 << (7 * entity.len())) as i128;
    if entity[0] % 128 >= 64 {
        value - span
    } else {
        value
    }
}

/// Reads a signed integer of at most ten bytes, in two's complement, that begins at `at`, and answers it with
/// the place after it. Its form may be longer than it need be. NeedMore: the bytes end, fewer than ten, with
/// no stop bit. TooLong: the first ten have none. It takes no memory.
pub fn read_signed(bytes: &[u8], at: usize) -> Result<(i128, usize), WireFault>
    requires { at ≤ length bytes.now }
    ensures { IsReadAt NothingElse signed_at IsSigned CanBeSigned
        (EntityFault 10) (λ v. v) bytes.now at result }
{
    complement_from(bytes, at)
}

/// The signed number that stands at `at`, and the place after it.
fn complement_from(bytes: &[u8], at: usize) -> Result<(i128, usize), WireFault>
    requires { at ≤ length bytes.now }
    ensures place { IfOk result (λ x. (at < x.1) × (x.1 ≤ length bytes.now)) }
    ensures gives { GivesAt NothingElse signed_at (λ v. v) bytes.now at result }
{
    let end = entity_end(bytes, at, INTEGER_LIMIT)?;
    Ok((signed_value(&bytes[at..end]), end))
}

/// How far a number is from 0, or a negative one from -1.
fn distance(value: i128) -> u128
    ensures { result ≡ magnitude value }
{
    if value < 0 {
        (-(value + 1)) as u128
    } else {
        value as u128
    }
}

/// How many groups a signed number needs.
fn least_signed_size(value: i128) -> usize
    requires { magnitude value < 64 * 128 ^ 9 }
    ensures { IsLeastSignedSize value result }
{
    let distance = distance(value);
    let mut limit: u128 = 64;
    for size in 1..INTEGER_LIMIT {
        if distance < limit {
            return size;
        }
        limit *= 128;
    }
    INTEGER_LIMIT
}

/// The number of bytes of the shortest form of a signed number that fits ten bytes. It takes no memory.
pub fn size_signed(value: i128) -> usize
    requires { CanBeSigned value }
    ensures size { result ≡ signed_size value }
    ensures few { result ≤ 10 }
    ensures least { IsShortestSize IsSigned value result }
{
    least_signed_size(value)
}

/// Appends the shortest form of a signed number, or answers and appends nothing. Range: the number does not
/// fit ten bytes, a bit of which is the sign. Memory: the one growth was refused.
pub fn write_signed(value: i128, out: &mut Vec<u8>) -> Result<(), WireFault>
    ensures { Writes IsSigned (OutOfRange CanBeSigned) out.old out.new value result }
{
    let distance = distance(value);
    if distance >> 69 != 0 {
        return Err(WireFault::Range);
    }
    let size = least_signed_size(value);
    if value < 0 {
        append_entity((1u128 << (7 * size)) - 1 - distance, size, out)
    } else {
        append_entity(distance, size, out)
    }
}
