//! Integers in 64 bits: an entity of one byte is read and written inline, one of at most nine is read in one
//! register, and the rest is done by `integer` and `nullable`.

ghost use Rattle.std.specs.Prelude.{◌≡◌, ◌+◌, ◌%◌, ◌<◌, ◌≤◌, nat_le, length, slice_index, drop, take, IfOk, IfSome, MatchOption};
ghost use Rattle.fast_wire.specs.Entity.{HasNoStop};
ghost use Rattle.fast_wire.specs.Nullable.{IsNullOr, IsSignedNullable, IsUnsignedNullable, received_unsigned, sent_signed};
ghost use Rattle.fast_wire.specs.Nullable as nullable;
ghost use Rattle.fast_wire.specs.Reading.{FitsI64, FitsU64, GivesAt, OrOutside, signed_at, signed_nullable_at, unsigned_at, unsigned_nullable_at};
ghost use Rattle.fast_wire.specs.Spellings.{Appends, IsOneGroup, IsShort, IsShortUnder, entity_of, under_sign};
ghost use Rattle.fast_wire.specs.Integer.{IsSigned, IsUnsigned, magnitude};
ghost use Rattle.fast_wire.specs.Writing.{NeverRefused, Writes};

use crate::fault::WireFault;
use crate::integer::{read_signed, read_unsigned, write_signed, write_unsigned};
use crate::nullable::{
    Nullable, read_signed_nullable, read_unsigned_nullable, write_signed_nullable,
    write_unsigned_nullable,
};
use crate::stop_bit::STOP_BIT;

/// The most bytes of an entity whose number is put together in 64 bits.
const SHORT_LIMIT: usize = 9;

/// The number of one group, in two's complement where it is below 0.
#[inline]
fn group_number(group: u8, negative: bool) -> i64
    requires { group < 128 }
    ensures { result ≡ under_sign negative 1 group }
{
    if negative {
        i64::from(group) - 128
    } else {
        i64::from(group)
    }
}

/// The entity of two to nine bytes that begins at `at`: its number, in two's complement where it is below 0, and the
/// place after it. None: there is no such entity.
#[inline]
fn longer_entity(bytes: &[u8], at: usize, negative: bool) -> Option<(i64, usize)>
    requires within { at < length bytes.now }
    requires longer { slice_index bytes.now at < 128 }
    ensures { MatchOption result (HasNoStop (take 9 (drop at bytes.now)))
        (λ x. IsShortUnder negative bytes.now at x.0 x.1) }
{
    let end = bytes.len().min(at + SHORT_LIMIT);
    let mut number = group_number(bytes[at], negative);
    for i in at + 1..end {
        let byte = bytes[i];
        if byte >= STOP_BIT {
            return Some((number * 128 + i64::from(byte - STOP_BIT), i + 1));
        }
        number = number * 128 + i64::from(byte);
    }
    None
}

/// The unsigned number of at most nine bytes that begins at `at`, and the place after it. None: there is no such
/// entity.
#[inline]
pub(crate) fn short_unsigned(bytes: &[u8], at: usize) -> Option<(u64, usize)>
    requires { at ≤ length bytes.now }
    ensures { MatchOption result (HasNoStop (take 9 (drop at bytes.now)))
        (λ x. IsShort bytes.now at x.0 x.1) }
{
    if at == bytes.len() {
        return None;
    }
    if bytes[at] >= STOP_BIT {
        return Some((u64::from(bytes[at] - STOP_BIT), at + 1));
    }
    let (number, next) = longer_entity(bytes, at, false)?;
    Some((number as u64, next))
}

/// Reads an unsigned integer as `read_unsigned` does, in 64 bits. Range: the number has more. It takes no
/// memory.
#[inline(always)]
pub fn read_u64(bytes: &[u8], at: usize) -> Result<(u64, usize), WireFault>
    requires { at ≤ length bytes.now }
    ensures place { IfOk result (λ x. (at < x.1) × (x.1 ≤ length bytes.now)) }
    ensures gives { GivesAt (OrOutside FitsU64) unsigned_at (λ v. v) bytes.now at result }
{
    match short_unsigned(bytes, at) {
        Some(found) => Ok(found),
        None => read_long(bytes, at),
    }
}

/// The same of a number of any length.
#[cold]
fn read_long(bytes: &[u8], at: usize) -> Result<(u64, usize), WireFault>
    requires { at ≤ length bytes.now }
    ensures place { IfOk result (λ x. (at < x.1) × (x.1 ≤ length bytes.now)) }
    ensures gives { GivesAt (OrOutside FitsU64) unsigned_at (λ v. v) bytes.now at result }
{
    let (value, next) = read_unsigned(bytes, at)?;
    match u64::try_from(value) {
        Ok(value) => Ok((value, next)),
        Err(_) => Err(WireFault::Range),
    }
}

/// What is meant by a number that was sent.
#[inline]
fn received(sent: u64) -> Nullable<u64>
    ensures { result ≡ received_unsigned sent }
{
    if sent == 0 {
        Nullable::Null
    } else {
        Nullable::Value(sent - 1)
    }
}

/// Reads a nullable unsigned integer as `read_unsigned_nullable` does, in 64 bits. Range: the number has more.
/// It takes no memory.
#[inline(always)]
pub fn read_u64_nullable(bytes: &[u8], at: usize) -> Result<(Nullable<u64>, usize), WireFault>
    requires { at ≤ length bytes.now }
    ensures place { IfOk result (λ x. (at < x.1) × (x.1 ≤ length bytes.now)) }
    ensures gives { GivesAt (OrOutside (IsNullOr FitsU64)) unsigned_nullable_at (λ v. v)
        bytes.now at result }
{
    match short_unsigned(bytes, at) {
        Some((sent, next)) => Ok((received(sent), next)),
        None => read_long_nullable(bytes, at),
    }
}

/// The same of a number of any length.
#[cold]
fn read_long_nullable(bytes: &[u8], at: usize) -> Result<(Nullable<u64>, usize), WireFault>
    requires { at ≤ length bytes.now }
    ensures place { IfOk result (λ x. (at < x.1) × (x.1 ≤ length bytes.now)) }
    ensures gives { GivesAt (OrOutside (IsNullOr FitsU64)) unsigned_nullable_at (λ v. v)
        bytes.now at result }
{
    let (value, next) = read_unsigned_nullable(bytes, at)?;
    let Nullable::Value(value) = value else {
        return Ok((Nullable::Null, next));
    };
    match u64::try_from(value) {
        Ok(value) => Ok((Nullable::Value(value), next)),
        Err(_) => Err(WireFault::Range),
    }
}

/// The signed number of at most nine bytes that begins at `at`, and the place after it. None: there is no such
/// entity.
#[inline]
fn short_signed(bytes: &[u8], at: usize) -> Option<(i64, usize)>
    requires { at ≤ length bytes.now }
    ensures { MatchOption result (HasNoStop (take 9 (drop at bytes.now)))
        (λ x. IsShortUnder (nat_le 64 (slice_index bytes.now at % 128)) bytes.now at x.0 x.1) }
{
    if at == bytes.len() {
        return None;
    }
    let group = bytes[at] % 128;
    if bytes[at] >= STOP_BIT {
        return Some((group_number(group, group >= 64), at + 1));
    }
    longer_entity(bytes, at, group >= 64)
}

/// Reads a signed integer as `read_signed` does, in 64 bits. Range: the number has more. It takes no memory.
#[inline(always)]
pub fn read_i64(bytes: &[u8], at: usize) -> Result<(i64, usize), WireFault>
    requires { at ≤ length bytes.now }
    ensures place { IfOk result (λ x. (at < x.1) × (x.1 ≤ length bytes.now)) }
    ensures gives { GivesAt (OrOutside FitsI64) signed_at (λ v. v) bytes.now at result }
{
    match short_signed(bytes, at) {
        Some(found) => Ok(found),
        None => read_long_signed(bytes, at),
    }
}

/// The same of a number of any length.
#[cold]
fn read_long_signed(bytes: &[u8], at: usize) -> Result<(i64, usize), WireFault>
    requires { at ≤ length bytes.now }
    ensures place { IfOk result (λ x. (at < x.1) × (x.1 ≤ length bytes.now)) }
    ensures gives { GivesAt (OrOutside FitsI64) signed_at (λ v. v) bytes.now at result }
{
    let (value, next) = read_signed(bytes, at)?;
    match i64::try_from(value) {
        Ok(value) => Ok((value, next)),
        Err(_) => Err(WireFault::Range),
    }
}

/// What is meant by a signed number that was sent.
#[inline]
fn received_signed(sent: i64) -> Nullable<i64>
    ensures { result ≡ nullable.received_signed sent }
{
    if sent == 0 {
        Nullable::Null
    } else if sent > 0 {
        Nullable::Value(sent - 1)
    } else {
        Nullable::Value(sent)
    }
}

/// Reads a nullable signed integer as `read_signed_nullable` does, in 64 bits. Range: the number has more. It
/// takes no memory.
#[inline(always)]
pub fn read_i64_nullable(bytes: &[u8], at: usize) -> Result<(Nullable<i64>, usize), WireFault>
    requires { at ≤ length bytes.now }
    ensures place { IfOk result (λ x. (at < x.1) × (x.1 ≤ length bytes.now)) }
    ensures gives { GivesAt (OrOutside (IsNullOr FitsI64)) signed_nullable_at (λ v. v)
        bytes.now at result }
{
    match short_signed(bytes, at) {
        Some((sent, next)) => Ok((received_signed(sent), next)),
        None => read_long_signed_nullable(bytes, at),
    }
}

/// The same of a number of any length.
#[cold]
fn read_long_signed_nullable(bytes: &[u8], at: usize) -> Result<(Nullable<i64>, usize), WireFault>
    requires { at ≤ length bytes.now }
    ensures place { IfOk result (λ x. (at < x.1) × (x.1 ≤ length bytes.now)) }
    ensures gives { GivesAt (OrOutside (IsNullOr FitsI64)) signed_nullable_at (λ v. v)
        bytes.now at result }
{
    let (value, next) = read_signed_nullable(bytes, at)?;
    let Nullable::Value(value) = value else {
        return Ok((Nullable::Null, next));
    };
    match i64::try_from(value) {
        Ok(value) => Ok((Nullable::Value(value), next)),
        Err(_) => Err(WireFault::Range),
    }
}

/// Appends an entity of one byte, or nothing.
#[inline]
pub(crate) fn append_byte(group: u8, out: &mut Vec<u8>) -> Result<(), WireFault>
    requires { group < 128 }
    ensures { Appends (entity_of 1 group) out.old out.new result }
{
    out.reserve(1)?;
    out.push(group + STOP_BIT).unwrap();
    Ok(())
}

/// Appends the shortest form of a number in 64 bits, or answers and appends nothing. Memory: the one growth was
/// refused.
#[inline]
pub fn write_u64(value: u64, out: &mut Vec<u8>) -> Result<(), WireFault>
    ensures { Writes IsUnsigned NeverRefused out.old out.new value result }
{
    if value < 128 {
        return append_byte(value as u8, out);
    }
    write_unsigned(u128::from(value), out)
}

/// Appends the shortest form of a nullable number in 64 bits, or answers and appends nothing. Memory: the one
/// growth was refused.
#[inline]
pub fn write_u64_nullable(value: Nullable<u64>, out: &mut Vec<u8>) -> Result<(), WireFault>
    ensures { Writes IsUnsignedNullable NeverRefused out.old out.new value result }
{
    let Nullable::Value(value) = value else {
        return append_byte(0, out);
    };
    if value < 127 {
        return append_byte(value as u8 + 1, out);
    }
    write_unsigned_nullable(Nullable::Value(u128::from(value)), out)
}

/// The group of a signed number that one group holds.
#[inline]
fn one_group(value: i64) -> Option<u8>
    ensures { IfSome result (IsOneGroup value) }
{
    if value >= 64 || value < -64 {
        return None;
    }
    if value < 0 {
        Some((value + 128) as u8)
    } else {
        Some(value as u8)
    }
}

/// Appends the shortest form of a signed number in 64 bits, or answers and appends nothing. Memory: the one
/// growth was refused.
#[inline]
pub fn write_i64(value: i64, out: &mut Vec<u8>) -> Result<(), WireFault>
    ensures { Writes IsSigned NeverRefused out.old out.new value result }
{
    match one_group(value) {
        Some(group) => append_byte(group, out),
        None => write_signed(i128::from(value), out),
    }
}

/// What is sent for a signed number. The largest stands for the one after it.
#[inline]
fn signed_sent(value: i64) -> i64
    ensures { magnitude result < 64 → result ≡ sent_signed (Nullable.Value value) }
{
    if value < 0 {
        value
    } else {
        value.saturating_add(1)
    }
}

/// Appends the shortest form of a nullable signed number in 64 bits, or answers and appends nothing. Memory: the
/// one growth was refused.
#[inline]
pub fn write_i64_nullable(value: Nullable<i64>, out: &mut Vec<u8>) -> Result<(), WireFault>
    ensures { Writes IsSignedNullable NeverRefused out.old out.new value result }
{
    let Nullable::Value(value) = value else {
        return append_byte(0, out);
    };
    match one_group(signed_sent(value)) {
        Some(group) => append_byte(group, out),
        None => write_signed_nullable(Nullable::Value(i128::from(value)), out),
    }
}
