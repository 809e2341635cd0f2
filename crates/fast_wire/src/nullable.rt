//! Nullable integers: FAST 1.1, Transfer Encoding, Nullable Integer Representation.

ghost use Rattle.std.specs.Prelude.{◌≡◌, ℕ, ℤ, ◌+◌, ◌*◌, ◌^◌, ◌<◌, ◌≤◌, length, drop, IfErr, IfOk, MatchResult, OnOk, OnErr, Ok, IsErrOf, ◌↔◌, ◌⊎◌};
ghost use Rattle.fast_wire.specs.Integer.{magnitude};
ghost use Rattle.fast_wire.specs.Reading.{EntityFault, GivesAt, NothingElse, Reads, unsigned_nullable_at, signed_nullable_at, IsReadAt};
ghost use Rattle.fast_wire.specs.Sizes.{unsigned_nullable_size, signed_nullable_size, CanBeUnsignedNullable, CanBeSignedNullable};
ghost use Rattle.fast_wire.specs.Writing.{IsShortestSize, Writes, OutOfRange};
ghost use Rattle.fast_wire.specs.Nullable.{sent_unsigned, sent_signed, received_unsigned, received_signed, IsNullOr, IsUnsignedNullable, IsSignedNullable};

use crate::fault::WireFault;
use crate::integer::{
    read_signed, read_unsigned, size_signed, size_unsigned, write_signed, write_unsigned,
};

/// A value of a nullable form.
#[derive(Clone, Copy, Debug, PartialEq, Eq, Drop)]
pub enum Nullable<T> {
    /// The form's one value more, which says that there is none.
    Null,
    /// A value.
    Value(T),
}

/// What is meant by a number that was sent.
fn unsigned_received(sent: u128) -> Nullable<u128>
    ensures { result ≡ received_unsigned sent }
{
    if sent == 0 {
        Nullable::Null
    } else {
        Nullable::Value(sent - 1)
    }
}

/// Reads a nullable unsigned integer of at most ten bytes that begins at `at`, and answers it with the place
/// after it. Its form may be longer than it need be, NULL's too. NeedMore, TooLong: as `read_unsigned`. It
/// takes no memory.
pub fn read_unsigned_nullable(bytes: &[u8], at: usize) -> Result<(Nullable<u128>, usize), WireFault>
    requires { at ≤ length bytes.now }
    ensures { IsReadAt NothingElse unsigned_nullable_at IsUnsignedNullable CanBeUnsignedNullable
        (EntityFault 10) (λ v. v) bytes.now at result }
{
    unsigned_nullable_from(bytes, at)
}

/// The nullable number that stands at `at`, and the place after it.
fn unsigned_nullable_from(bytes: &[u8], at: usize) -> Result<(Nullable<u128>, usize), WireFault>
    requires { at ≤ length bytes.now }
    ensures place { IfOk result (λ x. (at < x.1) × (x.1 ≤ length bytes.now)) }
    ensures gives { GivesAt NothingElse unsigned_nullable_at (λ v. v) bytes.now at result }
{
    let (sent, next) = read_unsigned(bytes, at)?;
    Ok((unsigned_received(sent), next))
}

/// What is sent for a value. The largest number, which has no form, stands for the one after it.
fn unsigned_sent(value: Nullable<u128>) -> u128
    ensures small { sent_unsigned value < 2 ^ 128 → result ≡ sent_unsigned value }
    ensures large { 2 ^ 128 ≤ sent_unsigned value → result + 1 ≡ sent_unsigned value }
{
    match value {
        Nullable::Null => 0,
        Nullable::Value(value) => value.saturating_add(1),
    }
}

/// Appends the shortest form of a nullable unsigned number, or answers and appends nothing. Range: one more
/// than the number does not fit ten bytes. Memory: the one growth was refused.
pub fn write_unsigned_nullable(value: Nullable<u128>, out: &mut Vec<u8>) -> Result<(), WireFault>
    ensures { Writes IsUnsignedNullable (OutOfRange CanBeUnsignedNullable) out.old out.new value
        result }
{
    write_unsigned(unsigned_sent(value), out)
}

/// The number of bytes of the shortest form of a nullable unsigned number that fits ten bytes. It takes no
/// memory.
pub fn size_unsigned_nullable(value: Nullable<u128>) -> usize
    requires { CanBeUnsignedNullable value }
    ensures size { result ≡ unsigned_nullable_size value }
    ensures few { result ≤ 10 }
    ensures least { IsShortestSize IsUnsignedNullable value result }
{
    size_unsigned(unsigned_sent(value))
}

/// What is meant by a signed number that was sent.
fn signed_received(sent: i128) -> Nullable<i128>
    ensures { result ≡ received_signed sent }
{
    if sent == 0 {
        Nullable::Null
    } else if sent > 0 {
        Nullable::Value(sent - 1)
    } else {
        Nullable::Value(sent)
    }
}

/// Reads a nullable signed integer of at most ten bytes that begins at `at`, and answers it with the place
/// after it. Its form may be longer than it need be, NULL's too. NeedMore, TooLong: as `read_signed`. It takes
/// no memory.
pub fn read_signed_nullable(bytes: &[u8], at: usize) -> Result<(Nullable<i128>, usize), WireFault>
    requires { at ≤ length bytes.now }
    ensures { IsReadAt NothingElse signed_nullable_at IsSignedNullable CanBeSignedNullable
        (EntityFault 10) (λ v. v) bytes.now at result }
{
    complement_nullable_from(bytes, at)
}

/// The nullable signed number that stands at `at`, and the place after it.
fn complement_nullable_from(bytes: &[u8], at: usize) -> Result<(Nullable<i128>, usize), WireFault>
    requires { at ≤ length bytes.now }
    ensures place { IfOk result (λ x. (at < x.1) × (x.1 ≤ length bytes.now)) }
    ensures gives { GivesAt NothingElse signed_nullable_at (λ v. v) bytes.now at result }
{
    let (sent, next) = read_signed(bytes, at)?;
    Ok((signed_received(sent), next))
}

/// What is sent for a value. The largest number, which has no form, stands for the one after it.
fn signed_sent(value: Nullable<i128>) -> i128
    ensures small { magnitude (sent_signed value) < 2 ^ 127 → result ≡ sent_signed value }
    ensures large { let sent = magnitude (sent_signed value) in
        2 ^ 127 ≤ sent → magnitude result + 1 ≡ sent }
{
    match value {
        Nullable::Null => 0,
        Nullable::Value(value) if value < 0 => value,
        Nullable::Value(value) => value.saturating_add(1),
    }
}

/// Appends the shortest form of a nullable signed number, or answers and appends nothing. Range: what is sent
/// for it, one more for a number from 0 up, does not fit ten bytes. Memory: the one growth was refused.
pub fn write_signed_nullable(value: Nullable<i128>, out: &mut Vec<u8>) -> Result<(), WireFault>
    ensures { Writes IsSignedNullable (OutOfRange CanBeSignedNullable) out.old out.new value
        result }
{
    write_signed(signed_sent(value), out)
}

/// The number of bytes of the shortest form of a nullable signed number that fits ten bytes. It takes no
/// memory.
pub fn size_signed_nullable(value: Nullable<i128>) -> usize
    requires { CanBeSignedNullable value }
    ensures size { result ≡ signed_nullable_size value }
    ensures few { result ≤ 10 }
    ensures least { IsShortestSize IsSignedNullable value result }
{
    size_signed(signed_sent(value))
}
