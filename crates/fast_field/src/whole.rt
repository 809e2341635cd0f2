//! What stands whole in a stream: FAST 1.1, Transfer Encoding, Field Encoding.

ghost use Rattle.std.specs.Prelude.{◌≡◌, ◌≤◌, ◌<◌, true, false, length, drop, IfNone, IfOk, IfSome, IsTrue};
ghost use Rattle.fast_wire.specs.Level.{judge};
ghost use Rattle.fast_field.specs.Faults.{field_fault};
ghost use Rattle.fast_field.specs.Spelled.{overlong_number, overlong_units};
ghost use Rattle.fast_wire.specs.Nullable.{IsNullOr, items_of};
ghost use Rattle.fast_wire.specs.Reading.{GivesAt, signed_at};
ghost use Rattle.fast_value.specs.Scalar.{exponent_in_range, in_range, is_integer};
ghost use Rattle.fast_value.specs.declared.kind.Kind.TheVariants as kind;
ghost use Rattle.fast_value.specs.declared.kind.Presence.TheVariants.{Mandatory, Optional};
ghost use Rattle.fast_field.specs.Calls.{Answers, AnswersAt, IsSentRange, OrRefused};
ghost use Rattle.fast_field.specs.Chosen.{AppendsOne, CanBeUnits, CanBeWhole, HasSize, IsSmall, ShortestPair, ShortestPart, ShortestSigned, ShortestUnits, ShortestUnsigned, ShortestWhole, length_size, part_size, tail_size};
ghost use Rattle.fast_field.specs.FieldReading.{entity_limit, integer_usually_at, mantissa_entity_at, overlong_fault, decimal_spelled_at, in_field, integer_at, integer_spelled_at, integer_value, mantissa_behind, part_at, range_fault, spelled_at, unit_value, units_at, units_spelled_at};

use crate::fault::FieldFault;
use crate::string::{find_units, sent_whole};
use fast_dictionary::Spare;
use fast_template::{ByteString, Kind, Part, Presence, Scalar, UnicodeText};
use fast_wire::{Level, Nullable, WireFault};

/// A number without a sign; one that has more than 64 bits is read once more.
#[tactic(auto, using(crate::proofs::CallSteps::call_steps), unfolding(crate::specs::FieldReading::integer_at))]
#[inline(always)]
fn read_unsigned(bytes: &[u8], at: usize) -> Result<(Nullable<i128>, usize), FieldFault>
    requires { at ≤ length bytes.now }
    ensures place { IfOk result (λ x. (at < x.1) × (x.1 ≤ length bytes.now)) }
    ensures range { IfOk result (λ x. IsNullOr IsSentRange x.0) }
    ensures gives { AnswersAt (integer_usually_at true Mandatory) (λ v. v) bytes.now at result }
{
    match fast_wire::read_u64(bytes, at) {
        Ok((number, next)) => Ok((Nullable::Value(i128::from(number)), next)),
        Err(WireFault::Range) => {
            let (number, next) = fast_wire::read_unsigned(bytes, at)?;
            Ok((Nullable::Value(number as i128), next))
        }
        Err(fault) => Err(FieldFault::from(fault)),
    }
}

/// The same in the nullable form.
#[tactic(auto, using(crate::proofs::CallSteps::call_steps), unfolding(crate::specs::FieldReading::integer_at))]
#[inline(always)]
fn read_unsigned_nullable(bytes: &[u8], at: usize) -> Result<(Nullable<i128>, usize), FieldFault>
    requires { at ≤ length bytes.now }
    ensures place { IfOk result (λ x. (at < x.1) × (x.1 ≤ length bytes.now)) }
    ensures range { IfOk result (λ x. IsNullOr IsSentRange x.0) }
    ensures gives { AnswersAt (integer_usually_at true Optional) (λ v. v) bytes.now at result }
{
    match fast_wire::read_u64_nullable(bytes, at) {
        Ok((Nullable::Null, next)) => Ok((Nullable::Null, next)),
        Ok((Nullable::Value(number), next)) => { Ok((Nullable::Value(i128::from(number)), next)) }
        Err(WireFault::Range) => {
            let (number, next) = fast_wire::read_unsigned_nullable(bytes, at)?;
            match number {
                Nullable::Null => Ok((Nullable::Null, next)),
                Nullable::Value(number) => Ok((Nullable::Value(number as i128), next)),
            }
        }
        Err(fault) => Err(FieldFault::from(fault)),
    }
}

/// A number with a sign; one that has more than 64 bits is read once more.
#[tactic(auto, using(crate::proofs::CallSteps::call_steps), unfolding(crate::specs::FieldReading::integer_at))]
#[inline(always)]
pub(crate) fn read_signed(bytes: &[u8], at: usize) -> Result<(i128, usize), FieldFault>
    requires { at ≤ length bytes.now }
    ensures place { IfOk result (λ x. (at < x.1) × (x.1 ≤ length bytes.now)) }
    ensures range { IfOk result (λ x. IsSentRange x.0) }
    ensures gives { AnswersAt (λ bytes. in_field (signed_at bytes)) (λ v. v) bytes.now at result }
{
    match fast_wire::read_i64(bytes, at) {
        Ok((number, next)) => Ok((i128::from(number), next)),
        Err(WireFault::Range) => Ok(fast_wire::read_signed(bytes, at)?),
        Err(fault) => Err(FieldFault::from(fault)),
    }
}

/// The same in the nullable form.
#[tactic(auto, using(crate::proofs::CallSteps::call_steps), unfolding(crate::specs::FieldReading::integer_at))]
#[inline(always)]
fn read_signed_nullable(bytes: &[u8], at: usize) -> Result<(Nullable<i128>, usize), FieldFault>
    requires { at ≤ length bytes.now }
    ensures place { IfOk result (λ x. (at < x.1) × (x.1 ≤ length bytes.now)) }
    ensures range { IfOk result (λ x. IsNullOr IsSentRange x.0) }
    ensures gives { AnswersAt (integer_usually_at false Optional) (λ v. v) bytes.now at result }
{
    match fast_wire::read_i64_nullable(bytes, at) {
        Ok((Nullable::Null, next)) => Ok((Nullable::Null, next)),
        Ok((Nullable::Value(number), next)) => { Ok((Nullable::Value(i128::from(number)), next)) }
        Err(WireFault::Range) => Ok(fast_wire::read_signed_nullable(bytes, at)?),
        Err(fault) => Err(FieldFault::from(fault)),
    }
}

/// Judges the number that begins at `at`, at the strict level: whether its entity is there and no longer than it need be.
#[tactic(auto, using(crate::proofs::CallSteps::call_steps))]
#[inline(always)]
fn judge_number(level: Level, unsigned: bool, bytes: &[u8], at: usize) -> Result<(), FieldFault>
    requires { at ≤ length bytes.now }
    ensures { Answers (λ x. x) result
        (judge level 10 (overlong_number unsigned) field_fault FieldFault.R6 (drop at bytes.now)) }
{
    match level {
        Level::Usual => Ok(()),
        Level::Strict => {
            let next = fast_wire::entity_end(bytes, at, 10)?;
            let entity = &bytes[at..next];
            let overlong = if unsigned {
                fast_wire::overlong_unsigned(entity)
            } else {
                fast_wire::overlong_signed(entity)
            };
            if overlong {
                return Err(FieldFault::R6);
            }
            Ok(())
        }
    }
}

/// Judges the entity that a string or vector begins with.
#[tactic(auto, using(crate::proofs::CallSteps::call_steps))]
#[inline(always)]
pub(crate) fn judge_units(
    level: Level,
    kind: Kind,
    presence: Presence,
    bytes: &[u8],
    at: usize,
) -> Result<(), FieldFault>
    requires { at ≤ length bytes.now }
    ensures { Answers (λ x. x) result
        (judge level (entity_limit kind) (overlong_units kind presence) field_fault
        (overlong_fault kind) (drop at bytes.now)) }
{
    match level {
        Level::Usual => Ok(()),
        Level::Strict => match kind {
            Kind::Ascii => {
                let next = fast_wire::entity_end(bytes, at, 65_540)?;
                let nullable = presence == Presence::Optional;
                if fast_wire::overlong_ascii(&bytes[at..next], nullable) {
                    return Err(FieldFault::R9);
                }
                Ok(())
            }
            _ => judge_number(level, true, bytes, at),
        },
    }
}

/// A number with a sign that is never NULL, judged.
#[tactic(auto, using(crate::proofs::CallSteps::call_steps))]
#[inline(always)]
pub fn read_mantissa_entity(
    level: Level,
    bytes: &[u8],
    at: usize,
) -> Result<(i128, usize), FieldFault>
    requires { at ≤ length bytes.now }
    ensures place { IfOk result (λ x. (at < x.1) × (x.1 ≤ length bytes.now)) }
    ensures range { IfOk result (λ x. IsSentRange x.0) }
    ensures gives { AnswersAt (mantissa_entity_at level) (λ v. v) bytes.now at result }
{
    judge_number(level, false, bytes, at)?;
    read_signed(bytes, at)
}

/// An integer in the form of a presence, with no sign where `unsigned` is true.
#[tactic(auto, using(crate::proofs::CallSteps::call_steps), unfolding(crate::specs::FieldReading::integer_at))]
#[inline(always)]
pub fn read_integer(
    unsigned: bool,
    presence: Presence,
    level: Level,
    bytes: &[u8],
    at: usize,
) -> Result<(Nullable<i128>, usize), FieldFault>
    requires { at ≤ length bytes.now }
    ensures place { IfOk result (λ x. (at < x.1) × (x.1 ≤ length bytes.now)) }
    ensures range { IfOk result (λ x. IsNullOr IsSentRange x.0) }
    ensures gives { AnswersAt (integer_at level unsigned presence) (λ v. v) bytes.now at result }
{
    judge_number(level, unsigned, bytes, at)?;
    match (unsigned, presence) {
        (true, Presence::Mandatory) => read_unsigned(bytes, at),
        (true, Presence::Optional) => read_unsigned_nullable(bytes, at),
        (false, Presence::Mandatory) => {
            let (number, next) = read_signed(bytes, at)?;
            Ok((Nullable::Value(number), next))
        }
        (false, Presence::Optional) => read_signed_nullable(bytes, at),
    }
}

/// What is answered for a number out of its type's bounds: of a part of a decimal it is the decimal that is out
/// of range.
#[inline(always)]
fn range_fault_of(part: Part) -> FieldFault
    ensures { result ≡ range_fault part }
{
    match part {
        Part::Exponent | Part::Mantissa => FieldFault::R1,
        Part::Whole | Part::Length => FieldFault::D2,
    }
}

/// A number as a value of its type.
#[tactic(auto, unfolding(crate::specs::FieldReading::integer_value))]
#[inline(always)]
pub fn value_of_integer(part: Part, kind: Kind, number: i128) -> Result<Scalar, FieldFault>
    requires { IsTrue (is_integer kind) }
    ensures { Answers (λ v. v) result (integer_value part kind number) }
{
    match kind {
        Kind::UInt32 => match u32::try_from(number) {
            Ok(number) => Ok(Scalar::U32(number)),
            Err(_) => Err(range_fault_of(part)),
        },
        Kind::Int32 => match i32::try_from(number) {
            Ok(number) => Ok(Scalar::I32(number)),
            Err(_) => Err(range_fault_of(part)),
        },
        Kind::UInt64 => match u64::try_from(number) {
            Ok(number) => Ok(Scalar::U64(number)),
            Err(_) => Err(range_fault_of(part)),
        },
        Kind::Int64 => match i64::try_from(number) {
            Ok(number) => Ok(Scalar::I64(number)),
            Err(_) => Err(range_fault_of(part)),
        },
        Kind::Decimal | Kind::Ascii | Kind::Unicode | Kind::Bytes => unreachable!(),
    }
}

/// Characters or bytes as a value of their type.
#[tactic(auto, using(crate::proofs::CallSteps::call_steps), unfolding(crate::specs::FieldReading::unit_value))]
pub fn value_of_units(kind: Kind, units: Vec<u8>) -> Result<Scalar, FieldFault>
    ensures { Answers (λ v. v) result (unit_value kind units.items) }
{
    match kind {
        Kind::Ascii => Ok(Scalar::Ascii(ByteString::from_vec(units))),
        Kind::Unicode => {
            fast_wire::check_text(&units)?;
            Ok(Scalar::Unicode(UnicodeText::from_utf8(units)))
        }
        _ => Ok(Scalar::Bytes(ByteString::from_vec(units))),
    }
}

/// An exponent within its limit, -63 to 63; none where it is not.
#[inline(always)]
pub fn exponent_within(exponent: i128) -> Option<i32>
    ensures some { IfSome result (λ e. (e ≡ exponent) × (exponent_in_range exponent ≡ true)) }
    ensures none { IfNone result (exponent_in_range exponent ≡ false) }
{
    if (-63..=63).contains(&exponent) {
        Some(exponent as i32)
    } else {
        None
    }
}

/// A mantissa within its limit, that of an int64; none where it is not.
#[inline(always)]
pub fn mantissa_within(mantissa: i128) -> Option<i64>
    ensures some { IfSome result (λ m. (m ≡ mantissa) × (in_range kind.Int64 mantissa ≡ true)) }
    ensures none { IfNone result (in_range kind.Int64 mantissa ≡ false) }
{
    i64::try_from(mantissa).ok()
}

/// The mantissa behind an exponent, and the decimal of both.
#[tactic(auto, using(crate::proofs::CallSteps::call_steps), unfolding(crate::specs::FieldReading::mantissa_behind, crate::specs::FieldReading::decimal_value))]
fn read_mantissa(
    exponent: i128,
    level: Level,
    bytes: &[u8],
    at: usize,
) -> Result<(Option<Scalar>, usize), FieldFault>
    requires { at ≤ length bytes.now }
    ensures place { IfOk result (λ x. (at ≤ x.1) × (x.1 ≤ length bytes.now)) }
    ensures gives { AnswersAt (mantissa_behind level exponent) (λ v. v) bytes.now at result }
{
    let Some(exponent) = exponent_within(exponent) else {
        return Err(FieldFault::R1);
    };
    let (mantissa, next) = read_mantissa_entity(level, bytes, at)?;
    match mantissa_within(mantissa) {
        Some(mantissa) => Ok((Some(Scalar::Decimal { exponent, mantissa }), next)),
        None => Err(FieldFault::R1),
    }
}

/// A decimal in one piece.
#[tactic(auto, unfolding(crate::specs::FieldReading::decimal_spelled_at))]
fn read_decimal(
    presence: Presence,
    level: Level,
    bytes: &[u8],
    at: usize,
) -> Result<(Option<Scalar>, usize), FieldFault>
    requires { at ≤ length bytes.now }
    ensures place { IfOk result (λ x. (at ≤ x.1) × (x.1 ≤ length bytes.now)) }
    ensures gives { AnswersAt (decimal_spelled_at level presence) (λ v. v) bytes.now at result }
{
    let (exponent, next) = read_integer(false, presence, level, bytes, at)?;
    match exponent {
        Nullable::Null => Ok((None, next)),
        Nullable::Value(exponent) => read_mantissa(exponent, level, bytes, next),
    }
}

/// An integer.
#[tactic(auto, unfolding(crate::specs::FieldReading::integer_spelled_at))]
#[inline(always)]
fn read_number(
    part: Part,
    kind: Kind,
    presence: Presence,
    level: Level,
    bytes: &[u8],
    at: usize,
) -> Result<(Option<Scalar>, usize), FieldFault>
    requires place { at ≤ length bytes.now }
    requires kind { IsTrue (is_integer kind) }
    ensures place { IfOk result (λ x. (at ≤ x.1) × (x.1 ≤ length bytes.now)) }
    ensures gives { AnswersAt (integer_spelled_at level part kind presence) (λ v. v) bytes.now at result }
{
    let unsigned = matches!(kind, Kind::UInt32 | Kind::UInt64);
    let (number, next) = read_integer(unsigned, presence, level, bytes, at)?;
    match number {
        Nullable::Null => Ok((None, next)),
        Nullable::Value(number) => Ok((Some(value_of_integer(part, kind, number)?), next)),
    }
}

/// Reads a string or a vector that stands whole from `at` on, and answers its value, none where it is NULL, and the place
/// after it. Memory only for the copy.
#[tactic(auto, using(crate::proofs::CallSteps::call_steps), unfolding(crate::specs::FieldReading::units_spelled_at))]
fn read_string(
    spare: &mut Spare,
    kind: Kind,
    presence: Presence,
    level: Level,
    bytes: &[u8],
    at: usize,
) -> Result<(Option<Scalar>, usize), FieldFault>
    requires { at ≤ length bytes.now }
    ensures place { IfOk result (λ x. (at ≤ x.1) × (x.1 ≤ length bytes.now)) }
    ensures gives { GivesAt OrRefused (units_spelled_at level kind presence)
        (λ v. v) bytes.now at result }
{
    let (sent, next) = find_units(kind, presence, level, bytes, at)?;
    match sent {
        Nullable::Null => Ok((None, next)),
        Nullable::Value(span) => {
            let sent = &bytes[span.start..span.end];
            Ok((Some(sent_whole(spare, kind, sent)?), next))
        }
    }
}

/// A value that stands whole, and the place after it. Memory only for the copy of a string or a vector.
#[tactic(auto, unfolding(crate::specs::FieldReading::spelled_at))]
#[inline(always)]
pub(crate) fn read_whole(
    spare: &mut Spare,
    part: Part,
    kind: Kind,
    presence: Presence,
    level: Level,
    bytes: &[u8],
    at: usize,
) -> Result<(Option<Scalar>, usize), FieldFault>
    requires { at ≤ length bytes.now }
    ensures place { IfOk result (λ x. (at ≤ x.1) × (x.1 ≤ length bytes.now)) }
    ensures gives { GivesAt OrRefused (spelled_at level part kind presence) (λ v. v) bytes.now at result }
{
    match kind {
        Kind::UInt32 | Kind::Int32 | Kind::UInt64 | Kind::Int64 => {
            read_number(part, kind, presence, level, bytes, at)
        }
        Kind::Decimal => read_decimal(presence, level, bytes, at),
        Kind::Ascii | Kind::Unicode | Kind::Bytes => {
            read_string(spare, kind, presence, level, bytes, at)
        }
    }
}

// ---- Written

/// The bytes of a number without a sign, in the form of a presence.
fn size_unsigned(presence: Presence, number: u64) -> usize
    ensures size { HasSize (ShortestUnsigned presence number) result }
    ensures few { result ≤ 10 }
{
    let number = u128::from(number);
    match presence {
        Presence::Mandatory => fast_wire::size_unsigned(number),
        Presence::Optional => fast_wire::size_unsigned_nullable(Nullable::Value(number)),
    }
}

/// Appends a number without a sign, in the shortest form of a presence, or nothing.
#[inline(always)]
fn write_unsigned(presence: Presence, number: u64, out: &mut Vec<u8>) -> Result<(), WireFault>
    ensures { AppendsOne (ShortestUnsigned presence number) out.old.items out.new.items result }
{
    match presence {
        Presence::Mandatory => fast_wire::write_u64(number, out),
        Presence::Optional => fast_wire::write_u64_nullable(Nullable::Value(number), out),
    }
}

/// The bytes of a number with a sign, in the form of a presence.
pub(crate) fn size_signed(presence: Presence, number: i128) -> usize
    requires { IsSmall number }
    ensures value { result ≡ length_size presence number }
    ensures size { HasSize (ShortestSigned presence number) result }
    ensures few { result ≤ 10 }
{
    match presence {
        Presence::Mandatory => fast_wire::size_signed(number),
        Presence::Optional => fast_wire::size_signed_nullable(Nullable::Value(number)),
    }
}

/// Appends a number with a sign, in the shortest form of a presence, or nothing.
#[inline(always)]
pub(crate) fn write_signed(
    presence: Presence,
    number: i128,
    out: &mut Vec<u8>,
) -> Result<(), WireFault>
    requires { IsSmall number }
    ensures { AppendsOne (ShortestSigned presence number) out.old.items out.new.items result }
{
    match i64::try_from(number) {
        Ok(number) => match presence {
            Presence::Mandatory => fast_wire::write_i64(number, out),
            Presence::Optional => fast_wire::write_i64_nullable(Nullable::Value(number), out),
        },
        Err(_) => match presence {
            Presence::Mandatory => fast_wire::write_signed(number, out),
            Presence::Optional => fast_wire::write_signed_nullable(Nullable::Value(number), out),
        },
    }
}

/// The bytes of characters or bytes in the form that has no NULL.
pub(crate) fn size_part(kind: Kind, units: &[u8]) -> usize
    requires { CanBeUnits kind units.now }
    ensures value { result ≡ part_size kind units.now }
    ensures size { HasSize (ShortestPart kind units.now) result }
    ensures few { result ≤ 65545 }
{
    match kind {
        Kind::Ascii => fast_wire::size_ascii(units),
        _ => fast_wire::size_vector(units),
    }
}

/// Appends characters or bytes in the form that has no NULL, or nothing.
#[inline(always)]
pub(crate) fn write_part(kind: Kind, units: &[u8], out: &mut Vec<u8>) -> Result<(), WireFault>
    requires { CanBeUnits kind units.now }
    ensures { AppendsOne (ShortestPart kind units.now) out.old.items out.new.items result }
{
    match kind {
        Kind::Ascii => fast_wire::write_ascii(units, out),
        _ => fast_wire::write_vector(units, out),
    }
}

/// The bytes of characters or bytes in the form of a presence.
pub(crate) fn size_units(kind: Kind, presence: Presence, units: &[u8]) -> usize
    requires { CanBeUnits kind units.now }
    ensures value { result ≡ tail_size kind presence units.now }
    ensures size { HasSize (ShortestUnits kind presence units.now) result }
    ensures few { result ≤ 65545 }
{
    match presence {
        Presence::Mandatory => size_part(kind, units),
        Presence::Optional => match kind {
            Kind::Ascii => fast_wire::size_ascii_nullable(Nullable::Value(units)),
            _ => fast_wire::size_vector_nullable(Nullable::Value(units)),
        },
    }
}

/// Appends characters or bytes in the shortest form of a presence, of Unicode its bytes, or nothing.
pub(crate) fn write_units(
    kind: Kind,
    presence: Presence,
    units: &[u8],
    out: &mut Vec<u8>,
) -> Result<(), WireFault>
    requires { CanBeUnits kind units.now }
    ensures { AppendsOne (ShortestUnits kind presence units.now)
        out.old.items out.new.items result }
{
    match presence {
        Presence::Mandatory => write_part(kind, units, out),
        Presence::Optional => match kind {
            Kind::Ascii => fast_wire::write_ascii_nullable(Nullable::Value(units), out),
            _ => fast_wire::write_vector_nullable(Nullable::Value(units), out),
        },
    }
}

/// The bytes of an exponent in the form of a presence, and of a mantissa.
#[tactic(auto, using(crate::proofs::TwoPieces::pieces))]
pub(crate) fn size_pair(presence: Presence, exponent: i128, mantissa: i128) -> usize
    requires exponent { IsSmall exponent }
    requires mantissa { IsSmall mantissa }
    ensures size { HasSize (ShortestPair presence exponent mantissa) result }
    ensures few { result ≤ 20 }
{
    size_signed(presence, exponent) + size_signed(Presence::Mandatory, mantissa)
}

/// Appends an exponent in the form of a presence and then a mantissa, each in its shortest form, or nothing.
#[inline(always)]
pub(crate) fn write_pair(
    presence: Presence,
    exponent: i128,
    mantissa: i128,
    out: &mut Vec<u8>,
) -> Result<(), WireFault>
    requires exponent { IsSmall exponent }
    requires mantissa { IsSmall mantissa }
    ensures { AppendsOne (ShortestPair presence exponent mantissa)
        out.old.items out.new.items result }
{
    let start = out.len();
    write_signed(presence, exponent, out)?;
    match write_signed(Presence::Mandatory, mantissa, out) {
        Ok(()) => Ok(()),
        Err(fault) => {
            out.truncate(start);
            Err(fault)
        }
    }
}

/// The bytes of a value that stands whole.
pub(crate) fn size_whole(presence: Presence, value: &Scalar) -> usize
    requires { CanBeWhole value.now }
    ensures { HasSize (ShortestWhole presence value.now) result }
{
    match value {
        Scalar::U32(number) => size_unsigned(presence, u64::from(*number)),
        Scalar::U64(number) => size_unsigned(presence, *number),
        Scalar::I32(number) => size_signed(presence, i128::from(*number)),
        Scalar::I64(number) => size_signed(presence, i128::from(*number)),
        Scalar::Decimal { exponent, mantissa } => {
            size_pair(presence, i128::from(*exponent), i128::from(*mantissa))
        }
        Scalar::Ascii(text) => size_units(Kind::Ascii, presence, text.as_slice()),
        Scalar::Unicode(text) => size_units(Kind::Unicode, presence, text.as_bytes()),
        Scalar::Bytes(bytes) => size_units(Kind::Bytes, presence, bytes.as_slice()),
    }
}

/// Appends a value that stands whole, or nothing.
#[inline(always)]
pub(crate) fn write_whole(
    presence: Presence,
    value: &Scalar,
    out: &mut Vec<u8>,
) -> Result<(), WireFault>
    requires { CanBeWhole value.now }
    ensures { AppendsOne (ShortestWhole presence value.now) out.old.items out.new.items result }
{
    match value {
        Scalar::U32(number) => write_unsigned(presence, u64::from(*number), out),
        Scalar::U64(number) => write_unsigned(presence, *number, out),
        Scalar::I32(number) => write_signed(presence, i128::from(*number), out),
        Scalar::I64(number) => write_signed(presence, i128::from(*number), out),
        Scalar::Decimal { exponent, mantissa } => {
            write_pair(presence, i128::from(*exponent), i128::from(*mantissa), out)
        }
        Scalar::Ascii(text) => write_units(Kind::Ascii, presence, text.as_slice(), out),
        Scalar::Unicode(text) => write_units(Kind::Unicode, presence, text.as_bytes(), out),
        Scalar::Bytes(bytes) => write_units(Kind::Bytes, presence, bytes.as_slice(), out),
    }
}
