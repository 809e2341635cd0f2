//! Texts of initial values.

ghost use Rattle.std.specs.Prelude.{◌≡◌, ◌≤◌, ◌^◌, ◌*◌, ◌+◌, ◌-◌, ◌==◌, ◌&&◌, IfOk, IsSome, IsTrue, OnErr, drop, fold, is_some, length, min, nat_lt};
ghost use Rattle.std.specs.List.{after_first, before_first, list_all, position_or_len};
ghost use Rattle.std.specs.Char.{is_ascii_hexdigit};
ghost use Rattle.fast_value.specs.InitialValues.{decimal_value, in_range_of as in_range_of_part, integer_of, integer_value, is_digit, where_so, value_of_text as value_of_text_of};
ghost use Rattle.fast_value.specs.Numbers.{small_integer, small_number};
ghost use Rattle.fast_value.specs.Scalar.{exponent_in_range, greatest_of, has_units, in_range, least_of, of_integer as of_integer_of};
ghost use Rattle.fast_value.specs.declared.scalar.Scalar.TheVariants.{Decimal};
ghost use Rattle.fast_value.specs.declared.kind.Part.TheVariants.{Exponent, Whole};
ghost use Rattle.fast_value.specs.declared.kind.Kind.TheVariants.{Int32};
ghost use Rattle.fast_value.specs.declared.kind.Kind.TheVariants as kind_type;

use crate::kind::{Kind, Part, UNIT_LIMIT};
use crate::scalar::{ByteString, Scalar};
use crate::unicode_text::UnicodeText;
use std::alloc::{AllocError, Global};

/// The value that the text of an initial value spells for a part, if it spells one. FAST 1.1, Initial Values.
///
/// An integer is decimal digits, with `-` in front of them or not. A decimal is two of those, its mantissa and its
/// exponent, joined by `e`. Bytes are two hexadecimal digits each. A text that is not spelled so, a number out of the
/// range of its type, an exponent out of -63..63, a character above 127 in ASCII and more than 65,535 units spell none.
///
/// # Errors
///
/// Where memory is refused, which only a string or bytes ask for, and only once they are known to spell a value.
pub fn value_of_text(
    alloc: Global,
    part: Part,
    kind: Kind,
    text: &str,
) -> Result<Option<Scalar>, AllocError>
    requires { part ≡ Exponent → kind ≡ Int32 }
    ensures value { IfOk result (λ value. value ≡ value_of_text_of part kind text.now) }
    ensures memory { OnErr result (IsTrue (has_units kind)
        × IsSome (value_of_text_of part kind text.now)) }
{
    match kind {
        Kind::Decimal => Ok(decimal(text.as_bytes())),
        Kind::Ascii => ascii(alloc, text),
        Kind::Unicode => unicode(alloc, text),
        Kind::Bytes => hexadecimal(alloc, text),
        Kind::Int32 | Kind::UInt32 | Kind::Int64 | Kind::UInt64 => {
            Ok(whole_number(part, kind, text.as_bytes()))
        }
    }
}

// The characters of a text, where it has at most 65,535 and all are ASCII.
fn ascii(alloc: Global, text: &str) -> Result<Option<Scalar>, AllocError>
    ensures value { IfOk result (λ value. value ≡ value_of_text_of Whole kind_type.Ascii text.now) }
    ensures memory { OnErr result (IsSome (value_of_text_of Whole kind_type.Ascii text.now)) }
{
    let bytes = text.as_bytes();
    if are_ascii(bytes) && bytes.len() <= UNIT_LIMIT {
        let copy = bytes.to_vec(alloc)?;
        Ok(Some(Scalar::Ascii(ByteString::from_vec(copy))))
    } else {
        Ok(None)
    }
}

fn are_ascii(bytes: &[u8]) -> bool
    ensures { result ≡ list_all (λ c. nat_lt c 128) bytes.now }
{
    bytes.iter().all(|c| c.is_ascii())
}

// A text, where it has at most 65,535 bytes.
fn unicode(alloc: Global, text: &str) -> Result<Option<Scalar>, AllocError>
    ensures value { IfOk result (λ value. value ≡ value_of_text_of Whole kind_type.Unicode text.now) }
    ensures memory { OnErr result (IsSome (value_of_text_of Whole kind_type.Unicode text.now)) }
{
    if text.len() <= UNIT_LIMIT {
        let copy = String::from_str(alloc, text)?;
        Ok(Some(Scalar::Unicode(UnicodeText::from_string(copy))))
    } else {
        Ok(None)
    }
}

// The bytes of two hexadecimal digits each, where there are at most 65,535.
fn hexadecimal(alloc: Global, text: &str) -> Result<Option<Scalar>, AllocError>
    ensures value { IfOk result (λ value. value ≡ value_of_text_of Whole kind_type.Bytes text.now) }
    ensures memory { OnErr result (IsSome (value_of_text_of Whole kind_type.Bytes text.now)) }
{
    let digits = text.as_bytes();
    if !spells_bytes(digits) {
        return Ok(None);
    }
    match hex::decode(alloc, digits) {
        Ok(bytes) => Ok(Some(Scalar::Bytes(ByteString::from_vec(bytes)))),
        Err(_) => Err(AllocError),
    }
}

// Whether a text is two hexadecimal digits for each of at most 65,535 bytes. The decoder asks for memory before it
// looks at the digits.
fn spells_bytes(text: &[u8]) -> bool
    ensures { result ≡ is_some (value_of_text_of Whole kind_type.Bytes text.now) }
{
    text.len() <= 2 * UNIT_LIMIT && text.len() % 2 == 0 && are_hex_digits(text)
}

fn are_hex_digits(text: &[u8]) -> bool
    ensures { result ≡ list_all is_ascii_hexdigit text.now }
{
    text.iter().all(|c| c.is_ascii_hexdigit())
}

// The decimal of a mantissa, `e` and an exponent.
fn decimal(text: &[u8]) -> Option<Scalar>
    ensures { result ≡ decimal_value (integer_of (before_first (λ c. c == 101) text.now))
        (integer_of (after_first (λ c. c == 101) text.now)) }
{
    let at = first_e(text);
    let Some(mantissa) = integer(&text[..at]) else {
        return None;
    };
    let Some(exponent) = integer(behind(text, at)) else {
        return None;
    };
    decimal_of(mantissa, exponent)
}

// The decimal of a mantissa and an exponent, where both are in range.
fn decimal_of(mantissa: i128, exponent: i128) -> Option<Scalar>
    ensures { result ≡ where_so (in_range kind_type.Int64 mantissa && exponent_in_range exponent)
        (Decimal exponent mantissa) }
{
    if !in_range_of(Part::Whole, Kind::Int64, mantissa) {
        return None;
    }
    if !in_range_of(Part::Exponent, Kind::Int32, exponent) {
        return None;
    }
    Some(Scalar::Decimal {
        exponent: exponent as i32,
        mantissa: mantissa as i64,
    })
}

// What stands behind a place, or nothing.
fn behind(text: &[u8], at: usize) -> &[u8]
    ensures { result.now ≡ drop (at + 1) text.now }
{
    if at < text.len() {
        &text[at + 1..]
    } else {
        &[]
    }
}

// The place of the first `e`, or the length where there is none.
fn first_e(text: &[u8]) -> usize
    ensures place { result ≡ position_or_len (λ c. c == 101) text.now }
    ensures within { result ≤ length text.now }
{
    for (at, c) in text.iter().enumerate() {
        if *c == b'e' {
            return at;
        }
    }
    text.len()
}

// The value of a part that is an integer.
fn whole_number(part: Part, kind: Kind, text: &[u8]) -> Option<Scalar>
    requires { part ≡ Exponent → kind ≡ Int32 }
    ensures { result ≡ integer_value part kind text.now }
{
    match integer(text) {
        Some(z) => {
            if in_range_of(part, kind, z) {
                Some(of_integer(kind, z))
            } else {
                None
            }
        }
        None => None,
    }
}

// Whether an integer is in the range of its part.
fn in_range_of(part: Part, kind: Kind, z: i128) -> bool
    ensures { result ≡ in_range_of_part part kind z }
{
    match part {
        Part::Exponent => -63 <= z && z <= 63,
        Part::Whole | Part::Mantissa | Part::Length => least(kind) <= z && z <= greatest(kind),
    }
}

fn least(kind: Kind) -> i128
    ensures { result ≡ least_of kind }
{
    match kind {
        Kind::Int32 => -2_147_483_648,
        Kind::Int64 => -9_223_372_036_854_775_808,
        _ => 0,
    }
}

fn greatest(kind: Kind) -> i128
    ensures { result ≡ greatest_of kind }
{
    match kind {
        Kind::UInt32 => 4_294_967_295,
        Kind::Int32 => 2_147_483_647,
        Kind::UInt64 => 18_446_744_073_709_551_615,
        Kind::Int64 => 9_223_372_036_854_775_807,
        _ => 0,
    }
}

// The integer that a text spells, where its number is below 2^64.
fn integer(text: &[u8]) -> Option<i128>
    ensures { result ≡ small_integer text.now }
{
    match text.split_first() {
        Some((first, rest)) if *first == b'-' => match number(rest) {
            Some(n) => Some(-(n as i128)),
            None => None,
        },
        _ => match number(text) {
            Some(n) => Some(n as i128),
            None => None,
        },
    }
}

// The number that one or more digits spell, where it is below 2^64.
fn number(text: &[u8]) -> Option<u128>
    ensures { result ≡ small_number text.now }
{
    if text.is_empty() || !are_digits(text) {
        return None;
    }
    let number = capped_number(text);
    if number < 18_446_744_073_709_551_616 {
        Some(number)
    } else {
        None
    }
}

fn are_digits(text: &[u8]) -> bool
    ensures { result ≡ list_all is_digit text.now }
{
    text.iter().all(|c| c.is_ascii_digit())
}

// The number of these digits, or 2^64 where it is greater.
fn capped_number(digits: &[u8]) -> u128
    ensures { result ≡ min (fold (λ n d. 10 * n + (d - 48)) 0 digits.now) (2 ^ 64) }
{
    let mut number: u128 = 0;
    for digit in digits {
        let units = u128::from(digit.saturating_sub(48));
        number = (10 * number + units).min(18_446_744_073_709_551_616);
    }
    number
}

// The value of an integer type with this number.
fn of_integer(kind: Kind, z: i128) -> Scalar
    requires { IsTrue (in_range kind z) }
    ensures { result ≡ of_integer_of kind z }
{
    match kind {
        Kind::UInt32 => Scalar::U32(z.unsigned_abs() as u32),
        Kind::UInt64 => Scalar::U64(z.unsigned_abs() as u64),
        Kind::Int32 => Scalar::I32(z as i32),
        _ => Scalar::I64(z as i64),
    }
}
