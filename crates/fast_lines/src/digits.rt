//! Numbers in decimal digits, laid out forwards.

ghost use Rattle.std.specs.Prelude.{◌≡◌, ◌≤◌, ◌<◌, ◌+◌, ◌++◌, ◌/◌, length, take, decimal};
ghost use Rattle.std.specs.Fmt.{signed_decimal};
ghost use Rattle.fast_lines.specs.Digits.{eight_digits, four_digits, two_digits};
ghost use Rattle.fast_lines.specs.Lines.{decimal_text};

use crate::tail::{lay_byte, lay_if};

static PAIRS: [u8; 200] =
    *b"00010203040506070809101112131415161718192021222324252627282930313233343536373839404142434445464748495051525354555657585960616263646566676869707172737475767778798081828384858687888990919293949596979899";

/// Lays two digits at a place; answers the place behind them.
#[inline(always)]
fn lay_two(bytes: &mut [u8], at: usize, two: u32) -> usize
    requires number { two < 100 }
    requires room { at + 2 ≤ length bytes.old }
    ensures place { result ≡ at + 2 }
    ensures laid { take result bytes.new ≡ take at bytes.old ++ two_digits two }
    ensures length { length bytes.new ≡ length bytes.old }
{
    let from = two as usize * 2;
    let (tens, ones) = (PAIRS[from], PAIRS[from + 1]);
    let at = lay_byte(bytes, at, tens);
    lay_byte(bytes, at, ones)
}

/// How many hundreds a number of four digits has, by one product: a division of so few bits takes more steps.
#[inline(always)]
fn hundreds(four: u32) -> u32
    requires { four < 10000 }
    ensures { result ≡ four / 100 }
{
    four * 5_243 / 524_288
}

/// The same of four digits.
#[tactic(auto, using(crate::proofs::Written::appended_more))]
#[inline(always)]
fn lay_four(bytes: &mut [u8], at: usize, four: u32) -> usize
    requires number { four < 10000 }
    requires room { at + 4 ≤ length bytes.old }
    ensures place { result ≡ at + 4 }
    ensures laid { take result bytes.new ≡ take at bytes.old ++ four_digits four }
    ensures length { length bytes.new ≡ length bytes.old }
{
    let high = hundreds(four);
    let at = lay_two(bytes, at, high);
    lay_two(bytes, at, four - high * 100)
}

/// The same of eight digits.
#[tactic(auto, using(crate::proofs::Written::appended_more))]
#[inline(always)]
fn lay_eight(bytes: &mut [u8], at: usize, eight: u32) -> usize
    requires number { eight < 100000000 }
    requires room { at + 8 ≤ length bytes.old }
    ensures place { result ≡ at + 8 }
    ensures laid { take result bytes.new ≡ take at bytes.old ++ eight_digits eight }
    ensures length { length bytes.new ≡ length bytes.old }
{
    let at = lay_four(bytes, at, eight / 10_000);
    lay_four(bytes, at, eight % 10_000)
}

/// Lays a number of four digits at most.
#[inline(always)]
fn lay_few(bytes: &mut [u8], at: usize, number: u32) -> usize
    requires number { number < 10000 }
    requires room { at + 4 ≤ length bytes.old }
    ensures place { (at ≤ result) × (result ≤ at + 4) }
    ensures laid { take result bytes.new ≡ take at bytes.old ++ decimal number }
    ensures length { length bytes.new ≡ length bytes.old }
{
    if number < 10 {
        return lay_byte(bytes, at, b'0' + number as u8);
    }
    if number < 100 {
        return lay_two(bytes, at, number);
    }
    if number < 1_000 {
        let high = hundreds(number);
        let at = lay_byte(bytes, at, b'0' + high as u8);
        return lay_two(bytes, at, number - high * 100);
    }
    lay_four(bytes, at, number)
}

/// Lays a number of eight digits at most.
#[inline(always)]
fn lay_some(bytes: &mut [u8], at: usize, number: u32) -> usize
    requires number { number < 100000000 }
    requires room { at + 8 ≤ length bytes.old }
    ensures place { (at ≤ result) × (result ≤ at + 8) }
    ensures laid { take result bytes.new ≡ take at bytes.old ++ decimal number }
    ensures length { length bytes.new ≡ length bytes.old }
{
    if number < 10_000 {
        return lay_few(bytes, at, number);
    }
    let at = lay_few(bytes, at, number / 10_000);
    lay_four(bytes, at, number % 10_000)
}

/// Lays a number of twelve digits at most.
#[inline(always)]
fn lay_high(bytes: &mut [u8], at: usize, number: u64) -> usize
    requires number { number < 1000000000000 }
    requires room { at + 12 ≤ length bytes.old }
    ensures place { (at ≤ result) × (result ≤ at + 12) }
    ensures laid { take result bytes.new ≡ take at bytes.old ++ decimal number }
    ensures length { length bytes.new ≡ length bytes.old }
{
    if number < 100_000_000 {
        return lay_some(bytes, at, number as u32);
    }
    let at = lay_few(bytes, at, (number / 100_000_000) as u32);
    lay_eight(bytes, at, (number % 100_000_000) as u32)
}

/// Lays a number of more than eight digits.
#[inline(never)]
fn lay_many(bytes: &mut [u8], at: usize, number: u64) -> usize
    requires number { 100000000 ≤ number }
    requires room { at + 20 ≤ length bytes.old }
    ensures place { (at ≤ result) × (result ≤ at + 20) }
    ensures laid { take result bytes.new ≡ take at bytes.old ++ decimal number }
    ensures length { length bytes.new ≡ length bytes.old }
{
    let at = lay_high(bytes, at, number / 100_000_000);
    lay_eight(bytes, at, (number % 100_000_000) as u32)
}

/// Lays a number in decimal digits; many have one.
#[tactic(auto, using(std::proofs::lemmas::Fmt::decimal_digit))]
#[inline(always)]
pub(crate) fn lay_unsigned(bytes: &mut [u8], at: usize, number: u64) -> usize
    requires { at + 20 ≤ length bytes.old }
    ensures place { (at ≤ result) × (result ≤ at + 20) }
    ensures laid { take result bytes.new ≡ take at bytes.old ++ decimal number }
    ensures length { length bytes.new ≡ length bytes.old }
{
    if number < 10 {
        return lay_byte(bytes, at, b'0' + number as u8);
    }
    if number < 100_000_000 {
        return lay_some(bytes, at, number as u32);
    }
    lay_many(bytes, at, number)
}

/// Lays a number in decimal digits, behind its sign where that is a minus.
#[tactic(auto, using(crate::proofs::Written::appended_more))]
#[inline(always)]
pub(crate) fn lay_signed(bytes: &mut [u8], at: usize, number: i64) -> usize
    requires { at + 21 ≤ length bytes.old }
    ensures place { (at ≤ result) × (result ≤ at + 21) }
    ensures laid { take result bytes.new ≡ take at bytes.old ++ signed_decimal number }
    ensures length { length bytes.new ≡ length bytes.old }
{
    let at = lay_if(bytes, at, b'-', number < 0);
    lay_unsigned(bytes, at, number.unsigned_abs())
}

/// Lays a decimal: its mantissa, an `e`, and its exponent.
#[tactic(auto, using(crate::proofs::Written::appended_more))]
#[inline(always)]
pub(crate) fn lay_decimal(bytes: &mut [u8], at: usize, mantissa: i64, exponent: i32) -> usize
    requires { at + 43 ≤ length bytes.old }
    ensures place { (at ≤ result) × (result ≤ at + 43) }
    ensures laid { take result bytes.new ≡ take at bytes.old ++ decimal_text mantissa exponent }
    ensures length { length bytes.new ≡ length bytes.old }
{
    let at = lay_signed(bytes, at, mantissa);
    let at = lay_byte(bytes, at, b'e');
    lay_signed(bytes, at, i64::from(exponent))
}
