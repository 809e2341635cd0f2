//! Decimals of the numbers of JSON.

ghost use Rattle.std.specs.Prelude.{◌≡◌, ◌≤◌, ◌<◌, ◌+◌, ◌-◌, ◌*◌, ◌^◌, ◌&&◌, ℤ, pos, min, fold, length, Some};
ghost use Rattle.std.specs.Str.Parse.{digits_value};
ghost use Rattle.fast_float.specs.Text.{Parts};
ghost use Rattle.fast_value.specs.InitialValues.{where_so};
ghost use Rattle.fast_value.specs.Scalar.{exponent_in_range, in_range};
ghost use Rattle.fast_value.specs.declared.scalar.Scalar.TheVariants.{Decimal};
ghost use Rattle.fast_value.specs.declared.kind.Kind.TheVariants as kind_type;
ghost use Rattle.fast_float.specs.Text.{scan, with_sign};
ghost use Rattle.fast_spelled.specs.Numbers.{decimal_by, decimal_of, lowered};

use fast_float::Numeral;
use fast_template::Scalar;

/// The number of digits behind another one, or 2^64 where it is greater.
fn capped(before: u128, digits: &[u8]) -> u128
    requires { before ≤ 2 ^ 64 }
    ensures { result ≡ min (fold (λ n d. 10 * n + (d - 48)) before digits.now) (2 ^ 64) }
{
    let mut number = before;
    for digit in digits {
        let units = u128::from(digit.saturating_sub(48));
        number = (10 * number + units).min(18_446_744_073_709_551_616);
    }
    number
}

/// A number with a sign.
fn signed(negative: bool, number: u128) -> i128
    requires { number ≤ 2 ^ 66 }
    ensures { result ≡ with_sign negative number }
{
    if negative {
        -(number as i128)
    } else {
        number as i128
    }
}

/// An exponent that is written, less so many digits behind the point.
fn lowered(negative: bool, written: u128, behind: u128) -> i128
    requires { (written ≤ 2 ^ 64) × (behind ≤ 2 ^ 64) }
    ensures { result ≡ lowered negative written behind }
{
    if negative {
        signed(true, written + behind)
    } else if behind <= written {
        signed(false, written - behind)
    } else {
        signed(true, behind - written)
    }
}

/// The decimal of a mantissa and an exponent, where both are in range.
fn decimal_from(mantissa: i128, exponent: i128) -> Option<Scalar>
    ensures { result ≡ where_so (in_range kind_type.Int64 mantissa && exponent_in_range exponent)
        (Decimal exponent mantissa) }
{
    if mantissa < -9_223_372_036_854_775_808 || 9_223_372_036_854_775_807 < mantissa {
        return None;
    }
    if exponent < -63 || 63 < exponent {
        return None;
    }
    Some(Scalar::Decimal {
        exponent: exponent as i32,
        mantissa: mantissa as i64,
    })
}

/// The decimal of a numeral and a sign.
fn decimal_with(negative: bool, digits: &[u8]) -> Option<Scalar>
    ensures { (p : Parts) → p ≡ scan digits.now → result ≡ decimal_by negative p }
{
    let parts = Numeral::scan(digits);
    let mantissa = signed(negative, capped(capped(0, parts.whole()), parts.fraction()));
    let exponent = lowered(
        parts.is_exponent_negative(),
        capped(0, parts.exponent()),
        parts.fraction().len() as u128,
    );
    decimal_from(mantissa, exponent)
}

/// The decimal of a number of JSON: its digits are the mantissa, and its exponent is the one that is written less the digits
/// behind the point. So `450025e-2` and `4500.25` are one decimal, and `4500.250` is another.
pub(crate) fn decimal(text: &[u8]) -> Option<Scalar>
    ensures { result ≡ decimal_of text.now }
{
    match text.split_first() {
        Some((first, rest)) if *first == b'-' => decimal_with(true, rest),
        Some(_) => decimal_with(false, text),
        None => None,
    }
}
