//! Pieces of a line as `show --json` writes it, each of which stands in front of the bytes that are left.

ghost use Rattle.std.specs.Prelude.{◌≡◌, ◌<◌, ◌+◌, ◌^◌, ◌∷◌, ◌++◌, true, decimal, IfSome};
ghost use Rattle.std.specs.Fmt.{signed_decimal};
ghost use Rattle.std.specs.List.{AllByRecursion, flat_map, list_all};
ghost use Rattle.std.specs.Prelude.{slice_index};
ghost use Rattle.hex.specs.Hex.{encode_lower, lower_digits};
ghost use Rattle.fast_lines.specs.declared.form.Form.TheVariants.{Json};
ghost use Rattle.fast_lines.specs.Signs.{label_text, unit_text};
ghost use Rattle.fast_spelled.specs.Shown.{is_plain_unit};

use std::alloc::Global;

/// To no number of more digits one more is read, so that each fits.
const MANY: u64 = 1_000_000_000_000_000_000;

/// What is left behind a byte.
#[inline(always)]
pub(crate) fn behind_byte(bytes: &[u8], byte: u8) -> Option<&[u8]>
    ensures { IfSome result (λ left. bytes.now ≡ byte ∷ left.now) }
{
    match bytes.split_first() {
        Some((first, left)) if *first == byte => Some(left),
        _ => None,
    }
}

/// What is left behind a text.
#[inline(always)]
pub(crate) fn behind<'a>(bytes: &'a [u8], text: &[u8]) -> Option<&'a [u8]>
    ensures { IfSome result (λ left. bytes.now ≡ text.now ++ left.now) }
{
    if bytes.starts_with(text) {
        return Some(&bytes[text.len()..]);
    }
    None
}

/// Whether a byte stands in a string as it is.
#[inline(always)]
fn stands(byte: u8) -> bool
    ensures { result ≡ is_plain_unit byte }
{
    byte >= 0x20 && byte != 0x7F && byte != b'"' && byte != b'\\'
}

/// Whether each byte of a text stands in a string as it is.
#[inline(always)]
fn all_stand(text: &[u8]) -> bool
    ensures { result ≡ list_all is_plain_unit text.now }
{
    text.iter().all(|unit| stands(*unit))
}

/// What is left behind a text that stands in a string as it is.
#[inline(always)]
fn behind_units<'a>(bytes: &'a [u8], text: &[u8]) -> Option<&'a [u8]>
    ensures { IfSome result (λ left. bytes.now ≡ flat_map (unit_text Json) text.now ++ left.now) }
{
    if all_stand(text) {
        return behind(bytes, text);
    }
    None
}

/// What is left behind the label of a name whose bytes stand as they are.
#[inline(always)]
pub(crate) fn behind_label<'a>(bytes: &'a [u8], name: &[u8]) -> Option<&'a [u8]>
    ensures { IfSome result (λ left. bytes.now ≡ label_text Json name.now ++ left.now) }
{
    let bytes = behind_byte(bytes, b'"')?;
    let bytes = behind_units(bytes, name)?;
    let bytes = behind_byte(bytes, b'"')?;
    behind_byte(bytes, b':')
}

/// The units of a string behind its first quote, which stand as they are, and what is left behind the last quote.
#[inline(always)]
pub(crate) fn units(bytes: &[u8]) -> Option<(&[u8], &[u8])>
    ensures stands { IfSome result (λ x. bytes.now ≡ x.0.now ++ 34 ∷ x.1.now) }
    ensures plain { IfSome result (λ x. list_all is_plain_unit x.0.now ≡ true) }
{
    let mut at = 0;
    while at < bytes.len() && stands(bytes[at]) {
        at += 1;
    }
    let left = behind_byte(&bytes[at..], b'"')?;
    Some((&bytes[..at], left))
}

/// The digit that a character is.
#[inline(always)]
fn digit(character: u8) -> Option<u64>
    ensures { IfSome result (λ d. (d < 10) × (character ≡ 48 + d)) }
{
    if character.is_ascii_digit() {
        return Some(u64::from(character - b'0'));
    }
    None
}

/// A number in decimal digits, and what is left behind them.
#[inline(always)]
pub(crate) fn unsigned(bytes: &[u8]) -> Option<(u64, &[u8])>
    ensures { IfSome result (λ x. bytes.now ≡ decimal x.0 ++ x.1.now) }
{
    let (first, left) = bytes.split_first()?;
    let mut number = digit(*first)?;
    if number == 0 {
        return Some((0, left));
    }
    let mut at = 1;
    while at < bytes.len() && number < MANY && bytes[at].is_ascii_digit() {
        number = 10 * number + u64::from(bytes[at] - b'0');
        at += 1;
    }
    Some((number, &bytes[at..]))
}

/// A number in decimal digits behind its sign where that is a minus, and what is left behind them.
#[inline(always)]
pub(crate) fn signed(bytes: &[u8]) -> Option<(i64, &[u8])>
    ensures { IfSome result (λ x. bytes.now ≡ signed_decimal x.0 ++ x.1.now) }
{
    if let Some(digits) = behind_byte(bytes, b'-') {
        let (number, left) = unsigned(digits)?;
        if number == 0 || number > 9_223_372_036_854_775_807 {
            return None;
        }
        return Some((-(number as i64), left));
    }
    let (number, left) = unsigned(bytes)?;
    if number > 9_223_372_036_854_775_807 {
        return None;
    }
    Some((number as i64, left))
}

/// The number of a hex digit of lower case.
#[inline(always)]
fn nibble(digit: u8) -> Option<u8>
    ensures { IfSome result (λ n. (n < 16) × (slice_index lower_digits n ≡ digit)) }
{
    match digit {
        b'0'..=b'9' => Some(digit - b'0'),
        b'a'..=b'f' => Some(digit - b'a' + 10),
        _ => None,
    }
}

/// The bytes of two hex digits of lower case each; none also where memory is refused.
pub(crate) fn hex_bytes(alloc: Global, digits: &[u8]) -> Option<Vec<u8>>
    ensures digits { IfSome result (λ bytes. encode_lower bytes.items ≡ digits.now) }
    ensures bytes { IfSome result (λ bytes. AllByRecursion (λ b. b < 256) bytes.items) }
{
    let Ok(mut bytes) = Vec::with_capacity(alloc, digits.len() / 2) else {
        return None;
    };
    let mut at = 0;
    while digits.len() - at > 1 {
        let high = nibble(digits[at])?;
        let low = nibble(digits[at + 1])?;
        match bytes.push(16 * high + low) {
            Ok(()) => at += 2,
            Err(_) => return None,
        }
    }
    if at < digits.len() {
        return None;
    }
    Some(bytes)
}
