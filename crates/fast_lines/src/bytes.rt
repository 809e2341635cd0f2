//! Bytes and numbers put behind an output.

ghost use Rattle.std.specs.Prelude.{◌≡◌, ◌∷◌, [], decimal};
ghost use Rattle.std.specs.Fmt.{signed_decimal};
ghost use Rattle.hex.specs.Hex.{encode_lower};
ghost use Rattle.fast_lines.specs.Lines.{decimal_text};
ghost use Rattle.fast_lines.specs.Written.{Writes};

use itoa::Buffer;
use std::alloc::AllocError;

/// Both digits of each byte.
static HEX_PAIRS: [u8; 512] =
    *b"000102030405060708090a0b0c0d0e0f101112131415161718191a1b1c1d1e1f202122232425262728292a2b2c2d2e2f303132333435363738393a3b3c3d3e3f404142434445464748494a4b4c4d4e4f505152535455565758595a5b5c5d5e5f606162636465666768696a6b6c6d6e6f707172737475767778797a7b7c7d7e7f808182838485868788898a8b8c8d8e8f909192939495969798999a9b9c9d9e9fa0a1a2a3a4a5a6a7a8a9aaabacadaeafb0b1b2b3b4b5b6b7b8b9babbbcbdbebfc0c1c2c3c4c5c6c7c8c9cacbcccdcecfd0d1d2d3d4d5d6d7d8d9dadbdcdddedfe0e1e2e3e4e5e6e7e8e9eaebecedeeeff0f1f2f3f4f5f6f7f8f9fafbfcfdfeff";

/// Appends bytes as they are.
pub(crate) fn push(text: &[u8], out: &mut Vec<u8>) -> Result<(), AllocError>
    ensures { Writes text.now result out.old.items out.new.items }
{
    out.extend_from_slice(text)
}

/// Appends one byte.
#[inline(always)]
pub(crate) fn push_byte(byte: u8, out: &mut Vec<u8>) -> Result<(), AllocError>
    ensures { Writes (byte ∷ []) result out.old.items out.new.items }
{
    out.push(byte)?;
    Ok(())
}

/// Appends a sign, which mostly is one byte.
#[inline(always)]
pub(crate) fn push_sign(sign: &[u8], out: &mut Vec<u8>) -> Result<(), AllocError>
    ensures { Writes sign.now result out.old.items out.new.items }
{
    match sign {
        [byte] => push_byte(*byte, out),
        _ => push(sign, out),
    }
}

/// The two hex digits of a byte.
#[tactic(auto, using(crate::proofs::HexPairs::hex_pair_at))]
#[inline(always)]
pub(crate) fn hex_pair(byte: u8) -> [u8; 2]
    ensures { result ≡ encode_lower (byte ∷ []) }
{
    let from = usize::from(byte) * 2;
    [HEX_PAIRS[from], HEX_PAIRS[from + 1]]
}

/// Appends two hex digits of each byte.
pub(crate) fn push_hex(bytes: &[u8], out: &mut Vec<u8>) -> Result<(), AllocError>
    ensures { Writes (encode_lower bytes.now) result out.old.items out.new.items }
{
    for byte in bytes {
        push(&hex_pair(*byte), out)?;
    }
    Ok(())
}

/// Appends a number in decimal digits; many have one.
#[tactic(auto, using(std::proofs::lemmas::Fmt::decimal_digit))]
#[inline(always)]
pub(crate) fn push_unsigned(number: u64, out: &mut Vec<u8>) -> Result<(), AllocError>
    ensures { Writes (decimal number) result out.old.items out.new.items }
{
    if number < 10 {
        return push_byte(b'0' + number as u8, out);
    }
    push(Buffer::new().format(number).as_bytes(), out)
}

/// Appends a number in decimal digits, behind its sign where that is a minus.
pub(crate) fn push_signed(number: i64, out: &mut Vec<u8>) -> Result<(), AllocError>
    ensures { Writes (signed_decimal number) result out.old.items out.new.items }
{
    if number < 0 {
        push_byte(b'-', out)?;
    }
    push_unsigned(number.unsigned_abs(), out)
}

/// Appends a decimal: its mantissa, an `e`, and its exponent.
pub(crate) fn push_decimal(
    mantissa: i64,
    exponent: i32,
    out: &mut Vec<u8>,
) -> Result<(), AllocError>
    ensures { Writes (decimal_text mantissa exponent) result out.old.items out.new.items }
{
    push_signed(mantissa, out)?;
    push_byte(b'e', out)?;
    push_signed(i64::from(exponent), out)
}
