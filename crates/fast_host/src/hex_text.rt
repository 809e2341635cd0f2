//! Hex text: the bytes of an input in digits, and bytes as a line of digits.

ghost use Rattle.std.specs.Prelude.{◌≡◌, ◌++◌, ◌∷◌, [], Bool, IfOk, IsErr};
ghost use Rattle.std.specs.String.{string_bytes};
ghost use Rattle.hex.specs.Hex.{decode_of, encode_lower};
ghost use Rattle.fast_host.specs.HexText.{is_blank_lem, digits_of};

use hex::FromHexError;
use std::alloc::{AllocError, Global};

/// Why a text gives no bytes.
#[derive(Clone, Copy, Debug, PartialEq, Eq)]
pub enum HexFault {
    /// The text without its blanks is not an even number of hex digits.
    NotHex,
    /// An allocation was refused.
    Memory,
}

/// Whether a byte may stand between two digits of hex, or two words of JSON: a space, a tab, a carriage return or a line
/// feed.
pub fn is_blank(byte: u8) -> bool
    ensures { result ≡ is_blank_lem byte }
{
    matches!(byte, b' ' | b'\t' | b'\r' | b'\n')
}

/// Drops the blanks of a text.
fn drop_blanks(text: &mut Vec<u8>)
    ensures { text.new.items ≡ digits_of text.old.items }
{
    text.retain(|byte| !is_blank(*byte));
}

/// The bytes that a text stands for: an even number of hex digits of either case, once its blanks are dropped.
pub fn read_hex(alloc: Global, mut text: Vec<u8>) -> Result<Vec<u8>, HexFault>
    ensures ok { IfOk result (λ bytes. decode_of (digits_of text.items) ≡ Ok bytes.items) }
    ensures not_hex { result ≡ Err HexFault.NotHex → IsErr (decode_of (digits_of text.items)) }
{
    drop_blanks(&mut text);
    match hex::decode(alloc, text.as_slice()) {
        Ok(bytes) => Ok(bytes),
        Err(FromHexError::OutOfMemory) => Err(HexFault::Memory),
        Err(_) => Err(HexFault::NotHex),
    }
}

/// The lower case digits of some bytes, and a line feed.
pub fn hex_line(alloc: Global, bytes: &[u8]) -> Result<String, AllocError>
    ensures { IfOk result (λ line. string_bytes line ≡ encode_lower bytes.now ++ 10 ∷ []) }
{
    let mut line = hex::encode(alloc, bytes)?;
    line.push('\n')?;
    Ok(line)
}
