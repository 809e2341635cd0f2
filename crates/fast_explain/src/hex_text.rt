//! What keeps a text from being hex, and what looks like hex.

use fast_host::is_blank;

/// What keeps a text from being hex.
#[derive(Clone, Copy)]
pub enum Stray {
    /// A byte that is not ASCII.
    NoText,
    /// A character that is no digit and no blank: its line and its column, from 1.
    At { line: u64, column: u64 },
    /// A last digit that stands alone.
    Odd,
}

/// What keeps a text from being hex, if anything does.
pub fn stray_in(text: &[u8]) -> Option<Stray> {
    if !text.is_ascii() {
        return Some(Stray::NoText);
    }
    let mut line = 1_u64;
    let mut column = 0_u64;
    let mut is_odd = false;
    for byte in text {
        column = column.saturating_add(1);
        if byte.is_ascii_hexdigit() {
            is_odd = !is_odd;
        } else if !is_blank(*byte) {
            return Some(Stray::At { line, column });
        } else if *byte == b'\n' {
            line = line.saturating_add(1);
            column = 0;
        }
    }
    if is_odd { Some(Stray::Odd) } else { None }
}

/// Whether bytes are hex digits and blanks alone, and some are digits.
pub fn is_hex(bytes: &[u8]) -> bool {
    bytes
        .iter()
        .all(|byte| byte.is_ascii_hexdigit() || is_blank(*byte))
        && bytes.iter().any(|byte| byte.is_ascii_hexdigit())
}
