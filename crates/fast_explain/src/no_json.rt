//! Where a text is no JSON, and what its writer may not have seen.

use fast_host::is_blank;
use serde_json::Error;

/// What a text that is no JSON looks like.
#[derive(Clone, Copy)]
pub enum Look {
    /// It begins with `<`.
    Xml,
    /// It begins with a byte order mark.
    Mark,
    /// A comma stands before the bracket at fault.
    Comma,
    /// It ends before its last bracket.
    Short,
    /// Anything else.
    Unknown,
}

/// Where a text is no JSON: line and column, from 1, and what it looks like.
#[derive(Clone, Copy)]
pub struct NoJson {
    pub line: usize,
    pub column: usize,
    pub look: Look,
}

/// The place in a text of the last byte that is no blank and stands before this one.
fn last_before(text: &[u8], end: usize) -> Option<u8> {
    let mut last = None;
    for byte in &text[..end.min(text.len())] {
        if !is_blank(*byte) {
            last = Some(*byte);
        }
    }
    last
}

/// How many bytes stand before this line and column, both from 1.
fn offset_of(text: &[u8], line: usize, column: usize) -> usize {
    let mut at_line = 1_usize;
    let mut begin = 0_usize;
    for (at, byte) in text.iter().enumerate() {
        if at_line == line {
            break;
        }
        if *byte == b'\n' {
            at_line = at_line.saturating_add(1);
            begin = at.saturating_add(1);
        }
    }
    begin.saturating_add(column).saturating_sub(1)
}

/// Whether a comma stands before the bracket at this line and column.
fn has_comma_before(text: &[u8], line: usize, column: usize) -> bool {
    let offset = offset_of(text, line, column);
    matches!(text.get(offset), Some(b']' | b'}')) && last_before(text, offset) == Some(b',')
}

/// Whether a text begins with a byte order mark, of UTF-8 or UTF-16.
fn has_mark(text: &[u8]) -> bool {
    text.starts_with(b"\xef\xbb\xbf")
        || text.starts_with(b"\xff\xfe")
        || text.starts_with(b"\xfe\xff")
}

/// What a text looks like that is no JSON at this line and column.
fn look_of(text: &[u8], line: usize, column: usize) -> Look {
    if has_mark(text) {
        return Look::Mark;
    }
    match text.iter().find(|byte| !is_blank(**byte)) {
        Some(b'<') => Look::Xml,
        _ if has_comma_before(text, line, column) => Look::Comma,
        _ => Look::Unknown,
    }
}

/// Where a text is no JSON, by the error of its reader.
pub fn no_json(text: &[u8], error: &Error) -> NoJson {
    let line = error.line();
    let column = error.column();
    let look = match look_of(text, line, column) {
        Look::Unknown if error.is_eof() => Look::Short,
        look => look,
    };
    NoJson { line, column, look }
}
