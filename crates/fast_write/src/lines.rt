//! Lines of what is read.

ghost use Rattle.std.specs.Prelude.{◌≡◌, ◌≤◌, ◌<◌, ◌∷◌, ◌++◌, [], OnErr, OnOk, get_or, length, take, true};
ghost use Rattle.std.specs.List.{list_all};
ghost use Rattle.fast_spelled.specs.Spelled.{is_blank};
ghost use Rattle.fast_write.specs.Written.{is_no_feed};

use std::alloc::AllocError;

/// The most bytes of a line, without its line feed.
pub(crate) const LINE_LIMIT: usize = 16_777_216;

/// The place of the first line feed, or the length where there is none.
pub(crate) fn line_end(bytes: &[u8]) -> usize
    ensures inside { result ≤ length bytes.now }
    ensures clean { list_all is_no_feed (take result bytes.now) ≡ true }
    ensures feed { result < length bytes.now → get_or bytes.now result 0 ≡ 10 }
{
    match memchr::memchr(b'\n', bytes) {
        Some(place) => place,
        None => bytes.len(),
    }
}

/// Whether bytes are blanks alone.
pub(crate) fn is_blank_line(bytes: &[u8]) -> bool
    ensures { result ≡ list_all is_blank bytes.now }
{
    bytes
        .iter()
        .all(|byte| matches!(*byte, b' ' | b'\t' | b'\n' | b'\r'))
}

/// Appends a line feed.
pub(crate) fn push_feed(line: &mut Vec<u8>) -> Result<(), AllocError>
    ensures fed { OnOk result (line.new.items ≡ line.old.items ++ 10 ∷ []) }
    ensures unchanged { OnErr result (line.new.items ≡ line.old.items) }
{
    match line.push(b'\n') {
        Ok(()) => Ok(()),
        Err(refused) => Err(AllocError::from(refused)),
    }
}
