//! Where the text of a string, or the bytes of a vector, stand in the bytes that were read.

/// Where a text stands in the bytes that were read. The last byte of an ASCII string has its stop bit on.
#[derive(Clone, Copy, Debug, PartialEq, Eq, Drop)]
pub struct Span {
    /// The place of the first byte.
    pub start: usize,
    /// The place after the last.
    pub end: usize,
}
