//! What a canonicaliser counted.

/// What a canonicaliser counted.
#[derive(Clone, Copy, Debug, PartialEq, Eq)]
pub struct Summary {
    /// The messages of the stream.
    pub messages: u64,
    /// The bytes that were read.
    pub read: u64,
    /// The bytes that were written, or of `check` those that would be.
    pub written: u64,
}
