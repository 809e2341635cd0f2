//! What the writing of lines counted.

/// What the writing of lines counted.
#[derive(Clone, Copy, Debug, PartialEq, Eq)]
pub struct WrittenSummary {
    /// The lines that were read, blank ones too.
    pub lines: u64,
    /// The messages that the lines stand for.
    pub messages: u64,
    /// The canonical bytes of the messages.
    pub written: u64,
}
