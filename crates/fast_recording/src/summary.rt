//! What was counted of a recording.

/// What was counted of a recording.
#[derive(Clone, Copy, Debug, PartialEq, Eq)]
pub struct RecordingSummary {
    /// The packets, those that are refused among them.
    pub packets: u64,
    /// The packets that are refused.
    pub refused: u64,
    /// The messages, those of a refused packet before its fault among them.
    pub messages: u64,
    /// The bytes that were read, sizes among them, up to a size that is refused.
    pub read: u64,
    /// The bytes that were written, or of a check those that would be.
    pub written: u64,
}
