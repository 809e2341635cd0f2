//! How a stream is read.

use fast_wire::Level;

/// How messages stand in a stream.
#[derive(Clone, Copy, Debug, PartialEq, Eq)]
pub enum Framing {
    /// One after the other.
    Plain,
    /// In blocks: a size, and as many bytes, which are one or more whole messages.
    Blocks,
}

/// How a stream is read: how strictly, and how its messages stand in it.
#[derive(Clone, Copy, Debug, PartialEq, Eq)]
pub struct Mode {
    pub level: Level,
    pub framing: Framing,
}
