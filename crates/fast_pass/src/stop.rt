//! What keeps a relay from going on.

/// What keeps a relay from going on.
#[derive(Clone, Copy, Debug)]
pub enum Stop {
    /// The writer failed.
    Write,
    /// The output was refused memory for what it makes ready.
    Memory,
}
