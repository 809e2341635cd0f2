//! How what was asked for ended.

/// How it ended that was done.
#[derive(Clone, Copy, Debug, PartialEq, Eq)]
pub enum Ended {
    /// All that was read was accepted.
    Accepted,
    /// Packets were refused, and told of.
    WithRefusals,
}
