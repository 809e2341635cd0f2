//! Why nodes are not written.

use fast_nodes::EncodeFault;
use thiserror::Error;

/// Why nodes are not written as a message.
#[derive(Clone, Copy, Debug, PartialEq, Eq, Error)]
pub enum PutFault {
    /// They do not begin with those of a message.
    #[error("no message")]
    NoMessage,
    /// The message that they begin with is refused.
    #[error("{0}")]
    Refused(EncodeFault),
}
