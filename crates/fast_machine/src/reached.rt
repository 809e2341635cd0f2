//! How far a stream came that a reader gives.

use fast_stream::Fault;

/// How far a stream came.
#[derive(Clone, Copy)]
pub enum Reached {
    /// More bytes may come.
    Open,
    /// The reader has ended, behind a message.
    End,
    Fault(Fault),
}
