//! Why a stream was not canonicalised to its end.

ghost use Rattle.std.specs.Prelude.{◌≡◌};
ghost use Rattle.fast_pass.specs.declared.fault.CanonFault.TheVariants as refusal;

use fast_io::Failed;
use fast_stream::Fault;
use std::alloc::AllocError;
use thiserror::Error;

/// Why a stream was not canonicalised to its end.
#[derive(Clone, Copy, Debug, PartialEq, Eq, Error)]
pub enum CanonFault {
    /// The stream was not read to its end.
    #[error("the stream is refused: {0}")]
    Stream(Fault),
    /// The writer answered an error, or took no byte of a list that is not empty.
    #[error("the output was refused")]
    Write,
    /// An allocation was refused.
    #[error("out of memory")]
    Memory,
}

impl From<AllocError> for CanonFault {
    ghost from_gives = { λ _ e. e ≡ refusal.Memory };

    fn from(_: AllocError) -> Self {
        CanonFault::Memory
    }
}

/// The failure is the writer's: what a reader's is stands in the fault of the stream.
impl From<Failed> for CanonFault {
    ghost from_gives = { λ _ e. e ≡ refusal.Write };

    fn from(_: Failed) -> Self {
        CanonFault::Write
    }
}
