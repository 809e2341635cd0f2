//! Why a recording was not read to its end.

ghost use Rattle.std.specs.Prelude.{◌≡◌};
ghost use Rattle.fast_recording.specs.declared.fault.RecordingFault.TheVariants as refusal;

use fast_stream::Fault;
use std::alloc::AllocError;
use thiserror::Error;

/// Why a packet is refused, and which.
#[derive(Clone, Copy, Debug, PartialEq, Eq)]
pub struct PacketFault {
    /// The packet, counted from 1.
    pub packet: u64,
    /// The cause and the place: the message is counted in its packet, and the offset in the recording.
    pub fault: Fault,
}

/// Why a recording was not read to its end.
#[derive(Clone, Copy, Debug, PartialEq, Eq, Error)]
pub enum RecordingFault {
    /// A packet is refused, or the reader failed, or the reads are used up.
    #[error("the recording is refused")]
    Packet(PacketFault),
    /// The writer answered an error, or took no byte of a list that is not empty.
    #[error("the output was refused")]
    Write,
    /// The writer of refusals did.
    #[error("the output of refusals was refused")]
    Tell,
    /// An allocation was refused.
    #[error("out of memory")]
    Memory,
}

impl From<AllocError> for RecordingFault {
    ghost from_gives = { λ _ e. e ≡ refusal.Memory };

    fn from(_: AllocError) -> Self {
        RecordingFault::Memory
    }
}
