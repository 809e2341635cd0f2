//! What the bytes behind a packet begin with.

ghost use Rattle.std.specs.Prelude.{◌≡◌, ◌≤◌};
ghost use Rattle.fast_recording.specs.Begins.{Begins};

use crate::size::read_packet_size;
use fast_stream::Cause;
use fast_wire::Level;

/// What the bytes behind a packet begin with.
#[derive(Clone, Copy)]
pub(crate) enum Begin {
    /// A packet that is whole: where its stream begins, and where it ends.
    Whole(usize, usize),
    /// No size.
    Sizeless(Cause),
    /// A packet that is not whole: where its stream begins, if its size is there.
    Open(Option<usize>),
}

/// Looks for the next packet.
pub(crate) fn next_packet(level: Level, bytes: &[u8]) -> Begin
    ensures { Begins level bytes.now result }
{
    match read_packet_size(level, bytes) {
        Err(cause) => match cause {
            Cause::Truncated => Begin::Open(None),
            _ => Begin::Sizeless(cause),
        },
        Ok((room, behind)) => {
            if bytes.len() - behind < room {
                Begin::Open(Some(behind))
            } else {
                Begin::Whole(behind, behind + room)
            }
        }
    }
}
