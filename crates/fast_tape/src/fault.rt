//! Why a stream is not read on.

ghost use Rattle.std.specs.Prelude.{◌≡◌, ◌≢◌};
ghost use Rattle.fast_tape.specs.Faults.{told_as as fault_told};

use fast_stream::{Cause, Fault};

/// Why the messages of a stream are not read on as nodes.
#[derive(Clone, Copy, Debug)]
pub enum TapeFault {
    /// The stream is refused, or memory was.
    Stream(Fault),
    /// The message of this number, counted from 1, has more bytes of strings than one may have.
    MessageTooLarge(u64),
    /// The bytes since the reset would be more than 2^40. Nothing has changed.
    StreamTooLong,
}

/// What a stream's fault is told as, where the message may have been too large.
pub fn told_as(fault: Fault, too_large: bool) -> TapeFault
    ensures told { result ≡ fault_told too_large fault }
    ensures long { result ≢ TapeFault.StreamTooLong }
{
    if !too_large {
        return TapeFault::Stream(fault);
    }
    match fault.cause {
        Cause::Memory => TapeFault::MessageTooLarge(fault.place.message),
        _ => TapeFault::Stream(fault),
    }
}
