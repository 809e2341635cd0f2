//! What keeps a recording from being read on.

ghost use Rattle.std.specs.Prelude.{◌≡◌};
ghost use Rattle.fast_recording.specs.Faults.{halt_of};
ghost use Rattle.fast_recording.specs.declared.halt.Halt.TheVariants as halt;

use fast_pass::Stop;
use std::alloc::AllocError;

/// What keeps a recording from being read on.
#[derive(Clone, Copy, Debug)]
pub(crate) enum Halt {
    /// The writer failed.
    Write,
    /// The writer of refusals failed.
    Tell,
    /// Memory was refused.
    Memory,
}

impl From<AllocError> for Halt {
    ghost from_gives = { λ _ e. e ≡ halt.Memory };

    fn from(_: AllocError) -> Self {
        Halt::Memory
    }
}

/// What keeps one packet from being read on.
impl From<Stop> for Halt {
    ghost from_gives = { λ stop e. e ≡ halt_of stop };

    fn from(stop: Stop) -> Self {
        match stop {
            Stop::Write => Halt::Write,
            Stop::Memory => Halt::Memory,
        }
    }
}
