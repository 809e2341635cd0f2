//! Why bytes are no form, or a value has none.

ghost use Rattle.std.specs.Prelude.{◌≡◌};
ghost use Rattle.fast_wire.specs.declared.fault.WireFault.TheVariants as wire;

use std::alloc::AllocError;
use std::{error, fmt};

/// Why bytes are no form, or a value has none.
#[derive(Clone, Copy, Debug, PartialEq, Eq, Drop)]
pub enum WireFault {
    /// The bytes end before the form does, and within its limit.
    NeedMore,
    /// The limit on a form's bytes is passed.
    TooLong,
    /// The value to be written has no form within the limit.
    Range,
    /// A text is not UTF-8.
    NotUtf8,
    /// An allocation was refused.
    Memory,
}

impl WireFault {
    // The fault in words.
    fn text(self) -> &'static str {
        match self {
            WireFault::NeedMore => "the bytes end inside a value",
            WireFault::TooLong => "a value is longer than its limit",
            WireFault::Range => "a value is out of range",
            WireFault::NotUtf8 => "a text is not UTF-8",
            WireFault::Memory => "out of memory",
        }
    }
}

impl fmt::Display for WireFault {
    fn fmt<W: fmt::Write>(&self, f: &mut fmt::Formatter<W>) -> fmt::Result {
        f.write_str(self.text())
    }
}

impl error::Error for WireFault {}

impl From<AllocError> for WireFault {
    ghost from_gives = { λ _ e. e ≡ wire.Memory };

    fn from(_: AllocError) -> Self {
        WireFault::Memory
    }
}
