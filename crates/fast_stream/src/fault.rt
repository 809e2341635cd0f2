//! Why a stream has no reading.

ghost use Rattle.std.specs.Prelude.{◌≡◌};
ghost use Rattle.fast_stream.specs.CauseNames.{name_of};

use crate::place::Place;
use std::{error, fmt};
use thiserror::Error;

/// Why a stream was not read to its end. Numbers with D are those of FAST 1.1, Error Handling, as far as it names them.
#[derive(Clone, Copy, Debug, PartialEq, Eq)]
pub enum Cause {
    /// An integer is out of its type's bounds.
    D2,
    /// An earlier value under the key is of another type.
    D4,
    /// A mandatory field is left out, and no earlier value predicts it.
    D5,
    /// A mandatory field needs an earlier value, and the last one was absent.
    D6,
    /// A delta removes more than is there, or its length is no int32.
    D7,
    /// No template has the identifier.
    D9,
    /// A block has a size of zero.
    D12,
    /// A block ends inside a message.
    BlockEnd,
    /// A decimal is out of range.
    R1,
    /// A Unicode string is not UTF-8.
    R2,
    /// At the strict level: an integer has more groups than it needs.
    R6,
    /// At the strict level: a presence map has more groups than it needs.
    R7,
    /// At the strict level: a bit of a presence map is 1 that no instruction asked for.
    R8,
    /// At the strict level: an ASCII string has a preamble that it does not need.
    R9,
    /// The input ended inside a message.
    Truncated,
    /// An entity, a string, a vector, a sequence or a message is larger than this crate reads.
    Limit,
    /// The reader answered an error.
    Read,
    /// The stated number of reads is used up.
    Turns,
    /// An allocation was refused.
    Memory,
}

impl Cause {
    /// The cause as a word.
    pub fn name(self) -> &'static str
        ensures { result.now ≡ name_of self }
    {
        match self {
            Cause::D2 => "D2",
            Cause::D4 => "D4",
            Cause::D5 => "D5",
            Cause::D6 => "D6",
            Cause::D7 => "D7",
            Cause::D9 => "D9",
            Cause::D12 => "D12",
            Cause::BlockEnd => "BlockEnd",
            Cause::R1 => "R1",
            Cause::R2 => "R2",
            Cause::R6 => "R6",
            Cause::R7 => "R7",
            Cause::R8 => "R8",
            Cause::R9 => "R9",
            Cause::Truncated => "Truncated",
            Cause::Limit => "Limit",
            Cause::Read => "Read",
            Cause::Turns => "Turns",
            Cause::Memory => "Memory",
        }
    }
}

impl fmt::Display for Cause {
    fn fmt<W: fmt::Write>(&self, f: &mut fmt::Formatter<W>) -> fmt::Result {
        f.write_str(self.name())
    }
}

impl error::Error for Cause {}

/// Why and where a stream was not read to its end.
///
/// For `Read` and `Turns` the place is the piece that was reached. For `Memory` it is the message alone.
#[derive(Clone, Copy, Debug, PartialEq, Eq, Error)]
#[error("{cause} {place}")]
pub struct Fault {
    pub cause: Cause,
    pub place: Place,
}
