//! Why lines are not written to their end.

ghost use Rattle.std.specs.Prelude.{◌≡◌, ◌⊎◌};
ghost use Rattle.fast_spelled.specs.declared.fault.LineCause.TheVariants as line_cause;
ghost use Rattle.fast_nodes.specs.declared.fault.EncodeCause.TheVariants as encode_cause;
ghost use Rattle.fast_write.specs.declared.fault.WriteFault.TheVariants as refusal;

use fast_encoder::{EncodeCause, EncodeFault};
use fast_spelled::{LineCause, LineFault};
use thiserror::Error;

/// Why lines are not written to their end.
#[derive(Clone, Copy, Debug, PartialEq, Eq, Error)]
pub enum WriteFault {
    /// A line, counted from 1, stands for no message.
    #[error("line {0} is refused: {1}")]
    Line(u64, LineFault),
    /// The message of a line, of a template of this identifier, has no form from the entries before it.
    #[error("the message of line {0}, of template {1}, is refused: {2}")]
    Message(u64, u32, EncodeFault),
    /// The reader answered an error.
    #[error("the input was refused")]
    Read,
    /// The writer answered an error, or took no byte of a list that is not empty.
    #[error("the output was refused")]
    Write,
    /// The stated number of reads is used up.
    #[error("the reads are used up")]
    Turns,
    /// An allocation was refused.
    #[error("out of memory")]
    Memory,
}

/// A fault of a whole line.
pub(crate) fn of_whole(number: u64, cause: LineCause, column: usize) -> WriteFault
    ensures { (f : LineFault) × (result ≡ refusal.Line number f) × (f.cause ≡ cause) }
{
    WriteFault::Line(
        number,
        LineFault {
            cause,
            template: 0,
            instruction: 0,
            column,
        },
    )
}

/// The fault of a line that stands for no message.
pub(crate) fn of_line(number: u64, fault: LineFault) -> WriteFault
    ensures { ((fault.cause ≡ line_cause.Memory) × (result ≡ refusal.Memory))
        ⊎ ((fault.cause ≡ line_cause.Memory → ⊥) × (result ≡ refusal.Line number fault)) }
{
    if fault.cause == LineCause::Memory {
        return WriteFault::Memory;
    }
    WriteFault::Line(number, fault)
}

/// The fault of a message that an encoder refuses.
pub(crate) fn of_message(number: u64, template: u32, fault: EncodeFault) -> WriteFault
    ensures { ((fault.cause ≡ encode_cause.Memory) × (result ≡ refusal.Memory))
        ⊎ ((fault.cause ≡ encode_cause.Memory → ⊥) × (result ≡ refusal.Message number template fault)) }
{
    if fault.cause == EncodeCause::Memory {
        return WriteFault::Memory;
    }
    WriteFault::Message(number, template, fault)
}
