//! Why a piece was not read.

ghost use Rattle.std.specs.Prelude.{◌≡◌};
ghost use Rattle.fast_stream.specs.Faults.{cause_of_field, cause_of_wire};

use fast_field::FieldFault;
use fast_stream::Cause;
use fast_wire::WireFault;
use std::alloc::AllocError;

/// Who could not go on: the walk itself, or the receiver, with the entries that it puts.
#[derive(Clone, Copy, Debug, PartialEq, Eq)]
pub enum HaltedBy {
    Walk,
    Receiver,
}

/// Why a piece was not read, with the number of its instruction.
#[derive(Clone, Copy, Debug, PartialEq, Eq, Drop)]
pub struct Halt {
    pub cause: Cause,
    pub number: u32,
    /// Whose growth it was where memory was refused.
    pub by: HaltedBy,
}

impl Halt {
    /// The walk itself cannot go on.
    pub(crate) fn new(cause: Cause, number: u32) -> Halt
        ensures cause { result.cause ≡ cause }
        ensures number { result.number ≡ number }
    {
        Halt {
            cause,
            number,
            by: HaltedBy::Walk,
        }
    }
}

/// Memory was refused to the receiver.
impl From<AllocError> for Halt {
    ghost use Rattle.fast_stream.specs.declared.fault.Cause.TheVariants.{Memory};

    ghost from_gives = { λ _ e. e.cause ≡ Memory };

    fn from(_: AllocError) -> Self {
        Halt {
            cause: Cause::Memory,
            number: 0,
            by: HaltedBy::Receiver,
        }
    }
}

/// The cause that a fault of a field is in a stream.
pub(crate) fn field_cause(fault: FieldFault) -> Cause
    ensures { result ≡ cause_of_field fault }
{
    match fault {
        FieldFault::D2 => Cause::D2,
        FieldFault::D4 => Cause::D4,
        FieldFault::D5 => Cause::D5,
        FieldFault::D6 => Cause::D6,
        FieldFault::D7 => Cause::D7,
        FieldFault::R1 => Cause::R1,
        FieldFault::R2 => Cause::R2,
        FieldFault::R6 => Cause::R6,
        FieldFault::R9 => Cause::R9,
        FieldFault::Limit => Cause::Limit,
        FieldFault::NeedMore => Cause::Truncated,
        FieldFault::Memory => Cause::Memory,
    }
}

/// The cause that a fault of an entity outside of fields is in a stream: of a presence map, or of a block's size.
pub fn wire_cause(fault: WireFault) -> Cause
    ensures { result ≡ cause_of_wire fault }
{
    match fault {
        WireFault::NeedMore => Cause::Truncated,
        WireFault::TooLong => Cause::Limit,
        WireFault::Range | WireFault::NotUtf8 | WireFault::Memory => Cause::Memory,
    }
}
