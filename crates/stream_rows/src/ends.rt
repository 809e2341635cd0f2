//! How streams end.

use fast_stream::{Cause, Fault, Place};

/// What stands at the end of a stream: nothing, or a fault in this message, at this offset, template and instruction.
#[derive(Clone, Copy)]
pub enum End {
    Whole,
    At(Cause, u64, u64, u32, u32),
}

impl End {
    pub fn of(fault: Option<Fault>) -> End {
        match fault {
            None => End::Whole,
            Some(Fault { cause, place }) => {
                let (template, instruction) = (place.template, place.instruction);
                End::At(cause, place.message, place.offset, template, instruction)
            }
        }
    }

    pub fn fault(self) -> Option<Fault> {
        let End::At(cause, message, offset, template, instruction) = self else {
            return None;
        };
        let place = Place {
            message,
            offset,
            template,
            instruction,
        };
        Some(Fault { cause, place })
    }
}
