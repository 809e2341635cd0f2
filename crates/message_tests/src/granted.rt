//! Answers where memory is refused: such an answer ends a test, so that one whose allocations fail in turn ends with want
//! of memory or with its rows.

use crate::base::*;
use fast_stream::Cause;

/// The fault that a decoder answers, or none, where memory was not refused.
pub(crate) fn granted(fault: Option<Fault>) -> Tried<Option<Fault>> {
    match fault {
        Some(fault) if fault.cause == Cause::Memory => Err(AllocError),
        other => Ok(other),
    }
}
