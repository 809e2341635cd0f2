//! Answers where memory is refused: such an answer ends a test, so that one whose allocations fail in turn ends with want
//! of memory or with its rows.

use crate::base::*;
use fast_canon::Summary;

/// What a command answers.
pub(crate) type Answer = Result<Summary, CanonFault>;

/// Whether a command may answer so where memory is refused, to it or to the writer of a test.
pub(crate) fn may_be_refused(answer: Answer) -> bool {
    match answer {
        Ok(_) => false,
        Err(CanonFault::Memory | CanonFault::Write) => true,
        Err(CanonFault::Stream(fault)) => fault.cause == Cause::Memory,
    }
}

/// A command answered this and wrote this. Where memory was refused, what it wrote is a front of it, and the test ends.
pub(crate) fn answers(rt: &impl Abort, got: Answer, want: Answer, out: &[u8], all: &[u8]) -> Tried {
    if may_be_refused(got) && (got != want || out != all) {
        same(rt, all.starts_with(out), true);
        return Err(AllocError);
    }
    same(rt, got, want);
    same(rt, out, all);
    Ok(())
}
