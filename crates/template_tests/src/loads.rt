//! What a load answers.

use crate::base::*;
use fast_build::LoadFault;
use std::alloc::AllocError;

// What a load answers.
pub(crate) type Load = Result<TemplateSet, LoadFault>;

// What a load answers, where it is not refused for memory. Want of memory ends a test, so that one whose
// allocations fail in turn ends with that error or with its row.
fn granted(loaded: Load) -> Tried<Load> {
    match loaded {
        Err(fault) if Some(fault) == Wanted::Fault(LoadCause::Memory, 0, 0).fault() => {
            Err(AllocError)
        }
        other => Ok(other),
    }
}

// The set that is loaded.
pub(crate) fn loaded(rt: &impl Abort, loaded: Load) -> Tried<TemplateSet> {
    match granted(loaded)? {
        Ok(set) => Ok(set),
        Err(_) => panic!(rt; "refused"),
    }
}

// What is wanted of a load: a set, or a fault at this template and instruction.
#[derive(Clone, Copy)]
pub(crate) enum Wanted {
    Loaded,
    Fault(LoadCause, u32, u32),
}

impl Wanted {
    fn fault(self) -> Option<LoadFault> {
        match self {
            Wanted::Loaded => None,
            Wanted::Fault(cause, template, instruction) => Some(LoadFault {
                cause,
                template,
                instruction,
            }),
        }
    }
}

// A load has the fault that is wanted, or none. Want of memory ends the test.
pub(crate) fn answers(rt: &impl Abort, loaded: Load, wanted: Wanted) -> Tried {
    same(rt, granted(loaded)?.err(), wanted.fault());
    Ok(())
}
