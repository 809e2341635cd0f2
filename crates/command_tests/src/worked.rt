//! The worked templates.

use crate::base::*;
use fast_build::LoadCause;
use template_tests::loaded::{Loaded, load};

// The templates of a text.
pub(crate) fn loaded(rt: &impl Abort, alloc: Global, text: &str) -> Tried<Loaded> {
    match load(alloc, text)? {
        Ok(on) => Ok(on),
        Err(fault) => {
            same(rt, fault.cause, LoadCause::Memory);
            Err(AllocError)
        }
    }
}

// The worked templates.
pub(crate) fn worked(rt: &impl Abort, alloc: Global) -> Tried<Loaded> {
    loaded(rt, alloc, WORKED)
}
