//! Templates that tests stand on.

use crate::growths::{refuse_growths, spare_growths};
use fast_build::{Load, LoadFault};
use fast_template::TemplateSet;
use std::alloc::Global;
use test_rows::Tried;

/// Templates, and where what stands on them takes memory.
#[derive(Drop)]
pub struct Loaded {
    pub alloc: Global,
    pub set: TemplateSet,
}

/// The templates of a text. What their load asks for is not refused: the tests of loads do that.
pub fn load(alloc: Global, text: &str) -> Tried<Result<Loaded, LoadFault>> {
    spare_growths(alloc)?;
    let loaded = TemplateSet::from_json(alloc, text.as_bytes());
    refuse_growths(alloc)?;
    match loaded {
        Ok(set) => Ok(Ok(Loaded { alloc, set })),
        Err(fault) => Ok(Err(fault)),
    }
}
