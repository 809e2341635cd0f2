//! Marks for `bench/refused.py`: of the growths of a test those between two marks are not refused.
//!
//! A mark is a growth of a size that nothing else asks for.

use std::alloc::{AllocError, Global};

/// Behind this mark growths are neither counted nor refused.
const SPARED: usize = 7_368_787;

/// Behind this one they are again.
const REFUSED: usize = 7_368_791;

fn mark(alloc: Global, size: usize) -> Result<(), AllocError> {
    let _mark: Vec<u8> = Vec::with_capacity(alloc, size)?;
    Ok(())
}

/// Begins what a test only stands on, and what other tests refuse the growths of.
pub fn spare_growths(alloc: Global) -> Result<(), AllocError> {
    mark(alloc, SPARED)
}

/// Begins what the test is about.
pub fn refuse_growths(alloc: Global) -> Result<(), AllocError> {
    mark(alloc, REFUSED)
}
