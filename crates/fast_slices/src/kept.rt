//! Bytes that are kept until a call has ended.

ghost use Rattle.std.specs.Prelude.{◌≡◌, Some, []};

use fast_io::{ByteOutput, Failed};
use std::alloc::Global;

/// The bytes that were taken, of which there are to be so many at most.
///
/// A room that C lends is written to only once a call has ended: so it stays as it was where the bytes do not fit.
#[derive(Drop)]
pub(crate) struct Kept {
    pub(crate) bytes: Vec<u8>,
    most: usize,
    calls: u64,
    errors: u64,
    flushes: u64,
}

impl Kept {
    /// No bytes. It takes no memory.
    pub(crate) fn new(alloc: Global, most: usize) -> Kept
        ensures { result.bytes.items ≡ [] }
    {
        Kept {
            bytes: Vec::new(alloc),
            most,
            calls: 0,
            errors: 0,
            flushes: 0,
        }
    }
}

impl ByteOutput for Kept {
    ghost taken = { λ k. Some k.bytes.items };

    ghost calls = { λ k. k.calls };

    ghost errors = { λ k. k.errors };

    ghost flushes = { λ k. k.flushes };

    fn push(&mut self, bytes: &[u8]) -> Result<usize, Failed> {
        self.calls = self.calls.saturating_add(1);
        let left = self.most.saturating_sub(self.bytes.len());
        let count = bytes.len().min(left);
        if count > 0 || bytes.is_empty() {
            if self.bytes.extend_from_slice(&bytes[..count]).is_ok() {
                return Ok(count);
            }
        }
        self.errors = self.errors.saturating_add(1);
        Err(Failed)
    }

    fn flush(&mut self) -> Result<(), Failed> {
        self.calls = self.calls.saturating_add(1);
        self.flushes = self.flushes.saturating_add(1);
        Ok(())
    }
}
