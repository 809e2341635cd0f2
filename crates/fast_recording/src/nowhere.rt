//! An output that keeps nothing.

ghost use Rattle.std.specs.Prelude.{None};

use fast_io::{ByteOutput, Failed};

/// Takes all bytes and keeps none; it never fails.
#[derive(Drop)]
pub(crate) struct Nowhere {
    pub(crate) calls: u64,
    pub(crate) flushes: u64,
}

impl ByteOutput for Nowhere {
    ghost taken = { λ w. None };

    ghost calls = { λ w. w.calls };

    ghost errors = { λ w. 0 };

    ghost flushes = { λ w. w.flushes };

    fn push(&mut self, bytes: &[u8]) -> Result<usize, Failed> {
        self.calls = self.calls.saturating_add(1);
        Ok(bytes.len())
    }

    fn flush(&mut self) -> Result<(), Failed> {
        self.calls = self.calls.saturating_add(1);
        self.flushes = self.flushes.saturating_add(1);
        Ok(())
    }
}
