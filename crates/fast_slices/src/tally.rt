//! Bytes that are counted.

ghost use Rattle.std.specs.Prelude.{None};

use fast_io::{ByteOutput, Failed};

/// Takes all bytes and keeps none, but how many they are.
#[derive(Drop)]
pub(crate) struct Tally {
    pub(crate) count: u64,
    calls: u64,
    flushes: u64,
}

impl Tally {
    /// No bytes.
    pub(crate) fn new() -> Tally {
        Tally {
            count: 0,
            calls: 0,
            flushes: 0,
        }
    }
}

impl ByteOutput for Tally {
    ghost taken = { λ _. None };

    ghost calls = { λ t. t.calls };

    ghost errors = { λ _. 0 };

    ghost flushes = { λ t. t.flushes };

    fn push(&mut self, bytes: &[u8]) -> Result<usize, Failed> {
        self.calls = self.calls.saturating_add(1);
        self.count = self.count.saturating_add(bytes.len() as u64);
        Ok(bytes.len())
    }

    fn flush(&mut self) -> Result<(), Failed> {
        self.calls = self.calls.saturating_add(1);
        self.flushes = self.flushes.saturating_add(1);
        Ok(())
    }
}
