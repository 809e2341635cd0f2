//! An output in memory.

ghost use Rattle.std.specs.Prelude.{Some};

use fast_io::{ByteOutput, Failed};

/// The bytes that were taken, with counts of the calls and of those that had no memory.
#[derive(Drop)]
pub struct MemoryOutput {
    pub bytes: Vec<u8>,
    pub calls: u64,
    pub errors: u64,
    pub flushes: u64,
}

impl ByteOutput for MemoryOutput {
    ghost taken = { λ m. Some m.bytes.items };

    ghost calls = { λ m. m.calls };

    ghost errors = { λ m. m.errors };

    ghost flushes = { λ m. m.flushes };

    fn push(&mut self, bytes: &[u8]) -> Result<usize, Failed> {
        self.calls = self.calls.saturating_add(1);
        match self.bytes.extend_from_slice(bytes) {
            Ok(()) => Ok(bytes.len()),
            Err(_) => {
                self.errors = self.errors.saturating_add(1);
                Err(Failed)
            }
        }
    }

    fn flush(&mut self) -> Result<(), Failed> {
        self.calls = self.calls.saturating_add(1);
        self.flushes = self.flushes.saturating_add(1);
        Ok(())
    }
}
