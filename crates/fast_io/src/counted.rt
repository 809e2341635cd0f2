//! The readers and writers of std, with their calls, errors, ends and flushes counted.

ghost use Rattle.std.specs.Prelude.{◌≡◌};

use crate::input::{ByteInput, Failed};
use crate::output::ByteOutput;
use std::io::{Read, Write};

/// A reader or a writer of std, with counts of its calls, of its errors, and of the calls that met a reader's
/// end or flushed a writer.
#[derive(Drop)]
pub struct Counted<I> {
    inner: I,
    calls: u64,
    errors: u64,
    ends: u64,
    flushes: u64,
}

impl<I> Counted<I> {
    ghost use Rattle.fast_io.specs.Counted.{inner_of, calls_of, errors_of, ends_of, flushes_of};

    /// The same reader or writer, with all counts at 0. It takes no memory.
    pub fn new(inner: I) -> Counted<I>
        ensures inner { inner_of result ≡ inner }
        ensures calls { calls_of result ≡ 0 }
        ensures errors { errors_of result ≡ 0 }
        ensures ends { ends_of result ≡ 0 }
        ensures flushes { flushes_of result ≡ 0 }
    {
        Counted {
            inner,
            calls: 0,
            errors: 0,
            ends: 0,
            flushes: 0,
        }
    }

    /// How many calls failed. The count stops at 2^64 - 1.
    pub fn failed_calls(&self) -> u64
        ensures { result ≡ errors_of self.now }
    {
        self.errors
    }
}

impl<I: Read> ByteInput for Counted<I> {
    ghost left = { λ c. I.remaining c.inner };

    ghost calls = { λ c. c.calls };

    ghost errors = { λ c. c.errors };

    ghost ends = { λ c. c.ends };

    fn pull(&mut self, buf: &mut [u8]) -> Result<usize, Failed> {
        self.calls = self.calls.saturating_add(1);
        match self.inner.read(buf) {
            Ok(0) if !buf.is_empty() => {
                self.ends = self.ends.saturating_add(1);
                Ok(0)
            }
            Ok(count) => Ok(count),
            Err(_) => {
                self.errors = self.errors.saturating_add(1);
                Err(Failed)
            }
        }
    }
}

impl<I: Write> ByteOutput for Counted<I> {
    ghost taken = { λ c. I.contents c.inner };

    ghost calls = { λ c. c.calls };

    ghost errors = { λ c. c.errors };

    ghost flushes = { λ c. c.flushes };

    fn push(&mut self, bytes: &[u8]) -> Result<usize, Failed> {
        self.calls = self.calls.saturating_add(1);
        match self.inner.write(bytes) {
            Ok(count) if count > 0 || bytes.is_empty() => Ok(count),
            _ => {
                self.errors = self.errors.saturating_add(1);
                Err(Failed)
            }
        }
    }

    fn flush(&mut self) -> Result<(), Failed> {
        self.calls = self.calls.saturating_add(1);
        self.flushes = self.flushes.saturating_add(1);
        match self.inner.flush() {
            Ok(()) => Ok(()),
            Err(_) => {
                self.errors = self.errors.saturating_add(1);
                Err(Failed)
            }
        }
    }
}
