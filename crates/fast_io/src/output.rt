//! Sinks of bytes.

ghost use Rattle.std.specs.Prelude.{◌≡◌, ℕ, List, Option};
ghost use Rattle.std.specs.Io.KnownBytes.{Keeps};
ghost use Rattle.fast_io.specs.Counts.{counted};
ghost use Rattle.fast_io.specs.Traffic.{CountsError, Pushes};

use crate::input::Failed;

/// A sink of bytes.
pub trait ByteOutput {
    /// The bytes that were taken, where the sink tells them.
    ghost taken: { Self → Option (List ℕ) };

    /// How many calls were made, of `push` and of `flush`. The count stops at 2^64 - 1.
    ghost calls: { Self → ℕ };

    /// How many of them failed. The count stops at 2^64 - 1.
    ghost errors: { Self → ℕ };

    /// How many of them were calls of `flush`. The count stops at 2^64 - 1.
    ghost flushes: { Self → ℕ };

    /// Takes a prefix of `bytes`, and answers its length in bytes. That is 0 only where `bytes` is empty:
    /// a sink that takes nothing of a list that is not empty has failed. A call that fails takes none.
    fn push(&mut self, bytes: &[u8]) -> Result<usize, Failed>
        ensures bytes { Pushes (taken self.old) (taken self.new) result bytes.now }
        ensures call { calls self.new ≡ counted (calls self.old) }
        ensures error { CountsError result (errors self.old) (errors self.new) }
        ensures flush { flushes self.new ≡ flushes self.old };

    /// Passes on what was taken. It takes nothing itself.
    fn flush(&mut self) -> Result<(), Failed>
        ensures bytes { Keeps (taken self.old) (taken self.new) }
        ensures call { calls self.new ≡ counted (calls self.old) }
        ensures error { CountsError result (errors self.old) (errors self.new) }
        ensures flush { flushes self.new ≡ counted (flushes self.old) };
}

impl<O: ByteOutput> ByteOutput for &mut O {
    ghost taken = { λ w. O.taken w.now };

    ghost calls = { λ w. O.calls w.now };

    ghost errors = { λ w. O.errors w.now };

    ghost flushes = { λ w. O.flushes w.now };

    fn push(&mut self, bytes: &[u8]) -> Result<usize, Failed> {
        (**self).push(bytes)
    }

    fn flush(&mut self) -> Result<(), Failed> {
        (**self).flush()
    }
}
