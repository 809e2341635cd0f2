//! Sources of bytes.

ghost use Rattle.std.specs.Prelude.{◌≡◌, ℕ, List, Option};
ghost use Rattle.fast_io.specs.Counts.{counted};
ghost use Rattle.fast_io.specs.Traffic.{CountsEnd, CountsError, Pulls};

/// A reader or a writer did nothing in this call: the device answered an error, want of memory of its own
/// included, or took no byte of a list that was not empty.
#[derive(Clone, Copy, Debug, PartialEq, Eq, Drop)]
pub struct Failed;

/// A source of bytes.
pub trait ByteInput {
    /// The bytes that are left, where the source tells them.
    ghost left: { Self → Option (List ℕ) };

    /// How many calls were made. The count stops at 2^64 - 1.
    ghost calls: { Self → ℕ };

    /// How many of them failed. The count stops at 2^64 - 1.
    ghost errors: { Self → ℕ };

    /// How many of them met the end: they gave no byte into a buffer that has room. The count stops at
    /// 2^64 - 1.
    ghost ends: { Self → ℕ };

    /// Puts a prefix of the bytes left into the front of `buf`, and answers its length in bytes. That is 0
    /// only at the end of the source or where `buf` is empty. A call that fails gives none.
    fn pull(&mut self, buf: &mut [u8]) -> Result<usize, Failed>
        ensures bytes { Pulls (left self.old) (left self.new) result buf.new }
        ensures call { calls self.new ≡ counted (calls self.old) }
        ensures error { CountsError result (errors self.old) (errors self.new) }
        ensures end { CountsEnd result buf.new (ends self.old) (ends self.new) };
}

impl<I: ByteInput> ByteInput for &mut I {
    ghost left = { λ r. I.left r.now };

    ghost calls = { λ r. I.calls r.now };

    ghost errors = { λ r. I.errors r.now };

    ghost ends = { λ r. I.ends r.now };

    fn pull(&mut self, buf: &mut [u8]) -> Result<usize, Failed> {
        (**self).pull(buf)
    }
}
