//! A reader that keeps what an explanation needs of its bytes.

ghost use Rattle.std.specs.Prelude.{◌≡◌, length, ◌≤◌};
ghost use Rattle.fast_explain.specs.Seen.{inner_of};

use fast_io::{ByteInput, Failed};
use std::alloc::{AllocError, Global};

/// How many of the first bytes are kept.
const FIRST: usize = 64;

/// How many bytes an identifier may have.
const LONGEST: usize = 10;

/// The first bytes of a stream, and the last ones: those of the last read, and before it as many as an identifier may
/// have.
#[derive(Drop)]
pub(crate) struct Kept {
    pub(crate) first: Vec<u8>,
    pub(crate) last: Vec<u8>,
    /// How many bytes stand before the last ones.
    pub(crate) before: u64,
}

impl Kept {
    /// Keeps what one read gave.
    fn keep(&mut self, alloc: Global, bytes: &[u8]) -> Result<(), AllocError> {
        let room = FIRST.saturating_sub(self.first.len());
        self.first
            .extend_from_slice(&bytes[..bytes.len().min(room)])?;
        let passed = self.last.len().saturating_sub(LONGEST);
        let mut last = Vec::new(alloc);
        last.extend_from_slice(&self.last[passed..])?;
        last.extend_from_slice(bytes)?;
        self.last = last;
        self.before = self.before.saturating_add(passed as u64);
        Ok(())
    }
}

/// A reader whose first and last bytes are kept, where that is asked for.
#[derive(Drop)]
pub struct Seen<I> {
    inner: I,
    alloc: Global,
    // none where it is not asked for, or memory for it was refused
    kept: Option<Kept>,
}

impl<I> Seen<I> {
    /// The same reader.
    pub fn new(alloc: Global, inner: I, keeps: bool) -> Seen<I>
        ensures { inner_of result ≡ inner }
    {
        let kept = if keeps {
            Some(Kept {
                first: Vec::new(alloc),
                last: Vec::new(alloc),
                before: 0,
            })
        } else {
            None
        };
        Seen { inner, alloc, kept }
    }

    /// The reader itself.
    pub fn into_inner(self) -> I
        ensures { result ≡ inner_of self }
    {
        self.inner
    }

    /// What was kept.
    pub(crate) fn kept(&self) -> Option<&Kept> {
        self.kept.as_ref()
    }
}

/// Keeps what a read gave; nothing is kept any more where memory is refused.
fn keep_in(kept: &mut Option<Kept>, alloc: Global, bytes: &[u8]) {
    let is_refused = match kept {
        Some(kept) => kept.keep(alloc, bytes).is_err(),
        None => false,
    };
    if is_refused {
        *kept = None;
    }
}

impl<I: ByteInput> ByteInput for Seen<I> {
    ghost left = { λ s. I.left s.inner };

    ghost calls = { λ s. I.calls s.inner };

    ghost errors = { λ s. I.errors s.inner };

    ghost ends = { λ s. I.ends s.inner };

    fn pull(&mut self, buf: &mut [u8]) -> Result<usize, Failed> {
        match self.inner.pull(buf) {
            Ok(count) => {
                keep_in(&mut self.kept, self.alloc, &buf[..count]);
                Ok(count)
            }
            Err(failed) => Err(failed),
        }
    }
}
