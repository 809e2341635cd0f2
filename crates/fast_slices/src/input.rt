//! A stream in memory.

ghost use Rattle.std.specs.Prelude.{◌≡◌, Some};

use fast_io::{ByteInput, Failed};

/// A stream in memory, of which the rest is still to be read. Unlike the readers of std it has no call that fails.
#[derive(Drop)]
pub(crate) struct SliceInput<'a> {
    rest: &'a [u8],
    calls: u64,
    ends: u64,
}

impl<'a> SliceInput<'a> {
    pub(crate) fn new(stream: &'a [u8]) -> SliceInput<'a>
        ensures { result.rest.now ≡ stream.now }
    {
        SliceInput {
            rest: stream,
            calls: 0,
            ends: 0,
        }
    }
}

impl ByteInput for SliceInput<'_> {
    ghost left = { λ s. Some s.rest.now };

    ghost calls = { λ s. s.calls };

    ghost errors = { λ _. 0 };

    ghost ends = { λ s. s.ends };

    fn pull(&mut self, buf: &mut [u8]) -> Result<usize, Failed> {
        self.calls = self.calls.saturating_add(1);
        let count = buf.len().min(self.rest.len());
        if count == 0 && !buf.is_empty() {
            self.ends = self.ends.saturating_add(1);
        }
        let (front, rest) = self.rest.split_at(count);
        buf[..count].copy_from_slice(front);
        self.rest = rest;
        Ok(count)
    }
}
