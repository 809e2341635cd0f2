//! Devices for tests: a reader and a writer of std that give or take little, and fail where a script says so.

ghost use Rattle.std.specs.Prelude.{◌≡◌, ◌≤◌, ◌-◌, Some, length, min, IfOk};

use std::alloc::Global;
use std::io::{self, Read, Write};

/// What a call that is to fail answers.
fn scripted_failure() -> io::Error {
    io::Error::from(io::ErrorKind::Other)
}

/// A reader over bytes in memory that gives at most so many of them a call, and fails at one of its calls.
///
/// As a [`crate::ByteInput`] it stands in [`crate::Counted`].
#[derive(Drop)]
pub struct ScriptInput<'a> {
    rest: &'a [u8],
    step: usize,
    calls: u64,
    fails: u64,
    ghost steps: { 1 ≤ step },
}

impl<'a> ScriptInput<'a> {
    ghost use Rattle.fast_io.specs.Scripts.{rest_of, step_of, next_call_of, fails_of};

    /// A reader of these bytes, of which a call gives at most `step`. The call number `fails`, counted from 1,
    /// answers an error and gives none; with 0 none does. It takes no memory.
    pub fn new(bytes: &'a [u8], step: usize, fails: u64) -> ScriptInput<'a>
        requires { 1 ≤ step }
        ensures rest { rest_of result ≡ bytes.now }
        ensures step { step_of result ≡ step }
        ensures call { next_call_of result ≡ 1 }
        ensures fails { fails_of result ≡ fails }
    {
        ScriptInput {
            rest: bytes,
            step,
            calls: 0,
            fails,
        }
    }
}

impl Read for ScriptInput<'_> {
    ghost use Rattle.std.specs.Io.KnownBytes.{ReadConsumes};
    ghost use Rattle.std.specs.Io.{ReadsAtMost};
    ghost use Rattle.fast_io.specs.Scripts.{rest_of, step_of, next_call_of, fails_of};
    ghost use Rattle.std.specs.Prelude.{◌^◌, ◌+◌, ◌↔◌, IsErr};

    ghost remaining = { λ s. Some s.rest.now };

    fn read(&mut self, buf: &mut [u8]) -> io::Result<usize>
        ensures bound { ReadsAtMost result buf.new }
        ensures bytes { ReadConsumes (Some (rest_of self.old)) (Some
            (rest_of self.new)) result buf.new }
        // as many bytes as the call has room for, the step allows and the script has left
        ensures count { IfOk result (λ n.
            n ≡ min (min (length buf.old) (step_of self.old)) (length (rest_of self.old))) }
        ensures fails { IsErr result ↔ (min (next_call_of self.old) (2 ^ 64 - 1)
            ≡ fails_of self.old) }
        // the script stays, and the next call is the one behind
        ensures step { step_of self.new ≡ step_of self.old }
        ensures script { fails_of self.new ≡ fails_of self.old }
        ensures call { next_call_of self.new ≡ min (next_call_of self.old + 1) (2 ^ 64) }
    {
        self.calls = self.calls.saturating_add(1);
        if self.calls == self.fails {
            return Err(scripted_failure());
        }
        let len = buf.len().min(self.step);
        self.rest.read(&mut buf[..len])
    }
}

/// A writer that keeps so many bytes in all, and then answers an error, or takes none.
///
/// As a [`crate::ByteOutput`] it stands in [`crate::Counted`], as it is or by `&mut`.
#[derive(Drop)]
pub struct ScriptOutput {
    kept: Vec<u8>,
    room: u64,
    zero: bool,
    flush_fails: bool,
}

impl ScriptOutput {
    ghost use Rattle.fast_io.specs.Scripts.{kept_of, room_of, zero_of, flush_fails_of};
    ghost use Rattle.std.specs.Prelude.{[]};

    /// A writer that takes `room` bytes in all. A call that finds no room for a byte answers an error, or with
    /// `zero` that it took none; with `flush_fails` each flush answers an error. It takes no memory.
    pub fn new(alloc: Global, room: u64, zero: bool, flush_fails: bool) -> ScriptOutput
        ensures kept { kept_of result ≡ [] }
        ensures room { room_of result ≡ room }
        ensures zero { zero_of result ≡ zero }
        ensures flush_fails { flush_fails_of result ≡ flush_fails }
    {
        ScriptOutput {
            kept: Vec::new(alloc),
            room,
            zero,
            flush_fails,
        }
    }

    /// The bytes that were taken.
    pub fn bytes(&self) -> &[u8]
        ensures { result.now ≡ kept_of self.now }
    {
        self.kept.as_slice()
    }
}

impl Write for ScriptOutput {
    ghost use Rattle.fast_io.specs.Scripts.{kept_of, room_of, zero_of, flush_fails_of};
    ghost use Rattle.std.specs.Io.KnownBytes.{WriteAppends, Keeps};
    ghost use Rattle.std.specs.Io.{WritesAtMost};
    ghost use Rattle.std.specs.Prelude.{◌<◌, ◌↔◌, IsErr, OnErr, true, false};

    ghost contents = { λ s. Some s.kept.items };

    fn write(&mut self, bytes: &[u8]) -> io::Result<usize>
        ensures bound { WritesAtMost result bytes.now }
        ensures bytes { WriteAppends (Some (kept_of self.old)) (Some
            (kept_of self.new)) result bytes.now }
        // as many bytes as there are and are room for
        ensures count { IfOk result (λ n. n ≡ min (length bytes.now) (room_of self.old)) }
        ensures room { IfOk result (λ n. room_of self.new ≡ room_of self.old - n) }
        // with no room for a byte it fails, but with `zero`, and else fails for memory alone, with its room kept
        ensures full { zero_of self.old ≡ false → 0 < length bytes.now → room_of self.old ≡ 0 → IsErr result }
        ensures kept { OnErr result (room_of self.new ≡ room_of self.old) }
        // the script stays
        ensures zero { zero_of self.new ≡ zero_of self.old }
        ensures script { flush_fails_of self.new ≡ flush_fails_of self.old }
    {
        let room = usize::try_from(self.room).unwrap_or(usize::MAX);
        let len = bytes.len().min(room);
        if len == 0 && !bytes.is_empty() && !self.zero {
            return Err(scripted_failure());
        }
        self.kept.extend_from_slice(&bytes[..len])?;
        self.room -= len as u64;
        Ok(len)
    }

    fn flush(&mut self) -> io::Result<()>
        ensures bytes { Keeps (Some (kept_of self.old)) (Some (kept_of self.new)) }
        ensures fails { IsErr result ↔ (flush_fails_of self.old ≡ true) }
        ensures script { self.new ≡ self.old }
    {
        if self.flush_fails {
            return Err(scripted_failure());
        }
        Ok(())
    }
}
