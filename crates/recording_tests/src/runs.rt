//! Recordings through each call, and what was answered, written and told.

ghost use Rattle.std.specs.Prelude.{◌≤◌};

use fast_build::LoadCause;
use fast_io::{Counted, ScriptInput, ScriptOutput as Script};
use fast_lines::Form;
use fast_recording::{
    PacketFault, PacketMode, RecordingFault, RecordingSummary, canonicalise_packets, check_packets,
    show_packets,
};
use fast_stream::Cause;
use fast_wire::Level;
use std::alloc::{AllocError, Global};
use std::fmt::Debug;
use std::process::Abort;
use stream_rows::ends::End;
use template_tests::loaded::{Loaded, load};
use test_rows::Tried;

/// Aborts unless both are the same.
pub(crate) fn same<T: PartialEq + Debug + Drop>(rt: &impl Abort, given: T, wanted: T) {
    assert_eq!(rt; given, wanted);
}

/// The templates of a text.
pub(crate) fn loaded(rt: &impl Abort, alloc: Global, text: &str) -> Tried<Loaded> {
    match load(alloc, text)? {
        Ok(on) => Ok(on),
        Err(fault) => {
            same(rt, fault.cause, LoadCause::Memory);
            Err(AllocError)
        }
    }
}

/// What is done with a recording.
#[derive(Clone, Copy)]
pub(crate) enum Call {
    Show(Form),
    Check,
    Canon,
}

/// How a recording is given: in a mode, so many bytes a read, with this read failing, and at most so many reads.
#[derive(Clone, Copy)]
pub(crate) struct Given<'a> {
    pub(crate) mode: PacketMode,
    pub(crate) bytes: &'a [u8],
    pub(crate) step: usize,
    pub(crate) failing: u64,
    pub(crate) turns: u64,
}

impl<'a> Given<'a> {
    /// In reads of so many bytes.
    pub(crate) fn in_steps(self, step: usize) -> Given<'a> {
        Given { step, ..self }
    }

    /// Byte by byte, with this read failing.
    pub(crate) fn that_fails(self, failing: u64) -> Given<'a> {
        let given = self.in_steps(1);
        Given { failing, ..given }
    }
}

/// At this level, in reads of the usual length.
pub(crate) fn at_level(level: Level, keep_going: bool, bytes: &[u8]) -> Given<'_> {
    Given {
        mode: PacketMode { level, keep_going },
        bytes,
        step: 4096,
        failing: 0,
        turns: 100_000,
    }
}

/// At the usual level.
pub(crate) fn usually(bytes: &[u8]) -> Given<'_> {
    at_level(Level::Usual, false, bytes)
}

/// The same where refused packets are told of, and the next one is read.
pub(crate) fn going_on(bytes: &[u8]) -> Given<'_> {
    at_level(Level::Usual, true, bytes)
}

/// What is answered, written and told.
pub(crate) type Answer = Result<RecordingSummary, RecordingFault>;

/// Runs a call.
fn run(on: &Loaded, call: Call, given: Given, out: &mut Script, told: &mut Script) -> Answer {
    let (alloc, set, mode) = (on.alloc, &on.set, given.mode);
    let turns = given.turns.min(100_000);
    let mut reader = Counted::new(ScriptInput::new(given.bytes, given.step.max(1), given.failing));
    let out = &mut Counted::new(out);
    let told = &mut Counted::new(told);
    match call {
        Call::Show(form) => show_packets(alloc, set, mode, form, &mut reader, out, told, turns),
        Call::Check => check_packets(alloc, set, mode, &mut reader, told, turns),
        Call::Canon => canonicalise_packets(alloc, set, mode.level, &mut reader, out, turns),
    }
}

/// What `show` writes lines in.
pub(crate) const SHOW: Call = Call::Show(Form::Text);

/// Whether memory was refused.
fn is_refused_memory(answer: Answer) -> bool {
    match answer {
        Err(RecordingFault::Memory | RecordingFault::Write | RecordingFault::Tell) => true,
        _ => false,
    }
}

/// A call answers this, and writes and tells this. Where memory was refused, the test ends.
pub(crate) fn gives(
    rt: &impl Abort,
    on: &Loaded,
    call: Call,
    given: Given,
    wanted: Answer,
    written: &[u8],
    lines: &str,
) -> Tried {
    let mut out = Script::new(on.alloc, 10_000_000, false, false);
    let mut told = Script::new(on.alloc, 10_000_000, false, false);
    let answer = run(on, call, given, &mut out, &mut told);
    if is_refused_memory(answer) && answer != wanted {
        return Err(AllocError);
    }
    same(rt, answer, wanted);
    same(rt, out.bytes(), written);
    same(rt, told.bytes(), lines.as_bytes());
    Ok(())
}

/// Packets, those of them that are refused, and messages; bytes that are read, and bytes that are written.
pub(crate) fn counted(counts: (u64, u64, u64), read: u64, written: u64) -> Answer {
    let (packets, refused, messages) = counts;
    Ok(RecordingSummary {
        packets,
        refused,
        messages,
        read,
        written,
    })
}

/// A refusal in this packet and this message of it, at this offset, template and instruction.
pub(crate) fn refused(cause: Cause, packet: u64, message: u64, at: (u64, u32, u32)) -> Answer {
    let fault = End::At(cause, message, at.0, at.1, at.2).fault();
    match fault {
        Some(fault) => Err(RecordingFault::Packet(PacketFault { packet, fault })),
        None => Err(RecordingFault::Memory),
    }
}
