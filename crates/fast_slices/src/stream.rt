//! What is done with a stream in memory.

ghost use Rattle.std.specs.Prelude.{◌<◌, ◌≡◌, ◌≤◌, ◌^◌, length};
ghost use Rattle.fast_template.specs.TemplateSets.{IsSound, templates_in};
ghost use Rattle.fast_writer.specs.Canonical.{IsCanonical};
ghost use Rattle.fast_command.specs.Run.{LinesOf};
ghost use Rattle.fast_slices.specs.Calls.{CountsStream, Measures, Settles, Writes, of_stream as of_stream_lem};

use crate::answer::{Counts, Refusal};
use crate::call::TURNS;
use crate::input::SliceInput;
use crate::kept::Kept;
use crate::tally::Tally;
use fast_canon::{CanonFault, Summary, check};
use fast_command::{Command, Form, run};
use fast_stream::{Cause, Mode};
use fast_template::TemplateSet;
use std::alloc::Global;

/// How many bytes a run has that wrote more than the room holds. It is done once more.
fn overflow(
    alloc: Global,
    command: Command,
    set: &TemplateSet,
    mode: Mode,
    form: Form,
    stream: &[u8],
) -> Refusal
    requires sound { IsSound set.now }
    requires few { length stream.now < 2 ^ 40 }
    ensures { Measures command mode form set.now stream.now result }
{
    let mut input = SliceInput::new(stream);
    let mut tally = Tally::new();
    match run(
        alloc, command, set, mode, form, &mut input, &mut tally, TURNS,
    ) {
        Ok(summary) => Refusal::Room(summary.written),
        Err(CanonFault::Stream(fault)) if fault.cause != Cause::Memory => {
            Refusal::Room(tally.count)
        }
        Err(_) => Refusal::Memory,
    }
}

/// Puts the bytes that a run wrote into the room, where they are what is asked for.
fn settle(
    ran: Result<Summary, CanonFault>,
    bytes: &[u8],
    room: &mut [u8],
) -> Result<Summary, Refusal>
    requires fits { length bytes.now ≤ length room.now }
    ensures { Settles ran bytes.now room.old room.new result }
{
    let done = match ran {
        Ok(summary) => Ok(summary),
        Err(CanonFault::Stream(fault)) if fault.cause != Cause::Memory => {
            Err(Refusal::Stream(fault, bytes.len() as u64))
        }
        // What is kept fails, where it fits, only for want of memory.
        Err(_) => return Err(Refusal::Memory),
    };
    room[..bytes.len()].copy_from_slice(bytes);
    done
}

/// Writes the canonical bytes of a stream.
pub(crate) fn canon_with(
    alloc: Global,
    set: &TemplateSet,
    mode: Mode,
    stream: &[u8],
    room: &mut [u8],
) -> Result<Summary, Refusal>
    requires sound { IsSound set.now }
    requires few { length stream.now < 2 ^ 40 }
    ensures { Writes IsCanonical mode (templates_in set.now) stream.now room.old room.new result }
{
    let mut input = SliceInput::new(stream);
    // One byte more than the room tells that it is too short.
    let mut kept = Kept::new(alloc, room.len() + 1);
    let ran = run(
        alloc,
        Command::Canon,
        set,
        mode,
        Form::Text,
        &mut input,
        &mut kept,
        TURNS,
    );
    if kept.bytes.len() > room.len() {
        return Err(overflow(alloc, Command::Canon, set, mode, Form::Text, stream));
    }
    settle(ran, &kept.bytes, room)
}

/// Writes the lines of a stream.
pub(crate) fn show_with(
    alloc: Global,
    set: &TemplateSet,
    mode: Mode,
    form: Form,
    stream: &[u8],
    room: &mut [u8],
) -> Result<Summary, Refusal>
    requires sound { IsSound set.now }
    requires few { length stream.now < 2 ^ 40 }
    ensures { Writes (LinesOf form set.now) mode (templates_in set.now) stream.now room.old room.new result }
{
    let mut input = SliceInput::new(stream);
    let mut kept = Kept::new(alloc, room.len() + 1);
    let ran = run(
        alloc,
        Command::Show,
        set,
        mode,
        form,
        &mut input,
        &mut kept,
        TURNS,
    );
    if kept.bytes.len() > room.len() {
        return Err(overflow(alloc, Command::Show, set, mode, form, stream));
    }
    settle(ran, &kept.bytes, room)
}

/// Counts what a stream carries.
pub(crate) fn check_with(
    alloc: Global,
    set: &TemplateSet,
    mode: Mode,
    stream: &[u8],
) -> Result<Summary, Refusal>
    requires sound { IsSound set.now }
    requires few { length stream.now < 2 ^ 40 }
    ensures { CountsStream mode (templates_in set.now) stream.now result }
{
    let mut input = SliceInput::new(stream);
    let ran = check(alloc, set, mode, &mut input, TURNS);
    // A check writes nothing.
    settle(ran, &[], &mut [])
}

/// What is counted of a stream, which has no packets.
pub(crate) fn of_stream(done: Result<Summary, Refusal>) -> Result<Counts, Refusal>
    ensures { result ≡ of_stream_lem done }
{
    match done {
        Ok(summary) => Ok(Counts {
            packets: 0,
            messages: summary.messages,
            read: summary.read,
            written: summary.written,
        }),
        Err(refusal) => Err(refusal),
    }
}
