//! What is done with a recording in memory.

ghost use Rattle.std.specs.Prelude.{◌<◌, ◌≡◌, ◌≤◌, ◌^◌, length};
ghost use Rattle.fast_template.specs.TemplateSets.{IsSound};
ghost use Rattle.fast_recording.specs.Calls.{WritesCanonical, WritesLines};
ghost use Rattle.fast_slices.specs.Packets.{CountsPackets, MeasuresPackets, MeasuresRun, SettlesPackets, WritesPackets, counts_by};

use crate::answer::{Counts, Refusal};
use crate::call::TURNS;
use crate::input::SliceInput;
use crate::kept::Kept;
use crate::tally::Tally;
use fast_lines::Form;
use fast_recording::{
    PacketMode, RecordingFault, RecordingSummary, canonicalise_packets, check_packets, show_packets,
};
use fast_stream::Cause;
use fast_template::TemplateSet;
use fast_wire::Level;
use std::alloc::Global;

/// What is counted of a recording that was read to its end.
fn counts_of(summary: RecordingSummary) -> Counts
    ensures { result ≡ counts_by summary }
{
    Counts {
        packets: summary.packets,
        messages: summary.messages,
        read: summary.read,
        written: summary.written,
    }
}

/// Puts the bytes that a run wrote into the room, where they are what is asked for.
fn settle(
    ran: Result<RecordingSummary, RecordingFault>,
    bytes: &[u8],
    room: &mut [u8],
) -> Result<Counts, Refusal>
    requires fits { length bytes.now ≤ length room.now }
    ensures { SettlesPackets ran bytes.now room.old room.new result }
{
    let done = match ran {
        Ok(summary) => Ok(counts_of(summary)),
        Err(RecordingFault::Packet(refused)) if refused.fault.cause != Cause::Memory => {
            Err(Refusal::Packet(refused, bytes.len() as u64))
        }
        // What is kept fails, where it fits, only for want of memory.
        Err(_) => return Err(Refusal::Memory),
    };
    room[..bytes.len()].copy_from_slice(bytes);
    done
}

/// How many bytes a run has that wrote more than the room holds.
fn measured(ran: Result<RecordingSummary, RecordingFault>, count: u64) -> Refusal
    ensures { MeasuresRun ran count result }
{
    match ran {
        Ok(summary) => Refusal::Room(summary.written),
        Err(RecordingFault::Packet(refused)) if refused.fault.cause != Cause::Memory => {
            Refusal::Room(count)
        }
        Err(_) => Refusal::Memory,
    }
}

/// How many bytes the canonical recording has that is more than the room holds. It is made once more.
fn canon_overflow(alloc: Global, set: &TemplateSet, level: Level, recording: &[u8]) -> Refusal
    requires sound { IsSound set.now }
    requires few { length recording.now < 2 ^ 40 }
    ensures { MeasuresPackets (WritesCanonical set.now) level set.now recording.now result }
{
    let mut tally = Tally::new();
    let mut input = SliceInput::new(recording);
    let ran = canonicalise_packets(alloc, set, level, &mut input, &mut tally, TURNS);
    measured(ran, tally.count)
}

/// How many bytes the lines have that are more than the room holds. They are made once more.
fn show_overflow(
    alloc: Global,
    set: &TemplateSet,
    level: Level,
    form: Form,
    recording: &[u8],
) -> Refusal
    requires sound { IsSound set.now }
    requires few { length recording.now < 2 ^ 40 }
    ensures { MeasuresPackets (WritesLines form set.now) level set.now recording.now result }
{
    let mut tally = Tally::new();
    let mut untold = Tally::new();
    let mut input = SliceInput::new(recording);
    let mode = PacketMode {
        level,
        keep_going: false,
    };
    let ran = show_packets(
        alloc,
        set,
        mode,
        form,
        &mut input,
        &mut tally,
        &mut untold,
        TURNS,
    );
    measured(ran, tally.count)
}

/// Writes the canonical recording.
pub(crate) fn canon_recording(
    alloc: Global,
    set: &TemplateSet,
    level: Level,
    recording: &[u8],
    room: &mut [u8],
) -> Result<Counts, Refusal>
    requires sound { IsSound set.now }
    requires few { length recording.now < 2 ^ 40 }
    ensures { WritesPackets (WritesCanonical set.now) level set.now recording.now room.old room.new result }
{
    let mut input = SliceInput::new(recording);
    // One byte more than the room tells that it is too short.
    let mut kept = Kept::new(alloc, room.len() + 1);
    let ran = canonicalise_packets(alloc, set, level, &mut input, &mut kept, TURNS);
    if kept.bytes.len() > room.len() {
        return Err(canon_overflow(alloc, set, level, recording));
    }
    settle(ran, &kept.bytes, room)
}

/// Writes the lines of a recording.
pub(crate) fn show_recording(
    alloc: Global,
    set: &TemplateSet,
    level: Level,
    form: Form,
    recording: &[u8],
    room: &mut [u8],
) -> Result<Counts, Refusal>
    requires sound { IsSound set.now }
    requires few { length recording.now < 2 ^ 40 }
    ensures { WritesPackets (WritesLines form set.now) level set.now recording.now room.old room.new result }
{
    let mut input = SliceInput::new(recording);
    let mut kept = Kept::new(alloc, room.len() + 1);
    let mut untold = Tally::new();
    let mode = PacketMode {
        level,
        keep_going: false,
    };
    let ran = show_packets(
        alloc,
        set,
        mode,
        form,
        &mut input,
        &mut kept,
        &mut untold,
        TURNS,
    );
    if kept.bytes.len() > room.len() {
        return Err(show_overflow(alloc, set, level, form, recording));
    }
    settle(ran, &kept.bytes, room)
}

/// Counts what a recording carries.
pub(crate) fn check_recording(
    alloc: Global,
    set: &TemplateSet,
    level: Level,
    recording: &[u8],
) -> Result<Counts, Refusal>
    requires sound { IsSound set.now }
    requires few { length recording.now < 2 ^ 40 }
    ensures { CountsPackets level set.now recording.now result }
{
    let mut input = SliceInput::new(recording);
    let mut untold = Tally::new();
    let mode = PacketMode {
        level,
        keep_going: false,
    };
    let ran = check_packets(alloc, set, mode, &mut input, &mut untold, TURNS);
    // A check writes nothing.
    settle(ran, &[], &mut [])
}
