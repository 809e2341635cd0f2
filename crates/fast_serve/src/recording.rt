//! What is done with a recording of packets.

ghost use Rattle.std.specs.Prelude.{◌≡◌, ◌≤◌, ◌^◌, IfOk, Ok};
ghost use Rattle.std.specs.String.{string_bytes};
ghost use Rattle.fast_machine.specs.Inputs.{told_by};
ghost use Rattle.fast_host.specs.Devices.{writer_by};
ghost use Rattle.fast_recording.specs.Told.{place_words_of, refused_line_of};
ghost use Rattle.fast_serve.specs.Packets.{IsOfPacket, IsOfRecording, ended_of};
ghost use Rattle.fast_serve.specs.Served.{CanonRecordingInHex, RunsRecording};

use crate::ended::Ended;
use crate::serve::write_hex_line;
use fast_command::{Command, Form, run_packets};
use fast_explain::Notes;
use fast_host::{MemoryOutput, Refusal};
use fast_io::{ByteInput, ByteOutput, Counted};
use fast_recording::{
    PacketFault, PacketMode, RecordingFault, RecordingSummary, canonicalise_packets,
};
use fast_stream::Place;
use fast_template::TemplateSet;
use std::alloc::{AllocError, Global};

/// The words of a place.
fn place_words(alloc: Global, place: Place) -> Result<String, AllocError>
    ensures { IfOk result (λ words. string_bytes words ≡ place_words_of place) }
{
    let message = place.message;
    let offset = place.offset;
    let template = place.template;
    let instruction = place.instruction;
    format!(in alloc;
        " message={message} offset={offset} template={template} instruction={instruction}"
    )
}

/// The line of a refused packet.
fn refused_line(alloc: Global, refused: PacketFault) -> Result<String, AllocError>
    ensures { IfOk result (λ line. string_bytes line ≡ refused_line_of refused) }
{
    let cause = refused.fault.cause.name();
    let packet = refused.packet;
    let place = place_words(alloc, refused.fault.place)?;
    format!(in alloc; "refused {cause} packet={packet}{place}\n")
}

/// What a packet that is refused is answered with, or a device that failed.
fn of_packet(alloc: Global, refused: PacketFault) -> Refusal
    ensures { IsOfPacket refused result }
{
    match Refusal::of_machine(refused.fault.cause) {
        Some(refusal) => refusal,
        None => match refused_line(alloc, refused) {
            Ok(line) => Refusal::Stream(line),
            Err(_) => Refusal::Memory,
        },
    }
}

/// What a recording that was not read to its end is answered with.
fn of_recording(alloc: Global, fault: RecordingFault) -> Refusal
    ensures { IsOfRecording fault result }
{
    match fault {
        RecordingFault::Packet(refused) => of_packet(alloc, refused),
        RecordingFault::Write | RecordingFault::Tell => Refusal::Write,
        RecordingFault::Memory => Refusal::Memory,
    }
}

/// How a recording ended that was read to its end.
fn ended(summary: RecordingSummary) -> Ended
    ensures { result ≡ ended_of summary.refused }
{
    if summary.refused > 0 {
        Ended::WithRefusals
    } else {
        Ended::Accepted
    }
}

/// Notes why a recording was not read to its end.
fn note(notes: &mut Notes, fault: RecordingFault) {
    if let RecordingFault::Packet(PacketFault { packet, fault }) = fault {
        notes.recording_stopped(packet, fault);
    }
}

/// Runs a command over a recording, from the input's bytes to the output's, and tells of refused packets where it goes on
/// behind them.
pub(crate) fn run_recording<I: ByteInput, O: ByteOutput, E: ByteOutput>(
    alloc: Global,
    command: Command,
    mode: PacketMode,
    form: Form,
    set: &TemplateSet,
    input: &mut I,
    out: &mut O,
    err: &mut E,
    turns: u64,
    notes: &mut Notes,
) -> Result<Ended, Refusal>
    requires turns { turns ≤ 2 ^ 40 }
    ensures runs { RunsRecording command mode form set.now turns
        (told_by I.ByteInput input.old) (told_by I.ByteInput input.new)
        (writer_by O.taken O.errors O.flushes out.old) (writer_by O.taken O.errors O.flushes out.new)
        (writer_by E.taken E.errors E.flushes err.old) (writer_by E.taken E.errors E.flushes err.new) result }
    ensures quiet { result ≡ Ok Ended.Accepted → err.new ≡ err.old }
{
    match run_packets(alloc, command, set, mode, form, input, out, err, turns) {
        Ok(summary) => Ok(ended(summary)),
        Err(fault) => {
            note(notes, fault);
            Err(of_recording(alloc, fault))
        }
    }
}

/// Writes the canonical recording of one in memory as a line of hex, also of the packets that stand before one that is
/// refused.
pub(crate) fn canon_recording_in_hex<O: ByteOutput>(
    alloc: Global,
    mode: PacketMode,
    set: &TemplateSet,
    recording: &[u8],
    out: &mut O,
    turns: u64,
    notes: &mut Notes,
) -> Result<Ended, Refusal>
    requires turns { turns ≤ 2 ^ 40 }
    ensures { CanonRecordingInHex mode set.now turns recording.now
        (writer_by O.taken O.errors O.flushes out.old) (writer_by O.taken O.errors O.flushes out.new) result }
{
    let mut input = Counted::new(recording);
    let mut kept = MemoryOutput {
        bytes: Vec::new(alloc),
        calls: 0,
        errors: 0,
        flushes: 0,
    };
    match canonicalise_packets(alloc, set, mode.level, &mut input, &mut kept, turns) {
        Ok(_) => write_hex_line(alloc, &kept.bytes, out),
        Err(RecordingFault::Packet(refused)) => {
            notes.recording_stopped(refused.packet, refused.fault);
            write_hex_line(alloc, &kept.bytes, out)?;
            Err(of_packet(alloc, refused))
        }
        // An output in memory fails only where there is no memory, and nothing is told.
        Err(RecordingFault::Write) => Err(Refusal::Memory),
        Err(RecordingFault::Tell) => Err(Refusal::Memory),
        Err(RecordingFault::Memory) => Err(Refusal::Memory),
    }
}
