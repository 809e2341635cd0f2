//! Commands over a recording of packets.

ghost use Rattle.std.specs.Prelude.{◌≡◌, ◌≤◌, ◌^◌, IfOk};
ghost use Rattle.std.specs.String.{string_bytes};
ghost use Rattle.fast_machine.specs.Inputs.{told_by};
ghost use Rattle.fast_recording.specs.Recorded.{FlushesOnce, outputs, tells_failed, writes_failed};
ghost use Rattle.fast_command.specs.RunPackets.{RunsPackets, TellsPackets, accepted_line as accepted_line_lem, packets_line as packets_line_lem, refused_line as refused_line_lem};

use crate::command::Command;
use fast_io::{ByteInput, ByteOutput, write_all};
use fast_lines::Form;
use fast_recording::{
    PacketMode, RecordingFault, RecordingSummary, canonicalise_packets, check_packets, show_packets,
};
use fast_template::TemplateSet;
use std::alloc::{AllocError, Global};

// What a check says of a recording that is accepted.
fn accepted_line(alloc: Global, summary: RecordingSummary) -> Result<String, AllocError>
    ensures { IfOk result (λ line. string_bytes line ≡ accepted_line_lem summary) }
{
    let packets = summary.packets;
    let messages = summary.messages;
    let read = summary.read;
    let written = summary.written;
    format!(in alloc; "ok packets={packets} messages={messages} bytes={read} canonical={written}\n")
}

// What it says of one with packets that are refused.
fn refused_line(alloc: Global, summary: RecordingSummary) -> Result<String, AllocError>
    ensures { IfOk result (λ line. string_bytes line ≡ refused_line_lem summary) }
{
    let packets = summary.packets;
    let refused = summary.refused;
    let messages = summary.messages;
    let read = summary.read;
    let written = summary.written;
    format!(in alloc;
        "packets={packets} refused={refused} messages={messages} bytes={read} canonical={written}\n"
    )
}

// What a check of a recording says.
fn packets_line(alloc: Global, summary: RecordingSummary) -> Result<String, AllocError>
    ensures { IfOk result (λ line. string_bytes line ≡ packets_line_lem summary) }
{
    if summary.refused == 0 {
        accepted_line(alloc, summary)
    } else {
        refused_line(alloc, summary)
    }
}

// Reads a recording to its end, and says what it counted. Of one that is refused it says nothing.
fn tell_packets<R: ByteInput, W: ByteOutput, T: ByteOutput>(
    alloc: Global,
    set: &TemplateSet,
    mode: PacketMode,
    reader: &mut R,
    writer: &mut W,
    teller: &mut T,
    turns: u64,
) -> Result<RecordingSummary, RecordingFault>
    requires turns { turns ≤ 2 ^ 40 }
    ensures answer { TellsPackets mode set.now turns (told_by R.ByteInput reader.old)
        (told_by R.ByteInput reader.new) (outputs (W.taken writer.old) (T.taken teller.old))
        (outputs (W.taken writer.new) (T.taken teller.new)) result }
    ensures write { W.errors writer.new ≡ writes_failed result (W.errors writer.old) }
    ensures tell { T.errors teller.new ≡ tells_failed result (T.errors teller.old) }
    // where no packet is refused the teller is not called
    ensures untold { IfOk result (λ s. s.refused ≡ 0 → teller.new ≡ teller.old) }
    ensures flush { FlushesOnce result (W.flushes writer.old) (W.flushes writer.new) }
{
    match check_packets(alloc, set, mode, reader, teller, turns) {
        Err(RecordingFault::Packet(refused)) => match writer.flush() {
            Err(_) => Err(RecordingFault::Write),
            Ok(()) => Err(RecordingFault::Packet(refused)),
        },
        Err(fault) => Err(fault),
        Ok(summary) => match packets_line(alloc, summary) {
            Err(_) => Err(RecordingFault::Memory),
            Ok(line) => match write_all(writer, line.as_bytes()) {
                Err(_) => Err(RecordingFault::Write),
                Ok(()) => Ok(summary),
            },
        },
    }
}

/// Reads a recording of packets to its end, each packet from undefined entries, and writes what the command makes of it: a
/// line for each message in the form, of JSON with the packet first, what a check counts, or the canonical recording.
///
/// Where it keeps going, a packet that is refused is told by a line on the teller, and the next one is read; a recording
/// with a refused packet has no canonical one, so canon does not keep going.
///
/// # Errors
///
/// As `show_packets`, `check_packets` and `canonicalise_packets` have them.
pub fn run_packets<R: ByteInput, W: ByteOutput, T: ByteOutput>(
    alloc: Global,
    command: Command,
    set: &TemplateSet,
    mode: PacketMode,
    form: Form,
    reader: &mut R,
    writer: &mut W,
    teller: &mut T,
    turns: u64,
) -> Result<RecordingSummary, RecordingFault>
    requires turns { turns ≤ 2 ^ 40 }
    // at most `turns` reads, what they gave, what was written and told, and what is answered
    ensures answer { RunsPackets command mode form set.now turns (told_by R.ByteInput reader.old)
        (told_by R.ByteInput reader.new) (outputs (W.taken writer.old) (T.taken teller.old))
        (outputs (W.taken writer.new) (T.taken teller.new)) result }
    // a failed write is answered exactly where a call of the writer failed, and so of the teller
    ensures write { W.errors writer.new ≡ writes_failed result (W.errors writer.old) }
    ensures tell { T.errors teller.new ≡ tells_failed result (T.errors teller.old) }
    // where no packet is refused the teller is not called
    ensures untold { IfOk result (λ s. s.refused ≡ 0 → teller.new ≡ teller.old) }
    ensures flush { FlushesOnce result (W.flushes writer.old) (W.flushes writer.new) }
{
    match command {
        Command::Show => show_packets(alloc, set, mode, form, reader, writer, teller, turns),
        Command::Check => tell_packets(alloc, set, mode, reader, writer, teller, turns),
        Command::Canon => canonicalise_packets(alloc, set, mode.level, reader, writer, turns),
    }
}
