//! Recordings on their way through an output.

ghost use Rattle.std.specs.Prelude.{◌≡◌, ◌≢◌, ◌≤◌, ◌^◌, ◌+◌, ◌++◌, ◌⊎◌, ◌∷◌, [], ℕ, List, Option, Ok, Err, IfOk, OnOk, length, drop};
ghost use Rattle.std.specs.FinMap as finite;
ghost use Rattle.fast_template.specs.TemplateSets.{IsSound, templates_in};
ghost use Rattle.fast_walk.specs.Received.{handed_on};
ghost use Rattle.fast_machine.specs.Inputs.{told_by};
ghost use Rattle.fast_pass.specs.Relays.{errors_behind};
ghost use Rattle.fast_machine.specs.Calls.{IsSameStream};
ghost use Rattle.fast_recording.specs.Begins.{IsOpenAt, IsPacketAt, IsPartAt};
ghost use Rattle.fast_recording.specs.Faults.{EndsInSizeBy, IsUntold, OfDevice, answer_of, next_fault, tell_errors, write_errors};
ghost use Rattle.fast_recording.specs.Made.{WritesMade, number_of, numbering_of};
ghost use Rattle.fast_recording.specs.Packets.{TakesNumbered};
ghost use Rattle.fast_recording.specs.Passing.{EndsOpen, IsEnd, IsReady, LeavesFew, ReadsMore, TakesOn, TakesPackets, nothing_counted};
ghost use Rattle.fast_recording.specs.Recorded.{FlushesOnce, RecordsBy, outputs, tells_failed, writes_failed};

use crate::begin::{Begin, next_packet};
use crate::entries::PacketEntries;
use crate::fault::{PacketFault, RecordingFault};
use crate::halt::Halt;
use crate::output::PacketOutput;
use crate::packet::{Taken, take_packet};
use crate::packet_lines::PacketLines;
use crate::settle::{Progress, place_behind, place_of_size, refuse, settle};
use crate::summary::RecordingSummary;
use fast_dictionary::Entries;
use fast_io::{ByteInput, ByteOutput, Failed};
use fast_machine::Machine;
use fast_pass::Stop;
use fast_stream::{Cause, Fault, Framing, Mode};
use fast_template::TemplateSet;
use fast_wire::Level;
use std::alloc::{AllocError, Global};

/// The most bytes that one read takes.
const CHUNK: usize = 4096;

/// How a recording is read and written: at a level, on behind a packet that is refused or not, and with its number in the
/// lines of each packet or not.
#[derive(Clone, Copy)]
pub(crate) struct Manner {
    pub(crate) level: Level,
    pub(crate) keep_going: bool,
    pub(crate) numbered: bool,
}

/// How far a recording came.
#[derive(Clone, Copy)]
pub(crate) enum Came {
    /// Up to a packet that is not whole: from this place on, with its stream from so many bytes behind that, if its size is
    /// there.
    Open(usize, Option<usize>),
    /// To a refusal that was told, and behind which no packet is known.
    End,
    /// To this refusal.
    Refused(PacketFault),
}

// The number that stands in the lines of a packet.
fn number_in_lines(manner: Manner, number: u64) -> Option<u64>
    ensures { result ≡ number_of manner.numbered number }
{
    if manner.numbered { Some(number) } else { None }
}

// Takes a packet with a number, or what has come of one of which no more comes for a cause.
fn take_numbered<O: PacketOutput, W: ByteOutput, E: Entries>(
    machine: &mut Machine<'_, O, E>,
    alloc: Global,
    manner: Manner,
    number: u64,
    bytes: &[u8],
    cut: Option<Cause>,
    size: &mut Vec<u8>,
    lines: &mut PacketLines,
    writer: &mut W,
) -> Result<Taken, Stop>
    requires few { length bytes.now ≤ 2 ^ 20 }
    requires ready { IsReady O.waiting manner.level machine.now }
    ensures takes { TakesNumbered (numbering_of manner.numbered) O.sized O.makes manner.level
        (templates_in machine.old.traversal.set.now) number (W.taken writer.old) (W.taken writer.new) bytes.now cut result }
    ensures ready { OnOk result (IsReady O.waiting manner.level machine.new) }
    ensures failed { W.errors writer.new ≡ errors_behind result (W.errors writer.old) }
    ensures flushes { W.flushes writer.new ≡ W.flushes writer.old }
    ensures same { IsSameStream machine.old machine.new }
{
    let number = number_in_lines(manner, number);
    take_packet(machine, alloc, bytes, cut, number, size, lines, writer)
}

// Takes a packet that is whole, whose stream begins behind so many of its bytes.
fn take_whole<O: PacketOutput, W: ByteOutput, T: ByteOutput, E: Entries>(
    machine: &mut Machine<'_, O, E>,
    alloc: Global,
    manner: Manner,
    progress: &mut Progress,
    bytes: &[u8],
    behind: usize,
    writer: &mut W,
    teller: &mut T,
) -> Result<Option<PacketFault>, Halt>
    requires ready { IsReady O.waiting manner.level machine.now }
    requires packet { IsPacketAt manner.level bytes.now behind }
    ensures takes { TakesOn manner.keep_going manner.level (WritesMade (numbering_of manner.numbered) O.sized O.makes)
        (templates_in machine.old.traversal.set.now) progress.old.counts progress.new.counts
        (outputs (W.taken writer.old) (T.taken teller.old)) (outputs (W.taken writer.new) (T.taken teller.new))
        bytes.now result }
    ensures ready { OnOk result (IsReady O.waiting manner.level machine.new) }
    ensures write { W.errors writer.new ≡ write_errors result (W.errors writer.old) }
    ensures tell { T.errors teller.new ≡ tell_errors result (T.errors teller.old) }
    ensures untold { IsUntold progress.old.counts progress.new.counts teller.old teller.new }
    ensures flushes { W.flushes writer.new ≡ W.flushes writer.old }
    ensures same { IsSameStream machine.old machine.new }
{
    let number = progress.counts.packets.saturating_add(1);
    let stream = &bytes[behind..];
    let size = &mut progress.buffer;
    let lines = &mut progress.lines;
    let taken = take_numbered(
        machine, alloc, manner, number, stream, None, size, lines, writer,
    )?;
    settle(
        manner.keep_going,
        taken,
        behind,
        bytes.len(),
        progress,
        teller,
    )
}

// Takes the packets that these bytes begin with, one behind the other.
fn take_packets<O: PacketOutput, W: ByteOutput, T: ByteOutput, E: Entries>(
    machine: &mut Machine<'_, O, E>,
    alloc: Global,
    manner: Manner,
    progress: &mut Progress,
    bytes: &[u8],
    writer: &mut W,
    teller: &mut T,
) -> Result<Came, Halt>
    requires ready { IsReady O.waiting manner.level machine.now }
    ensures takes { TakesPackets manner.keep_going manner.level (WritesMade (numbering_of manner.numbered) O.sized O.makes)
        (templates_in machine.old.traversal.set.now) progress.old.counts progress.new.counts
        (outputs (W.taken writer.old) (T.taken teller.old)) (outputs (W.taken writer.new) (T.taken teller.new))
        bytes.now result }
    ensures few { IfOk result (LeavesFew bytes.now) }
    ensures ready { OnOk result (IsReady O.waiting manner.level machine.new) }
    ensures write { W.errors writer.new ≡ write_errors result (W.errors writer.old) }
    ensures tell { T.errors teller.new ≡ tell_errors result (T.errors teller.old) }
    ensures untold { IsUntold progress.old.counts progress.new.counts teller.old teller.new }
    ensures flushes { W.flushes writer.new ≡ W.flushes writer.old }
    ensures same { IsSameStream machine.old machine.new }
{
    let mut at = 0;
    'packets: while at < bytes.len() {
        let rest = &bytes[at..];
        match next_packet(manner.level, rest) {
            Begin::Open(behind) => return Ok(Came::Open(at, behind)),
            Begin::Sizeless(cause) => {
                let place = place_of_size(progress.counts.read);
                return match refuse(manner.keep_going, Fault { cause, place }, progress, teller)? {
                    None => Ok(Came::End),
                    Some(refused) => Ok(Came::Refused(refused)),
                };
            }
            Begin::Whole(behind, end) => {
                let packet = &rest[..end];
                match take_whole(
                    machine, alloc, manner, progress, packet, behind, writer, teller,
                )? {
                    None => at += end,
                    Some(refused) => return Ok(Came::Refused(refused)),
                }
            }
        }
    }
    Ok(Came::Open(at, None))
}

// The refusal of the packet that would come next, where a device fails.
fn next_refused(progress: &Progress, cause: Cause) -> PacketFault
    ensures { result ≡ next_fault progress.now.counts cause }
{
    PacketFault {
        packet: progress.counts.packets.saturating_add(1),
        fault: Fault {
            cause,
            place: place_of_size(progress.counts.read),
        },
    }
}

// No more bytes come, for this cause, of a size, or behind a packet.
fn end_in_size<T: ByteOutput>(
    manner: Manner,
    progress: &mut Progress,
    bytes: &[u8],
    cause: Cause,
    teller: &mut T,
) -> Result<Option<PacketFault>, Halt>
    ensures ends { EndsInSizeBy manner.keep_going progress.old.counts progress.new.counts (T.taken teller.old)
        (T.taken teller.new) bytes.now cause result }
    ensures tell { T.errors teller.new ≡ tell_errors result (T.errors teller.old) }
    ensures untold { IsUntold progress.old.counts progress.new.counts teller.old teller.new }
{
    if cause != Cause::Truncated {
        return Ok(Some(next_refused(progress, cause)));
    }
    if bytes.is_empty() {
        return Ok(None);
    }
    let place = place_of_size(progress.counts.read);
    refuse(manner.keep_going, Fault { cause, place }, progress, teller)
}

// The fault that a device has.
fn fault_of_device(fault: Option<Fault>, cause: Cause) -> Option<Fault>
    ensures { OfDevice fault cause result }
{
    match fault {
        Some(fault) if cause != Cause::Truncated && fault.cause == cause => Some(fault),
        _ => None,
    }
}

// No more bytes come, for this cause, of a packet whose stream begins behind so many of these.
fn end_in_packet<O: PacketOutput, W: ByteOutput, T: ByteOutput, E: Entries>(
    machine: &mut Machine<'_, O, E>,
    alloc: Global,
    manner: Manner,
    progress: &mut Progress,
    bytes: &[u8],
    behind: usize,
    cause: Cause,
    writer: &mut W,
    teller: &mut T,
) -> Result<Option<PacketFault>, Halt>
    requires ready { IsReady O.waiting manner.level machine.now }
    requires open { IsPartAt manner.level bytes.now behind }
    requires cause { IsEnd cause }
    ensures ends { EndsOpen manner.keep_going manner.level (WritesMade (numbering_of manner.numbered) O.sized O.makes)
        (templates_in machine.old.traversal.set.now) progress.old.counts progress.new.counts
        (outputs (W.taken writer.old) (T.taken teller.old)) (outputs (W.taken writer.new) (T.taken teller.new))
        bytes.now cause result }
    ensures write { W.errors writer.new ≡ write_errors result (W.errors writer.old) }
    ensures tell { T.errors teller.new ≡ tell_errors result (T.errors teller.old) }
    ensures untold { IsUntold progress.old.counts progress.new.counts teller.old teller.new }
    ensures flushes { W.flushes writer.new ≡ W.flushes writer.old }
{
    let number = progress.counts.packets.saturating_add(1);
    let begin = progress.counts.read.saturating_add(behind as u64);
    let come = &bytes[behind..];
    let cut = Some(cause);
    let size = &mut progress.buffer;
    let lines = &mut progress.lines;
    let taken = take_numbered(
        machine, alloc, manner, number, come, cut, size, lines, writer,
    )?;
    match fault_of_device(taken.fault, cause) {
        Some(fault) => {
            let place = place_behind(begin, fault.place);
            Ok(Some(PacketFault {
                packet: number,
                fault: Fault { cause, place },
            }))
        }
        None => match settle(
            manner.keep_going,
            taken,
            behind,
            bytes.len(),
            progress,
            teller,
        )? {
            Some(refused) => Ok(Some(refused)),
            None => match cause {
                Cause::Truncated => Ok(None),
                // (the next packet would begin behind what was read)
                _ => Ok(Some(next_refused(progress, cause))),
            },
        },
    }
}

// No more bytes come, for this cause, of a packet that is not whole.
fn end<O: PacketOutput, W: ByteOutput, T: ByteOutput, E: Entries>(
    machine: &mut Machine<'_, O, E>,
    alloc: Global,
    manner: Manner,
    progress: &mut Progress,
    bytes: &[u8],
    behind: Option<usize>,
    cause: Cause,
    writer: &mut W,
    teller: &mut T,
) -> Result<Option<PacketFault>, Halt>
    requires ready { IsReady O.waiting manner.level machine.now }
    requires open { IsOpenAt manner.level bytes.now behind }
    requires cause { IsEnd cause }
    ensures ends { EndsOpen manner.keep_going manner.level (WritesMade (numbering_of manner.numbered) O.sized O.makes)
        (templates_in machine.old.traversal.set.now) progress.old.counts progress.new.counts
        (outputs (W.taken writer.old) (T.taken teller.old)) (outputs (W.taken writer.new) (T.taken teller.new))
        bytes.now cause result }
    ensures write { W.errors writer.new ≡ write_errors result (W.errors writer.old) }
    ensures tell { T.errors teller.new ≡ tell_errors result (T.errors teller.old) }
    ensures untold { IsUntold progress.old.counts progress.new.counts teller.old teller.new }
    ensures flushes { W.flushes writer.new ≡ W.flushes writer.old }
{
    match behind {
        None => end_in_size(manner, progress, bytes, cause, teller),
        Some(behind) => end_in_packet(
            machine, alloc, manner, progress, bytes, behind, cause, writer, teller,
        ),
    }
}

// Makes one read, and puts what it gave behind the bytes held; answers why no more come, if none do.
fn read_more<R: ByteInput>(
    reader: &mut R,
    chunk: &mut [u8; CHUNK],
    held: &mut Vec<u8>,
) -> Result<Option<Cause>, AllocError>
    ensures reads { ReadsMore (told_by R.ByteInput reader.old) (told_by R.ByteInput reader.new)
        held.old.items held.new.items result }
{
    match reader.pull(chunk) {
        Err(Failed) => Ok(Some(Cause::Read)),
        Ok(0) => Ok(Some(Cause::Truncated)),
        Ok(count) => {
            held.extend_from_slice(&chunk[..count])?;
            Ok(None)
        }
    }
}

// Forgets so many bytes from the front.
fn forget(held: &mut Vec<u8>, count: usize)
    requires { count ≤ length held.now.items }
    ensures { held.new.items ≡ drop count held.old.items }
{
    drop(held.drain(..count));
}

// Reads to the end of the recording, to what ends it, or to the last of the reads; answers the refusal, if it is one.
fn relay<O: PacketOutput, R: ByteInput, W: ByteOutput, T: ByteOutput, E: Entries>(
    machine: &mut Machine<'_, O, E>,
    alloc: Global,
    manner: Manner,
    progress: &mut Progress,
    reader: &mut R,
    writer: &mut W,
    teller: &mut T,
    turns: u64,
) -> Result<Option<PacketFault>, Halt>
    requires turns { turns ≤ 2 ^ 40 }
    requires ready { IsReady O.waiting manner.level machine.now }
    requires nothing { progress.now.counts ≡ nothing_counted }
    ensures answer { RecordsBy manner.keep_going manner.level (templates_in machine.old.traversal.set.now)
        (WritesMade (numbering_of manner.numbered) O.sized O.makes (templates_in machine.old.traversal.set.now)) turns
        (told_by R.ByteInput reader.old) (told_by R.ByteInput reader.new)
        (outputs (W.taken writer.old) (T.taken teller.old)) (outputs (W.taken writer.new) (T.taken teller.new))
        (answer_of result progress.new.counts) }
    ensures write { W.errors writer.new ≡ write_errors result (W.errors writer.old) }
    ensures tell { T.errors teller.new ≡ tell_errors result (T.errors teller.old) }
    ensures untold { IsUntold progress.old.counts progress.new.counts teller.old teller.new }
    ensures flushes { W.flushes writer.new ≡ W.flushes writer.old }
{
    // (a packet that is not whole, and what one read gave)
    let mut held = Vec::new(alloc);
    let mut unread = None;
    let mut chunk = [0u8; CHUNK];
    let mut reads = 0;
    'reads: while reads < turns {
        reads += 1;
        let ended = read_more(reader, &mut chunk, &mut held)?;
        match ended {
            Some(cause) => {
                return end(
                    machine, alloc, manner, progress, &held, unread, cause, writer, teller,
                );
            }
            None => {}
        }
        let came = take_packets(machine, alloc, manner, progress, &held, writer, teller)?;
        match came {
            Came::Open(at, behind) => {
                unread = behind;
                forget(&mut held, at);
            }
            Came::End => return Ok(None),
            Came::Refused(refused) => return Ok(Some(refused)),
        }
    }
    end(
        machine,
        alloc,
        manner,
        progress,
        &held,
        unread,
        Cause::Turns,
        writer,
        teller,
    )
}

// Passes a recording through a machine that has read nothing, and flushes the writer where the relay went to an end or a
// refusal.
fn pass_by<O: PacketOutput, R: ByteInput, W: ByteOutput, T: ByteOutput, E: Entries>(
    machine: &mut Machine<'_, O, E>,
    alloc: Global,
    manner: Manner,
    progress: &mut Progress,
    reader: &mut R,
    writer: &mut W,
    teller: &mut T,
    turns: u64,
) -> Result<RecordingSummary, RecordingFault>
    requires turns { turns ≤ 2 ^ 40 }
    requires ready { IsReady O.waiting manner.level machine.now }
    requires nothing { progress.now.counts ≡ nothing_counted }
    ensures answer { RecordsBy manner.keep_going manner.level (templates_in machine.old.traversal.set.now)
        (WritesMade (numbering_of manner.numbered) O.sized O.makes (templates_in machine.old.traversal.set.now)) turns
        (told_by R.ByteInput reader.old) (told_by R.ByteInput reader.new)
        (outputs (W.taken writer.old) (T.taken teller.old)) (outputs (W.taken writer.new) (T.taken teller.new)) result }
    ensures write { W.errors writer.new ≡ writes_failed result (W.errors writer.old) }
    ensures tell { T.errors teller.new ≡ tells_failed result (T.errors teller.old) }
    // where no packet is refused the teller is not called
    ensures untold { IfOk result (λ s. s.refused ≡ 0 → teller.new ≡ teller.old) }
    ensures flush { FlushesOnce result (W.flushes writer.old) (W.flushes writer.new) }
{
    match relay(
        machine, alloc, manner, progress, reader, writer, teller, turns,
    ) {
        Err(Halt::Write) => Err(RecordingFault::Write),
        Err(Halt::Tell) => Err(RecordingFault::Tell),
        Err(Halt::Memory) => Err(RecordingFault::Memory),
        Ok(refused) => match writer.flush() {
            Err(Failed) => Err(RecordingFault::Write),
            Ok(()) => match refused {
                Some(refused) => Err(RecordingFault::Packet(refused)),
                None => Ok(progress.counts),
            },
        },
    }
}

/// Reads a recording: packets one behind the other, each a size and as many bytes, which are a stream of messages of a
/// template set in plain framing, from undefined entries. It writes what an output makes of each packet, its size first
/// where the output has sizes.
///
/// Where it keeps going, a packet that is refused is told of by a line on the second writer, and the next one is read.
pub(crate) fn pass_packets<O: PacketOutput, R: ByteInput, W: ByteOutput, T: ByteOutput>(
    alloc: Global,
    set: &TemplateSet,
    manner: Manner,
    output: O,
    reader: &mut R,
    writer: &mut W,
    teller: &mut T,
    turns: u64,
) -> Result<RecordingSummary, RecordingFault>
    requires turns { turns ≤ 2 ^ 40 }
    // the output has no message of the set yet, and nothing waits in it
    requires begins { O.stands output (templates_in set.now) (handed_on [] ∷ []) finite.empty }
    requires empty { O.waiting output ≡ [] }
    ensures answer { RecordsBy manner.keep_going manner.level (templates_in set.now)
        (WritesMade (numbering_of manner.numbered) O.sized O.makes (templates_in set.now)) turns
        (told_by R.ByteInput reader.old) (told_by R.ByteInput reader.new)
        (outputs (W.taken writer.old) (T.taken teller.old)) (outputs (W.taken writer.new) (T.taken teller.new)) result }
    ensures write { W.errors writer.new ≡ writes_failed result (W.errors writer.old) }
    ensures tell { T.errors teller.new ≡ tells_failed result (T.errors teller.old) }
    // where no packet is refused the teller is not called
    ensures untold { IfOk result (λ s. s.refused ≡ 0 → teller.new ≡ teller.old) }
    ensures flush { FlushesOnce result (W.flushes writer.old) (W.flushes writer.new) }
    ensures sound { result ≢ Err RecordingFault.Memory → IsSound set.now }
{
    let entries = match PacketEntries::new(alloc, set) {
        Err(_) => return Err(RecordingFault::Memory),
        Ok(entries) => entries,
    };
    let mode = Mode {
        level: manner.level,
        framing: Framing::Plain,
    };
    let mut machine = Machine::new(alloc, set, mode, output, entries);
    let mut progress = Progress {
        counts: RecordingSummary {
            packets: 0,
            refused: 0,
            messages: 0,
            read: 0,
            written: 0,
        },
        buffer: Vec::new(alloc),
        lines: PacketLines::new(alloc),
    };
    // (the machine is let go in one place)
    pass_by(
        &mut machine,
        alloc,
        manner,
        &mut progress,
        reader,
        writer,
        teller,
        turns,
    )
}
