//! Lines to canonical bytes.

ghost use Rattle.std.specs.Prelude.{◌≡◌, ◌≤◌, ◌^◌, ℕ, Bool, List, Option, [], false};
ghost use Rattle.fast_template.specs.TemplateSets.{TemplateList};
ghost use Rattle.fast_machine.specs.Inputs.{Reads, told_by};
ghost use Rattle.fast_write.specs.Written.{FlushesOnce, IsCausedBy, Writes, errors_behind, errors_by};
ghost use Rattle.fast_write.specs.declared.fault.WriteFault.TheVariants as refusal;
ghost use Rattle.fast_write.specs.Packets.{FlushesIn, WritesPackets};
ghost use Rattle.fast_write.specs.Ways.{Answers, Ends, Finishes, GoesOn, IsSameWay, Stops, WritesIf, here};

use crate::fault::WriteFault;
use crate::output::OutputForm;
use crate::summary::WrittenSummary;
use crate::way::Way;
use fast_dictionary::{Entries, SlotEntries};
use fast_encoder::Encoder;
use fast_io::{ByteInput, ByteOutput, Failed};
use fast_spelled::Scratch;
use fast_template::TemplateSet;
use std::alloc::{AllocError, Global};

/// The most bytes that one read takes.
const CHUNK: usize = 4096;

/// Takes what a reader has to its end, the first line that is refused, or the last of the reads, and writes what waits
/// behind each read.
fn take_all<R: ByteInput, W: ByteOutput, E: Entries>(
    way: &mut Way<'_, E>,
    reader: &mut R,
    writer: &mut W,
    turns: u64,
) -> Result<(), WriteFault>
    requires turns { turns ≤ 2 ^ 40 }
    ensures answer { (before : Option (List ℕ)) → GoesOn (here way.old) before (W.taken writer.old) []
        → (count : ℕ) × (input : List ℕ)
        × Reads (told_by R.ByteInput reader.old) (told_by R.ByteInput reader.new) count input
        × (count ≤ turns)
        × Finishes (here way.new) (R.left reader.new) before (W.taken writer.new) input result
        × IsCausedBy result (count ≡ turns)
        (told_by R.ByteInput reader.old) (told_by R.ByteInput reader.new) }
    ensures same { IsSameWay (here way.old) (here way.new) }
    ensures failed { W.errors writer.new ≡ errors_behind result (W.errors writer.old) }
    ensures flushes { W.flushes writer.new ≡ W.flushes writer.old }
{
    let mut chunk = [0u8; CHUNK];
    let mut reads = 0;
    while reads < turns {
        let count = match reader.pull(&mut chunk) {
            Ok(count) => count,
            Err(Failed) => return Err(WriteFault::Read),
        };
        if count == 0 {
            return way.end(writer);
        }
        match way.take_bytes(&chunk[..count], writer) {
            Ok(()) => {}
            Err(fault) => return Err(fault),
        }
        match way.hand_on(writer) {
            Ok(()) => reads += 1,
            Err(fault) => return Err(fault),
        }
    }
    Err(WriteFault::Turns)
}

/// Ends what was written of all lines.
fn finish_all<W: ByteOutput, E: Entries>(
    way: &mut Way<'_, E>,
    writer: &mut W,
) -> Result<WrittenSummary, WriteFault>
    ensures answer { (left before : Option (List ℕ)) (input : List ℕ)
        → Ends (here way.old) left before (W.taken writer.old) input
        → WritesIf (here way.old).numbered (here way.old).form (here way.old).set left before
        (W.taken writer.new) input result }
    ensures answers { Answers (Ok tt) result }
    ensures failed { W.errors writer.new ≡ errors_behind result (W.errors writer.old) }
    ensures flush { (here way.old).packet ≡ [] → FlushesOnce result (W.flushes writer.old) (W.flushes writer.new) }
    ensures flush_in { FlushesIn result (W.flushes writer.old) (W.flushes writer.new) }
{
    match way.close(writer) {
        Ok(()) => Ok(way.counts),
        Err(fault) => Err(fault),
    }
}

/// Ends what was written before a fault, where it is no failed write.
fn finish_before<W: ByteOutput, E: Entries>(
    way: &mut Way<'_, E>,
    fault: WriteFault,
    writer: &mut W,
) -> Result<WrittenSummary, WriteFault>
    ensures answer { (left before : Option (List ℕ)) (input : List ℕ)
        → Stops (here way.old) left before (W.taken writer.old) input fault
        → WritesIf (here way.old).numbered (here way.old).form (here way.old).set left before
        (W.taken writer.new) input result }
    ensures answers { Answers (Err fault) result }
    ensures failed { (start : ℕ) → W.errors writer.old ≡ errors_by fault start
        → W.errors writer.new ≡ errors_behind result start }
    ensures flush { (here way.old).packet ≡ [] → FlushesOnce result (W.flushes writer.old) (W.flushes writer.new) }
    ensures flush_in { FlushesIn result (W.flushes writer.old) (W.flushes writer.new) }
{
    match fault {
        WriteFault::Write => Err(WriteFault::Write),
        _ => match way.close(writer) {
            Ok(()) => Err(fault),
            Err(failed) => Err(failed),
        },
    }
}

/// Ends what was written behind an answer.
fn finish<W: ByteOutput, E: Entries>(
    way: &mut Way<'_, E>,
    answer: Result<(), WriteFault>,
    writer: &mut W,
) -> Result<WrittenSummary, WriteFault>
    ensures answer { (left before : Option (List ℕ)) (input : List ℕ)
        → Finishes (here way.old) left before (W.taken writer.old) input answer
        → WritesIf (here way.old).numbered (here way.old).form (here way.old).set left before
        (W.taken writer.new) input result }
    ensures answers { Answers answer result }
    ensures failed { (start : ℕ) → W.errors writer.old ≡ errors_behind answer start
        → W.errors writer.new ≡ errors_behind result start }
    ensures flush { (here way.old).packet ≡ [] → FlushesOnce result (W.flushes writer.old) (W.flushes writer.new) }
    ensures flush_in { FlushesIn result (W.flushes writer.old) (W.flushes writer.new) }
{
    match answer {
        Ok(()) => finish_all(way, writer),
        Err(fault) => finish_before(way, fault, writer),
    }
}

/// Ends what was written where there is no memory to begin with, and flushes the writer.
fn refuse_memory<W: ByteOutput>(
    form: OutputForm,
    writer: &mut W,
) -> Result<WrittenSummary, WriteFault>
    ensures answer { (numbered : Bool) (set : TemplateList) (left : Option (List ℕ))
        → WritesIf numbered form set left (W.taken writer.old) (W.taken writer.new) [] result }
    ensures answers { Answers (Err refusal.Memory) result }
    ensures failed { W.errors writer.new ≡ errors_behind result (W.errors writer.old) }
    ensures flush { FlushesOnce result (W.flushes writer.old) (W.flushes writer.new) }
{
    match form.close(writer) {
        Ok(()) => Err(WriteFault::Memory),
        Err(Failed) => Err(WriteFault::Write),
    }
}

/// Reads lines, which say their packets or do not, and writes the canonical bytes of their messages.
fn write_with<R: ByteInput, W: ByteOutput>(
    alloc: Global,
    set: &TemplateSet,
    numbered: bool,
    form: OutputForm,
    reader: &mut R,
    writer: &mut W,
    turns: u64,
) -> Result<WrittenSummary, WriteFault>
    requires turns { turns ≤ 2 ^ 40 }
    ensures answer { (count : ℕ) × (input : List ℕ)
        × Reads (told_by R.ByteInput reader.old) (told_by R.ByteInput reader.new) count input
        × (count ≤ turns)
        × WritesIf numbered form set.now (R.left reader.new) (W.taken writer.old) (W.taken writer.new) input result
        × IsCausedBy result (count ≡ turns)
        (told_by R.ByteInput reader.old) (told_by R.ByteInput reader.new) }
    ensures write { W.errors writer.new ≡ errors_behind result (W.errors writer.old) }
    ensures flush { numbered ≡ false → FlushesOnce result (W.flushes writer.old) (W.flushes writer.new) }
    ensures flush_in { FlushesIn result (W.flushes writer.old) (W.flushes writer.new) }
{
    let entries = match SlotEntries::new(alloc, set) {
        Ok(entries) => entries,
        Err(AllocError) => return refuse_memory(form, writer),
    };
    let mut way = Way {
        alloc,
        set,
        form,
        encoder: Encoder::new(alloc, set, entries),
        scratch: Scratch::new(alloc),
        begun: Vec::new(alloc),
        ready: Vec::new(alloc),
        counts: WrittenSummary {
            lines: 0,
            messages: 0,
            written: 0,
        },
        numbered,
        number: 0,
        packet: Vec::new(alloc),
        fresh: Vec::new(alloc),
    };
    let answer = take_all(&mut way, reader, writer, turns);
    finish(&mut way, answer, writer)
}

/// Reads lines of JSON to their end, each of which stands for a message, and writes the canonical bytes of the messages,
/// from undefined entries: as they are, or as a line of hex digits. A line of blanks alone is passed, and counted.
///
/// It makes at most `turns` reads of at most 4,096 bytes, of which there may be up to 2^40, and writes what waits behind
/// each, and within one wherever 65,536 bytes or more wait behind a line. What is held is one read, the line that is open,
/// of at most 16,777,216 bytes, its message, what waits and the entries. The writer is flushed once before anything but
/// Write is answered.
///
/// # Errors
///
/// Line: the first line that stands for no message, counted from 1, also one of more than 16,777,216 bytes without its
/// line feed, or of more than 65,536 nodes. Message: the first whose message has no form from the entries before it. Read:
/// the reader failed. Turns: the reads are used up. Memory: an allocation was refused. Before each of these the canonical
/// bytes of the lines before are written. Write: the writer failed; a front of canonical bytes is written.
pub fn write_lines<R: ByteInput, W: ByteOutput>(
    alloc: Global,
    set: &TemplateSet,
    form: OutputForm,
    reader: &mut R,
    writer: &mut W,
    turns: u64,
) -> Result<WrittenSummary, WriteFault>
    requires turns { turns ≤ 2 ^ 40 }
    // at most `turns` reads, what they gave, what was written, and what is answered
    ensures answer { (count : ℕ) × (input : List ℕ)
        × Reads (told_by R.ByteInput reader.old) (told_by R.ByteInput reader.new) count input
        × (count ≤ turns)
        × Writes form set.now (R.left reader.new) (W.taken writer.old) (W.taken writer.new) input result
        × IsCausedBy result (count ≡ turns)
        (told_by R.ByteInput reader.old) (told_by R.ByteInput reader.new) }
    // a failed write is answered exactly where a call of the writer failed
    ensures write { W.errors writer.new ≡ errors_behind result (W.errors writer.old) }
    ensures flush { FlushesOnce result (W.flushes writer.old) (W.flushes writer.new) }
{
    write_with(alloc, set, false, form, reader, writer, turns)
}

/// Reads lines of JSON to their end, each of which says its packet and stands for a message in it, and writes the canonical
/// recording of the packets: each packet's canonical bytes, from undefined entries, behind their shortest size. Lines of one
/// number, one behind the other, are one packet. Else it is as [`write_lines`].
///
/// What is held besides is the packet that is open, of at most 65,535 canonical bytes and a message's.
///
/// # Errors
///
/// As of [`write_lines`]. Line is answered also for a line without a packet, or of a packet before the last, and with Limit
/// for one with which its packet has more than 65,535 canonical bytes. What is written before a line that is refused, or
/// where the reader fails or the reads are used up, is the recording of the lines before. Memory, Write: a front of it is
/// written.
pub fn write_packets<R: ByteInput, W: ByteOutput>(
    alloc: Global,
    set: &TemplateSet,
    form: OutputForm,
    reader: &mut R,
    writer: &mut W,
    turns: u64,
) -> Result<WrittenSummary, WriteFault>
    requires turns { turns ≤ 2 ^ 40 }
    // at most `turns` reads, what they gave, what was written, and what is answered
    ensures answer { (count : ℕ) × (input : List ℕ)
        × Reads (told_by R.ByteInput reader.old) (told_by R.ByteInput reader.new) count input
        × (count ≤ turns)
        × WritesPackets form set.now (R.left reader.new) (W.taken writer.old) (W.taken writer.new) input result
        × IsCausedBy result (count ≡ turns)
        (told_by R.ByteInput reader.old) (told_by R.ByteInput reader.new) }
    // a failed write is answered exactly where a call of the writer failed
    ensures write { W.errors writer.new ≡ errors_behind result (W.errors writer.old) }
    ensures flush { FlushesIn result (W.flushes writer.old) (W.flushes writer.new) }
{
    write_with(alloc, set, true, form, reader, writer, turns)
}
