//! What is done with lines in memory.

ghost use Rattle.std.specs.Prelude.{◌<◌, ◌≡◌, ◌≤◌, ◌^◌, length};
ghost use Rattle.fast_slices.specs.Lines.{MeasuresLines, MeasuresRun, RunsLines, SettlesLines, WritesLines, WritesOver, WritesText, counts_by, numbering_of as numbering_of_lem};

use crate::answer::{Counts, Refusal};
use crate::call::{TURNS, asked, load};
use crate::input::SliceInput;
use crate::kept::Kept;
use crate::tally::Tally;
use fast_io::ByteOutput;
use fast_template::TemplateSet;
use fast_write::{OutputForm, WriteFault, WrittenSummary, write_lines, write_packets};
use std::alloc::Global;

/// Whether lines say their packets, by a word of C; none where it has a bit that says nothing of lines.
fn numbering_of(word: u32) -> Option<bool>
    ensures { result ≡ numbering_of_lem word }
{
    match word {
        0 | 4 => Some(false),
        8 | 12 => Some(true),
        _ => None,
    }
}

/// What is counted of so many bytes of lines, which were written to their end.
fn counts_of(read: u64, summary: WrittenSummary) -> Counts
    ensures { result ≡ counts_by read summary }
{
    Counts {
        packets: 0,
        messages: summary.messages,
        read,
        written: summary.written,
    }
}

/// Writes the canonical bytes of the messages of lines, or of lines that say their packets the canonical recording.
fn run<W: ByteOutput>(
    alloc: Global,
    numbered: bool,
    set: &TemplateSet,
    lines: &[u8],
    writer: &mut W,
) -> Result<WrittenSummary, WriteFault>
    ensures { RunsLines numbered set.now lines.now (W.taken writer.old) (W.taken writer.new) result }
{
    let mut input = SliceInput::new(lines);
    if numbered {
        write_packets(alloc, set, OutputForm::Bytes, &mut input, writer, TURNS)
    } else {
        write_lines(alloc, set, OutputForm::Bytes, &mut input, writer, TURNS)
    }
}

/// Puts the bytes that a run wrote into the room, where they are what is asked for.
fn settle(
    ran: Result<WrittenSummary, WriteFault>,
    read: u64,
    bytes: &[u8],
    room: &mut [u8],
) -> Result<Counts, Refusal>
    requires fits { length bytes.now ≤ length room.now }
    ensures { SettlesLines ran read bytes.now room.old room.new result }
{
    let done = match ran {
        Ok(summary) => Ok(counts_of(read, summary)),
        Err(WriteFault::Line(number, fault)) => {
            Err(Refusal::Line(number, fault, bytes.len() as u64))
        }
        Err(WriteFault::Message(number, template, fault)) => {
            Err(Refusal::Message(number, template, fault, bytes.len() as u64))
        }
        // What is kept fails, where it fits, only for want of memory.
        Err(_) => return Err(Refusal::Memory),
    };
    room[..bytes.len()].copy_from_slice(bytes);
    done
}

/// How many bytes a run has that wrote more than the room holds.
fn measured(ran: Result<WrittenSummary, WriteFault>, count: u64) -> Refusal
    ensures { MeasuresRun ran result }
{
    match ran {
        Ok(summary) => Refusal::Room(summary.written),
        Err(WriteFault::Line(_, _)) => Refusal::Room(count),
        Err(WriteFault::Message(_, _, _)) => Refusal::Room(count),
        Err(_) => Refusal::Memory,
    }
}

/// How many bytes are made of the lines that are more than the room holds. They are made once more.
fn overflow(alloc: Global, numbered: bool, set: &TemplateSet, lines: &[u8]) -> Refusal
    ensures { MeasuresLines numbered set.now lines.now result }
{
    let mut tally = Tally::new();
    let ran = run(alloc, numbered, set, lines, &mut tally);
    measured(ran, tally.count)
}

/// Writes what is made of lines.
fn write_with(
    alloc: Global,
    numbered: bool,
    set: &TemplateSet,
    lines: &[u8],
    room: &mut [u8],
) -> Result<Counts, Refusal>
    requires few { length lines.now < 2 ^ 40 }
    ensures { WritesLines numbered set.now lines.now room.old room.new result }
{
    // One byte more than the room tells that it is too short.
    let mut kept = Kept::new(alloc, room.len() + 1);
    let ran = run(alloc, numbered, set, lines, &mut kept);
    if kept.bytes.len() > room.len() {
        return Err(overflow(alloc, numbered, set, lines));
    }
    settle(ran, lines.len() as u64, &kept.bytes, room)
}

/// Writes the canonical bytes of the messages that lines stand for, or the canonical recording of lines that say their
/// packets, with the templates of a text.
pub fn write(
    alloc: Global,
    templates: &[u8],
    word: u32,
    lines: &[u8],
    room: &mut [u8],
) -> Result<Counts, Refusal>
    ensures { WritesText templates.now word lines.now room.old room.new result }
{
    let numbered = asked(numbering_of(word), lines)?;
    let set = load(alloc, templates)?;
    write_with(alloc, numbered, &set, lines, room)
}

/// Writes the same, with a set of templates.
pub fn write_over(
    alloc: Global,
    set: &TemplateSet,
    word: u32,
    lines: &[u8],
    room: &mut [u8],
) -> Result<Counts, Refusal>
    ensures { WritesOver set.now word lines.now room.old room.new result }
{
    let numbered = asked(numbering_of(word), lines)?;
    write_with(alloc, numbered, set, lines, room)
}
