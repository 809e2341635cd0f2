//! Worked streams: their messages and their faults, however the bytes come.

ghost use Rattle.fast_walk.specs.Traversals.{ServesAll};

use crate::base::*;
use crate::decoding::steps::Step::{Byte, Fed, Held, Reset};
use crate::decoding::steps::{Step, Task, both_fulfil, count};
use fast_decoder::{MessageInputStream, Mode};
use fast_io::{Counted, ScriptInput};
use stream_rows::modes::STRICT;
use stream_rows::quotes::{BOTH, ONE, QUOTE};
use stream_rows::sent::Shown::{Absent, Bytes, Decimal, Group, Number, Sequence, Text, Unicode};
use stream_rows::sent::{Sent, Shown, messages};

// A reader of a script.
type Input<'a, 's, E> = MessageInputStream<'a, Counted<ScriptInput<'s>>, E>;

// Whether a reader gives these messages.
fn gives_all<E: Entries>(input: &mut Input<E>, want: &[Message]) -> Tried<bool> {
    for message in want {
        match input.read_message() {
            Ok(Some(found)) if found == *message => {}
            Ok(_) => return Ok(false),
            Err(fault) => {
                granted(Some(fault))?;
                return Ok(false);
            }
        }
    }
    Ok(true)
}

// Whether a reader gives no more messages, but this fault, or none.
fn ends_so<E: Entries>(input: &mut Input<E>, fault: Option<Fault>) -> Tried<bool> {
    match input.read_message() {
        Ok(None) => Ok(fault.is_none()),
        Ok(Some(_)) => Ok(false),
        Err(found) => Ok(granted(Some(found))? == fault),
    }
}

// What a reader gives.
#[derive(Clone, Copy)]
enum Given<'a> {
    // What is wanted.
    Messages(Want<'a>),
    // These faults, or none, of two calls.
    Faults(Option<Fault>, Option<Fault>),
}

fn gives<E: Entries>(input: &mut Input<E>, given: Given) -> Tried<bool> {
    match given {
        Given::Messages(want) => Ok(gives_all(input, want.0)? && ends_so(input, want.1)?),
        Given::Faults(one, two) => {
            let first = granted(input.read_message().err())?;
            let second = granted(input.read_message().err())?;
            Ok((first, second) == (one, two))
        }
    }
}

// A reader's script, at least a byte a step, which of its calls fails, and how often it is read, at most a million times.
#[derive(Clone, Copy)]
struct Script<'a>(&'a [u8], usize, u64, u64);

// Whether a reader with this script gives this over these entries.
fn reads<E: Entries>(on: &Loaded, mode: Mode, entries: E, from: Script, given: Given) -> Tried<bool>
    requires { ServesAll (E.serves entries) on.now.set }
{
    let Script(stream, step, fails, turns) = from;
    let reader = Counted::new(ScriptInput::new(stream, step.max(1), fails));
    let turns = turns.min(1_000_000);
    let mut input = MessageInputStream::new(on.alloc, reader, &on.set, mode, entries, turns);
    gives(&mut input, given)
}

// The same over both kinds of entries.
fn both_give(on: &Loaded, mode: Mode, script: Script, given: Given) -> Tried<bool> {
    let map = MapEntries::new(on.alloc);
    if !reads(on, mode, map, script, given)? {
        return Ok(false);
    }
    reads(on, mode, slots_of(on)?, script, given)
}

// Whether a reader that gives so many bytes at a time gives what is wanted, over both kinds of entries.
pub(crate) fn both_read(
    on: &Loaded,
    mode: Mode,
    stream: &[u8],
    step: usize,
    want: Want,
) -> Tried<bool> {
    let script = Script(stream, step, 0, 1_000_000);
    both_give(on, mode, script, Given::Messages(want))
}

// Whether a stream gives what is wanted: in steps of one, two and three bytes, whole, and cut in two at each place, over
// both kinds of entries.
pub(crate) fn agrees(on: &Loaded, mode: Mode, stream: &[u8], want: Want) -> Tried<bool> {
    for step in 1..4 {
        if !both_read(on, mode, stream, step, want)? {
            return Ok(false);
        }
    }
    for cut in 0..=stream.len() {
        let (front, back) = stream.split_at(cut);
        if !both_fulfil(on, mode, Task::Cut(front, back, want))? {
            return Ok(false);
        }
    }
    Ok(true)
}

// A stream, its messages, and its end.
#[derive(Clone, Copy)]
pub(crate) struct Row {
    pub(crate) stream: &'static [u8],
    pub(crate) want: &'static [Sent],
    pub(crate) end: End,
}

pub(crate) fn is_read(rt: &impl Abort, on: &Loaded, mode: Mode, row: &Row) -> Tried {
    let want = messages(on.alloc, row.want)?;
    let want = Want(&want, row.end.fault());
    same(rt, agrees(on, mode, row.stream, want)?, true);
    Ok(())
}

pub(crate) fn each_read(rt: &impl Abort, on: &Loaded, mode: Mode, rows: &[Row]) -> Tried {
    for row in rows {
        is_read(rt, on, mode, row)?;
    }
    Ok(())
}

pub(crate) fn all_read_in(rt: &impl Abort, alloc: Global, mode: Mode, rows: &[Row]) -> Tried {
    let on = worked(rt, alloc)?;
    each_read(rt, &on, mode, rows)
}

fn all_read(rt: &impl Abort, alloc: Global, rows: &[Row]) -> Tried {
    all_read_in(rt, alloc, PLAIN, rows)
}

#[test]
fn streams_that_are_read(rt: HostRuntime) -> Tried {
    const ROWS: &[Row] = rows! { Row { stream, want, end }:
        // fields
        b"\xF0\x81\x81\x41\xC2\xFE\x00\xE4\x80\x80\x81", BOTH, Whole;
        b"\xE0\x82\x0F\x7F\x7F\x7F\xFF\x0F\x7F\x7F\x7F\xFF\x80\x80\x80\x81",
            &[Sent(2, &[Number(4_294_967_295), Number(4_294_967_295)]), Sent(2, &[Number(0), Number(4_294_967_295)])],
            At(D2, 3, 15, 2, 2);
        b"\xF0\x83\x80\x85\x90\x39\x45\xA3",
            &[Sent(3, &[Absent, Number(5)]), Sent(3, &[Decimal(2, 942_755), Number(5)])], Whole;
        // string deltas
        b"\xC0\x8A\x80\x47\x45\x48\xB6\x80\x82\x4D\xB6\x80\xFD\x45\xD3",
            &[Sent(10, &[Text(b"GEH6")]), Sent(10, &[Text(b"GEM6")]), Sent(10, &[Text(b"ESM6")])], Whole;
        b"\xC0\x8A\x80\x47\x45\x48\xB6\x80\x82\x4D\xB6\x80\xFD\x45\xD3\x80\x85\x80",
            &[Sent(10, &[Text(b"GEH6")]), Sent(10, &[Text(b"GEM6")]), Sent(10, &[Text(b"ESM6")])], At(D7, 4, 16, 10, 1);
        // segments
        b"\xC0\x84\x80\x80\x81\x80\x83\x85\x86",
            &[Sent(4, &[Absent]), Sent(4, &[Sequence(&[])]), Sent(4, &[Sequence(&[&[5], &[6]])])], Whole;
        b"\xC0\x85\x82\xC0\x85\x80", &[Sent(5, &[Sequence(&[&[5], &[5]])])], Whole;
        b"\xF0\x8B\xC0\x85\x86\x80\xA0\x80",
            &[Sent(11, &[Group(&[5]), Number(6)]), Sent(11, &[Absent, Number(6)]), Sent(11, &[Group(&[5]), Number(6)])],
            Whole;
        // refusals
        b"", &[], Whole;
        b"\x80", &[], At(D5, 1, 1, 0, 0);
        b"\xC0\xE4", &[], At(D9, 1, 1, 0, 0);
        b"\xC0\x84\x04\x00\x81", &[], At(Limit, 1, 2, 4, 1);
        b"\xC0\x8D\x85", &[], At(D6, 1, 2, 13, 2);
        b"\xF0\x81\x81\x41\xC2\x00\xC0", &[], At(R1, 1, 5, 1, 3);
        b"\xF0\x81\x81\x41\xC2\xC0", &[], At(R1, 1, 5, 1, 3);
        b"\xF0\x87\x85\xC1\x80", &[Sent(7, &[Number(5), Text(b"A")])], At(D4, 2, 5, 7, 1);
        b"\xF0\x81\0\0\0\0\0\0\0\0\0\0", &[], At(Limit, 1, 2, 1, 1);
        b"\xF0\x81\0\0\0\0\0\0\0\0\0", &[], At(Truncated, 1, 2, 1, 1);
        // cut off
        b"\xF0", &[], At(Truncated, 1, 1, 0, 0);
        b"\xF0\x81", &[], At(Truncated, 1, 2, 1, 1);
        b"\xF0\x81\x81", &[], At(Truncated, 1, 3, 1, 2);
        b"\xF0\x81\x81\x41", &[], At(Truncated, 1, 3, 1, 2);
        b"\xF0\x81\x81\x41\xC2", &[], At(Truncated, 1, 5, 1, 3);
        b"\xF0\x81\x81\x41\xC2\xFE", &[], At(Truncated, 1, 5, 1, 3);
        b"\xF0\x81\x81\x41\xC2\xFE\x00", &[], At(Truncated, 1, 5, 1, 3);
    };
    all_read(&rt, rt.alloc(), ROWS)
}

// What the rows above leave out: spellings that are longer than they must be, tails, Unicode, byte vectors, constants.
#[test]
fn other_streams_that_are_read(rt: HostRuntime) -> Tried {
    const ROWS: &[Row] = rows! { Row { stream, want, end }:
        // longer than they must be
        b"\xF0\x81\x81\x41\xC2\xFE\x00\xE4\xF8\x81\x82\x41\xC2\x80\x81\x80", BOTH, Whole;
        b"\xF0\x81\x00\x00\x81\x41\xC2\xFE\x00\xE4", ONE, Whole;
        b"\x70\x00\x80\x81\x81\x41\xC2\xFE\x00\xE4", ONE, Whole;
        b"\xF1\x81\x81\x41\xC2\xFE\x00\xE4", ONE, Whole;
        b"\xF0\x83\x80\x85\xB0\x83\x39\x45\xA3",
            &[Sent(3, &[Absent, Number(5)]), Sent(3, &[Decimal(2, 942_755), Number(5)])], Whole;
        b"\xC0\x8A\x80\x47\x45\x48\xB6\x80\x82\x4D\xB6\x80\xFD\x45\xD3\x80\xFF\x80", &[Sent(10, &[Text(b"GEH6")]),
            Sent(10, &[Text(b"GEM6")]), Sent(10, &[Text(b"ESM6")]), Sent(10, &[Text(b"ESM6")])], Whole;
        // tails
        b"\xE0\x88\x78\x61\xE2\xA0\x00\x00\x00\xE2", &[Sent(8, &[Text(b"xab")]), Sent(8, &[Text(b"x\0b")])], Whole;
        b"\xE0\x89\x80\xA0\x00\x80", &[Sent(9, &[Absent]), Sent(9, &[Text(b"ab")])], Whole;
        b"\xE0\x8C\x82\xC3\xA9\xA0\x81\xA8\xA0\x81\x41", &[Sent(12, &[Unicode("é")]), Sent(12, &[Unicode("è")])],
            At(R2, 3, 9, 12, 1);
        // constants, a default, keys and an identifier
        b"\xE0\x8E\x80\x90\x83\x90\x10\x00\x00\x00\x80", &[Sent(14, &[Number(7), Number(9), Number(3)]),
            Sent(14, &[Number(7), Absent, Number(3)]), Sent(14, &[Number(7), Absent, Number(3)])],
            At(D2, 4, 6, 14, 3);
        b"\xE0\x8F\x00\xE4\x83\x0A\xFF\x80\x81",
            &[Sent(15, &[Decimal(-2, 100), Bytes(b"\x0a\xff")]), Sent(15, &[Decimal(-2, 101), Bytes(b"\x0a\xff")])],
            Whole;
        b"\xF0\x87\x85\xC1\xB0\x86\xC1", &[Sent(7, &[Number(5), Text(b"A")]), Sent(7, &[Number(6), Text(b"A")])], Whole;
        b"\xE0\x90\x85\x86\xE0\x90\x87\x86", &[Sent(16, &[Number(5), Number(6)]), Sent(16, &[Number(7), Number(6)])],
            Whole;
    };
    all_read(&rt, rt.alloc(), ROWS)
}

// A group that may be absent, in one that may not.
const NEST: &str = r#"{"templates":[{"name":"Nest","id":1,"instructions":[
    {"kind":"group","name":"Outer","instructions":[{"kind":"group","name":"Inner","presence":"optional","instructions":[
      {"kind":"uInt32","name":"A","operator":"copy"}]}]}]}]}"#;

#[test]
fn a_group_in_a_group(rt: HostRuntime) -> Tried {
    const ROW: Row = Row {
        stream: b"\xC0\x81\xC0\xC0\x85\x80\xC0\x80\x80\xC0",
        want: &[
            Sent(1, &[Shown::GroupInGroup(&[5])]),
            Sent(1, &[Shown::GroupInGroup(&[5])]),
        ],
        end: At(Truncated, 3, 10, 1, 2),
    };
    let on = loaded(&rt, rt.alloc(), NEST)?;
    is_read(&rt, &on, PLAIN, &ROW)?;
    is_read(&rt, &on, STRICT, &ROW)
}

// A quote with this symbol but for its last letter, an A.
fn long_stream(alloc: Global, symbol: &[u8]) -> Tried<Vec<u8>> {
    let mut stream = Vec::new(alloc);
    stream.extend_from_slice(&[0xF0, 0x81, 0x81])?;
    stream.extend_from_slice(symbol)?;
    stream.extend_from_slice(&[0xC1, 0xFE, 0x00, 0xE4])?;
    Ok(stream)
}

// Its message, with the whole symbol.
fn long_message(alloc: Global, symbol: &[u8]) -> Tried<Message> {
    let mut whole = symbol.to_vec(alloc)?;
    whole.push(0x41)?;
    quote(alloc, &whole, -2, 100)
}

// So many zero groups and so many letters.
fn long_symbol(alloc: Global, zeros: usize, letters: usize) -> Tried<Vec<u8>> {
    let mut symbol = vec![in alloc; 0x00; zeros]?;
    symbol.extend_from_slice(&vec![in alloc; 0x41; letters]?)?;
    Ok(symbol)
}

// It is read, or refused with this fault, in reads of 4,096 bytes, with so many zero groups in front, so many letters and
// one more.
pub(crate) fn long(
    rt: &impl Abort,
    alloc: Global,
    mode: Mode,
    zeros: usize,
    letters: usize,
    fault: Option<Fault>,
) -> Tried {
    let symbol = long_symbol(alloc, zeros, letters)?;
    let stream = long_stream(alloc, &symbol)?;
    let on = worked(rt, alloc)?;
    let message = [long_message(alloc, &symbol)?];
    let want = Want(if fault.is_none() { &message } else { &[] }, fault);
    same(rt, both_read(&on, mode, &stream, 4096, want)?, true);
    Ok(())
}

#[test]
fn long_strings(rt: HostRuntime) -> Tried {
    long(&rt, rt.alloc(), PLAIN, 0, 65_534, None)?;
    let fault = At(Limit, 1, 3, 1, 2).fault();
    long(&rt, rt.alloc(), PLAIN, 0, 65_535, fault)?;
    // a preamble is no character
    long(&rt, rt.alloc(), PLAIN, 1, 65_535, fault)
}

#[test]
fn held_byte_by_byte(rt: HostRuntime) -> Tried {
    const STRING: &[Step] = list! {
        Byte(0xF0, 0), Byte(0x81, 0), Byte(0x81, 0), Byte(0x41, 1), Byte(0xC2, 0), Byte(0xFE, 1), Byte(0x00, 2),
        Byte(0xE4, 0)
    };
    const SEQUENCE: &[Step] = list! {
        Byte(0xC0, 0), Byte(0x85, 0), Byte(0x82, 0), Byte(0xC0, 0), Byte(0x85, 0), Byte(0x80, 0)
    };
    same(&rt, count(&rt, rt.alloc(), STRING)?, 1);
    same(&rt, count(&rt, rt.alloc(), SEQUENCE)?, 1);
    same(&rt, count(&rt, rt.alloc(), &[Byte(0x80, 0)])?, 0);
    Ok(())
}

// The messages of a delta of 65,535 bytes, of which the most are held while the last is missing.
fn held_most(rt: &impl Abort, on: &Loaded, part: &[u8]) -> Tried<usize> {
    const LENGTHS: &[u8] = b"\xC0\x81\0\0\0\0\0\0\0\0\0\x80\0\0\0\0\0\0\0\x03\x7F\xFF";
    let steps = list! {
        Feed(LENGTHS, Whole), Feed(part, Whole), Held(65_554), Fed(65_556), Feed(b"\x41", Whole), Held(0)
    };
    let slots = slots_of(on)?;
    let messages = follow(rt, on, PLAIN, slots, steps)?;
    Ok(messages.len())
}

#[test]
fn the_most_held(rt: HostRuntime) -> Tried {
    const RAW: &str = r#"{"templates":[{"name":"Raw","id":1,"instructions":[
        {"kind":"byteVector","name":"B","operator":"delta"}]}]}"#;
    let part = vec![in rt.alloc(); 0x41; 65_534]?;
    let on = loaded(&rt, rt.alloc(), RAW)?;
    same(&rt, held_most(&rt, &on, &part)?, 1);
    Ok(())
}

// A script's stream, step, call that fails and number of reads; and the ends that two calls tell over both kinds of entries.
struct Reading(&'static [u8], usize, u64, u64, End, End);

#[test]
fn failed_and_used_up_reads(rt: HostRuntime) -> Tried {
    const FAILED: End = At(Read, 1, 2, 1, 1);
    const USED_UP: End = At(Turns, 1, 2, 1, 1);
    const LATER: End = At(Turns, 2, 8, 0, 0);
    const ROWS: &[Reading] = rows! { Reading:
        b"\xF0\x81", 2, 2, 9, FAILED, FAILED;
        QUOTE, 1, 0, 2, USED_UP, USED_UP;
        // eight reads for a message, and one that meets the end
        QUOTE, 1, 0, 9, Whole, Whole;
        QUOTE, 1, 0, 8, Whole, LATER;
    };
    let on = worked(&rt, rt.alloc())?;
    for Reading(stream, step, fails, turns, first, second) in ROWS {
        let script = Script(stream, *step, *fails, *turns);
        let given = Given::Faults(first.fault(), second.fault());
        same(&rt, both_give(&on, PLAIN, script, given)?, true);
        same(&rt, both_give(&on, STRICT, script, given)?, true);
    }
    Ok(())
}

// A stream is refused, and another behind it, before the decoder begins again.
#[test]
fn reset(rt: HostRuntime) -> Tried {
    const STEPS: &[Step] = list! {
        Feed(b"\x80", At(D5, 1, 1, 0, 0)), Feed(QUOTE, At(D5, 1, 1, 0, 0)), Reset, Feed(QUOTE, Whole)
    };
    same(&rt, count(&rt, rt.alloc(), STEPS)?, 1);
    Ok(())
}
