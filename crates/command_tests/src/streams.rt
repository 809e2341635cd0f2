//! Worked streams through each command: what is written and answered, whatever a read gives.

use crate::base::*;
use crate::given::moded;
use crate::granted::answers;
use fast_canon::Summary;
use fast_command::run;
use fast_io::ByteOutput;
use fast_stream::Fault;
use stream_rows::cuts::{CUTS, Cut};
use stream_rows::ends::End;
use stream_rows::modes::{BLOCKS, in_each_mode};
use stream_rows::quotes::TWO;

/// A stream, how many messages it has, and what each command writes of it.
#[derive(Clone, Copy)]
pub(crate) struct Row {
    pub(crate) stream: &'static [u8],
    pub(crate) messages: u64,
    pub(crate) lines: &'static str,
    pub(crate) told: &'static str,
    pub(crate) canonical: &'static [u8],
}

/// A stream that is refused, and what is written of the messages before.
#[derive(Clone, Copy)]
pub(crate) struct Refusal {
    pub(crate) stream: &'static [u8],
    pub(crate) messages: u64,
    pub(crate) lines: &'static str,
    pub(crate) canonical: &'static [u8],
    pub(crate) cause: Cause,
    pub(crate) at: At,
}

/// The offset, the template and the instruction of a place.
#[derive(Clone, Copy)]
pub(crate) struct At(pub(crate) u64, pub(crate) u32, pub(crate) u32);

pub(crate) const QUOTE_LINE: &str = "1 Quote Seq=1 Sym=\"AB\" Px=100e-2 Qty=-\n";

pub(crate) const TWO_LINES: &str = "1 Quote Seq=1 Sym=\"AB\" Px=100e-2 Qty=-\n\
    1 Quote Seq=2 Sym=\"AB\" Px=101e-2 Qty=-\n";

const DELTAS: &[u8] = b"\xc0\x8a\x80\x47\x45\x48\xb6\x80\x82\x4d\xb6\x80\xfd\x45\xd3";

const DELTA_LINES: &str = "10 Delta S=\"GEH6\"\n10 Delta S=\"GEM6\"\n10 Delta S=\"ESM6\"\n";

pub(crate) const ROWS: &[Row] = rows! { Row { stream, messages, lines, told, canonical }:
    QUOTE, 1, QUOTE_LINE, "ok messages=1 bytes=8 canonical=8\n", QUOTE;
    TWO, 2, TWO_LINES, "ok messages=2 bytes=16 canonical=11\n", TWO_SHORT;
    TWO_SHORT, 2, TWO_LINES, "ok messages=2 bytes=11 canonical=11\n", TWO_SHORT;
    b"", 0, "", "ok messages=0 bytes=0 canonical=0\n", b"";
    // an integer that is longer than it must be
    b"\xf0\x81\x00\x00\x81\x41\xc2\xfe\x00\xe4", 1, QUOTE_LINE, "ok messages=1 bytes=10 canonical=8\n", QUOTE;
    DELTAS, 3, DELTA_LINES, "ok messages=3 bytes=15 canonical=15\n", DELTAS;
    // a delta that takes nothing away, by its longer spelling
    b"\xc0\x8a\x80\x47\x45\x48\xb6\x80\x82\x4d\xb6\x80\xfd\x45\xd3\x80\xff\x80", 4,
        "10 Delta S=\"GEH6\"\n10 Delta S=\"GEM6\"\n\
            10 Delta S=\"ESM6\"\n10 Delta S=\"ESM6\"\n", "ok messages=4 bytes=18 canonical=18\n",
        b"\xc0\x8a\x80\x47\x45\x48\xb6\x80\x82\x4d\xb6\x80\xfd\x45\xd3\x80\x80\x80";
    b"\xe0\x88\x78\x61\xe2\xa0\x00\x00\x00\xe2", 2, "8 Tail S=\"xab\"\n8 Tail S=\"x\\x00b\"\n",
        "ok messages=2 bytes=10 canonical=9\n", b"\xe0\x88\x78\x61\xe2\xa0\x78\x00\xe2";
    b"\xe0\x89\x80\xa0\x00\x80", 2, "9 Init S=-\n9 Init S=\"ab\"\n", "ok messages=2 bytes=6 canonical=5\n",
        b"\xe0\x89\x80\xa0\xe2";
    b"\xf0\x83\x80\x85\x90\x39\x45\xa3", 2, "3 Opt Px=- Flag=5\n3 Opt Px=942755e2 Flag=5\n",
        "ok messages=2 bytes=8 canonical=8\n", b"\xf0\x83\x80\x85\x90\x39\x45\xa3";
    b"\xf0\x83\x80\x85\xb0\x83\x39\x45\xa3", 2, "3 Opt Px=- Flag=5\n3 Opt Px=942755e2 Flag=5\n",
        "ok messages=2 bytes=9 canonical=8\n", b"\xf0\x83\x80\x85\x90\x39\x45\xa3";
    b"\xc0\x84\x80\x80\x81\x80\x83\x85\x86", 3, "4 Legs L=-\n4 Legs L=[]\n4 Legs L=[{P=5} {P=6}]\n",
        "ok messages=3 bytes=9 canonical=9\n", b"\xc0\x84\x80\x80\x81\x80\x83\x85\x86";
    b"\xc0\x85\x82\xc0\x85\x80", 1, "5 Marks L=[{Q=5} {Q=5}]\n", "ok messages=1 bytes=6 canonical=6\n",
        b"\xc0\x85\x82\xc0\x85\x80";
    b"\xf0\x87\x85\xc1\xb0\x86\xc1", 2, "7 Clash A=5 B=\"A\"\n7 Clash A=6 B=\"A\"\n",
        "ok messages=2 bytes=7 canonical=7\n", b"\xf0\x87\x85\xc1\xb0\x86\xc1";
    // a map that is longer than it must be, and one with a bit that no field asked for
    b"\x70\x00\x80\x81\x81\x41\xc2\xfe\x00\xe4", 1, QUOTE_LINE, "ok messages=1 bytes=10 canonical=8\n", QUOTE;
    b"\xf1\x81\x81\x41\xc2\xfe\x00\xe4", 1, QUOTE_LINE, "ok messages=1 bytes=8 canonical=8\n", QUOTE;
    b"\xe0\x90\x85\x86\xe0\x90\x87\x86", 2, "16 First A=5 B=6\n16 First A=7 B=6\n",
        "ok messages=2 bytes=8 canonical=6\n", b"\xe0\x90\x85\x86\x80\x87";
    b"\xf0\x8b\xc0\x85\x86\x80\xa0\x80", 3, "11 Grp Hd={A=5} B=6\n11 Grp Hd=- B=6\n11 Grp Hd={A=5} B=6\n",
        "ok messages=3 bytes=8 canonical=8\n", b"\xf0\x8b\xc0\x85\x86\x80\xa0\x80";
    b"\xe0\x8f\x00\xe4\x83\x0a\xff\x80\x81", 2, "15 Fixed Px=100e-2 Raw=x0aff\n15 Fixed Px=101e-2 Raw=x0aff\n",
        "ok messages=2 bytes=9 canonical=9\n", b"\xe0\x8f\x00\xe4\x83\x0a\xff\x80\x81";
};

pub(crate) const REFUSALS: &[Refusal] =
    rows! { Refusal { stream, messages, lines, canonical, cause, at }:
    b"\x80", 0, "", b"", Cause::D5, At(1, 0, 0);
    b"\xc0\xe4", 0, "", b"", Cause::D9, At(1, 0, 0);
    b"\xc0\x8a\x80\x47\x45\x48\xb6\x80\x82\x4d\xb6\x80\xfd\x45\xd3\x80\x85\x80", 3, DELTA_LINES, DELTAS, Cause::D7,
        At(16, 10, 1);
    b"\xe0\x82\x0f\x7f\x7f\x7f\xff\x0f\x7f\x7f\x7f\xff\x80\x80\x80\x81", 2,
        "2 Wrap A=4294967295 B=4294967295\n2 Wrap A=0 B=4294967295\n",
        b"\xe0\x82\x0f\x7f\x7f\x7f\xff\x0f\x7f\x7f\x7f\xff\x80\x80", Cause::D2, At(15, 2, 2);
    b"\xc0\x84\x04\x00\x81", 0, "", b"", Cause::Limit, At(2, 4, 1);
    b"\xf0\x87\x85\xc1\x80", 1, "7 Clash A=5 B=\"A\"\n", b"\xf0\x87\x85\xc1", Cause::D4, At(5, 7, 1);
    b"\xe0\x8c\x82\xc3\xa9\xa0\x81\xa8\xa0\x81\x41", 2, "12 Uni S=\"\\xc3\\xa9\"\n12 Uni S=\"\\xc3\\xa8\"\n",
        b"\xe0\x8c\x82\xc3\xa9\xa0\x81\xa8", Cause::R2, At(9, 12, 1);
    b"\xc0\x8d\x85", 0, "", b"", Cause::D6, At(2, 13, 2);
    b"\xe0\x8e\x80\x90\x83\x90\x10\x00\x00\x00\x80", 3,
        "14 Const K=7 O=9 D=3\n14 Const K=7 O=- D=3\n14 Const K=7 O=- D=3\n", b"\xe0\x8e\x80\x80", Cause::D2,
        At(6, 14, 3);
    b"\xf0\x81\x81\x41\xc2\x00\xc0", 0, "", b"", Cause::R1, At(5, 1, 3);
    b"\xf0\x81\x81\x41\xc2\xc0", 0, "", b"", Cause::R1, At(5, 1, 3);
    b"\xf0\x81\0\0\0\0\0\0\0\0\0\0", 0, "", b"", Cause::Limit, At(2, 1, 1);
    b"\xf0\x81\0\0\0\0\0\0\0\0\0", 0, "", b"", Cause::Truncated, At(2, 1, 1);
};

pub(crate) fn counted(messages: u64, read: usize, written: usize) -> Answer {
    Ok(Summary {
        messages,
        read: read as u64,
        written: written as u64,
    })
}

pub(crate) fn refused(cause: Cause, message: u64, at: At) -> Answer {
    stopped(End::At(cause, message, at.0, at.1, at.2).fault())
}

/// What a command answers over a writer.
pub(crate) fn play(on: &Loaded, given: Given, writer: &mut impl ByteOutput) -> Answer {
    let (alloc, set, command) = (on.alloc, &on.set, given.command);
    let (mode, form) = (given.mode, given.form);
    let turns = given.turns.min(1_000_000);
    let reader = &mut Counted::new(given.reader());
    run(alloc, command, set, mode, form, reader, writer, turns)
}

/// A command writes this of a stream into a writer, and answers this.
fn gives_into(
    rt: &impl Abort,
    on: &Loaded,
    given: Given,
    mut out: ScriptOutput,
    written: &[u8],
    answer: Answer,
) -> Tried {
    let got = play(on, given, &mut Counted::new(&mut out));
    answers(rt, got, answer, out.bytes(), written)
}

/// A command writes this of a stream, and answers this.
pub(crate) fn gives(rt: &impl Abort, on: &Loaded, given: Given, out: &[u8], want: Answer) -> Tried {
    let writer = ScriptOutput::new(on.alloc, 1_000_000, false, false);
    gives_into(rt, on, given, writer, out, want)
}

/// What the commands write of a stream and answer: its lines, what is told, and its canonical bytes.
#[derive(Clone, Copy)]
pub(crate) struct Made<'a> {
    pub(crate) lines: &'a [u8],
    pub(crate) told: &'a [u8],
    pub(crate) canonical: &'a [u8],
    pub(crate) shown: Answer,
    // by `check`, and by `canon`
    pub(crate) counted: Answer,
}

/// What each command makes of a stream.
pub(crate) fn makes(rt: &impl Abort, on: &Loaded, given: Given, made: Made) -> Tried {
    gives(rt, on, given.to(Command::Show), made.lines, made.shown)?;
    gives(rt, on, given.to(Command::Check), made.told, made.counted)?;
    let canon = given.to(Command::Canon);
    gives(rt, on, canon, made.canonical, made.counted)
}

/// What is made of a stream of so many messages and bytes that ends: lines, what is told, and canonical bytes.
pub(crate) fn made_of(messages: u64, read: usize, texts: [&[u8]; 3]) -> Made<'_> {
    let [lines, told, canonical] = texts;
    Made {
        lines,
        told,
        canonical,
        shown: counted(messages, read, lines.len()),
        counted: counted(messages, read, canonical.len()),
    }
}

/// What each command makes of a stream that ends, in steps of one size.
pub(crate) fn ends(rt: &impl Abort, on: &Loaded, mode: Mode, row: &Row, step: usize) -> Tried {
    let texts = [row.lines.as_bytes(), row.told.as_bytes(), row.canonical];
    let made = made_of(row.messages, row.stream.len(), texts);
    makes(rt, on, in_mode(mode, row.stream, step), made)
}

/// What each command makes of streams of the worked templates that end, in steps of several sizes.
pub(crate) fn all_end(rt: &impl Abort, alloc: Global, mode: Mode, rows: &[Row]) -> Tried {
    let on = worked(rt, alloc)?;
    for row in rows {
        ends(rt, &on, mode, row, 1)?;
        ends(rt, &on, mode, row, 2)?;
        ends(rt, &on, mode, row, 4096)?;
    }
    Ok(())
}

#[test]
fn worked_streams_end(rt: HostRuntime) -> Tried {
    all_end(&rt, rt.alloc(), PLAIN, ROWS)
}

/// What is made of a stream that is refused.
pub(crate) fn made_before<'a>(lines: &'a [u8], canonical: &'a [u8], answer: Answer) -> Made<'a> {
    Made {
        lines,
        told: b"",
        canonical,
        shown: answer,
        counted: answer,
    }
}

/// What each command makes of a stream that is refused, in steps of one size.
pub(crate) fn stops(rt: &impl Abort, on: &Loaded, mode: Mode, row: &Refusal, step: usize) -> Tried {
    let answer = refused(row.cause, row.messages.saturating_add(1), row.at);
    let made = made_before(row.lines.as_bytes(), row.canonical, answer);
    makes(rt, on, in_mode(mode, row.stream, step), made)
}

/// What each command makes of streams of the worked templates that are refused, in steps of several sizes.
pub(crate) fn all_stop(rt: &impl Abort, alloc: Global, mode: Mode, rows: &[Refusal]) -> Tried {
    let on = worked(rt, alloc)?;
    for row in rows {
        stops(rt, &on, mode, row, 1)?;
        stops(rt, &on, mode, row, 2)?;
        stops(rt, &on, mode, row, 4096)?;
    }
    Ok(())
}

#[test]
fn worked_streams_are_refused(rt: HostRuntime) -> Tried {
    all_stop(&rt, rt.alloc(), PLAIN, REFUSALS)
}

/// The answer to a stream that is refused.
pub(crate) fn stopped(fault: Option<Fault>) -> Answer {
    match fault {
        Some(fault) => Err(CanonFault::Stream(fault)),
        None => counted(0, 0, 0),
    }
}

/// What each command makes of a reader that fails where it is to give the byte behind so many of a stream.
fn fails_behind(rt: &impl Abort, on: &Loaded, row: &Cut, stream: &InMode, count: usize) -> Tried {
    let front = row.front(count);
    let lines = &row.lines.as_bytes()[..front.line_bytes.min(row.lines.len())];
    let canonical = &row.stream[..front.bytes.min(row.stream.len())];
    let answer = stopped(stream.moved(front.unread()));
    let call = stream.front.saturating_add(count).saturating_add(1) as u64;
    let made = made_before(lines, canonical, answer);
    makes(rt, on, moded(stream, 1).failing(call), made)
}

#[test]
fn a_read_fails(rt: HostRuntime) -> Tried {
    let on = worked(&rt, rt.alloc())?;
    for row in CUTS {
        // behind each number of bytes, in each mode
        let is_refused = row.front(row.missing.len()).truncated().is_some();
        for stream in &in_each_mode(rt.alloc(), row.stream, is_refused)? {
            for count in 0..=row.missing.len() {
                fails_behind(&rt, &on, row, stream, count)?;
            }
        }
    }
    // before the size of a block
    let made = made_before(b"", b"", refused(Cause::Read, 1, At(0, 0, 0)));
    makes(&rt, &on, in_mode(BLOCKS, b"\x88", 1).failing(1), made)
}

/// What each command makes of a stream that is cut behind so many of its bytes, in each mode, whole and byte by byte.
fn is_cut(rt: &impl Abort, on: &Loaded, row: &Cut, count: usize) -> Tried {
    let front = row.front(count);
    let lines = &row.lines.as_bytes()[..front.line_bytes.min(row.lines.len())];
    let canonical = &row.stream[..front.bytes.min(row.stream.len())];
    let stream = &row.stream[..count.min(row.stream.len())];
    for given in &in_each_mode(on.alloc, stream, front.truncated().is_some())? {
        let read = given.stream.len();
        let told = told(on.alloc, front.messages, read, canonical.len())?;
        let made = match given.moved(front.truncated()) {
            Some(fault) => made_before(lines, canonical, Err(CanonFault::Stream(fault))),
            None => made_of(front.messages, read, [lines, told.as_bytes(), canonical]),
        };
        makes(rt, on, moded(given, 1), made)?;
        makes(rt, on, moded(given, 4096), made)?;
    }
    Ok(())
}

#[test]
fn a_stream_is_cut(rt: HostRuntime) -> Tried {
    let on = worked(&rt, rt.alloc())?;
    for row in CUTS {
        for count in 1..=row.missing.len() {
            is_cut(&rt, &on, row, count)?;
        }
    }
    Ok(())
}

/// A writer for the two quotes fails behind these bytes, or takes all that a command writes.
fn breaks_at(
    rt: &impl Abort,
    on: &Loaded,
    given: Given,
    (whole, answer): (&[u8], Answer),
    out: ScriptOutput,
    room: usize,
) -> Tried {
    let written = &whole[..room.min(whole.len())];
    let fault = Err(CanonFault::Write);
    let answer = if room > whole.len() { answer } else { fault };
    gives_into(rt, on, given, out, written, answer)
}

/// A writer that fails behind each number of bytes, one with room for all of them, one that takes none, and one that
/// fails at the flush.
fn breaks(rt: &impl Abort, on: &Loaded, given: Given, whole: (&[u8], Answer)) -> Tried {
    let size = whole.0.len();
    for room in 0..size {
        let out = ScriptOutput::new(on.alloc, room as u64, false, false);
        breaks_at(rt, on, given, whole, out, room)?;
    }
    let full = ScriptOutput::new(on.alloc, size as u64, false, false);
    breaks_at(rt, on, given, whole, full, usize::MAX)?;
    let none = ScriptOutput::new(on.alloc, 0, true, false);
    breaks_at(rt, on, given, whole, none, 0)?;
    let unflushed = ScriptOutput::new(on.alloc, size as u64, false, true);
    breaks_at(rt, on, given, whole, unflushed, size)
}

/// Each command of the two quotes, in one mode.
fn each_breaks(rt: &impl Abort, on: &Loaded, stream: &InMode) -> Tried {
    let (given, read) = (moded(stream, 4096), stream.stream.len());
    let told = told(on.alloc, 2, read, 11)?;
    let shown = counted(2, read, TWO_LINES.len());
    breaks(rt, on, given, (TWO_LINES.as_bytes(), shown))?;
    let check = given.to(Command::Check);
    breaks(rt, on, check, (told.as_bytes(), counted(2, read, 11)))?;
    let canon = given.to(Command::Canon);
    breaks(rt, on, canon, (TWO_SHORT, counted(2, read, 11)))
}

#[test]
fn a_write_fails(rt: HostRuntime) -> Tried {
    let on = worked(&rt, rt.alloc())?;
    for given in &in_each_mode(rt.alloc(), TWO, false)? {
        each_breaks(&rt, &on, given)?;
    }
    Ok(())
}

/// A command that has nothing to write, and a flush that fails.
struct Unflushed(Command, &'static [u8]);

#[test]
fn a_flush_fails(rt: HostRuntime) -> Tried {
    const ROWS: &[Unflushed] = rows! { Unflushed:
        Command::Show, b"";
        Command::Canon, b"";
        // a refused stream
        Command::Show, b"\x80";
        Command::Check, b"\x80";
        Command::Canon, b"\x80";
    };
    let on = worked(&rt, rt.alloc())?;
    for Unflushed(command, stream) in ROWS {
        let out = ScriptOutput::new(rt.alloc(), 9, false, true);
        let (given, answer) = (plainly(stream, 1).to(*command), Err(CanonFault::Write));
        gives_into(&rt, &on, given, out, b"", answer)?;
    }
    Ok(())
}

/// A command of the first quote, one byte a read, and at most so many reads.
#[test]
fn reads_are_used_up(rt: HostRuntime) -> Tried {
    const TOLD: &[u8] = b"ok messages=1 bytes=8 canonical=8\n";
    let on = worked(&rt, rt.alloc())?;
    let two = plainly(QUOTE, 1).turns(2);
    let turns = refused(Cause::Turns, 1, At(2, 1, 1));
    gives(&rt, &on, two.to(Command::Show), b"", turns)?;
    gives(&rt, &on, two.to(Command::Check), b"", turns)?;
    gives(&rt, &on, two.to(Command::Canon), b"", turns)?;
    let nine = plainly(QUOTE, 1).turns(9);
    let (line, whole) = (QUOTE_LINE.as_bytes(), counted(1, 8, 8));
    let shown = counted(1, 8, line.len());
    gives(&rt, &on, nine.to(Command::Show), line, shown)?;
    gives(&rt, &on, nine.to(Command::Check), TOLD, whole)?;
    gives(&rt, &on, nine.to(Command::Canon), QUOTE, whole)
}

/// What `show` answers of a stream, and how what it writes begins and ends.
fn shows_between(
    rt: &impl Abort,
    on: &Loaded,
    stream: &[u8],
    answer: Answer,
    (first, last): (&[u8], &[u8]),
) -> Tried {
    let mut out = ScriptOutput::new(on.alloc, 1_000_000, false, false);
    let given = plainly(stream, 4096).turns(100);
    let got = play(on, given, &mut Counted::new(&mut out));
    answers(rt, got, answer, b"", b"")?;
    same(rt, out.bytes().starts_with(first), true);
    same(rt, out.bytes().ends_with(last), true);
    Ok(())
}

#[test]
fn a_long_stream(rt: HostRuntime) -> Tried {
    let stream = stream_of(rt.alloc(), MANY)?;
    let on = worked(&rt, rt.alloc())?;
    let last = b"\n1 Quote Seq=10001 Sym=\"AB\" Px=10100e-2 Qty=-\n";
    let shown = counted(10_001, 30_008, 428_139);
    shows_between(&rt, &on, &stream, shown, (QUOTE_LINE.as_bytes(), last))?;
    let told = b"ok messages=10001 bytes=30008 canonical=30008\n";
    let (given, answer) = (plainly(&stream, 4096), counted(10_001, 30_008, 30_008));
    gives(&rt, &on, given.to(Command::Check), told, answer)?;
    gives(&rt, &on, given.to(Command::Canon), &stream, answer)
}

// As many elements as there may be, each empty: the line has three bytes for each but the first.
#[test]
fn a_long_line(rt: HostRuntime) -> Tried {
    let on = worked(&rt, rt.alloc())?;
    let stream = b"\xc0\x86\x03\x7f\xff";
    let ends: (&[u8], &[u8]) = (b"6 Bare L=[{} {} {} ", b" {} {}]\n");
    shows_between(&rt, &on, stream, counted(1, 5, 196_616), ends)?;
    let (told, answer) = (b"ok messages=1 bytes=5 canonical=5\n", counted(1, 5, 5));
    let check = plainly(stream, 1).to(Command::Check);
    gives(&rt, &on, check, told, answer)?;
    let canon = plainly(stream, 2).to(Command::Canon);
    gives(&rt, &on, canon, stream, answer)
}
