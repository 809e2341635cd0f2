//! Streams that are canonicalised and checked.

use crate::base::*;
use crate::given::moded;
use crate::granted::answers;
use crate::streams::{ROWS, refused};
use fast_canon::{canonicalise, check};
use fast_stream::Fault;
use stream_rows::cuts::{CUTS, Cut};
use stream_rows::long::{LONG, LONG_BARE, LONG_SEQUENCES, Long};
use stream_rows::modes::in_each_mode;
use stream_rows::quotes::TWO;
use template_tests::texts::BARE;

fn checked(on: &Loaded, given: Given) -> Answer {
    let mut reader = Counted::new(given.reader());
    let turns = given.turns.min(100);
    check(on.alloc, &on.set, given.mode, &mut reader, turns)
}

fn canonical(on: &Loaded, given: Given, out: &mut ScriptOutput) -> Answer {
    let mut reader = Counted::new(given.reader());
    let mut writer = Counted::new(out);
    canonicalise(on.alloc, &on.set, given.mode, &mut reader, &mut writer, 100)
}

// A stream is canonicalised into a writer as these bytes, with this answer.
fn is_canonicalised(
    rt: &impl Abort,
    on: &Loaded,
    given: Given,
    mut out: ScriptOutput,
    written: &[u8],
    answer: Answer,
) -> Tried {
    let got = canonical(on, given, &mut out);
    answers(rt, got, answer, out.bytes(), written)
}

// A stream, how much of it one read gives, what is written, and what is counted: messages, bytes read, bytes written.
struct Row(&'static [u8], usize, &'static [u8], u64, usize, usize);

// A stream gives these canonical bytes and this answer, of `check` too.
fn gives(rt: &impl Abort, on: &Loaded, given: Given, written: &[u8], answer: Answer) -> Tried {
    let out = ScriptOutput::new(on.alloc, 100_000, false, false);
    is_canonicalised(rt, on, given, out, written, answer)?;
    answers(rt, checked(on, given), answer, b"", b"")
}

#[test]
fn streams_to_their_end(rt: HostRuntime) -> Tried {
    const GIVEN: &[Row] = rows! { Row:
        TWO, 1, TWO_SHORT, 2, 16, 11;
        TWO, 3, TWO_SHORT, 2, 16, 11;
        TWO, 4096, TWO_SHORT, 2, 16, 11;
        TWO_SHORT, 2, TWO_SHORT, 2, 11, 11;
        b"", 1, b"", 0, 0, 0;
    };
    let on = worked(&rt, rt.alloc())?;
    for Row(stream, step, written, messages, read, out) in GIVEN {
        let answer = counted(*messages, *read, *out);
        gives(&rt, &on, plainly(stream, *step), written, answer)?;
    }
    Ok(())
}

#[test]
fn streams_that_are_refused(rt: HostRuntime) -> Tried {
    let on = worked(&rt, rt.alloc())?;
    let first = refused(Cause::D5, 1, At(1, 0, 0));
    gives(&rt, &on, plainly(&[0x80], 1), &[], first)?;
    // what was read before the fault is written; the bytes of the message that is open are not
    let second = refused(Cause::Truncated, 2, At(13, 1, 3));
    gives(&rt, &on, plainly(&TWO[..14], 3), &TWO_SHORT[..8], second)
}

// A writer for two quotes fails behind each number of bytes; it has room for all of them; it takes none; it fails at the
// flush.
fn breaks(rt: &impl Abort, on: &Loaded, given: Given) -> Tried {
    const WRITE: Answer = Err(CanonFault::Write);
    for room in 0..11 {
        let out = ScriptOutput::new(on.alloc, room as u64, false, false);
        is_canonicalised(rt, on, given, out, &TWO_SHORT[..room], WRITE)?;
    }
    let full = ScriptOutput::new(on.alloc, 11, false, false);
    let counted = counted(2, given.stream.len(), 11);
    is_canonicalised(rt, on, given, full, TWO_SHORT, counted)?;
    let none = ScriptOutput::new(on.alloc, 0, true, false);
    is_canonicalised(rt, on, given, none, b"", WRITE)?;
    let unflushed = ScriptOutput::new(on.alloc, 11, false, true);
    is_canonicalised(rt, on, given, unflushed, TWO_SHORT, WRITE)
}

#[test]
fn a_writer_that_fails(rt: HostRuntime) -> Tried {
    let on = worked(&rt, rt.alloc())?;
    for stream in &in_each_mode(rt.alloc(), TWO, false)? {
        breaks(&rt, &on, moded(stream, 4096))?;
    }
    Ok(())
}

// A reader, one byte a read, that fails where it is to give the byte behind so many of a stream.
fn fails_behind(rt: &impl Abort, on: &Loaded, row: &Cut, stream: &InMode, count: usize) -> Tried {
    let front = row.front(count);
    let written = &row.stream[..front.bytes.min(row.stream.len())];
    let call = stream.front.saturating_add(count).saturating_add(1) as u64;
    let answer = match stream.moved(front.unread()) {
        Some(fault) => Err(CanonFault::Stream(fault)),
        None => Err(CanonFault::Memory),
    };
    gives(rt, on, moded(stream, 1).failing(call), written, answer)
}

#[test]
fn a_reader_that_fails(rt: HostRuntime) -> Tried {
    let on = worked(&rt, rt.alloc())?;
    for row in CUTS {
        let is_refused = row.front(row.missing.len()).truncated().is_some();
        for stream in &in_each_mode(rt.alloc(), row.stream, is_refused)? {
            for count in 0..=row.missing.len() {
                fails_behind(&rt, &on, row, stream, count)?;
            }
        }
    }
    Ok(())
}

#[test]
fn reads_that_are_used_up(rt: HostRuntime) -> Tried {
    let on = worked(&rt, rt.alloc())?;
    let turns = refused(Cause::Turns, 2, At(8, 0, 0));
    answers(&rt, checked(&on, plainly(TWO, 4).turns(2)), turns, b"", b"")
}

// A stream of so many messages that is canonical itself, or is refused with nothing before.
fn stays(rt: &impl Abort, on: &Loaded, plain: &[u8], messages: u64, fault: Option<Fault>) -> Tried {
    for stream in &in_each_mode(on.alloc, plain, fault.is_some())? {
        let (written, answer) = match stream.moved(fault) {
            Some(fault) => (b"".as_slice(), Err(CanonFault::Stream(fault))),
            None => (plain, counted(messages, stream.stream.len(), plain.len())),
        };
        gives(rt, on, moded(stream, 4096), written, answer)?;
    }
    Ok(())
}

// The same of each stream of the templates of a text.
fn all_stay(rt: &impl Abort, alloc: Global, text: &str, rows: &[Long]) -> Tried {
    let on = loaded(rt, alloc, text)?;
    for row in rows {
        let plain = stream_of(alloc, row.pieces)?;
        let messages = row.want.len() as u64;
        stays(rt, &on, &plain, messages, row.end.fault())?;
    }
    Ok(())
}

#[test]
fn long_streams(rt: HostRuntime) -> Tried {
    all_stay(&rt, rt.alloc(), WORKED, LONG)
}

#[test]
fn long_streams_of_elements(rt: HostRuntime) -> Tried {
    all_stay(&rt, rt.alloc(), WORKED, LONG_SEQUENCES)
}

#[test]
fn long_streams_of_empty_elements(rt: HostRuntime) -> Tried {
    all_stay(&rt, rt.alloc(), BARE, LONG_BARE)
}

#[test]
fn long_streams_of_many_messages(rt: HostRuntime) -> Tried {
    let on = worked(&rt, rt.alloc())?;
    let stream = stream_of(rt.alloc(), MANY)?;
    stays(&rt, &on, &stream, 10_001, None)
}

// Streams that are longer than their canonical bytes, and two that are as long and not the same.
#[test]
fn no_stream_is_shorter(rt: HostRuntime) -> Tried {
    let on = worked(&rt, rt.alloc())?;
    for row in ROWS {
        let answer = counted(row.messages, row.stream.len(), row.canonical.len());
        gives(&rt, &on, plainly(row.stream, 4), row.canonical, answer)?;
    }
    Ok(())
}
