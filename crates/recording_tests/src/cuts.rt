//! Recordings in reads of each length, that end behind each of their bytes, and over devices that fail.

use crate::runs::{Answer, Call, Given, SHOW, counted, gives, loaded, refused, usually};
use fast_stream::{Cause, Fault};
use std::alloc::Global;
use std::process::Abort;
use stream_rows::cuts::{CUTS, Cut, Front};
use template_tests::loaded::Loaded;
use template_tests::texts::WORKED;
use test_rows::{Tried, rows};

// A packet of so many bytes, of which these have come.
fn packet(alloc: Global, size: usize, stream: &[u8]) -> Tried<Vec<u8>> {
    let mut bytes = Vec::new(alloc);
    bytes.push(0x80 | (size % 128) as u8)?;
    bytes.extend_from_slice(stream)?;
    Ok(bytes)
}

// A fault of the first packet, whose stream stands behind one byte.
fn first(fault: Fault, cause: Cause) -> Answer {
    let place = fault.place;
    let offset = place.offset.saturating_add(1);
    let at = (offset, place.template, place.instruction);
    refused(cause, 1, place.message, at)
}

// The first packet is refused where its stream goes on behind this front.
fn missing(front: Front, cause: Cause) -> Answer {
    match front.unread() {
        Some(fault) => first(fault, cause),
        None => refused(cause, 1, 1, (1, 0, 0)),
    }
}

// What is shown of a recording, and its canonical bytes, with these answers.
fn both_give(
    rt: &impl Abort,
    on: &Loaded,
    given: Given,
    (shown, lines): (Answer, &[u8]),
    (made, canonical): (Answer, &[u8]),
) -> Tried {
    gives(rt, on, SHOW, given, shown, lines, "")?;
    gives(rt, on, Call::Canon, given, made, canonical, "")
}

// What is whole in a packet of the first bytes of a stream, and what is not.
fn is_cut(rt: &impl Abort, on: &Loaded, cut: &Cut, count: usize, step: usize) -> Tried {
    let front = cut.front(count);
    let stream = &cut.stream[..count.min(cut.stream.len())];
    let lines = &cut.lines.as_bytes()[..front.line_bytes.min(cut.lines.len())];
    // the packet ends there
    if count > 0 {
        let bytes = packet(on.alloc, count, stream)?;
        let given = usually(&bytes).in_steps(step);
        match front.truncated() {
            None => {
                let (counts, read) = ((1, 0, front.messages), bytes.len() as u64);
                let shown = counted(counts, read, lines.len() as u64);
                let made = counted(counts, read, read);
                both_give(rt, on, given, (shown, lines), (made, &bytes))?;
            }
            Some(fault) => {
                let end = first(fault, Cause::BlockEnd);
                both_give(rt, on, given, (end, lines), (end, b""))?;
            }
        }
    }
    // the recording does
    let bytes = packet(on.alloc, count.saturating_add(1), stream)?;
    let given = usually(&bytes).in_steps(step);
    let end = missing(front, Cause::Truncated);
    both_give(rt, on, given, (end, lines), (end, b""))
}

#[test]
fn each_cut_of_each_stream(rt: HostRuntime) -> Tried {
    let on = loaded(&rt, rt.alloc(), WORKED)?;
    for cut in CUTS {
        for count in 0..cut.stream.len() + 1 {
            is_cut(&rt, &on, cut, count, 1)?;
            is_cut(&rt, &on, cut, count, 4096)?;
        }
    }
    Ok(())
}

const TWO: &[u8] =
    b"\x8b\xf0\x81\x81\x41\xc2\xfe\x00\xe4\x80\x80\x81\x00\x88\xf0\x81\x81\x41\xc2\xfe\x00\xe4";

const TWO_CANONICAL: &[u8] =
    b"\x8b\xf0\x81\x81\x41\xc2\xfe\x00\xe4\x80\x80\x81\x88\xf0\x81\x81\x41\xc2\xfe\x00\xe4";

#[test]
fn reads_of_each_length(rt: HostRuntime) -> Tried {
    let on = loaded(&rt, rt.alloc(), WORKED)?;
    let counts = counted((2, 0, 3), 22, 21);
    for step in 1..TWO.len() + 1 {
        let given = usually(TWO).in_steps(step);
        gives(&rt, &on, Call::Canon, given, counts, TWO_CANONICAL, "")?;
    }
    Ok(())
}

// Reads of one byte, of which one fails, or which are used up.
#[test]
fn devices_that_fail(rt: HostRuntime) -> Tried {
    // how many reads go well; the packet, the message and the place; and the bytes of lines that are shown
    const ROWS: &[(u64, u64, u64, (u64, u32, u32), usize)] = rows! {
        // before the first size; behind it; in a field; between two messages; behind the packet; in the second size
        0, 1, 1, (0, 0, 0), 0;
        1, 1, 1, (1, 0, 0), 0;
        7, 1, 1, (6, 1, 3), 0;
        9, 1, 2, (9, 0, 0), 39;
        12, 2, 1, (12, 0, 0), 78;
        13, 2, 1, (12, 0, 0), 78;
        14, 2, 1, (14, 0, 0), 78;
    };
    let on = loaded(&rt, rt.alloc(), WORKED)?;
    let lines =
        b"1 Quote Seq=1 Sym=\"AB\" Px=100e-2 Qty=-\n1 Quote Seq=2 Sym=\"AB\" Px=101e-2 Qty=-\n";
    for (reads, packet, message, at, shown) in ROWS {
        let shown = &lines[..(*shown).min(lines.len())];
        let failing = usually(TWO).that_fails(reads.saturating_add(1));
        let unread = refused(Cause::Read, *packet, *message, *at);
        gives(&rt, &on, SHOW, failing, unread, shown, "")?;
        let mut few = usually(TWO).in_steps(1);
        few.turns = *reads;
        let unread = refused(Cause::Turns, *packet, *message, *at);
        gives(&rt, &on, SHOW, few, unread, shown, "")?;
    }
    Ok(())
}
