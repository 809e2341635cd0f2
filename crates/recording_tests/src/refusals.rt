//! Recordings that are refused, at their first refusal.

use crate::runs::{Call, SHOW, at_level, gives, loaded, refused};
use fast_stream::Cause;
use fast_wire::Level;
use std::process::Abort;
use template_tests::loaded::Loaded;
use template_tests::texts::WORKED;
use test_rows::{Tried, rows};

pub(crate) const QUOTE_LINE: &str = "1 Quote Seq=1 Sym=\"AB\" Px=100e-2 Qty=-\n";

// A recording that is refused: the packet, the message in it, the offset in the recording, template and instruction; the
// lines of the messages before, and the canonical bytes of the packets before.
struct Refused {
    bytes: &'static [u8],
    cause: Cause,
    packet: u64,
    message: u64,
    at: (u64, u32, u32),
    lines: &'static str,
    canonical: &'static [u8],
}

fn all_refuse(rt: &impl Abort, on: &Loaded, level: Level, rows: &[Refused]) -> Tried {
    for row in rows {
        let given = at_level(level, false, row.bytes);
        let answer = refused(row.cause, row.packet, row.message, row.at);
        gives(rt, on, SHOW, given, answer, row.lines.as_bytes(), "")?;
        gives(rt, on, Call::Check, given, answer, b"", "")?;
        gives(rt, on, Call::Canon, given, answer, row.canonical, "")?;
    }
    Ok(())
}

#[test]
fn sizes_that_are_refused(rt: HostRuntime) -> Tried {
    const USUALLY: &[Refused] = rows! {
        Refused { bytes, cause, packet, message, at, lines, canonical }:
        b"\x80", Cause::D12, 1, 1, (0, 0, 0), "", b"";
        b"\x00\x80\x81", Cause::D12, 1, 1, (0, 0, 0), "", b"";
        b"\x00", Cause::Truncated, 1, 1, (0, 0, 0), "", b"";
        // 65,536
        b"\x04\x00\x80\xf0", Cause::Limit, 1, 1, (0, 0, 0), "", b"";
        // ten groups, and none of them is the last
        b"\x00\x00\x00\x00\x00\x00\x00\x00\x00\x00", Cause::Limit, 1, 1, (0, 0, 0), "", b"";
        b"\x88\xf0\x81\x81\x41\xc2\xfe\x00\xe4\x80", Cause::D12, 2, 1, (9, 0, 0), QUOTE_LINE,
            b"\x88\xf0\x81\x81\x41\xc2\xfe\x00\xe4";
        b"\x88\xf0\x81\x81\x41\xc2\xfe\x00\xe4\x01", Cause::Truncated, 2, 1, (9, 0, 0), QUOTE_LINE,
            b"\x88\xf0\x81\x81\x41\xc2\xfe\x00\xe4";
    };
    const STRICTLY: &[Refused] = rows! {
        Refused { bytes, cause, packet, message, at, lines, canonical }:
        b"\x00\x88\xf0\x81\x81\x41\xc2\xfe\x00\xe4", Cause::R6, 1, 1, (0, 0, 0), "", b"";
        b"\x00\x80", Cause::R6, 1, 1, (0, 0, 0), "", b"";
        b"\x00\x04\x00\x80", Cause::R6, 1, 1, (0, 0, 0), "", b"";
    };
    let on = loaded(&rt, rt.alloc(), WORKED)?;
    all_refuse(&rt, &on, Level::Usual, USUALLY)?;
    all_refuse(&rt, &on, Level::Strict, STRICTLY)
}

#[test]
fn packets_that_are_refused(rt: HostRuntime) -> Tried {
    const ROWS: &[Refused] = rows! {
        Refused { bytes, cause, packet, message, at, lines, canonical }:
        // the packet ends inside a message
        b"\x87\xf0\x81\x81\x41\xc2\xfe\x00\xe4", Cause::BlockEnd, 1, 1, (6, 1, 3), "", b"";
        b"\x88\xf0\x81\x81\x41\xc2\xfe\x00\xe4\x81\xc0\x88", Cause::BlockEnd, 2, 1, (11, 0, 0), QUOTE_LINE,
            b"\x88\xf0\x81\x81\x41\xc2\xfe\x00\xe4";
        // the recording ends inside a packet, and in a message of it or between two
        b"\x88\xf0\x81\x81\x41\xc2\xfe\x00", Cause::Truncated, 1, 1, (6, 1, 3), "", b"";
        b"\x89\xf0\x81\x81\x41\xc2\xfe\x00\xe4", Cause::Truncated, 1, 2, (9, 0, 0), QUOTE_LINE, b"";
        b"\x88", Cause::Truncated, 1, 1, (1, 0, 0), "", b"";
        // no template has the identifier, and the second packet is not whole: what has come is judged
        b"\x88\xf0\x81\x81\x41\xc2\xfe\x00\xe4\x90\xc0\xff\x81", Cause::D9, 2, 1, (11, 0, 0), QUOTE_LINE,
            b"\x88\xf0\x81\x81\x41\xc2\xfe\x00\xe4";
        // of a refused packet no canonical byte is written, and the lines of its messages are
        b"\x88\xf0\x81\x81\x41\xc2\xfe\x00\xe4\x8a\xf0\x81\x81\x41\xc2\xfe\x00\xe4\xc0\xff\x88\xf0", Cause::D9, 2, 2,
            (19, 0, 0), "1 Quote Seq=1 Sym=\"AB\" Px=100e-2 Qty=-\n1 Quote Seq=1 Sym=\"AB\" Px=100e-2 Qty=-\n",
            b"\x88\xf0\x81\x81\x41\xc2\xfe\x00\xe4";
        // an entry of the packet before is undefined: a message with no identifier
        b"\x88\xf0\x81\x81\x41\xc2\xfe\x00\xe4\x83\x80\x80\x81", Cause::D5, 2, 1, (11, 0, 0), QUOTE_LINE,
            b"\x88\xf0\x81\x81\x41\xc2\xfe\x00\xe4";
    };
    let on = loaded(&rt, rt.alloc(), WORKED)?;
    all_refuse(&rt, &on, Level::Usual, ROWS)
}
