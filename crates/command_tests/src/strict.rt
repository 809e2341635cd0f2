//! Worked streams at the strict level through each command.

use crate::base::*;
use crate::streams::{QUOTE_LINE, REFUSALS, ROWS, Refusal, Row, all_end, all_stop, ends, stops};
use stream_rows::modes::STRICT;
use template_tests::texts::KINDS;

/// A stream that is longer than it must be, what each command makes of it at the usual level, and why its first
/// message is refused at the strict one.
struct Overlong {
    usual: Row,
    cause: Cause,
    at: At,
}

const OVERLONG: &[Overlong] = rows! { Overlong { usual, cause, at }:
    // an integer
    Row { stream: b"\xf0\x81\x00\x00\x81\x41\xc2\xfe\x00\xe4", messages: 1, lines: QUOTE_LINE,
        told: "ok messages=1 bytes=10 canonical=8\n", canonical: QUOTE }, Cause::R6, At(2, 1, 1);
    // a map
    Row { stream: b"\x70\x00\x80\x81\x81\x41\xc2\xfe\x00\xe4", messages: 1, lines: QUOTE_LINE,
        told: "ok messages=1 bytes=10 canonical=8\n", canonical: QUOTE }, Cause::R7, At(0, 0, 0);
    // a bit that no field asked for
    Row { stream: b"\xf1\x81\x81\x41\xc2\xfe\x00\xe4", messages: 1, lines: QUOTE_LINE,
        told: "ok messages=1 bytes=8 canonical=8\n", canonical: QUOTE }, Cause::R8, At(8, 1, 0);
    // a string
    Row { stream: b"\xf0\x81\x81\x00\xc1\xfe\x00\xe4", messages: 1, lines: "1 Quote Seq=1 Sym=\"A\" Px=100e-2 Qty=-\n",
        told: "ok messages=1 bytes=8 canonical=7\n", canonical: b"\xf0\x81\x81\xc1\xfe\x00\xe4" }, Cause::R9,
        At(3, 1, 2);
    // NULL
    Row { stream: b"\xf8\x81\x81\x41\xc2\xfe\x00\xe4\x00\x80", messages: 1, lines: QUOTE_LINE,
        told: "ok messages=1 bytes=10 canonical=8\n", canonical: QUOTE }, Cause::R6, At(8, 1, 4);
    // an exponent
    Row { stream: b"\xf0\x81\x81\x41\xc2\x7f\xfe\x00\xe4", messages: 1, lines: QUOTE_LINE,
        told: "ok messages=1 bytes=9 canonical=8\n", canonical: QUOTE }, Cause::R6, At(5, 1, 3);
    // a bit of a mantissa that is left out
    Row { stream: b"\xf8\x83\x80\x85", messages: 1, lines: "3 Opt Px=- Flag=5\n",
        told: "ok messages=1 bytes=4 canonical=4\n", canonical: b"\xf0\x83\x80\x85" }, Cause::R8, At(4, 3, 0);
    // an identifier
    Row { stream: b"\xf0\x00\x81\x81\x41\xc2\xfe\x00\xe4", messages: 1, lines: QUOTE_LINE,
        told: "ok messages=1 bytes=9 canonical=8\n", canonical: QUOTE }, Cause::R6, At(1, 0, 0);
    // a length
    Row { stream: b"\xc0\x84\x00\x83\x85\x86", messages: 1, lines: "4 Legs L=[{P=5} {P=6}]\n",
        told: "ok messages=1 bytes=6 canonical=5\n", canonical: b"\xc0\x84\x83\x85\x86" }, Cause::R6, At(2, 4, 1);
    // the map of a group, and a bit of it
    Row { stream: b"\xf0\x8b\x40\x80\x85\x86", messages: 1, lines: "11 Grp Hd={A=5} B=6\n",
        told: "ok messages=1 bytes=6 canonical=5\n", canonical: b"\xf0\x8b\xc0\x85\x86" }, Cause::R7, At(2, 11, 1);
    Row { stream: b"\xf0\x8b\xe0\x85\x86", messages: 1, lines: "11 Grp Hd={A=5} B=6\n",
        told: "ok messages=1 bytes=5 canonical=5\n", canonical: b"\xf0\x8b\xc0\x85\x86" }, Cause::R8, At(4, 11, 1);
    // the map of an element, and a bit of it
    Row { stream: b"\xc0\x85\x82\x40\x80\x85\x80", messages: 1, lines: "5 Marks L=[{Q=5} {Q=5}]\n",
        told: "ok messages=1 bytes=7 canonical=6\n", canonical: b"\xc0\x85\x82\xc0\x85\x80" }, Cause::R7, At(3, 5, 1);
    Row { stream: b"\xc0\x85\x82\xc0\x85\xa0", messages: 1, lines: "5 Marks L=[{Q=5} {Q=5}]\n",
        told: "ok messages=1 bytes=6 canonical=6\n", canonical: b"\xc0\x85\x82\xc0\x85\x80" }, Cause::R8, At(6, 5, 1);
};

/// What is said of a stream by its messages, its bytes and those that are canonical.
pub(crate) fn told(alloc: Global, messages: u64, read: usize, written: usize) -> Tried<String> {
    format!(in alloc; "ok messages={messages} bytes={read} canonical={written}\n")
}

/// What each command makes of canonical bytes, one byte a read: the lines of their messages, and the same bytes.
fn stays(rt: &impl Abort, on: &Loaded, messages: u64, lines: &str, canonical: &[u8]) -> Tried {
    let count = canonical.len();
    let told = told(on.alloc, messages, count, count)?;
    let texts = [lines.as_bytes(), told.as_bytes(), canonical];
    let made = made_of(messages, count, texts);
    makes(rt, on, in_mode(STRICT, canonical, 1), made)
}

#[test]
fn canonical_streams_are_taken(rt: HostRuntime) -> Tried {
    let on = worked(&rt, rt.alloc())?;
    for row in ROWS {
        stays(&rt, &on, row.messages, row.lines, row.canonical)?;
    }
    for row in REFUSALS {
        stays(&rt, &on, row.messages, row.lines, row.canonical)?;
    }
    for Overlong { usual, .. } in OVERLONG {
        stays(&rt, &on, usual.messages, usual.lines, usual.canonical)?;
    }
    Ok(())
}

/// A stream whose first message is refused.
fn first_refused(stream: &'static [u8], cause: Cause, at: At) -> Refusal {
    Refusal {
        stream,
        messages: 0,
        lines: "",
        canonical: b"",
        cause,
        at,
    }
}

/// What is made of an overlong stream at both levels, in steps of one size.
fn is_overlong(rt: &impl Abort, on: &Loaded, row: &Overlong, step: usize) -> Tried {
    ends(rt, on, PLAIN, &row.usual, step)?;
    let refusal = first_refused(row.usual.stream, row.cause, row.at);
    stops(rt, on, STRICT, &refusal, step)
}

#[test]
fn overlong_streams(rt: HostRuntime) -> Tried {
    let on = worked(&rt, rt.alloc())?;
    for row in OVERLONG {
        is_overlong(&rt, &on, row, 1)?;
        is_overlong(&rt, &on, row, 2)?;
        is_overlong(&rt, &on, row, 4096)?;
    }
    Ok(())
}

#[test]
fn streams_that_are_just_not_overlong(rt: HostRuntime) -> Tried {
    const TAKEN: &[Row] = rows! { Row { stream, messages, lines, told, canonical }:
        // bit 1 of an exponent is given by bit 0, its initial value
        b"\xf8\x83\x83\x39\x45\xa3\x85", 1, "3 Opt Px=942755e2 Flag=5\n", "ok messages=1 bytes=7 canonical=6\n",
            b"\xd8\x83\x39\x45\xa3\x85";
        b"\xf8\x83\x83\x00\x40\x81\x85", 1, "3 Opt Px=8193e2 Flag=5\n", "ok messages=1 bytes=7 canonical=6\n",
            b"\xd8\x83\x00\x40\x81\x85";
        b"\xe0\x88\x78\x61\xe2\xa0\x00\x00\x00\xe2", 2, "8 Tail S=\"xab\"\n8 Tail S=\"x\\x00b\"\n",
            "ok messages=2 bytes=10 canonical=9\n", b"\xe0\x88\x78\x61\xe2\xa0\x78\x00\xe2";
    };
    const STOPPED: &[Refusal] = rows! { Refusal { stream, messages, lines, canonical, cause, at }:
        b"\xf0\x81\x81\x41\xc2\xfe\x00\xe4\x80\x80\x00\x81", 1, QUOTE_LINE, QUOTE, Cause::R6, At(9, 1, 3);
        b"\xf0\x81\x81\x41\xc2\xfe\x00\xe4\x81\x80\x81", 1, QUOTE_LINE, QUOTE, Cause::R8, At(11, 1, 0);
    };
    all_end(&rt, rt.alloc(), STRICT, TAKEN)?;
    all_stop(&rt, rt.alloc(), STRICT, STOPPED)
}

// A stream whose first message is refused, why, and where.
struct Refused(&'static [u8], Cause, At);

#[test]
fn overlong_entities_of_each_kind(rt: HostRuntime) -> Tried {
    const STREAMS: &[Refused] = rows! { Refused:
        // the length of a vector and of a Unicode string
        b"\xc0\x81\x00\x82\xc3\xa9", Cause::R6, At(2, 1, 1);
        b"\xc0\x81\x00\x80", Cause::R6, At(2, 1, 1);
        b"\xc0\x82\x00\x83\xc3\xa9", Cause::R6, At(2, 2, 1);
        b"\xc0\x82\x00\x80", Cause::R6, At(2, 2, 1);
        b"\xc0\x83\x00\x81\x41", Cause::R6, At(2, 3, 1);
        // a number of units to be removed
        b"\xc0\x84\x00\x80\x81\x41", Cause::R6, At(2, 4, 1);
        b"\xc0\x84\x7f\xff\x81\x41", Cause::R6, At(2, 4, 1);
        b"\xc0\x85\x00\x80", Cause::R6, At(2, 5, 1);
        // a new part
        b"\xc0\x84\x80\x00\x81\x41", Cause::R6, At(2, 4, 1);
        b"\xc0\x85\x81\x00\xc1", Cause::R9, At(2, 5, 1);
        // a tail
        b"\xe0\x86\x00\xc1", Cause::R9, At(2, 6, 1);
        b"\xe0\x87\x00\xc1", Cause::R9, At(2, 7, 1);
        b"\xe0\x87\x00\x00\xc1", Cause::R9, At(2, 7, 1);
        b"\xe0\x88\x00\x83\xc3\xa9", Cause::R6, At(2, 8, 1);
        b"\xe0\x88\x00\x80", Cause::R6, At(2, 8, 1);
        // a decimal in one piece
        b"\xc0\x89\x00\x80", Cause::R6, At(2, 9, 1);
        b"\xc0\x89\x00\x83\x39\x45\xa3", Cause::R6, At(2, 9, 1);
        b"\xc0\x89\x83\x00\x39\x45\xa3", Cause::R6, At(2, 9, 1);
        // and in two
        b"\xc0\x8a\x00\x82\x81", Cause::R6, At(2, 10, 1);
        b"\xc0\x8a\x82\x00\xbf", Cause::R6, At(3, 10, 1);
        b"\xc0\x8a\x82\x7f\xc0", Cause::R6, At(3, 10, 1);
        // a signed integer
        b"\xc0\x8d\x00\xbf", Cause::R6, At(2, 13, 1);
        b"\xc0\x8d\x7f\xc0", Cause::R6, At(2, 13, 1);
        b"\xc0\x8d\x00\x80", Cause::R6, At(2, 13, 1);
    };
    let on = loaded(&rt, rt.alloc(), KINDS)?;
    for Refused(stream, cause, at) in STREAMS {
        let refusal = first_refused(stream, *cause, *at);
        stops(&rt, &on, STRICT, &refusal, 1)?;
        stops(&rt, &on, STRICT, &refusal, 4096)?;
    }
    Ok(())
}
