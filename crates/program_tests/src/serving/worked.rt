//! Worked streams through each command of the program: whole, cut behind each of their bytes, long, and over devices that
//! fail at each place.

use crate::base::*;
use crate::serving::blocks::{CANON as CANON_BLOCKS, SHOW as SHOW_BLOCKS};
use crate::serving::devices::{Feed, Full, whole};
use crate::serving::programs::{CANON, CANON_HEX, CHECK, SHOW, served};
use crate::serving::strict::{CANON_STRICTLY, SHOW_STRICTLY};

/// The lines of `show`, `check` and `canon` in a mode.
type Lines = [&'static [&'static str]; 3];

const PLAIN: &Lines = &[SHOW, CHECK, CANON];

const CHECK_STRICTLY: &[&str] = &["fastcat", "check", "--strict", "--templates", TEMPLATES];

const STRICT: &Lines = &[SHOW_STRICTLY, CHECK_STRICTLY, CANON_STRICTLY];

const CHECK_BLOCKS: &[&str] = &["fastcat", "check", "--blocks", "--templates", TEMPLATES];

const BLOCKS: &Lines = &[SHOW_BLOCKS, CHECK_BLOCKS, CANON_BLOCKS];

/// What `show`, `check` and `canon` write of a stream, and what is said of it.
#[derive(Clone, Copy)]
struct Made<'a> {
    lines: &'a [u8],
    told: &'a [u8],
    canonical: &'a [u8],
    said: &'a str,
}

/// One command writes this.
fn is_served<'a>(
    rt: &impl Abort,
    alloc: Global,
    words: &'a [&'a str],
    standard: Feed<'a>,
    (out, said): (&'a [u8], &'a str),
) -> Tried {
    let case = over(Templates::Worked).of(words, standard.rest);
    let mut case = case.answered(status_for(said), out, said);
    case.width = standard.width;
    case.input_end = standard.after;
    served(rt, alloc, &case)
}

/// Each command in a mode does.
fn each_serves<'a>(
    rt: &impl Abort,
    alloc: Global,
    words: &'a Lines,
    standard: Feed<'a>,
    made: Made<'a>,
) -> Tried {
    let [show, check, canon] = words;
    is_served(rt, alloc, show, standard, (made.lines, made.said))?;
    is_served(rt, alloc, check, standard, (made.told, made.said))?;
    is_served(rt, alloc, canon, standard, (made.canonical, made.said))
}

/// A stream, what each command writes of it, and what is said where it is refused.
struct Stream {
    input: &'static [u8],
    lines: &'static str,
    told: &'static str,
    canonical: &'static [u8],
    said: &'static str,
}

fn stream_is_served(rt: &impl Abort, alloc: Global, row: &Stream) -> Tried {
    let made = Made {
        lines: row.lines.as_bytes(),
        told: row.told.as_bytes(),
        canonical: row.canonical,
        said: row.said,
    };
    let standard = whole(row.input);
    let mut bytewise = standard;
    bytewise.width = 1;
    each_serves(rt, alloc, PLAIN, bytewise, made)?;
    each_serves(rt, alloc, PLAIN, standard, made)
}

#[test]
fn worked_streams(rt: HostRuntime) -> Tried {
    const ROWS: &[Stream] = rows! { Stream { input, lines, told, canonical, said }:
        b"\xf0\x81\x81\x41\xc2\xfe\x00\xe4\xf8\x81\x82\x41\xc2\x80\x81\x80",
            "1 Quote Seq=1 Sym=\"AB\" Px=100e-2 Qty=-\n1 Quote Seq=2 Sym=\"AB\" Px=101e-2 Qty=-\n",
            "ok messages=2 bytes=16 canonical=11\n", b"\xf0\x81\x81\x41\xc2\xfe\x00\xe4\x80\x80\x81", "";
        b"\xf0\x81\x00\x00\x81\x41\xc2\xfe\x00\xe4", "1 Quote Seq=1 Sym=\"AB\" Px=100e-2 Qty=-\n",
            "ok messages=1 bytes=10 canonical=8\n", b"\xf0\x81\x81\x41\xc2\xfe\x00\xe4", "";
        b"\x70\x00\x80\x81\x81\x41\xc2\xfe\x00\xe4", "1 Quote Seq=1 Sym=\"AB\" Px=100e-2 Qty=-\n",
            "ok messages=1 bytes=10 canonical=8\n", b"\xf0\x81\x81\x41\xc2\xfe\x00\xe4", "";
        b"\xf1\x81\x81\x41\xc2\xfe\x00\xe4", "1 Quote Seq=1 Sym=\"AB\" Px=100e-2 Qty=-\n",
            "ok messages=1 bytes=8 canonical=8\n", b"\xf0\x81\x81\x41\xc2\xfe\x00\xe4", "";
        b"\xc0\x8a\x80\x47\x45\x48\xb6\x80\x82\x4d\xb6\x80\xfd\x45\xd3\x80\xff\x80",
            "10 Delta S=\"GEH6\"\n10 Delta S=\"GEM6\"\n10 Delta S=\"ESM6\"\n10 Delta S=\"ESM6\"\n",
            "ok messages=4 bytes=18 canonical=18\n",
            b"\xc0\x8a\x80\x47\x45\x48\xb6\x80\x82\x4d\xb6\x80\xfd\x45\xd3\x80\x80\x80", "";
        b"\xc0\x8a\x80\x47\x45\x48\xb6\x80\x82\x4d\xb6\x80\xfd\x45\xd3\x80\x85\x80",
            "10 Delta S=\"GEH6\"\n10 Delta S=\"GEM6\"\n10 Delta S=\"ESM6\"\n", "",
            b"\xc0\x8a\x80\x47\x45\x48\xb6\x80\x82\x4d\xb6\x80\xfd\x45\xd3",
            "refused D7 message=4 offset=16 template=10 instruction=1\n";
        b"\xe0\x88\x78\x61\xe2\xa0\x00\x00\x00\xe2", "8 Tail S=\"xab\"\n8 Tail S=\"x\\x00b\"\n",
            "ok messages=2 bytes=10 canonical=9\n", b"\xe0\x88\x78\x61\xe2\xa0\x78\x00\xe2", "";
        b"\xe0\x89\x80\xa0\x00\x80", "9 Init S=-\n9 Init S=\"ab\"\n", "ok messages=2 bytes=6 canonical=5\n",
            b"\xe0\x89\x80\xa0\xe2", "";
        b"\xe0\x82\x0f\x7f\x7f\x7f\xff\x0f\x7f\x7f\x7f\xff\x80\x80\x80\x81",
            "2 Wrap A=4294967295 B=4294967295\n2 Wrap A=0 B=4294967295\n", "",
            b"\xe0\x82\x0f\x7f\x7f\x7f\xff\x0f\x7f\x7f\x7f\xff\x80\x80",
            "refused D2 message=3 offset=15 template=2 instruction=2\n";
        b"\xf0\x83\x80\x85\x90\x39\x45\xa3", "3 Opt Px=- Flag=5\n3 Opt Px=942755e2 Flag=5\n",
            "ok messages=2 bytes=8 canonical=8\n", b"\xf0\x83\x80\x85\x90\x39\x45\xa3", "";
        b"\xf0\x83\x80\x85\xb0\x83\x39\x45\xa3", "3 Opt Px=- Flag=5\n3 Opt Px=942755e2 Flag=5\n",
            "ok messages=2 bytes=9 canonical=8\n", b"\xf0\x83\x80\x85\x90\x39\x45\xa3", "";
        b"\xc0\x84\x04\x00\x81", "", "", b"", "refused Limit message=1 offset=2 template=4 instruction=1\n";
        b"\xf0\x87\x85\xc1\x80", "7 Clash A=5 B=\"A\"\n", "", b"\xf0\x87\x85\xc1",
            "refused D4 message=2 offset=5 template=7 instruction=1\n";
        b"\xf0\x87\x85\xc1\xb0\x86\xc1", "7 Clash A=5 B=\"A\"\n7 Clash A=6 B=\"A\"\n",
            "ok messages=2 bytes=7 canonical=7\n", b"\xf0\x87\x85\xc1\xb0\x86\xc1", "";
        b"\xe0\x8c\x82\xc3\xa9\xa0\x81\xa8\xa0\x81\x41", "12 Uni S=\"\\xc3\\xa9\"\n12 Uni S=\"\\xc3\\xa8\"\n", "",
            b"\xe0\x8c\x82\xc3\xa9\xa0\x81\xa8", "refused R2 message=3 offset=9 template=12 instruction=1\n";
        b"\xc0\x8d\x85", "", "", b"", "refused D6 message=1 offset=2 template=13 instruction=2\n";
        b"\xe0\x8e\x80\x90\x83\x90\x10\x00\x00\x00\x80",
            "14 Const K=7 O=9 D=3\n14 Const K=7 O=- D=3\n14 Const K=7 O=- D=3\n", "", b"\xe0\x8e\x80\x80",
            "refused D2 message=4 offset=6 template=14 instruction=3\n";
        b"\xe0\x8f\x00\xe4\x83\x0a\xff\x80\x81", "15 Fixed Px=100e-2 Raw=x0aff\n15 Fixed Px=101e-2 Raw=x0aff\n",
            "ok messages=2 bytes=9 canonical=9\n", b"\xe0\x8f\x00\xe4\x83\x0a\xff\x80\x81", "";
        b"\xf0\x81\x81\x41\xc2\x00\xc0", "", "", b"", "refused R1 message=1 offset=5 template=1 instruction=3\n";
        b"\xf0\x81\x00\x00\x00\x00\x00\x00\x00\x00\x00\x00", "", "", b"",
            "refused Limit message=1 offset=2 template=1 instruction=1\n";
    };
    for row in ROWS {
        stream_is_served(&rt, rt.alloc(), row)?;
    }
    Ok(())
}

/// A stream that is canonical itself, its lines, and what is said where it is cut behind each of its bytes: nothing where
/// a message ends.
struct Cut {
    stream: &'static [u8],
    lines: &'static str,
    said: &'static [&'static str],
}

const CUTS: &[Cut] = rows! { Cut { stream, lines, said }:
    b"\xf0\x81\x81\x41\xc2\xfe\x00\xe4", "1 Quote Seq=1 Sym=\"AB\" Px=100e-2 Qty=-\n",
        &["refused Truncated message=1 offset=1 template=0 instruction=0\n",
        "refused Truncated message=1 offset=2 template=1 instruction=1\n",
        "refused Truncated message=1 offset=3 template=1 instruction=2\n",
        "refused Truncated message=1 offset=3 template=1 instruction=2\n",
        "refused Truncated message=1 offset=5 template=1 instruction=3\n",
        "refused Truncated message=1 offset=5 template=1 instruction=3\n",
        "refused Truncated message=1 offset=5 template=1 instruction=3\n", ""];
    b"\xc0\x8a\x80\x47\x45\x48\xb6\x80\x82\x4d\xb6\x80\xfd\x45\xd3",
        "10 Delta S=\"GEH6\"\n10 Delta S=\"GEM6\"\n10 Delta S=\"ESM6\"\n",
        &["refused Truncated message=1 offset=1 template=0 instruction=0\n",
        "refused Truncated message=1 offset=2 template=10 instruction=1\n",
        "refused Truncated message=1 offset=2 template=10 instruction=1\n",
        "refused Truncated message=1 offset=2 template=10 instruction=1\n",
        "refused Truncated message=1 offset=2 template=10 instruction=1\n",
        "refused Truncated message=1 offset=2 template=10 instruction=1\n", "",
        "refused Truncated message=2 offset=8 template=10 instruction=1\n",
        "refused Truncated message=2 offset=8 template=10 instruction=1\n",
        "refused Truncated message=2 offset=8 template=10 instruction=1\n", "",
        "refused Truncated message=3 offset=12 template=10 instruction=1\n",
        "refused Truncated message=3 offset=12 template=10 instruction=1\n",
        "refused Truncated message=3 offset=12 template=10 instruction=1\n", ""];
    b"\xc0\x84\x80\x80\x81\x80\x83\x85\x86", "4 Legs L=-\n4 Legs L=[]\n4 Legs L=[{P=5} {P=6}]\n",
        &["refused Truncated message=1 offset=1 template=0 instruction=0\n",
        "refused Truncated message=1 offset=2 template=4 instruction=1\n", "",
        "refused Truncated message=2 offset=4 template=4 instruction=1\n", "",
        "refused Truncated message=3 offset=6 template=4 instruction=1\n",
        "refused Truncated message=3 offset=7 template=4 instruction=2\n",
        "refused Truncated message=3 offset=8 template=4 instruction=2\n", ""];
    b"\xf0\x8b\xc0\x85\x86\x80\xa0\x80", "11 Grp Hd={A=5} B=6\n11 Grp Hd=- B=6\n11 Grp Hd={A=5} B=6\n",
        &["refused Truncated message=1 offset=1 template=0 instruction=0\n",
        "refused Truncated message=1 offset=2 template=11 instruction=1\n",
        "refused Truncated message=1 offset=3 template=11 instruction=2\n",
        "refused Truncated message=1 offset=4 template=11 instruction=3\n", "", "",
        "refused Truncated message=3 offset=7 template=11 instruction=1\n", ""];
    b"\xe0\x8c\x82\xc3\xa9\xa0\x81\xa8\xa0\x81", "12 Uni S=\"\\xc3\\xa9\"\n12 Uni S=\"\\xc3\\xa8\"\n",
        &["refused Truncated message=1 offset=1 template=0 instruction=0\n",
        "refused Truncated message=1 offset=2 template=12 instruction=1\n",
        "refused Truncated message=1 offset=2 template=12 instruction=1\n",
        "refused Truncated message=1 offset=2 template=12 instruction=1\n", "",
        "refused Truncated message=2 offset=6 template=12 instruction=1\n",
        "refused Truncated message=2 offset=6 template=12 instruction=1\n", "",
        "refused Truncated message=3 offset=9 template=12 instruction=1\n",
        "refused Truncated message=3 offset=9 template=12 instruction=1\n"];
    b"\xe0\x8f\x00\xe4\x83\x0a\xff\x80\x81", "15 Fixed Px=100e-2 Raw=x0aff\n15 Fixed Px=101e-2 Raw=x0aff\n",
        &["refused Truncated message=1 offset=1 template=0 instruction=0\n",
        "refused Truncated message=1 offset=2 template=15 instruction=1\n",
        "refused Truncated message=1 offset=2 template=15 instruction=1\n",
        "refused Truncated message=1 offset=4 template=15 instruction=2\n",
        "refused Truncated message=1 offset=4 template=15 instruction=2\n",
        "refused Truncated message=1 offset=4 template=15 instruction=2\n", "",
        "refused Truncated message=2 offset=8 template=15 instruction=1\n", ""];
};

/// The first lines, so many.
fn first_lines(lines: &str, count: usize) -> &[u8] {
    let mut left = count;
    let bytes = lines.as_bytes();
    for (i, byte) in bytes.iter().enumerate() {
        if left == 0 {
            return &bytes[..i];
        }
        if *byte == b'\n' {
            left = left.saturating_sub(1);
        }
    }
    bytes
}

/// What stands in front of a cut behind so many bytes: how many messages, and how many bytes they have.
fn front(row: &Cut, count: usize) -> (usize, usize) {
    let mut messages = 0usize;
    let mut bytes = 0usize;
    for (i, said) in row.said.iter().enumerate() {
        if i < count && said.is_empty() {
            messages = messages.saturating_add(1);
            bytes = i.saturating_add(1);
        }
    }
    (messages, bytes.min(row.stream.len()))
}

/// What is told of so many messages whose bytes are canonical, where nothing is said of a refusal.
fn told(alloc: Global, messages: usize, bytes: usize, said: &str) -> Tried<String> {
    if !said.is_empty() {
        return Ok(String::new(alloc));
    }
    format!(in alloc; "ok messages={messages} bytes={bytes} canonical={bytes}\n")
}

/// So many bytes of a stream, or all.
fn first_bytes(stream: &[u8], count: usize) -> &[u8] {
    &stream[..count.min(stream.len())]
}

/// The status of what is said: done, a stream that is refused, or a machine that fails.
fn status_for(said: &str) -> u8 {
    if said.is_empty() {
        0
    } else if said.starts_with("refused") {
        1
    } else {
        3
    }
}

/// So many bytes of a worked stream are served, from reads of one size, and then this is told and said.
fn cut_serves(
    rt: &impl Abort,
    alloc: Global,
    row: &Cut,
    count: usize,
    (width, after): (usize, After),
    told: &str,
    said: &str,
) -> Tried {
    let (messages, bytes) = front(row, count);
    let made = Made {
        lines: first_lines(row.lines, messages),
        told: told.as_bytes(),
        canonical: first_bytes(row.stream, bytes),
        said,
    };
    let rest = first_bytes(row.stream, count);
    let standard = Feed { rest, width, after };
    each_serves(rt, alloc, PLAIN, standard, made)?;
    each_serves(rt, alloc, STRICT, standard, made)
}

fn cut_is_served(rt: &impl Abort, alloc: Global, row: &Cut, count: usize, said: &str) -> Tried {
    let (messages, bytes) = front(row, count);
    let told = told(alloc, messages, bytes, said)?;
    cut_serves(rt, alloc, row, count, (4096, After::End), &told, said)
}

#[test]
fn streams_that_are_cut(rt: HostRuntime) -> Tried {
    for row in CUTS {
        for (i, said) in row.said.iter().enumerate() {
            cut_is_served(&rt, rt.alloc(), row, i.saturating_add(1), said)?;
        }
    }
    Ok(())
}

/// The read behind so many bytes of a worked stream fails, one byte a read.
#[test]
fn reads_that_fail(rt: HostRuntime) -> Tried {
    let given = (1, After::Error);
    for row in CUTS {
        for count in 0..=row.said.len() {
            cut_serves(&rt, rt.alloc(), row, count, given, "", "fault read\n")?;
        }
    }
    Ok(())
}

// In a block, where the read fails that is to give the size, one of the bytes, or the next size.
#[test]
fn reads_that_fail_in_a_block(rt: HostRuntime) -> Tried {
    const QUOTE: &[u8] = b"\x88\xf0\x81\x81\x41\xc2\xfe\x00\xe4";
    const LINE: &[u8] = b"1 Quote Seq=1 Sym=\"AB\" Px=100e-2 Qty=-\n";
    for count in 0..=9 {
        let (lines, canonical) = if count == 9 {
            (LINE, &QUOTE[1..])
        } else {
            (b"".as_slice(), b"".as_slice())
        };
        let standard = Feed {
            rest: &QUOTE[..count],
            width: 1,
            after: After::Error,
        };
        let made = Made {
            lines,
            told: b"",
            canonical,
            said: "fault read\n",
        };
        each_serves(&rt, rt.alloc(), BLOCKS, standard, made)?;
    }
    Ok(())
}

const OVER_WORKED: Case = Case {
    templates: Templates::Worked,
    turns: 9,
    ..CASE
};

/// Its output has so much room, and then, if that is not enough, or the flush fails, this is answered and said.
fn breaks_at(rt: &impl Abort, alloc: Global, row: &Case, count: usize, full: Full) -> Tried {
    let mut case = *row;
    case.room = (count, full);
    case.out = first_bytes(row.out, count);
    if count < row.out.len() || matches!(full, Full::Flush) {
        case.status = 3;
        case.err = "fault write\n";
    }
    served(rt, alloc, &case)
}

/// The output fails behind each number of bytes, has room for all of them, takes none, or fails at the flush.
fn breaks(rt: &impl Abort, alloc: Global, row: &Case) -> Tried {
    for count in 0..=row.out.len() {
        breaks_at(rt, alloc, row, count, Full::Error)?;
    }
    breaks_at(rt, alloc, row, 0, Full::Nothing)?;
    breaks_at(rt, alloc, row, row.out.len(), Full::Flush)
}

#[test]
fn writes_that_fail(rt: HostRuntime) -> Tried {
    const TWO: &[u8] = b"\xf0\x81\x81\x41\xc2\xfe\x00\xe4\xf8\x81\x82\x41\xc2\x80\x81\x80";
    const BLOCK: &[u8] = b"\x90\xf0\x81\x81\x41\xc2\xfe\x00\xe4\xf8\x81\x82\x41\xc2\x80\x81\x80";
    const HEX: &[u8] = b"f0818141c2fe00e4f8818241c2808180";
    const LINES: &[u8] =
        b"1 Quote Seq=1 Sym=\"AB\" Px=100e-2 Qty=-\n1 Quote Seq=2 Sym=\"AB\" Px=101e-2 Qty=-\n";
    const TOLD: &[u8] = b"ok messages=2 bytes=16 canonical=11\n";
    const BLOCK_TOLD: &[u8] = b"ok messages=2 bytes=17 canonical=11\n";
    const SHORT: &[u8] = b"\xf0\x81\x81\x41\xc2\xfe\x00\xe4\x80\x80\x81";
    const ROWS: &[Case] = rows! { Case { .. }:
        OVER_WORKED, words: SHOW, input: TWO, out: LINES;
        OVER_WORKED, words: CHECK, input: TWO, out: TOLD;
        OVER_WORKED, words: CANON, input: TWO, out: SHORT;
        OVER_WORKED, words: SHOW_STRICTLY, input: TWO, out: LINES;
        OVER_WORKED, words: CHECK_STRICTLY, input: TWO, out: TOLD;
        OVER_WORKED, words: CANON_STRICTLY, input: TWO, out: SHORT;
        OVER_WORKED, words: SHOW_BLOCKS, input: BLOCK, out: LINES;
        OVER_WORKED, words: CHECK_BLOCKS, input: BLOCK, out: BLOCK_TOLD;
        OVER_WORKED, words: CANON_BLOCKS, input: BLOCK, out: SHORT;
        OVER_WORKED, words: CANON_HEX, input: HEX, out: b"f0818141c2fe00e4808081\n";
    };
    for row in ROWS {
        breaks(&rt, rt.alloc(), row)?;
    }
    Ok(())
}

/// A long stream of pieces, each so many times, how many messages it has, and what is said where it is refused. One that
/// is not refused is canonical itself.
struct Long {
    pieces: &'static [(&'static [u8], usize)],
    messages: usize,
    said: &'static str,
}

fn stream_of(alloc: Global, pieces: &[(&[u8], usize)]) -> Tried<Vec<u8>> {
    let mut stream = Vec::new(alloc);
    for (piece, count) in pieces {
        for _ in 0..*count {
            stream.extend_from_slice(piece)?;
        }
    }
    Ok(stream)
}

fn long_is_served(rt: &impl Abort, alloc: Global, row: &Long) -> Tried {
    let stream = stream_of(alloc, row.pieces)?;
    let told = told(alloc, row.messages, stream.len(), row.said)?;
    let size = if row.said.is_empty() { stream.len() } else { 0 };
    let (given, told, canonical) = (whole(&stream), told.as_bytes(), &stream[..size]);
    for [_, check, canon] in [PLAIN, STRICT] {
        is_served(rt, alloc, check, given, (told, row.said))?;
        is_served(rt, alloc, canon, given, (canonical, row.said))?;
    }
    Ok(())
}

#[test]
fn long_texts_and_streams(rt: HostRuntime) -> Tried {
    const ROWS: &[Long] = rows! { Long { pieces, messages, said }:
        &[(b"\xf0\x81\x81\x41\xc2\xfe\x00\xe4", 1), (b"\x80\x80\x81", 10_000)], 10_001, "";
        &[(b"\x00", 255)], 0, "refused Truncated message=1 offset=0 template=0 instruction=0\n";
        &[(b"\x00", 256)], 0, "refused Limit message=1 offset=0 template=0 instruction=0\n";
        &[(b"\xf0\x81\x81", 1), (b"\x41", 65_539)], 0,
            "refused Truncated message=1 offset=3 template=1 instruction=2\n";
        &[(b"\xf0\x81\x81", 1), (b"\x41", 65_540)], 0, "refused Limit message=1 offset=3 template=1 instruction=2\n";
        &[(b"\xf0\x81\x81", 1), (b"\x41", 65_534), (b"\xc1\xfe\x00\xe4", 1)], 1, "";
        &[(b"\xf0\x81\x81", 1), (b"\x41", 65_535), (b"\xc1\xfe\x00\xe4", 1)], 0,
            "refused Limit message=1 offset=3 template=1 instruction=2\n";
        &[(b"\xc0\x84\x02\x00\x80", 1), (b"\x85", 32_767)], 1, "";
        &[(b"\xc0\x84\x02\x00\x81", 1), (b"\x85", 32_767)], 0,
            "refused Limit message=1 offset=32772 template=4 instruction=2\n";
        &[(b"\xc0\x86\x03\x7f\xff", 1)], 1, "";
    };
    for row in ROWS {
        long_is_served(&rt, rt.alloc(), row)?;
    }
    Ok(())
}

// As many nodes as there may be, and one more.
#[test]
fn sequences_without_members(rt: HostRuntime) -> Tried {
    const MOST: &[u8] = b"\xc0\x81\x80\x03\x7f\xfe";
    const MORE: &[u8] = b"\xc0\x81\x80\x03\x7f\xff";
    const SAID: &str = "refused Limit message=1 offset=6 template=1 instruction=2\n";
    const ROWS: &[Row] = rows! {
        CHECK, MOST, 0, b"ok messages=1 bytes=6 canonical=6\n", "";
        CANON, MOST, 0, MOST, "";
        SHOW, MORE, 1, b"", SAID;
        CHECK, MORE, 1, b"", SAID;
        CANON, MORE, 1, b"", SAID;
    };
    rows_are_served(&rt, rt.alloc(), &over(Templates::Bare), ROWS)
}
