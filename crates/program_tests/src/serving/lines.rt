//! The program over lines that are written: what is written and said of each row, of cuts, and of what is large.

use crate::base::*;
use crate::serving::programs::served;
use crate::serving::writing::WRITE_PACKETS;
use line_rows::{LineRow, ROWS, row_of};

const WRITE_HEX: &[&str] = &["fastcat", "write", "--templates", TEMPLATES, "--hex"];

const OVER_LINES: Case = Case {
    words: WRITE_HEX,
    templates: Templates::Lines,
    ..CASE
};

/// A row's line is answered as it says, in one read and in reads of one byte.
fn is_answered(rt: &impl Abort, alloc: Global, row: &LineRow) -> Tried {
    let status = if row.said.is_empty() { 0 } else { 1 };
    let case = OVER_LINES.of(WRITE_HEX, row.line.as_bytes());
    let case = case.answered(status, row.out.as_bytes(), row.said);
    served(rt, alloc, &case)?;
    served(rt, alloc, &Case { width: 1, ..case })
}

#[test]
fn each_line_is_answered(rt: HostRuntime) -> Tried {
    for row in ROWS.split_inclusive('\n') {
        is_answered(&rt, rt.alloc(), &row_of(row))?;
    }
    Ok(())
}

#[test]
fn lines_in_a_text(rt: HostRuntime) -> Tried {
    const ROWS: &[Row] = rows! {
        WRITE_HEX, b"", 0, b"\n", "";
        WRITE_HEX, b"\n \t\r\n", 0, b"\n", "";
        WRITE_HEX, b"{\"id\":9,\"fields\":{}}\r", 0, b"c089\n", "";
        WRITE_HEX,
            b"{\"id\":9,\"fields\":{}}\n{\"id\":9,\"fields\":{}}\n{\"id\":9,\"fields\":{\"a\":1}}\n{\"id\":9,\"fields\":{}}",
            1, b"c08980\n", "refused Member line=3 template=9 instruction=0\n";
        WRITE_HEX, b"\n{\"id\":4,\"fields\":{\"L\":[],\"K\":\"x\"}}\n{\"id\":4,\"fields\":{\"L\":[],\"K\":\"\"}}", 1,
            b"c08480\n", "refused NotConstant line=3 template=4 instruction=4\n";
        WRITE_HEX, b"\xef\xbb\xbf{\"id\":9,\"fields\":{}}", 1, b"\n", "refused Json line=1 template=0 instruction=0\n";
        // no UTF-8, and a sign that is to be escaped
        WRITE_HEX, b"{\"id\":1,\"fields\":{\"Seq\":1,\"Sym\":\"AB\",\"Px\":1,\"U\":\"\xff\"}}", 1, b"\n",
            "refused Json line=1 template=0 instruction=0\n";
        WRITE_HEX, b"{\"id\":1,\"fields\":{\"Seq\":1,\"Sym\":\"AB\",\"Px\":1,\"U\":\"a\x01\"}}", 1, b"\n",
            "refused Json line=1 template=0 instruction=0\n";
    };
    rows_are_served(&rt, rt.alloc(), &OVER_LINES, ROWS)
}

/// Texts, each so many times one behind the other.
type Runs = &'static [(usize, &'static [u8])];

fn joined(alloc: Global, runs: &[(usize, &[u8])]) -> Tried<Vec<u8>> {
    let mut joined = Vec::new(alloc);
    for (count, text) in runs {
        for _ in 0..*count {
            joined.extend_from_slice(text)?;
        }
    }
    Ok(joined)
}

/// What is large: the lines, and what is written and said of them.
#[derive(Clone, Copy)]
struct Large {
    words: &'static [&'static str],
    input: Runs,
    out: Runs,
    said: &'static str,
}

fn large_is_served(rt: &impl Abort, alloc: Global, row: &Large) -> Tried {
    let (input, out) = (joined(alloc, row.input)?, joined(alloc, row.out)?);
    let status = if row.said.is_empty() { 0 } else { 1 };
    let case = OVER_LINES.of(row.words, &input);
    let mut case = case.answered(status, &out, row.said);
    case.turns = 1 << 20;
    served(rt, alloc, &case)
}

/// Lines of 16,777,216 bytes, and of one more; and one of blanks.
const LONG_LINES: &[Large] = rows! { Large { words, input, out, said }:
    WRITE_HEX, &[(1, b"{\"id\":9,\"fields\":{}}\n{\"id\":9,"), (16_777_196, b" "), (1, b"\"fields\":{}}")],
        &[(1, b"c08980\n")], "";
    WRITE_HEX, &[(1, b"{\"id\":9,"), (16_777_196, b" "), (1, b"\"fields\":{}}\n{\"id\":9,"), (16_777_197, b" "),
        (1, b"\"fields\":{}}\n")], &[(1, b"c089\n")], "refused Limit line=2 template=0 instruction=0\n";
    WRITE_HEX, &[(16_777_216, b" "), (1, b"\n"), (16_777_217, b" ")], &[(1, b"\n")],
        "refused Limit line=2 template=0 instruction=0\n";
};

#[test]
fn long_texts_of_lines(rt: HostRuntime) -> Tried {
    for row in LONG_LINES {
        large_is_served(&rt, rt.alloc(), row)?;
    }
    Ok(())
}

/// Levels of JSON, strings, nodes, lines and packets, each as large as may be, and one more.
const LARGE: &[Large] = rows! { Large { words, input, out, said }:
    WRITE_HEX, &[(1, b"{\"id\":9,\"fields\":"), (127, b"["), (127, b"]"), (1, b"}")], &[(1, b"\n")],
        "refused Line line=1 template=0 instruction=0\n";
    WRITE_HEX, &[(1, b"{\"id\":9,\"fields\":"), (128, b"["), (128, b"]"), (1, b"}")], &[(1, b"\n")],
        "refused Json line=1 template=0 instruction=0\n";
    WRITE_HEX, &[(1, b"{\"id\":1,\"fields\":{\"Seq\":1,\"Px\":1,\"Sym\":\""), (65_535, b"a"), (1, b"\"}}\n")],
        &[(1, b"f08181"), (65_534, b"61"), (1, b"e18081808080\n")], "";
    WRITE_HEX, &[(1, b"{\"id\":1,\"fields\":{\"Seq\":1,\"Px\":1,\"Sym\":\""), (65_536, b"a"), (1, b"\"}}\n")],
        &[(1, b"\n")], "refused Limit line=1 template=1 instruction=2\n";
    // three nodes of each element, and two besides
    WRITE_HEX, &[(1, b"{\"id\":4,\"fields\":{\"K\":\"x\",\"L\":[{\"P\":5}"), (21_843, b",{\"P\":5}"), (1, b"]}}")],
        &[(1, b"c084012ad4"), (21_844, b"8580"), (1, b"\n")], "";
    WRITE_HEX, &[(1, b"{\"id\":4,\"fields\":{\"K\":\"x\",\"L\":[{\"P\":5}"), (21_844, b",{\"P\":5}"), (1, b"]}}")],
        &[(1, b"\n")], "refused Limit line=1 template=4 instruction=1\n";
    WRITE_HEX, &[(50_000, b"{\"id\":9,\"fields\":{}}\n")], &[(1, b"c089"), (49_999, b"80"), (1, b"\n")], "";
    // eight bytes of the first message besides its string, and two of the second
    WRITE_PACKETS, &[(1, b"{\"packet\":1,\"id\":1,\"fields\":{\"Seq\":1,\"Px\":1,\"Sym\":\""), (65_525, b"a"),
        (1, b"\"}}\n{\"packet\":1,\"id\":9,\"fields\":{}}\n")],
        &[(1, b"\x03\x7f\xff\xf0\x81\x81"), (65_524, b"a"), (1, b"\xe1\x80\x81\x80\x80\x80\xc0\x89")], "";
    WRITE_PACKETS, &[(1, b"{\"packet\":1,\"id\":1,\"fields\":{\"Seq\":1,\"Px\":1,\"Sym\":\""), (65_525, b"a"),
        (1, b"\"}}\n{\"packet\":1,\"id\":9,\"fields\":{}}\n{\"packet\":1,\"id\":9,\"fields\":{}}\n")],
        &[(1, b"\x03\x7f\xff\xf0\x81\x81"), (65_524, b"a"), (1, b"\xe1\x80\x81\x80\x80\x80\xc0\x89")],
        "refused Limit line=3 template=0 instruction=0\n";
    WRITE_PACKETS,
        &[(1, b"{\"packet\":1,\"id\":1,\"fields\":{\"Seq\":1,\"Px\":1,\"Sym\":\""), (65_528, b"a"), (1, b"\"}}")], &[],
        "refused Limit line=1 template=0 instruction=0\n";
};

#[test]
fn long_texts_at_each_limit(rt: HostRuntime) -> Tried {
    for row in LARGE {
        large_is_served(&rt, rt.alloc(), row)?;
    }
    Ok(())
}
