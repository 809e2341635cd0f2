//! The program over blocks: its exit status, what it writes, and what it says.

use crate::base::*;
use crate::serving::strict::{OVER_QUOTES, QUOTE_LINE};

pub const SHOW: &[&str] = &["fastcat", "show", "--blocks", "--templates", TEMPLATES];

const CHECK: &[&str] = &["fastcat", "check", "--templates", TEMPLATES, "--blocks"];

pub const CANON: &[&str] = &["fastcat", "canon", "--blocks", "--templates", TEMPLATES];

const SHOW_STRICTLY: &[&str] =
    list! { "fastcat", "show", "--strict", "--blocks", "--templates", TEMPLATES };

const CANON_STRICTLY: &[&str] =
    list! { "fastcat", "canon", "--blocks", "--templates", TEMPLATES, "--strict" };

const SHOW_HEX: &[&str] =
    list! { "fastcat", "show", "--hex", "--blocks", "--templates", TEMPLATES };

const CHECK_HEX: &[&str] =
    list! { "fastcat", "check", "--blocks", "--hex", "--templates", TEMPLATES };

const CANON_HEX_STRICTLY: &[&str] =
    list! { "fastcat", "canon", "--templates", TEMPLATES, "--hex", "--blocks", "--strict" };

// One quote, and two in canonical bytes.
const QUOTE: &[u8] = b"\xf0\x81\x81\x41\xc2\xfe\x00\xe4";

const TWO_SHORT: &[u8] = b"\xf0\x81\x81\x41\xc2\xfe\x00\xe4\x80\x80\x81";

const TWO_LINES: &[u8] =
    b"1 Quote Seq=1 Sym=\"AB\" Px=100e-2 Qty=-\n1 Quote Seq=2 Sym=\"AB\" Px=101e-2 Qty=-\n";

#[test]
fn blocks_of_messages(rt: HostRuntime) -> Tried {
    const ROWS: &[Row] = rows! {
        SHOW, b"", 0, b"", "";
        CHECK, b"", 0, b"ok messages=0 bytes=0 canonical=0\n", "";
        CANON, b"", 0, b"", "";
        SHOW, b"\x88\xf0\x81\x81\x41\xc2\xfe\x00\xe4", 0, QUOTE_LINE, "";
        CHECK, b"\x88\xf0\x81\x81\x41\xc2\xfe\x00\xe4", 0, b"ok messages=1 bytes=9 canonical=8\n", "";
        CANON, b"\x88\xf0\x81\x81\x41\xc2\xfe\x00\xe4", 0, QUOTE, "";
        SHOW, b"\x8b\xf0\x81\x81\x41\xc2\xfe\x00\xe4\x80\x80\x81", 0, TWO_LINES, "";
        CHECK, b"\x8b\xf0\x81\x81\x41\xc2\xfe\x00\xe4\x80\x80\x81", 0, b"ok messages=2 bytes=12 canonical=11\n", "";
        CANON, b"\x8b\xf0\x81\x81\x41\xc2\xfe\x00\xe4\x80\x80\x81", 0, TWO_SHORT, "";
        SHOW, b"\x88\xf0\x81\x81\x41\xc2\xfe\x00\xe4\x83\x80\x80\x81", 0, TWO_LINES, "";
        CHECK, b"\x88\xf0\x81\x81\x41\xc2\xfe\x00\xe4\x83\x80\x80\x81", 0, b"ok messages=2 bytes=13 canonical=11\n", "";
        CANON, b"\x88\xf0\x81\x81\x41\xc2\xfe\x00\xe4\x83\x80\x80\x81", 0, TWO_SHORT, "";
        SHOW, b"\x00\x88\xf0\x81\x81\x41\xc2\xfe\x00\xe4", 0, QUOTE_LINE, "";
        CHECK, b"\x00\x88\xf0\x81\x81\x41\xc2\xfe\x00\xe4", 0, b"ok messages=1 bytes=10 canonical=8\n", "";
        CANON, b"\x00\x88\xf0\x81\x81\x41\xc2\xfe\x00\xe4", 0, QUOTE, "";
    };
    rows_are_served(&rt, rt.alloc(), &OVER_QUOTES, ROWS)
}

#[test]
fn blocks_that_are_refused(rt: HostRuntime) -> Tried {
    const ROWS: &[Row] = rows! {
        SHOW, b"\x80", 1, b"", "refused D12 message=1 offset=0 template=0 instruction=0\n";
        CANON, b"\x88\xf0\x81\x81\x41\xc2\xfe\x00\xe4\x80", 1, QUOTE,
            "refused D12 message=2 offset=9 template=0 instruction=0\n";
        CHECK, b"\x87\xf0\x81\x81\x41\xc2\xfe\x00\xe4", 1, b"",
            "refused BlockEnd message=1 offset=6 template=1 instruction=3\n";
        SHOW, b"\x88\xf0\x81\x81\x41\xc2\xfe\x00", 1, b"",
            "refused Truncated message=1 offset=6 template=1 instruction=3\n";
        CANON, b"\x89\xf0\x81\x81\x41\xc2\xfe\x00\xe4", 1, QUOTE,
            "refused Truncated message=2 offset=9 template=0 instruction=0\n";
        CHECK, b"\x89\xf0\x81\x81\x41\xc2\xfe\x00\xe4\x80", 1, b"",
            "refused BlockEnd message=2 offset=10 template=1 instruction=3\n";
        SHOW, b"\x81\xc0", 1, b"", "refused BlockEnd message=1 offset=2 template=0 instruction=0\n";
        CANON, b"\x81\x80", 1, b"", "refused D5 message=1 offset=2 template=0 instruction=0\n";
        CHECK, b"\x88\xf0\x81\x81\x41\xc2\xfe\x00\xe4\x00\x00\x00\x00\x00\x00\x00\x00\x00\x00", 1, b"",
            "refused Limit message=2 offset=9 template=0 instruction=0\n";
        SHOW, b"\x85\x00\x00\x00\x00\x00\x00\x00\x00\x00\x00", 1, b"",
            "refused BlockEnd message=1 offset=1 template=0 instruction=0\n";
        CANON, b"\x84\xf0\x81\x81\x41\x84\xc2\xfe\x00\xe4", 1, b"",
            "refused BlockEnd message=1 offset=4 template=1 instruction=2\n";
        CHECK, b"\x02\x00\x00\x00\x00\x00\x00\x00\x00\x80\xf0\x81\x81\x41\xc2\xfe\x00\xe4", 1, b"",
            "refused Truncated message=2 offset=18 template=0 instruction=0\n";
        SHOW, b"\x40\x00\x00\x00\x00\x00\x00\x00\x00\x80\xf0\x81\x81\x41\xc2\xfe\x00\xe4", 1, QUOTE_LINE,
            "refused Truncated message=2 offset=18 template=0 instruction=0\n";
    };
    rows_are_served(&rt, rt.alloc(), &OVER_QUOTES, ROWS)
}

#[test]
fn strict_blocks(rt: HostRuntime) -> Tried {
    const ROWS: &[Row] = rows! {
        CANON_STRICTLY, b"\x00\x88\xf0\x81\x81\x41\xc2\xfe\x00\xe4", 1, b"",
            "refused R6 message=1 offset=0 template=0 instruction=0\n";
        SHOW_STRICTLY, b"\x00\x80", 1, b"", "refused R6 message=1 offset=0 template=0 instruction=0\n";
        CANON_STRICTLY, b"\x88\xf1\x81\x81\x41\xc2\xfe\x00\xe4", 1, b"",
            "refused R8 message=1 offset=9 template=1 instruction=0\n";
        SHOW_STRICTLY, b"\x88\xf0\x81\x81\x41\xc2\xfe\x00\xe4\x00\x83\x80\x80\x81", 1, QUOTE_LINE,
            "refused R6 message=2 offset=9 template=0 instruction=0\n";
        CANON_STRICTLY, b"\x88\xf0\x81\x81\x41\xc2\xfe\x00\xe4\x83\x80\x80\x81", 0, TWO_SHORT, "";
    };
    rows_are_served(&rt, rt.alloc(), &OVER_QUOTES, ROWS)
}

#[test]
fn other_streams_in_blocks(rt: HostRuntime) -> Tried {
    const ROWS: &[Row] = rows! {
        CHECK, b"\x84\xe0\x90\x85\x86\x82\x80\x87", 0, b"ok messages=2 bytes=8 canonical=6\n", "";
        CHECK, b"\x84\xe0\x90\x85\x86\x80", 1, b"", "refused D12 message=2 offset=5 template=0 instruction=0\n";
        CHECK, b"\x83\xe0\x90\x85\x86", 1, b"", "refused BlockEnd message=1 offset=4 template=16 instruction=2\n";
        CANON_HEX_STRICTLY, b"84 e0908586 82 8087", 0, b"e09085868087\n", "";
        CANON_HEX_STRICTLY, b"0084 e0908586", 1, b"\n", "refused R6 message=1 offset=0 template=0 instruction=0\n";
    };
    rows_are_served(&rt, rt.alloc(), &CASE, ROWS)
}

// Feeds of examples/, a block for each message and one for all: a stream, its lines, what is told, and its canonical bytes.
fn feeds_are_served(rt: &impl Abort, alloc: Global, base: &Case, feeds: &[Feed]) -> Tried {
    for (input, lines, told, canonical) in feeds {
        let rows = [
            (SHOW_HEX, *input, 0, *lines, ""),
            (CHECK_HEX, *input, 0, *told, ""),
            (CANON_HEX_STRICTLY, *input, 0, *canonical, ""),
        ];
        rows_are_served(rt, alloc, base, &rows)?;
    }
    Ok(())
}

type Feed = (&'static [u8], &'static [u8], &'static [u8], &'static [u8]);

#[test]
fn feeds_in_blocks(rt: HostRuntime) -> Tried {
    const BOOK_LINES: &[u8] =
        b"1 Book Seq=1 Symbol=\"ES\" Entries=[{Side=0 Price=450025e-2 Size=10} \
        {Side=1 Price=450050e-2 Size=10}]\n1 Book Seq=2 Symbol=\"ES\" Entries=[{Side=1 Price=450075e-2 Size=4}]\n";
    const BOOKS: &[Feed] = rows! {
        b"8f f0 81 81 45 d3 82 d0 80 1b 3b e9 8a c0 81 99\n8a f0 81 82 45 d3 81 d0 81 99 84\n", BOOK_LINES,
            b"ok messages=2 bytes=27 canonical=20\n", b"f0818145d382d0801b3be98ac081998081909984\n";
        b"99\nf0 81 81 45 d3 82 d0 80 1b 3b e9 8a c0 81 99\nf0 81 82 45 d3 81 d0 81 99 84\n", BOOK_LINES,
            b"ok messages=2 bytes=26 canonical=20\n", b"f0818145d382d0801b3be98ac081998081909984\n";
    };
    const TRADE_LINES: &[u8] =
        b"2 Trade Time=34200000 Symbol=\"ESZ6\" Price=450025e-2 Size=100 Buyer=-\n\
        2 Trade Time=34200015 Symbol=\"ESZ6\" Price=450050e-2 Size=250 Buyer=x0aff\n\
        2 Trade Time=34200015 Symbol=\"ESH7\" Price=450050e-2 Size=100 Buyer=x0aff\n";
    const TRADES: &[Feed] = rows! {
        b"8f c0 82 10 27 33 c0 80 45 53 5a b6 fe 1b 3b e9\n8b b0 8f 80 80 80 99 01 fa 83 0a ff\n8a a0 80 84 45 53 48 b7 80 80 e4\n",
            TRADE_LINES, b"ok messages=3 bytes=39 canonical=33\n",
            b"c082102733c08045535ab6fe1b3be9b08f8080809901fa830aff80808248b78080\n";
        b"a4\nc0 82 10 27 33 c0 80 45 53 5a b6 fe 1b 3b e9\nb0 8f 80 80 80 99 01 fa 83 0a ff\na0 80 84 45 53 48 b7 80 80 e4\n",
            TRADE_LINES, b"ok messages=3 bytes=37 canonical=33\n",
            b"c082102733c08045535ab6fe1b3be9b08f8080809901fa830aff80808248b78080\n";
    };
    feeds_are_served(&rt, rt.alloc(), &over(Templates::Book), BOOKS)?;
    feeds_are_served(&rt, rt.alloc(), &over(Templates::Trade), TRADES)
}
