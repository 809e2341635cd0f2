//! The program: its exit status, what it writes, and what it says.

use crate::base::*;
use crate::serving::back::is_written_back;
use crate::serving::devices::{Feed, Full, Shelf, whole, with_room};
use crate::serving::examples::{BOOK, TRADE};
use crate::serving::explaining::MANY;
use crate::serving::granted::granted;
use crate::serving::strict::QUOTES;
use fast_io::Counted;
use fast_serve::serve::{TURNS, serve, serve_words};
use std::io;
use std::str::from_utf8;
use template_tests::texts::{BARE, WORKED};

// The template of the streams, as examples/worked.json has it.
const FIRST: &str =
    r#"{"templates":[{"name":"First","id":16,"instructions":[{"kind":"uInt32","name":"A"},
 {"kind":"uInt32","name":"B","operator":"copy"}]}]}"#;

// The same as an input.
const FIRST_BYTES: &[u8] = b"{\"templates\":[{\"name\":\"First\",\"id\":16,\"instructions\":[\
    {\"kind\":\"uInt32\",\"name\":\"A\"},{\"kind\":\"uInt32\",\"name\":\"B\",\"operator\":\"copy\"}]}]}";

pub const SHOW: &[&str] = &["fastcat", "show", "--templates", TEMPLATES];

pub const CHECK: &[&str] = &["fastcat", "check", "--templates", TEMPLATES];

pub const CANON: &[&str] = &["fastcat", "canon", "--templates", TEMPLATES];

const SHOW_HEX: &[&str] = &["fastcat", "show", "--templates", TEMPLATES, "--hex"];

const CHECK_HEX: &[&str] = &["fastcat", "check", "--hex", "--templates", TEMPLATES];

pub const CANON_HEX: &[&str] = &["fastcat", "canon", "--hex", "--templates", TEMPLATES];

const EXPLAINED: &[&str] = &["fastcat", "canon", "--explain", "--templates", TEMPLATES];

pub const EXPLAINED_HEX: &[&str] =
    list! { "fastcat", "canon", "--hex", "--explain", "--templates", TEMPLATES };

const TWO: &[u8] = b"\xe0\x90\x85\x86\xe0\x90\x87\x86";

const TWO_LINES: &[u8] = b"16 First A=5 B=6\n16 First A=7 B=6\n";

const TWO_COUNTED: &[u8] = b"ok messages=2 bytes=8 canonical=6\n";

/// Templates of cases. A table has their name, since its proof takes longer with each text in it.
#[derive(Clone, Copy)]
pub enum Templates<'a> {
    First,
    Quotes,
    Book,
    Trade,
    Many,
    Bare,
    Worked,
    Lines,
    Text(&'a str),
}

impl<'a> Templates<'a> {
    fn text(self) -> &'a str {
        match self {
            Templates::First => FIRST,
            Templates::Quotes => QUOTES,
            Templates::Book => BOOK,
            Templates::Trade => TRADE,
            Templates::Many => MANY,
            Templates::Bare => BARE,
            Templates::Worked => WORKED,
            Templates::Lines => line_rows::TEMPLATES,
            Templates::Text(text) => text,
        }
    }
}

/// A command line, what its files and its input give and what stands behind that, how many reads there may be, what room
/// its output and what is said have, and what is answered, written and said.
#[derive(Clone, Copy)]
pub struct Case<'a> {
    pub words: &'a [&'a str],
    pub templates: Templates<'a>,
    pub templates_end: After,
    pub stream: &'a [u8],
    pub input: &'a [u8],
    // how much of it one read gives
    pub width: usize,
    pub input_end: After,
    pub turns: u64,
    pub room: (usize, Full),
    pub err_room: (usize, Full),
    pub status: u8,
    pub out: &'a [u8],
    pub err: &'a str,
}

/// An output that takes all bytes.
pub const ENOUGH: (usize, Full) = (usize::MAX, Full::Nothing);

/// What most lines have.
pub const CASE: Case = Case {
    words: CANON,
    templates: Templates::First,
    templates_end: After::End,
    stream: b"",
    input: b"",
    width: 4096,
    input_end: After::End,
    turns: 999,
    room: ENOUGH,
    err_room: ENOUGH,
    status: 0,
    out: b"",
    err: "",
};

/// The same over other templates.
pub fn over(templates: Templates) -> Case<'_> {
    Case { templates, ..CASE }
}

impl<'a> Case<'a> {
    /// The same of another line and another input.
    pub fn of(self, words: &'a [&'a str], input: &'a [u8]) -> Case<'a> {
        Case {
            words,
            input,
            ..self
        }
    }

    /// The same with other answers.
    pub fn answered(self, status: u8, out: &'a [u8], err: &'a str) -> Case<'a> {
        Case {
            status,
            out,
            err,
            ..self
        }
    }

    // What its files and its input give.
    fn shelf(&self) -> Shelf<'a> {
        Shelf {
            templates: Feed {
                rest: self.templates.text().as_bytes(),
                width: 4096,
                after: self.templates_end,
            },
            stream: whole(self.stream),
            standard: Feed {
                rest: self.input,
                width: self.width,
                after: self.input_end,
            },
            unopened: 0,
            failed: 0,
        }
    }
}

/// What came of a line that was served.
#[derive(Drop)]
pub struct Ended {
    pub status: u8,
    pub out: Vec<u8>,
    pub err: Vec<u8>,
    pub flushes: u32,
}

/// Nothing yet, with room for all that a case writes or says, so that no writer of a test has to grow.
pub fn nothing(alloc: Global) -> Tried<Ended> {
    Ok(Ended {
        status: 0,
        out: Vec::with_capacity(alloc, 4096)?,
        err: Vec::with_capacity(alloc, 4096)?,
        flushes: 0,
    })
}

/// Serves a case. (Its callers are proved in less time than with the clauses of `serve`.)
pub fn serve_case(alloc: Global, case: &Case, ended: &mut Ended) {
    let mut said = 0;
    let out = &mut Counted::new(with_room(&mut ended.out, &mut ended.flushes, case.room));
    let err = &mut Counted::new(with_room(&mut ended.err, &mut said, case.err_room));
    let shelf = &mut case.shelf();
    let turns = case.turns.min(TURNS);
    ended.status = serve(alloc, case.words, shelf, out, err, turns);
}

/// A case is answered as it is to be, and its output is flushed once where it is read to its end.
fn is_answered(rt: &impl Abort, case: &Case, ended: &Ended) -> Tried {
    granted(rt, case, ended)?;
    same_of(rt, case.words, ended.err.as_slice(), case.err.as_bytes());
    same_of(rt, case.words, ended.out.as_slice(), case.out);
    same_of(rt, case.words, ended.status, case.status);
    if case.status <= 1 {
        same_of(rt, case.words, ended.flushes, 1);
    }
    Ok(())
}

/// Serves a case, which is answered as it is to be; and what is canonicalised is written back.
pub fn served(rt: &impl Abort, alloc: Global, case: &Case) -> Tried {
    let mut ended = nothing(alloc)?;
    serve_case(alloc, case, &mut ended);
    is_answered(rt, case, &ended)?;
    is_written_back(rt, alloc, case)
}

/// Serves cases.
pub fn cases_are_served(rt: &impl Abort, alloc: Global, cases: &[Case]) -> Tried {
    for case in cases {
        served(rt, alloc, case)?;
    }
    Ok(())
}

/// Serves a case, whole and from reads of each size up to its input's.
pub fn row_is_served(rt: &impl Abort, alloc: Global, row: &Case) -> Tried {
    served(rt, alloc, row)?;
    let mut narrow = *row;
    for width in 1..=row.input.len() {
        narrow.width = width;
        served(rt, alloc, &narrow)?;
    }
    Ok(())
}

/// The same of several.
pub fn each_is_served(rt: &impl Abort, alloc: Global, rows: &[Case]) -> Tried {
    for row in rows {
        row_is_served(rt, alloc, row)?;
    }
    Ok(())
}

/// A command line and its input, and what is answered, written and said.
pub type Row = (
    &'static [&'static str],
    &'static [u8],
    u8,
    &'static [u8],
    &'static str,
);

/// Serves the rows of a table, which have all else from one case.
pub fn rows_are_served(rt: &impl Abort, alloc: Global, base: &Case, rows: &[Row]) -> Tried {
    for (words, input, status, out, err) in rows {
        let case = base.of(words, input).answered(*status, out, err);
        row_is_served(rt, alloc, &case)?;
    }
    Ok(())
}

#[test]
fn streams_are_served(rt: HostRuntime) -> Tried {
    const ROWS: &[Case] = rows! { Case { .. }:
        CASE, words: SHOW, input: TWO, out: TWO_LINES;
        CASE, words: CHECK, input: TWO, out: TWO_COUNTED;
        CASE, input: TWO, out: b"\xe0\x90\x85\x86\x80\x87";
        CASE, words: SHOW;
        CASE, words: CHECK, out: b"ok messages=0 bytes=0 canonical=0\n";
        CASE;
        CASE, words: &["fastcat", "show", STREAM, "--templates", TEMPLATES], stream: TWO, out: TWO_LINES;
        CASE, words: &["fastcat", "show", "-", "--templates", TEMPLATES], input: TWO, out: TWO_LINES;
        CASE, words: &["fastcat", "show", STREAM, "--templates", "-"], input: FIRST_BYTES, stream: TWO, out: TWO_LINES;
        CASE, words: SHOW, input: b"\x80", status: 1, err: "refused D5 message=1 offset=1 template=0 instruction=0\n";
        CASE, words: CHECK, input: b"\x80", status: 1, err: "refused D5 message=1 offset=1 template=0 instruction=0\n";
        CASE, input: b"\x80", status: 1, err: "refused D5 message=1 offset=1 template=0 instruction=0\n";
        CASE, words: CHECK, input: b"\xe0\x90\x85\x86\x80", status: 1,
            err: "refused Truncated message=2 offset=5 template=16 instruction=1\n";
        CASE, words: SHOW, input: b"\xe0\x90\x85\x86\xc0\xe4", status: 1, out: b"16 First A=5 B=6\n",
            err: "refused D9 message=2 offset=5 template=0 instruction=0\n";
    };
    each_is_served(&rt, rt.alloc(), ROWS)
}

#[test]
fn hex_texts_are_served(rt: HostRuntime) -> Tried {
    const ROWS: &[Row] = rows! {
        CANON_HEX, b"e0908586e0908786\n", 0, b"e09085868087\n", "";
        CANON_HEX, b"E0 90\t85 86\r\ne0 9\n0 87 8 6 ", 0, b"e09085868087\n", "";
        CANON_HEX, b"", 0, b"\n", "";
        SHOW_HEX, b"e0908586e0908786", 0, TWO_LINES, "";
        SHOW_HEX, b"\n", 0, b"", "";
        CHECK_HEX, b"e0908586e0908786", 0, TWO_COUNTED, "";
        CANON_HEX, b"e0908586 e0901000000080", 1, b"e0908586\n",
            "refused D2 message=2 offset=6 template=16 instruction=1\n";
        CANON_HEX, b"e09000000000000000000000", 1, b"\n",
            "refused Limit message=1 offset=2 template=16 instruction=1\n";
        SHOW_HEX, b"e090", 1, b"", "refused Truncated message=1 offset=2 template=16 instruction=1\n";
        CANON_HEX, b"e0908586", 0, b"e0908586\n", "";
        CANON_HEX, b"80", 1, b"\n", "refused D5 message=1 offset=1 template=0 instruction=0\n";
        CANON_HEX, b"zz", 2, b"", "input is not hex\n";
        CANON_HEX, b"e09", 2, b"", "input is not hex\n";
        CANON_HEX, b"0xe0", 2, b"", "input is not hex\n";
        CANON_HEX, b"e0\x0b", 2, b"", "input is not hex\n";
        CANON_HEX, b"e0\x0c90", 2, b"", "input is not hex\n";
    };
    rows_are_served(&rt, rt.alloc(), &CASE, ROWS)
}

// A line is not taken: the help is said, or what is wrong with the line.
fn is_not_taken(rt: &impl Abort, case: &Case, ended: &Ended) -> Tried {
    granted(rt, case, ended)?;
    same_of(rt, case.words, ended.status, 2);
    same_of(rt, case.words, ended.out.is_empty(), true);
    same_of(rt, case.words, ended.err.is_empty(), false);
    Ok(())
}

fn not_taken(rt: &impl Abort, alloc: Global, words: &[&str]) -> Tried {
    let case = Case { words, ..CASE };
    let mut ended = nothing(alloc)?;
    serve_case(alloc, &case, &mut ended);
    is_not_taken(rt, &case, &ended)
}

#[test]
fn command_lines(rt: HostRuntime) -> Tried {
    const LINES: &[&[&str]] = &[
        &[],
        &["fastcat"],
        &["fastcat", "show"],
        &["fastcat", "list", "--templates", TEMPLATES],
        &["fastcat", "canon", "--templates"],
        list! { "fastcat", "show", "--packets", "--blocks", "--templates", TEMPLATES },
        &["fastcat", "show", "--keep-going", "--templates", TEMPLATES],
        list! { "fastcat", "write", "--packets", "--keep-going", "--templates", TEMPLATES },
        list! { "fastcat", "canon", "--packets", "--keep-going", "--templates", TEMPLATES },
        &["fastcat", "canon", STREAM, STREAM, "--templates", TEMPLATES],
        &["fastcat", "canon", "--Hex", "--templates", TEMPLATES],
        &["fastcat", "canon", "--templates", "-"],
        &["fastcat", "canon", "-", "--templates", "-"],
        &["fastcat", "--help"],
        &["fastcat", "--version"],
    ];
    for words in LINES {
        not_taken(&rt, rt.alloc(), words)?;
    }
    Ok(())
}

#[test]
fn templates_and_inputs_that_fail(rt: HostRuntime) -> Tried {
    const TEXT: &str = r#"{"templates":[{"name":"T","id":1,"instructions":[
        {"kind":"string","name":"A","operator":"increment"}]}]}"#;
    const MISSING: &[&str] = &["fastcat", "canon", "none", "--templates", TEMPLATES];
    const ONE: &[u8] = b"\xe0\x90\x85\x86";
    const LINE: &[u8] = b"16 First A=5 B=6\n";
    const FAILED: Case = Case {
        turns: 9,
        status: 3,
        ..CASE
    };
    const ROWS: &[Case] = rows! { Case { ..FAILED }:
        // templates come first
        words: CANON_HEX, templates: Templates::Text(TEXT), input: b"zz", status: 2,
            err: "templates refused S2 template=1 instruction=1\n";
        words: MISSING, templates: Templates::Text(TEXT), input: b"zz", status: 2,
            err: "templates refused S2 template=1 instruction=1\n";
        templates: Templates::Text("{\"templates\":["), input: b"zz", status: 2,
            err: "templates refused S1 template=0 instruction=0\n";
        templates: Templates::Text("{"), templates_end: After::Error, input: b"zz", err: "fault read\n";
        templates: Templates::Text("{"), templates_end: After::Error, input: b"zz", turns: 1, err: "fault turns\n";
        // files that are not there
        words: &["fastcat", "canon", "--templates", "none", "--hex"], input: TWO, err: "fault open\n";
        words: &["fastcat", "show", "none", "--templates", TEMPLATES], input: TWO, err: "fault open\n";
        // a reader that fails, or has no end within the reads
        input: ONE, width: 1, input_end: After::Error, out: ONE, err: "fault read\n";
        words: SHOW, input: ONE, width: 1, input_end: After::Error, out: LINE, err: "fault read\n";
        words: CHECK, input: ONE, width: 1, input_end: After::Error, err: "fault read\n";
        input: ONE, width: 1, turns: 4, out: ONE, err: "fault turns\n";
        words: CHECK, input: ONE, width: 1, turns: 4, err: "fault turns\n";
        words: CANON_HEX, input: b"e0908586", width: 1, input_end: After::Error, err: "fault read\n";
        words: CANON_HEX, input: b"e0908586", width: 1, turns: 8, err: "fault turns\n";
        words: SHOW_HEX, input: b"zz", width: 1, turns: 2, err: "fault turns\n";
    };
    cases_are_served(&rt, rt.alloc(), ROWS)
}

#[test]
fn failing_outputs(rt: HostRuntime) -> Tried {
    const FAILED: Case = Case {
        input: TWO,
        turns: 9,
        status: 3,
        err: "fault write\n",
        ..CASE
    };
    const HEX: Case = Case {
        words: CANON_HEX,
        input: b"e0908586",
        ..FAILED
    };
    // nothing can be said
    const SILENT: Case = Case {
        input: b"\x80\x80",
        turns: 9,
        err_room: (0, Full::Error),
        ..CASE
    };
    const ROWS: &[Case] = rows! { Case { .. }:
        FAILED, room: (3, Full::Error), out: b"\xe0\x90\x85";
        FAILED, words: SHOW, room: (2, Full::Nothing), out: b"16";
        FAILED, words: CHECK, room: (7, Full::Nothing), out: b"ok mess";
        HEX, room: (8, Full::Nothing), out: b"e0908586";
        HEX, room: (9, Full::Flush), out: b"e0908586\n";
        FAILED, words: CHECK, input: b"", room: (34, Full::Flush), out: b"ok messages=0 bytes=0 canonical=0\n";
        // the line feed of a refused stream does not go through
        HEX, input: b"80", room: (0, Full::Error);
        SILENT, turns: 2, status: 1;
        SILENT, words: CANON_HEX, status: 2;
        SILENT, words: &["fastcat"], status: 2;
        SILENT, turns: 0, status: 3;
    };
    cases_are_served(&rt, rt.alloc(), ROWS)
}

// Serves the words of a process.
fn serve_process(alloc: Global, words: io::Result<Vec<String>>, case: &Case, ended: &mut Ended) {
    let mut said = 0;
    let out = &mut Counted::new(with_room(&mut ended.out, &mut ended.flushes, case.room));
    let err = &mut Counted::new(with_room(&mut ended.err, &mut said, case.err_room));
    ended.status = serve_words(alloc, words, &mut case.shelf(), out, err, TURNS);
}

// The words of a process.
fn owned(alloc: Global, words: &[&str]) -> Tried<Vec<String>> {
    let mut list = Vec::new(alloc);
    for word in words {
        list.push(String::from_str(alloc, word)?)?;
    }
    Ok(list)
}

// The words of a case, or an error in their place, are served.
fn is_process(rt: &impl Abort, alloc: Global, error: Option<io::ErrorKind>, case: &Case) -> Tried {
    let words = match error {
        Some(kind) => Err(io::Error::from(kind)),
        None => Ok(owned(alloc, case.words)?),
    };
    let mut ended = nothing(alloc)?;
    serve_process(alloc, words, case, &mut ended);
    is_answered(rt, case, &ended)
}

#[test]
fn process_words(rt: HostRuntime) -> Tried {
    const ROWS: &[(Option<io::ErrorKind>, Case)] = rows! {
        None, Case { input: TWO, out: b"\xe0\x90\x85\x86\x80\x87", ..CASE };
        Some(io::ErrorKind::InvalidData), Case { words: &[], status: 2, err: "command line is not UTF-8\n", ..CASE };
        Some(io::ErrorKind::OutOfMemory), Case { words: &[], status: 3, err: "fault memory\n", ..CASE };
    };
    same_of(&rt, &[], TURNS, 1_099_511_627_776);
    for (error, case) in ROWS {
        is_process(&rt, rt.alloc(), *error, case)?;
    }
    Ok(())
}

// Serves so many blanks as templates, or as hex text.
fn long_text(rt: &impl Abort, alloc: Global, (count, is_set): (usize, bool), case: &Case) -> Tried {
    let text = vec![in alloc; b' '; count]?;
    if is_set {
        let templates = Templates::Text(from_utf8(&text).unwrap_or(""));
        return served(rt, alloc, &Case { templates, ..*case });
    }
    served(rt, alloc, &case.of(case.words, &text))
}

#[test]
fn long_texts(rt: HostRuntime) -> Tried {
    const LONG: Case = Case {
        words: EXPLAINED_HEX,
        turns: 1 << 20,
        status: 2,
        ..CASE
    };
    const ROWS: &[(usize, bool, Case)] = rows! {
        16_777_216, false, Case { status: 0, out: b"\n", ..LONG };
        16_777_217, false, Case { input_end: After::Error, err: "input too long\n\
                    explain: the standard input has more than 16777216 bytes; give the stream's own bytes, without --hex\n", ..LONG };
        16_777_217, true, Case { words: EXPLAINED, templates_end: After::Error, input: b"zz", err: "templates too long\n\
                    explain: the templates' file \"templates.json\" has more than 16777216 bytes; leave out templates that the stream does not need\n", ..LONG };
    };
    for (count, is_templates, case) in ROWS {
        long_text(&rt, rt.alloc(), (*count, *is_templates), case)?;
    }
    Ok(())
}
