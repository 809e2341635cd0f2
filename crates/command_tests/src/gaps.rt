//! Lines that are long: texts are left out of them as gaps, and filled as they are handed on.

use crate::base::*;
use crate::granted::may_be_refused;
use crate::lines::lines_of;
use crate::streams::play;
use std::io::{self, Write};

// Elements of a copied string; and behind them a number; elements of texts of each operator; and of a long label.
const GAPPED: &str = r#"{"templates":[{"name":"Ten","id":2,"instructions":[
 {"kind":"sequence","name":"L","instructions":[{"kind":"string","name":"S","operator":"copy"}]}]},
 {"name":"All","id":3,"instructions":[{"kind":"sequence","name":"L","instructions":[
 {"kind":"string","name":"A","operator":"delta"},{"kind":"string","name":"T","operator":"tail"},
 {"kind":"string","charset":"unicode","name":"U","operator":"copy"},{"kind":"byteVector","name":"V","operator":"copy"},
 {"kind":"string","name":"D","operator":"default","value":"=================="}]}]},
 {"name":"End","id":4,"instructions":[{"kind":"sequence","name":"L","instructions":[
 {"kind":"string","name":"S","operator":"copy"}]},{"kind":"uInt32","name":"N"}]},{"name":"Label","id":5,"instructions":[
 {"kind":"sequence","name":"L","instructions":[{"kind":"string","name":"S","operator":"copy"},
 {"kind":"uInt32","name":"NameThatIsNoShortPieceAndIsLeftOutOfALongLineSinceItAloneHasMoreThanEightyUnitsInItAsHasThe","operator":"copy"},
 {"kind":"string","name":"AnotherNameThatIsNoShortPieceAndIsLeftOutOfALongLineSinceItHasMoreThanEightyUnitsInItAsWell","operator":"copy"}]}]}]}"#;

// What is written stands to a line: whether it is a front of it, how many bytes it has, and the most of one write.
#[derive(Clone, Copy, Debug, PartialEq, Eq, Drop)]
struct Came {
    is_front: bool,
    bytes: usize,
    most: usize,
}

// A front of so many bytes.
fn front_of(bytes: usize, most: usize) -> Came {
    Came {
        is_front: true,
        bytes,
        most,
    }
}

// A writer that compares what it is handed with a line.
#[derive(Drop)]
struct Compared<'a> {
    line: &'a [u8],
    came: &'a mut Came,
}

impl Write for Compared<'_> {
    fn write(&mut self, bytes: &[u8]) -> io::Result<usize> {
        let rest = &self.line[self.came.bytes.min(self.line.len())..];
        if !rest.starts_with(bytes) {
            self.came.is_front = false;
        }
        self.came.bytes = self.came.bytes.saturating_add(bytes.len());
        self.came.most = self.came.most.max(bytes.len());
        Ok(bytes.len())
    }

    fn flush(&mut self) -> io::Result<()> {
        Ok(())
    }
}

// What `show` answers of a stream, and what it writes beside this line.
fn show_over(on: &Loaded, given: Given, line: &[u8]) -> (Answer, Came) {
    let mut came = front_of(0, 0);
    let writer = Compared {
        line,
        came: &mut came,
    };
    let answer = play(on, given.turns(1_000_000), &mut Counted::new(writer));
    (answer, came)
}

// The line of a stream is this one, in writes of at most so many bytes; where memory is refused, a front of it is written.
fn is_shown(rt: &impl Abort, (answer, came): (Answer, Came), wanted: Came) -> Tried {
    if answer.is_ok() {
        same(rt, came, wanted);
        return Ok(());
    }
    same(rt, may_be_refused(answer), true);
    same(rt, came.is_front, true);
    Err(AllocError)
}

// Pieces that come so many times together.
type Group = (&'static [(&'static [u8], usize)], usize);

// A stream of pieces, its line of groups of pieces, and the most bytes of a write.
struct Row {
    stream: &'static [(&'static [u8], usize)],
    line: &'static [Group],
    most: usize,
}

fn line_of(alloc: Global, groups: &[Group]) -> Tried<Vec<u8>> {
    let mut line = Vec::new(alloc);
    for (pieces, count) in groups {
        let part = stream_of(alloc, pieces)?;
        for _ in 0..*count {
            line.extend_from_slice(&part)?;
        }
    }
    Ok(line)
}

fn is_shown_in(rt: &impl Abort, on: &Loaded, row: &Row, read: usize) -> Tried {
    let stream = stream_of(on.alloc, row.stream)?;
    let line = line_of(on.alloc, row.line)?;
    let shown = show_over(on, plainly(&stream, read), &line);
    is_shown(rt, shown, front_of(line.len(), row.most))
}

// 16 elements of 65,000 units.
const SIXTEEN: Group = (&[(b"{S=\"", 1), (b"A", 65_000), (b"\"} ", 1)], 16);

const HEAD: Group = (&[(b"2 Ten L=[", 1)], 1);

// Behind them one whose line has 1,048,575 bytes, 1,048,576 and 1,048,577. No text begins behind the limit, and each line
// is one write.
const AROUND: &[Row] = rows! { Row { stream, line, most }:
    &[(b"\xC0\x82\x91\xC0", 1), (b"\x41", 64_999), (b"\xC1", 1), (b"\x80", 15), (b"\xC0", 1), (b"\x44", 8_445),
        (b"\xC4", 1)], &[HEAD, SIXTEEN, (&[(b"{S=\"", 1), (b"D", 8_446), (b"\"}]\n", 1)], 1)], 1_048_575;
    &[(b"\xC0\x82\x91\xC0", 1), (b"\x41", 64_999), (b"\xC1", 1), (b"\x80", 15), (b"\xC0", 1), (b"\x44", 8_446),
        (b"\xC4", 1)], &[HEAD, SIXTEEN, (&[(b"{S=\"", 1), (b"D", 8_447), (b"\"}]\n", 1)], 1)], 1_048_576;
    &[(b"\xC0\x82\x91\xC0", 1), (b"\x41", 64_999), (b"\xC1", 1), (b"\x80", 15), (b"\xC0", 1), (b"\x44", 8_447),
        (b"\xC4", 1)], &[HEAD, SIXTEEN, (&[(b"{S=\"", 1), (b"D", 8_448), (b"\"}]\n", 1)], 1)], 1_048_577;
};

// Behind them one in front of whose successor's text 1,048,576 bytes are written, and one with a byte more: that text is a
// gap, and what is behind it is a write of its own.
const BORDER: &[Row] = rows! { Row { stream, line, most }:
    &[(b"\xC0\x82\x92\xC0", 1), (b"\x41", 64_999), (b"\xC1", 1), (b"\x80", 15), (b"\xC0", 1), (b"\x44", 8_444),
        (b"\xC4\xC0", 1), (b"\x42", 79), (b"\xC2", 1)],
        &[HEAD, SIXTEEN, (&[(b"{S=\"", 1), (b"D", 8_445), (b"\"} {S=\"", 1)], 1), (&[(b"B", 80), (b"\"}]\n", 1)], 1)],
        1_048_661;
    &[(b"\xC0\x82\x92\xC0", 1), (b"\x41", 64_999), (b"\xC1", 1), (b"\x80", 15), (b"\xC0", 1), (b"\x44", 8_445),
        (b"\xC4\xC0", 1), (b"\x42", 79), (b"\xC2", 1)],
        &[HEAD, SIXTEEN, (&[(b"{S=\"", 1), (b"D", 8_446), (b"\"} {S=\"", 1)], 1), (&[(b"B", 80), (b"\"}]\n", 1)], 1)],
        1_048_659;
};

// Each row is shown in reads of so many bytes.
fn all_shown_in(rt: &impl Abort, alloc: Global, rows: &[Row], read: usize) -> Tried {
    let on = loaded(rt, alloc, GAPPED)?;
    for row in rows {
        is_shown_in(rt, &on, row, read)?;
    }
    Ok(())
}

#[test]
fn lines_around_the_limit(rt: HostRuntime) -> Tried {
    all_shown_in(&rt, rt.alloc(), AROUND, 4096)?;
    all_shown_in(&rt, rt.alloc(), BORDER, 4096)
}

#[test]
fn long_streams_are_cut_around_the_limit(rt: HostRuntime) -> Tried {
    for read in 1..6 {
        all_shown_in(&rt, rt.alloc(), BORDER, read)?;
    }
    Ok(())
}

const LONG_LINES: &[Row] = rows! { Row { stream, line, most }:
    // two lines of ten million bytes, the second one of the text that the first has left
    &[(b"\xC0\x82\x01\x9A\xC0", 1), (b"\x41", 64_927), (b"\xC1", 1), (b"\x80", 153), (b"\x80\x01\x9A", 1), (b"\x80", 154)],
        &[HEAD, (&[(b"{S=\"", 1), (b"A", 64_928), (b"\"} ", 1)], 153), (&[(b"{S=\"", 1), (b"A", 64_928), (b"\"}]\n", 1)], 1),
        HEAD, (&[(b"{S=\"", 1), (b"A", 64_928), (b"\"} ", 1)], 153), (&[(b"{S=\"", 1), (b"A", 64_928), (b"\"}]\n", 1)], 1)],
        1_168_837;
    // a hundred times the limit: 1,601 elements of 65,535 units, sent once
    &[(b"\xC0\x82\x0C\xC1\xC0", 1), (b"\x41", 65_534), (b"\xC1", 1), (b"\x80", 1_600)], &[HEAD,
        (&[(b"{S=\"", 1), (b"A", 65_535), (b"\"} ", 1)], 1_600), (&[(b"{S=\"", 1), (b"A", 65_535), (b"\"}]\n", 1)], 1)],
        1_114_221;
};

#[test]
fn long_streams_of_a_hundred_times_the_limit(rt: HostRuntime) -> Tried {
    all_shown_in(&rt, rt.alloc(), LONG_LINES, 4096)
}

// Behind 18 elements of 65,535 units a number that is none of its type.
const REFUSED: &[(&[u8], usize)] = rows! {
    b"\xC0\x84\x92\xC0", 1;
    b"\x41", 65_534;
    b"\xC1", 1;
    b"\x80", 17;
    b"\x10\x00\x00\x00\x80", 1;
};

#[test]
fn nothing_of_a_refused_line_is_written(rt: HostRuntime) -> Tried {
    let on = loaded(&rt, rt.alloc(), GAPPED)?;
    let stream = stream_of(rt.alloc(), REFUSED)?;
    let (answer, came) = show_over(&on, plainly(&stream, 4096), b"");
    same(&rt, came, front_of(0, 0));
    match answer {
        Err(CanonFault::Stream(fault)) if fault.cause == Cause::D2 => {
            same(&rt, fault.place.offset, 65_556);
            Ok(())
        }
        other => {
            same(&rt, may_be_refused(other), true);
            Err(AllocError)
        }
    }
}

// Texts of each kind, as they stand whole, by bit 0, by deltas at both ends and by tails; and a label that is no short
// piece.
const EVERY: &[&[(&[u8], usize)]] = rows! {
    &[(b"\xC0\x83\x8D\xF0\x80", 1), (b"\x41", 65_000), (b"\xC2", 1), (b"\x54", 99), (b"\xD4\x03\x54\xE0", 1),
        (b"\xC3\xA9", 30_000), (b"\x01\x1C\xA0", 1), (b"\xAB", 20_000), (b"\x80\x81\xC3", 4), (b"\x80\xFE\xC4", 2),
        (b"\xC0\x80\x80\x58\xD9", 1), (b"\xA0\x80\x80\x94", 1), (b"\xF0\x9F\x99\x82", 5), (b"\x90\x80\x80\x91", 1),
        (b"\x01", 17), (b"\x88\x80\x80", 1), (b"\x64", 17), (b"\xE4", 1), (b"\x80\x81\xC3", 2)];
    &[(b"\xC0\x85\x92\xF0", 1), (b"\x41", 65_534), (b"\xC1\x85", 1), (b"\x42", 16), (b"\xC2", 1), (b"\x80", 17)];
};

fn is_told(rt: &impl Abort, on: &Loaded, form: Form, parts: &[(&[u8], usize)]) -> Result<(), Fail> {
    let stream = stream_of(on.alloc, parts)?;
    let line = lines_of(on, form, &stream)?;
    same(rt, line.len() > 1_048_576, true);
    let mut given = plainly(&stream, 4096);
    given.form = form;
    let (answer, came) = show_over(on, given, &line);
    let wanted = front_of(line.len(), came.most);
    Ok(is_shown(rt, (answer, came), wanted)?)
}

#[test]
fn long_texts_of_each_kind(rt: HostRuntime) -> Result<(), Fail> {
    let on = loaded(&rt, rt.alloc(), GAPPED)?;
    for pieces in EVERY {
        is_told(&rt, &on, Form::Text, pieces)?;
        is_told(&rt, &on, Form::Json, pieces)?;
    }
    Ok(())
}
