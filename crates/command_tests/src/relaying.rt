//! When what is made of messages is handed on: behind each read, and where 65,536 bytes wait between two messages.

use crate::base::*;
use crate::granted::may_be_refused;
use crate::streams::play;
use std::io::{self, Write};

// How many bytes each write had, of which all are taken.
#[derive(Drop)]
struct Pushes<'a> {
    sizes: &'a mut Vec<usize>,
}

impl Write for Pushes<'_> {
    fn write(&mut self, bytes: &[u8]) -> io::Result<usize> {
        self.sizes.push(bytes.len())?;
        Ok(bytes.len())
    }

    fn flush(&mut self) -> io::Result<()> {
        Ok(())
    }
}

// A string that may be given by bit 0, and elements of such strings.
const COPIES: &str = r#"{"templates":[{"name":"T","id":1,"instructions":[
 {"kind":"string","name":"S","operator":"copy"}]},{"name":"Ten","id":2,"instructions":[
 {"kind":"sequence","name":"L","instructions":[{"kind":"string","name":"S","operator":"copy"}]}]}]}"#;

// A command, a stream of pieces, and the sizes of the writes.
struct Row {
    command: Command,
    pieces: &'static [(&'static [u8], usize)],
    sizes: &'static [usize],
}

fn is_handed_on(rt: &impl Abort, on: &Loaded, row: &Row) -> Tried {
    let stream = stream_of(on.alloc, row.pieces)?;
    let mut sizes = Vec::with_capacity(on.alloc, 16)?;
    let given = plainly(&stream, 4096).turns(1000).to(row.command);
    let writer = Pushes { sizes: &mut sizes };
    match play(on, given, &mut Counted::new(writer)) {
        Ok(_) => {
            same(rt, sizes.as_slice(), row.sizes);
            Ok(())
        }
        Err(fault) => {
            same(rt, may_be_refused(Err(fault)), true);
            Err(AllocError)
        }
    }
}

#[test]
fn long_streams_are_handed_on(rt: HostRuntime) -> Tried {
    const ROWS: &[Row] = rows! { Row { command, pieces, sizes }:
        // Lines of 65,535 bytes, the first of which ends in the sixteenth read as the others do: two are handed on at
        // once, and what is left behind the read.
        Command::Show, &[(b"\xE0\x81", 1), (b"\x41", 65_525), (b"\xC1", 1), (b"\x80", 3)], &[131_070, 131_070];
        Command::Show, &[(b"\xE0\x81", 1), (b"\x41", 65_525), (b"\xC1", 1), (b"\x80", 2)], &[131_070, 65_535];
        // lines of 65,536 bytes
        Command::Show, &[(b"\xE0\x81", 1), (b"\x41", 65_526), (b"\xC1", 1), (b"\x80", 2)], &[65_536, 65_536, 65_536];
        // Canonical bytes: a message of 65,535 and one of one byte, which end in the same read; one of 65,536, and two
        // in the next read; one of 65,537, and two in the same read.
        Command::Canon, &[(b"\xE0\x81", 1), (b"\x41", 65_532), (b"\xC1", 1), (b"\x80", 1)], &[65_536];
        Command::Canon, &[(b"\xE0\x81", 1), (b"\x41", 65_533), (b"\xC1", 1), (b"\x80", 2)], &[65_536, 2];
        Command::Canon, &[(b"\xE0\x81", 1), (b"\x41", 65_534), (b"\xC1", 1), (b"\x80", 2)], &[65_537, 2];
        // many messages of a read are few bytes
        Command::Canon, &[(b"\xE0\x81", 1), (b"\x41", 99), (b"\xC1", 1), (b"\x80", 3_994), (b"\x80", 7)], &[4_096, 7];
        // a check makes no bytes of a message, and its line is written once
        Command::Check, &[(b"\xE0\x81", 1), (b"\x41", 65_525), (b"\xC1", 1), (b"\x80", 3)], &[42];
        // nothing is written of no message
        Command::Canon, &[], &[];
    };
    let on = loaded(&rt, rt.alloc(), COPIES)?;
    for row in ROWS {
        is_handed_on(&rt, &on, row)?;
    }
    Ok(())
}
