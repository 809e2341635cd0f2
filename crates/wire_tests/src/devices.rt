//! What no clause of fast_io says: that calls succeed over real devices, and the `&mut` and `Counted` forms in use.

use crate::same::same;
use fast_io::{ByteInput, ByteOutput, Counted, Failed, ScriptInput, ScriptOutput};
use std::alloc::AllocError;
use std::io::{Read, Write};
use std::process::Abort;
use test_rows::{Tried, rows};

/// The answers of four calls.
fn four_pulls<R: ByteInput>(reader: &mut R) -> [Result<usize, Failed>; 4] {
    let mut buf = [0u8; 3];
    let (first, second) = (reader.pull(&mut buf), reader.pull(&mut buf));
    [first, second, reader.pull(&mut buf), reader.pull(&mut buf)]
}

// A device takes so many of these bytes, for which it has room, and answers this to a flush. It fails for memory alone,
// and that ends a test.
fn is_pushed<W: ByteOutput>(
    rt: &impl Abort,
    writer: &mut W,
    bytes: &[u8],
    answer: (usize, Result<(), Failed>),
) -> Tried {
    match writer.push(bytes) {
        Ok(taken) => {
            same(rt, (taken, writer.flush()), answer);
            Ok(())
        }
        Err(_) => Err(AllocError),
    }
}

// A device with room for two bytes whose flush fails.
fn is_filled<W: ByteOutput>(rt: &impl Abort, writer: &mut W) -> Tried {
    is_pushed(rt, writer, b"abc", (2, Err(Failed)))?;
    let given = [writer.push(b"c"), writer.push(b"")];
    same(rt, given, [Err(Failed), Ok(0)]);
    same(rt, writer.flush(), Err(Failed));
    Ok(())
}

#[test]
fn pulls(rt: HostRuntime) {
    let mut whole = Counted::new(b"abcde".as_slice());
    let given = four_pulls(&mut &mut whole);
    same(&rt, given, [Ok(3), Ok(2), Ok(0), Ok(0)]);
    let mut slow = Counted::new(ScriptInput::new(b"ab", 1, 2));
    let given = four_pulls(&mut slow);
    same(&rt, given, [Ok(1), Err(Failed), Ok(1), Ok(0)]);
    same(&rt, slow.pull(&mut []), Ok(0));
}

#[test]
fn pushes(rt: HostRuntime) -> Tried {
    let mut whole = Counted::new(Vec::new(rt.alloc()));
    is_pushed(&rt, &mut &mut whole, b"abc", (3, Ok(())))?;
    let narrow = ScriptOutput::new(rt.alloc(), 2, true, true);
    is_filled(&rt, &mut Counted::new(narrow))
}

// A script gives so many bytes, or fails, and these stand in the buffer.
#[test]
fn input_fails_where_it_says(rt: HostRuntime) {
    const READS: &[(usize, Option<usize>, &[u8])] = rows! {
        3, Some(2), b"ab\0";
        3, None, b"ab\0";
        1, Some(1), b"cb\0";
    };
    let mut buf = [0u8; 3];
    let mut input = ScriptInput::new(b"abcde", 2, 2);
    for (most, count, stands) in READS {
        let most = (*most).min(3);
        same(&rt, input.read(&mut buf[..most]).ok(), *count);
        same(&rt, buf.as_slice(), *stands);
    }
}

// A script with room for two bytes.
fn is_full(rt: &impl Abort, output: &mut ScriptOutput) -> Tried {
    let taken = output.write(b"abc").ok();
    if taken.is_none() {
        return Err(AllocError);
    }
    let given = [taken, output.write(b"c").ok(), output.write(b"").ok()];
    same(rt, given, [Some(2), None, Some(0)]);
    same(rt, output.flush().is_ok(), true);
    same(rt, output.bytes(), b"ab".as_slice());
    Ok(())
}

#[test]
fn output_fails_where_it_says(rt: HostRuntime) -> Tried {
    let mut zero = ScriptOutput::new(rt.alloc(), 0, true, true);
    same(&rt, zero.write(b"c").ok(), Some(0));
    same(&rt, zero.flush().is_err(), true);
    is_full(&rt, &mut ScriptOutput::new(rt.alloc(), 2, false, false))
}
