//! Presence maps that are written bit by bit. The bytes are worked out by the standard's rule: seven bits a byte, the
//! first in front, no last byte of zeros but the only one, and the stop bit on the last.

use crate::forms::{Form, are_alike, is_written};
use crate::same::{Wired, same};
use fast_wire::{MapBuilder, WireFault};
use std::alloc::Global;
use std::process::Abort;
use test_rows::{list, rows};

/// What is done to a builder, and what it writes.
#[derive(Clone, Copy)]
enum Step<'a> {
    /// These bits are pushed, so many times.
    Push(usize, &'a [bool]),
    /// It begins anew.
    Clear,
    /// It writes these bytes.
    Gives(&'a [u8]),
    /// Its map is too long.
    TooLong,
}

// What is too long is refused, and nothing is appended.
fn is_too_long(rt: &impl Abort, alloc: Global, map: &MapBuilder) -> Wired {
    let mut out = [0x91].to_vec(alloc)?;
    same(rt, map.write(&mut out), Err(WireFault::TooLong));
    same(rt, out.as_slice(), &[0x91]);
    Ok(())
}

fn push_all(map: &mut MapBuilder, times: usize, bits: &[bool]) -> Wired {
    for _ in 0..times {
        for bit in bits {
            map.push(*bit)?;
        }
    }
    Ok(())
}

// A builder takes these steps.
fn is_built(rt: &impl Abort, alloc: Global, steps: &[Step]) -> Wired {
    let mut map = MapBuilder::new(alloc);
    for step in steps {
        match step {
            Step::Push(times, bits) => push_all(&mut map, *times, bits)?,
            Step::Clear => map.clear(),
            Step::Gives(bytes) => is_written(rt, alloc, b"", &map, bytes)?,
            Step::TooLong => is_too_long(rt, alloc, &map)?,
        }
    }
    Ok(())
}

#[test]
fn maps_are_built(rt: HostRuntime) -> Wired {
    const ZERO: &[bool] = &[false];
    const ONE: &[bool] = &[true];
    const MIXED: &[bool] = &[true, false, true, false, true, false, true];
    const BEHIND: &[bool] = &[true, true, false];
    const ROWS: &[&[Step]] = rows! {
        // few bits
        &[Step::Gives(b"\x80")];
        &[Step::Push(1, ONE), Step::Gives(b"\xc0")];
        &[Step::Push(7, ZERO), Step::Gives(b"\x80")];
        &[Step::Push(6, ZERO), Step::Push(1, ONE), Step::Gives(b"\x81")];
        &[Step::Push(7, ZERO), Step::Push(1, ONE), Step::Gives(b"\x00\xc0")];
        &[Step::Push(1, MIXED), Step::Push(1, &[true, true, false, false, true, true, false]),
            Step::Gives(b"\x55\xe6")];
        &[Step::Push(20, ZERO), Step::Gives(b"\x80")];
        // what is 0 behind the last 1 is cut
        &[Step::Push(1, ONE), Step::Push(20, ZERO), Step::Gives(b"\xc0"), Step::Push(60, ZERO), Step::Gives(b"\xc0")];
        // about the end of the nine groups that stand in a word, and far behind it
        &[Step::Push(54, ZERO), Step::Push(1, ONE), Step::Gives(b"\0\0\0\0\0\0\0\x82")];
        &[Step::Push(55, ZERO), Step::Push(1, ONE), Step::Gives(b"\0\0\0\0\0\0\0\x81")];
        &[Step::Push(56, ZERO), Step::Push(1, ONE), Step::Gives(b"\0\0\0\0\0\0\0\0\xc0")];
        &[Step::Push(61, ZERO), Step::Push(1, ONE), Step::Gives(b"\0\0\0\0\0\0\0\0\x82")];
        &[Step::Push(62, ZERO), Step::Push(1, ONE), Step::Gives(b"\0\0\0\0\0\0\0\0\x81")];
        &[Step::Push(63, ZERO), Step::Push(1, ONE), Step::Gives(b"\0\0\0\0\0\0\0\0\0\xc0")];
        &[Step::Push(64, ZERO), Step::Push(1, ONE), Step::Gives(b"\0\0\0\0\0\0\0\0\0\xa0")];
        &[Step::Push(119, ZERO), Step::Push(1, ONE), Step::Gives(b"\0\0\0\0\0\0\0\0\0\0\0\0\0\0\0\0\0\xc0")];
        // all groups stand in one word
        &[Step::Push(8, MIXED), Step::Gives(b"\x55\x55\x55\x55\x55\x55\x55\xd5"), Step::Push(1, BEHIND),
            Step::Gives(b"\x55\x55\x55\x55\x55\x55\x55\x55\xe0")];
        // the last bits stand behind a word that is full
        &[Step::Push(9, MIXED), Step::Gives(b"\x55\x55\x55\x55\x55\x55\x55\x55\xd5"), Step::Push(1, BEHIND),
            Step::Gives(b"\x55\x55\x55\x55\x55\x55\x55\x55\x55\xe0")];
        // a builder serves again once it is cleared, of many bits or few
        &[Step::Push(60, ONE), Step::Clear, Step::Gives(b"\x80"), Step::Push(1, &[false, true]), Step::Gives(b"\xa0"),
            Step::Push(3, ONE), Step::Clear, Step::Gives(b"\x80"), Step::Push(1, &[false, true]), Step::Gives(b"\xa0")];
    };
    for steps in ROWS {
        is_built(&rt, rt.alloc(), steps)?;
    }
    Ok(())
}

/// 1,792 bits fit 256 bytes. A 0 behind them changes nothing, and behind it a 1 is refused, with nothing appended.
#[test]
fn limits(rt: HostRuntime) -> Wired {
    let mut bytes = [0x7f; 256];
    bytes[255] = 0xff;
    let steps: &[Step] = list! {
        Step::Push(1792, &[true]), Step::Gives(&bytes), Step::Push(1, &[false]), Step::Gives(&bytes),
        Step::Push(1, &[true]), Step::TooLong
    };
    is_built(&rt, rt.alloc(), steps)
}

// A map of these bits is the same, written both ways.
fn agrees(rt: &impl Abort, alloc: Global, bits: &[bool]) -> Wired {
    let mut map = MapBuilder::new(alloc);
    push_all(&mut map, 1, bits)?;
    are_alike(rt, alloc, &map, Form::Map(bits))
}

/// All lists of at most twelve bits.
#[test]
fn as_a_list_is_written(rt: HostRuntime) -> Wired {
    for count in 0..=12 {
        for number in 0..1 << count {
            let mut bits = [false; 12];
            for i in 0..count {
                bits[i] = (number >> i) % 2 == 1;
            }
            agrees(&rt, rt.alloc(), &bits[..count])?;
        }
    }
    Ok(())
}
