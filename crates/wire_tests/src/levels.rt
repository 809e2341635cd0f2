//! Entities that are longer than their value needs, and entities that are just not.

use crate::same::same;
use fast_wire::{entity_end, overlong_ascii, overlong_map, overlong_signed, overlong_unsigned};
use std::process::Abort;
use test_rows::rows;

/// An entity, and whether it is overlong as an unsigned and as a signed integer, as a map, and as an ASCII string
/// without NULL and with it.
type Row = (&'static [u8], [bool; 5]);

fn is_judged(rt: &impl Abort, (bytes, wanted): &Row) {
    match entity_end(bytes, 0, 256) {
        Ok(next) => {
            let entity = &bytes[0..next];
            same(rt, next, bytes.len());
            let (unsigned, signed) = (overlong_unsigned(entity), overlong_signed(entity));
            let (plain, nullable) = (overlong_ascii(entity, false), overlong_ascii(entity, true));
            let judged = [unsigned, signed, overlong_map(entity), plain, nullable];
            same(rt, judged, *wanted);
        }
        Err(_) => panic!(rt; "no entity"),
    }
}

#[test]
fn overlong_entities(rt: HostRuntime) {
    const ROWS: &[Row] = rows! {
        // one group
        b"\x80", [false, false, false, false, false];
        b"\x81", [false, false, false, false, false];
        b"\xFF", [false, false, false, false, false];
        // a group of zeros in front
        b"\x00\x80", [true, true, true, false, false];
        b"\x00\x81", [true, true, false, true, true];
        b"\x00\xBF", [true, true, false, true, true];
        b"\x00\xC0", [true, false, false, true, true];
        b"\x00\xC1", [true, false, false, true, true];
        b"\x00\x40\x81", [true, false, false, true, true];
        b"\x00\x7F\xFF", [true, false, false, true, true];
        // more of them
        b"\x00\x00\x80", [true, true, true, false, false];
        b"\x00\x00\xC1", [true, true, false, false, true];
        b"\x00\x00\x00\x80", [true, true, true, false, false];
        b"\x00\x00\x00\xC1", [true, true, false, false, false];
        // a group of ones in front
        b"\x7F\xBF", [false, false, false, false, false];
        b"\x7F\xC0", [false, true, false, false, false];
        b"\x7F\xFF", [false, true, false, false, false];
        b"\x7F\x3F\xFF", [false, false, false, false, false];
        b"\x7F\x40\x80", [false, true, true, false, false];
        b"\x7E\xFF", [false, false, false, false, false];
        // a group of zeros behind
        b"\x01\x80", [false, false, true, false, false];
        b"\x40\x80", [false, false, true, false, false];
        b"\x70\x00\x80", [false, false, true, false, false];
        b"\x7F\x3F\x80", [false, false, true, false, false];
        b"\x40\x00\x81", [false, false, false, false, false];
        b"\x41\xC2", [false, false, false, false, false];
        // ten groups
        b"\x02\x00\x00\x00\x00\x00\x00\x00\x00\x80", [false, false, true, false, false];
        b"\x00\x00\x00\x00\x00\x00\x00\x00\x00\x81", [true, true, false, false, false];
    };
    for row in ROWS {
        is_judged(&rt, row);
    }
}
