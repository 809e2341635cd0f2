//! Fields that go the general way: what is read of their bytes, and the best form that is written of it.

use crate::base::*;
use crate::fields::Kept::{Empty, Has, Undefined};
use crate::fields::Shape::{Mandatory, Optional};
use crate::fields::Value::{Ascii, Bytes, Decimal, U32, U64, Unicode};
use crate::fields::{Kept, Shape, are_such, is_kept};
use fast_dictionary::Spare;
use fast_field::{FieldFault, FieldRefusal, Level, find_field, write_found};
use fast_template::Kind::{UInt32, UInt64};
use fast_template::Operator::{Copy, Delta, Increment, Tail};
use fast_template::{FieldPart, Kind, Operator};

// A field, its entry, bytes that stand for it under bit 1, to their end, the bit and the bytes of the best form, and the entry
// afterwards.
struct Row(Shape, Kept, &'static [u8], (bool, &'static [u8]), Kept);

// What the general way answers; a fault that is none of memory ends the test.
fn none<T>(rt: &impl Abort, is_memory: bool) -> Tried<T> {
    same(rt, is_memory, true);
    Err(AllocError)
}

// Want of memory leaves the entry and the output as they were, and ends the test.
fn is_written(rt: &impl Abort, alloc: Global, instr: &FieldPart, row: &Row) -> Tried {
    let mut entry = row.1.entry(alloc)?;
    // no other is written
    if !are_such(rt, instr, &entry) {
        return Ok(());
    }
    let mut spare = Spare::new(alloc);
    let (kept, level) = (entry.view(), Level::Usual);
    let found = match find_field(&mut spare, instr, kept, true, level, row.2, 0) {
        Ok((found, next)) => {
            same(rt, next, row.2.len());
            found
        }
        Err(fault) => return none(rt, fault == FieldFault::Memory),
    };
    let mut out = Vec::new(alloc);
    match write_found(&mut spare, instr, &mut entry, found, &mut out) {
        Ok((_, bit)) => {
            same(rt, (bit, out.as_slice()), row.3);
            is_kept(rt, alloc, &entry, row.4)
        }
        Err(refusal) => {
            same(rt, out.as_slice(), &[]);
            is_kept(rt, alloc, &entry, row.1)?;
            none(rt, refusal == FieldRefusal::Memory)
        }
    }
}

fn all_rewritten(rt: &impl Abort, alloc: Global, rows: &[Row]) -> Tried {
    for row in rows {
        is_written(rt, alloc, &row.0.instr(alloc)?, row)?;
    }
    Ok(())
}

#[test]
fn fields_that_are_spelled_at_length(rt: HostRuntime) -> Tried {
    const ROWS: &[Row] = rows! { Row:
        // an overlong mantissa
        Mandatory(Kind::Decimal, Delta), Has(Decimal(-2, 7)), b"\x80\x00\x81", (true, b"\x80\x81"), Has(Decimal(-2, 8));
        // behind a nullable exponent
        Optional(Kind::Decimal, Copy), Empty, b"\x82\x7f\xfe", (true, b"\x82\xfe"), Has(Decimal(1, -2));
        // an overlong NULL
        Optional(UInt32, Copy), Has(U32(7)), b"\x00\x80", (true, b"\x80"), Empty;
        // a preamble in front of a letter, and an empty string
        Mandatory(Kind::Ascii, Copy), Has(Ascii(b"AB")), b"\x00\x43\xc4", (true, b"\x43\xc4"), Has(Ascii(b"CD"));
        Optional(Kind::Ascii, Copy), Has(Ascii(b"AB")), b"\x00\x80", (true, b"\x00\x80"), Has(Ascii(b""));
        // of another type is what the entry has
        Optional(Kind::Bytes, Copy), Has(Unicode("ab")), b"\x83\x61\x63", (true, b"\x83\x61\x63"), Has(Bytes(b"ac"));
        // tails that are longer than need be, and that begin within a character
        Mandatory(Kind::Unicode, Tail), Has(Unicode("üab")), b"\x82\x61\x63", (true, b"\x81\x63"), Has(Unicode("üac"));
        Mandatory(Kind::Unicode, Tail), Has(Unicode("xü")), b"\x81\xb6", (true, b"\x81\xb6"), Has(Unicode("xö"));
        // of what is removed the first byte is put there again
        Optional(Kind::Unicode, Delta), Has(Unicode("abü")), b"\x83\x82\xc3\xb6", (true, b"\x82\x81\xb6"),
            Has(Unicode("abö"));
        // the same end: removed in front are fewer
        Mandatory(Kind::Ascii, Delta), Has(Ascii(b"0012")), b"\x84\x31\x30\x31\xb2", (true, b"\xfe\xb1"),
            Has(Ascii(b"1012"));
        Mandatory(Kind::Bytes, Delta), Has(Bytes(b"ESM6")), b"\x84\x84\x58\x53\x4d\x36", (true, b"\xfe\x81\x58"),
            Has(Bytes(b"XSM6"));
        // numbers as identifiers and lengths are
        Mandatory(UInt32, Copy), Has(U32(5)), b"\x01\x80", (true, b"\x01\x80"), Has(U32(128));
        Optional(UInt32, Increment), Has(U32(5)), b"\x88", (true, b"\x88"), Has(U32(7));
        // behind needless groups
        Mandatory(UInt32, Copy), Has(U32(5)), b"\x00\x00\x87", (true, b"\x87"), Has(U32(7));
        // no value before, and of another type
        Mandatory(UInt32, Copy), Undefined, b"\x87", (true, b"\x87"), Has(U32(7));
        Mandatory(UInt64, Copy), Undefined, b"\x87", (true, b"\x87"), Has(U64(7));
    };
    all_rewritten(&rt, rt.alloc(), ROWS)
}

#[test]
fn fields_that_bit_0_gives(rt: HostRuntime) -> Tried {
    const ROWS: &[Row] = rows! { Row:
        // an overlong NULL
        Optional(UInt32, Copy), Empty, b"\x00\x80", (false, b""), Empty;
        Mandatory(Kind::Decimal, Copy), Has(Decimal(1, -2)), b"\x81\xfe", (false, b""), Has(Decimal(1, -2));
        Mandatory(Kind::Ascii, Copy), Has(Ascii(b"AB")), b"\x00\x41\xc2", (false, b""), Has(Ascii(b"AB"));
        Mandatory(Kind::Unicode, Copy), Has(Unicode("ü")), b"\x82\xc3\xbc", (false, b""), Has(Unicode("ü"));
        // tails that put back what was there
        Mandatory(Kind::Ascii, Tail), Has(Ascii(b"xab")), b"\xe2", (false, b""), Has(Ascii(b"xab"));
        Mandatory(Kind::Bytes, Tail), Has(Bytes(b"ab")), b"\x81\x62", (false, b""), Has(Bytes(b"ab"));
        // numbers as identifiers and lengths are
        Mandatory(UInt32, Copy), Has(U32(7)), b"\x87", (false, b""), Has(U32(7));
        Optional(UInt32, Increment), Has(U32(6)), b"\x00\x88", (false, b""), Has(U32(7));
        // NULL of no value before
        Optional(UInt32, Copy), Undefined, b"\x80", (false, b""), Empty;
    };
    all_rewritten(&rt, rt.alloc(), ROWS)
}
