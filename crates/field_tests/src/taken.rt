//! Rows on fields that are taken: each is as it is read, and its value is told from where it lies.

use self::Wanted::{AsRead, Keeps, Tells};
use crate::base::*;
use crate::fields::Kept::{Empty, Has, Undefined};
use crate::fields::Shape::{Initial, Length, Mandatory, Optional};
use crate::fields::Value::{Ascii, Bytes, Decimal, I32, I64, U32, U64, Unicode};
use crate::fields::{Kept, Shape, Value, are_such, is_kept};
use crate::takes::is_taken;
use fast_dictionary::Entry;
use fast_field::{FieldFault, Level};
use fast_take::{Aside, Room, take};
use fast_template::Kind::{Int32, Int64, UInt32, UInt64};
use fast_template::Operator::{Constant, Copy, Default, Delta, Increment, Plain, Tail};
use fast_template::{FieldPart, Kind, Presence};

// A field, its entry, and what the bytes behind the first give, to their end.
#[derive(Clone, Copy)]
struct Row(Shape, Kept, &'static [u8], Wanted);

#[derive(Clone, Copy)]
enum Wanted {
    // This value, which the entry has afterwards, or which leaves it as it was.
    Keeps(Value),
    Tells(Value),
    // What is read of them says.
    AsRead,
}

// What is told of a field that is taken, and its entry.
fn gives(
    rt: &impl Abort,
    alloc: Global,
    instr: &FieldPart,
    before: Kept,
    bytes: &[u8],
    value: Value,
    after: Kept,
    room: &mut Room,
) -> Tried {
    let mut entry = before.entry(alloc)?;
    let mut aside = Aside::new(alloc);
    let at = bytes.len().min(1);
    if !are_such(rt, instr, &entry) {
        return Ok(());
    }
    let took = match take(instr, &mut entry, true, Level::Usual, bytes, at, &mut aside) {
        Ok(took) => took,
        Err(fault) => {
            same(rt, fault, FieldFault::Memory);
            return Err(AllocError);
        }
    };
    same(rt, took.place(), bytes.len());
    let wanted = Some(value.scalar(alloc)?);
    let told = aside.value(alloc, took, instr, &entry, true, bytes, room)?;
    same(rt, told, wanted.as_ref());
    let copy = aside.copied_value(alloc, took, instr, &entry, true, bytes)?;
    same(rt, copy, wanted);
    is_kept(rt, alloc, &entry, after)
}

fn is_so(
    rt: &impl Abort,
    alloc: Global,
    (instr, entry): (&FieldPart, &Entry),
    row: &Row,
    aside: &mut Aside,
    room: &mut Room,
) -> Tried {
    if !are_such(rt, instr, entry) {
        return Ok(());
    }
    let Row(_, before, bytes, wanted) = *row;
    let (at, level) = (bytes.len().min(1), Level::Usual);
    is_taken(rt, alloc, instr, entry, true, level, bytes, at, aside)?;
    let (value, after) = match wanted {
        Wanted::Keeps(value) => (value, Kept::Has(value)),
        Wanted::Tells(value) => (value, before),
        Wanted::AsRead => return Ok(()),
    };
    gives(rt, alloc, instr, before, bytes, value, after, room)
}

fn all_taken(rt: &impl Abort, alloc: Global, rows: &[Row]) -> Tried {
    let mut aside = Aside::new(alloc);
    let mut room = Room::new(alloc);
    for row in rows {
        let instr = row.0.instr(alloc)?;
        let entry = row.1.entry(alloc)?;
        is_so(rt, alloc, (&instr, &entry), row, &mut aside, &mut room)?;
    }
    Ok(())
}

#[test]
fn numbers_that_are_taken(rt: HostRuntime) -> Tried {
    const ROWS: &[Row] = rows! { Row:
        // numbers are taken
        Mandatory(UInt32, Plain), Has(U32(7)), b"\xff\x39\x45\xa3", Tells(U32(942_755));
        Optional(UInt32, Copy), Undefined, b"\xff\x82", Keeps(U32(1));
        Mandatory(Int64, Increment), Empty, b"\xff\xff", Keeps(I64(-1));
        Initial(Presence::Mandatory, Default, 5), Undefined, b"\xff\x85", Tells(U32(5));
        Mandatory(Int32, Delta), Has(I32(5)), b"\xff\xfe", Keeps(I32(3));
        Optional(UInt64, Delta), Has(U64(9)), b"\xff\x82", Keeps(U64(10));
        // what is as it is read
        // NULL
        Optional(UInt32, Copy), Has(U32(7)), b"\xff\x80", AsRead;
        // the bytes end
        Mandatory(UInt32, Copy), Has(U32(7)), b"\xff\x01", AsRead;
        // 4,294,967,296 is no uInt32
        Mandatory(UInt32, Plain), Undefined, b"\xff\x10\x00\x00\x00\x80", AsRead;
        // nor is one less than 0
        Mandatory(UInt32, Delta), Has(U32(0)), b"\xff\xff", AsRead;
        // a length of 65,536
        Length(Plain), Undefined, b"\xff\x04\x00\x80", AsRead;
        Mandatory(Kind::Ascii, Plain), Undefined, b"\xff\xc1", AsRead;
        Initial(Presence::Mandatory, Constant, 5), Undefined, b"\xff\x85", AsRead;
    };
    all_taken(&rt, rt.alloc(), ROWS)
}

#[test]
fn decimals_that_are_taken(rt: HostRuntime) -> Tried {
    const ROWS: &[Row] = rows! { Row:
        // an exponent and a mantissa, whole
        Mandatory(Kind::Decimal, Copy), Has(Decimal(1, 5)), b"\xff\xfe\x39\x45\xa3", Keeps(Decimal(-2, 942_755));
        Optional(Kind::Decimal, Copy), Has(Decimal(1, 5)), b"\xff\x83\x84", Keeps(Decimal(2, 4));
        // and what is added to both
        Mandatory(Kind::Decimal, Delta), Has(Decimal(-2, 942_755)), b"\xff\x80\x85", Keeps(Decimal(-2, 942_760));
        Optional(Kind::Decimal, Delta), Has(Decimal(-2, 942_755)), b"\xff\xff\xfb", Keeps(Decimal(-3, 942_750));
        // what is as it is read
        // NULL
        Optional(Kind::Decimal, Copy), Has(Decimal(1, 5)), b"\xff\x80", AsRead;
        // the bytes end
        Mandatory(Kind::Decimal, Copy), Has(Decimal(1, 5)), b"\xff\x82\x05", AsRead;
        // an exponent of 64, sent or as a sum
        Mandatory(Kind::Decimal, Copy), Has(Decimal(1, 5)), b"\xff\x00\xc0\x85", AsRead;
        Mandatory(Kind::Decimal, Delta), Has(Decimal(63, 5)), b"\xff\x81\x80", AsRead;
        // nothing is kept that is added to
        Mandatory(Kind::Decimal, Delta), Undefined, b"\xff\x80\x85", AsRead;
        // an operator that keeps nothing
        Mandatory(Kind::Decimal, Plain), Undefined, b"\xff\x82\x85", AsRead;
    };
    all_taken(&rt, rt.alloc(), ROWS)
}

#[test]
fn numbers_and_strings_that_are_kept(rt: HostRuntime) -> Tried {
    const ROWS: &[Row] = rows! { Row:
        // numbers, whole, added to and counted on
        Mandatory(Int64, Copy), Undefined, b"\xff\x82", Keeps(I64(2));
        Optional(UInt64, Delta), Has(U64(9)), b"\xff\x82", Keeps(U64(10));
        Mandatory(UInt32, Increment), Has(U32(7)), b"\xff\x39\x45\xa3", Keeps(U32(942_755));
        // one that bit 0 gives, and one behind a needless group
        Mandatory(UInt32, Copy), Has(U32(7)), b"\xff\x87", Keeps(U32(7));
        Mandatory(UInt32, Copy), Has(U32(7)), b"\xff\x00\x85", Keeps(U32(5));
        // characters
        Mandatory(Kind::Ascii, Copy), Has(Ascii(b"AB")), b"\xff\xc3", Keeps(Ascii(b"C"));
        Mandatory(Kind::Ascii, Tail), Has(Ascii(b"AB")), b"\xff\xc3", Keeps(Ascii(b"AC"));
        // what is as it is read: NULL, and an operator that keeps nothing
        Optional(UInt32, Copy), Has(U32(7)), b"\xff\x80", AsRead;
        Mandatory(Kind::Ascii, Plain), Undefined, b"\xff\xc3", AsRead;
    };
    all_taken(&rt, rt.alloc(), ROWS)
}

#[test]
fn vectors_that_are_taken(rt: HostRuntime) -> Tried {
    const ROWS: &[Row] = rows! { Row:
        // bytes and characters, whole
        Mandatory(Kind::Bytes, Copy), Empty, b"\xff\x82\x41\x42", Keeps(Bytes(b"AB"));
        Optional(Kind::Unicode, Copy), Has(Unicode("AB")), b"\xff\x83\xc3\xbc", Keeps(Unicode("ü"));
        // a new end
        Mandatory(Kind::Unicode, Tail), Has(Unicode("AB")), b"\xff\x81\x43", Keeps(Unicode("AC"));
        // a removal at the end, and a new part
        Mandatory(Kind::Bytes, Delta), Has(Bytes(b"AB")), b"\xff\x81\x82\x43\x44", Keeps(Bytes(b"ACD"));
        Optional(Kind::Unicode, Delta), Has(Unicode("AB")), b"\xff\x81\x81\x43", Keeps(Unicode("ABC"));
        // what is as it is read
        // NULL
        Optional(Kind::Bytes, Copy), Has(Bytes(b"AB")), b"\xff\x80", AsRead;
        // the bytes end
        Mandatory(Kind::Bytes, Copy), Has(Bytes(b"AB")), b"\xff\x82\x43", AsRead;
        // no UTF-8
        Mandatory(Kind::Unicode, Copy), Has(Unicode("AB")), b"\xff\x81\xc3", AsRead;
        // an end that is longer than what is kept
        Mandatory(Kind::Bytes, Tail), Has(Bytes(b"A")), b"\xff\x82\x42\x43", AsRead;
        // a removal in front, and one of more than is kept
        Mandatory(Kind::Bytes, Delta), Has(Bytes(b"AB")), b"\xff\xfe\x81\x43", AsRead;
        Mandatory(Kind::Bytes, Delta), Has(Bytes(b"AB")), b"\xff\x83\x81\x43", AsRead;
        // nothing is kept that has an end
        Mandatory(Kind::Bytes, Tail), Undefined, b"\xff\x81\x43", AsRead;
        // an operator that keeps nothing
        Mandatory(Kind::Bytes, Plain), Undefined, b"\xff\x81\x43", AsRead;
    };
    all_taken(&rt, rt.alloc(), ROWS)
}

#[test]
fn strings_that_are_taken_aside(rt: HostRuntime) -> Tried {
    const ROWS: &[Row] = rows! { Row:
        // characters in the place of others, as many or not
        Mandatory(Kind::Ascii, Plain), Undefined, b"\xff\x41\xc2", Tells(Ascii(b"AB"));
        Optional(Kind::Ascii, Plain), Undefined, b"\xff\x41\xc2", Tells(Ascii(b"AB"));
        Optional(Kind::Ascii, Default), Undefined, b"\xff\x41\x42\xc3", Tells(Ascii(b"ABC"));
        // what is as it is read
        // NULL
        Optional(Kind::Ascii, Plain), Undefined, b"\xff\x80", AsRead;
        // the bytes end
        Mandatory(Kind::Ascii, Plain), Undefined, b"\xff\x41\x42", AsRead;
        // an operator that keeps it
        Mandatory(Kind::Ascii, Copy), Undefined, b"\xff\x41\xc2", AsRead;
        // another value, and another type
        Mandatory(Kind::Ascii, Plain), Undefined, b"\xff\x41\xc2", AsRead;
        Mandatory(Kind::Bytes, Plain), Undefined, b"\xff\x81\x43", AsRead;
    };
    all_taken(&rt, rt.alloc(), ROWS)
}
