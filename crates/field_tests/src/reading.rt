//! Rows on single fields that are read, by the calls. A test has a table of rows and makes nothing of its own, since
//! each value that lies there at a `?` makes its proof longer.

use self::Wanted::{Absent, Fault, Keeps, Present};
use crate::base::*;
use crate::fields::Kept::{Empty, Has, Undefined};
use crate::fields::Shape::{Exponent, Initial, Length, Mandatory, Optional};
use crate::fields::Value::{Ascii, Bytes, Decimal, I32, I64, Letters, U32, Unicode};
use crate::fields::{Kept, Shape, Value, is_kept, scalar_of};
use fast_dictionary::{Entry, Spare};
use fast_field::FieldFault::{D2, D4, D5, D6, D7, Limit, NeedMore, R1, R2, R6, R9};
use fast_field::{FieldFault, Level, find_field, next_entry, read_field, read_in_place};
use fast_template::Kind::{Int32, Int64, UInt32, UInt64};
use fast_template::Operator::{Constant, Copy, Default, Delta, Increment, Plain, Tail};
use fast_template::{FieldPart, Kind, Presence, Scalar};

// What is read: a value, the entry afterwards, and the place after it.
type Read = Result<(Option<Scalar>, Entry, usize), FieldFault>;

// The same, with the entry where it lay.
type ReadInPlace = Result<(Option<Scalar>, usize), FieldFault>;

// A field, its entry, bit and bytes, and what is wanted of them.
struct Row(Shape, Kept, bool, &'static [u8], Wanted);

#[derive(Clone, Copy)]
enum Wanted {
    Absent(Kept, usize),
    Present(Value, Kept, usize),
    // A value that the entry then has.
    Keeps(Value, usize),
    Fault(FieldFault),
}

impl Wanted {
    fn read(self, alloc: Global) -> Tried<Read> {
        match self {
            Wanted::Absent(after, next) => Ok(Ok((None, after.entry(alloc)?, next))),
            Wanted::Present(value, after, next) => read_value(alloc, value, after, next),
            Wanted::Keeps(value, next) => read_value(alloc, value, Kept::Has(value), next),
            Wanted::Fault(fault) => Ok(Err(fault)),
        }
    }
}

fn read_value(alloc: Global, value: Value, after: Kept, next: usize) -> Tried<Read> {
    let value = value.scalar(alloc)?;
    Ok(Ok((Some(value), after.entry(alloc)?, next)))
}

// What was read is what is wanted. Want of memory ends the test: so its allocations can be refused in turn.
fn judged(rt: &impl Abort, alloc: Global, read: Read, wanted: Wanted) -> Tried {
    if let Err(FieldFault::Memory) = read {
        return Err(AllocError);
    }
    same(rt, read, wanted.read(alloc)?);
    Ok(())
}

// What is found of one field where its entry lies.
fn found_in_place(
    alloc: Global,
    instr: &FieldPart,
    entry: &mut Entry,
    level: Level,
    row: &Row,
) -> Tried<ReadInPlace> {
    let (bit, bytes) = (row.2, row.3);
    match read_in_place(&mut Spare::new(alloc), instr, entry, bit, level, bytes, 0) {
        Ok((found, next)) => {
            let value = found.into_value(alloc, instr, entry.view())?;
            Ok(Ok((value, next)))
        }
        Err(fault) => Ok(Err(fault)),
    }
}

// Reads one field beside its entry, and where it lies; what is found is compared with what is wanted. A refusal leaves
// the entry.
fn read_so(rt: &impl Abort, alloc: Global, level: Level, row: &Row) -> Tried {
    let (instr, before) = (row.0.instr(alloc)?, row.1.entry(alloc)?);
    let read = read_field(alloc, &instr, before.view(), row.2, level, row.3, 0);
    judged(rt, alloc, read, row.4)?;
    let mut entry = row.1.entry(alloc)?;
    match found_in_place(alloc, &instr, &mut entry, level, row)? {
        Ok((value, next)) => judged(rt, alloc, Ok((value, entry, next)), row.4),
        Err(fault) => {
            same(rt, entry, before);
            judged(rt, alloc, Err(fault), row.4)
        }
    }
}

#[test]
fn fields_that_are_read(rt: HostRuntime) -> Tried {
    const ROWS: &[Row] = rows! { Row:
        // increments go past the greatest
        Mandatory(UInt32, Increment), Has(U32(4_294_967_295)), false, b"", Keeps(U32(0), 0);
        Mandatory(Int32, Increment), Has(I32(i32::MAX)), false, b"", Keeps(I32(i32::MIN), 0);
        // copies of no value
        Mandatory(Kind::Ascii, Copy), Undefined, false, b"", Fault(D5);
        Mandatory(Kind::Ascii, Copy), Empty, false, b"", Fault(D6);
        Optional(UInt32, Copy), Undefined, false, b"", Absent(Empty, 0);
        // copies on another type
        Mandatory(UInt32, Copy), Has(Ascii(b"A")), false, b"", Fault(D4);
        Mandatory(UInt32, Copy), Has(Ascii(b"A")), true, b"\x86", Keeps(U32(6), 1);
        // defaults
        Initial(Presence::Mandatory, Default, 3), Undefined, true, b"\x10\x00\x00\x00\x80", Fault(D2);
        Initial(Presence::Mandatory, Default, 3), Undefined, true, b"\x10\x00\x00\x00", Fault(NeedMore);
        Initial(Presence::Mandatory, Default, 3), Undefined, false, b"", Present(U32(3), Undefined, 0);
        // copies of an initial value
        Initial(Presence::Optional, Copy, 5), Empty, false, b"", Absent(Empty, 0);
        Initial(Presence::Optional, Copy, 5), Undefined, false, b"", Keeps(U32(5), 0);
        // vectors
        Optional(Kind::Bytes, Plain), Empty, true, b"\x83\x01\xff", Present(Bytes(b"\x01\xff"), Empty, 3);
        // constants
        Initial(Presence::Optional, Constant, 9), Undefined, false, b"", Absent(Undefined, 0);
        Initial(Presence::Optional, Constant, 9), Undefined, true, b"", Present(U32(9), Undefined, 0);
        // string deltas
        Mandatory(Kind::Ascii, Delta), Has(Ascii(b"ESM6")), true, b"\xff\x80", Keeps(Ascii(b"ESM6"), 2);
        Mandatory(Kind::Ascii, Delta), Has(Ascii(b"GEM6")), true, b"\xfd\x45\xd3", Keeps(Ascii(b"ESM6"), 3);
        Mandatory(Kind::Ascii, Delta), Has(Ascii(b"ESM6")), true, b"\x82\x5a\xb6", Keeps(Ascii(b"ESZ6"), 3);
        // deltas that remove too much
        Mandatory(Kind::Ascii, Delta), Has(Ascii(b"ESM6")), true, b"\x85\x80", Fault(D7);
        // number deltas
        Mandatory(UInt32, Delta), Has(U32(4_294_967_295)), true, b"\x81", Fault(D2);
        Mandatory(UInt32, Delta), Empty, true, b"\x81", Fault(D6);
        // absent deltas
        Optional(UInt32, Delta), Empty, true, b"\x80", Absent(Empty, 1);
        Optional(UInt32, Delta), Has(U32(5)), true, b"\x80", Absent(Has(U32(5)), 1);
        // tails
        Optional(Kind::Ascii, Tail), Has(Ascii(b"xab")), true, b"\x00\x00\x00\xe2", Keeps(Ascii(b"x\0b"), 4);
        // tails of text
        Mandatory(Kind::Unicode, Tail), Has(Unicode("é")), true, b"\x81\xa8", Keeps(Unicode("è"), 2);
        Mandatory(Kind::Unicode, Tail), Has(Unicode("è")), true, b"\x81\x41", Fault(R2);
        // a result that is too long before one that is no UTF-8
        Mandatory(Kind::Unicode, Delta), Has(Letters(65_535)), true, b"\x80\x81\xff", Fault(Limit);
        Mandatory(Kind::Unicode, Delta), Has(Letters(65_535)), true, b"\xff\x81\xff", Fault(Limit);
        Mandatory(Kind::Unicode, Delta), Has(Letters(65_534)), true, b"\x80\x81\xff", Fault(R2);
        Mandatory(Kind::Unicode, Delta), Has(Letters(65_535)), true, b"\x81\x81\xff", Fault(R2);
        Mandatory(Kind::Unicode, Tail), Has(Letters(65_535)), true, b"\x81\xff", Fault(R2);
        Mandatory(Kind::Unicode, Tail), Has(Letters(65_535)), true, b"\x04\x00\x80", Fault(Limit);
        // exponents
        Exponent(Presence::Optional, Default, Some(2)), Undefined, true, b"\x80", Absent(Undefined, 1);
        Exponent(Presence::Optional, Default, Some(2)), Undefined, true, b"\x00\xc0", Present(I32(63), Undefined, 2);
        Exponent(Presence::Optional, Default, Some(2)), Undefined, true, b"\x00\xc1", Fault(R1);
        // whole decimals
        Mandatory(Kind::Decimal, Copy), Undefined, true, b"\xfe\x39\x45\xa3", Keeps(Decimal(-2, 942_755), 4);
        // decimal deltas
        Mandatory(Kind::Decimal, Delta), Has(Decimal(-2, 7)), true, b"\x81\xfe", Keeps(Decimal(-1, 5), 2);
        // an exponent out of range is refused before a mantissa has come
        Mandatory(Kind::Decimal, Delta), Undefined, true, b"\x00\xc0", Fault(R1);
        // lengths
        Length(Copy), Has(U32(65_536)), false, b"", Fault(Limit);
    };
    for row in ROWS {
        read_so(&rt, rt.alloc(), Level::Usual, row)?;
    }
    Ok(())
}

#[test]
fn fields_at_the_strict_level(rt: HostRuntime) -> Tried {
    const ROWS: &[Row] = rows! { Row:
        // overlong fields
        Mandatory(UInt32, Plain), Undefined, true, b"\x00\x85", Fault(R6);
        // an overlong NULL
        Optional(UInt64, Copy), Undefined, true, b"\x00\x80", Fault(R6);
        Mandatory(Int32, Plain), Undefined, true, b"\x00\xbf", Fault(R6);
        Mandatory(Int64, Delta), Undefined, true, b"\x7f\xc0", Fault(R6);
        Mandatory(Kind::Ascii, Copy), Undefined, true, b"\x00\xc1", Fault(R9);
        Optional(Kind::Ascii, Tail), Undefined, true, b"\x00\x00\xc1", Fault(R9);
        Mandatory(Kind::Bytes, Plain), Undefined, true, b"\x00\x81\x41", Fault(R6);
        Optional(Kind::Unicode, Default), Undefined, true, b"\x00\x80", Fault(R6);
        // a number of units to be removed, and a new part
        Mandatory(Kind::Ascii, Delta), Undefined, true, b"\x00\x80\xc1", Fault(R6);
        Optional(Kind::Ascii, Delta), Undefined, true, b"\x81\x00\xc1", Fault(R9);
        Mandatory(Kind::Bytes, Delta), Undefined, true, b"\x80\x00\x81\x41", Fault(R6);
        Mandatory(Kind::Unicode, Tail), Undefined, true, b"\x00\x81\x41", Fault(R6);
        // an exponent, and a mantissa
        Optional(Kind::Decimal, Plain), Undefined, true, b"\x00\x83\x81", Fault(R6);
        Mandatory(Kind::Decimal, Delta), Undefined, true, b"\x82\x7f\xff", Fault(R6);
        Exponent(Presence::Mandatory, Copy, None), Undefined, true, b"\x00\x82", Fault(R6);
        Length(Plain), Undefined, true, b"\x00\x82", Fault(R6);
        // fields that are just not
        Mandatory(Int32, Plain), Undefined, true, b"\x00\xc0", Present(I32(64), Undefined, 2);
        Mandatory(Int64, Plain), Undefined, true, b"\x7f\xbf", Present(I64(-65), Undefined, 2);
        Mandatory(Kind::Ascii, Copy), Undefined, true, b"\x00\x80", Keeps(Ascii(b"\0"), 2);
        Mandatory(Kind::Ascii, Copy), Undefined, true, b"\x00\x00\xc1", Keeps(Ascii(b"\0A"), 3);
        Optional(Kind::Ascii, Copy), Undefined, true, b"\x00\x80", Keeps(Ascii(b""), 2);
        Optional(Kind::Ascii, Copy), Undefined, true, b"\x00\x00\x80", Keeps(Ascii(b"\0"), 3);
        // the new part has the form without NULL
        Optional(Kind::Ascii, Delta), Undefined, true, b"\x81\x00\x00\xc1", Keeps(Ascii(b"\0A"), 4);
        Mandatory(Kind::Decimal, Plain), Undefined, true, b"\x82\x00\x40\x81", Present(Decimal(2, 8193), Undefined, 4);
        Optional(UInt32, Copy), Undefined, true, b"\x80", Absent(Empty, 1);
        // bit 0 reads no byte
        Mandatory(UInt32, Copy), Has(U32(7)), false, b"\x00\x80", Keeps(U32(7), 0);
        // overlong before other faults
        Mandatory(UInt32, Plain), Undefined, true, b"\x00\x10\x00\x00\x00\x80", Fault(R6);
        Mandatory(UInt32, Plain), Undefined, true, b"\x10\x00\x00\x00\x80", Fault(D2);
        Mandatory(UInt32, Plain), Undefined, true, b"\x00", Fault(NeedMore);
        Mandatory(UInt32, Plain), Undefined, true, b"\x00\x00\x00\x00\x00\x00\x00\x00\x00\x00", Fault(Limit);
        Length(Plain), Undefined, true, b"\x00\x04\x00\x80", Fault(R6);
        Length(Plain), Undefined, true, b"\x04\x00\x80", Fault(Limit);
        Mandatory(Kind::Ascii, Delta), Empty, true, b"\x00\x80\x80", Fault(R6);
        // the base before the new part
        Mandatory(Kind::Ascii, Delta), Empty, true, b"\x80\x00\xc1", Fault(D6);
        Mandatory(Kind::Ascii, Tail), Has(U32(7)), true, b"\x00\xc1", Fault(R9);
        Mandatory(Kind::Ascii, Tail), Has(U32(7)), true, b"\xc1", Fault(D4);
        // before the bytes have come
        Mandatory(Kind::Bytes, Plain), Undefined, true, b"\x00\x82\x41", Fault(R6);
        Mandatory(Kind::Unicode, Plain), Undefined, true, b"\x00\x81\xff", Fault(R6);
        // the exponent before the mantissa
        Mandatory(Kind::Decimal, Plain), Undefined, true, b"\x00\xc0\x00\x81", Fault(R1);
        Mandatory(Kind::Decimal, Plain), Undefined, true, b"\x00\x00\xc0", Fault(R6);
    };
    for row in ROWS {
        read_so(&rt, rt.alloc(), Level::Strict, row)?;
    }
    Ok(())
}

// A field, its entry, a value, and the entry that the value leaves.
struct Next(Shape, Kept, Option<Value>, Kept);

fn leaves(rt: &impl Abort, alloc: Global, row: &Next) -> Tried {
    let (instr, entry) = (row.0.instr(alloc)?, row.1.entry(alloc)?);
    let value = scalar_of(alloc, row.2)?;
    let after = next_entry(alloc, &instr, entry.view(), value.as_ref())?;
    is_kept(rt, alloc, &after, row.3)
}

#[test]
fn entries_after_values(rt: HostRuntime) -> Tried {
    const ROWS: &[Next] = rows! { Next:
        Mandatory(Kind::Ascii, Delta), Has(Ascii(b"GEM6")), Some(Ascii(b"ESM6")), Has(Ascii(b"ESM6"));
        // no value
        Mandatory(Kind::Ascii, Delta), Has(Ascii(b"GEM6")), None, Has(Ascii(b"GEM6"));
        Optional(Kind::Ascii, Copy), Has(Ascii(b"GEM6")), None, Empty;
    };
    for row in ROWS {
        leaves(&rt, rt.alloc(), row)?;
    }
    Ok(())
}

// A copy of what is read under bit 0 on an entry, where the field is an optional copy of characters.
fn copy_in(alloc: Global, kept: Kept) -> Tried<Option<Scalar>> {
    let instr = Optional(Kind::Ascii, Copy).instr(alloc)?;
    let entry = kept.entry(alloc)?;
    let spare = &mut Spare::new(alloc);
    let kept = entry.view();
    match find_field(spare, &instr, kept, false, Level::Usual, &[], 0) {
        Ok((found, _)) => match found.value(&instr, kept) {
            Some(value) => Ok(Some(value.copy(alloc)?)),
            None => Ok(None),
        },
        Err(_) => Ok(None),
    }
}

#[test]
fn values_that_lie_in_the_entry(rt: HostRuntime) -> Tried {
    let value = copy_in(rt.alloc(), Has(Ascii(b"GEM6")))?;
    same(&rt, value, Some(Ascii(b"GEM6").scalar(rt.alloc())?));
    Ok(())
}
