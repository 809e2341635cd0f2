//! Rows on fields that are passed at once, and on numbers that are sent in one byte. A test has a table of rows, since each
//! value that is made at a call makes its proof longer.

use crate::base::*;
use crate::fields::Kept::{Empty, Has, Undefined};
use crate::fields::Shape::{Exponent, Initial, Length, Mandatory, Optional};
use crate::fields::Value::{Ascii, I32, I64, U32, U64};
use crate::fields::{Kept, Shape, are_such, is_kept};
use fast_dictionary::Entry;
use fast_field::Passed::{Absent, Elsewhere, Present};
use fast_field::{Passed, pass_left_out};
use fast_take::{pass_quickly, take_short_number};
use fast_template::Kind::{Int32, Int64, UInt32, UInt64};
use fast_template::Operator::{Constant, Copy, Default, Delta, Increment, Plain, Tail};
use fast_template::{Kind, Operator, Part, Presence};

// A field, its entry, what bit 0 gives, and the entry afterwards.
struct Row(Shape, Kept, Passed, Kept);

fn passes(rt: &impl Abort, alloc: Global, row: &Row) -> Tried {
    let instr = row.0.instr(alloc)?;
    let mut entry = row.1.entry(alloc)?;
    same(rt, pass_left_out(&instr, &mut entry), row.2);
    is_kept(rt, alloc, &entry, row.3)
}

#[test]
fn fields_that_are_passed(rt: HostRuntime) -> Tried {
    const ROWS: &[Row] = rows! { Row:
        // kept values are passed
        Mandatory(UInt32, Copy), Has(U32(5)), Present, Has(U32(5));
        Mandatory(UInt32, Copy), Has(U64(5)), Elsewhere, Has(U64(5));
        Mandatory(UInt32, Copy), Undefined, Elsewhere, Undefined;
        // kept texts are passed
        Optional(Kind::Ascii, Tail), Has(Ascii(b"AB")), Present, Has(Ascii(b"AB"));
        // uint32 increments are passed
        Mandatory(UInt32, Increment), Has(U32(5)), Present, Has(U32(6));
        Mandatory(UInt32, Increment), Has(U32(u32::MAX)), Present, Has(U32(0));
        Mandatory(UInt32, Increment), Has(U64(5)), Elsewhere, Has(U64(5));
        Mandatory(UInt32, Increment), Undefined, Elsewhere, Undefined;
        // increments of 64 bits are passed
        Optional(UInt64, Increment), Has(U64(u64::MAX)), Present, Has(U64(0));
        Optional(Int64, Increment), Has(I64(-1)), Present, Has(I64(0));
        Optional(Int64, Increment), Has(I64(i64::MAX)), Present, Has(I64(i64::MIN));
        // int32 increments are passed
        Mandatory(Int32, Increment), Has(I32(i32::MAX)), Present, Has(I32(i32::MIN));
        Mandatory(Int32, Increment), Has(I32(-1)), Present, Has(I32(0));
        // initial values are passed
        Initial(Presence::Mandatory, Default, 7), Undefined, Present, Undefined;
        Optional(UInt32, Default), Undefined, Absent, Undefined;
        // absent fields are passed
        Optional(Kind::Decimal, Copy), Empty, Absent, Empty;
        Optional(Int32, Increment), Empty, Absent, Empty;
        Optional(Kind::Ascii, Tail), Empty, Absent, Empty;
        Initial(Presence::Optional, Constant, 7), Undefined, Absent, Undefined;
        // mandatory fields are not absent
        Mandatory(UInt32, Copy), Empty, Elsewhere, Empty;
        Mandatory(UInt32, Increment), Empty, Elsewhere, Empty;
        Initial(Presence::Mandatory, Constant, 7), Undefined, Elsewhere, Undefined;
        // fields without a bit are not passed
        Optional(UInt32, Plain), Has(U32(5)), Elsewhere, Has(U32(5));
        Optional(UInt32, Delta), Has(U32(5)), Elsewhere, Has(U32(5));
        // lengths are passed
        Length(Increment), Has(U32(65_534)), Present, Has(U32(65_535));
        Length(Increment), Has(U32(65_535)), Elsewhere, Has(U32(65_535));
        Length(Copy), Has(U32(65_536)), Elsewhere, Has(U32(65_536));
        // exponents are passed
        Exponent(Presence::Mandatory, Increment, None), Has(I32(62)), Present, Has(I32(63));
        Exponent(Presence::Mandatory, Increment, None), Has(I32(63)), Elsewhere, Has(I32(63));
        Exponent(Presence::Mandatory, Default, Some(64)), Undefined, Elsewhere, Undefined;
    };
    for row in ROWS {
        passes(&rt, rt.alloc(), row)?;
    }
    Ok(())
}

// What bit 0 gives of an undefined entry, and the entry afterwards.
struct First(Shape, Passed, Kept);

fn passes_first(rt: &impl Abort, alloc: Global, row: &First) -> Tried {
    let instr = row.0.instr(alloc)?;
    let mut entry = Entry::Undefined;
    if !are_such(rt, &instr, &entry) {
        return Ok(());
    }
    same(rt, pass_quickly(instr.part, &instr, &mut entry), row.1);
    is_kept(rt, alloc, &entry, row.2)
}

#[test]
fn what_undefined_entries_give(rt: HostRuntime) -> Tried {
    const ROWS: &[First] = rows! { First:
        // no value, where there is no initial one and the field may be absent
        Optional(UInt32, Copy), Absent, Empty;
        Optional(Int64, Increment), Absent, Empty;
        Optional(Kind::Ascii, Tail), Absent, Empty;
        Mandatory(UInt32, Copy), Elsewhere, Undefined;
        // the initial value, which is not increased
        Initial(Presence::Mandatory, Copy, 7), Present, Has(U32(7));
        Initial(Presence::Optional, Increment, 7), Present, Has(U32(7));
        Initial(Presence::Mandatory, Increment, u32::MAX), Present, Has(U32(u32::MAX));
    };
    for row in ROWS {
        passes_first(&rt, rt.alloc(), row)?;
    }
    Ok(())
}

// A field, its entry, bytes, the number that is taken, and the entry afterwards.
struct Short(Shape, Kept, &'static [u8], Option<u32>, Kept);

fn is_taken(rt: &impl Abort, alloc: Global, row: &Short) -> Tried {
    let instr = row.0.instr(alloc)?;
    let mut entry = row.1.entry(alloc)?;
    if instr.part != Part::Whole || instr.kind != Kind::UInt32 {
        same(rt, false, true);
        return Ok(());
    }
    same(rt, take_short_number(&instr, &mut entry, row.2, 0), row.3);
    is_kept(rt, alloc, &entry, row.4)
}

#[test]
fn numbers_in_one_byte(rt: HostRuntime) -> Tried {
    const COPY: Shape = Mandatory(UInt32, Copy);
    const FIRST: Shape = Initial(Presence::Mandatory, Copy, 7);
    const ROWS: &[Short] = rows! { Short:
        // another one than the entry has
        COPY, Undefined, b"\x85", Some(5), Has(U32(5));
        COPY, Empty, b"\x80", Some(0), Has(U32(0));
        COPY, Has(U32(4)), b"\xff\x80", Some(127), Has(U32(127));
        FIRST, Undefined, b"\x88", Some(8), Has(U32(8));
        FIRST, Has(U32(8)), b"\x87", Some(7), Has(U32(7));
        // the same one, which bit 0 gives
        COPY, Has(U32(5)), b"\x85", None, Has(U32(5));
        FIRST, Undefined, b"\x87", None, Undefined;
        // more than a byte, or none
        COPY, Undefined, b"\x01\x80", None, Undefined;
        COPY, Has(U32(4)), b"\x00\x85", None, Has(U32(4));
        COPY, Empty, b"", None, Empty;
        // one that may be absent, or is not kept
        Optional(UInt32, Copy), Undefined, b"\x85", None, Undefined;
        Mandatory(UInt32, Plain), Undefined, b"\x85", None, Undefined;
        Mandatory(UInt32, Delta), Has(U32(4)), b"\x85", None, Has(U32(4));
    };
    for row in ROWS {
        is_taken(&rt, rt.alloc(), row)?;
    }
    Ok(())
}
