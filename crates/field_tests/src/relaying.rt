//! Rows on fields that are best spelled otherwise than they stand, or are NULL.

ghost use Rattle.fast_field.specs.Parts.{IsFieldPart};

use crate::base::*;
use crate::fields::Kept::{Empty, Has, Undefined};
use crate::fields::Shape::{Initial, Mandatory, Optional};
use crate::fields::Value::{Ascii, Bytes, Decimal, U32, Unicode};
use crate::fields::{Kept, Shape, are_such, is_kept};
use crate::judged::holds_scalar;
use crate::takes::is_taken;
use fast_dictionary::Entry;
use fast_field::{FieldFault, Level};
use fast_take::{Aside, Judged, Took, relay_judged};
use fast_template::Kind::UInt32;
use fast_template::Operator::{Constant, Copy, Default, Delta, Increment, Plain, Tail};
use fast_template::{FieldPart, Kind, Operator, Presence};

// A field, its entry, bytes behind the first that are read to their end, those of the best form, under bit 1, or none, under
// bit 0, and the entry afterwards.
#[derive(Clone, Copy)]
struct Relayed(Shape, Kept, &'static [u8], &'static [u8], Kept);

// A field, its entry, and bytes behind the first that are left to the ways that take any: they are as they are read.
#[derive(Clone, Copy)]
struct Left(Shape, Kept, &'static [u8]);

// A field that was sent and does not stand is relayed with this answer (whether there is a value, the bit, and the place behind
// the field) and this best form. Answers what became of it, and what lies aside.
pub(crate) fn relay(
    rt: &impl Abort,
    alloc: Global,
    instr: &FieldPart,
    entry: &mut Entry,
    bytes: &[u8],
    answer: (bool, bool, usize),
    form: &[u8],
) -> Tried<(Took, Aside)>
    requires { IsFieldPart instr.now }
{
    // no other is relayed
    if !holds_scalar(entry) {
        same(rt, false, true);
        return Err(AllocError);
    }
    let (mut aside, mut out) = (Aside::new(alloc), Vec::new(alloc));
    let (judged, level, at) = (Judged::Elsewhere, Level::Usual, bytes.len().min(1));
    match relay_judged(judged, instr, entry, level, bytes, at, &mut aside) {
        Err(fault) => {
            same(rt, fault, FieldFault::Memory);
            Err(AllocError)
        }
        Ok(took) => {
            aside.append_best(took, bytes, at, &mut out)?;
            let (there, bit) = (took.is_there(&aside), took.best_bit(true, &aside));
            same(rt, (there, bit, took.place()), answer);
            same(rt, out.as_slice(), form);
            Ok((took, aside))
        }
    }
}

// `there` says whether there is a value: it was sent as a difference then, and all of its best form but how much is removed
// stands in what was read.
fn is_relayed(rt: &impl Abort, alloc: Global, there: bool, row: &Relayed) -> Tried {
    let Relayed(of, before, bytes, form, after) = *row;
    let instr = of.instr(alloc)?;
    let mut entry = before.entry(alloc)?;
    if !are_such(rt, &instr, &entry) {
        return Ok(());
    }
    let answer = (there, !form.is_empty(), bytes.len());
    let (_, aside) = relay(rt, alloc, &instr, &mut entry, bytes, answer, form)?;
    is_kept(rt, alloc, &entry, after)?;
    // where memory is refused for the removal, the way that takes any makes the whole form
    if there && aside.made.as_slice() != &form[..form.len().min(1)] {
        return Err(AllocError);
    }
    Ok(())
}

fn all_relayed(rt: &impl Abort, alloc: Global, there: bool, rows: &[Relayed]) -> Tried {
    for row in rows {
        is_relayed(rt, alloc, there, row)?;
    }
    Ok(())
}

fn is_as_read(rt: &impl Abort, alloc: Global, row: &Left) -> Tried {
    let Left(of, before, bytes) = *row;
    let (instr, entry) = (of.instr(alloc)?, before.entry(alloc)?);
    if are_such(rt, &instr, &entry) {
        let (level, at, aside) = (Level::Usual, bytes.len().min(1), &mut Aside::new(alloc));
        is_taken(rt, alloc, &instr, &entry, true, level, bytes, at, aside)?;
    }
    Ok(())
}

fn all_as_read(rt: &impl Abort, alloc: Global, rows: &[Left]) -> Tried {
    for row in rows {
        is_as_read(rt, alloc, row)?;
    }
    Ok(())
}

#[test]
fn texts_that_are_relayed(rt: HostRuntime) -> Tried {
    const RELAYED: &[Relayed] = rows! { Relayed:
        // deltas
        Mandatory(Kind::Ascii, Delta), Has(Ascii(b"ESM6")), b"\x00\x81\xb7", b"\x81\xb7", Has(Ascii(b"ESM7"));
        // the same end, and as short a removal
        Mandatory(Kind::Ascii, Delta), Has(Ascii(b"0012")), b"\x00\x82\x32\xb2", b"\x82\x32\xb2", Has(Ascii(b"0022"));
        // one more is removed than need be
        Mandatory(Kind::Ascii, Delta), Has(Ascii(b"ESM6")), b"\x00\x82\x4d\xb7", b"\x81\xb7", Has(Ascii(b"ESM7"));
        // two more, behind an overlong removal, and a preamble stands in front of the part
        Mandatory(Kind::Ascii, Delta), Has(Ascii(b"ESM6")), b"\x00\x00\x83\x00\x53\x4d\xb7", b"\x81\xb7",
            Has(Ascii(b"ESM7"));
    };
    const OTHERS: &[Left] = rows! { Left:
        // the rest goes the general way
        // removed in front are fewer
        Mandatory(Kind::Ascii, Delta), Has(Ascii(b"0012")), b"\x00\x84\x31\x30\x31\xb2";
        // more is removed than there is
        Mandatory(Kind::Ascii, Delta), Has(Ascii(b"ESM6")), b"\x00\x85\xb7";
        // a tail
        Mandatory(Kind::Ascii, Tail), Has(Ascii(b"xab")), b"\x00\xe2";
        // what is spelled whole: an empty string, and one with no stop bit
        Optional(Kind::Ascii, Copy), Has(Ascii(b"AB")), b"\x00\x00\x80";
        Mandatory(Kind::Ascii, Copy), Has(Ascii(b"AB")), b"\x00\x41";
        // Unicode strings and byte vectors
        Mandatory(Kind::Unicode, Tail), Has(Unicode("üab")), b"\x00\x82\x61\x63";
        Mandatory(Kind::Bytes, Delta), Has(Bytes(b"ESM6")), b"\x00\x84\x84\x58\x53\x4d\x36";
    };
    all_relayed(&rt, rt.alloc(), true, RELAYED)?;
    all_as_read(&rt, rt.alloc(), OTHERS)
}

#[test]
fn nulls_that_are_relayed(rt: HostRuntime) -> Tried {
    const RELAYED: &[Relayed] = rows! { Relayed:
        // null empties an entry
        Optional(UInt32, Copy), Has(U32(7)), b"\xff\x80", b"\x80", Empty;
        Optional(Kind::Ascii, Copy), Has(Ascii(b"AB")), b"\xff\x80", b"\x80", Empty;
        Optional(Kind::Unicode, Tail), Has(Unicode("ü")), b"\xff\x80", b"\x80", Empty;
        // bit 0 gives the initial value
        Initial(Presence::Optional, Increment, 5), Undefined, b"\xff\x80", b"\x80", Empty;
        // null leaves an entry
        Optional(Kind::Decimal, Delta), Has(Decimal(-2, 7)), b"\xff\x80", b"\x80", Has(Decimal(-2, 7));
        Optional(Kind::Bytes, Plain), Has(Bytes(b"AB")), b"\xff\x80", b"\x80", Has(Bytes(b"AB"));
        // bit 0 gives the initial value
        Initial(Presence::Optional, Default, 5), Undefined, b"\xff\x80", b"\x80", Undefined;
        // bit 0 gives null
        Optional(UInt32, Copy), Empty, b"\xff\x80", b"", Empty;
        Optional(UInt32, Default), Has(U32(7)), b"\xff\x80", b"", Has(U32(7));
        Optional(Kind::Ascii, Default), Undefined, b"\xff\x80", b"", Undefined;
    };
    const OTHERS: &[Left] = rows! { Left:
        // what is not of the entry goes the general way
        Optional(UInt32, Increment), Undefined, b"\xff\x80";
        // the rest is no null
        // the number 0
        Mandatory(UInt32, Copy), Has(U32(7)), b"\xff\x80";
        // a constant has no bytes
        Initial(Presence::Optional, Constant, 5), Undefined, b"\xff\x80";
        // an overlong NULL of a number
        Optional(UInt32, Copy), Has(U32(7)), b"\xff\x00\x80";
        // an overlong NULL of a string
        Optional(Kind::Unicode, Copy), Has(Unicode("ü")), b"\xff\x00\x80";
        // a value
        Optional(UInt32, Copy), Has(U32(7)), b"\xff\x81";
        // no byte
        Optional(UInt32, Copy), Has(U32(7)), b"\xff";
    };
    all_relayed(&rt, rt.alloc(), false, RELAYED)?;
    all_as_read(&rt, rt.alloc(), OTHERS)
}
