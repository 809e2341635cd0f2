//! Rows on fields that are judged as they stand.

ghost use Rattle.std.specs.Prelude.{◌≡◌, ◌≤◌, ◌<◌, IsTrue, true, length};
ghost use Rattle.std.specs.List.{AllByRecursion};
ghost use Rattle.fast_value.specs.Scalar.{IsScalar};
ghost use Rattle.fast_template.specs.TemplateSets.{applies};
ghost use Rattle.fast_field.specs.Parts.{IsKindOfPart};
ghost use Rattle.fast_field.specs.Within.{HoldsScalar};

use crate::base::*;
use crate::fields::Kept::{Empty, Has, Undefined};
use crate::fields::Shape::{Exponent, Initial, Mandatory, Mantissa, Optional};
use crate::fields::Value::{Ascii, Bytes, Decimal, I32, I64, U32, U64, Unicode};
use crate::fields::{Kept, Shape, are_such, is_kept};
use fast_dictionary::{Entry, Spare};
use fast_field::Level;
use fast_take::Judged::{Behind, BehindTwo, Given, Stands};
use fast_take::{Judged, judge_sent};
use fast_template::Kind::{Int32, Int64, UInt32, UInt64};
use fast_template::Operator::{Copy, Default, Delta, Increment, Plain, Tail};
use fast_template::{FieldPart, Kind, Operator, Part, Presence, Scalar};
use fast_value::UNIT_LIMIT;

// A field, its entry, what the bytes behind the first are judged to be, and the entry afterwards.
#[derive(Clone, Copy)]
struct Row(Shape, Kept, &'static [u8], Judged, Kept);

// A field, its entry, and bytes behind the first that are not judged: nothing has changed.
struct Left(Shape, Kept, &'static [u8]);

// Whether there are not too many bytes.
fn are_few(bytes: &[u8]) -> bool
    ensures { result ≡ true
        → (length bytes.now ≤ 65535) × AllByRecursion (λ c. c < 256) bytes.now }
{
    bytes.len() <= UNIT_LIMIT
}

// Whether a value is within its type. (A number is looked at only so that its range is known.)
pub(crate) fn is_scalar(value: &Scalar) -> bool
    ensures { result ≡ true → IsScalar value.now }
{
    match value {
        Scalar::U32(number) => *number <= u32::MAX,
        Scalar::I32(number) => *number <= i32::MAX,
        Scalar::U64(number) => *number <= u64::MAX,
        Scalar::I64(number) => *number <= i64::MAX,
        Scalar::Decimal { exponent, mantissa } => {
            *exponent >= -63 && *exponent <= 63 && *mantissa <= i64::MAX
        }
        Scalar::Ascii(text) => { text.as_slice().len() <= UNIT_LIMIT && text.as_slice().is_ascii() }
        Scalar::Unicode(text) => are_few(text.as_bytes()),
        Scalar::Bytes(bytes) => are_few(bytes.as_slice()),
    }
}

// Whether an entry's value is.
pub(crate) fn holds_scalar(entry: &Entry) -> bool
    ensures { result ≡ true → HoldsScalar entry.now }
{
    match entry {
        Entry::Undefined | Entry::Empty => true,
        Entry::Assigned(value) => is_scalar(value),
    }
}

// Whether an operator applies to a type.
pub(crate) fn applies_to(operator: Operator, kind: Kind) -> bool
    ensures { result ≡ true → IsTrue (applies operator kind) }
{
    match (operator, kind) {
        (Operator::Increment, Kind::UInt32 | Kind::Int32 | Kind::UInt64 | Kind::Int64) => true,
        (Operator::Increment, _) => false,
        (Operator::Tail, Kind::Ascii | Kind::Unicode | Kind::Bytes) => true,
        (Operator::Tail, _) => false,
        _ => true,
    }
}

// Whether a part has this type.
pub(crate) fn has_kind(part: Part, kind: Kind) -> bool
    ensures { result ≡ true → IsKindOfPart part kind }
{
    match (part, kind) {
        (Part::Whole, _) => true,
        (Part::Exponent, Kind::Int32) => true,
        (Part::Mantissa, Kind::Int64) => true,
        (Part::Length, Kind::UInt32) => true,
        _ => false,
    }
}

// Want of memory leaves the entry as it was, and ends the test.
fn is_judged(rt: &impl Abort, alloc: Global, row: Row) -> Tried {
    let Row(of, before, bytes, judged, after) = row;
    let instr = of.instr(alloc)?;
    let mut entry = before.entry(alloc)?;
    // no other is judged
    if !are_such(rt, &instr, &entry) {
        return Ok(());
    }
    let (level, at) = (Level::Usual, bytes.len().min(1));
    let spare = &mut Spare::new(alloc);
    let answer = judge_sent(instr.part, spare, &instr, &mut entry, level, bytes, at);
    if answer == Judged::Elsewhere && judged != Judged::Elsewhere {
        is_kept(rt, alloc, &entry, before)?;
        return Err(AllocError);
    }
    same(rt, answer, judged);
    is_kept(rt, alloc, &entry, after)
}

fn all_judged(rt: &impl Abort, alloc: Global, rows: &[Row], left: &[Left]) -> Tried {
    for row in rows {
        is_judged(rt, alloc, *row)?;
    }
    for Left(of, before, bytes) in left {
        let row = Row(*of, *before, *bytes, Judged::Elsewhere, *before);
        is_judged(rt, alloc, row)?;
    }
    Ok(())
}

#[test]
fn strings(rt: HostRuntime) -> Tried {
    const JUDGED: &[Row] = rows! { Row:
        // copies stand where they differ, and bit 0 gives those that do not
        Mandatory(Kind::Ascii, Copy), Has(Ascii(b"AB")), b"\x00\x43\xc4", Stands(3), Has(Ascii(b"CD"));
        Optional(Kind::Ascii, Copy), Empty, b"\x00\x43\xc4", Stands(3), Has(Ascii(b"CD"));
        Mandatory(Kind::Ascii, Copy), Has(Ascii(b"AB")), b"\x00\x41\xc2", Given(3), Has(Ascii(b"AB"));
        // an undefined entry
        Mandatory(Kind::Ascii, Copy), Undefined, b"\x00\x43\xc4", Stands(3), Has(Ascii(b"CD"));
        // a string with no operator, and a default, leave their entries
        Mandatory(Kind::Ascii, Plain), Undefined, b"\x00\x43\xc4", Stands(3), Undefined;
        Optional(Kind::Ascii, Default), Has(Ascii(b"AB")), b"\x00\x43\xc4", Stands(3), Has(Ascii(b"AB"));
        // deltas stand where no shorter one gives the same
        Mandatory(Kind::Ascii, Delta), Has(Ascii(b"ESM6")),
            b"\x00\x81\xb7\0\0\0\0\0\0\0\0\0\0\0\0\0\0\0", Stands(3), Has(Ascii(b"ESM7"));
        Mandatory(Kind::Ascii, Delta), Has(Ascii(b"0012")),
            b"\x00\x82\x32\xb2\0\0\0\0\0\0\0\0\0\0\0\0\0\0\0", Stands(4), Has(Ascii(b"0022"));
        // so do tails, and bit 0 gives an end that is there already
        Mandatory(Kind::Ascii, Tail), Has(Ascii(b"xab")), b"\x00\xe3", Stands(2), Has(Ascii(b"xac"));
        Mandatory(Kind::Ascii, Tail), Has(Ascii(b"xab")), b"\x00\x61\xe2", Given(3), Has(Ascii(b"xab"));
        // the first character of a tail, or two, are there already
        Mandatory(Kind::Ascii, Tail), Has(Ascii(b"xab")), b"\x00\x61\xe3", Behind(3), Has(Ascii(b"xac"));
        Mandatory(Kind::Ascii, Tail), Has(Ascii(b"xab")), b"\x00\x78\x61\xe3", BehindTwo(4), Has(Ascii(b"xac"));
        // behind a preamble that is not needed
        Mandatory(Kind::Ascii, Copy), Has(Ascii(b"AB")), b"\x00\x00\x43\xc4", Behind(4), Has(Ascii(b"CD"));
        Mandatory(Kind::Ascii, Copy), Has(Ascii(b"AB")), b"\x00\x00\x41\xc2", Given(4), Has(Ascii(b"AB"));
    };
    const OTHERS: &[Left] = rows! { Left:
        // two zero groups, of which one is NUL
        Mandatory(Kind::Ascii, Copy), Has(Ascii(b"AB")), b"\x00\x00\x00\x43\xc4";
        // NULL
        Optional(Kind::Ascii, Copy), Has(Ascii(b"AB")), b"\x00\x80";
        // one character is removed and put back, and one removal in front is shorter
        Mandatory(Kind::Ascii, Delta), Has(Ascii(b"ESM6")), b"\x00\x82\x4d\xb7";
        Mandatory(Kind::Ascii, Delta), Has(Ascii(b"0012")), b"\x00\x84\x31\x30\x31\xb2";
        // an overlong removal
        Mandatory(Kind::Ascii, Delta), Has(Ascii(b"ESM6")), b"\x00\x00\x81\xb7";
        // a tail of which three characters are there already
        Mandatory(Kind::Ascii, Tail), Has(Ascii(b"abcd")), b"\x00\x61\x62\x63\xe5";
    };
    all_judged(&rt, rt.alloc(), JUDGED, OTHERS)
}

#[test]
fn integers(rt: HostRuntime) -> Tried {
    const JUDGED: &[Row] = rows! { Row:
        // a number stands where bit 0 gives another, and bit 0 gives the kept one
        Mandatory(UInt32, Copy), Has(U32(5)), b"\x00\x87", Stands(2), Has(U32(7));
        Mandatory(UInt32, Copy), Has(U32(5)), b"\x00\x85", Given(2), Has(U32(5));
        Optional(UInt32, Copy), Has(U32(5)), b"\x00\x88", Stands(2), Has(U32(7));
        // the one behind it where it is increased
        Mandatory(UInt64, Increment), Has(U64(5)), b"\x00\x86", Given(2), Has(U64(6));
        Mandatory(UInt64, Increment), Has(U64(5)), b"\x00\x85", Stands(2), Has(U64(5));
        // the first number of an undefined entry, where bit 0 gives none
        Mandatory(UInt32, Copy), Undefined, b"\x00\x87", Stands(2), Has(U32(7));
        Optional(Int64, Increment), Undefined, b"\x00\x88", Stands(2), Has(I64(7));
        // two groups, the first not needless
        Mandatory(Int32, Plain), Undefined, b"\x00\x00\xc0", Stands(3), Undefined;
        Mandatory(Int64, Delta), Has(I64(-1)), b"\x00\xff", Stands(2), Has(I64(-2));
        // the limits of an exponent, and a mantissa
        Exponent(Presence::Mandatory, Copy, None), Has(I32(0)), b"\x00\xbf", Stands(2), Has(I32(63));
        Mantissa(Delta), Has(I64(10)), b"\x00\x81", Stands(2), Has(I64(11));
        // behind one needless group
        Mandatory(UInt32, Copy), Has(U32(5)), b"\x00\x00\x87", Behind(3), Has(U32(7));
        Mandatory(UInt32, Copy), Has(U32(5)), b"\x00\x00\x85", Given(3), Has(U32(5));
        Mandatory(Int32, Copy), Has(I32(5)), b"\x00\x00\xbf", Behind(3), Has(I32(63));
        Mandatory(Int32, Copy), Has(I32(5)), b"\x00\x7f\xff", Behind(3), Has(I32(-1));
        // whose sign wants a group of its own
        Mandatory(Int32, Copy), Has(I32(5)), b"\x00\x00\x00\xc0", Behind(4), Has(I32(64));
        // behind two
        Mandatory(UInt32, Copy), Has(U32(5)), b"\x00\x00\x00\x87", BehindTwo(4), Has(U32(7));
        Mandatory(UInt32, Copy), Has(U32(5)), b"\x00\x00\x00\x85", Given(4), Has(U32(5));
        Optional(Int64, Delta), Has(I64(10)), b"\x00\x7f\x7f\xff", BehindTwo(4), Has(I64(9));
        // bit 0 gives the initial value, and what differs stands
        Initial(Presence::Mandatory, Copy, 5), Undefined, b"\x00\x85", Given(2), Has(U32(5));
        Initial(Presence::Mandatory, Copy, 5), Undefined, b"\x00\x87", Stands(2), Has(U32(7));
        Initial(Presence::Optional, Copy, 5), Undefined, b"\x00\x86", Given(2), Has(U32(5));
        Initial(Presence::Optional, Copy, 5), Undefined, b"\x00\x85", Stands(2), Has(U32(4));
        // it is not increased
        Initial(Presence::Mandatory, Increment, 5), Undefined, b"\x00\x85", Given(2), Has(U32(5));
        Initial(Presence::Mandatory, Increment, 5), Undefined, b"\x00\x86", Stands(2), Has(U32(6));
        // behind a needless group
        Initial(Presence::Mandatory, Copy, 5), Undefined, b"\x00\x00\x85", Given(3), Has(U32(5));
        Initial(Presence::Mandatory, Increment, 5), Undefined, b"\x00\x00\x87", Behind(3), Has(U32(7));
        // a default leaves the entry
        Initial(Presence::Mandatory, Default, 5), Undefined, b"\x00\x85", Given(2), Undefined;
        Initial(Presence::Mandatory, Default, 5), Undefined, b"\x00\x87", Stands(2), Undefined;
    };
    const OTHERS: &[Left] = rows! { Left:
        // three needless groups
        Mandatory(UInt32, Copy), Has(U32(5)), b"\x00\x00\x00\x00\x87";
        // NULL
        Optional(UInt32, Copy), Has(U32(5)), b"\x00\x80";
        // out of the range of its type, and of an exponent
        Mandatory(UInt32, Copy), Has(U32(5)), b"\x00\x10\x00\x00\x00\x80";
        Mandatory(UInt32, Delta), Has(U32(0)), b"\x00\xff";
        Exponent(Presence::Mandatory, Copy, None), Has(I32(0)), b"\x00\x00\xc0";
        // the number behind the greatest
        Mandatory(UInt32, Increment), Has(U32(u32::MAX)), b"\x00\x80";
        // no stop bit
        Mandatory(UInt32, Plain), Undefined, b"\x00\x07";
    };
    all_judged(&rt, rt.alloc(), JUDGED, OTHERS)
}

#[test]
fn vectors(rt: HostRuntime) -> Tried {
    const JUDGED: &[Row] = rows! { Row:
        // a vector and a Unicode string, whose lengths are the shortest
        Mandatory(Kind::Bytes, Copy), Has(Bytes(b"AB")), b"\x00\x81\x43", Stands(3), Has(Bytes(b"C"));
        Mandatory(Kind::Bytes, Copy), Has(Bytes(b"AB")), b"\x00\x82\x41\x42", Given(4), Has(Bytes(b"AB"));
        Mandatory(Kind::Unicode, Copy), Has(Unicode("AB")), b"\x00\x82\xc3\xbc", Stands(4), Has(Unicode("ü"));
        // behind one needless group of their lengths
        Mandatory(Kind::Bytes, Copy), Has(Bytes(b"AB")), b"\x00\x00\x81\x43", Behind(4), Has(Bytes(b"C"));
        Mandatory(Kind::Bytes, Copy), Has(Bytes(b"AB")), b"\x00\x00\x82\x41\x42", Given(5), Has(Bytes(b"AB"));
        Optional(Kind::Unicode, Copy), Has(Unicode("AB")), b"\x00\x00\x83\xc3\xbc", Behind(5), Has(Unicode("ü"));
        Mandatory(Kind::Unicode, Plain), Undefined, b"\x00\x00\x80", Behind(3), Undefined;
        // so do ends, and differences whose removals have it
        Mandatory(Kind::Unicode, Tail), Has(Unicode("AB")), b"\x00\x00\x81\x43", Behind(4), Has(Unicode("AC"));
        Mandatory(Kind::Bytes, Tail), Empty, b"\x00\x00\x81\x43", Behind(4), Has(Bytes(b"C"));
        Mandatory(Kind::Bytes, Delta), Has(Bytes(b"AB")), b"\x00\x00\x81\x81\x43", Behind(5), Has(Bytes(b"AC"));
        Optional(Kind::Unicode, Delta), Has(Unicode("AB")), b"\x00\x00\x81\x81\x43", Behind(5), Has(Unicode("ABC"));
        // behind two
        Mandatory(Kind::Bytes, Copy), Has(Bytes(b"AB")), b"\x00\x00\x00\x81\x43", BehindTwo(5), Has(Bytes(b"C"));
        Mandatory(Kind::Unicode, Delta), Has(Unicode("AB")), b"\x00\x00\x00\x81\x81\x43", BehindTwo(6),
            Has(Unicode("AC"));
        // whole texts
        Mandatory(Kind::Unicode, Copy), Has(Unicode("aé")), b"\x00\x82\xc3\xbc", Stands(4), Has(Unicode("ü"));
        // an overlong length
        Mandatory(Kind::Unicode, Copy), Has(Unicode("aé")), b"\x00\x00\x82\xc3\xbc", Behind(5), Has(Unicode("ü"));
        // a nullable length
        Optional(Kind::Unicode, Copy), Empty, b"\x00\x83\xc3\xbc", Stands(4), Has(Unicode("ü"));
        // undefined entries
        Mandatory(Kind::Unicode, Copy), Undefined, b"\x00\x82\xc3\xbc", Stands(4), Has(Unicode("ü"));
        Optional(Kind::Bytes, Copy), Undefined, b"\x00\x83\x00\xff", Stands(4), Has(Bytes(b"\x00\xff"));
        // a default
        Optional(Kind::Unicode, Default), Undefined, b"\x00\x81", Stands(2), Undefined;
        // whole vectors
        Mandatory(Kind::Bytes, Plain), Undefined, b"\x00\x82\x00\xff", Stands(4), Undefined;
        Mandatory(Kind::Bytes, Copy), Has(Bytes(b"abc")), b"\x00\x82\x00\xff", Stands(4), Has(Bytes(b"\x00\xff"));
        // tails
        Mandatory(Kind::Unicode, Tail), Has(Unicode("üab")), b"\x00\x81\x63", Stands(3), Has(Unicode("üac"));
        // of an empty entry it is the whole value
        Optional(Kind::Unicode, Tail), Empty, b"\x00\x83\xc3\xbc", Stands(4), Has(Unicode("ü"));
        // all of the base is replaced
        Optional(Kind::Bytes, Tail), Has(Bytes(b"ab")), b"\x00\x83\x63\x62", Stands(4), Has(Bytes(b"cb"));
        // differences
        Mandatory(Kind::Bytes, Delta), Has(Bytes(b"ESM6")), b"\x00\x81\x81\x37", Stands(4), Has(Bytes(b"ESM7"));
        // a nullable subtraction length; more is put behind
        Optional(Kind::Unicode, Delta), Has(Unicode("ab")), b"\x00\x81\x82\xc3\xbc", Stands(5), Has(Unicode("abü"));
        // the same end, and as short a removal
        Mandatory(Kind::Bytes, Delta), Has(Bytes(b"0012")), b"\x00\x82\x82\x32\x32", Stands(5), Has(Bytes(b"0022"));
        // what bit 0 gives
        Mandatory(Kind::Unicode, Copy), Has(Unicode("ü")), b"\x00\x82\xc3\xbc", Given(4), Has(Unicode("ü"));
    };
    const OTHERS: &[Left] = rows! { Left:
        // three needless groups in front of a length, or one in front of that of a new part
        Mandatory(Kind::Bytes, Copy), Has(Bytes(b"AB")), b"\x00\x00\x00\x00\x81\x43";
        Mandatory(Kind::Bytes, Delta), Has(Bytes(b"AB")), b"\x00\x81\x00\x81\x43";
        // NULL behind a needless group
        Optional(Kind::Bytes, Copy), Has(Bytes(b"AB")), b"\x00\x00\x80";
        // no UTF-8
        Mandatory(Kind::Unicode, Copy), Has(Unicode("AB")), b"\x00\x81\xc3";
        // of another type is what the entry has
        Optional(Kind::Bytes, Copy), Has(Unicode("ab")), b"\x00\x83\x61\x63";
        // a tail that is longer than need be
        Mandatory(Kind::Unicode, Tail), Has(Unicode("üab")), b"\x00\x82\x61\x63";
        // a tail that begins within a character
        Mandatory(Kind::Unicode, Tail), Has(Unicode("xü")), b"\x00\x81\xb6";
        // of what is removed the first byte is put there again
        Optional(Kind::Unicode, Delta), Has(Unicode("abü")), b"\x00\x83\x82\xc3\xb6";
        // the same end: removed in front are fewer
        Mandatory(Kind::Bytes, Delta), Has(Bytes(b"ESM6")), b"\x00\x84\x84\x58\x53\x4d\x36";
        // no UTF-8
        Mandatory(Kind::Unicode, Copy), Has(Unicode("ü")), b"\x00\x82\xc3\x28";
        // fewer bytes than the length says
        Mandatory(Kind::Bytes, Plain), Undefined, b"\x00\x83\x00\xff";
        // a length of 65,536
        Mandatory(Kind::Bytes, Plain), Undefined, b"\x00\x04\x00\x80";
        // a tail that bit 0 gives
        Mandatory(Kind::Bytes, Tail), Has(Bytes(b"ab")), b"\x00\x81\x62";
        // no UTF-8
        Mandatory(Kind::Unicode, Tail), Has(Unicode("xü")), b"\x00\x81\x28";
        Mandatory(Kind::Unicode, Tail), Has(Bytes(b"ab")), b"\x00\x81\x63";
        // more is removed than there is
        Mandatory(Kind::Bytes, Delta), Has(Bytes(b"ESM6")), b"\x00\x85\x81\x37";
        // no UTF-8
        Mandatory(Kind::Unicode, Delta), Has(Unicode("ü")), b"\x00\x81\x81\x37";
        Mandatory(Kind::Bytes, Delta), Empty, b"\x00\x80\x81\x37";
    };
    all_judged(&rt, rt.alloc(), JUDGED, OTHERS)
}

#[test]
fn decimals(rt: HostRuntime) -> Tried {
    const JUDGED: &[Row] = rows! { Row:
        // an exponent and a mantissa in their shortest forms
        Mandatory(Kind::Decimal, Copy), Has(Decimal(1, 5)), b"\x00\xfe\x85", Stands(3), Has(Decimal(-2, 5));
        Mandatory(Kind::Decimal, Copy), Has(Decimal(1, 5)), b"\x00\x81\x85", Given(3), Has(Decimal(1, 5));
        Mandatory(Kind::Decimal, Delta), Has(Decimal(-2, 100)), b"\x00\x80\x81", Stands(3), Has(Decimal(-2, 101));
        // behind one needless group of the exponent
        Mandatory(Kind::Decimal, Copy), Has(Decimal(1, 5)), b"\x00\x7f\xfe\x85", Behind(4), Has(Decimal(-2, 5));
        Mandatory(Kind::Decimal, Copy), Has(Decimal(1, 5)), b"\x00\x00\x81\x85", Given(4), Has(Decimal(1, 5));
        Optional(Kind::Decimal, Plain), Undefined, b"\x00\x00\x81\x85", Behind(4), Undefined;
        Mandatory(Kind::Decimal, Delta), Has(Decimal(-2, 100)), b"\x00\x00\x80\x81", Behind(4), Has(Decimal(-2, 101));
        // behind two
        Mandatory(Kind::Decimal, Copy), Has(Decimal(1, 5)), b"\x00\x00\x00\x82\x85", BehindTwo(5), Has(Decimal(2, 5));
        Mandatory(Kind::Decimal, Delta), Has(Decimal(-2, 100)), b"\x00\x7f\x7f\xff\x81", BehindTwo(5),
            Has(Decimal(-3, 101));
        // differences
        Mandatory(Kind::Decimal, Delta), Has(Decimal(-2, 7)), b"\x00\x81\xfe", Stands(3), Has(Decimal(-1, 5));
        // a nullable exponent
        Optional(Kind::Decimal, Delta), Has(Decimal(-2, 7)), b"\x00\x82\xfe", Stands(3), Has(Decimal(-1, 5));
        // whole decimals
        Mandatory(Kind::Decimal, Copy), Has(Decimal(-2, 7)), b"\x00\x81\xfe", Stands(3), Has(Decimal(1, -2));
        Mandatory(Kind::Decimal, Plain), Undefined, b"\x00\xfe\x87", Stands(3), Undefined;
        Optional(Kind::Decimal, Default), Undefined, b"\x00\xfe\x87", Stands(3), Undefined;
        // what bit 0 gives
        Mandatory(Kind::Decimal, Copy), Has(Decimal(1, -2)), b"\x00\x81\xfe", Given(3), Has(Decimal(1, -2));
    };
    const OTHERS: &[Left] = rows! { Left:
        // three needless groups, and one of the mantissa
        Mandatory(Kind::Decimal, Copy), Has(Decimal(1, 5)), b"\x00\x00\x00\x00\x82\x85";
        Mandatory(Kind::Decimal, Copy), Has(Decimal(1, 5)), b"\x00\x82\x00\x85";
        // NULL behind a needless group
        Optional(Kind::Decimal, Copy), Has(Decimal(1, 5)), b"\x00\x00\x80";
        // an exponent of 64
        Mandatory(Kind::Decimal, Copy), Has(Decimal(1, 5)), b"\x00\x00\xc0\x85";
        // an overlong mantissa
        Mandatory(Kind::Decimal, Delta), Has(Decimal(-2, 7)), b"\x00\x80\x00\x81";
        // a nullable exponent, an overlong mantissa
        Optional(Kind::Decimal, Copy), Empty, b"\x00\x82\x7f\xfe";
        // NULL
        Optional(Kind::Decimal, Delta), Has(Decimal(-2, 7)), b"\x00\x80";
        // an exponent of 64
        Mandatory(Kind::Decimal, Delta), Has(Decimal(63, 7)), b"\x00\x81\x80";
        // no mantissa
        Mandatory(Kind::Decimal, Delta), Has(Decimal(-2, 7)), b"\x00\x81";
        Mandatory(Kind::Decimal, Delta), Undefined, b"\x00\x81\xfe";
        // an exponent of -64
        Mandatory(Kind::Decimal, Copy), Has(Decimal(-2, 7)), b"\x00\xc0\x81";
    };
    all_judged(&rt, rt.alloc(), JUDGED, OTHERS)
}
