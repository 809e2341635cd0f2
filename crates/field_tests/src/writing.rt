//! Rows on single fields that are planned and written, by the calls.

ghost use Rattle.std.specs.Prelude.{IfOk};
ghost use Rattle.fast_dictionary.specs.Dictionary.{entry_of};
ghost use Rattle.fast_dictionary.specs.declared.entry.Entry as entry;
ghost use Rattle.fast_field.specs.Found.{CanLie};
ghost use Rattle.fast_field.specs.Parts.{IsFieldPart};
ghost use Rattle.fast_field.specs.Within.{HoldsScalar};

use crate::base::*;
use crate::fields::Kept::{Empty, Has, Undefined};
use crate::fields::Shape::{Exponent, Initial, Mandatory, Optional};
use crate::fields::Value::{Ascii, Bytes, Decimal, I32, Letters, U32, U64, Unicode, Wide};
use crate::fields::{Kept, Shape, Value, are_such, scalar_of};
use fast_dictionary::{Entry, EntryRef, Spare};
use fast_field::FieldRefusal::{D3, D4, D6, Limit, Mismatch, NotConstant, R1, TooShort};
use fast_field::{
    FieldFault, FieldRefusal, Found, Level, Plan, next_entry, plan_field, read_field, write_field,
    write_found, write_in_place,
};
use fast_template::Kind::{UInt32, UInt64};
use fast_template::Operator::{Constant, Copy, Default, Delta, Increment, Tail};
use fast_template::{ByteString, FieldPart, Kind, Presence, Scalar};

// A field, its entry, and a value or none.
#[derive(Drop)]
struct Given {
    alloc: Global,
    instr: FieldPart,
    entry: Entry,
    value: Option<Scalar>,
}

// A value is planned so, or refused so.
fn planned(rt: &impl Abort, given: &Given, wanted: Result<Plan, FieldRefusal>)
    requires part { IsFieldPart given.now.instr }
    requires entry { HoldsScalar given.now.entry }
{
    let plan = plan_field(&given.instr, given.entry.view(), given.value.as_ref());
    same(rt, plan, wanted);
}

// A value is written behind a byte that is there. Where memory was refused, nothing was appended, the same call writes
// it, and the test ends.
fn appended(rt: &impl Abort, given: &Given, bytes: &[u8]) -> Tried
    requires part { IsFieldPart given.now.instr }
    requires entry { HoldsScalar given.now.entry }
{
    let (instr, entry, value) = (&given.instr, given.entry.view(), given.value.as_ref());
    let mut out = vec![in given.alloc; 0x2a]?;
    let first = write_field(instr, entry, value, &mut out);
    let is_refused = first == Err(FieldRefusal::Memory);
    if is_refused {
        same(rt, out.as_slice(), [0x2a].as_slice());
        same(rt, write_field(instr, entry, value, &mut out), Ok(()));
    } else {
        same(rt, first, Ok(()));
    }
    same(rt, out.split_first(), Some((&0x2a, bytes)));
    granted(is_refused)
}

// Refused memory ends a test.
fn granted(is_refused: bool) -> Tried {
    if is_refused {
        return Err(AllocError);
    }
    Ok(())
}

// What a call answered, the entry afterwards, what was written, and whether memory was refused at first.
#[derive(Drop)]
struct Answer(Result<bool, FieldRefusal>, Entry, Vec<u8>, bool);

// What is answered and written, and the entry afterwards.
type Wanted<'a> = (Result<bool, FieldRefusal>, &'a [u8], &'a Entry);

fn answered(rt: &impl Abort, answer: Answer, wanted: Wanted) {
    same(rt, answer.0, wanted.0);
    same(rt, answer.2.as_slice(), wanted.1);
    same(rt, &answer.1, wanted.2);
}

// Writes a value behind these bytes, and changes a copy of its entry where it lies. Where memory was refused, the entry is
// as it was, and the same call is made once more.
fn put_in_place(rt: &impl Abort, given: &Given, front: Vec<u8>) -> Tried<Answer>
    requires part { IsFieldPart given.now.instr }
    requires entry { HoldsScalar given.now.entry }
{
    let (alloc, instr, value) = (given.alloc, &given.instr, given.value.as_ref());
    let size = front.len();
    let mut out = front;
    let mut entry = given.entry.view().copy(alloc)?;
    let mut bit = write_in_place(alloc, instr, &mut entry, value, &mut out);
    let is_refused = bit == Err(FieldRefusal::Memory);
    if is_refused {
        same(rt, &entry, &given.entry);
        same(rt, out.len(), size);
        bit = write_in_place(alloc, instr, &mut entry, value, &mut out);
    }
    Ok(Answer(bit, entry, out, is_refused))
}

// A value is written, and its entry changed where it lies.
fn written_in_place(rt: &impl Abort, given: &Given, wanted: Wanted) -> Tried
    requires part { IsFieldPart given.now.instr }
    requires entry { HoldsScalar given.now.entry }
{
    let answer = put_in_place(rt, given, Vec::new(given.alloc))?;
    let is_refused = answer.3;
    answered(rt, answer, wanted);
    granted(is_refused)
}

// A copy of a value, or none, as what was found.
fn found(alloc: Global, value: Option<&Scalar>) -> Tried<Found>
    ensures { IfOk result (λ f. (e : entry.Entry) → CanLie e f) }
{
    match value {
        None => Ok(Found::Absent),
        Some(value) => Ok(Found::Value(value.copy(alloc)?)),
    }
}

// Moves a copy of a value into a copy of its entry, and writes it.
fn put_where_found(given: &Given) -> Tried<Answer>
    requires part { IsFieldPart given.now.instr }
    requires entry { HoldsScalar given.now.entry }
{
    let (alloc, instr) = (given.alloc, &given.instr);
    let mut out = Vec::new(alloc);
    let mut entry = given.entry.view().copy(alloc)?;
    let found = found(alloc, given.value.as_ref())?;
    let bit = match write_found(&mut Spare::new(alloc), instr, &mut entry, found, &mut out) {
        Ok((_, bit)) => Ok(bit),
        Err(refusal) => Err(refusal),
    };
    let is_refused = bit == Err(FieldRefusal::Memory);
    Ok(Answer(bit, entry, out, is_refused))
}

// The same of a value that is moved into its entry.
fn written_where_found(rt: &impl Abort, given: &Given, wanted: Wanted) -> Tried
    requires part { IsFieldPart given.now.instr }
    requires entry { HoldsScalar given.now.entry }
{
    let answer = put_where_found(given)?;
    if answer.3 {
        same(rt, answer.2.as_slice(), [].as_slice());
        return Err(AllocError);
    }
    answered(rt, answer, wanted);
    Ok(())
}

// A value is planned, and written by each call.
fn written_by_each(rt: &impl Abort, given: &Given, bit: bool, bytes: &[u8]) -> Tried
    requires part { IsFieldPart given.now.instr }
    requires entry { HoldsScalar given.now.entry }
{
    let size = bytes.len();
    planned(rt, given, Ok(Plan { bit, size }));
    appended(rt, given, bytes)?;
    let (kept, value) = (given.entry.view(), given.value.as_ref());
    let after = next_entry(given.alloc, &given.instr, kept, value)?;
    let wanted = (Ok(bit), bytes, &after);
    written_in_place(rt, given, wanted)?;
    written_where_found(rt, given, wanted)
}

// A value is refused by each call: nothing is appended, and nothing has changed.
fn refused_by_each(rt: &impl Abort, given: &Given, refusal: FieldRefusal) -> Tried
    requires part { IsFieldPart given.now.instr }
    requires entry { HoldsScalar given.now.entry }
{
    planned(rt, given, Err(refusal));
    let (instr, entry, value) = (&given.instr, given.entry.view(), given.value.as_ref());
    let mut out = vec![in given.alloc; 0x2a]?;
    same(rt, write_field(instr, entry, value, &mut out), Err(refusal));
    same(rt, out.as_slice(), [0x2a].as_slice());
    // the same where the entry lies
    let answer = put_in_place(rt, given, out)?;
    answered(rt, answer, (Err(refusal), &[0x2a], &given.entry));
    Ok(())
}

// A field, its entry, a value, and whether bit 0 does not give it and what is written, or why it is refused.
struct Row(Shape, Kept, Option<Value>, Answered);

type Answered = Result<(bool, &'static [u8]), FieldRefusal>;

fn is_row(rt: &impl Abort, alloc: Global, row: &Row) -> Tried {
    let (instr, entry) = (row.0.instr(alloc)?, row.1.entry(alloc)?);
    let value = scalar_of(alloc, row.2)?;
    if !are_such(rt, &instr, &entry) {
        return Ok(());
    }
    let given = Given {
        alloc,
        instr,
        entry,
        value,
    };
    match row.3 {
        Ok((bit, bytes)) => written_by_each(rt, &given, bit, bytes),
        Err(refusal) => refused_by_each(rt, &given, refusal),
    }
}

#[test]
fn fields_that_are_written(rt: HostRuntime) -> Tried {
    const ROWS: &[Row] = rows! { Row:
        // constants
        Initial(Presence::Mandatory, Constant, 7), Undefined, Some(U32(7)), Ok((true, b""));
        Initial(Presence::Optional, Constant, 9), Undefined, None, Ok((false, b""));
        Initial(Presence::Optional, Constant, 9), Undefined, Some(U32(9)), Ok((true, b""));
        Initial(Presence::Mandatory, Constant, 7), Undefined, Some(U32(8)), Err(NotConstant);
        Initial(Presence::Mandatory, Constant, 7), Undefined, None, Err(Mismatch);
        Exponent(Presence::Mandatory, Constant, Some(-2)), Undefined, Some(I32(-1)), Err(D3);
        // defaults
        Initial(Presence::Optional, Default, 3), Undefined, Some(U32(3)), Ok((false, b""));
        Initial(Presence::Optional, Default, 3), Undefined, None, Ok((true, b"\x80"));
        Initial(Presence::Optional, Default, 3), Undefined, Some(U32(4)), Ok((true, b"\x85"));
        // copies
        Mandatory(Kind::Ascii, Copy), Has(Ascii(b"AB")), Some(Ascii(b"AB")), Ok((false, b""));
        Mandatory(Kind::Ascii, Copy), Has(Ascii(b"AB")), Some(Ascii(b"C")), Ok((true, b"\xc3"));
        Mandatory(Kind::Bytes, Copy), Undefined, Some(Bytes(b"")), Ok((true, b"\x80"));
        // increments
        Mandatory(UInt32, Increment), Has(U32(1)), Some(U32(2)), Ok((false, b""));
        Mandatory(UInt32, Increment), Has(U32(u32::MAX)), Some(U32(0)), Ok((false, b""));
        Mandatory(UInt32, Increment), Has(U32(1)), Some(U32(3)), Ok((true, b"\x83"));
        // deltas of numbers: a difference of 65 bits
        Optional(UInt64, Delta), Has(U64(u64::MAX)), Some(U64(0)),
            Ok((true, b"\x7e\x00\x00\x00\x00\x00\x00\x00\x00\x81"));
        Optional(UInt64, Delta), Empty, None, Ok((true, b"\x80"));
        Mandatory(Kind::Decimal, Delta), Has(Decimal(-2, 7)), Some(Decimal(-1, 5)), Ok((true, b"\x81\xfe"));
        // an exponent out of its range
        Mandatory(Kind::Decimal, Delta), Undefined, Some(Decimal(64, 1)), Err(R1);
        // fewer bytes with removal in front
        Mandatory(Kind::Ascii, Delta), Has(Ascii(b"GEM6")), Some(Ascii(b"ESM6")), Ok((true, b"\xfd\x45\xd3"));
        // as many bytes on both sides: removal at the end
        Mandatory(Kind::Ascii, Delta), Has(Ascii(b"ESM6")), Some(Ascii(b"ESM6")), Ok((true, b"\x80\x80"));
        // a character beyond ASCII
        Mandatory(Kind::Ascii, Delta), Has(Ascii(b"A")), Some(Ascii(b"A\x80")), Err(Mismatch);
        // too many characters, and another type or a character beyond ASCII, which comes first
        Mandatory(Kind::Unicode, Copy), Undefined, Some(Letters(65_536)), Err(Limit);
        Mandatory(Kind::Ascii, Copy), Undefined, Some(Letters(65_536)), Err(Mismatch);
        Optional(UInt32, Copy), Undefined, Some(Letters(65_536)), Err(Mismatch);
        Mandatory(Kind::Ascii, Copy), Undefined, Some(Wide(65_536)), Err(Mismatch);
        Mandatory(Kind::Ascii, Delta), Empty, Some(Wide(65_536)), Err(Mismatch);
        // a delta on an empty entry
        Mandatory(Kind::Ascii, Delta), Empty, Some(Ascii(b"A")), Err(D6);
        // the shortest tail begins with NUL, and would have four bytes
        Optional(Kind::Ascii, Tail), Has(Ascii(b"xab")), Some(Ascii(b"x\0b")), Ok((true, b"\x78\x00\xe2"));
        Optional(Kind::Ascii, Tail), Has(Ascii(b"xab")), Some(Ascii(b"xab")), Ok((false, b""));
        Optional(Kind::Ascii, Tail), Has(Ascii(b"xab")), None, Ok((true, b"\x80"));
        Optional(Kind::Ascii, Tail), Has(Ascii(b"xab")), Some(Ascii(b"x")), Err(TooShort);
        // a tail on another type
        Mandatory(Kind::Unicode, Tail), Has(Ascii(b"xab")), Some(Unicode("é")), Err(D4);
        // tails of an initial value: the shortest one is empty, and would have two bytes
        Shape::Tail(b"ab"), Empty, Some(Ascii(b"ab")), Ok((true, b"\xe2"));
        // a longer value stands whole
        Shape::Tail(b"ab"), Empty, Some(Ascii(b"abc")), Ok((true, b"\x61\x62\xe3"));
    };
    for row in ROWS {
        is_row(&rt, rt.alloc(), row)?;
    }
    Ok(())
}

// A text of so many letters and one more is planned and written by each call and read back.
fn goes_round(rt: &impl Abort, alloc: Global, count: usize) -> Tried {
    let mut bytes = vec![in alloc; 0x41; count]?;
    bytes.push(0x41)?;
    let value = Scalar::Ascii(ByteString::from_vec(bytes.to_vec(alloc)?));
    if let Some(last) = bytes.last_mut() {
        *last = 0xc1;
    }
    let (instr, entry) = (Mandatory(Kind::Ascii, Copy).instr(alloc)?, Entry::Undefined);
    if !are_such(rt, &instr, &entry) {
        return Ok(());
    }
    let given = Given {
        alloc,
        instr,
        entry,
        value: Some(value),
    };
    written_by_each(rt, &given, true, &bytes)?;
    is_read_back(rt, &given, &bytes)
}

// A value is read from these bytes, and kept in the entry.
fn is_read_back(rt: &impl Abort, given: &Given, bytes: &[u8]) -> Tried
    requires { IsFieldPart given.now.instr }
{
    let (kept, level) = (EntryRef::Undefined, Level::Usual);
    match read_field(given.alloc, &given.instr, kept, true, level, bytes, 0) {
        Ok((read, entry, next)) => {
            same(rt, &read, &given.value);
            let kept = match read {
                Some(value) => Entry::Assigned(value),
                None => Entry::Empty,
            };
            same(rt, entry, kept);
            same(rt, next, bytes.len());
            Ok(())
        }
        Err(fault) => {
            same(rt, fault, FieldFault::Memory);
            Err(AllocError)
        }
    }
}

// Longer than a page of memory, and as long as may be.
#[test]
fn long_texts(rt: HostRuntime) -> Tried {
    goes_round(&rt, rt.alloc(), 4_096)?;
    goes_round(&rt, rt.alloc(), 65_534)
}
