//! What tests make fields of.

ghost use Rattle.std.specs.Prelude.{◌≡◌, true};
ghost use Rattle.fast_field.specs.Parts.{IsFieldPart};
ghost use Rattle.fast_field.specs.Within.{HoldsScalar};

use crate::base::*;
use crate::judged::holds_scalar;
use crate::ways::is_part;
use fast_dictionary::Entry;
use fast_template::{
    ByteString, FieldPart, Initial, Key, Kind, Name, Operator, Part, Presence, Scalar, Scope,
    UnicodeText,
};

// A field with a key of its own.
pub(crate) fn part_of(
    alloc: Global,
    (part, kind): (Part, Kind),
    (presence, operator): (Presence, Operator),
    initial: Option<Value>,
) -> Tried<FieldPart> {
    let initial = match initial {
        Some(value) => Some(Initial::of(alloc, value.scalar(alloc)?)?),
        None => None,
    };
    let key = Key {
        slot: 1,
        scope: Scope::Global,
        name: Name::of(alloc, "F")?,
        part,
    };
    Ok(FieldPart {
        number: 1,
        part,
        kind,
        presence,
        operator,
        initial,
        key,
    })
}

// Whether this is the instruction of a field, and a value that an entry may have. A test ends where it is not.
pub(crate) fn are_such(rt: &impl Abort, instr: &FieldPart, entry: &Entry) -> bool
    ensures part { result ≡ true → IsFieldPart instr.now }
    ensures entry { result ≡ true → HoldsScalar entry.now }
{
    let are = is_part(instr.part, instr) && holds_scalar(entry);
    same(rt, are, true);
    are
}

fn letters(alloc: Global, count: usize) -> Tried<Scalar> {
    let mut text = String::new(alloc);
    for _ in 0..count {
        text.push('a')?;
    }
    Ok(Scalar::Unicode(UnicodeText::from_string(text)))
}

fn wide(alloc: Global, count: usize) -> Tried<Scalar> {
    let mut text = vec![in alloc; 0x41; count]?;
    if let Some(last) = text.last_mut() {
        *last = 0x80;
    }
    Ok(Scalar::Ascii(ByteString::from_vec(text)))
}

// The field of a row, in short.
#[derive(Clone, Copy)]
pub(crate) enum Shape {
    // Whole values with no initial value.
    Mandatory(Kind, Operator),
    Optional(Kind, Operator),
    // A uInt32 with an initial value.
    Initial(Presence, Operator, u32),
    // An optional ASCII tail with an initial value.
    Tail(&'static [u8]),
    // A mandatory length.
    Length(Operator),
    // An exponent, which may have an initial value, and a mantissa.
    Exponent(Presence, Operator, Option<i32>),
    Mantissa(Operator),
}

impl Shape {
    pub(crate) fn instr(self, alloc: Global) -> Tried<FieldPart> {
        let (whole, mandatory, optional) = (Part::Whole, Presence::Mandatory, Presence::Optional);
        let (part, presence, operator, initial) = match self {
            Shape::Mandatory(kind, operator) => ((whole, kind), mandatory, operator, None),
            Shape::Optional(kind, operator) => ((whole, kind), optional, operator, None),
            Shape::Initial(presence, operator, number) => {
                let initial = Some(Value::U32(number));
                ((whole, Kind::UInt32), presence, operator, initial)
            }
            Shape::Tail(text) => {
                let initial = Some(Value::Ascii(text));
                ((whole, Kind::Ascii), optional, Operator::Tail, initial)
            }
            Shape::Length(operator) => ((Part::Length, Kind::UInt32), mandatory, operator, None),
            Shape::Exponent(presence, operator, initial) => {
                let initial = initial.map(Value::I32);
                ((Part::Exponent, Kind::Int32), presence, operator, initial)
            }
            Shape::Mantissa(operator) => ((Part::Mantissa, Kind::Int64), mandatory, operator, None),
        };
        part_of(alloc, part, (presence, operator), initial)
    }
}

// A value of a row.
#[derive(Clone, Copy)]
pub(crate) enum Value {
    U32(u32),
    I32(i32),
    U64(u64),
    I64(i64),
    Decimal(i32, i64),
    Ascii(&'static [u8]),
    Unicode(&'static str),
    Bytes(&'static [u8]),
    // So many letters, of Unicode, and so many characters of ASCII, of which the last is beyond it.
    Letters(usize),
    Wide(usize),
}

impl Value {
    pub(crate) fn scalar(self, alloc: Global) -> Tried<Scalar> {
        match self {
            Value::U32(number) => Ok(Scalar::U32(number)),
            Value::I32(number) => Ok(Scalar::I32(number)),
            Value::U64(number) => Ok(Scalar::U64(number)),
            Value::I64(number) => Ok(Scalar::I64(number)),
            Value::Decimal(exponent, mantissa) => Ok(Scalar::Decimal { exponent, mantissa }),
            Value::Ascii(text) => Ok(Scalar::Ascii(ByteString::from_vec(text.to_vec(alloc)?))),
            Value::Unicode(text) => {
                let text = String::from_str(alloc, text)?;
                Ok(Scalar::Unicode(UnicodeText::from_string(text)))
            }
            Value::Bytes(bytes) => Ok(Scalar::Bytes(ByteString::from_vec(bytes.to_vec(alloc)?))),
            Value::Letters(count) => letters(alloc, count),
            Value::Wide(count) => wide(alloc, count),
        }
    }
}

pub(crate) fn scalar_of(alloc: Global, value: Option<Value>) -> Tried<Option<Scalar>> {
    match value {
        None => Ok(None),
        Some(value) => Ok(Some(value.scalar(alloc)?)),
    }
}

// The entry of a row.
#[derive(Clone, Copy)]
pub(crate) enum Kept {
    Undefined,
    Empty,
    Has(Value),
}

impl Kept {
    pub(crate) fn entry(self, alloc: Global) -> Tried<Entry> {
        match self {
            Kept::Undefined => Ok(Entry::Undefined),
            Kept::Empty => Ok(Entry::Empty),
            Kept::Has(value) => Ok(Entry::Assigned(value.scalar(alloc)?)),
        }
    }
}

// Ends a test whose entry is not a row's.
pub(crate) fn is_kept(rt: &impl Abort, alloc: Global, entry: &Entry, wanted: Kept) -> Tried {
    let wanted = wanted.entry(alloc)?;
    same(rt, entry, &wanted);
    Ok(())
}
