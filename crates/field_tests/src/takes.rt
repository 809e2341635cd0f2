//! Generated fields that are taken are what is read of their bytes, and what is written of their value: the value, the entry,
//! the place, the best form, and the fault. All operators, types, presences and parts, both levels, bits that say what they
//! need not, needless groups and characters, bytes that no field has, and fields cut at each byte.

ghost use Rattle.std.specs.Prelude.{◌≡◌, ◌≤◌, length};
ghost use Rattle.fast_field.specs.Parts.{IsBitOf, IsFieldPart};

use crate::base::*;
use crate::judged::holds_scalar;
use crate::ways::{instructions, is_part, made};
use fast_dictionary::Entry;
use fast_field::{FieldFault, FieldRefusal, Level, read_field, units, write_in_place};
use fast_take::{Aside, Took, Unkept, take};
use fast_template::{FieldPart, Kind, Operator, Scalar, part_needs_bit};
use template_tests::generated::Numbers;

// How many fields of an instruction follow one another.
const FIELDS: u32 = 48;

// Characters or bytes that stand in what was read: of ASCII the last one has its stop bit.
fn stand_there(rt: &impl Abort, kind: Kind, value: &Scalar, sent: Option<&[u8]>) {
    let Some(sent) = sent else {
        return same(rt, false, true);
    };
    let units = units(value);
    same(rt, units.len(), sent.len());
    for (i, (unit, byte)) in units.iter().zip(sent).enumerate() {
        let ends = kind == Kind::Ascii && i + 1 == sent.len();
        same(rt, *unit, if ends { *byte % 128 } else { *byte });
    }
}

// A value that no entry keeps lies aside.
fn lies_aside(rt: &impl Abort, kind: Kind, value: &Scalar, unkept: Unkept, bytes: &[u8]) {
    let told = match unkept {
        Unkept::UInt32(number) => Scalar::U32(number),
        Unkept::Int32(number) => Scalar::I32(number),
        Unkept::UInt64(number) => Scalar::U64(number),
        Unkept::Int64(number) => Scalar::I64(number),
        Unkept::Decimal { exponent, mantissa } => Scalar::Decimal { exponent, mantissa },
        Unkept::Units(span) => {
            return stand_there(rt, kind, value, bytes.get(span.start..span.end));
        }
    };
    same(rt, value, &told);
}

// The value is told, where it lies by its operator.
fn is_told(
    rt: &impl Abort,
    value: Option<&Scalar>,
    took: Took,
    aside: &Aside,
    instr: &FieldPart,
    entry: &Entry,
    bit: bool,
    bytes: &[u8],
) {
    same(rt, took.is_there(aside), value.is_some());
    let Some(value) = value else {
        return;
    };
    match instr.operator {
        Operator::Plain => lies_aside(rt, instr.kind, value, aside.unkept, bytes),
        Operator::Default if bit => lies_aside(rt, instr.kind, value, aside.unkept, bytes),
        Operator::Constant | Operator::Default => same(rt, instr.initial(), Some(value)),
        Operator::Copy | Operator::Increment | Operator::Delta | Operator::Tail => match entry {
            Entry::Assigned(kept) => same(rt, kept, value),
            Entry::Undefined | Entry::Empty => same(rt, false, true),
        },
    }
}

// A field is taken as it is read and written. Answers its entry afterwards, and the place behind it where it has a reading.
pub(crate) fn is_taken(
    rt: &impl Abort,
    alloc: Global,
    instr: &FieldPart,
    before: &Entry,
    bit: bool,
    level: Level,
    bytes: &[u8],
    at: usize,
    aside: &mut Aside,
) -> Tried<(Entry, Option<usize>)>
    requires place { at ≤ length bytes.now }
    requires bit { IsBitOf instr.now bit }
    requires part { IsFieldPart instr.now }
{
    let mut entry = before.view().copy(alloc)?;
    let mut written = before.view().copy(alloc)?;
    if !holds_scalar(&entry) || !holds_scalar(&written) {
        same(rt, false, true);
        return Ok((entry, None));
    }
    let taken = match take(instr, &mut entry, bit, level, bytes, at, aside) {
        Err(FieldFault::Memory) => return Err(AllocError),
        taken => taken,
    };
    match read_field(alloc, instr, before.view(), bit, level, bytes, at) {
        Err(FieldFault::Memory) => Err(AllocError),
        Err(fault) => {
            same(rt, taken, Err(fault));
            same(rt, &entry, before);
            Ok((entry, None))
        }
        Ok((value, after, next)) => {
            let Ok(took) = taken else {
                same(rt, taken.is_ok(), true);
                return Ok((entry, None));
            };
            same(rt, &entry, &after);
            same(rt, took.place(), next);
            is_told(rt, value.as_ref(), took, aside, instr, &entry, bit, bytes);
            let mut form = Vec::new(alloc);
            match write_in_place(alloc, instr, &mut written, value.as_ref(), &mut form) {
                Err(refusal) => {
                    same(rt, refusal, FieldRefusal::Memory);
                    return Err(AllocError);
                }
                Ok(best) => same(rt, took.best_bit(bit, aside), best),
            }
            let mut out = Vec::new(alloc);
            aside.append_best(took, bytes, at, &mut out)?;
            same(rt, out, form);
            Ok((entry, Some(next)))
        }
    }
}

// Fields of an instruction, one after the other, whole and cut at each byte.
fn all_taken(
    rt: &impl Abort,
    alloc: Global,
    numbers: &mut Numbers,
    instr: &FieldPart,
    level: Level,
) -> Tried {
    let mut aside = Aside::new(alloc);
    let mut entry = Entry::Undefined;
    if !is_part(instr.part, instr) {
        same(rt, false, true);
        return Ok(());
    }
    for _ in 0..FIELDS {
        let bit = !part_needs_bit(instr) || numbers.below(3) > 0;
        let bytes = made(alloc, instr, bit, numbers)?;
        let at = bytes.len().min(1);
        let (after, next) = is_taken(rt, alloc, instr, &entry, bit, level, &bytes, at, &mut aside)?;
        let end = next.unwrap_or(bytes.len()).min(bytes.len());
        for cut in at..end {
            let front = &bytes[..cut];
            let (kept, _) = is_taken(rt, alloc, instr, &entry, bit, level, front, at, &mut aside)?;
            if next.is_some() {
                same(rt, &kept, &entry);
            }
        }
        entry = after;
    }
    Ok(())
}

#[test]
fn generated_fields_are_taken_as_they_are_read(rt: HostRuntime) -> Tried {
    let mut numbers = Numbers::new(2);
    for instr in &instructions(rt.alloc())? {
        all_taken(&rt, rt.alloc(), &mut numbers, instr, Level::Usual)?;
        all_taken(&rt, rt.alloc(), &mut numbers, instr, Level::Strict)?;
    }
    Ok(())
}
