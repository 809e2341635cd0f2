//! Generated fields that are judged as they stand, or else relayed, and that go the general way: their bytes, entries and
//! places are the same. All operators, types and presences, bits that say what they need not, needless groups and characters,
//! bytes that no field has, and fields that have not wholly come.

ghost use Rattle.std.specs.Prelude.{◌≡◌, ◌≤◌, IsTrue, true, false, length, IfSome, IsSome};
ghost use Rattle.fast_value.specs.declared.kind.Operator.TheVariants as operator_type;
ghost use Rattle.fast_value.specs.declared.kind.Presence.TheVariants.{Mandatory};
ghost use Rattle.fast_field.specs.Parts.{IsFieldPart};
ghost use Rattle.fast_template.specs.TemplateSets.{IsInitial, is_in_part};
ghost use Rattle.fast_value.specs.declared.kind.Part.TheVariants as part_type;

use crate::base::*;
use crate::fields::{Value, part_of};
use crate::judged::{applies_to, has_kind, holds_scalar, is_scalar};
use crate::relaying::relay;
use fast_dictionary::{Entry, Spare};
use fast_field::{FieldFault, FieldRefusal, Level, Passed, read_field, write_in_place};
use fast_take::{Aside, Judged, Took, judge_sent, pass_quickly};
use fast_template::{FieldPart, Initial, Kind, Operator, Part, Presence, Scalar, part_needs_bit};
use fast_value::is_of_kind;
use template_tests::generated::{Numbers, put_sent};
use test_rows::list;

// Each type as a field has it, with an initial value.
const PARTS: &[(Part, Kind, Value)] = rows! {
    Part::Whole, Kind::UInt32, Value::U32(5);
    Part::Whole, Kind::Int32, Value::I32(-5);
    Part::Whole, Kind::UInt64, Value::U64(5);
    Part::Whole, Kind::Int64, Value::I64(-5);
    Part::Whole, Kind::Decimal, Value::Decimal(-2, 5);
    Part::Whole, Kind::Ascii, Value::Ascii(b"AB");
    Part::Whole, Kind::Unicode, Value::Unicode("AB");
    Part::Whole, Kind::Bytes, Value::Bytes(b"AB");
    Part::Length, Kind::UInt32, Value::U32(5);
    Part::Exponent, Kind::Int32, Value::I32(-2);
    Part::Mantissa, Kind::Int64, Value::I64(-5);
};

const OPERATORS: &[Operator] = list! {
    Operator::Plain, Operator::Constant, Operator::Default, Operator::Copy, Operator::Increment, Operator::Delta,
    Operator::Tail
};

// Pushes an instruction with an initial value, and without one where none is wanted.
fn push_both(
    alloc: Global,
    part: (Part, Kind),
    how: (Presence, Operator),
    initial: Value,
    all: &mut Vec<FieldPart>,
) -> Tried {
    if part.0 != Part::Exponent {
        all.push(part_of(alloc, part, how, Some(initial))?)?;
    }
    if !needs_initial(how.1, how.0) {
        all.push(part_of(alloc, part, how, None)?)?;
    }
    Ok(())
}

// Instructions of each type, operator and presence.
pub(crate) fn instructions(alloc: Global) -> Tried<Vec<FieldPart>> {
    let mut all = Vec::new(alloc);
    for (which, kind, initial) in PARTS {
        for operator in OPERATORS {
            if applies_to(*operator, *kind) {
                let (part, initial) = ((*which, *kind), *initial);
                let how = (Presence::Mandatory, *operator);
                push_both(alloc, part, how, initial, &mut all)?;
                let how = (Presence::Optional, *operator);
                push_both(alloc, part, how, initial, &mut all)?;
            }
        }
    }
    Ok(all)
}

// How many fields of an instruction follow one another.
const FIELDS: u32 = 96;

// A field behind one byte, and bytes behind it.
pub(crate) fn made(alloc: Global, of: &FieldPart, bit: bool, from: &mut Numbers) -> Tried<Vec<u8>> {
    let mut bytes = Vec::new(alloc);
    bytes.push(from.below(128))?;
    if bit {
        put_sent(of, from, &mut bytes)?;
    }
    for _ in 0..from.below(4) {
        bytes.push(from.below(255))?;
    }
    Ok(bytes)
}

// Whether a value is one that an exponent can have.
fn is_exponent(value: &Scalar) -> bool
    ensures { result ≡ true → IsTrue (is_in_part part_type.Exponent value.now) }
{
    match value {
        Scalar::I32(number) => *number >= -63 && *number <= 63,
        _ => false,
    }
}

// Whether an initial value is one that a part can have.
fn is_initial(instr: &FieldPart, initial: &Initial) -> bool
    ensures { result ≡ true → IsInitial instr.now initial.now }
{
    let value = initial.value();
    let is_there = instr.part != Part::Exponent || is_exponent(value);
    is_there && is_of_kind(instr.kind, value) && is_scalar(value)
}

// Whether an operator wants an initial value.
fn needs_initial(operator: Operator, presence: Presence) -> bool
    ensures constant { result ≡ false → operator ≡ operator_type.Constant → ⊥ }
    ensures default { result ≡ false → operator ≡ operator_type.Default → presence ≡ Mandatory → ⊥ }
{
    match operator {
        Operator::Constant => true,
        Operator::Default => presence == Presence::Mandatory,
        _ => false,
    }
}

// Whether an initial value is there where it is wanted, and one that the part can have.
fn has_initial(instr: &FieldPart) -> bool
    ensures fits { result ≡ true → IfSome instr.now.initial (IsInitial instr.now) }
    ensures constant { result ≡ true → instr.now.operator ≡ operator_type.Constant → IsSome instr.now.initial }
    ensures default { result ≡ true → instr.now.operator ≡ operator_type.Default
        → instr.now.presence ≡ Mandatory → IsSome instr.now.initial }
{
    match &instr.initial {
        Some(initial) => is_initial(instr, initial),
        None => !needs_initial(instr.operator, instr.presence),
    }
}

// Whether this is the instruction of a field.
pub(crate) fn is_part(which: Part, instr: &FieldPart) -> bool
    ensures part { result ≡ true → IsFieldPart instr.now }
    ensures which { result ≡ true → which ≡ instr.now.part }
{
    has_initial(instr)
        && which == instr.part
        && applies_to(instr.operator, instr.kind)
        && has_kind(instr.part, instr.kind)
}

// The answer of a field that was judged (whether it has a value, the bit of its best form, and the place behind it), and the
// place where the bytes of the best form begin.
#[derive(Clone, Copy, Debug, PartialEq, Eq, Drop)]
struct Best((bool, bool, usize), usize);

fn best_of(judged: Judged, bytes: &[u8], at: usize) -> Option<Best>
    requires { at ≤ length bytes.now }
{
    match judged {
        Judged::Stands(next) => Some(Best((true, true, next), at)),
        Judged::Behind(next) => Some(Best((true, true, next), at + 1)),
        Judged::BehindTwo(next) => Some(Best((true, true, next), at + 2)),
        Judged::Given(next) => Some(Best((true, false, next), next)),
        Judged::Elsewhere => None,
    }
}

// What the quick way answers of a field: none where it does not serve.
fn quickly(
    alloc: Global,
    instr: &FieldPart,
    entry: &mut Entry,
    bit: bool,
    bytes: &[u8],
    at: usize,
) -> Option<Best>
    requires place { at ≤ length bytes.now }
    requires part { IsFieldPart instr.now }
{
    if !bit {
        return match pass_quickly(instr.part, instr, entry) {
            Passed::Present => Some(Best((true, false, at), at)),
            Passed::Absent => Some(Best((false, false, at), at)),
            Passed::Elsewhere => None,
        };
    }
    if !holds_scalar(entry) {
        return None;
    }
    let (spare, level) = (&mut Spare::new(alloc), Level::Usual);
    let judged = judge_sent(instr.part, spare, instr, entry, level, bytes, at);
    best_of(judged, bytes, at)
}

// A field that was sent and not judged is relayed with this answer, best form and entry afterwards. Answers whether it was a
// difference of which all but how much it removes stands in what was read.
fn is_relayed(
    rt: &impl Abort,
    alloc: Global,
    instr: &FieldPart,
    before: &Entry,
    bytes: &[u8],
    answer: (bool, bool, usize),
    form: &[u8],
    after: &Entry,
) -> Tried<bool>
    requires { IsFieldPart instr.now }
{
    let mut entry = before.view().copy(alloc)?;
    let (took, aside) = relay(rt, alloc, instr, &mut entry, bytes, answer, form)?;
    same(rt, &entry, after);
    Ok(answer.0 && took == Took::Other(took.place()) && aside.made.len() == 1)
}

// A field of which the last bytes have not come is left to the general way, and nothing changes.
fn waits(
    rt: &impl Abort,
    alloc: Global,
    instr: &FieldPart,
    entry: &Entry,
    bytes: &[u8],
    at: usize,
) -> Tried
    requires place { at ≤ length bytes.now }
    requires part { IsFieldPart instr.now }
{
    for cut in at..bytes.len() {
        let (mut same_entry, front) = (entry.view().copy(alloc)?, &bytes[..cut]);
        let best = quickly(alloc, instr, &mut same_entry, true, front, at);
        same(rt, best, None);
        same(rt, &same_entry, entry);
    }
    Ok(())
}

// A field goes the same both ways, and its entry becomes the one afterwards. Answers whether a quick way served.
fn goes_both_ways(
    rt: &impl Abort,
    alloc: Global,
    instr: &FieldPart,
    entry: &mut Entry,
    bit: bool,
    bytes: &[u8],
) -> Tried<bool> {
    let at = bytes.len().min(1);
    // no other is judged
    if !is_part(instr.part, instr) || !holds_scalar(entry) {
        same(rt, false, true);
        return Ok(false);
    }
    let before = entry.view().copy(alloc)?;
    let mut quick = entry.view().copy(alloc)?;
    let best = quickly(alloc, instr, &mut quick, bit, bytes, at);
    let (kept, level) = (entry.view(), Level::Usual);
    let (value, after, next) = match read_field(alloc, instr, kept, bit, level, bytes, at) {
        Err(FieldFault::Memory) => return Err(AllocError),
        Err(_) => {
            same(rt, best, None);
            same(rt, &quick, &before);
            return Ok(false);
        }
        Ok(read) => read,
    };
    waits(rt, alloc, instr, &before, &bytes[..next], at)?;
    let mut form = Vec::new(alloc);
    match write_in_place(alloc, instr, entry, value.as_ref(), &mut form) {
        Err(refusal) => {
            same(rt, refusal, FieldRefusal::Memory);
            Err(AllocError)
        }
        Ok(best_bit) => {
            same(rt, &*entry, &after);
            let answer = (value.is_some(), best_bit, next);
            match best {
                None => {
                    same(rt, &quick, &before);
                    if !bit {
                        return Ok(false);
                    }
                    is_relayed(rt, alloc, instr, &before, bytes, answer, &form, &after)
                }
                Some(Best(given, first)) => {
                    same(rt, given, answer);
                    same(rt, bytes.get(first..next), Some(form.as_slice()));
                    same(rt, &quick, &after);
                    Ok(true)
                }
            }
        }
    }
}

// Fields of an instruction, one after the other, go the same both ways, and some of them the quick way.
fn all_go_both_ways(rt: &impl Abort, alloc: Global, from: &mut Numbers, of: &FieldPart) -> Tried {
    let mut entry = Entry::Undefined;
    let mut served = false;
    for _ in 0..FIELDS {
        let bit = !part_needs_bit(of) || from.below(3) > 0;
        let bytes = made(alloc, of, bit, from)?;
        served |= goes_both_ways(rt, alloc, of, &mut entry, bit, &bytes)?;
    }
    same(rt, served, true);
    Ok(())
}

#[test]
fn generated_fields_go_the_same_both_ways(rt: HostRuntime) -> Tried {
    let mut numbers = Numbers::new(1);
    for instr in &instructions(rt.alloc())? {
        all_go_both_ways(&rt, rt.alloc(), &mut numbers, instr)?;
    }
    Ok(())
}
