//! A field taken in the general way: read, and its best form written.

ghost use Rattle.std.specs.Prelude.{◌≡◌, ◌≤◌, [], false, true, drop, length, List, ℕ, IfSome, IsTrue, MatchResult, Some, Ok};
ghost use Rattle.std.specs.Option.{is_some, option_copied};
ghost use Rattle.fast_value.specs.Scalar.{is_of};
ghost use Rattle.fast_value.specs.declared.kind.Kind as kind_type;
ghost use Rattle.fast_dictionary.specs.declared.entry.Entry.{Entry as EntryOf};
ghost use Rattle.fast_field.specs.FieldReading.{field_at};
ghost use Rattle.fast_field.specs.Parts.{IsBitOf, IsFieldPart};
ghost use Rattle.fast_field.specs.Within.{HoldsScalar};
ghost use Rattle.fast_take.specs.Numbers.{KeepsNothing};
ghost use Rattle.fast_take.specs.Sent.{IsNumeric};
ghost use Rattle.fast_take.specs.Takes.{IsStopped, IsTook, LiesAside, best_bit, best_form, first_of, is_there, place_of, value_aside};

use crate::passed::pass_quickly;
use crate::took::{Aside, Took, Unkept};
use fast_dictionary::Entry;
use fast_field::{
    FieldFault, FieldRefusal, Passed, find_field, find_units, read_in_place, write_found,
};
use fast_template::{FieldPart, Kind, Operator, Part, Scalar};
use fast_wire::{Level, Nullable};

/// Takes what bit 0 gives in the general way, and makes the entry the one afterwards.
///
/// # Errors
///
/// The first fault of the field, and the entry is as it was. Memory: an initial value was to be copied.
#[inline(never)]
fn read_left_out(
    instr: &FieldPart,
    entry: &mut Entry,
    level: Level,
    bytes: &[u8],
    at: usize,
    aside: &mut Aside,
) -> Result<Took, FieldFault>
    requires place { at ≤ length bytes.now }
    requires bit { IsBitOf instr.now false }
    requires part { IsFieldPart instr.now }
    ensures { MatchResult result
        (IsTook level instr.now entry.old entry.new false bytes.now at aside.new)
        (IsStopped level instr.now entry.old entry.new false bytes.now at) }
{
    let (found, _next) = read_in_place(&mut aside.spare, instr, entry, false, level, bytes, at)?;
    let there = found.value(instr, entry.view()).is_some();
    if there {
        Ok(Took::Stands(at))
    } else {
        Ok(Took::Absent(at))
    }
}

/// Takes what bit 0 gives a field that begins at `at`, most often without a value in between, and makes its entry the one
/// afterwards. `which` is the part that the field is.
///
/// # Errors
///
/// The first fault of the field, and the entry is as it was. Memory: an initial value was to be copied.
#[inline(always)]
pub fn take_left_out(
    which: Part,
    instr: &FieldPart,
    entry: &mut Entry,
    level: Level,
    bytes: &[u8],
    at: usize,
    aside: &mut Aside,
) -> Result<Took, FieldFault>
    requires which { which ≡ instr.now.part }
    requires place { at ≤ length bytes.now }
    requires bit { IsBitOf instr.now false }
    requires part { IsFieldPart instr.now }
    ensures { MatchResult result
        (IsTook level instr.now entry.old entry.new false bytes.now at aside.new)
        (IsStopped level instr.now entry.old entry.new false bytes.now at) }
{
    match pass_quickly(which, instr, entry) {
        Passed::Present => Ok(Took::Stands(at)),
        Passed::Absent => Ok(Took::Absent(at)),
        Passed::Elsewhere => read_left_out(instr, entry, level, bytes, at, aside),
    }
}

/// Whether no entry keeps what bit 1 sends.
#[inline(always)]
pub(crate) fn keeps_nothing(operator: Operator) -> bool
    ensures keeps { result ≡ true → KeepsNothing operator }
    ensures other { result ≡ false → KeepsNothing operator → ⊥ }
{
    match operator {
        Operator::Plain | Operator::Default => true,
        Operator::Constant
        | Operator::Copy
        | Operator::Increment
        | Operator::Delta
        | Operator::Tail => false,
    }
}

/// A number or a decimal, as it lies aside.
#[inline(always)]
pub(crate) fn number_aside(value: &Scalar) -> Unkept
    ensures { (k : kind_type.Kind) (bytes : List ℕ) → IsTrue (is_of k value.now) → IsNumeric k
        → value_aside k bytes result ≡ value.now }
{
    match value {
        Scalar::U32(number) => Unkept::UInt32(*number),
        Scalar::I32(number) => Unkept::Int32(*number),
        Scalar::U64(number) => Unkept::UInt64(*number),
        Scalar::I64(number) => Unkept::Int64(*number),
        Scalar::Decimal { exponent, mantissa } => Unkept::Decimal {
            exponent: *exponent,
            mantissa: *mantissa,
        },
        // (of no number)
        Scalar::Ascii(_) | Scalar::Unicode(_) | Scalar::Bytes(_) => Unkept::UInt32(0),
    }
}

/// A value that was sent and that no entry keeps, by where it lies.
#[inline(always)]
fn lay_aside(instr: &FieldPart, value: &Scalar, level: Level, bytes: &[u8], at: usize) -> Unkept
    requires place { at ≤ length bytes.now }
    requires keeps { KeepsNothing instr.now.operator }
    requires kind { IsTrue (is_of instr.now.kind value.now) }
    requires read { (old : EntryOf) × (rest : List ℕ)
        × (field_at level instr.now old true (drop at bytes.now) ≡ Ok (Some value.now, rest)) }
    ensures { value_aside instr.now.kind bytes.now result ≡ value.now }
{
    match instr.kind {
        Kind::UInt32 | Kind::Int32 | Kind::UInt64 | Kind::Int64 | Kind::Decimal => {
            number_aside(value)
        }
        Kind::Ascii | Kind::Unicode | Kind::Bytes => {
            let Ok((sent, _next)) = find_units(instr.kind, instr.presence, level, bytes, at) else {
                unreachable!()
            };
            match sent {
                Nullable::Value(span) => Unkept::Units(span),
                Nullable::Null => unreachable!(),
            }
        }
    }
}

/// Whether there is a value among what was sent; where no entry keeps it, it is laid aside.
#[inline(always)]
fn note_value(
    instr: &FieldPart,
    value: Option<&Scalar>,
    level: Level,
    bytes: &[u8],
    at: usize,
    aside: &mut Aside,
) -> bool
    requires place { at ≤ length bytes.now }
    requires kind { IfSome (option_copied value) (λ v. IsTrue (is_of instr.now.kind v)) }
    requires read { (old : EntryOf) × (rest : List ℕ)
        × (field_at level instr.now old true (drop at bytes.now) ≡ Ok (option_copied value, rest)) }
    ensures there { result ≡ is_some (option_copied value.entry) }
    ensures aside { LiesAside instr.now true bytes.now aside.new.unkept (option_copied value.entry) }
{
    match value {
        None => false,
        Some(value) => {
            if keeps_nothing(instr.operator) {
                aside.unkept = lay_aside(instr, value, level, bytes, at);
            }
            true
        }
    }
}

/// What is told of a field whose best form was made, by this bit and these bytes: they may stand in the input.
fn tell_made(
    there: bool,
    best: bool,
    bytes: &[u8],
    at: usize,
    next: usize,
    aside: &mut Aside,
) -> Took
    requires place { at ≤ next }
    requires within { next ≤ length bytes.now }
    requires none { best ≡ false → aside.now.made.items ≡ [] }
    ensures place { place_of result ≡ next }
    ensures first { first_of at aside.new result ≤ next }
    ensures unkept { aside.new.unkept ≡ aside.old.unkept }
    ensures there { is_there result aside.new ≡ there }
    ensures bit { best_bit true aside.new result ≡ best }
    ensures form { best_form bytes.now at aside.new result ≡ aside.old.made.items }
{
    if !best && there {
        return Took::Given(next);
    }
    if best && aside.made.as_slice() == &bytes[at..next] {
        return if there {
            Took::Stands(next)
        } else {
            Took::Absent(next)
        };
    }
    aside.bit = best;
    aside.there = there;
    aside.first = next;
    Took::Other(next)
}

/// Takes what was sent of a field that begins at `at`, and makes its entry the one afterwards.
///
/// # Errors
///
/// The first fault of the field, and the entry is as it was. Memory: a growth was refused.
pub(crate) fn take_generally(
    instr: &FieldPart,
    entry: &mut Entry,
    level: Level,
    bytes: &[u8],
    at: usize,
    aside: &mut Aside,
) -> Result<Took, FieldFault>
    requires place { at ≤ length bytes.now }
    requires part { IsFieldPart instr.now }
    requires entry { HoldsScalar entry.old }
    ensures { MatchResult result
        (IsTook level instr.now entry.old entry.new true bytes.now at aside.new)
        (IsStopped level instr.now entry.old entry.new true bytes.now at) }
{
    let (found, next) = find_field(
        &mut aside.spare,
        instr,
        entry.view(),
        true,
        level,
        bytes,
        at,
    )?;
    let value = found.value(instr, entry.view());
    let there = note_value(instr, value, level, bytes, at, aside);
    aside.made.clear();
    match write_found(&mut aside.spare, instr, entry, found, &mut aside.made) {
        Err(refusal) => match refusal {
            FieldRefusal::Memory => Err(FieldFault::Memory),
            // what was read has a form
            _ => unreachable!(),
        },
        Ok((_found, best)) => Ok(tell_made(there, best, bytes, at, next, aside)),
    }
}
