//! Integers. Whatever was sent is taken here: a number that is longer than it need be, NULL, and one that is out of its range.

ghost use Rattle.std.specs.Prelude.{◌≡◌, ◌≤◌, ℤ, Ok, false, true, length, slice_range, None, Some, IfOk, MatchResult, IsTrue};
ghost use Rattle.fast_wire.specs.declared.nullable.Nullable.TheVariants.{Value};
ghost use Rattle.fast_value.specs.Scalar.{is_integer};
ghost use Rattle.fast_value.specs.declared.kind.Presence.{Presence as PresenceOf};
ghost use Rattle.fast_dictionary.specs.Dictionary.{entry_of};
ghost use Rattle.fast_field.specs.Bases.{next as next_entry};
ghost use Rattle.fast_field.specs.Calls.{Answers, IsSentRange};
ghost use Rattle.fast_field.specs.FieldReading.{part_checked};
ghost use Rattle.fast_field.specs.Parts.{IsFieldPart};
ghost use Rattle.fast_field.specs.Spelled.{SpellsIntegerUsually, overlong_number};
ghost use Rattle.fast_field.specs.Values.{integer_of};
ghost use Rattle.fast_take.specs.Sent.{SendsNumber, made, valued};
ghost use Rattle.fast_take.specs.Takes.{IsFaulted, IsTook};

use crate::general::number_aside;
use crate::integers::is_overlong;
use crate::judged::is_sent_unsigned;
use crate::took::{Aside, Took};
use fast_dictionary::{Entry, EntryRef, Spare};
use fast_field::{FieldFault, is_left_out, read_integer, sum_of_delta, value_of_integer};
use fast_template::{FieldPart, Operator, Part, Scalar};
use fast_wire::{Level, Nullable};
use std::mem;

/// The limits of an exponent and of a length.
#[tactic(auto, unfolding(fast_field::specs::FieldReading::part_checked))]
#[inline(always)]
fn check_limit(part: Part, value: &Scalar) -> Result<(), FieldFault>
    ensures { Answers (λ _. Some value.now) result (part_checked part (Some value.now)) }
{
    let number = integer(value);
    match part {
        Part::Exponent if number < -63 || number > 63 => Err(FieldFault::R1),
        Part::Length if number > 65_535 => Err(FieldFault::Limit),
        _ => Ok(()),
    }
}

/// The number of an integer; of another value 0.
#[inline(always)]
fn integer(value: &Scalar) -> i128
    ensures { result ≡ integer_of value.now }
{
    match value {
        Scalar::U32(number) => i128::from(*number),
        Scalar::I32(number) => i128::from(*number),
        Scalar::U64(number) => i128::from(*number),
        Scalar::I64(number) => i128::from(*number),
        _ => 0,
    }
}

/// The value that a number makes which was sent whole, or as a difference.
#[inline(always)]
fn made_value(instr: &FieldPart, kept: EntryRef, sent: i128) -> Result<Scalar, FieldFault>
    requires integer { IsTrue (is_integer instr.now.kind) }
    requires sent { IsSentRange sent }
    ensures { Answers (λ v. v) result (made instr.now.operator instr.now (entry_of kept.entry) sent) }
{
    match instr.operator {
        Operator::Delta => sum_of_delta(instr, kept, sent),
        Operator::Plain
        | Operator::Constant
        | Operator::Default
        | Operator::Copy
        | Operator::Increment
        | Operator::Tail => value_of_integer(instr.part, instr.kind, sent),
    }
}

/// And that its part can have.
#[inline(always)]
fn value_of_sent(instr: &FieldPart, kept: EntryRef, sent: i128) -> Result<Scalar, FieldFault>
    requires integer { IsTrue (is_integer instr.now.kind) }
    requires sent { IsSentRange sent }
    ensures made { IfOk result (λ v. made instr.now.operator instr.now (entry_of kept.entry) sent ≡ Ok v) }
    ensures valued { Answers (λ v. Some v) result (valued instr.now.operator instr.now (entry_of kept.entry) sent) }
{
    let value = made_value(instr, kept, sent)?;
    check_limit(instr.part, &value)?;
    Ok(value)
}

/// Keeps a value where the operator keeps one. It takes no memory.
#[inline(always)]
pub(crate) fn keep(spare: &mut Spare, instr: &FieldPart, entry: &mut Entry, value: Scalar)
    ensures { entry.new ≡ next_entry instr.now entry.old (Some value) }
{
    match instr.operator {
        Operator::Plain | Operator::Constant | Operator::Default => {
            spare.keep_entry(Entry::Assigned(value));
        }
        Operator::Copy | Operator::Increment | Operator::Delta | Operator::Tail => {
            spare.keep_entry(mem::replace(entry, Entry::Assigned(value)));
        }
    }
}

/// Keeps that there is no value.
#[inline(always)]
pub(crate) fn keep_none(spare: &mut Spare, instr: &FieldPart, entry: &mut Entry)
    ensures { entry.new ≡ next_entry instr.now entry.old None }
{
    match instr.operator {
        Operator::Plain | Operator::Constant | Operator::Default | Operator::Delta => {}
        Operator::Copy | Operator::Increment | Operator::Tail => {
            spare.keep_entry(mem::replace(entry, Entry::Empty));
        }
    }
}

/// Where the shortest form of a number begins, that stands between two places: behind the groups that are needless.
pub(crate) fn needed_from(unsigned: bool, bytes: &[u8], at: usize, next: usize) -> usize
    requires place { at ≤ next }
    requires within { next ≤ length bytes.now }
    requires spelt { (p : PresenceOf) × (z : ℤ) × SpellsIntegerUsually unsigned p (slice_range bytes.now at next) (Value z) }
    ensures place { (at ≤ result) × (result ≤ next) }
    ensures short { overlong_number unsigned (slice_range bytes.now result next) ≡ false }
    ensures same { (p : PresenceOf) (z : ℤ) → SpellsIntegerUsually unsigned p (slice_range bytes.now at next) (Value z)
        → SpellsIntegerUsually unsigned p (slice_range bytes.now result next) (Value z) }
{
    let mut first = at;
    while is_overlong(unsigned, bytes, first, next) {
        first += 1;
    }
    first
}

/// Takes an integer that was sent, and makes its entry the one afterwards. It takes no memory.
///
/// # Errors
///
/// The first fault of the field, and the entry is as it was.
pub(crate) fn take_integer(
    instr: &FieldPart,
    entry: &mut Entry,
    level: Level,
    bytes: &[u8],
    at: usize,
    aside: &mut Aside,
) -> Result<Took, FieldFault>
    requires place { at ≤ length bytes.now }
    requires part { IsFieldPart instr.now }
    requires integer { IsTrue (is_integer instr.now.kind) }
    requires sends { SendsNumber instr.now.operator }
    ensures { MatchResult result
        (IsTook level instr.now entry.old entry.new true bytes.now at aside.new)
        (IsFaulted level instr.now entry.old entry.new true bytes.now at) }
{
    let unsigned = is_sent_unsigned(instr.kind, instr.operator);
    let (sent, next) = read_integer(unsigned, instr.presence, level, bytes, at)?;
    let first = needed_from(unsigned, bytes, at, next);
    match sent {
        Nullable::Null => {
            let given = is_left_out(instr, entry.view(), None);
            keep_none(&mut aside.spare, instr, entry);
            Ok(aside.tell(false, given, at, first, next))
        }
        Nullable::Value(sent) => {
            let value = value_of_sent(instr, entry.view(), sent)?;
            let given = is_left_out(instr, entry.view(), Some(&value));
            aside.unkept = number_aside(&value);
            keep(&mut aside.spare, instr, entry, value);
            Ok(aside.tell(true, given, at, first, next))
        }
    }
}
