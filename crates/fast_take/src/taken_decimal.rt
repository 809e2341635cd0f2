//! Decimals. Whatever was sent is taken here.

ghost use Rattle.std.specs.Prelude.{◌≡◌, ◌≤◌, ◌++◌, ◌+ℤ◌, not, false, true, length, slice_range, IfErr, IfOk, MatchResult};
ghost use Rattle.fast_value.specs.declared.kind.Kind.TheVariants as kind_type;
ghost use Rattle.fast_dictionary.specs.Dictionary.{entry_of};
ghost use Rattle.fast_field.specs.Calls.{Answers, IsSentRange};
ghost use Rattle.fast_field.specs.declared.fault.FieldFault.TheVariants.{Memory};
ghost use Rattle.fast_field.specs.Parts.{IsFieldPart};
ghost use Rattle.fast_take.specs.Judged.{under};
ghost use Rattle.fast_take.specs.Sent.{SendsNumber, made_decimal, made_exponent};
ghost use Rattle.fast_take.specs.Takes.{IsStopped, IsTook, best_bit, best_form, first_of, is_there, place_of};

use crate::general::number_aside;
use crate::taken_integer::{keep, keep_none, needed_from};
use crate::took::{Aside, Took};
use fast_dictionary::{Entry, EntryRef};
use fast_field::{
    FieldFault, base_decimal, base_of_delta, exponent_within, is_left_out, mantissa_within,
    read_integer, read_mantissa_entity,
};
use fast_template::{FieldPart, Operator, Scalar};
use fast_wire::{Level, Nullable};

/// An exponent or mantissa that a difference makes.
#[inline(always)]
fn added(base: i64, delta: i128) -> i128
    requires range { IsSentRange delta }
    ensures { result ≡ base +ℤ delta }
{
    i128::from(base) + delta
}

/// The exponent that a number makes which was sent whole, or as a difference.
#[inline(always)]
fn exponent_of_sent(instr: &FieldPart, kept: EntryRef, sent: i128) -> Result<i32, FieldFault>
    requires sent { IsSentRange sent }
    ensures { Answers (λ e. e) result (made_exponent instr.now.operator instr.now (entry_of kept.entry) sent) }
{
    let exponent = match instr.operator {
        Operator::Delta => added(i64::from(base_decimal(base_of_delta(instr, kept)?).0), sent),
        Operator::Plain
        | Operator::Constant
        | Operator::Default
        | Operator::Copy
        | Operator::Increment
        | Operator::Tail => sent,
    };
    match exponent_within(exponent) {
        Some(exponent) => Ok(exponent),
        None => Err(FieldFault::R1),
    }
}

/// The decimal of an exponent, and a mantissa which was sent whole, or as a difference.
#[tactic(auto, unfolding(fast_field::specs::FieldReading::decimal_value))]
#[inline(always)]
fn decimal_of_sent(
    instr: &FieldPart,
    kept: EntryRef,
    exponent: i32,
    sent: i128,
) -> Result<Scalar, FieldFault>
    requires sent { IsSentRange sent }
    ensures { Answers (λ v. v) result (made_decimal instr.now.operator instr.now (entry_of kept.entry) exponent sent) }
{
    let mantissa = match instr.operator {
        Operator::Delta => added(base_decimal(base_of_delta(instr, kept)?).1, sent),
        Operator::Plain
        | Operator::Constant
        | Operator::Default
        | Operator::Copy
        | Operator::Increment
        | Operator::Tail => sent,
    };
    match mantissa_within(mantissa) {
        Some(mantissa) => Ok(Scalar::Decimal { exponent, mantissa }),
        None => Err(FieldFault::R1),
    }
}

/// What is told of a decimal that was sent: its best form is what is needed of the exponent and of the mantissa.
fn tell_pair(
    given: bool,
    bytes: &[u8],
    at: usize,
    first: usize,
    middle: usize,
    second: usize,
    next: usize,
    aside: &mut Aside,
) -> Result<Took, FieldFault>
    requires exponent { (at ≤ first) × (first ≤ middle) }
    requires mantissa { (middle ≤ second) × (second ≤ next) }
    requires within { next ≤ length bytes.now }
    ensures place { IfOk result (λ took. place_of took ≡ next) }
    ensures first { IfOk result (λ took. first_of at aside.new took ≤ next) }
    ensures unkept { aside.new.unkept ≡ aside.old.unkept }
    ensures there { IfOk result (λ took. is_there took aside.new ≡ true) }
    ensures bit { IfOk result (λ took. best_bit true aside.new took ≡ not given) }
    ensures form { IfOk result (λ took. best_form bytes.now at aside.new took
        ≡ under (not given) (slice_range bytes.now first middle ++ slice_range bytes.now second next)) }
    ensures memory { IfErr result (λ fault. fault ≡ Memory) }
{
    if given {
        return Ok(aside.tell(true, given, at, first, next));
    }
    // the parts stand one behind the other
    if second == middle {
        return Ok(aside.tell(true, false, at, first, next));
    }
    aside.bit = true;
    aside.there = true;
    aside.made.clear();
    if aside.made.extend_from_slice(&bytes[first..middle]).is_err() {
        return Err(FieldFault::Memory);
    }
    aside.first = second;
    Ok(Took::Other(next))
}

/// Takes a decimal that was sent, and makes its entry the one afterwards.
///
/// # Errors
///
/// The first fault of the field, and the entry is as it was. Memory: for a best form that stands in two pieces.
pub(crate) fn take_decimal(
    instr: &FieldPart,
    entry: &mut Entry,
    level: Level,
    bytes: &[u8],
    at: usize,
    aside: &mut Aside,
) -> Result<Took, FieldFault>
    requires place { at ≤ length bytes.now }
    requires part { IsFieldPart instr.now }
    requires kind { instr.now.kind ≡ kind_type.Decimal }
    requires sends { SendsNumber instr.now.operator }
    ensures { MatchResult result
        (IsTook level instr.now entry.old entry.new true bytes.now at aside.new)
        (IsStopped level instr.now entry.old entry.new true bytes.now at) }
{
    let (sent, middle) = read_integer(false, instr.presence, level, bytes, at)?;
    let first = needed_from(false, bytes, at, middle);
    match sent {
        Nullable::Null => {
            let given = is_left_out(instr, entry.view(), None);
            keep_none(&mut aside.spare, instr, entry);
            Ok(aside.tell(false, given, at, first, middle))
        }
        Nullable::Value(sent) => {
            let exponent = exponent_of_sent(instr, entry.view(), sent)?;
            let (sent, next) = read_mantissa_entity(level, bytes, middle)?;
            let value = decimal_of_sent(instr, entry.view(), exponent, sent)?;
            let second = needed_from(false, bytes, middle, next);
            let given = is_left_out(instr, entry.view(), Some(&value));
            aside.unkept = number_aside(&value);
            let took = tell_pair(given, bytes, at, first, middle, second, next, aside)?;
            keep(&mut aside.spare, instr, entry, value);
            Ok(took)
        }
    }
}
