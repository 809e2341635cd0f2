//! A field, whatever it is.

ghost use Rattle.std.specs.Prelude.{◌≡◌, ◌≢◌, ◌≤◌, Option, drop, false, true, length, IfErr, IsTrue, MatchResult};
ghost use Rattle.fast_value.specs.Scalar.{is_integer};
ghost use Rattle.fast_value.specs.declared.scalar.Scalar.{Scalar as ScalarOf};
ghost use Rattle.fast_dictionary.specs.declared.entry.Entry.{Entry as EntryOf};
ghost use Rattle.fast_field.specs.AsUsual.{ReadsAsUsual};
ghost use Rattle.fast_field.specs.Parts.{IsBitOf, IsFieldPart};
ghost use Rattle.fast_field.specs.Within.{HoldsScalar};
ghost use Rattle.fast_take.specs.Judged.{IsJudged};
ghost use Rattle.fast_take.specs.Numbers.{SpellsWhole};
ghost use Rattle.fast_take.specs.Texts.{IsVectorKind};
ghost use Rattle.fast_take.specs.Sent.{IsNumeric, SendsNumber};
ghost use Rattle.fast_take.specs.Takes.{IsFaulted, IsStopped, IsTakenAs, IsTook};

use crate::at_once::{take_judged, take_respelled, tell_judged};
use crate::general::{take_generally, take_left_out};
use crate::judged::{Judged, judge_constant, judge_field};
use crate::taken_decimal::take_decimal;
use crate::taken_integer::take_integer;
use crate::taken_vector::take_vector;
use crate::took::{Aside, Took};
use fast_dictionary::{Entry, Spare};
use fast_field::FieldFault;
use fast_template::{FieldPart, Kind, Operator, Part};
use fast_wire::Level;

/// Whether bit 1 sends a number, or two.
#[inline(always)]
fn sends_number(instr: &FieldPart) -> bool
    ensures number { result ≡ true → IsNumeric instr.now.kind }
    ensures sends { result ≡ true → SendsNumber instr.now.operator }
    ensures other { result ≡ false → IsTrue (is_integer instr.now.kind) → SendsNumber instr.now.operator → ⊥ }
{
    match instr.operator {
        Operator::Constant | Operator::Tail => false,
        Operator::Plain
        | Operator::Default
        | Operator::Copy
        | Operator::Increment
        | Operator::Delta => match instr.kind {
            Kind::UInt32 | Kind::Int32 | Kind::UInt64 | Kind::Int64 | Kind::Decimal => true,
            Kind::Ascii | Kind::Unicode | Kind::Bytes => false,
        },
    }
}

/// Whether bit 1 sends a Unicode string or a byte vector whole.
#[inline(always)]
fn sends_vector(instr: &FieldPart) -> bool
    ensures kind { result ≡ true → IsVectorKind instr.now.kind }
    ensures whole { result ≡ true → SpellsWhole instr.now.operator }
{
    match instr.kind {
        Kind::Unicode | Kind::Bytes => match instr.operator {
            Operator::Plain | Operator::Default | Operator::Copy | Operator::Increment => true,
            Operator::Constant | Operator::Delta | Operator::Tail => false,
        },
        _ => false,
    }
}

/// Takes what was sent of a field that begins at `at`, whatever it is, and makes its entry the one afterwards.
///
/// # Errors
///
/// The first fault of the field, and the entry is as it was. Memory: a growth was refused, and no more bytes were needed. An
/// integer asks for none.
#[inline(never)]
fn take_any(
    instr: &FieldPart,
    entry: &mut Entry,
    level: Level,
    bytes: &[u8],
    at: usize,
    aside: &mut Aside,
) -> Result<Took, FieldFault>
    requires place { at ≤ length bytes.now }
    requires part { IsFieldPart instr.now }
    requires entry { HoldsScalar entry.old }
    ensures taken { MatchResult result
        (IsTook level instr.now entry.old entry.new true bytes.now at aside.new)
        (IsStopped level instr.now entry.old entry.new true bytes.now at) }
    ensures integer { IsTrue (is_integer instr.now.kind) → SendsNumber instr.now.operator
        → IfErr result (IsFaulted level instr.now entry.old entry.new true bytes.now at) }
{
    if let Some(took) = take_respelled(instr, entry, level, bytes, at, aside) {
        return Ok(took);
    }
    if sends_number(instr) {
        return match instr.kind {
            Kind::Decimal => take_decimal(instr, entry, level, bytes, at, aside),
            _ => take_integer(instr, entry, level, bytes, at, aside),
        };
    }
    if sends_vector(instr) {
        return take_vector(instr, entry, level, bytes, at, aside);
    }
    take_generally(instr, entry, level, bytes, at, aside)
}

/// Takes what was sent of a field that begins at `at`, and makes its entry the one afterwards.
///
/// # Errors
///
/// The first fault of the field, and the entry is as it was. Memory: a growth was refused, and no more bytes were needed. An
/// integer asks for none.
#[inline(always)]
pub fn take_sent(
    instr: &FieldPart,
    entry: &mut Entry,
    level: Level,
    bytes: &[u8],
    at: usize,
    aside: &mut Aside,
) -> Result<Took, FieldFault>
    requires place { at ≤ length bytes.now }
    requires part { IsFieldPart instr.now }
    requires entry { HoldsScalar entry.old }
    ensures taken { MatchResult result
        (IsTook level instr.now entry.old entry.new true bytes.now at aside.new)
        (IsStopped level instr.now entry.old entry.new true bytes.now at) }
    ensures integer { IsTrue (is_integer instr.now.kind) → SendsNumber instr.now.operator
        → IfErr result (IsFaulted level instr.now entry.old entry.new true bytes.now at) }
{
    if instr.operator == Operator::Constant {
        if let Judged::Stands(next) = judge_constant(instr.part, instr, entry, bytes, at) {
            return Ok(Took::Stands(next));
        }
    } else if let Some(took) = take_judged(instr, entry, level, bytes, at, aside) {
        return Ok(took);
    }
    take_any(instr, entry, level, bytes, at, aside)
}

/// Takes a field that begins at `at`, and makes its entry the one afterwards. `bit` is the field's bit in the presence map,
/// true where it has none.
///
/// # Errors
///
/// As `take_sent` and `take_left_out`.
#[inline(always)]
pub fn take(
    instr: &FieldPart,
    entry: &mut Entry,
    bit: bool,
    level: Level,
    bytes: &[u8],
    at: usize,
    aside: &mut Aside,
) -> Result<Took, FieldFault>
    requires place { at ≤ length bytes.now }
    requires bit { IsBitOf instr.now bit }
    requires part { IsFieldPart instr.now }
    requires entry { HoldsScalar entry.old }
    ensures taken { MatchResult result
        (IsTook level instr.now entry.old entry.new bit bytes.now at aside.new)
        (IsStopped level instr.now entry.old entry.new bit bytes.now at) }
    ensures integer { bit ≡ true → IsTrue (is_integer instr.now.kind) → SendsNumber instr.now.operator
        → IfErr result (IsFaulted level instr.now entry.old entry.new true bytes.now at) }
{
    if bit {
        take_sent(instr, entry, level, bytes, at, aside)
    } else {
        take_left_out(instr.part, instr, entry, level, bytes, at, aside)
    }
}

/// Judges what was sent of a field that begins at `at`, where the caller knows what part it is, and makes its entry the one
/// afterwards; no value is laid aside. Elsewhere: nothing has changed.
#[inline(always)]
pub fn judge_sent(
    which: Part,
    spare: &mut Spare,
    instr: &FieldPart,
    entry: &mut Entry,
    level: Level,
    bytes: &[u8],
    at: usize,
) -> Judged
    requires place { at ≤ length bytes.now }
    requires which { which ≡ instr.now.part }
    requires part { IsFieldPart instr.now }
    requires entry { HoldsScalar entry.old }
    ensures judged { IsJudged instr.now entry.old entry.new bytes.now at result }
    ensures usual { result ≢ Judged.Elsewhere → ReadsAsUsual level instr.now (drop at bytes.now) }
{
    judge_field(which, spare, instr, entry, level, bytes, at)
}

/// What became of a field that was sent and judged; one that was not is taken now, in the way that takes any, and its entry
/// made the one afterwards. Where the value lies is not told.
///
/// # Errors
///
/// As `take_sent`.
#[inline(always)]
pub fn relay_judged(
    judged: Judged,
    instr: &FieldPart,
    entry: &mut Entry,
    level: Level,
    bytes: &[u8],
    at: usize,
    aside: &mut Aside,
) -> Result<Took, FieldFault>
    requires place { at ≤ length bytes.now }
    requires judged { (before : EntryOf) × IsJudged instr.now before entry.old bytes.now at judged }
    requires usual { judged ≢ Judged.Elsewhere → ReadsAsUsual level instr.now (drop at bytes.now) }
    requires part { IsFieldPart instr.now }
    requires entry { judged ≡ Judged.Elsewhere → HoldsScalar entry.old }
    ensures { (before : EntryOf) → IsJudged instr.now before entry.old bytes.now at judged → MatchResult result
        (λ took. (v : Option ScalarOf) × IsTakenAs level instr.now before entry.new true bytes.now at aside.new took v)
        (IsStopped level instr.now before entry.new true bytes.now at) }
{
    match tell_judged(judged, bytes, at, aside) {
        Some(took) => Ok(took),
        None => take_any(instr, entry, level, bytes, at, aside),
    }
}
