//! Decimals that are judged as they stand: whether their bytes are the best form of the value, or bit 0 is. The entry goes
//! on, and nothing is written. What is not served here goes the general way.

ghost use Rattle.std.specs.Prelude.{◌≡◌, ◌≢◌, ◌≤◌, ◌+◌, ◌+ℤ◌, true, false, drop, length, IfNone, IfSome};
ghost use Rattle.fast_value.specs.Scalar.{exponent_in_range, in_range};
ghost use Rattle.fast_value.specs.declared.kind.Kind.TheVariants as kind_type;
ghost use Rattle.fast_value.specs.declared.kind.Operator.TheVariants as operator_type;
ghost use Rattle.fast_value.specs.declared.kind.Part.TheVariants as part_type;
ghost use Rattle.fast_value.specs.declared.scalar.Scalar.TheVariants as scalar;
ghost use Rattle.fast_dictionary.specs.declared.entry.Entry.TheVariants as entry_type;
ghost use Rattle.fast_field.specs.AsUsual.{ReadsAsUsual};
ghost use Rattle.fast_field.specs.Parts.{IsFieldPart};
ghost use Rattle.fast_take.specs.Judged.{IsJudged, Leaves, PairGives, PairStandsFrom, StandsAt};
ghost use Rattle.fast_take.specs.Numbers.{SpellsWhole};

use crate::judged::{Judged, answer, read_behind, read_shortest};
use crate::one_byte::read_removal;
use fast_dictionary::Entry;
use fast_template::{FieldPart, Operator, Presence, Scalar};
use fast_wire::Level;

/// The numbers of a decimal.
#[derive(Clone, Copy, PartialEq, Eq, Drop)]
pub(crate) struct Parts {
    exponent: i32,
    mantissa: i64,
}

/// The decimal that a value is.
#[inline(always)]
fn parts_of(value: &Scalar) -> Option<Parts>
    ensures { IfSome result (λ d. value.now ≡ scalar.Decimal d.exponent d.mantissa) }
{
    match value {
        Scalar::Decimal { exponent, mantissa } => Some(Parts {
            exponent: *exponent,
            mantissa: *mantissa,
        }),
        _ => None,
    }
}

/// The decimal that an entry has.
#[inline(always)]
pub(crate) fn kept_parts(entry: &Entry) -> Option<Parts>
    ensures { IfSome result (λ d. entry.now
        ≡ entry_type.Assigned (scalar.Decimal d.exponent d.mantissa)) }
{
    match entry {
        Entry::Assigned(value) => parts_of(value),
        Entry::Undefined | Entry::Empty => None,
    }
}

/// Makes an entry this decimal.
#[inline(always)]
pub(crate) fn set_decimal(entry: &mut Entry, parts: Parts)
    ensures { entry.new ≡ entry_type.Assigned (scalar.Decimal parts.exponent parts.mantissa) }
{
    *entry = Entry::Assigned(Scalar::Decimal {
        exponent: parts.exponent,
        mantissa: parts.mantissa,
    });
}

/// An exponent, or what is added to one, that is spelled in its shortest form, and the place behind it. Most have one byte.
#[inline(always)]
fn read_exponent(presence: Presence, bytes: &[u8], at: usize) -> Option<(i64, usize)>
    requires { at ≤ length bytes.now }
    ensures place { IfSome result (λ x. (at ≤ x.1) × (x.1 ≤ length bytes.now)) }
    ensures stands { IfSome result (λ x. StandsAt false presence bytes.now at x.1 x.0) }
{
    match read_removal(presence, bytes, at) {
        Some(few) => Some((few as i64, at + 1)),
        None => read_shortest(false, presence, bytes, at),
    }
}

/// Two numbers that are spelled in their shortest form, and the place behind them.
#[inline(always)]
fn read_pair(presence: Presence, bytes: &[u8], at: usize) -> Option<(i64, i64, usize)>
    requires { at ≤ length bytes.now }
    ensures place { IfSome result (λ x. (at ≤ x.2) × (x.2 ≤ length bytes.now)) }
    ensures stands { IfSome result (λ x. PairStandsFrom presence bytes.now at at x.2 x.0 x.1) }
{
    let (exponent, middle) = read_exponent(presence, bytes, at)?;
    let (mantissa, next) = read_shortest(false, Presence::Mandatory, bytes, middle)?;
    Some((exponent, mantissa, next))
}

/// The same where the exponent's shortest form stands behind one needless group or two: these are no part of the shortest
/// forms; answers also where those begin. (A call of its own, so that others do not pay for it.)
#[inline(never)]
fn read_pair_behind(presence: Presence, bytes: &[u8], at: usize) -> Option<(i64, i64, usize, usize)>
    requires { at ≤ length bytes.now }
    ensures first { IfSome result (λ x. (at + 1 ≤ x.2) × (x.2 ≤ at + 2)) }
    ensures place { IfSome result (λ x. (x.2 ≤ x.3) × (x.3 ≤ length bytes.now)) }
    ensures stands { IfSome result (λ x. PairStandsFrom presence bytes.now at x.2 x.3 x.0 x.1) }
{
    let (exponent, first, middle) = read_behind(false, presence, bytes, at)?;
    let (mantissa, next) = read_shortest(false, Presence::Mandatory, bytes, middle)?;
    Some((exponent, mantissa, first, next))
}

/// The decimal of an exponent and a mantissa, where the exponent is within its limit.
#[inline(always)]
pub(crate) fn parts_within(exponent: i64, mantissa: i64) -> Option<Parts>
    ensures exponent { IfSome result (λ d. d.exponent ≡ exponent) }
    ensures mantissa { IfSome result (λ d. d.mantissa ≡ mantissa) }
    ensures near { IfSome result (λ d. exponent_in_range d.exponent ≡ true) }
    ensures fits { IfSome result (λ d. in_range kind_type.Int64 d.mantissa ≡ true) }
{
    if -63 <= exponent && exponent <= 63 {
        Some(Parts {
            exponent: exponent as i32,
            mantissa,
        })
    } else {
        None
    }
}

/// The decimal that differences make of another one, where its parts are within their limits.
#[inline(always)]
pub(crate) fn parts_moved(kept: Parts, exponent_delta: i64, mantissa_delta: i64) -> Option<Parts>
    ensures exponent { IfSome result (λ d. d.exponent ≡ kept.exponent +ℤ exponent_delta) }
    ensures mantissa { IfSome result (λ d. d.mantissa ≡ kept.mantissa +ℤ mantissa_delta) }
    ensures near { IfSome result (λ d. exponent_in_range d.exponent ≡ true) }
    ensures fits { IfSome result (λ d. in_range kind_type.Int64 d.mantissa ≡ true) }
{
    let exponent = i64::from(kept.exponent).checked_add(exponent_delta)?;
    let mantissa = kept.mantissa.checked_add(mantissa_delta)?;
    parts_within(exponent, mantissa)
}

/// The bit of the best form of a decimal, by the initial value.
#[inline(always)]
fn judge_default(instr: &FieldPart, entry: &Entry, parts: Parts) -> Option<bool>
    requires { instr.now.operator ≡ operator_type.Default }
    ensures { IfSome result (λ bit. Leaves bit instr.now entry.now entry.now
        (Some (scalar.Decimal parts.exponent parts.mantissa))) }
{
    match &instr.initial {
        None => Some(true),
        Some(initial) => Some(parts_of(initial.value())? != parts),
    }
}

/// The bit of the best form of a decimal, by the one that the entry has; it then has this one.
#[inline(always)]
fn judge_copy(instr: &FieldPart, entry: &mut Entry, parts: Parts) -> Option<bool>
    requires kind { instr.now.kind ≡ kind_type.Decimal }
    requires operator { instr.now.operator ≡ operator_type.Copy }
    ensures leaves { IfSome result (λ bit. Leaves bit instr.now entry.old entry.new
        (Some (scalar.Decimal parts.exponent parts.mantissa))) }
    ensures entry { IfNone result (entry.new ≡ entry.old) }
{
    let kept = kept_parts(entry)?;
    if kept == parts {
        return Some(false);
    }
    set_decimal(entry, parts);
    Some(true)
}

/// The bit of the best form of a decimal that was spelled whole; the entry goes on. None: nothing has changed, and another
/// way tells.
#[inline(always)]
fn judge_read(instr: &FieldPart, entry: &mut Entry, parts: Parts) -> Option<bool>
    requires kind { instr.now.kind ≡ kind_type.Decimal }
    requires operator { SpellsWhole instr.now.operator }
    ensures leaves { IfSome result (λ bit. Leaves bit instr.now entry.old entry.new
        (Some (scalar.Decimal parts.exponent parts.mantissa))) }
    ensures entry { IfNone result (entry.new ≡ entry.old) }
{
    match instr.operator {
        Operator::Plain => Some(true),
        Operator::Default => judge_default(instr, entry, parts),
        Operator::Copy => judge_copy(instr, entry, parts),
        Operator::Increment | Operator::Constant | Operator::Delta | Operator::Tail => None,
    }
}

/// The bit of the best form of a decimal of which two numbers were read: it was spelled whole, or differs so from the one that
/// the entry has; the entry goes on. None: nothing has changed, and another way tells.
#[inline(always)]
fn judge_pair(instr: &FieldPart, entry: &mut Entry, exponent: i64, mantissa: i64) -> Option<bool>
    requires part { instr.now.part ≡ part_type.Whole }
    requires kind { instr.now.kind ≡ kind_type.Decimal }
    ensures gives { IfSome result (λ bit. PairGives bit instr.now entry.old entry.new exponent mantissa) }
    ensures entry { IfNone result (entry.new ≡ entry.old) }
{
    match instr.operator {
        Operator::Plain | Operator::Default | Operator::Copy => {
            let parts = parts_within(exponent, mantissa)?;
            judge_read(instr, entry, parts)
        }
        Operator::Delta => {
            let kept = kept_parts(entry)?;
            let parts = parts_moved(kept, exponent, mantissa)?;
            set_decimal(entry, parts);
            Some(true)
        }
        Operator::Constant | Operator::Increment | Operator::Tail => None,
    }
}

/// Judges a decimal in one piece that is read under bit 1, and makes the entry the one afterwards. It takes no memory.
/// Elsewhere: nothing has changed, and another way tells; so it is at the strict level where a group is needless.
#[inline(never)]
pub(crate) fn judge_decimal(
    instr: &FieldPart,
    entry: &mut Entry,
    level: Level,
    bytes: &[u8],
    at: usize,
) -> Judged
    requires place { at ≤ length bytes.now }
    requires part { instr.now.part ≡ part_type.Whole }
    requires kind { instr.now.kind ≡ kind_type.Decimal }
    requires typed { IsFieldPart instr.now }
    ensures judged { IsJudged instr.now entry.old entry.new bytes.now at result }
    ensures usual { result ≢ Judged.Elsewhere → ReadsAsUsual level instr.now (drop at bytes.now) }
{
    if let Some((exponent, mantissa, next)) = read_pair(instr.presence, bytes, at) {
        return answer(judge_pair(instr, entry, exponent, mantissa), at, at, next);
    }
    if level == Level::Strict {
        return Judged::Elsewhere;
    }
    match read_pair_behind(instr.presence, bytes, at) {
        Some((exponent, mantissa, first, next)) => {
            answer(
                judge_pair(instr, entry, exponent, mantissa),
                at,
                first,
                next,
            )
        }
        None => Judged::Elsewhere,
    }
}
