//! Fields that are taken at once, most of those that are sent: what is judged of them is told, and a value that no entry keeps
//! is laid aside. Whatever is not judged is taken behind it.

ghost use Rattle.std.specs.Prelude.{◌≡◌, ◌≢◌, ◌≤◌, [], ℕ, List, Some, false, true, length, drop, IfSome, IsTrue, MatchOption};
ghost use Rattle.fast_value.specs.Scalar.{is_integer, of_integer};
ghost use Rattle.fast_value.specs.declared.kind.Kind as kind_type;
ghost use Rattle.fast_value.specs.declared.kind.Kind.TheVariants.{Ascii};
ghost use Rattle.fast_value.specs.declared.kind.Part.TheVariants as part_type;
ghost use Rattle.fast_value.specs.declared.scalar.Scalar.{Scalar as ScalarOf};
ghost use Rattle.fast_template.specs.declared.resolved.FieldPart.{FieldPart as PartOf};
ghost use Rattle.fast_dictionary.specs.declared.entry.Entry.{Entry as EntryOf};
ghost use Rattle.fast_wire.specs.declared.level.Level.TheVariants.{Usual};
ghost use Rattle.fast_field.specs.AsUsual.{ReadsAsUsual};
ghost use Rattle.fast_field.specs.Numbers.{IsFieldNumber, IsNumber};
ghost use Rattle.fast_field.specs.Parts.{IsFieldPart};
ghost use Rattle.fast_field.specs.Within.{HoldsScalar};
ghost use Rattle.fast_take.specs.Best.{HasBest, form_of};
ghost use Rattle.fast_take.specs.Judged.{IsJudged};
ghost use Rattle.fast_take.specs.Numbers.{KeepsNothing};
ghost use Rattle.fast_take.specs.LaidAside.{IfJudged, LaysAside};
ghost use Rattle.fast_take.specs.Takes.{IsTakenAs, IsTook, best_bit, best_form, first_of, is_there, place_of, value_aside};
ghost use Rattle.fast_take.specs.declared.took.Took.TheVariants as took_type;

use crate::best::{Best, judge_other};
use crate::characters::find_plain;
use crate::general::keeps_nothing;
use crate::judged::{Judged, is_refused, is_sent_unsigned, judge_long, judge_spelt, read_number};
use crate::judged_string::judge_characters;
use crate::null::judge_null;
use crate::took::{Aside, Took, Unkept};
use fast_dictionary::{Entry, Spare};
use fast_field::{is_field_number, reads_as_usual};
use fast_template::{FieldPart, Kind, Operator, Part};
use fast_wire::{Level, Span};

/// A number of an integer type, as it lies aside.
#[inline(always)]
fn integer_aside(kind: Kind, number: i64) -> Unkept
    requires { IsNumber kind number }
    ensures { (k : kind_type.Kind) (bytes : List ℕ) → value_aside k bytes result ≡ of_integer kind number }
{
    match kind {
        Kind::UInt32 => Unkept::UInt32(number as u32),
        Kind::Int32 => Unkept::Int32(number as i32),
        Kind::UInt64 => Unkept::UInt64(number as u64),
        Kind::Int64 => Unkept::Int64(number),
        Kind::Decimal | Kind::Ascii | Kind::Unicode | Kind::Bytes => unreachable!(),
    }
}

/// Lays a number aside where no entry keeps it; false where the field cannot have it.
#[inline(always)]
fn lay_number(kind: Kind, instr: &FieldPart, number: i64, aside: &mut Aside) -> bool
    requires { IsTrue (is_integer kind) }
    ensures { result ≡ true → KeepsNothing instr.now.operator → IsFieldNumber kind instr.now.part number
        × ((k : kind_type.Kind) (bytes : List ℕ) → value_aside k bytes aside.new.unkept ≡ of_integer kind number) }
{
    match instr.operator {
        Operator::Plain | Operator::Default => {
            if !is_field_number(kind, instr.part, i128::from(number)) {
                return false;
            }
            aside.unkept = integer_aside(kind, number);
            true
        }
        Operator::Constant
        | Operator::Copy
        | Operator::Increment
        | Operator::Delta
        | Operator::Tail => true,
    }
}

/// Judges an integer of a type that is known here.
#[inline(always)]
fn judge_as(
    kind: Kind,
    instr: &FieldPart,
    entry: &mut Entry,
    level: Level,
    bytes: &[u8],
    at: usize,
    aside: &mut Aside,
) -> Judged
    requires place { at ≤ length bytes.now }
    requires kind { kind ≡ instr.now.kind }
    requires integer { IsTrue (is_integer kind) }
    requires part { IsFieldPart instr.now }
    ensures judged { IsJudged instr.now entry.old entry.new bytes.now at result }
    ensures usual { result ≢ Judged.Elsewhere → ReadsAsUsual level instr.now (drop at bytes.now) }
    ensures aside { IfJudged result (LaysAside instr.now entry.old bytes.now at aside.new.unkept) }
{
    let unsigned = is_sent_unsigned(kind, instr.operator);
    let Some((number, next)) = read_number(unsigned, instr.presence, bytes, at) else {
        return Judged::Elsewhere;
    };
    if !lay_number(kind, instr, number, aside) {
        return Judged::Elsewhere;
    }
    judge_spelt(
        unsigned, instr.part, kind, instr, entry, number, level, bytes, at, next,
    )
}

/// Judges an integer of 64 bits. (A call of its own, so that a loop over fields stays small.)
#[inline(never)]
fn judge_integer(
    instr: &FieldPart,
    entry: &mut Entry,
    level: Level,
    bytes: &[u8],
    at: usize,
    aside: &mut Aside,
) -> Judged
    requires place { at ≤ length bytes.now }
    requires part { IsFieldPart instr.now }
    ensures judged { IsJudged instr.now entry.old entry.new bytes.now at result }
    ensures usual { result ≢ Judged.Elsewhere → ReadsAsUsual level instr.now (drop at bytes.now) }
    ensures aside { IfJudged result (LaysAside instr.now entry.old bytes.now at aside.new.unkept) }
{
    match instr.kind {
        Kind::UInt32 => judge_as(Kind::UInt32, instr, entry, level, bytes, at, aside),
        Kind::Int32 => judge_as(Kind::Int32, instr, entry, level, bytes, at, aside),
        Kind::UInt64 => judge_as(Kind::UInt64, instr, entry, level, bytes, at, aside),
        Kind::Int64 => judge_as(Kind::Int64, instr, entry, level, bytes, at, aside),
        Kind::Decimal | Kind::Ascii | Kind::Unicode | Kind::Bytes => Judged::Elsewhere,
    }
}

/// Judges an ASCII string that no entry keeps, and lays it aside. (A call of its own, as above.)
#[inline(never)]
fn judge_text_aside(
    instr: &FieldPart,
    entry: &mut Entry,
    level: Level,
    bytes: &[u8],
    at: usize,
    aside: &mut Aside,
) -> Judged
    requires place { at ≤ length bytes.now }
    requires part { instr.now.part ≡ part_type.Whole }
    requires kind { instr.now.kind ≡ Ascii }
    requires keeps { KeepsNothing instr.now.operator }
    ensures judged { IsJudged instr.now entry.old entry.new bytes.now at result }
    ensures usual { result ≢ Judged.Elsewhere → ReadsAsUsual level instr.now (drop at bytes.now) }
    ensures aside { IfJudged result (LaysAside instr.now entry.old bytes.now at aside.new.unkept) }
{
    let Some((first, next)) = find_plain(bytes, at) else {
        return Judged::Elsewhere;
    };
    if is_refused(level, at, first) {
        return Judged::Elsewhere;
    }
    aside.unkept = Unkept::Units(Span {
        start: first,
        end: next,
    });
    judge_characters(&mut aside.spare, instr, entry, bytes, at, first, next)
}

/// Judges a string, a vector or a decimal, and lays aside an ASCII string that no entry keeps.
#[inline(always)]
fn judge_other_kind(
    instr: &FieldPart,
    entry: &mut Entry,
    level: Level,
    bytes: &[u8],
    at: usize,
    aside: &mut Aside,
) -> Judged
    requires place { at ≤ length bytes.now }
    requires part { IsFieldPart instr.now }
    requires whole { instr.now.part ≡ part_type.Whole }
    requires entry { HoldsScalar entry.old }
    ensures judged { IsJudged instr.now entry.old entry.new bytes.now at result }
    ensures usual { result ≢ Judged.Elsewhere → ReadsAsUsual level instr.now (drop at bytes.now) }
    ensures aside { IfJudged result (LaysAside instr.now entry.old bytes.now at aside.new.unkept) }
{
    if !keeps_nothing(instr.operator) {
        return judge_long(
            Part::Whole,
            &mut aside.spare,
            instr,
            entry,
            level,
            bytes,
            at,
        );
    }
    match instr.kind {
        Kind::Ascii => judge_text_aside(instr, entry, level, bytes, at, aside),
        _ => Judged::Elsewhere,
    }
}

/// Judges what was sent, by its type, and lays its value aside where no entry keeps it. Elsewhere: nothing has changed, and
/// another way tells; so it is at the strict level where a group is needless.
#[inline(always)]
fn judge(
    instr: &FieldPart,
    entry: &mut Entry,
    level: Level,
    bytes: &[u8],
    at: usize,
    aside: &mut Aside,
) -> Judged
    requires place { at ≤ length bytes.now }
    requires part { IsFieldPart instr.now }
    requires entry { HoldsScalar entry.old }
    ensures judged { IsJudged instr.now entry.old entry.new bytes.now at result }
    ensures usual { result ≢ Judged.Elsewhere → ReadsAsUsual level instr.now (drop at bytes.now) }
    ensures aside { IfJudged result (LaysAside instr.now entry.old bytes.now at aside.new.unkept) }
{
    match instr.kind {
        Kind::UInt32 | Kind::Int32 | Kind::UInt64 | Kind::Int64 => {
            judge_integer(instr, entry, level, bytes, at, aside)
        }
        Kind::Decimal | Kind::Ascii | Kind::Unicode | Kind::Bytes => {
            judge_other_kind(instr, entry, level, bytes, at, aside)
        }
    }
}

/// What the best form is of NULL, or of an ASCII string that was sent as a difference. None: nothing has changed.
#[inline(always)]
fn find_best(
    spare: &mut Spare,
    instr: &FieldPart,
    entry: &mut Entry,
    bytes: &[u8],
    at: usize,
) -> Option<Best>
    requires place { at ≤ length bytes.now }
    requires entry { HoldsScalar entry.old }
    ensures judged { MatchOption result (entry.new ≡ entry.old)
        (λ best. HasBest instr.now entry.old entry.new bytes.now at best) }
    ensures absent { IfSome result (λ best. KeepsNothing instr.now.operator → best.there ≡ false) }
{
    if keeps_nothing(instr.operator) {
        judge_null(spare, instr, entry, bytes, at)
    } else {
        judge_other(spare, instr, entry, bytes, at)
    }
}

/// What is told of a field by its best form. There is room aside for a byte that stands nowhere in the input.
#[inline(always)]
fn tell_best(best: Best, at: usize, aside: &mut Aside) -> Took
    requires place { best.first ≤ best.next }
    requires room { length aside.now.made.items ≡ 1 }
    ensures place { place_of result ≡ best.next }
    ensures first { first_of at aside.new result ≤ best.next }
    ensures unkept { aside.new.unkept ≡ aside.old.unkept }
    ensures there { is_there result aside.new ≡ best.there }
    ensures bit { best_bit true aside.new result ≡ best.bit }
    ensures form { (bytes : List ℕ) → best_form bytes at aside.new result ≡ form_of bytes best }
{
    match best.removal {
        Some(removal) => aside.made[0] = removal,
        None => {
            if best.bit && best.first == at {
                return if best.there {
                    Took::Stands(best.next)
                } else {
                    Took::Absent(best.next)
                };
            }
            aside.made.clear();
        }
    }
    aside.bit = best.bit;
    aside.there = best.there;
    aside.first = best.first;
    Took::Other(best.next)
}

/// A best form that stands in the input from a place on.
#[inline(always)]
fn tell_behind(first: usize, next: usize, aside: &mut Aside) -> Took
    ensures took { result ≡ took_type.Other next }
    ensures bit { aside.new.bit ≡ true }
    ensures there { aside.new.there ≡ true }
    ensures made { aside.new.made.items ≡ [] }
    ensures first { aside.new.first ≡ first }
    ensures unkept { aside.new.unkept ≡ aside.old.unkept }
{
    aside.bit = true;
    aside.there = true;
    aside.made.clear();
    aside.first = first;
    Took::Other(next)
}

/// What is told of a field that was judged. None: it was not.
#[inline(always)]
pub(crate) fn tell_judged(
    judged: Judged,
    bytes: &[u8],
    at: usize,
    aside: &mut Aside,
) -> Option<Took>
    requires { at ≤ length bytes.now }
    ensures unkept { aside.new.unkept ≡ aside.old.unkept }
    ensures judged { MatchOption result (judged ≡ Judged.Elsewhere) (λ took. judged ≢ Judged.Elsewhere) }
    ensures taken { (i : PartOf) (old new : EntryOf) → IsJudged i old new bytes.now at judged
        → IfSome result (λ took. (v : ScalarOf) × IsTakenAs Usual i old new true bytes.now at aside.new took (Some v)) }
{
    match judged {
        Judged::Stands(next) => Some(Took::Stands(next)),
        Judged::Given(next) => Some(Took::Given(next)),
        Judged::Behind(next) => Some(tell_behind(at + 1, next, aside)),
        Judged::BehindTwo(next) => Some(tell_behind(at + 2, next, aside)),
        Judged::Elsewhere => None,
    }
}

/// Takes what was sent where it is judged as it stands, and makes its entry the one afterwards. None: nothing has changed.
#[inline(always)]
pub(crate) fn take_judged(
    instr: &FieldPart,
    entry: &mut Entry,
    level: Level,
    bytes: &[u8],
    at: usize,
    aside: &mut Aside,
) -> Option<Took>
    requires place { at ≤ length bytes.now }
    requires part { IsFieldPart instr.now }
    requires entry { HoldsScalar entry.old }
    ensures { MatchOption result (entry.new ≡ entry.old)
        (IsTook level instr.now entry.old entry.new true bytes.now at aside.new) }
{
    let judged = judge(instr, entry, level, bytes, at, aside);
    tell_judged(judged, bytes, at, aside)
}

/// Whether what was sent may be NULL or a string, by its first byte: a group that says something begins no NULL.
#[inline(always)]
fn may_be_respelled(instr: &FieldPart, bytes: &[u8], at: usize) -> bool
    requires { at ≤ length bytes.now }
{
    instr.kind == Kind::Ascii || at < bytes.len() && bytes[at] % 128 == 0
}

/// Takes NULL, or an ASCII string that was sent as a difference, where the best form is told at once, and makes its entry the one
/// afterwards. None: nothing has changed.
#[inline(always)]
pub(crate) fn take_respelled(
    instr: &FieldPart,
    entry: &mut Entry,
    level: Level,
    bytes: &[u8],
    at: usize,
    aside: &mut Aside,
) -> Option<Took>
    requires place { at ≤ length bytes.now }
    requires entry { HoldsScalar entry.old }
    ensures { MatchOption result (entry.new ≡ entry.old)
        (IsTook level instr.now entry.old entry.new true bytes.now at aside.new) }
{
    if !may_be_respelled(instr, bytes, at) || !reads_as_usual(level, instr, bytes, at) {
        return None;
    }
    // a byte that is put there later asks for no memory
    aside.made.clear();
    if aside.made.push(0).is_err() {
        return None;
    }
    let best = find_best(&mut aside.spare, instr, entry, bytes, at)?;
    Some(tell_best(best, at, aside))
}
