//! ASCII strings that are judged as they stand: whether their bytes are the best form of the value, or bit 0 is. The entry
//! goes on, and nothing is written. What is not served here goes by `judge_other`, or the general way.

ghost use Rattle.std.specs.Prelude.{◌≡◌, ◌≢◌, ◌≤◌, ◌<◌, ◌+◌, drop, length, slice_range, IfNone, IfSome};
ghost use Rattle.fast_value.specs.Scalar.{IsScalar};
ghost use Rattle.fast_value.specs.declared.kind.Kind.TheVariants as kind_type;
ghost use Rattle.fast_value.specs.declared.kind.Operator.TheVariants as operator_type;
ghost use Rattle.fast_value.specs.declared.kind.Part.TheVariants as part_type;
ghost use Rattle.fast_value.specs.declared.scalar.Scalar.TheVariants.{Ascii};
ghost use Rattle.fast_dictionary.specs.declared.entry.Entry.TheVariants as entry_type;
ghost use Rattle.fast_wire.specs.Entity.{IsEntity};
ghost use Rattle.fast_wire.specs.Plain.{IsPlain};
ghost use Rattle.fast_wire.specs.declared.level.Level.{Level as LevelOf};
ghost use Rattle.fast_wire.specs.declared.level.Level.TheVariants.{Strict};
ghost use Rattle.fast_field.specs.AsUsual.{ReadsAsUsual};
ghost use Rattle.fast_field.specs.Within.{HoldsScalar};
ghost use Rattle.fast_take.specs.Judged.{EndGives, IsJudged, TextGives};
ghost use Rattle.fast_take.specs.Numbers.{KeepsNothing, SpellsWhole};

use crate::characters::find_plain;
use crate::cut::read_tail;
use crate::given::text_bit;
use crate::judged::{Judged, answer, is_refused};
use crate::one_byte::read_removal;
use crate::plain::{keep_plain, put_characters, replace_end, replace_string};
use crate::words::{plain_end, short_plain_end};
use fast_dictionary::{Entry, Spare};
use fast_field::agrees_no_further;
use fast_template::{ByteString, FieldPart, Operator, Scalar};
use fast_wire::{Level, is_text_of};
use std::alloc::Global;

/// The bit of the best form of a string that is spelled whole by bytes that are its shortest form; the entry goes on. None:
/// nothing has changed, and another way tells.
#[inline(always)]
fn judge_plain(spare: &mut Spare, instr: &FieldPart, entry: &mut Entry, form: &[u8]) -> Option<bool>
    requires part { instr.now.part ≡ part_type.Whole }
    requires operator { SpellsWhole instr.now.operator }
    requires kind { instr.now.kind ≡ kind_type.Ascii }
    requires entity { IsEntity form.now }
    ensures gives { IfSome result (λ bit. TextGives bit instr.now entry.old entry.new form.now) }
    ensures entry { IfNone result (entry.new ≡ entry.old) }
{
    if text_bit(instr, entry, form)? {
        keep_plain(spare, instr.operator, entry, form).then_some(true)
    } else {
        Some(false)
    }
}

/// Judges a string that is spelled whole and whose shortest form stands from one place to another, be it behind a preamble, and
/// makes the entry the one afterwards. Elsewhere: nothing has changed, and another way tells.
#[inline(always)]
pub(crate) fn judge_characters(
    spare: &mut Spare,
    instr: &FieldPart,
    entry: &mut Entry,
    bytes: &[u8],
    at: usize,
    first: usize,
    next: usize,
) -> Judged
    requires first { (at ≤ first) × (first ≤ at + 1) }
    requires place { (first < next) × (next ≤ length bytes.now) }
    requires plain { IsPlain (drop at bytes.now) (slice_range bytes.now first next) (drop next bytes.now) }
    requires part { instr.now.part ≡ part_type.Whole }
    requires operator { SpellsWhole instr.now.operator }
    requires kind { instr.now.kind ≡ kind_type.Ascii }
    ensures { IsJudged instr.now entry.old entry.new bytes.now at result }
{
    let bit = judge_plain(spare, instr, entry, &bytes[first..next]);
    answer(bit, at, first, next)
}

/// Judges a string that is spelled whole, be it behind a preamble. (A call of its own, behind those that judge most, as is the
/// next one.)
#[inline(never)]
fn judge_string_behind(
    spare: &mut Spare,
    instr: &FieldPart,
    entry: &mut Entry,
    bytes: &[u8],
    at: usize,
) -> Judged
    requires place { at ≤ length bytes.now }
    requires part { instr.now.part ≡ part_type.Whole }
    requires operator { SpellsWhole instr.now.operator }
    requires kind { instr.now.kind ≡ kind_type.Ascii }
    ensures { IsJudged instr.now entry.old entry.new bytes.now at result }
{
    match find_plain(bytes, at) {
        Some((first, next)) => judge_characters(spare, instr, entry, bytes, at, first, next),
        None => Judged::Elsewhere,
    }
}

/// The same of a string that stands behind no preamble.
#[inline(never)]
fn judge_string_plain(
    spare: &mut Spare,
    instr: &FieldPart,
    entry: &mut Entry,
    bytes: &[u8],
    at: usize,
) -> Judged
    requires place { at ≤ length bytes.now }
    requires part { instr.now.part ≡ part_type.Whole }
    requires operator { SpellsWhole instr.now.operator }
    requires kind { instr.now.kind ≡ kind_type.Ascii }
    ensures judged { IsJudged instr.now entry.old entry.new bytes.now at result }
    ensures usual { result ≢ Judged.Elsewhere → ReadsAsUsual Strict instr.now (drop at bytes.now) }
{
    match plain_end(bytes, at) {
        Some(next) => judge_characters(spare, instr, entry, bytes, at, at, next),
        None => Judged::Elsewhere,
    }
}

/// Judges a string that is spelled whole; at the strict level none that stands behind a preamble.
#[inline(always)]
fn judge_string_whole(
    spare: &mut Spare,
    instr: &FieldPart,
    entry: &mut Entry,
    level: Level,
    bytes: &[u8],
    at: usize,
) -> Judged
    requires place { at ≤ length bytes.now }
    requires part { instr.now.part ≡ part_type.Whole }
    requires operator { SpellsWhole instr.now.operator }
    requires kind { instr.now.kind ≡ kind_type.Ascii }
    ensures judged { IsJudged instr.now entry.old entry.new bytes.now at result }
    ensures usual { result ≢ Judged.Elsewhere → ReadsAsUsual level instr.now (drop at bytes.now) }
{
    match level {
        Level::Usual => judge_string_behind(spare, instr, entry, bytes, at),
        Level::Strict => judge_string_plain(spare, instr, entry, bytes, at),
    }
}

/// Judges a string that is spelled whole and kept nowhere.
#[inline(always)]
fn judge_string_once(
    spare: &mut Spare,
    instr: &FieldPart,
    entry: &mut Entry,
    level: Level,
    bytes: &[u8],
    at: usize,
) -> Judged
    requires place { at ≤ length bytes.now }
    requires part { instr.now.part ≡ part_type.Whole }
    requires operator { SpellsWhole instr.now.operator }
    requires nowhere { KeepsNothing instr.now.operator }
    requires kind { instr.now.kind ≡ kind_type.Ascii }
    ensures judged { IsJudged instr.now entry.old entry.new bytes.now at result }
    ensures usual { result ≢ Judged.Elsewhere → ReadsAsUsual level instr.now (drop at bytes.now) }
{
    if let Some(next) = short_plain_end(bytes, at) {
        if let Some(true) = text_bit(instr, entry, &bytes[at..next]) {
            return Judged::Stands(next);
        }
    }
    judge_string_whole(spare, instr, entry, level, bytes, at)
}

/// Judges a string by the one that the entry has; it then has this one.
#[inline(always)]
fn judge_string_copy(
    spare: &mut Spare,
    instr: &FieldPart,
    entry: &mut Entry,
    level: Level,
    bytes: &[u8],
    at: usize,
) -> Judged
    requires place { at ≤ length bytes.now }
    requires part { instr.now.part ≡ part_type.Whole }
    requires operator { instr.now.operator ≡ operator_type.Copy }
    requires kind { instr.now.kind ≡ kind_type.Ascii }
    ensures judged { IsJudged instr.now entry.old entry.new bytes.now at result }
    ensures usual { result ≢ Judged.Elsewhere → ReadsAsUsual level instr.now (drop at bytes.now) }
{
    if let Some(next) = short_plain_end(bytes, at) {
        if replace_string(instr, entry, &bytes[at..next]) {
            return Judged::Stands(next);
        }
    }
    judge_string_whole(spare, instr, entry, level, bytes, at)
}

/// Judges a removal of few characters at the end of the string that the entry has, and a new part that is short, and as long
/// as what is removed.
#[inline(always)]
fn judge_string_delta(instr: &FieldPart, text: &mut ByteString, bytes: &[u8], at: usize) -> Judged
    requires place { at ≤ length bytes.now }
    requires part { instr.now.part ≡ part_type.Whole }
    requires operator { instr.now.operator ≡ operator_type.Delta }
    requires kind { instr.now.kind ≡ kind_type.Ascii }
    requires kept { IsScalar (Ascii text.now) }
    ensures judged { IsJudged instr.now (entry_type.Assigned (Ascii text.old)) (entry_type.Assigned (Ascii text.new))
        bytes.now at result }
    ensures usual { result ≢ Judged.Elsewhere → (level : LevelOf) → ReadsAsUsual level instr.now (drop at bytes.now) }
{
    let Some(removed) = read_removal(instr.presence, bytes, at) else {
        return Judged::Elsewhere;
    };
    let first = at + 1;
    if let Some(next) = short_plain_end(bytes, first) {
        if replace_end(text, removed, &bytes[first..next]) {
            return Judged::Stands(next);
        }
    }
    Judged::Elsewhere
}

/// The bit of the best form of a new end of the string that the entry has: bit 0 where it has that already. None: nothing
/// has changed, and another way tells.
#[inline(always)]
fn judge_end(alloc: Global, instr: &FieldPart, text: &mut ByteString, form: &[u8]) -> Option<bool>
    requires part { instr.now.part ≡ part_type.Whole }
    requires operator { instr.now.operator ≡ operator_type.Tail }
    requires kind { instr.now.kind ≡ kind_type.Ascii }
    requires kept { IsScalar (Ascii text.now) }
    requires entity { IsEntity form.now }
    ensures gives { IfSome result (λ bit. EndGives bit instr.now text.old text.new form.now) }
    ensures text { IfNone result (text.new ≡ text.old) }
{
    let base = text.as_slice();
    if form.len() > base.len() {
        return None;
    }
    let kept = base.len() - form.len();
    if agrees_no_further(base, kept, form) {
        return put_characters(alloc, text, kept, form).then_some(true);
    }
    is_text_of(&base[kept..], form).then_some(false)
}

/// Judges a new end of the string that the entry has, or one that it has already, which bit 0 gives. (A call of its own, so
/// that other strings do not pay for it.)
#[inline(never)]
fn judge_string_tail(
    alloc: Global,
    instr: &FieldPart,
    text: &mut ByteString,
    level: Level,
    bytes: &[u8],
    at: usize,
) -> Judged
    requires place { at ≤ length bytes.now }
    requires part { instr.now.part ≡ part_type.Whole }
    requires operator { instr.now.operator ≡ operator_type.Tail }
    requires kind { instr.now.kind ≡ kind_type.Ascii }
    requires kept { IsScalar (Ascii text.now) }
    ensures judged { IsJudged instr.now (entry_type.Assigned (Ascii text.old)) (entry_type.Assigned (Ascii text.new))
        bytes.now at result }
    ensures usual { result ≢ Judged.Elsewhere → ReadsAsUsual level instr.now (drop at bytes.now) }
{
    let base = text.as_slice();
    let Some((first, next)) = read_tail(instr, base, bytes, at) else {
        return Judged::Elsewhere;
    };
    if first > at + 2 {
        return Judged::Elsewhere;
    }
    if is_refused(level, at, first) {
        return Judged::Elsewhere;
    }
    let bit = judge_end(alloc, instr, text, &bytes[first..next]);
    answer(bit, at, first, next)
}

/// Judges an ASCII string that is read under bit 1, and makes the entry the one afterwards. Elsewhere: nothing has changed,
/// and another way tells; so it is at the strict level where a group is needless.
#[inline(always)]
fn judge_string_at(
    spare: &mut Spare,
    instr: &FieldPart,
    entry: &mut Entry,
    level: Level,
    bytes: &[u8],
    at: usize,
) -> Judged
    requires place { at ≤ length bytes.now }
    requires part { instr.now.part ≡ part_type.Whole }
    requires kind { instr.now.kind ≡ kind_type.Ascii }
    requires kept { HoldsScalar entry.now }
    ensures judged { IsJudged instr.now entry.old entry.new bytes.now at result }
    ensures usual { result ≢ Judged.Elsewhere → ReadsAsUsual level instr.now (drop at bytes.now) }
{
    match instr.operator {
        Operator::Plain | Operator::Default => judge_string_once(
            spare, instr, entry, level, bytes, at,
        ),
        Operator::Copy => judge_string_copy(spare, instr, entry, level, bytes, at),
        Operator::Delta => match entry {
            Entry::Assigned(Scalar::Ascii(text)) => { judge_string_delta(instr, text, bytes, at) }
            _ => Judged::Elsewhere,
        },
        Operator::Tail => match entry {
            Entry::Assigned(Scalar::Ascii(text)) => judge_string_tail(
                spare.alloc(),
                instr,
                text,
                level,
                bytes,
                at,
            ),
            _ => Judged::Elsewhere,
        },
        Operator::Constant | Operator::Increment => Judged::Elsewhere,
    }
}

/// The same at the usual level. (A call of its own, so that the walk over a segment stays short.)
#[inline(never)]
pub(crate) fn judge_string(
    spare: &mut Spare,
    instr: &FieldPart,
    entry: &mut Entry,
    bytes: &[u8],
    at: usize,
) -> Judged
    requires place { at ≤ length bytes.now }
    requires part { instr.now.part ≡ part_type.Whole }
    requires kind { instr.now.kind ≡ kind_type.Ascii }
    requires kept { HoldsScalar entry.now }
    ensures { IsJudged instr.now entry.old entry.new bytes.now at result }
{
    judge_string_at(spare, instr, entry, Level::Usual, bytes, at)
}

/// The same at the strict level.
#[inline(never)]
pub(crate) fn judge_string_strictly(
    spare: &mut Spare,
    instr: &FieldPart,
    entry: &mut Entry,
    bytes: &[u8],
    at: usize,
) -> Judged
    requires place { at ≤ length bytes.now }
    requires part { instr.now.part ≡ part_type.Whole }
    requires kind { instr.now.kind ≡ kind_type.Ascii }
    requires kept { HoldsScalar entry.now }
    ensures judged { IsJudged instr.now entry.old entry.new bytes.now at result }
    ensures usual { result ≢ Judged.Elsewhere → ReadsAsUsual Strict instr.now (drop at bytes.now) }
{
    judge_string_at(spare, instr, entry, Level::Strict, bytes, at)
}
