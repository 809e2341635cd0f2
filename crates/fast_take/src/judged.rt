//! Fields that are judged as they stand: whether their bytes are the best form of the value, or bit 0 is. The entry goes on,
//! and nothing is written. Here are integers and constants, and the way to the others; what is not judged here goes by
//! `judge_other`, or the general way.

ghost use Rattle.std.specs.Prelude.{◌≡◌, ◌≢◌, ◌≤◌, ◌+◌, Some, true, false, not, length, drop, slice_range, IfSome, IsTrue, ⊤};
ghost use Rattle.fast_value.specs.Scalar.{is_integer, of_integer};
ghost use Rattle.fast_value.specs.declared.kind.Operator.TheVariants as operator_type;
ghost use Rattle.fast_value.specs.declared.kind.Part.TheVariants as part_type;
ghost use Rattle.fast_wire.specs.Entity.{IsEntity};
ghost use Rattle.fast_wire.specs.declared.level.Level.TheVariants.{Strict};
ghost use Rattle.fast_field.specs.AsUsual.{ReadsAsUsual};
ghost use Rattle.fast_field.specs.Numbers.{IsFieldNumber, IsNumber, Predicts};
ghost use Rattle.fast_field.specs.Parts.{IsFieldPart};
ghost use Rattle.fast_field.specs.Planning.{is_same};
ghost use Rattle.fast_field.specs.Spelled.{overlong_number};
ghost use Rattle.fast_field.specs.Values as values;
ghost use Rattle.fast_field.specs.Within.{HoldsScalar};
ghost use Rattle.fast_take.specs.Judged.{Adds, HasAnswer, IfFound, IsBehind, IsJudged, Leaves, LeavesWhole, NumberGives, StandsAt, StandsFrom, sent_unsigned};
ghost use Rattle.fast_take.specs.Numbers.{SpellsWhole, Spelt};

use crate::integers::{is_overlong, is_unsigned, read_signed, read_unsigned};
use crate::judged_decimal::judge_decimal;
use crate::judged_string::{judge_string, judge_string_strictly};
use crate::judged_vector::{judge_vector, judge_vector_strictly};
use crate::passed::can_begin;
use crate::short_number::ShortInteger;
use fast_dictionary::{Entry, Spare};
use fast_field::set_number;
use fast_template::{FieldPart, Kind, Operator, Part, Presence};
use fast_wire::{Level, overlong_signed, overlong_unsigned};

/// What the best form is of a field that was read under bit 1, and the place behind what was read.
#[derive(Clone, Copy, Debug, PartialEq, Eq, Drop)]
pub enum Judged {
    /// The bytes as they stand.
    Stands(usize),
    /// The bytes behind the first, which is needless.
    Behind(usize),
    /// The bytes behind the first two, which are needless.
    BehindTwo(usize),
    /// Bit 0, which gives the value with no byte.
    Given(usize),
    /// Nothing has changed: another way tells.
    Elsewhere,
}

/// Whether the entity that stands from one place to the next has no needless group in front.
#[inline(always)]
fn is_shortest(unsigned: bool, bytes: &[u8], at: usize, next: usize) -> bool
    requires place { at ≤ next }
    requires within { next ≤ length bytes.now }
    requires entity { IsEntity (slice_range bytes.now at next) }
    ensures short { result ≡ true → overlong_number unsigned (slice_range bytes.now at next) ≡ false }
    ensures long { result ≡ false → overlong_number unsigned (slice_range bytes.now at next) ≡ true }
{
    let form = &bytes[at..next];
    // a needless group has nothing but the sign, and no stop bit
    if form[0] != 0 && (unsigned || form[0] != 127) {
        return true;
    }
    if unsigned {
        !overlong_unsigned(form)
    } else {
        !overlong_signed(form)
    }
}

/// A number that has 64 bits with a sign, and the place behind it; none where it has more, is NULL or faulty.
#[inline(always)]
pub(crate) fn read_number(
    unsigned: bool,
    presence: Presence,
    bytes: &[u8],
    at: usize,
) -> Option<(i64, usize)>
    requires { at ≤ length bytes.now }
    ensures place { IfSome result (λ x. (at ≤ x.1) × (x.1 ≤ length bytes.now)) }
    ensures gives { IfSome result (λ x. Spelt unsigned presence (drop at bytes.now)
        x.0 (drop x.1 bytes.now)) }
{
    if !unsigned {
        return read_signed(presence, bytes, at);
    }
    let (number, next) = read_unsigned(presence, bytes, at)?;
    match i64::try_from(number) {
        Ok(number) => Some((number, next)),
        Err(_) => None,
    }
}

/// Whether a number that was read is spelled in its shortest form.
#[inline(always)]
fn stands_shortest(
    unsigned: bool,
    presence: Presence,
    number: i64,
    bytes: &[u8],
    at: usize,
    next: usize,
) -> bool
    requires place { at ≤ next }
    requires within { next ≤ length bytes.now }
    requires spelt { Spelt unsigned presence (drop at bytes.now) number (drop next bytes.now) }
    ensures stands { result ≡ true → StandsAt unsigned presence bytes.now at next number }
    ensures long { result ≡ false → overlong_number unsigned (slice_range bytes.now at next) ≡ true }
{
    is_shortest(unsigned, bytes, at, next)
}

/// A number that is spelled in its shortest form, and the place behind it.
#[inline(always)]
pub(crate) fn read_shortest(
    unsigned: bool,
    presence: Presence,
    bytes: &[u8],
    at: usize,
) -> Option<(i64, usize)>
    requires { at ≤ length bytes.now }
    ensures place { IfSome result (λ x. (at ≤ x.1) × (x.1 ≤ length bytes.now)) }
    ensures stands { IfSome result (λ x. StandsAt unsigned presence bytes.now at x.1 x.0) }
{
    let (number, next) = read_number(unsigned, presence, bytes, at)?;
    if stands_shortest(unsigned, presence, number, bytes, at, next) {
        Some((number, next))
    } else {
        None
    }
}

/// Judges a number where bit 0 gives the initial value.
#[inline(always)]
fn judge_initial<T: ShortInteger>(instr: &FieldPart, number: i64, next: usize) -> Judged
    requires { IsNumber T.kind number }
    ensures { IfFound next result (λ bit. is_same instr.now.initial (Some (of_integer T.kind number)) ≡ not bit) ⊤ }
{
    match &instr.initial {
        None => Judged::Stands(next),
        Some(initial) => match T::of(initial.value()) {
            Some(given) if given == number => Judged::Given(next),
            Some(_) => Judged::Stands(next),
            None => Judged::Elsewhere,
        },
    }
}

/// Judges a number where the entry has none; it then has this one. (A call of its own, since it is rare.)
#[inline(never)]
fn judge_first<T: ShortInteger>(
    instr: &FieldPart,
    entry: &mut Entry,
    number: i64,
    next: usize,
) -> Judged
    requires kind { T.kind ≡ instr.now.kind }
    requires predicts { Predicts instr.now.operator }
    requires whole { SpellsWhole instr.now.operator }
    requires number { IsNumber T.kind number }
    ensures { IfFound next result (λ bit. Leaves bit instr.now entry.old entry.new (Some (of_integer T.kind number)))
        (entry.new ≡ entry.old) }
{
    match entry {
        Entry::Empty => {
            set_number(instr.kind, entry, i128::from(number));
            Judged::Stands(next)
        }
        // bit 0 gives the initial value, also by increment
        Entry::Undefined => match judge_initial::<T>(instr, number, next) {
            Judged::Stands(_next) => {
                set_number(instr.kind, entry, i128::from(number));
                Judged::Stands(next)
            }
            Judged::Given(_next) => {
                set_number(instr.kind, entry, i128::from(number));
                Judged::Given(next)
            }
            Judged::Behind(_) | Judged::BehindTwo(_) => unreachable!(),
            Judged::Elsewhere => Judged::Elsewhere,
        },
        Entry::Assigned(_) => Judged::Elsewhere,
    }
}

/// Judges a number by the one that the entry has; it then has this one.
#[inline(always)]
fn judge_copy<T: ShortInteger>(
    instr: &FieldPart,
    entry: &mut Entry,
    number: i64,
    next: usize,
) -> Judged
    requires kind { T.kind ≡ instr.now.kind }
    requires operator { instr.now.operator ≡ operator_type.Copy }
    requires number { IsNumber T.kind number }
    ensures { IfFound next result (λ bit. Leaves bit instr.now entry.old entry.new (Some (of_integer T.kind number)))
        (entry.new ≡ entry.old) }
{
    let Some(kept) = T::kept(entry) else {
        return judge_first::<T>(instr, entry, number, next);
    };
    if kept == number {
        return Judged::Given(next);
    }
    T::replace(entry, kept, number);
    Judged::Stands(next)
}

/// Judges a number by the one that follows the entry's; it then has this one.
#[inline(always)]
fn judge_increment<T: ShortInteger>(
    instr: &FieldPart,
    entry: &mut Entry,
    number: i64,
    next: usize,
) -> Judged
    requires kind { T.kind ≡ instr.now.kind }
    requires operator { instr.now.operator ≡ operator_type.Increment }
    requires number { IsNumber T.kind number }
    ensures { IfFound next result (λ bit. Leaves bit instr.now entry.old entry.new (Some (of_integer T.kind number)))
        (entry.new ≡ entry.old) }
{
    let Some(kept) = T::kept(entry) else {
        return judge_first::<T>(instr, entry, number, next);
    };
    // the least number follows the greatest
    if kept >= T::greatest() {
        return Judged::Elsewhere;
    }
    T::replace(entry, kept, number);
    if kept + 1 == number {
        Judged::Given(next)
    } else {
        Judged::Stands(next)
    }
}

/// Judges a number that was spelled whole; the entry goes on.
#[inline(always)]
fn judge_read<T: ShortInteger>(
    instr: &FieldPart,
    entry: &mut Entry,
    number: i64,
    next: usize,
) -> Judged
    requires kind { T.kind ≡ instr.now.kind }
    requires number { IsNumber T.kind number }
    ensures { IfFound next result (λ bit. SpellsWhole instr.now.operator
        × Leaves bit instr.now entry.old entry.new (Some (of_integer T.kind number))) (entry.new ≡ entry.old) }
{
    match instr.operator {
        Operator::Plain => Judged::Stands(next),
        Operator::Default => judge_initial::<T>(instr, number, next),
        Operator::Copy => judge_copy::<T>(instr, entry, number, next),
        Operator::Increment => judge_increment::<T>(instr, entry, number, next),
        Operator::Constant | Operator::Delta | Operator::Tail => Judged::Elsewhere,
    }
}

/// The same, of a number that may be out of its field's range.
#[inline(always)]
fn judge_as<T: ShortInteger>(
    which: Part,
    instr: &FieldPart,
    entry: &mut Entry,
    number: i64,
    next: usize,
) -> Judged
    requires kind { T.kind ≡ instr.now.kind }
    ensures { IfFound next result (λ bit. LeavesWhole bit T.kind which instr.now entry.old entry.new number)
        (entry.new ≡ entry.old) }
{
    if T::is_field_number(which, number) {
        judge_read::<T>(instr, entry, number, next)
    } else {
        Judged::Elsewhere
    }
}

/// The same by the field's type. One way for each, so that nothing is asked of the type behind here.
#[inline(always)]
fn judge_whole(
    kind: Kind,
    which: Part,
    instr: &FieldPart,
    entry: &mut Entry,
    number: i64,
    next: usize,
) -> Judged
    requires kind { kind ≡ instr.now.kind }
    ensures { IfFound next result (λ bit. LeavesWhole bit kind which instr.now entry.old entry.new number)
        (entry.new ≡ entry.old) }
{
    match kind {
        Kind::UInt32 => judge_as::<u32>(which, instr, entry, number, next),
        Kind::Int32 => judge_as::<i32>(which, instr, entry, number, next),
        Kind::UInt64 => judge_as::<u64>(which, instr, entry, number, next),
        Kind::Int64 => judge_as::<i64>(which, instr, entry, number, next),
        Kind::Decimal | Kind::Ascii | Kind::Unicode | Kind::Bytes => Judged::Elsewhere,
    }
}

/// Adds to the number that an entry has, where the sum is one that the field can have; else nothing has changed.
#[inline(always)]
fn add_as<T: ShortInteger>(which: Part, entry: &mut Entry, delta: i64) -> bool
    ensures added { result ≡ true → Adds T.kind which delta entry.old entry.new }
    ensures entry { result ≡ false → entry.new ≡ entry.old }
{
    let Some(kept) = T::kept(entry) else {
        return false;
    };
    let Some(number) = T::sum(kept, delta) else {
        return false;
    };
    if !T::is_field_number(which, number) {
        return false;
    }
    T::replace(entry, kept, number);
    true
}

/// The same by the field's type.
#[inline(always)]
fn add(kind: Kind, which: Part, entry: &mut Entry, delta: i64) -> bool
    ensures added { result ≡ true → Adds kind which delta entry.old entry.new }
    ensures entry { result ≡ false → entry.new ≡ entry.old }
{
    match kind {
        Kind::UInt32 => add_as::<u32>(which, entry, delta),
        Kind::Int32 => add_as::<i32>(which, entry, delta),
        Kind::UInt64 => add_as::<u64>(which, entry, delta),
        Kind::Int64 => add_as::<i64>(which, entry, delta),
        Kind::Decimal | Kind::Ascii | Kind::Unicode | Kind::Bytes => false,
    }
}

/// Whether what is sent of an integer has no sign: a difference has one.
#[inline(always)]
pub(crate) fn is_sent_unsigned(kind: Kind, operator: Operator) -> bool
    ensures { result ≡ sent_unsigned operator kind }
{
    match operator {
        Operator::Delta => false,
        _ => is_unsigned(kind),
    }
}

/// Judges a constant, which has no bytes, under bit 1.
#[inline(always)]
pub(crate) fn judge_constant(
    which: Part,
    instr: &FieldPart,
    entry: &Entry,
    bytes: &[u8],
    at: usize,
) -> Judged
    requires place { at ≤ length bytes.now }
    requires which { which ≡ instr.now.part }
    requires part { IsFieldPart instr.now }
    requires operator { instr.now.operator ≡ operator_type.Constant }
    ensures { IsJudged instr.now entry.now entry.now bytes.now at result }
{
    match &instr.initial {
        Some(initial) if can_begin(which, instr, initial.value()) => Judged::Stands(at),
        Some(_) => Judged::Elsewhere,
        // a constant has a value, as was seen when the templates were loaded
        None => unreachable!(),
    }
}

/// Judges a number that was read: it was spelled whole, or is added to the one that the entry has.
#[inline(always)]
pub(crate) fn judge_number(
    kind: Kind,
    which: Part,
    instr: &FieldPart,
    entry: &mut Entry,
    number: i64,
    next: usize,
) -> Judged
    requires part { which ≡ instr.now.part }
    requires kind { kind ≡ instr.now.kind }
    ensures { IfFound next result (λ bit. NumberGives bit kind instr.now entry.old entry.new number)
        (entry.new ≡ entry.old) }
{
    match instr.operator {
        Operator::Delta => {
            if add(kind, which, entry, number) {
                Judged::Stands(next)
            } else {
                Judged::Elsewhere
            }
        }
        _ => judge_whole(kind, which, instr, entry, number, next),
    }
}

/// The place behind the needless group that a number has in front, or behind two, and whether its shortest form stands there.
#[inline(always)]
fn find_behind(
    unsigned: bool,
    presence: Presence,
    number: i64,
    bytes: &[u8],
    at: usize,
    next: usize,
) -> (usize, bool)
    requires place { at ≤ next }
    requires within { next ≤ length bytes.now }
    requires spelt { Spelt unsigned presence (drop at bytes.now) number (drop next bytes.now) }
    requires long { overlong_number unsigned (slice_range bytes.now at next) ≡ true }
    ensures place { (at + 1 ≤ result.0) × (result.0 ≤ at + 2) × (result.0 ≤ next) }
    ensures stands { result.1 ≡ true
        → StandsFrom unsigned presence bytes.now at result.0 next number }
{
    let first = if is_overlong(unsigned, bytes, at + 1, next) {
        at + 2
    } else {
        at + 1
    };
    (first, !is_overlong(unsigned, bytes, first, next))
}

/// A number whose shortest form stands behind one needless group or two, the place where that begins, and the one behind it.
#[inline(always)]
pub(crate) fn read_behind(
    unsigned: bool,
    presence: Presence,
    bytes: &[u8],
    at: usize,
) -> Option<(i64, usize, usize)>
    requires { at ≤ length bytes.now }
    ensures first { IfSome result (λ x. (at + 1 ≤ x.1) × (x.1 ≤ at + 2)) }
    ensures place { IfSome result (λ x. (x.1 ≤ x.2) × (x.2 ≤ length bytes.now)) }
    ensures stands { IfSome result (λ x. StandsFrom unsigned presence bytes.now at x.1 x.2 x.0) }
{
    // a group that is needless has nothing but the sign
    if at == bytes.len() || (bytes[at] != 0 && bytes[at] != 127) {
        return None;
    }
    let (number, next) = read_number(unsigned, presence, bytes, at)?;
    if stands_shortest(unsigned, presence, number, bytes, at, next) {
        return None;
    }
    let (first, stands) = find_behind(unsigned, presence, number, bytes, at, next);
    if stands {
        Some((number, first, next))
    } else {
        None
    }
}

/// The best form of a field stands behind one needless byte or two: it begins at `first`.
#[inline(always)]
fn behind(at: usize, first: usize, next: usize) -> Judged
    requires first { (at + 1 ≤ first) × (first ≤ at + 2) }
    ensures { IsBehind at first next result }
{
    if first == at + 1 {
        Judged::Behind(next)
    } else {
        Judged::BehindTwo(next)
    }
}

/// Whether a level refuses what stands in front of the best form: the strict one refuses any needless group.
#[inline(always)]
pub(crate) fn is_refused(level: Level, at: usize, first: usize) -> bool
    ensures { result ≡ false → level ≡ Strict → first ≡ at }
{
    level == Level::Strict && first != at
}

/// What is answered of a field by the bit of its best form: with bit 1 that begins at `first`.
#[inline(always)]
pub(crate) fn answer(bit: Option<bool>, at: usize, first: usize, next: usize) -> Judged
    requires first { (at ≤ first) × (first ≤ at + 2) }
    ensures { HasAnswer at first next bit result }
{
    match bit {
        Some(true) => {
            if first == at {
                Judged::Stands(next)
            } else {
                behind(at, first, next)
            }
        }
        Some(false) => Judged::Given(next),
        None => Judged::Elsewhere,
    }
}

/// Judges an integer that does not stand in its shortest form: it may behind the first byte or two. (A call of its own, so that
/// others do not pay for it.)
#[inline(never)]
fn judge_behind(
    unsigned: bool,
    which: Part,
    kind: Kind,
    instr: &FieldPart,
    entry: &mut Entry,
    number: i64,
    bytes: &[u8],
    at: usize,
    next: usize,
) -> Judged
    requires place { at ≤ next }
    requires within { next ≤ length bytes.now }
    requires part { which ≡ instr.now.part }
    requires kind { kind ≡ instr.now.kind }
    requires sign { unsigned ≡ sent_unsigned instr.now.operator kind }
    requires spelt { Spelt unsigned instr.now.presence (drop at bytes.now) number (drop next bytes.now) }
    requires long { overlong_number unsigned (slice_range bytes.now at next) ≡ true }
    ensures { IsJudged instr.now entry.old entry.new bytes.now at result }
{
    let (first, stands) = find_behind(unsigned, instr.presence, number, bytes, at, next);
    if !stands {
        return Judged::Elsewhere;
    }
    match judge_number(kind, which, instr, entry, number, next) {
        Judged::Stands(_next) => behind(at, first, next),
        Judged::Given(_next) => Judged::Given(next),
        Judged::Behind(_) | Judged::BehindTwo(_) => unreachable!(),
        Judged::Elsewhere => Judged::Elsewhere,
    }
}

/// The type of a part. All but a whole field's are known with the part, so that nothing is asked of them behind here.
#[inline(always)]
fn kind_of(which: Part, instr: &FieldPart) -> Kind
    requires which { which ≡ instr.now.part }
    requires part { IsFieldPart instr.now }
    ensures { result ≡ instr.now.kind }
{
    match which {
        Part::Whole => instr.kind,
        Part::Exponent => Kind::Int32,
        Part::Mantissa => Kind::Int64,
        Part::Length => Kind::UInt32,
    }
}

/// Judges an integer that was read under bit 1, from one place to another, and makes the entry the one afterwards. Elsewhere:
/// nothing has changed, and another way tells; so it is at the strict level where a group is needless.
#[inline(always)]
pub(crate) fn judge_spelt(
    unsigned: bool,
    which: Part,
    kind: Kind,
    instr: &FieldPart,
    entry: &mut Entry,
    number: i64,
    level: Level,
    bytes: &[u8],
    at: usize,
    next: usize,
) -> Judged
    requires place { at ≤ next }
    requires within { next ≤ length bytes.now }
    requires part { which ≡ instr.now.part }
    requires kind { kind ≡ instr.now.kind }
    requires sign { unsigned ≡ sent_unsigned instr.now.operator kind }
    requires spelt { Spelt unsigned instr.now.presence (drop at bytes.now) number (drop next bytes.now) }
    ensures judged { IsJudged instr.now entry.old entry.new bytes.now at result }
    ensures short { result ≢ Judged.Elsewhere → level ≡ Strict
        → overlong_number unsigned (slice_range bytes.now at next) ≡ false }
{
    if stands_shortest(unsigned, instr.presence, number, bytes, at, next) {
        return judge_number(kind, which, instr, entry, number, next);
    }
    match level {
        Level::Usual => judge_behind(unsigned, which, kind, instr, entry, number, bytes, at, next),
        Level::Strict => Judged::Elsewhere,
    }
}

/// Judges an integer.
#[inline(always)]
fn judge_integer(
    which: Part,
    kind: Kind,
    instr: &FieldPart,
    entry: &mut Entry,
    level: Level,
    bytes: &[u8],
    at: usize,
) -> Judged
    requires place { at ≤ length bytes.now }
    requires which { which ≡ instr.now.part }
    requires kind { kind ≡ instr.now.kind }
    requires integer { IsTrue (is_integer kind) }
    requires part { IsFieldPart instr.now }
    ensures judged { IsJudged instr.now entry.old entry.new bytes.now at result }
    ensures usual { result ≢ Judged.Elsewhere → ReadsAsUsual level instr.now (drop at bytes.now) }
{
    // read once for all operators, so that the whole is small enough to be inlined
    let unsigned = is_sent_unsigned(kind, instr.operator);
    let Some((number, next)) = read_number(unsigned, instr.presence, bytes, at) else {
        return Judged::Elsewhere;
    };
    judge_spelt(
        unsigned, which, kind, instr, entry, number, level, bytes, at, next,
    )
}

/// Judges a string, a vector or a decimal, which is no part of another field.
#[inline(always)]
pub(crate) fn judge_long(
    which: Part,
    spare: &mut Spare,
    instr: &FieldPart,
    entry: &mut Entry,
    level: Level,
    bytes: &[u8],
    at: usize,
) -> Judged
    requires place { at ≤ length bytes.now }
    requires which { which ≡ instr.now.part }
    requires part { IsFieldPart instr.now }
    requires kept { HoldsScalar entry.now }
    ensures judged { IsJudged instr.now entry.old entry.new bytes.now at result }
    ensures usual { result ≢ Judged.Elsewhere → ReadsAsUsual level instr.now (drop at bytes.now) }
{
    match which {
        Part::Whole => match instr.kind {
            Kind::Ascii => match level {
                Level::Usual => judge_string(spare, instr, entry, bytes, at),
                Level::Strict => judge_string_strictly(spare, instr, entry, bytes, at),
            },
            Kind::Unicode | Kind::Bytes => match level {
                Level::Usual => judge_vector(spare, instr, entry, bytes, at),
                Level::Strict => judge_vector_strictly(spare, instr, entry, bytes, at),
            },
            Kind::Decimal => judge_decimal(instr, entry, level, bytes, at),
            Kind::UInt32 | Kind::Int32 | Kind::UInt64 | Kind::Int64 => Judged::Elsewhere,
        },
        Part::Exponent | Part::Mantissa | Part::Length => Judged::Elsewhere,
    }
}

/// Judges what is read under bit 1, where the caller knows what part it is, and makes the entry the one afterwards.
/// Elsewhere: nothing has changed, and another way tells.
#[inline(always)]
pub(crate) fn judge_field(
    which: Part,
    spare: &mut Spare,
    instr: &FieldPart,
    entry: &mut Entry,
    level: Level,
    bytes: &[u8],
    at: usize,
) -> Judged
    requires place { at ≤ length bytes.now }
    requires which { which ≡ instr.now.part }
    requires part { IsFieldPart instr.now }
    requires kept { HoldsScalar entry.now }
    ensures judged { IsJudged instr.now entry.old entry.new bytes.now at result }
    ensures usual { result ≢ Judged.Elsewhere → ReadsAsUsual level instr.now (drop at bytes.now) }
{
    if instr.operator == Operator::Constant {
        return judge_constant(which, instr, entry, bytes, at);
    }
    match kind_of(which, instr) {
        kind @ (Kind::UInt32 | Kind::Int32 | Kind::UInt64 | Kind::Int64) => {
            judge_integer(which, kind, instr, entry, level, bytes, at)
        }
        Kind::Decimal | Kind::Ascii | Kind::Unicode | Kind::Bytes => {
            judge_long(which, spare, instr, entry, level, bytes, at)
        }
    }
}
