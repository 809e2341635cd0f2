//! What bit 0 gives of an entry, without a value in between. What is not served here goes the general way of `find_field`.

ghost use Rattle.std.specs.Prelude.{◌≡◌, true, IfNone, IfSome, IsTrue};
ghost use Rattle.fast_value.specs.Scalar.{is_integer, is_of};
ghost use Rattle.fast_value.specs.declared.kind.Operator.TheVariants as operator_type;
ghost use Rattle.fast_field.specs.Fields.{within_part};
ghost use Rattle.fast_field.specs.Found.{value_found};
ghost use Rattle.fast_field.specs.Numbers.{Predicts, Repeats};
ghost use Rattle.fast_field.specs.Passed.{IsPassed, Passes};

use crate::base::integer;
use crate::found::Found;
use crate::integers::{is_within, kept_number, number_after, set_number};
use fast_dictionary::Entry;
use fast_template::{FieldPart, Kind, Operator, Presence, Scalar};
use fast_value::is_of_kind;

/// What bit 0 gave a field.
#[derive(Clone, Copy, Debug, PartialEq, Eq, Drop)]
pub enum Passed {
    /// No value: the field is absent.
    Absent,
    /// A value.
    Present,
    /// Nothing was done: the general way tells.
    Elsewhere,
}

/// Whether a value is of a field's type and within the limit of its part: of an exponent -63 to 63, of a length 65,535.
#[inline(always)]
pub fn fits(instr: &FieldPart, value: &Scalar) -> bool
    ensures kind { result ≡ true → is_of instr.now.kind value.now ≡ true }
    ensures within { result ≡ true → IsTrue (within_part instr.now.part value.now) }
{
    is_of_kind(instr.kind, value) && is_within(instr.part, integer(value))
}

/// What an entry gives that has no value.
#[tactic(auto, using(crate::proofs::Passing::empty_passes))]
#[inline(always)]
fn pass_empty(instr: &FieldPart, entry: &Entry) -> Passed
    requires { Predicts instr.now.operator }
    ensures { IsPassed instr.now entry.now entry.now result }
{
    match entry {
        Entry::Empty => match instr.presence {
            Presence::Optional => Passed::Absent,
            Presence::Mandatory => Passed::Elsewhere,
        },
        Entry::Undefined | Entry::Assigned(_) => Passed::Elsewhere,
    }
}

/// The value that the entry has.
#[tactic(auto, using(crate::proofs::Passing::kept_passes))]
#[inline(always)]
fn pass_kept(instr: &FieldPart, entry: &Entry) -> Passed
    requires operator { Repeats instr.now.operator }
    ensures { IsPassed instr.now entry.now entry.now result }
{
    match entry {
        Entry::Assigned(value) => {
            if fits(instr, value) {
                Passed::Present
            } else {
                Passed::Elsewhere
            }
        }
        Entry::Undefined | Entry::Empty => pass_empty(instr, entry),
    }
}

/// One more than the number that the entry has.
#[inline(always)]
fn pass_next(kind: Kind, instr: &FieldPart, entry: &mut Entry) -> Passed
    requires kind { kind ≡ instr.now.kind }
    requires integer { IsTrue (is_integer kind) }
    requires operator { instr.now.operator ≡ operator_type.Increment }
    ensures { IsPassed instr.now entry.old entry.new result }
{
    let Some(kept) = kept_number(kind, entry) else {
        return pass_empty(instr, entry);
    };
    let number = number_after(kind, kept);
    if !is_within(instr.part, number) {
        return Passed::Elsewhere;
    }
    set_number(kind, entry, number);
    Passed::Present
}

/// The same by the type, which is known behind this call.
#[inline(always)]
fn pass_increment(instr: &FieldPart, entry: &mut Entry) -> Passed
    requires operator { instr.now.operator ≡ operator_type.Increment }
    ensures { IsPassed instr.now entry.old entry.new result }
{
    match instr.kind {
        Kind::UInt32 => pass_next(Kind::UInt32, instr, entry),
        Kind::Int32 => pass_next(Kind::Int32, instr, entry),
        Kind::UInt64 => pass_next(Kind::UInt64, instr, entry),
        Kind::Int64 => pass_next(Kind::Int64, instr, entry),
        Kind::Decimal | Kind::Ascii | Kind::Unicode | Kind::Bytes => Passed::Elsewhere,
    }
}

/// The initial value, or none where there is none.
#[inline(always)]
fn pass_initial(instr: &FieldPart, entry: &Entry) -> Passed
    requires operator { instr.now.operator ≡ operator_type.Default }
    ensures { IsPassed instr.now entry.now entry.now result }
{
    match &instr.initial {
        Some(initial) => {
            if fits(instr, initial.value()) {
                Passed::Present
            } else {
                Passed::Elsewhere
            }
        }
        None => match instr.presence {
            Presence::Optional => Passed::Absent,
            Presence::Mandatory => Passed::Elsewhere,
        },
    }
}

/// No value of a constant.
#[inline(always)]
fn pass_constant(instr: &FieldPart, entry: &Entry) -> Passed
    requires { instr.now.operator ≡ operator_type.Constant }
    ensures { IsPassed instr.now entry.now entry.now result }
{
    match instr.presence {
        Presence::Optional => Passed::Absent,
        Presence::Mandatory => Passed::Elsewhere,
    }
}

/// Takes what bit 0 gives of an entry or of an initial value, and makes the entry the one afterwards. No bytes are
/// read, and none is written: bit 0 is the best form. It takes no memory.
#[inline(always)]
pub fn pass_left_out(instr: &FieldPart, entry: &mut Entry) -> Passed
    ensures { IsPassed instr.now entry.old entry.new result }
{
    match instr.operator {
        Operator::Copy | Operator::Tail => pass_kept(instr, entry),
        Operator::Increment => pass_increment(instr, entry),
        Operator::Default => pass_initial(instr, entry),
        Operator::Constant => pass_constant(instr, entry),
        Operator::Plain | Operator::Delta => Passed::Elsewhere,
    }
}

/// As `pass_left_out`, and answers where the value lies then: for those that tell or keep a value where it lies. None:
/// nothing was done, and the general way tells.
#[tactic(auto, using(crate::proofs::Passing::initial_found, crate::proofs::Passing::kept_found))]
#[inline(always)]
pub fn pass_found(instr: &FieldPart, entry: &mut Entry) -> Option<Found>
    ensures some { IfSome result (λ found. Passes instr.now entry.old entry.new
        (value_found instr.now entry.new found)) }
    ensures none { IfNone result (entry.new ≡ entry.old) }
{
    match pass_left_out(instr, entry) {
        Passed::Absent => Some(Found::Absent),
        Passed::Present => match instr.operator {
            Operator::Default => Some(Found::Initial),
            _ => Some(Found::Kept),
        },
        Passed::Elsewhere => None,
    }
}
