//! What bit 0 gives of an entry, with so little code that a loop over fields has room for it. What is not served here is
//! `pass_left_out` of `fast_field`.

ghost use Rattle.std.specs.Prelude.{◌≡◌, IfSome, Some, IsTrue, true};
ghost use Rattle.fast_value.specs.Scalar.{is_of};
ghost use Rattle.fast_value.specs.declared.kind.Part.TheVariants as part_type;
ghost use Rattle.fast_value.specs.declared.kind.Operator.TheVariants as operator_type;
ghost use Rattle.fast_dictionary.specs.declared.entry.Entry.TheVariants as entry_type;
ghost use Rattle.fast_field.specs.Fields.{within_part};
ghost use Rattle.fast_field.specs.Numbers.{Predicts, Repeats};
ghost use Rattle.fast_field.specs.Parts.{IsFieldPart};
ghost use Rattle.fast_field.specs.Passed.{IsPassed};

use crate::short_number::ShortInteger;
use fast_dictionary::Entry;
use fast_field::{Passed, fits};
use fast_template::{FieldPart, Kind, Operator, Part, Presence, Scalar};
use fast_value::is_of_kind;

/// Whether a number is one that an exponent can have; of another value it is not told.
#[inline(always)]
fn is_near(value: &Scalar) -> bool
    ensures { result ≡ true → IsTrue (within_part part_type.Exponent value.now) }
{
    match value {
        Scalar::I32(number) => -63 <= *number && *number <= 63,
        _ => false,
    }
}

/// Whether a value is one that a length can have. (A call of its own, since others do not ask it.)
#[inline(never)]
fn fits_length(instr: &FieldPart, value: &Scalar) -> bool
    ensures kind { result ≡ true → is_of instr.now.kind value.now ≡ true }
    ensures within { result ≡ true → IsTrue (within_part instr.now.part value.now) }
{
    fits(instr, value)
}

/// Whether a value that was kept is one that a part can have. Only exponents and lengths have a limit within their type.
#[inline(always)]
fn can_repeat(which: Part, instr: &FieldPart, value: &Scalar) -> bool
    requires { which ≡ instr.now.part }
    ensures kind { result ≡ true → is_of instr.now.kind value.now ≡ true }
    ensures within { result ≡ true → IsTrue (within_part instr.now.part value.now) }
{
    is_of_kind(instr.kind, value)
        && match which {
            Part::Whole | Part::Mantissa => true,
            Part::Exponent => is_near(value),
            Part::Length => fits_length(instr, value),
        }
}

/// Whether the initial value of a part is one that it can have. It is, as was seen when the templates were loaded; only of a
/// length nobody has looked whether it is too great.
#[inline(always)]
pub(crate) fn can_begin(which: Part, instr: &FieldPart, value: &Scalar) -> bool
    requires which { which ≡ instr.now.part }
    requires part { IsFieldPart instr.now }
    requires initial { instr.now.initial ≡ Some value.now }
    ensures kind { result ≡ true → is_of instr.now.kind value.now ≡ true }
    ensures within { result ≡ true → IsTrue (within_part instr.now.part value.now) }
{
    match which {
        Part::Whole | Part::Exponent | Part::Mantissa => true,
        Part::Length => fits_length(instr, value),
    }
}

/// A number once more; of another value nothing.
#[inline(always)]
fn copy_number(value: &Scalar) -> Option<Scalar>
    ensures { IfSome result (λ copy. copy ≡ value.now) }
{
    match value {
        Scalar::I32(number) => Some(Scalar::I32(*number)),
        Scalar::U32(number) => Some(Scalar::U32(*number)),
        Scalar::I64(number) => Some(Scalar::I64(*number)),
        Scalar::U64(number) => Some(Scalar::U64(*number)),
        Scalar::Decimal { exponent, mantissa } => Some(Scalar::Decimal {
            exponent: *exponent,
            mantissa: *mantissa,
        }),
        Scalar::Ascii(_) | Scalar::Unicode(_) | Scalar::Bytes(_) => None,
    }
}

/// The initial value, which the entry then has, or none where the field may be absent. (A call of its own, since it is rare.)
#[inline(never)]
fn pass_undefined(which: Part, instr: &FieldPart, entry: &mut Entry) -> Passed
    requires predicts { Predicts instr.now.operator }
    requires which { which ≡ instr.now.part }
    requires part { IsFieldPart instr.now }
    requires undefined { entry.now ≡ entry_type.Undefined }
    ensures { IsPassed instr.now entry.old entry.new result }
{
    match &instr.initial {
        None => match instr.presence {
            Presence::Optional => {
                *entry = Entry::Empty;
                Passed::Absent
            }
            Presence::Mandatory => Passed::Elsewhere,
        },
        Some(initial) => {
            let value = initial.value();
            match copy_number(value) {
                Some(number) if can_begin(which, instr, value) => {
                    *entry = Entry::Assigned(number);
                    Passed::Present
                }
                Some(_) | None => Passed::Elsewhere,
            }
        }
    }
}

/// No value, where the field may be absent, or the initial value of an undefined entry.
#[inline(always)]
fn pass_empty(which: Part, instr: &FieldPart, entry: &mut Entry) -> Passed
    requires predicts { Predicts instr.now.operator }
    requires which { which ≡ instr.now.part }
    requires part { IsFieldPart instr.now }
    ensures { IsPassed instr.now entry.old entry.new result }
{
    match entry {
        Entry::Empty => match instr.presence {
            Presence::Optional => Passed::Absent,
            Presence::Mandatory => Passed::Elsewhere,
        },
        Entry::Undefined => pass_undefined(which, instr, entry),
        Entry::Assigned(_) => Passed::Elsewhere,
    }
}

/// The value that the entry has.
#[inline(always)]
fn pass_kept(which: Part, instr: &FieldPart, entry: &mut Entry) -> Passed
    requires operator { Repeats instr.now.operator }
    requires which { which ≡ instr.now.part }
    requires part { IsFieldPart instr.now }
    ensures { IsPassed instr.now entry.old entry.new result }
{
    match entry {
        Entry::Assigned(value) => {
            if can_repeat(which, instr, value) {
                Passed::Present
            } else {
                Passed::Elsewhere
            }
        }
        Entry::Undefined | Entry::Empty => pass_empty(which, instr, entry),
    }
}

/// One more than the number that the entry has, where that is not the greatest of its type.
#[inline(always)]
fn pass_next<T: ShortInteger>(which: Part, instr: &FieldPart, entry: &mut Entry) -> Passed
    requires kind { T.kind ≡ instr.now.kind }
    requires operator { instr.now.operator ≡ operator_type.Increment }
    requires which { which ≡ instr.now.part }
    requires part { IsFieldPart instr.now }
    ensures { IsPassed instr.now entry.old entry.new result }
{
    let Some(kept) = T::kept(entry) else {
        return pass_empty(which, instr, entry);
    };
    if kept >= T::greatest() || !T::is_field_number(which, kept + 1) {
        return Passed::Elsewhere;
    }
    T::replace(entry, kept, kept + 1);
    Passed::Present
}

/// The same of an integer, and of another type nothing.
#[inline(always)]
fn pass_increment(which: Part, instr: &FieldPart, entry: &mut Entry) -> Passed
    requires operator { instr.now.operator ≡ operator_type.Increment }
    requires which { which ≡ instr.now.part }
    requires part { IsFieldPart instr.now }
    ensures { IsPassed instr.now entry.old entry.new result }
{
    match instr.kind {
        Kind::UInt32 => pass_next::<u32>(which, instr, entry),
        Kind::Int32 => pass_next::<i32>(which, instr, entry),
        Kind::UInt64 => pass_next::<u64>(which, instr, entry),
        Kind::Int64 => pass_next::<i64>(which, instr, entry),
        Kind::Decimal | Kind::Ascii | Kind::Unicode | Kind::Bytes => Passed::Elsewhere,
    }
}

/// The initial value, or none where there is none.
#[inline(always)]
fn pass_initial(which: Part, instr: &FieldPart, entry: &Entry) -> Passed
    requires operator { instr.now.operator ≡ operator_type.Default }
    requires which { which ≡ instr.now.part }
    requires part { IsFieldPart instr.now }
    ensures { IsPassed instr.now entry.now entry.now result }
{
    match &instr.initial {
        Some(initial) => {
            if can_begin(which, instr, initial.value()) {
                Passed::Present
            } else {
                Passed::Elsewhere
            }
        }
        None => match instr.presence {
            Presence::Optional => Passed::Absent,
            Presence::Mandatory => Passed::Elsewhere,
        },
    }
}

/// No value of a constant.
#[inline(always)]
fn pass_constant(instr: &FieldPart, entry: &Entry) -> Passed
    requires { instr.now.operator ≡ operator_type.Constant }
    ensures { IsPassed instr.now entry.now entry.now result }
{
    match instr.presence {
        Presence::Optional => Passed::Absent,
        Presence::Mandatory => Passed::Elsewhere,
    }
}

/// Takes what bit 0 gives of an entry or of an initial value, and makes the entry the one afterwards, where the caller knows
/// what part it is. No bytes are read, and none is written: bit 0 is the best form. It takes no memory. Elsewhere: nothing
/// has changed, and another way tells.
#[inline(always)]
pub fn pass_quickly(which: Part, instr: &FieldPart, entry: &mut Entry) -> Passed
    requires which { which ≡ instr.now.part }
    requires part { IsFieldPart instr.now }
    ensures { IsPassed instr.now entry.old entry.new result }
{
    match instr.operator {
        Operator::Copy | Operator::Tail => pass_kept(which, instr, entry),
        Operator::Increment => pass_increment(which, instr, entry),
        Operator::Default => pass_initial(which, instr, entry),
        Operator::Constant => pass_constant(instr, entry),
        Operator::Plain | Operator::Delta => Passed::Elsewhere,
    }
}
