//! Integers by their numbers: the ranges of their types, and how they are kept, with no value in between. All is inline,
//! since the type is mostly known where it is called.

ghost use Rattle.std.specs.Prelude.{◌≡◌, ◌^◌, ◌<ℤ◌, pos, negsuc, true, false, IfNone, IfSome, IsTrue};
ghost use Rattle.fast_value.specs.Scalar.{greatest_of, in_range, is_integer, is_of, least_of, of_integer};
ghost use Rattle.fast_value.specs.declared.scalar.Scalar.TheVariants as scalar;
ghost use Rattle.fast_dictionary.specs.declared.entry.Entry.TheVariants as entry_type;
ghost use Rattle.fast_field.specs.Numbers.{HasNumber, IsFieldNumber, IsNumber, IsNumberOf, next_number, number_within};

use crate::read::LENGTH_LIMIT;
use fast_dictionary::Entry;
use fast_template::{Kind, Part, Scalar};

// ---- Ranges

/// The least number of an integer type.
#[inline(always)]
fn least(kind: Kind) -> i128
    ensures { result ≡ least_of kind }
{
    match kind {
        Kind::Int32 => i128::from(i32::MIN),
        Kind::Int64 => i128::from(i64::MIN),
        _ => 0,
    }
}

/// The greatest number of an integer type.
#[inline(always)]
fn greatest(kind: Kind) -> i128
    ensures value { result ≡ greatest_of kind }
    ensures small { result <ℤ pos (2 ^ 64) }
{
    match kind {
        Kind::UInt32 => i128::from(u32::MAX),
        Kind::Int32 => i128::from(i32::MAX),
        Kind::UInt64 => i128::from(u64::MAX),
        Kind::Int64 => i128::from(i64::MAX),
        _ => 0,
    }
}

/// Whether a number is in the range of its type.
#[inline(always)]
fn is_in_range(kind: Kind, number: i128) -> bool
    ensures { result ≡ in_range kind number }
{
    least(kind) <= number && number <= greatest(kind)
}

/// Whether a number is within the limit of a part.
#[inline(always)]
pub(crate) fn is_within(part: Part, number: i128) -> bool
    ensures { result ≡ number_within part number }
{
    match part {
        Part::Whole | Part::Mantissa => true,
        Part::Exponent => -63 <= number && number <= 63,
        Part::Length => number <= LENGTH_LIMIT,
    }
}

/// Whether a field can have a number: in the range of its integer type and within the limit of its part.
#[inline(always)]
pub fn is_field_number(kind: Kind, part: Part, number: i128) -> bool
    requires { IsTrue (is_integer kind) }
    ensures { result ≡ true → IsFieldNumber kind part number }
{
    is_in_range(kind, number) && is_within(part, number)
}

/// One more, and after the greatest number of the type its least: FAST 1.1, Field Operators, Increment Operator.
#[inline(always)]
pub(crate) fn number_after(kind: Kind, number: i128) -> i128
    requires { IsNumber kind number }
    ensures value { result ≡ next_number kind number }
    ensures number { IsNumber kind result }
{
    if number < greatest(kind) {
        number + 1
    } else {
        least(kind)
    }
}

// ---- Kept

/// The number of a value of an integer type; none where the value is of another type.
#[inline(always)]
fn number_of(kind: Kind, value: &Scalar) -> Option<i128>
    requires { IsTrue (is_integer kind) }
    ensures some { IfSome result (IsNumberOf kind value.now) }
    ensures none { IfNone result (is_of kind value.now ≡ false) }
    ensures above { IfSome result (λ number. negsuc (2 ^ 64) <ℤ number) }
    ensures below { IfSome result (λ number. number <ℤ pos (2 ^ 64)) }
{
    match kind {
        Kind::UInt32 => match value {
            Scalar::U32(number) => Some(i128::from(*number)),
            _ => None,
        },
        Kind::Int32 => match value {
            Scalar::I32(number) => Some(i128::from(*number)),
            _ => None,
        },
        Kind::UInt64 => match value {
            Scalar::U64(number) => Some(i128::from(*number)),
            _ => None,
        },
        Kind::Int64 => match value {
            Scalar::I64(number) => Some(i128::from(*number)),
            _ => None,
        },
        Kind::Decimal | Kind::Ascii | Kind::Unicode | Kind::Bytes => unreachable!(),
    }
}

/// The number of an entry that has one of this integer type.
#[inline(always)]
pub fn kept_number(kind: Kind, entry: &Entry) -> Option<i128>
    requires { IsTrue (is_integer kind) }
    ensures number { IfSome result (HasNumber kind entry.now) }
    ensures above { IfSome result (λ number. negsuc (2 ^ 64) <ℤ number) }
    ensures below { IfSome result (λ number. number <ℤ pos (2 ^ 64)) }
{
    match entry {
        Entry::Assigned(value) => number_of(kind, value),
        Entry::Undefined | Entry::Empty => None,
    }
}

#[inline(always)]
fn set_u32(entry: &mut Entry, number: u32)
    ensures { entry.new ≡ entry_type.Assigned (scalar.U32 number) }
{
    match entry {
        Entry::Assigned(Scalar::U32(kept)) => *kept = number,
        _ => *entry = Entry::Assigned(Scalar::U32(number)),
    }
}

#[inline(always)]
fn set_i32(entry: &mut Entry, number: i32)
    ensures { entry.new ≡ entry_type.Assigned (scalar.I32 number) }
{
    match entry {
        Entry::Assigned(Scalar::I32(kept)) => *kept = number,
        _ => *entry = Entry::Assigned(Scalar::I32(number)),
    }
}

#[inline(always)]
fn set_u64(entry: &mut Entry, number: u64)
    ensures { entry.new ≡ entry_type.Assigned (scalar.U64 number) }
{
    match entry {
        Entry::Assigned(Scalar::U64(kept)) => *kept = number,
        _ => *entry = Entry::Assigned(Scalar::U64(number)),
    }
}

#[inline(always)]
fn set_i64(entry: &mut Entry, number: i64)
    ensures { entry.new ≡ entry_type.Assigned (scalar.I64 number) }
{
    match entry {
        Entry::Assigned(Scalar::I64(kept)) => *kept = number,
        _ => *entry = Entry::Assigned(Scalar::I64(number)),
    }
}

/// Assigns a number of an integer type, in place where the entry has one of the type. It takes no memory.
#[inline(always)]
pub fn set_number(kind: Kind, entry: &mut Entry, number: i128)
    requires { IsNumber kind number }
    ensures { entry.new ≡ entry_type.Assigned (of_integer kind number) }
{
    match kind {
        Kind::UInt32 => set_u32(entry, number as u32),
        Kind::Int32 => set_i32(entry, number as i32),
        Kind::UInt64 => set_u64(entry, number as u64),
        Kind::Int64 => set_i64(entry, number as i64),
        Kind::Decimal | Kind::Ascii | Kind::Unicode | Kind::Bytes => unreachable!(),
    }
}
