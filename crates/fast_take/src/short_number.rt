//! Numbers of 64 bits with a sign, by the integer type that they are of. Those that have more are left to the general way.

ghost use Rattle.std.specs.Prelude.{◌≡◌, ◌^◌, ◌≤ℤ◌, ◌+ℤ◌, ℤ, pos, IfNone, IfSome, true};
ghost use Rattle.fast_value.specs.Scalar.{greatest_of, of_integer};
ghost use Rattle.fast_value.specs.declared.kind.Kind.{Kind as KindOf};
ghost use Rattle.fast_value.specs.declared.kind.Kind.TheVariants as kind_type;
ghost use Rattle.fast_dictionary.specs.declared.entry.Entry.TheVariants as entry_type;
ghost use Rattle.fast_field.specs.Numbers.{HasNumber, IsFieldNumber, IsNumber, IsNumberOf};

use fast_dictionary::Entry;
use fast_template::{Part, Scalar};

/// An integer type whose numbers are taken in 64 bits with a sign.
pub(crate) trait ShortInteger {
    // Which it is.
    ghost kind: { KindOf };

    /// The number of a value of the type; none where it has more bits, and of other values.
    fn of(value: &Scalar) -> Option<i64>
        ensures some { IfSome result (IsNumberOf kind value.now) }
        ensures none { IfNone result ((z : ℤ) → IsNumberOf kind value.now z → pos (2 ^ 63) ≤ℤ z) };

    /// The number that an entry has of the type.
    fn kept(entry: &Entry) -> Option<i64>
        ensures { IfSome result (HasNumber kind entry.now) };

    /// Puts a number in the place of the one that an entry has. It takes no memory.
    fn replace(entry: &mut Entry, kept: i64, number: i64)
        requires kept { HasNumber kind entry.now kept }
        requires number { IsNumber kind number }
        ensures { entry.new ≡ entry_type.Assigned (of_integer kind number) };

    /// Whether a field can have a number: in the range of the type and within the limit of its part, which can be of the type.
    fn is_field_number(which: Part, number: i64) -> bool
        ensures { result ≡ true → IsFieldNumber kind which number };

    /// The sum of a number of the type and a difference, where it is of the type too; else another number that is not, or none.
    fn sum(kept: i64, delta: i64) -> Option<i64>
        requires { IsNumber kind kept }
        ensures { IfSome result (λ sum. IsNumber kind sum → sum ≡ kept +ℤ delta) };

    /// The greatest number of the type that has 64 bits with a sign.
    fn greatest() -> i64
        ensures { result ≤ℤ greatest_of kind };
}

impl ShortInteger for u32 {
    ghost kind = { kind_type.UInt32 };

    #[inline(always)]
    fn of(value: &Scalar) -> Option<i64> {
        match value {
            Scalar::U32(number) => Some(i64::from(*number)),
            _ => None,
        }
    }

    #[inline(always)]
    fn kept(entry: &Entry) -> Option<i64> {
        match entry {
            Entry::Assigned(Scalar::U32(number)) => Some(i64::from(*number)),
            _ => None,
        }
    }

    #[inline(always)]
    fn replace(entry: &mut Entry, kept: i64, number: i64) {
        match entry {
            Entry::Assigned(Scalar::U32(place)) => {
                *place = number as u32;
            }
            _ => unreachable!(),
        }
    }

    #[inline(always)]
    fn is_field_number(which: Part, number: i64) -> bool {
        match which {
            Part::Whole => 0 <= number && number <= i64::from(u32::MAX),
            Part::Length => 0 <= number && number <= 65535,
            Part::Exponent | Part::Mantissa => false,
        }
    }

    #[inline]
    fn sum(kept: i64, delta: i64) -> Option<i64> {
        // what wraps around is not of the type
        Some(kept.wrapping_add(delta))
    }

    #[inline(always)]
    fn greatest() -> i64 {
        i64::from(u32::MAX)
    }
}

impl ShortInteger for i32 {
    ghost kind = { kind_type.Int32 };

    #[inline(always)]
    fn of(value: &Scalar) -> Option<i64> {
        match value {
            Scalar::I32(number) => Some(i64::from(*number)),
            _ => None,
        }
    }

    #[inline(always)]
    fn kept(entry: &Entry) -> Option<i64> {
        match entry {
            Entry::Assigned(Scalar::I32(number)) => Some(i64::from(*number)),
            _ => None,
        }
    }

    #[inline(always)]
    fn replace(entry: &mut Entry, kept: i64, number: i64) {
        match entry {
            Entry::Assigned(Scalar::I32(place)) => {
                *place = number as i32;
            }
            _ => unreachable!(),
        }
    }

    #[inline(always)]
    fn is_field_number(which: Part, number: i64) -> bool {
        match which {
            Part::Whole => i64::from(i32::MIN) <= number && number <= i64::from(i32::MAX),
            Part::Exponent => -63 <= number && number <= 63,
            Part::Mantissa | Part::Length => false,
        }
    }

    #[inline]
    fn sum(kept: i64, delta: i64) -> Option<i64> {
        // what wraps around is not of the type
        Some(kept.wrapping_add(delta))
    }

    #[inline(always)]
    fn greatest() -> i64 {
        i64::from(i32::MAX)
    }
}

impl ShortInteger for u64 {
    ghost kind = { kind_type.UInt64 };

    #[inline(always)]
    fn of(value: &Scalar) -> Option<i64> {
        match value {
            Scalar::U64(number) => match i64::try_from(*number) {
                Ok(number) => Some(number),
                Err(_) => None,
            },
            _ => None,
        }
    }

    #[inline(always)]
    fn kept(entry: &Entry) -> Option<i64> {
        match entry {
            Entry::Assigned(Scalar::U64(number)) => match i64::try_from(*number) {
                Ok(number) => Some(number),
                Err(_) => None,
            },
            _ => None,
        }
    }

    #[inline(always)]
    fn replace(entry: &mut Entry, kept: i64, number: i64) {
        match entry {
            Entry::Assigned(Scalar::U64(place)) => {
                *place = number as u64;
            }
            _ => unreachable!(),
        }
    }

    #[inline(always)]
    fn is_field_number(which: Part, number: i64) -> bool {
        match which {
            Part::Whole => 0 <= number,
            Part::Exponent | Part::Mantissa | Part::Length => false,
        }
    }

    #[inline]
    fn sum(kept: i64, delta: i64) -> Option<i64> {
        // what wraps around is not of the type
        Some(kept.wrapping_add(delta))
    }

    #[inline(always)]
    fn greatest() -> i64 {
        i64::MAX
    }
}

impl ShortInteger for i64 {
    ghost kind = { kind_type.Int64 };

    #[inline(always)]
    fn of(value: &Scalar) -> Option<i64> {
        match value {
            Scalar::I64(number) => Some(*number),
            _ => None,
        }
    }

    #[inline(always)]
    fn kept(entry: &Entry) -> Option<i64> {
        match entry {
            Entry::Assigned(Scalar::I64(number)) => Some(*number),
            _ => None,
        }
    }

    #[inline(always)]
    fn replace(entry: &mut Entry, kept: i64, number: i64) {
        match entry {
            Entry::Assigned(Scalar::I64(place)) => {
                *place = number;
            }
            _ => unreachable!(),
        }
    }

    #[inline(always)]
    fn is_field_number(which: Part, number: i64) -> bool {
        match which {
            Part::Whole | Part::Mantissa => true,
            Part::Exponent | Part::Length => false,
        }
    }

    #[inline]
    fn sum(kept: i64, delta: i64) -> Option<i64> {
        kept.checked_add(delta)
    }

    #[inline(always)]
    fn greatest() -> i64 {
        i64::MAX
    }
}
