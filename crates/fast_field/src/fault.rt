//! Why a field cannot be read, and why a value of it cannot be written.

ghost use Rattle.std.specs.Prelude.{◌≡◌};
ghost use Rattle.fast_field.specs.Faults.{field_fault};
ghost use Rattle.fast_field.specs.declared.fault.FieldFault.TheVariants.{Memory};
ghost use Rattle.fast_field.specs.declared.fault.FieldRefusal.TheVariants as refusal;

use fast_wire::WireFault;
use std::alloc::AllocError;
use std::{error, fmt};

/// Why a field cannot be read. The numbers are those of FAST 1.1, Error Handling.
#[derive(Clone, Copy, Debug, PartialEq, Eq, Drop)]
pub enum FieldFault {
    /// An integer is out of its type's bounds.
    D2,
    /// The entry has a value of another type.
    D4,
    /// A mandatory field is left out, and its entry is undefined, with no initial value.
    D5,
    /// A mandatory field is left out, or a delta has no base, since the entry is empty.
    D6,
    /// A delta removes more than is there, or a number of units that is no int32.
    D7,
    /// A decimal is out of range.
    R1,
    /// A text is not UTF-8.
    R2,
    /// At the strict level: an integer has more groups than it needs.
    R6,
    /// At the strict level: an ASCII string has a preamble that it does not need.
    R9,
    /// A limit on bytes, units or elements is passed.
    Limit,
    /// The bytes end before the field does.
    NeedMore,
    /// Memory was refused.
    Memory,
}

impl FieldFault {
    // The fault in words.
    fn text(self) -> &'static str {
        match self {
            FieldFault::D2 => "D2",
            FieldFault::D4 => "D4",
            FieldFault::D5 => "D5",
            FieldFault::D6 => "D6",
            FieldFault::D7 => "D7",
            FieldFault::R1 => "R1",
            FieldFault::R2 => "R2",
            FieldFault::R6 => "R6",
            FieldFault::R9 => "R9",
            FieldFault::Limit => "Limit",
            FieldFault::NeedMore => "NeedMore",
            FieldFault::Memory => "Memory",
        }
    }
}

impl fmt::Display for FieldFault {
    fn fmt<W: fmt::Write>(&self, f: &mut fmt::Formatter<W>) -> fmt::Result {
        f.write_str(self.text())
    }
}

impl error::Error for FieldFault {}

impl From<WireFault> for FieldFault {
    ghost from_gives = { λ wire fault. fault ≡ field_fault wire };

    fn from(fault: WireFault) -> FieldFault {
        match fault {
            WireFault::NeedMore => FieldFault::NeedMore,
            WireFault::TooLong | WireFault::Range => FieldFault::Limit,
            WireFault::NotUtf8 => FieldFault::R2,
            WireFault::Memory => FieldFault::Memory,
        }
    }
}

impl From<AllocError> for FieldFault {
    ghost from_gives = { λ refused fault. fault ≡ Memory };

    fn from(_refused: AllocError) -> FieldFault {
        FieldFault::Memory
    }
}

/// Why a value of a field cannot be written. The numbers are those of FAST 1.1, Error Handling.
#[derive(Clone, Copy, Debug, PartialEq, Eq, Drop)]
pub enum FieldRefusal {
    /// A part of a decimal has a value that its own operator cannot spell.
    D3,
    /// The entry has a value of another type.
    D4,
    /// A delta has no base, since the entry is empty.
    D6,
    /// A decimal is out of range.
    R1,
    /// The value is not that of a constant.
    NotConstant,
    /// The value of a tail is shorter than its base.
    TooShort,
    /// The value is of another type than the field, or has a character above 127 in ASCII, or is absent from a
    /// mandatory field.
    Mismatch,
    /// The value has too many units.
    Limit,
    /// Memory was refused.
    Memory,
}

impl FieldRefusal {
    // The refusal in words.
    fn text(self) -> &'static str {
        match self {
            FieldRefusal::D3 => "D3",
            FieldRefusal::D4 => "D4",
            FieldRefusal::D6 => "D6",
            FieldRefusal::R1 => "R1",
            FieldRefusal::NotConstant => "NotConstant",
            FieldRefusal::TooShort => "TooShort",
            FieldRefusal::Mismatch => "Mismatch",
            FieldRefusal::Limit => "Limit",
            FieldRefusal::Memory => "Memory",
        }
    }
}

impl fmt::Display for FieldRefusal {
    fn fmt<W: fmt::Write>(&self, f: &mut fmt::Formatter<W>) -> fmt::Result {
        f.write_str(self.text())
    }
}

impl error::Error for FieldRefusal {}

impl From<AllocError> for FieldRefusal {
    ghost from_gives = { λ refused why. why ≡ refusal.Memory };

    fn from(_refused: AllocError) -> FieldRefusal {
        FieldRefusal::Memory
    }
}
