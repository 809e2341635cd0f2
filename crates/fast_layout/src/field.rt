//! A field, as C has it.

ghost use Rattle.std.specs.Prelude.{◌≡◌};
ghost use Rattle.fast_template.specs.Resolved.{is_optional};
ghost use Rattle.fast_layout.specs.Fields.{flag_of, kind_number_of};

use fast_template::{Kind, Presence};

/// A field of a template, or what has fields: a group, a sequence or a template. What does not belong to its kind is 0.
#[repr(C)]
#[derive(Clone, Copy, Debug)]
pub struct Field {
    /// What it is: the number of its type, or 10 for a group, 11 for a sequence, 0 for a template.
    pub kind: u32,
    /// The number of its instruction; of a template the identifier.
    pub instruction: u32,
    /// Where its name begins in the names.
    pub name: u64,
    /// How many bytes its name has.
    pub name_length: u64,
    /// 1 where it may be left out, or of a template where there is an identifier; else 0.
    pub optional: u32,
    /// How many fields behind it are its own, those inside them too.
    pub length: u32,
}

/// The kind of a template.
pub(crate) const TEMPLATE: u32 = 0;

/// The kind of a group.
pub(crate) const GROUP: u32 = 10;

/// The kind of a sequence.
pub(crate) const SEQUENCE: u32 = 11;

/// The number of a type.
pub(crate) fn kind_number(kind: Kind) -> u32
    ensures { result ≡ kind_number_of kind }
{
    match kind {
        Kind::UInt32 => 2,
        Kind::UInt64 => 3,
        Kind::Int32 => 4,
        Kind::Int64 => 5,
        Kind::Decimal => 6,
        Kind::Ascii => 7,
        Kind::Unicode => 8,
        Kind::Bytes => 9,
    }
}

/// Whether what has this presence may be left out, as C has it.
pub(crate) fn optional(presence: Presence) -> u32
    ensures { result ≡ flag_of (is_optional presence) }
{
    match presence {
        Presence::Mandatory => 0,
        Presence::Optional => 1,
    }
}
