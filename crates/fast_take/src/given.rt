//! Whether a value that was sent is what bit 0 gives too; it then has bit 0 for its best form. ASCII strings, vectors and NULL
//! are compared here.

ghost use Rattle.std.specs.Prelude.{◌≡◌, true, false, Some, None};
ghost use Rattle.fast_value.specs.declared.kind.Kind.TheVariants as kind_type;
ghost use Rattle.fast_value.specs.declared.kind.Part.TheVariants as part_type;
ghost use Rattle.fast_value.specs.declared.kind.Presence.TheVariants as presence_type;
ghost use Rattle.fast_value.specs.declared.scalar.Scalar.TheVariants.{Ascii};
ghost use Rattle.fast_wire.specs.Entity.{groups};
ghost use Rattle.fast_take.specs.Judged.{HasBit};
ghost use Rattle.fast_take.specs.Numbers.{SpellsWhole};
ghost use Rattle.fast_take.specs.Texts.{IsText, IsVectorKind};
ghost use Rattle.fast_field.specs.Values.{of_units};

use fast_dictionary::Entry;
use fast_field::units;
use fast_template::{FieldPart, Kind, Operator, Scalar};
use fast_wire::is_text_of;

/// The bit of the best form of NULL, which leaves the entry as it is where that is bit 0. None: another way tells.
#[inline(always)]
pub(crate) fn absent_bit(instr: &FieldPart, entry: &Entry) -> Option<bool>
    requires presence { instr.now.presence ≡ presence_type.Optional }
    ensures bit { HasBit instr.now entry.now None result }
    ensures operator { result ≡ Some false → SpellsWhole instr.now.operator }
{
    match instr.operator {
        Operator::Plain | Operator::Delta => Some(true),
        Operator::Default => Some(instr.initial.is_some()),
        Operator::Copy | Operator::Increment => match entry {
            Entry::Assigned(_) => Some(true),
            Entry::Empty => Some(false),
            Entry::Undefined => match &instr.initial {
                None => None,
                Some(_) => Some(true),
            },
        },
        Operator::Tail => match entry {
            Entry::Assigned(_) => Some(true),
            Entry::Empty => None,
            Entry::Undefined => match &instr.initial {
                None => None,
                Some(_) => Some(true),
            },
        },
        Operator::Constant => None,
    }
}

/// Whether a value is the string or vector of a type that these bytes are.
#[inline(always)]
fn is_made_of(kind: Kind, value: &Scalar, part: &[u8]) -> bool
    ensures { result ≡ true → value.now ≡ of_units kind part.now }
{
    match (kind, value) {
        (Kind::Unicode, Scalar::Unicode(text)) => *text.as_bytes() == *part,
        (Kind::Bytes, Scalar::Bytes(bytes)) => *bytes.as_slice() == *part,
        _ => false,
    }
}

/// The bit of the best form of the string or vector that bytes are, spelled whole, which leaves the entry as it is where that is
/// bit 0. None: another way tells.
#[inline(always)]
pub(crate) fn units_bit(instr: &FieldPart, entry: &Entry, part: &[u8]) -> Option<bool>
    requires kind { IsVectorKind instr.now.kind }
    requires text { IsText instr.now.kind (of_units instr.now.kind part.now) }
    requires whole { instr.now.part ≡ part_type.Whole }
    ensures { HasBit instr.now entry.now (Some (of_units instr.now.kind part.now)) result }
{
    match instr.operator {
        Operator::Plain => Some(true),
        Operator::Default => match &instr.initial {
            None => Some(true),
            Some(initial) => {
                if *units(initial.value()) == *part {
                    is_made_of(instr.kind, initial.value(), part).then_some(false)
                } else {
                    Some(true)
                }
            }
        },
        Operator::Copy => match entry {
            Entry::Assigned(value) => {
                if *units(value) == *part {
                    is_made_of(instr.kind, value, part).then_some(false)
                } else {
                    Some(true)
                }
            }
            Entry::Empty => Some(true),
            // bit 0 gives the initial value
            Entry::Undefined => match &instr.initial {
                None => Some(true),
                Some(initial) => (*units(initial.value()) != *part).then_some(true),
            },
        },
        Operator::Constant | Operator::Increment | Operator::Delta | Operator::Tail => None,
    }
}

/// The same of an ASCII string.
#[inline(always)]
pub(crate) fn text_bit(instr: &FieldPart, entry: &Entry, form: &[u8]) -> Option<bool>
    requires kind { instr.now.kind ≡ kind_type.Ascii }
    requires part { instr.now.part ≡ part_type.Whole }
    ensures { HasBit instr.now entry.now (Some (Ascii (groups form.now))) result }
{
    match instr.operator {
        Operator::Plain => Some(true),
        Operator::Default => match instr.initial() {
            None => Some(true),
            Some(Scalar::Ascii(text)) => Some(!is_text_of(text.as_slice(), form)),
            Some(_) => None,
        },
        Operator::Copy => match entry {
            Entry::Assigned(Scalar::Ascii(text)) => Some(!is_text_of(text.as_slice(), form)),
            Entry::Empty => Some(true),
            // bit 0 gives the initial value
            Entry::Undefined => match instr.initial() {
                None => Some(true),
                Some(Scalar::Ascii(text)) => (!is_text_of(text.as_slice(), form)).then_some(true),
                Some(_) => None,
            },
            Entry::Assigned(_) => None,
        },
        Operator::Constant | Operator::Increment | Operator::Delta | Operator::Tail => None,
    }
}
