//! Where the value of a field lies that was read.

ghost use Rattle.std.specs.Prelude.{◌≡◌, IfOk};
ghost use Rattle.std.specs.Option.{option_copied};
ghost use Rattle.fast_dictionary.specs.Dictionary.{entry_of};
ghost use Rattle.fast_dictionary.specs.declared.entry.Entry as entry;
ghost use Rattle.fast_template.specs.declared.resolved.FieldPart as part;
ghost use Rattle.fast_field.specs.Found.{CanLie, value_found};

use fast_dictionary::EntryRef;
use fast_template::{FieldPart, Scalar};
use std::alloc::{AllocError, Global};

/// The value of a field that was read, where it lies, so that none is copied that nobody asks for.
#[derive(Debug, Drop)]
pub enum Found {
    /// There is none: the field is absent.
    Absent,
    /// The initial value of the instruction.
    Initial,
    /// The value of the entry.
    Kept,
    /// A value of its own.
    Value(Scalar),
}

impl Found {
    /// A value of its own, or none.
    #[inline(always)]
    pub(crate) fn own(value: Option<Scalar>) -> Found
        ensures value { (i : part.FieldPart) (e : entry.Entry) → value_found i e result ≡ value }
        ensures lies { (e : entry.Entry) → CanLie e result }
    {
        match value {
            None => Found::Absent,
            Some(value) => Found::Value(value),
        }
    }

    /// The value, of the instruction and the entry on which it was found.
    #[inline(always)]
    pub fn value<'a>(&'a self, instr: &'a FieldPart, kept: EntryRef<'a>) -> Option<&'a Scalar>
        ensures { option_copied result ≡ value_found instr.now (entry_of kept.entry) self.now }
    {
        match self {
            Found::Absent => None,
            Found::Initial => instr.initial(),
            Found::Kept => match kept {
                EntryRef::Undefined | EntryRef::Empty => None,
                EntryRef::Assigned(value) => Some(value),
            },
            Found::Value(value) => Some(value),
        }
    }

    /// The value as one of its own: one that lies elsewhere is copied.
    ///
    /// # Errors
    ///
    /// Where memory is refused.
    #[inline(always)]
    pub fn into_value(
        self,
        alloc: Global,
        instr: &FieldPart,
        kept: EntryRef,
    ) -> Result<Option<Scalar>, AllocError>
        ensures { IfOk result (λ value. value ≡ value_found instr.now (entry_of kept.entry) self) }
    {
        match self {
            Found::Absent => Ok(None),
            Found::Initial => match &instr.initial {
                None => Ok(None),
                Some(initial) => Ok(Some(initial.value().copy(alloc)?)),
            },
            Found::Kept => match kept {
                EntryRef::Undefined | EntryRef::Empty => Ok(None),
                EntryRef::Assigned(value) => Ok(Some(value.copy(alloc)?)),
            },
            Found::Value(value) => Ok(Some(value)),
        }
    }
}
