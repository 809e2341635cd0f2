//! Entries of dictionaries.

ghost use Rattle.std.specs.Prelude.{◌≡◌, IfOk};

use fast_template::Scalar;
use std::alloc::{AllocError, Global};

/// What a dictionary has under a key.
#[derive(Debug, PartialEq, Eq, Drop)]
pub enum Entry {
    /// Nothing since the reset.
    Undefined,
    /// The field was absent.
    Empty,
    /// The field had this value.
    Assigned(Scalar),
}

impl Entry {
    ghost use Rattle.fast_dictionary.specs.Dictionary.{entry_of};

    /// This entry, its value by reference.
    pub fn view(&self) -> EntryRef<'_>
        ensures { entry_of result ≡ self.now }
    {
        match self {
            Entry::Undefined => EntryRef::Undefined,
            Entry::Empty => EntryRef::Empty,
            Entry::Assigned(value) => EntryRef::Assigned(value),
        }
    }
}

/// An entry whose value stays where it is.
#[derive(Clone, Copy, Debug)]
pub enum EntryRef<'a> {
    Undefined,
    Empty,
    Assigned(&'a Scalar),
}

impl EntryRef<'_> {
    ghost use Rattle.fast_dictionary.specs.Dictionary.{entry_of};

    /// The same entry, with a value of its own.
    ///
    /// # Errors
    ///
    /// Where memory is refused.
    pub fn copy(self, alloc: Global) -> Result<Entry, AllocError>
        ensures { IfOk result (λ entry. entry ≡ entry_of self.entry) }
    {
        match self {
            EntryRef::Undefined => Ok(Entry::Undefined),
            EntryRef::Empty => Ok(Entry::Empty),
            EntryRef::Assigned(value) => Ok(Entry::Assigned(value.copy(alloc)?)),
        }
    }
}
