//! Entries that can be put back.

mod calls;

pub use calls::{put_back, put_value};
use fast_dictionary::{Entries, Entry};
use fast_template::FieldPart;

/// A part that was written, and what its entry was before.
#[derive(Drop)]
pub struct Change<'a> {
    part: &'a FieldPart,
    before: Entry,
}

/// The entries of a message that is being written, and in order what of them was changed for it.
#[derive(Drop)]
pub struct Journal<'a, E: Entries> {
    /// What they are now.
    pub entries: E,
    changes: Vec<Change<'a>>,
}
