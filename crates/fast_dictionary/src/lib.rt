//! Dictionaries: what earlier messages left for later ones, as one finite map from keys to entries.
#![tactic(auto)]

mod entries;
mod entry;
mod map;
mod slots;
mod spare;

pub use entries::Entries;
pub use entry::{Entry, EntryRef};
pub use map::MapEntries;
pub use slots::SlotEntries;
pub use spare::Spare;
