//! What is long in a line that is long: it is kept as what it is told from.

use fast_field::Removal;
use fast_template::{Initial, Name};

/// How the units of a text stand in a line: as characters in quotes, or as bytes.
#[derive(Clone, Copy, Debug, PartialEq, Eq)]
pub enum Units {
    Characters,
    Bytes,
}

/// A piece of a line that is not written yet.
#[derive(Drop)]
pub enum Gap {
    /// What stands in front of a value of this name.
    Label(Name),
    /// A text, as a delta of the initial value, or where there is none of the text that was told last under the key of this
    /// slot: what is removed of it, and what is put there. It is told last there then. Of an operator that keeps no value
    /// there is no slot.
    Text {
        slot: Option<u32>,
        initial: Option<Initial>,
        units: Units,
        removal: Removal,
        part: Vec<u8>,
    },
}

/// A gap, and how many bytes that are written stand between the one before and it.
#[derive(Drop)]
pub struct PlacedGap {
    pub behind: usize,
    pub gap: Gap,
}
