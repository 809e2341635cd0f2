//! Where a stream stops.

use std::fmt;

/// Where a stream stops: at the beginning of the piece that has no reading, or that is not whole.
///
/// A piece is a presence map, an identifier, a field, one part of a decimal whose parts have operators of their own,
/// or the length of a sequence; or a group or an element, which begins where its map does.
#[derive(Clone, Copy, Debug, PartialEq, Eq)]
pub struct Place {
    /// The message, counted from 1.
    pub message: u64,
    /// How many bytes of the stream stand before the piece.
    pub offset: u64,
    /// The template's identifier; 0 for a message's own map and identifier, and between messages.
    pub template: u32,
    /// The instruction's number in its resolved template, from 1; 0 likewise. A group's map has the group's number, an
    /// element and its map have the sequence's.
    pub instruction: u32,
}

impl fmt::Display for Place {
    fn fmt<W: fmt::Write>(&self, f: &mut fmt::Formatter<W>) -> fmt::Result {
        write!(
            f,
            "message={} offset={} template={} instruction={}",
            self.message, self.offset, self.template, self.instruction
        )
    }
}
