//! What a message looks like: resolved templates and sets of them.
//!
//! A template set is described by its `specs/`: what the parts of a resolved template are (`Resolved`) and what is true
//! of every set (`TemplateSets`). The words of an instruction, values and keys stand in `fast_value` and can be named
//! here too. `fast_load` makes sets from templates as they are written.
#![tactic(auto)]

mod bits;
mod initial;
pub mod laws;
mod resolved;
mod set;

pub use bits::{has_map, needs_bit, part_needs_bit};
pub use fast_value::{
    ByteString, Key, Kind, Name, Operator, Part, Presence, Scalar, Scope, UnicodeText,
};
pub use initial::Initial;
pub use resolved::{FieldPart, Flat, FlatTemplate};
pub use set::TemplateSet;
