//! What a field can have: the words of its instruction, its values, and the names of its entry.
//!
//! The definitions are in `specs/`: what the types are and which values are within them (`Scalar`), how keys
//! are ordered (`Key`), and what value the text of an initial value spells (`InitialValues`, `Numbers`).
#![tactic(auto)]

mod initial;
mod key;
mod kind;
mod of_kind;
mod scalar;
mod unicode_text;

pub use initial::value_of_text;
pub use key::{Key, Name, Scope};
pub use kind::{Kind, Operator, Part, Presence, UNIT_LIMIT};
pub use of_kind::is_of_kind;
pub use scalar::{ByteString, Scalar};
pub use unicode_text::UnicodeText;
