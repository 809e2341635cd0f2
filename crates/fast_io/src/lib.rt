//! Readers and writers whose contracts see their bytes, and count their calls and errors.
//!
//! FAST 1.1 leaves open where bytes come from and where they go. What the layers above promise of a
//! stream is a promise on the bytes that a [`ByteInput`] gave and a [`ByteOutput`] took, so these two
//! say in their contracts which bytes those are, where the device tells them.
#![tactic(auto)]

mod counted;
mod input;
mod output;
mod script;
mod whole;

pub use counted::Counted;
pub use input::{ByteInput, Failed};
pub use output::ByteOutput;
pub use script::{ScriptInput, ScriptOutput};
pub use whole::{push_all, write_all};
