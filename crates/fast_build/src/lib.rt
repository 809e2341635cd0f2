//! Template sets from templates as they are written, and from template texts.
//!
//! What makes them stands in `fast_load`, with the definitions that the clauses name; templates as they are written stand
//! in `fast_written` and can be named here too, and the sets in `fast_template`.
#![tactic(auto)]

mod load;

pub use fast_written::{Instruction, LoadCause, LoadFault, Operation, Template};
pub use load::Load;
