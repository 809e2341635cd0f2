//! Templates as they are written, and how they are read from a template text.
//!
//! The definitions stand in `specs/`: what a written template is (`Written`), which data JSON stands for (`JsonData`), the
//! shape of that of templates (`Profile`), which templates a text has and where it is at fault (`JsonTemplates`), and how a
//! fault names its place (`LoadFaults`).
//! Whether templates can be loaded is the matter of `fast_load`.
#![tactic(auto)]

mod data;
mod fault;
mod from_data;
mod name;
mod profile;
pub mod shape;
mod written;

pub use data::is_data;
pub use fault::{LoadCause, LoadFault, fault_at, want_of_memory};
pub use from_data::templates_in_data;
pub use name::is_name;
pub use written::{Instruction, Operation, Template};
