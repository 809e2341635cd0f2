//! The templates of a set as a flat list of fields, each template before its own, in the order of the nodes of its messages.
//!
//! What the list is, is a function of the templates (`specs/Fields`); what is put of it into a caller's rooms, says
//! `specs/Rooms`.
#![tactic(auto)]

mod field;
pub mod laws;
mod layout;
mod rooms;
mod size;

pub use field::Field;
pub use layout::{Layout, lay_out};
pub use rooms::{LayoutFault, Sizes, put_fields};
