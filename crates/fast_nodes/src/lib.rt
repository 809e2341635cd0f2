//! A message's nodes, judged and put into a segment.
//!
//! This is what `fast_encoder` is made of: [`template_for`] judges a message by its template, [`put_nodes`] writes the
//! nodes into a segment of `fast_writer`, each by its instruction, and a [`Journal`] keeps what they changed of the
//! entries, so that a refusal can put it back.
#![tactic(auto)]

mod fault;
mod journal;
mod judge;
pub mod laws;
mod nodes;
mod put;
mod shape;
mod size;

pub use fault::{EncodeCause, EncodeFault};
pub use journal::{Change, Journal, put_back, put_value};
pub use judge::template_for;
pub use nodes::put_nodes;
pub use put::seal;
