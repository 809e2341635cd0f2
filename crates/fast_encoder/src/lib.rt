//! Messages to canonical bytes.
//!
//! [`Encoder`] writes messages that are in memory, each in its one canonical form (`fast_writer`), and refuses one that
//! has no form. [`MessageOutputStream`] writes them to a writer. How a message is judged and its nodes are written
//! stands in `fast_nodes`, with the laws, and what a caller needs of it can be named here too.
#![tactic(auto)]

mod encoder;
mod message;
mod output;

pub use encoder::Encoder;
pub use fast_nodes::{EncodeCause, EncodeFault, laws};
pub use output::MessageOutputStream;
