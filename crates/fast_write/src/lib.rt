//! Lines to canonical bytes.
//!
//! [`write_lines`] reads lines of JSON, each of which stands for a message (`fast_spelled`), and writes the canonical bytes
//! of the messages. `specs/Written` says what is answered. [`write_packets`] reads lines that say their packets, and writes
//! their canonical recording (`specs/Packets`).
#![tactic(auto)]

mod fault;
pub mod laws;
mod lines;
mod output;
mod summary;
mod way;
mod write;

pub use fast_encoder::{EncodeCause, EncodeFault};
pub use fast_spelled::{LineCause, LineFault};
pub use fault::WriteFault;
pub use output::OutputForm;
pub use summary::WrittenSummary;
pub use write::{write_lines, write_packets};
