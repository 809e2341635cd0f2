//! What the program meets on its machine: files and streams, texts that are read whole, hex text, an output in memory,
//! and why it does not do what it is asked to.
#![tactic(auto)]

mod hex_text;
mod input;
mod memory;
mod refusal;
mod source;

pub use hex_text::{HexFault, hex_line, is_blank, read_hex};
pub use input::{TEXT_LIMIT, TextFault, read_text};
pub use memory::MemoryOutput;
pub use refusal::Refusal;
pub use source::{FileState, Host, Source};
