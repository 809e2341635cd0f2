//! Messages as flat nodes.
#![tactic(auto)]

mod builder;
mod fault;
pub mod laws;
mod node;
mod open;
mod reader;
mod tape;
mod told;

pub use builder::{Taken, TapeBuilder};
pub use fault::{TapeFault, told_as};
pub use node::{
    ABSENT, ASCII, BYTES, DECIMAL, ELEMENT, GROUP, INT32, INT64, MESSAGE, SEQUENCE, TapeNode,
    UINT32, UINT64, UNICODE,
};
pub use open::OpenTape;
pub use reader::TapeReader;
pub use tape::Tape;
