//! What a stream carries, and where it has no reading.
//!
//! The definitions stand in `specs/`: what a message is to contracts (`Nodes`), the bits of a map that instructions
//! take (`Bits`), how instructions stand in a stream (`Bodies`), messages one after the other (`Streams`), the first
//! fault of one (`Faults`), messages in blocks (`Blocks`), and what a stream carries in each mode with its first fault
//! (`Modes`). `Reading` is the same of a message once more as a function from bytes, which answers the message or the
//! fault, and so have `Blocks` and `Modes`; `Readers` says what ties the two, and the module [`laws`] that it holds of
//! bodies, messages and streams.
#![tactic(auto)]

mod fault;
pub mod laws;
mod message;
mod mode;
mod place;

pub use fault::{Cause, Fault};
pub use message::{Message, Node};
pub use mode::{Framing, Mode};
pub use place::Place;
