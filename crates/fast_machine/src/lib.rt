//! The one machine that reads a stream that comes in chunks, whatever is done with what is read.
//!
//! The definitions stand in `specs/`: how messages are read one behind the other (`Runs`), how a machine stands in its
//! stream (`Standing`), how it follows it (`Following`), what that says of the stream alone (`Progress`), what its calls
//! answer (`Calls`), how long a piece is at least (`Ends`), that its promises are each of one proof (`OneProof`), and what a reader
//! gave to a stream (`Inputs`).
#![tactic(auto)]

mod blocks;
mod machine;
mod messages;
mod reached;

pub use machine::Machine;
pub use reached::Reached;
