//! Messages from a stream, which comes in chunks or from a reader.
//!
//! What a stream carries, where it has no reading, and the machine that goes over its pieces stand in `fast_stream` and
//! `fast_machine`, and what a caller needs of them can be named here too. [`Builder`] is the receiver that keeps the nodes of the
//! message that is open, and the messages that have ended (`specs/Built`); `specs/Taken` says what it makes of a field.
//! `specs/Inputs` says what the stream of messages answered, of what its reader gave.
#![tactic(auto)]

mod builder;
mod decoder;
mod input;
mod taken;

pub use builder::{Builder, Outer};
pub use decoder::Decoder;
pub use fast_machine::{Machine, Reached};
pub use fast_stream::{Cause, Fault, Framing, Message, Mode, Node, Place};
pub use fast_walk::Receiver;
pub use fast_wire::Level;
pub use input::MessageInputStream;
