//! Messages as lines while they are read: the receiver that tells each field from where it lies.
//!
//! `told` takes a field from the bytes and tells it in the line of the message that is open (`line`); `writer` is the receiver.
#![tactic(auto)]

mod line;
mod told;
mod writer;

pub use writer::LineWriter;
