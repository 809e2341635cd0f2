//! Messages from their nodes (`fast_tape`), and their canonical bytes.
//!
//! [`TapeWriter`] reads the message whose tape nodes begin with, by the instructions of its template, so that what nests deeper
//! than a template does is not followed, and writes it.
#![tactic(auto)]

mod fault;
mod header;
mod message;
mod read;
mod value;
mod writer;

pub use fault::PutFault;
pub use writer::{Put, TapeWriter};
