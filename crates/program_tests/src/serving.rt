//! What no clause says: worked streams, the program's answers, and devices that fail in mid-stream.

mod back;
mod blocks;
pub(crate) mod devices;
mod examples;
mod explaining;
mod generated;
mod granted;
mod lines;
mod packets;
pub(crate) mod programs;
mod strict;
mod worked;
mod writing;
