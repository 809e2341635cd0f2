//! The program as a call: from a command line, files and streams to the exit status.
#![tactic(auto)]

mod ended;
mod lines;
mod recording;
pub mod serve;
