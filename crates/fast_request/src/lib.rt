//! What a command line asks the program for.
#![tactic(auto)]

mod request;

pub use request::{Request, Task, parse_words};
