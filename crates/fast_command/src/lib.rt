//! Commands over a stream: a line for each of its messages, what a check counts of it, or its canonical bytes.
#![tactic(auto)]

mod command;
pub mod laws;
mod line;
mod packets;
mod shown;
mod told;

pub use command::{Command, run};
pub use fast_lines::{Form, ShowFault};
pub use fast_stream::{Framing, Mode};
pub use fast_wire::Level;
pub use line::show_line;
pub use packets::run_packets;

/// The version of the program and of the library.
pub const VERSION: &str = "0.2.0";

/// The same as a number: 10,000 for each major version, 100 for each minor one, 1 for each patch.
pub const VERSION_NUMBER: u32 = 200;
