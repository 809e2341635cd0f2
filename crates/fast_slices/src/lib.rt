//! Commands over a stream or a recording in memory: it is canonicalised, checked or shown into a room. Lines are written, and a
//! template text is checked.
//! What is answered has the shape that C reads (`fast_c`).
#![tactic(auto)]

mod answer;
mod call;
mod input;
mod kept;
mod lines;
mod recording;
mod stream;
mod tally;
mod way;

pub use answer::{Answer, Counts, Refusal, answer_of, no_counts};
pub use call::{
    canon, canon_over, check_over, check_stream, check_templates, load, show, show_over,
};
pub use fast_command::VERSION_NUMBER;
pub use lines::{write, write_over};
pub use way::stream_mode_of;
