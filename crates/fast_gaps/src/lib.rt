//! What is long in a line that is long: it is left out as a gap, and told when the line is handed on.
//!
//! [`Gaps`] are those of a line that is open: long names, and texts as deltas of the ones that were told before, so that
//! what is kept grows with what was sent. [`Rest`] is what is left of a line with gaps while it is handed on, gap by gap.
#![tactic(auto)]

mod filling;
mod gap;
mod gaps;
mod rest;
mod texts;

pub use gaps::Gaps;
pub use rest::Rest;
