//! Streams, how they are cut, their messages and their ends, for the crates of tests above.
#![tactic(auto)]

pub mod cuts;
pub mod ends;
pub mod extremes;
pub mod long;
pub mod modes;
pub mod nested;
pub mod quotes;
pub mod sent;
