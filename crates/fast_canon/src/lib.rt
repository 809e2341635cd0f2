//! The canonicaliser of FAST 1.1, and the laws of streams that its promises stand on.
//!
//! A stream passes through the writer of canonical bytes by `fast_pass`, and what a caller needs of that can be named
//! here too.
#![tactic(auto)]

mod canonical;
pub mod laws;
mod nowhere;

pub use canonical::{canonicalise, check};
pub use fast_pass::{CanonFault, Summary, pass_through};
