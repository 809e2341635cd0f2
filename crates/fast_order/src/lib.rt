//! An order of things that refer to each other, by a search depth first, or the first thing on a cycle.
//!
//! What an order is stands in `specs/Order`; how the search stands between two turns, in `specs/Search`.
#![tactic(auto)]

mod order;

pub use order::order_of;
