//! Streams that are decoded.

mod blocks;
mod cuts;
mod long;
mod messages;
mod pieces;
pub(crate) mod steps;
pub(crate) mod streams;
mod strict;
