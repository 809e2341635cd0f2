//! The tests of fast_serve.
#![tactic(auto)]

#[cfg(test)]
mod base;
#[cfg(test)]
mod same;
#[cfg(test)]
mod serving;
