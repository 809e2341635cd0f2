//! The tests of fast_canon and fast_command.
#![tactic(auto)]

#[cfg(test)]
mod base;
#[cfg(test)]
mod blocks;
#[cfg(test)]
mod canonicalising;
#[cfg(test)]
mod extremes;
#[cfg(test)]
mod gaps;
#[cfg(test)]
mod given;
#[cfg(test)]
mod granted;
#[cfg(test)]
mod json;
#[cfg(test)]
mod lines;
#[cfg(test)]
mod relaying;
#[cfg(test)]
mod same;
#[cfg(test)]
mod streams;
#[cfg(test)]
mod strict;
#[cfg(test)]
mod worked;
#[cfg(test)]
mod writing;
