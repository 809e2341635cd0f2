//! The tests of fast_io, fast_wire and fast_draft.
#![tactic(auto)]

#[cfg(test)]
mod builder;
#[cfg(test)]
mod devices;
#[cfg(test)]
mod drafts;
#[cfg(test)]
mod forms;
#[cfg(test)]
mod levels;
#[cfg(test)]
mod same;
