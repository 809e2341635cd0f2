//! The tests of fast_recording.
#![tactic(auto)]

#[cfg(test)]
mod canonical;
#[cfg(test)]
mod cuts;
#[cfg(test)]
mod going_on;
#[cfg(test)]
mod packets;
#[cfg(test)]
mod refusals;
#[cfg(test)]
mod runs;
