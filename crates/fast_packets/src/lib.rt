//! Recordings: packets, each a stream of its own.
//!
//! In most feeds every datagram begins with undefined entries. A recording of one is packets one behind the other, each a
//! size and as many bytes, and each packet is a stream of its own. `specs/Recordings` says what a recording carries and
//! what its canonical recording is, `specs/Outcomes` what comes of each packet and why one is refused; `laws` joins them.
#![tactic(auto)]

pub mod laws;
