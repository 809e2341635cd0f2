//! Canonical recordings, and the laws of recordings that stand on canonical bytes.
//!
//! The canonical recording of packets has each packet's canonical bytes behind their shortest size
//! (`specs/CanonicalRecordings`). Two recordings that are accepted carry the same messages, packet by packet, exactly if
//! their canonical recordings are the same bytes.
#![tactic(auto)]

pub mod laws;
