//! The writer of canonical bytes.
//!
//! Of all forms of a message one is canonical: each field in the form that comes first, each map as short as it can be,
//! and no bit set that no instruction asks for. `specs/Canonical` says so over the definitions of `fast_stream`.
//! [`Writer`] is a receiver of `fast_stream`'s traversal: it writes the canonical bytes of messages as they are read.
//! [`Segment`] is one segment that is being written.
#![tactic(auto)]

mod count;
mod fields;
mod laws;
mod relay;
mod run;
mod segment;
mod writer;

pub use laws::canonical_bytes_carry;
pub use segment::Segment;
pub use writer::Writer;
