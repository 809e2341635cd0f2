//! The bytes of a message that is open, behind those of the messages that ended, in one buffer.
//!
//! A presence map was read before the fields whose bits it has. [`Draft`] lets the map of each segment stand as it was read, and
//! mends it in place where the canonical one differs: a bit is cleared when its field is written without it, and a map is cut
//! when its segment ends. What is written so ends with each map as short as it can be.
#![tactic(auto)]

mod draft;
mod level;
mod map;

pub use draft::Draft;
