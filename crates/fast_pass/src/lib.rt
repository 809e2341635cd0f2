//! Streams on their way through an output: what it makes of the messages of one is handed on.
//!
//! [`pass_through`] is the one way from a reader to a writer, for any output of `fast_walk`. `specs/Passed` says what is
//! answered, `specs/Relays` how a stream on its way stands to the bytes read and to those handed on.
#![tactic(auto)]

mod fault;
mod relay;
mod stop;
mod summary;

pub use fault::CanonFault;
pub use relay::{hand_on, pass_through, take_in};
pub use stop::Stop;
pub use summary::Summary;
