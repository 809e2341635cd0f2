//! The walk over the pieces of one message, whatever is done with what is read.
//!
//! A [`Receiver`] is handed each piece, and an [`Output`] makes bytes of what it is handed. A [`Walk`] goes through the open segments of a message, and a [`Traversal`]
//! reads the map and the identifier in front of them; both stop anywhere and go on where they stopped.
//! The definitions stand in `specs/`: what is still to be done with a message that has begun (`OpenSegments`), what a
//! receiver has (`Received`), and what a walk and a traversal answer (`Walks`, `Traversals`).
//! The calls of a traversal are for `fast_machine`, which runs one over a stream that comes in chunks.
//!
//! The walk looks at no value. A receiver that keeps what it is handed takes of an identifier, a length, an exponent or a
//! mantissa the number that it is from the bytes ([`take_identifier`] and its kin; `specs/PartTaking`).
#![tactic(auto)]

mod bits;
mod halt;
mod lack;
mod last;
mod leveled;
mod output;
mod part;
mod receiver;
mod traversal;
mod walk;

pub use bits::{first_for, take_for};
pub use halt::{Halt, HaltedBy, wire_cause};
pub use lack::{Lack, has_stop};
pub use leveled::{Leveled, Strictly, Usually};
pub use output::{MANY, Output};
pub use part::{take_exponent, take_identifier, take_length, take_mantissa};
pub use receiver::{Fields, Receiver};
pub use traversal::{Stage, Traversal};
pub use walk::{Frame, Inside, Next, Sequel, Walk};
