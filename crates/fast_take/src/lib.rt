//! A field is taken here, in one place: whatever it is, its value, its entry afterwards and its best form are told.
//!
//! [`take`] reads a field that begins at a place, makes its entry the one afterwards, and says what became of it ([`Took`]):
//! its best form is what was read, or bit 0, or another one, which stands aside with what no entry keeps ([`Aside`]); who
//! knows the field's bit calls [`take_sent`] or [`take_left_out`].
//! [`Aside::value`] gives the value from where it lies, by way of a [`Room`] where nothing has it as a value.
//! `specs/Takes` says what it is to have taken a field.
//!
//! Who needs no value calls [`judge_sent`], which lays none aside, and [`relay_judged`] where the field does not stand.
//!
//! Most fields are taken at once, with no value in between, and nothing is written: [`pass_quickly`] takes what bit 0 gives.
//! What was sent is judged as it stands, whether its bytes are its best form or nearly so, or bit 0 is ([`Judged`]); NULL, and
//! an ASCII string that was sent as a difference, may be best spelled otherwise. Numbers in one byte have ways of their own
//! ([`read_short_length`], [`take_short_number`]). Behind all stands a way that takes whatever was sent.
//!
//! What a field's forms are is defined in `fast_field`; `specs/Relayed` says what it is to have read one at once, and what its
//! best form is, `specs/Judged` to have judged one as it stands, `specs/Best` otherwise.
//!
//! Module `field` chooses the way. At once go `passed`, `one_byte`, `null`, `respelled`, `judged` and what is named for it by
//! type, and `at_once` tells what was judged there; `taken_integer`, `taken_decimal`, `taken_vector` and `general` take what
//! those leave. The others read and keep what these ask for.
#![tactic(auto)]

mod at_once;
mod best;
mod characters;
mod constant;
mod copied;
mod cut;
mod field;
mod general;
mod given;
mod integers;
mod judged;
mod judged_decimal;
mod judged_string;
mod judged_vector;
mod null;
mod one_byte;
mod passed;
mod plain;
mod respelled;
mod short_number;
mod taken_decimal;
mod taken_integer;
mod taken_vector;
mod took;
mod utf8;
mod value;
mod vector_units;
mod words;

pub use constant::is_always_there;
pub use field::{judge_sent, relay_judged, take, take_sent};
pub use general::take_left_out;
pub use judged::Judged;
pub use one_byte::{read_short_length, take_short_number};
pub use passed::pass_quickly;
pub use took::{Aside, Took, Unkept};
pub use value::Room;
