//! What one instruction has in a stream: its forms, the entry that it leaves, and how it is read and written.
//!
//! A field is an instruction of a template (`FieldPart` of `fast_template`) on an entry of a dictionary.
//! [`read_field`] reads one and answers its value, the entry afterwards and the place after it. [`read_in_place`] is
//! for callers that keep the entries: it changes the entry where it lies, and copies no value. [`find_field`] changes
//! nothing. [`plan_field`] answers the bit and the bytes of the best form of a value and [`write_field`] appends it;
//! [`write_in_place`] does both and changes the entry too, and [`write_found`] does so with a value that was just read.
//! [`pass_left_out`] takes what bit 0 gives without a value in between, and [`pass_found`] answers where it lies. The rest
//! of what is public is for `fast_take`, which takes the most frequent fields at once, and for `fast_gaps`.
//! The definitions stand in `specs/`: the forms that spell a value (`Fields`, over `Spelled`, `Bases` and
//! `Deltas`), the form that a writer chooses (`Best`), and the function that reads a field from the front of a list
//! and answers its first fault (`FieldReading`). The module [`laws`] ties forms and reading together.
#![tactic(auto)]

mod afterwards;
mod base;
mod cut;
mod cut_at_end;
mod delta;
mod fault;
mod found;
mod integers;
pub mod laws;
mod left_out;
mod levels;
mod passed;
mod pieces;
mod plan;
mod read;
mod refuse;
mod string;
mod tail;
mod whole;
mod write;

pub use afterwards::next_entry;
pub use base::{base_decimal, base_of_delta, units};
pub use cut::best_cut;
pub use cut_at_end::{
    agrees_no_further, begins_otherwise, goes_on_otherwise, is_cut_at_end, is_vector_cut_at_end,
};
pub use delta::{Removal, sum_of_delta};
pub use fast_wire::Level;
pub use fault::{FieldFault, FieldRefusal};
pub use found::Found;
pub use integers::{is_field_number, kept_number, set_number};
pub use left_out::is_left_out;
pub use levels::reads_as_usual;
pub use passed::{Passed, fits, pass_found, pass_left_out};
pub use plan::{Plan, plan_field};
pub use read::{find_field, read_field, read_in_place};
pub use refuse::is_spellable;
pub use string::find_units;
pub use whole::{
    exponent_within, mantissa_within, read_integer, read_mantissa_entity, value_of_integer,
    value_of_units,
};
pub use write::{write_field, write_found, write_in_place};
