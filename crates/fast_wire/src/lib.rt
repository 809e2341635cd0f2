//! The byte forms of FAST 1.1: stop-bit entities, integers, ASCII strings, byte vectors, Unicode strings and
//! presence maps.
//!
//! A form is a list of bytes that spells a value (FAST 1.1, Transfer Encoding). A value may have many:
//! what is written here is the shortest, and what is read may be any of at most the stated length.
//! Each form is a relation between bytes and value in `specs/`, and beside it stands a function that
//! reads the form from the front of a list; the module [`laws`] ties the two together.
#![tactic(auto)]

mod ascii;
mod bits;
mod fault;
mod integer;
pub mod laws;
mod level;
mod map_builder;
mod nullable;
mod plain;
mod presence_map;
mod short_integer;
mod span;
mod stop_bit;
mod text;
mod vector;

pub use ascii::{
    fill_characters, find_ascii, find_ascii_nullable, read_ascii, read_ascii_nullable, size_ascii,
    size_ascii_nullable, write_ascii, write_ascii_nullable,
};
pub use fault::WireFault;
pub use integer::{
    read_signed, read_unsigned, size_signed, size_unsigned, write_signed, write_unsigned,
};
pub use level::{Level, overlong_ascii, overlong_map, overlong_signed, overlong_unsigned};
pub use map_builder::MapBuilder;
pub use nullable::{
    Nullable, read_signed_nullable, read_unsigned_nullable, size_signed_nullable,
    size_unsigned_nullable, write_signed_nullable, write_unsigned_nullable,
};
pub use plain::{is_text_of, plain_ascii_end};
pub use presence_map::{Bits, read_map, write_map};
pub use short_integer::{
    read_i64, read_i64_nullable, read_u64, read_u64_nullable, write_i64, write_i64_nullable,
    write_u64, write_u64_nullable,
};
pub use span::Span;
pub use stop_bit::{LANES, entity_end, find_stop, stop_free_run};
pub use text::check_text;
pub use vector::{
    find_vector, find_vector_nullable, read_vector, read_vector_nullable, size_vector,
    size_vector_nullable, write_vector, write_vector_nullable,
};
