//! The library for C: a stream in memory is canonicalised, checked or shown, lines are written, and a template text is checked.
//! The templates are a text, or are read once and kept behind a handle.
//!
//! `include/fastcat.h` at the top declares these functions for C, and docs/LIBRARY.md tells of them. Between calls nothing is
//! kept but what C has handles of, so that threads may call them side by side, each with handles of its own. What they do is
//! done by `fast_slices`.
#![tactic(auto)]

mod counts;
mod exports;
mod fields;
mod reader_exports;
mod readers;
mod set_exports;
mod sets;
mod sizes;
mod writer_exports;
mod writers;

pub use counts::NodeCounts;
pub use exports::{
    fastcat_canon, fastcat_check, fastcat_show, fastcat_templates, fastcat_version, fastcat_write,
};
pub use fast_kept::Handle;
pub use fast_layout::{Field, Sizes};
pub use fast_slices::{Answer, Refusal};
pub use fields::fastcat_set_fields;
pub use reader_exports::{
    fastcat_reader_feed, fastcat_reader_finish, fastcat_reader_free, fastcat_reader_new,
    fastcat_reader_packet, fastcat_reader_reset, fastcat_reader_take,
};
pub use set_exports::{
    fastcat_set_canon, fastcat_set_check, fastcat_set_free, fastcat_set_new, fastcat_set_share,
    fastcat_set_show, fastcat_set_write,
};
pub use sizes::fastcat_packet_size;
pub use writer_exports::{
    fastcat_writer_free, fastcat_writer_new, fastcat_writer_put, fastcat_writer_reset,
    fastcat_writer_take,
};
