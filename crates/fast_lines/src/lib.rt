//! Messages of any template set as lines, of text or of JSON, and what a check says.
//!
//! [`push_line`] appends the line of a message that is at hand, [`push_ok_line`] what a check says that ended well. The
//! forms of a line are known by their signs ([`Signs`]). The rest of what is public is for `fast_gaps` and `fast_show`,
//! which write a line while its fields are read: values and strings ([`push_scalar`], [`push_quoted`]), and the [`Page`] that
//! a line is written to: what is short is laid out in the room behind its text, and its end moved once.
#![tactic(auto)]

mod bytes;
mod digits;
mod form;
mod lines;
mod page;
mod signs;
mod strings;
mod tail;

pub use form::{Form, JsonSigns, TextSigns};
pub use lines::{ShowFault, push_line, push_ok_line, push_scalar};
pub use page::{Page, Put};
pub use signs::{Escape, Signs};
pub use strings::{UNITS, all_stand, push_quoted};
