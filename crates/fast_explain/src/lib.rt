//! What a refusal means, in plain words, and what to do about it.
//!
//! Nothing is judged here. [`Notes`] keeps what is known of a refusal beside its line, [`Seen`] the bytes of a stream that
//! this needs, and [`explain`] says it.
#![tactic(auto)]

mod hex_text;
mod looks;
mod meaning;
mod misfit;
mod misfit_text;
mod names;
mod no_json;
mod notes;
mod place;
mod said;
mod seen;
mod template_text;

pub use notes::{Notes, ReadAs};
pub use said::{Files, explain};
pub use seen::Seen;
