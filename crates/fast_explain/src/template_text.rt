//! What is known of a template text that is refused.

use crate::misfit::{misfit_of_instruction, misfit_of_template, misfit_of_top};
use crate::misfit_text::misfit_text;
use crate::names::{Names, member_in_text, names_in_text, template_in_text};
use crate::no_json::{NoJson, no_json};
use crate::place::{LineColumn, place_in};
use fast_written::{LoadCause, LoadFault};
use serde_json::Value;
use std::alloc::{AllocError, Global};
use std::str::from_utf8;

/// What is known of a template text that is refused.
#[derive(Drop)]
pub struct TextNotes {
    /// Where its first byte stands that is no UTF-8.
    pub no_text: Option<LineColumn>,
    /// Where it is no JSON.
    pub no_json: Option<NoJson>,
    /// The names of the template and the instruction at fault.
    pub names: Names,
    /// Where the object at fault begins.
    pub place: Option<LineColumn>,
    /// What is wrong with its shape.
    pub misfit: Option<String>,
}

impl TextNotes {
    /// Nothing.
    pub fn unknown() -> TextNotes {
        TextNotes {
            no_text: None,
            no_json: None,
            names: Names::unknown(),
            place: None,
            misfit: None,
        }
    }
}

/// What is wrong with the shape of the object that a fault names.
fn misfit_of(alloc: Global, value: &Value, fault: LoadFault) -> Result<Option<String>, AllocError> {
    let misfit = match (fault.template, fault.instruction) {
        (0, _) => misfit_of_top(value),
        (place, 0) => template_in_text(value, place).and_then(misfit_of_template),
        (place, number) => {
            member_in_text(alloc, value, place, number)?.and_then(misfit_of_instruction)
        }
    };
    match misfit {
        Some(misfit) => Ok(Some(misfit_text(alloc, misfit)?)),
        None => Ok(None),
    }
}

/// What is known of refused templates whose text is JSON.
fn notes_of_json(
    alloc: Global,
    fault: LoadFault,
    text: &str,
    value: &Value,
) -> Result<TextNotes, AllocError> {
    let misfit = match fault.cause {
        LoadCause::S1 => misfit_of(alloc, value, fault)?,
        _ => None,
    };
    Ok(TextNotes {
        no_text: None,
        no_json: None,
        names: names_in_text(alloc, value, fault.template, fault.instruction)?,
        place: place_in(alloc, text, fault.template, fault.instruction)?,
        misfit,
    })
}

/// What is known of the text of refused templates.
pub fn notes_of_text(
    alloc: Global,
    fault: LoadFault,
    bytes: &[u8],
) -> Result<TextNotes, AllocError> {
    match from_utf8(bytes) {
        Ok(text) => match Value::from_str(alloc, text) {
            Ok(value) => notes_of_json(alloc, fault, text, &value),
            Err(error) => Ok(TextNotes {
                no_json: Some(no_json(bytes, &error)),
                ..TextNotes::unknown()
            }),
        },
        Err(error) => Ok(TextNotes {
            no_text: Some(LineColumn::of_offset(bytes, error.valid_up_to())),
            ..TextNotes::unknown()
        }),
    }
}
