//! What the objects of a template text may hold, for those who say what is wrong with one.

pub use crate::from_data::{
    CHARSETS, Form, KINDS, OPERATORS, PRESENCES, form_of_kind, kind_of_charset, operator_named,
    presence_of_word, row_of_form,
};
pub use crate::profile::{Need, Row, Shape, Word, is_shape, row_keys, text_of_word};
