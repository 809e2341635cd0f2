//! What keeps an object of a template text from being what it is to be.

use fast_written::is_name;
use fast_written::shape::{
    CHARSETS, KINDS, Need, OPERATORS, PRESENCES, Row, Shape, Word, form_of_kind, is_shape,
    kind_of_charset, operator_named, presence_of_word, row_keys, row_of_form, text_of_word,
};
use serde_json::Value;

/// What is wrong with an object.
#[derive(Clone, Copy)]
pub enum Wrong<'a> {
    /// It is no object.
    NoObject,
    /// A key is not there that has to be.
    Missing(Word),
    /// A key is there that objects of its kind do not have.
    Unknown(&'a str, Row),
    /// The value under a key is of another type.
    NotOfShape(Word, Shape),
    /// The text under a key is none of these words.
    NoWord(Word, &'a str, &'static [&'static str]),
    /// The text under a key is no name.
    NoName(Word),
    /// A key says more of an operator, and there is none.
    NoOperator(Word),
    /// A key stands beside an exponent or a mantissa, which have their own.
    BesideParts(Word),
}

/// What is wrong with an object, or with one that stands in it under a key.
#[derive(Clone, Copy)]
pub struct Misfit<'a> {
    pub within: Option<Word>,
    pub wrong: Wrong<'a>,
}

fn text_at<'a>(object: &'a Value, word: Word) -> Option<&'a str> {
    object.get(text_of_word(word)).and_then(Value::as_str)
}

fn has(object: &Value, word: Word) -> bool {
    object.get(text_of_word(word)).is_some()
}

/// The row of a key among those of a kind of object.
fn rule_of_key(row: Row, key: &str) -> Option<(Word, Shape)> {
    for rule in row_keys(row) {
        if text_of_word(rule.0) == key {
            return Some((rule.0, rule.1));
        }
    }
    None
}

/// A key that is unknown, or whose value is of another type.
fn wrong_key(row: Row, object: &Value) -> Option<Wrong<'_>> {
    let Value::Object(members) = object else {
        return Some(Wrong::NoObject);
    };
    for (key, value) in members.iter() {
        match rule_of_key(row, key.as_str()) {
            None => return Some(Wrong::Unknown(key.as_str(), row)),
            Some((word, shape)) if !is_shape(shape, value) => {
                return Some(Wrong::NotOfShape(word, shape));
            }
            Some(_) => {}
        }
    }
    None
}

/// A key that is not there.
fn missing_key(row: Row, object: &Value) -> Option<Wrong<'_>> {
    for rule in row_keys(row) {
        if matches!(rule.2, Need::Needed) && !has(object, rule.0) {
            return Some(Wrong::Missing(rule.0));
        }
    }
    None
}

/// A text that is to be a name and is none.
fn wrong_name(object: &Value) -> Option<Wrong<'_>> {
    for word in [Word::Name, Word::Key, Word::Dictionary, Word::TypeRef] {
        if let Some(text) = text_at(object, word)
            && !is_name(text)
        {
            return Some(Wrong::NoName(word));
        }
    }
    None
}

/// A text that is to be one of some words and is none.
fn wrong_word(object: &Value) -> Option<Wrong<'_>> {
    if let Some(text) = text_at(object, Word::Presence)
        && presence_of_word(text).is_none()
    {
        return Some(Wrong::NoWord(Word::Presence, text, &PRESENCES));
    }
    if let Some(text) = text_at(object, Word::Charset)
        && kind_of_charset(text).is_none()
    {
        return Some(Wrong::NoWord(Word::Charset, text, &CHARSETS));
    }
    if let Some(text) = text_at(object, Word::Operator)
        && operator_named(text).is_none()
    {
        return Some(Wrong::NoWord(Word::Operator, text, &OPERATORS));
    }
    None
}

/// A key that says more of an operator where there is none.
fn wrong_operation(object: &Value) -> Option<Wrong<'_>> {
    if has(object, Word::Operator) {
        return None;
    }
    for word in [Word::Value, Word::Dictionary, Word::Key] {
        if has(object, word) {
            return Some(Wrong::NoOperator(word));
        }
    }
    None
}

/// What is wrong with an object that has these keys.
fn wrong_in(row: Row, object: &Value) -> Option<Wrong<'_>> {
    wrong_key(row, object)
        .or(missing_key(row, object))
        .or(wrong_word(object))
        .or(wrong_name(object))
}

fn whole(wrong: Wrong<'_>) -> Misfit<'_> {
    Misfit {
        within: None,
        wrong,
    }
}

/// What is wrong with an exponent, a mantissa or a length, where it is there.
fn misfit_of_part(object: &Value, word: Word, row: Row) -> Option<Misfit<'_>> {
    let part = object.get(text_of_word(word))?;
    match wrong_in(row, part).or(wrong_operation(part)) {
        Some(wrong) => Some(Misfit {
            within: Some(word),
            wrong,
        }),
        None => None,
    }
}

/// What is wrong with a decimal that has parts.
fn misfit_of_parts(object: &Value) -> Option<Misfit<'_>> {
    for word in [Word::Operator, Word::Value, Word::Dictionary, Word::Key] {
        if has(object, word) {
            return Some(whole(Wrong::BesideParts(word)));
        }
    }
    misfit_of_part(object, Word::Exponent, Row::Part).or(misfit_of_part(
        object,
        Word::Mantissa,
        Row::Part,
    ))
}

/// What is wrong with the operator of an instruction, wherever it stands.
fn misfit_of_operation(row: Row, object: &Value) -> Option<Misfit<'_>> {
    match row {
        Row::Decimal if has(object, Word::Exponent) || has(object, Word::Mantissa) => {
            misfit_of_parts(object)
        }
        Row::Field | Row::Text | Row::Decimal => match wrong_operation(object) {
            Some(wrong) => Some(whole(wrong)),
            None => None,
        },
        Row::Sequence => misfit_of_part(object, Word::Length, Row::Length),
        _ => None,
    }
}

/// What is wrong with an instruction, but for those in it.
pub fn misfit_of_instruction(value: &Value) -> Option<Misfit<'_>> {
    if !value.is_object() {
        return Some(whole(Wrong::NoObject));
    }
    let Some(kind) = value.get(text_of_word(Word::Kind)) else {
        return Some(whole(Wrong::Missing(Word::Kind)));
    };
    let Some(text) = kind.as_str() else {
        return Some(whole(Wrong::NotOfShape(Word::Kind, Shape::Text)));
    };
    let Some(form) = form_of_kind(text) else {
        return Some(whole(Wrong::NoWord(Word::Kind, text, &KINDS)));
    };
    let row = row_of_form(form);
    match wrong_in(row, value) {
        Some(wrong) => Some(whole(wrong)),
        None => misfit_of_operation(row, value),
    }
}

/// What is wrong with a template, but for its instructions.
pub fn misfit_of_template(value: &Value) -> Option<Misfit<'_>> {
    match wrong_in(Row::Template, value) {
        Some(wrong) => Some(whole(wrong)),
        None => None,
    }
}

/// What is wrong with the object that a template text is, but for its templates.
pub fn misfit_of_top(value: &Value) -> Option<Misfit<'_>> {
    match wrong_in(Row::Top, value) {
        Some(wrong) => Some(whole(wrong)),
        None => None,
    }
}
