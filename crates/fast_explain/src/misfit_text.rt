//! What is wrong with an object of a template text, in a sentence.

use crate::misfit::{Misfit, Wrong};
use fast_written::shape::{Row, Shape, row_keys, text_of_word};
use std::alloc::{AllocError, Global};
use strsim::levenshtein;

/// Words that lie farther off than this are not named.
const FAR: usize = 3;

/// How far one word is from another: none where they differ in case alone.
fn distance(alloc: Global, word: &str, other: &str) -> Result<usize, AllocError> {
    if word.eq_ignore_ascii_case(other) {
        return Ok(0);
    }
    levenshtein(alloc, word, other)
}

/// The nearest of some words, as they come.
#[derive(Clone, Copy)]
struct Nearest {
    least: usize,
    word: Option<&'static str>,
}

impl Nearest {
    /// None yet. A word that has nothing in common with another is not near it.
    fn to(word: &str) -> Nearest {
        Nearest {
            least: FAR.saturating_add(1).min(word.len()),
            word: None,
        }
    }

    /// Looks at one word more.
    fn or(self, alloc: Global, word: &str, other: &'static str) -> Result<Nearest, AllocError> {
        let least = distance(alloc, word, other)?;
        Ok(if least < self.least {
            Nearest {
                least,
                word: Some(other),
            }
        } else {
            self
        })
    }
}

/// Of these words the one that is nearest to another, if it is near.
fn nearest_word(
    alloc: Global,
    word: &str,
    words: &[&'static str],
) -> Result<Option<&'static str>, AllocError> {
    let mut nearest = Nearest::to(word);
    for other in words {
        nearest = nearest.or(alloc, word, other)?;
    }
    Ok(nearest.word)
}

/// Of the keys that objects of a kind have the one that is nearest to another, if it is near.
fn nearest_key(alloc: Global, key: &str, row: Row) -> Result<Option<&'static str>, AllocError> {
    let mut nearest = Nearest::to(key);
    for rule in row_keys(row) {
        nearest = nearest.or(alloc, key, text_of_word(rule.0))?;
    }
    Ok(nearest.word)
}

/// A sentence with the nearest word behind it.
fn with_nearest(alloc: Global, sentence: String, word: Option<&str>) -> Result<String, AllocError> {
    match word {
        Some(word) => {
            let sentence = sentence.as_str();
            format!(in alloc; "{sentence}; the nearest is {word:?}")
        }
        None => Ok(sentence),
    }
}

/// What a value of a shape is called.
fn shape_text(shape: Shape) -> &'static str {
    match shape {
        Shape::Text => "a string",
        Shape::Whole => "a whole number from 0 to 4294967295, in digits alone",
        Shape::Array => "an array",
        Shape::Object => "an object",
    }
}

/// What is wrong with an object.
fn wrong_text(alloc: Global, wrong: Wrong<'_>) -> Result<String, AllocError> {
    match wrong {
        Wrong::NoObject => String::from_str(alloc, "it is no object"),
        Wrong::Missing(key) => {
            let key = text_of_word(key);
            format!(in alloc; "the key {key:?} is missing")
        }
        Wrong::Unknown(key, row) => {
            let near = nearest_key(alloc, key, row)?;
            with_nearest(
                alloc,
                format!(in alloc; "the key {key:?} is unknown there")?,
                near,
            )
        }
        Wrong::NotOfShape(key, shape) => {
            let key = text_of_word(key);
            let shape = shape_text(shape);
            format!(in alloc; "{key:?} is to be {shape}")
        }
        Wrong::NoWord(key, word, words) => {
            let key = text_of_word(key);
            let near = nearest_word(alloc, word, words)?;
            with_nearest(alloc, format!(in alloc; "{word:?} is no {key}")?, near)
        }
        Wrong::NoName(key) => {
            let key = text_of_word(key);
            format!(in alloc; "{key:?} is no name, which is 1 to 255 characters from ! to ~")
        }
        Wrong::NoOperator(key) => {
            let key = text_of_word(key);
            format!(in alloc; "{key:?} stands without \"operator\"")
        }
        Wrong::BesideParts(key) => {
            let key = text_of_word(key);
            format!(in alloc;
                "{key:?} stands beside \"exponent\" or \"mantissa\", which have their own"
            )
        }
    }
}

/// What is wrong with an object, or with one in it.
pub fn misfit_text(alloc: Global, misfit: Misfit<'_>) -> Result<String, AllocError> {
    let wrong = wrong_text(alloc, misfit.wrong)?;
    match misfit.within {
        Some(within) => {
            let within = text_of_word(within);
            let wrong = wrong.as_str();
            format!(in alloc; "in {within:?}, {wrong}")
        }
        None => Ok(wrong),
    }
}
