//! What the objects of a template text may hold: a table with a row for each kind of object.

ghost use Rattle.std.specs.Prelude.{◌≡◌};
ghost use Rattle.json.specs.Value.{members_view};
ghost use Rattle.serde_json.specs.View.{view};
ghost use Rattle.fast_written.specs.JsonData.{all_known, all_met, data_in, knows as knows_of, meets as meets_of};
ghost use Rattle.fast_written.specs.Profile.{allows as allows_of, fits as fits_of, is_needed as is_needed_of, is_of, row_of, word_text};

use crate::data::{member, text, whole_number};
use json::Value as Json;
use serde_json::Value;

/// How many identifiers there are: each is below it.
pub(crate) const IDENTIFIERS: u64 = 1 << 32;

/// A key.
#[derive(Clone, Copy)]
pub enum Word {
    Templates,
    Dictionary,
    Name,
    Id,
    TypeRef,
    Instructions,
    Kind,
    Presence,
    Charset,
    Operator,
    Value,
    Key,
    Exponent,
    Mantissa,
    Length,
}

/// What the value under a key is.
#[derive(Clone, Copy)]
pub enum Shape {
    Text,
    /// A whole number of 32 bits, in digits alone.
    Whole,
    Array,
    Object,
}

/// A kind of object.
#[derive(Clone, Copy)]
pub enum Row {
    Top,
    Template,
    Field,
    Text,
    Decimal,
    Group,
    Sequence,
    Reference,
    /// An exponent or a mantissa.
    Part,
    Length,
}

/// Whether an object of a kind has to have a key.
#[derive(Clone, Copy)]
pub enum Need {
    Needed,
    Allowed,
}

const TOP: [(Word, Shape, Need); 2] = [
    (Word::Templates, Shape::Array, Need::Needed),
    (Word::Dictionary, Shape::Text, Need::Allowed),
];

const TEMPLATE: [(Word, Shape, Need); 5] = [
    (Word::Name, Shape::Text, Need::Needed),
    (Word::Instructions, Shape::Array, Need::Needed),
    (Word::Id, Shape::Whole, Need::Allowed),
    (Word::Dictionary, Shape::Text, Need::Allowed),
    (Word::TypeRef, Shape::Text, Need::Allowed),
];

const FIELD: [(Word, Shape, Need); 7] = [
    (Word::Kind, Shape::Text, Need::Needed),
    (Word::Name, Shape::Text, Need::Needed),
    (Word::Presence, Shape::Text, Need::Allowed),
    (Word::Operator, Shape::Text, Need::Allowed),
    (Word::Value, Shape::Text, Need::Allowed),
    (Word::Dictionary, Shape::Text, Need::Allowed),
    (Word::Key, Shape::Text, Need::Allowed),
];

const TEXT: [(Word, Shape, Need); 8] = [
    (Word::Kind, Shape::Text, Need::Needed),
    (Word::Name, Shape::Text, Need::Needed),
    (Word::Presence, Shape::Text, Need::Allowed),
    (Word::Charset, Shape::Text, Need::Allowed),
    (Word::Operator, Shape::Text, Need::Allowed),
    (Word::Value, Shape::Text, Need::Allowed),
    (Word::Dictionary, Shape::Text, Need::Allowed),
    (Word::Key, Shape::Text, Need::Allowed),
];

const DECIMAL: [(Word, Shape, Need); 9] = [
    (Word::Kind, Shape::Text, Need::Needed),
    (Word::Name, Shape::Text, Need::Needed),
    (Word::Presence, Shape::Text, Need::Allowed),
    (Word::Operator, Shape::Text, Need::Allowed),
    (Word::Value, Shape::Text, Need::Allowed),
    (Word::Dictionary, Shape::Text, Need::Allowed),
    (Word::Key, Shape::Text, Need::Allowed),
    (Word::Exponent, Shape::Object, Need::Allowed),
    (Word::Mantissa, Shape::Object, Need::Allowed),
];

const GROUP: [(Word, Shape, Need); 6] = [
    (Word::Kind, Shape::Text, Need::Needed),
    (Word::Name, Shape::Text, Need::Needed),
    (Word::Instructions, Shape::Array, Need::Needed),
    (Word::Presence, Shape::Text, Need::Allowed),
    (Word::Dictionary, Shape::Text, Need::Allowed),
    (Word::TypeRef, Shape::Text, Need::Allowed),
];

const SEQUENCE: [(Word, Shape, Need); 7] = [
    (Word::Kind, Shape::Text, Need::Needed),
    (Word::Name, Shape::Text, Need::Needed),
    (Word::Instructions, Shape::Array, Need::Needed),
    (Word::Presence, Shape::Text, Need::Allowed),
    (Word::Dictionary, Shape::Text, Need::Allowed),
    (Word::TypeRef, Shape::Text, Need::Allowed),
    (Word::Length, Shape::Object, Need::Allowed),
];

const REFERENCE: [(Word, Shape, Need); 2] = [
    (Word::Kind, Shape::Text, Need::Needed),
    (Word::Name, Shape::Text, Need::Needed),
];

const PART: [(Word, Shape, Need); 4] = [
    (Word::Operator, Shape::Text, Need::Allowed),
    (Word::Value, Shape::Text, Need::Allowed),
    (Word::Dictionary, Shape::Text, Need::Allowed),
    (Word::Key, Shape::Text, Need::Allowed),
];

const LENGTH: [(Word, Shape, Need); 5] = [
    (Word::Name, Shape::Text, Need::Allowed),
    (Word::Operator, Shape::Text, Need::Allowed),
    (Word::Value, Shape::Text, Need::Allowed),
    (Word::Dictionary, Shape::Text, Need::Allowed),
    (Word::Key, Shape::Text, Need::Allowed),
];

/// The keys of a kind of object, each with what stands under it and whether it has to be there.
pub fn row_keys(row: Row) -> &'static [(Word, Shape, Need)]
    ensures { result.now ≡ row_of row }
{
    match row {
        Row::Top => &TOP,
        Row::Template => &TEMPLATE,
        Row::Field => &FIELD,
        Row::Text => &TEXT,
        Row::Decimal => &DECIMAL,
        Row::Group => &GROUP,
        Row::Sequence => &SEQUENCE,
        Row::Reference => &REFERENCE,
        Row::Part => &PART,
        Row::Length => &LENGTH,
    }
}

/// A key's text.
pub fn text_of_word(word: Word) -> &'static str
    ensures { result.now ≡ word_text word }
{
    match word {
        Word::Templates => "templates",
        Word::Dictionary => "dictionary",
        Word::Name => "name",
        Word::Id => "id",
        Word::TypeRef => "typeRef",
        Word::Instructions => "instructions",
        Word::Kind => "kind",
        Word::Presence => "presence",
        Word::Charset => "charset",
        Word::Operator => "operator",
        Word::Value => "value",
        Word::Key => "key",
        Word::Exponent => "exponent",
        Word::Mantissa => "mantissa",
        Word::Length => "length",
    }
}

/// Whether a value has a shape.
pub fn is_shape(shape: Shape, value: &Value) -> bool
    ensures { result ≡ is_of shape (view value.now) }
{
    match shape {
        Shape::Text => value.is_string(),
        Shape::Whole => value.as_u64().is_some_and(|number| number < IDENTIFIERS),
        Shape::Array => value.is_array(),
        Shape::Object => value.is_object(),
    }
}

// Whether JSON has a shape.
fn has_shape(shape: Shape, value: &Json<'_>) -> bool
    ensures { result ≡ is_of shape (data_in value.now) }
{
    match shape {
        Shape::Text => text(value).is_some(),
        Shape::Whole => whole_number(value).is_some_and(|number| number < IDENTIFIERS),
        Shape::Array => match value {
            Json::Array(_) => true,
            _ => false,
        },
        Shape::Object => match value {
            Json::Object(_) => true,
            _ => false,
        },
    }
}

fn allows(row: Row, key: &str, value: &Json<'_>) -> bool
    ensures { result ≡ allows_of row key.now (data_in value.now) }
{
    row_keys(row).iter().any(|rule| text_of_word(rule.0) == key && has_shape(rule.1, value))
}

fn knows(row: Row, key: &str) -> bool
    ensures { result ≡ knows_of row key.now }
{
    row_keys(row).iter().any(|rule| text_of_word(rule.0) == key)
}

// Whether a row has each key of an object.
fn knows_all(row: Row, members: &[(&str, Json<'_>)]) -> bool
    ensures { result ≡ all_known row (members_view members.now) }
{
    for member in members {
        if !knows(row, member.0) {
            return false;
        }
    }
    true
}

fn is_needed(need: Need) -> bool
    ensures { result ≡ is_needed_of need }
{
    match need {
        Need::Needed => true,
        Need::Allowed => false,
    }
}

// Whether what stands under a key of a row may stand there; of a key that stands twice in an object the last counts.
fn meets(row: Row, word: Word, need: Need, object: &Json<'_>) -> bool
    ensures { result ≡ meets_of row word need (data_in object.now) }
{
    match member(object, word) {
        Some(value) => allows(row, text_of_word(word), value),
        None => !is_needed(need),
    }
}

fn meets_all(row: Row, object: &Json<'_>) -> bool
    ensures { result ≡ all_met row (data_in object.now) }
{
    row_keys(row)
        .iter()
        .all(|rule| meets(row, rule.0, rule.2, object))
}

/// Whether JSON is an object with the keys of its row: none that the row has not, each of its type, and those that
/// are needed.
pub(crate) fn fits(row: Row, value: &Json<'_>) -> bool
    ensures { result ≡ fits_of row (data_in value.now) }
{
    match value {
        Json::Object(members) => knows_all(row, members) && meets_all(row, value),
        _ => false,
    }
}
