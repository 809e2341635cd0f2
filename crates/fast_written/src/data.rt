//! The data that JSON stands for: what `serde_json` reads, without its tree of values, which takes many times the memory.

ghost use Rattle.std.specs.Prelude.{None, Some, ◌≡◌, ◌<◌, ◌==◌, IfSome, IsTrue, false, is_some, length, option_and_then, option_map, slice_index, true};
ghost use Rattle.std.specs.Bool.{MatchBool};
ghost use Rattle.json.specs.Tree.{json_tokens};
ghost use Rattle.json.specs.Value.{items_view, members_view, value_view};
ghost use Rattle.serde_json.specs.Find.{as_number, as_str, as_u64, get};
ghost use Rattle.serde_json.specs.Read.{float_of, number_from, number_of, of_json};
ghost use Rattle.serde_json.specs.View.{number_view};
ghost use Rattle.fast_written.specs.JsonData.{data_in, items_fit as items_fit_of, members_fit as members_fit_of, numbers_fit as numbers_fit_of};
ghost use Rattle.fast_written.specs.Profile.{word_text};

use crate::profile::{Word, text_of_word};
use fast_float::Numeral;
use json::Value;
use serde_json::Number;

/// The number that a text is, where it is in range.
fn number(text: &str) -> Option<Number>
    ensures { option_map number_view result ≡ number_of text.now }
{
    let bytes = text.as_bytes();
    if has_minus(bytes) {
        negative(&Numeral::scan(&bytes[1..]))
    } else {
        unsigned(&Numeral::scan(bytes))
    }
}

fn has_minus(bytes: &[u8]) -> bool
    ensures value { result ≡ (slice_index bytes.now 0 == 45) }
    ensures len { IsTrue result → 0 < length bytes.now }
{
    !bytes.is_empty() && bytes[0] == b'-'
}

fn unsigned(numeral: &Numeral<'_>) -> Option<Number>
    ensures { option_map number_view result ≡ number_from false numeral.now }
{
    match numeral.to_u64() {
        Some(number) => Number::from_u128(u128::from(number)),
        None => nearest(false, numeral),
    }
}

fn negative(numeral: &Numeral<'_>) -> Option<Number>
    ensures { option_map number_view result ≡ number_from true numeral.now }
{
    match numeral.to_i64(true) {
        Some(number) if number < 0 => Number::from_i128(i128::from(number)),
        _ => nearest(true, numeral),
    }
}

// The nearest float, where there is one.
fn nearest(negative: bool, numeral: &Numeral<'_>) -> Option<Number>
    ensures { option_map number_view result ≡ float_of negative numeral.now }
{
    Number::from_f64(numeral.to_float::<f64>(negative))
}

/// What stands under a key.
pub(crate) fn member<'a, 'b>(object: &'b Value<'a>, word: Word) -> Option<&'b Value<'a>>
    ensures value { option_map (λ v. data_in v.now) result ≡ get (word_text word) (data_in object.now) }
    ensures smaller { IfSome result (λ v. length (json_tokens (value_view v.now))
        < length (json_tokens (value_view object.now))) }
{
    object.get(text_of_word(word))
}

/// The text that JSON is, where it is one.
#[tactic(auto, using(crate::proofs::DataLaws::as_str_is))]
pub(crate) fn text<'a>(value: &Value<'a>) -> Option<&'a str>
    ensures { option_map (λ s. s.now) result ≡ as_str (data_in value.now) }
{
    value.as_str()
}

/// The number that JSON is, where it is one in digits alone that 64 bits hold.
pub(crate) fn whole_number(value: &Value<'_>) -> Option<u64>
    ensures { result ≡ option_and_then as_u64 (as_number (data_in value.now)) }
{
    match value.as_number() {
        Some(text) => match number(text) {
            Some(number) => number.as_u64(),
            None => None,
        },
        None => None,
    }
}

/// Whether JSON is data to `serde_json`: each number in it is in range.
#[tactic(auto, using(crate::proofs::DataLaws::of_json_is))]
pub fn is_data(value: &Value<'_>) -> bool
    ensures { MatchBool result (of_json (value_view value.now) ≡ Some (data_in value.now))
        (of_json (value_view value.now) ≡ None) }
{
    numbers_fit(value)
}

// Whether each number is in range.
#[cycle(judges)]
fn numbers_fit(value: &Value<'_>) -> bool
    ensures { result ≡ numbers_fit_of (value_view value.now) }
{
    match value {
        Value::Null | Value::Bool(_) | Value::String(_) => true,
        Value::Number(text) => number(text).is_some(),
        Value::Array(items) => items_fit(items),
        Value::Object(members) => members_fit(members),
    }
}

#[cycle(judges)]
fn items_fit(items: &[Value<'_>]) -> bool
    ensures { result ≡ items_fit_of (items_view items.now) }
{
    for item in items {
        if !numbers_fit(item) {
            return false;
        }
    }
    true
}

#[cycle(judges)]
fn members_fit(members: &[(&str, Value<'_>)]) -> bool
    ensures { result ≡ members_fit_of (members_view members.now) }
{
    for member in members {
        if !numbers_fit(&member.1) {
            return false;
        }
    }
    true
}
