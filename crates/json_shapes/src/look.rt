//! What a JSON value has under a key.
ghost use Rattle.std.specs.Prelude.{◌≡◌, is_some, map, option_map, position};
ghost use Rattle.std.specs.Str.{bytes_eq};
ghost use Rattle.serde_json.specs.Find.{get};
ghost use Rattle.serde_json.specs.View.{view};
ghost use Rattle.json_shapes.specs.Look.{listed_in, number_at, text_at, list_at, slot_at};

use code_units::{Text, is_word};
use serde_json::Value;

/// Whether the value has something under a key.
pub fn has_key(value: &Value, key: &str) -> bool
    ensures { result ≡ is_some (get key.now (view value.now)) }
{
    value.get(key).is_some()
}

/// The whole number under a key that is not below 0.
pub fn number_at(value: &Value, key: &str) -> Option<u64>
    ensures { result ≡ number_at key.now (view value.now) }
{
    value.get(key).and_then(Value::as_u64)
}

/// The text under a key.
pub fn text_at<'a>(value: &'a Value, key: &str) -> Option<&'a str>
    ensures { option_map (λ s. s.now) result ≡ text_at key.now (view value.now) }
{
    value.get(key).and_then(Value::as_str)
}

/// The values of a value that is a list.
pub fn list_in(value: &Value) -> Option<&[Value]>
    ensures { option_map (λ l. map view l.now) result ≡ listed_in (view value.now) }
{
    let Some(list) = value.as_array() else {
        return None;
    };
    Some(list.as_slice())
}

/// The list under a key.
pub fn list_at<'a>(value: &'a Value, key: &str) -> Option<&'a [Value]>
    ensures { option_map (λ l. map view l.now) result ≡ list_at key.now (view value.now) }
{
    let Some(found) = value.get(key) else {
        return None;
    };
    let Some(list) = found.as_array() else {
        return None;
    };
    Some(list.as_slice())
}

/// The place of a name among some.
pub fn place_of_name(text: &str, names: &[Text]) -> Option<usize>
    ensures { result ≡ position (λ name. bytes_eq name text.now) names.now }
{
    names.iter().position(|name| is_word(name, text.as_bytes()))
}

/// The number of the slot whose name stands under a key.
pub fn slot_at(value: &Value, key: &str, names: &[Text]) -> Option<usize>
    ensures { result ≡ slot_at key.now names.now (view value.now) }
{
    match text_at(value, key) {
        Some(text) => place_of_name(text, names),
        None => None,
    }
}
