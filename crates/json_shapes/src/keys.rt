//! The keys of an object.
ghost use Rattle.std.specs.Prelude.{◌≡◌, map, string_bytes};
ghost use Rattle.std.specs.BTreeMap.{keys as map_keys};
ghost use Rattle.std.specs.List.{list_all, list_any};
ghost use Rattle.std.specs.Str.{bytes_eq};
ghost use Rattle.serde_json.specs.View.{view};
ghost use Rattle.json_shapes.specs.Keys.{has_only};

use serde_json::{Map, Value};

fn is_key(keys: &[&str], key: &str) -> bool
    ensures { result ≡ list_any (λ k. bytes_eq k.now key.now) keys.now }
{
    keys.iter().any(|listed| *listed == key)
}

fn are_keys(keys: &[&str], members: &Map<String, Value>) -> bool
    ensures { result ≡ list_all (λ key. list_any
        (λ k. bytes_eq k.now (string_bytes key)) keys.now) (map_keys members.now) }
{
    members.keys().all(|key| is_key(keys, key.as_str()))
}

/// Whether the value is an object with no other keys.
pub fn has_only(value: &Value, keys: &[&str]) -> bool
    ensures { result ≡ has_only (map (λ k. k.now) keys.now) (view value.now) }
{
    match value.as_object() {
        Some(members) => are_keys(keys, members),
        None => false,
    }
}
