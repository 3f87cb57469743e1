//! The parts of a JSON object by their keys.
ghost use Rattle.std.specs.Prelude.{◌≡◌, ◌↔◌, IsTrue, option_map, option_and_then};
ghost use Rattle.serde_json.specs.View.{view, items_view};
ghost use Rattle.serde_json.specs.Find.{get, as_array, as_bool};
ghost use Rattle.json_fields.specs.Fields.{HasKeys, text_at, number_at};

use serde_json::Value;

/// Whether it is an object with `count` keys.
pub fn has_keys(value: &Value, count: usize) -> bool
    ensures { IsTrue result ↔ HasKeys (view value.now) count }
{
    let Some(map) = value.as_object() else {
        return false;
    };
    map.len() == count
}

/// The value at that key.
pub fn value_at<'v>(value: &'v Value, key: &str) -> Option<&'v Value>
    ensures { option_map (λ v. view v.now) result ≡ get key.now (view value.now) }
{
    value.get(key)
}

/// The whole number at that key.
pub fn number_at(value: &Value, key: &str) -> Option<u64>
    ensures { result ≡ number_at key.now (view value.now) }
{
    value.get(key).and_then(Value::as_u64)
}

/// The text at that key.
pub fn text_at<'v>(value: &'v Value, key: &str) -> Option<&'v str>
    ensures { option_map (λ s. s.now) result ≡ text_at key.now (view value.now) }
{
    value.get(key).and_then(Value::as_str)
}

/// The array at that key.
pub fn list_at<'v>(value: &'v Value, key: &str) -> Option<&'v Vec<Value>>
    ensures { option_map (λ v. items_view v.now.items) result
        ≡ option_and_then as_array (get key.now (view value.now)) }
{
    value.get(key).and_then(Value::as_array)
}

/// The truth value at that key.
pub fn bool_at(value: &Value, key: &str) -> Option<bool>
    ensures { result ≡ option_and_then as_bool (get key.now (view value.now)) }
{
    value.get(key).and_then(Value::as_bool)
}
