//! Looks up members of a JSON object by their keys, and checks their form.
ghost use Rattle.std.specs.Prelude.{◌≡◌, ◌<◌, ◌^◌, ◌==◌, ◌&&◌, option_map, map};
ghost use Rattle.std.specs.List.{list_any};
ghost use Rattle.std.specs.Str.{bytes_eq};
ghost use Rattle.serde_json.specs.Find.{get, as_u64, as_i64, as_str, as_object};
ghost use Rattle.serde_json.specs.View.{view, members_view};
ghost use Rattle.script_chain_format.specs.Members as members;

use serde_json::{Map, Value};

/// Returns the number under a key, if it is a whole number from 0 to 2^64 - 1. Like each function here that looks up a
/// key, it returns `None` if the value is not an object or has no such key. All of them except `only_at`, which takes
/// any value, also return `None` if what is under the key is not such a number or text.
pub fn u64_at(value: &Value, key: &str) -> Option<u64>
    ensures { result ≡ members.u64_at key.now (view value.now) }
{
    value.get(key)?.as_u64()
}

/// Returns the number under a key, if it is a whole number from 0 to 2^32 - 1.
pub fn u32_at(value: &Value, key: &str) -> Option<u32>
    ensures { result ≡ members.u32_at key.now (view value.now) }
{
    let number = u64_at(value, key)?;
    if number > u32::MAX as u64 {
        return None;
    }
    Some(number as u32)
}

/// Returns the number under a key, if it is a whole number from -2^63 to 2^63 - 1.
pub fn i64_at(value: &Value, key: &str) -> Option<i64>
    ensures { result ≡ members.i64_at key.now (view value.now) }
{
    value.get(key)?.as_i64()
}

/// Returns the text under a key.
pub fn text_at<'a>(value: &'a Value, key: &str) -> Option<&'a str>
    ensures { option_map (λ t. t.now) result ≡ members.text_at key.now (view value.now) }
{
    value.get(key)?.as_str()
}

/// Returns whether the name is one of the keys.
fn is_among(name: &str, keys: &[&str]) -> bool
    ensures { result ≡ list_any (λ key. bytes_eq name.now key.now) keys.now }
{
    keys.iter().any(|key| name == *key)
}

/// Returns whether the key of each member is one of the keys.
fn are_among(object: &Map<String, Value>, keys: &[&str]) -> bool
    ensures { result ≡
        members.are_among (map (λ key. key.now) keys.now) (members_view object.now.entries) }
{
    for (name, _value) in object.iter() {
        if !is_among(name.as_str(), keys) {
            return false;
        }
    }
    true
}

/// Returns whether the value is an object that has no keys except these.
pub fn has_only(value: &Value, keys: &[&str]) -> bool
    ensures { result ≡ members.has_only (map (λ key. key.now) keys.now) (view value.now) }
{
    match value.as_object() {
        Some(object) => are_among(object, keys),
        None => false,
    }
}

/// Returns the value under the key, if the object has no other key.
pub fn only_at<'a>(value: &'a Value, key: &str) -> Option<&'a Value>
    ensures { option_map (λ v. view v.now) result ≡ members.only_at key.now (view value.now) }
{
    if has_only(value, &[key]) {
        value.get(key)
    } else {
        None
    }
}
