//! The form of the names of flows, subscribers and emissions.
ghost use Rattle.std.specs.Prelude.{◌≡◌, ◌<◌, ◌&&◌, option_map};
ghost use Rattle.std.specs.List.{list_all};
ghost use Rattle.serde_json.specs.View.{view};
ghost use Rattle.script_format.specs.NameForm as names;

use script_chain_format::text_at;
use serde_json::Value;

fn is_name_byte(byte: u8) -> bool
    ensures { result ≡ names.is_name_byte byte }
{
    (byte >= b'a' && byte <= b'z') || (byte >= b'0' && byte <= b'9') || byte == b'_'
}

fn are_name_bytes(bytes: &[u8]) -> bool
    ensures { result ≡ list_all names.is_name_byte bytes.now }
{
    bytes.iter().all(|byte| is_name_byte(*byte))
}

/// Returns whether a text has the form of a name: 1 to 32 bytes, each of them a to z, 0 to 9, or _.
pub fn is_name(name: &str) -> bool
    ensures { result ≡ names.is_name name.now }
{
    !name.is_empty() && name.len() <= 32 && are_name_bytes(name.as_bytes())
}

/// Returns the text of a key, if that text has the form of a name.
pub fn name_at<'a>(value: &'a Value, key: &str) -> Option<&'a str>
    ensures { option_map (λ t. t.now) result ≡ names.name_at key.now (view value.now) }
{
    let name = text_at(value, key)?;
    if is_name(name) { Some(name) } else { None }
}
