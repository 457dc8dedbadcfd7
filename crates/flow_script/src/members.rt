//! Members of a script that was read as JSON.

use serde_json::Value;

/// Returns the text of a member of an object, or an empty text if there is no such member or it is not a text.
pub fn text_at<'a>(object: &'a Value, key: &str) -> &'a str {
    match object.get(key) {
        Some(member) => member.as_str().unwrap_or(""),
        None => "",
    }
}

/// Returns the number of a member of an object, or 0 if there is no such member or it is not an `i64`.
pub fn number_at(object: &Value, key: &str) -> i64 {
    match object.get(key) {
        Some(member) => member.as_i64().unwrap_or(0),
        None => 0,
    }
}
