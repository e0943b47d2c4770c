ghost use Rattle.std.specs.Prelude.{◌≡◌, option_map};
ghost use Rattle.serde_json.specs.View.{view, items_view};
ghost use Rattle.json_members.specs.Members.{text_at, number_at, truth_at, list_at, object_at, is_text, as_object_value};

use serde_json::Value;

/// Returns the text of the member of this name. Returns `None` if there is no such member, or if it
/// is no text.
pub fn text_at<'v>(value: &'v Value, name: &str) -> Option<&'v str>
    ensures { option_map (λ text. text.now) result ≡ text_at name.now (view value.now) }
{
    value.get(name).and_then(Value::as_str)
}

/// Returns the number of the member of this name, 0 to 2^64 - 1. Returns `None` if there is no such
/// member, or if it is no such number. `-0`, `1.0` and `1e3` are no such numbers.
pub fn number_at(value: &Value, name: &str) -> Option<u64>
    ensures { result ≡ number_at name.now (view value.now) }
{
    value.get(name).and_then(Value::as_u64)
}

/// Returns the truth value of the member of this name. Returns `None` if there is no such member,
/// or if it is no truth value.
pub fn truth_at(value: &Value, name: &str) -> Option<bool>
    ensures { result ≡ truth_at name.now (view value.now) }
{
    value.get(name).and_then(Value::as_bool)
}

/// Returns the list of the member of this name. Returns `None` if there is no such member, or if it
/// is no list.
pub fn list_at<'v>(value: &'v Value, name: &str) -> Option<&'v [Value]>
    ensures { option_map (λ list. items_view list.now) result ≡ list_at name.now (view value.now) }
{
    match value.get(name).and_then(Value::as_array) {
        Some(list) => Some(list.as_slice()),
        None => None,
    }
}

/// Returns the object of the member of this name. Returns `None` if there is no such member, or if
/// it is no object.
pub fn object_at<'v>(value: &'v Value, name: &str) -> Option<&'v Value>
    ensures { option_map (λ found. view found.now) result ≡ object_at name.now (view value.now) }
{
    value.get(name).and_then(as_object_value)
}

/// Checks whether the member of this name is this text.
pub fn is_text(value: &Value, name: &str, text: &str) -> bool
    ensures { result ≡ is_text name.now text.now (view value.now) }
{
    match text_at(value, name) {
        Some(found) => found == text,
        None => false,
    }
}

/// Returns the value itself if it is an object.
pub(crate) fn as_object_value(value: &Value) -> Option<&Value>
    ensures { option_map (λ found. view found.now) result ≡ as_object_value (view value.now) }
{
    match value {
        Value::Object(_) => Some(value),
        _ => None,
    }
}
