// Members that may be left out. The result is `Some(None)` if the member is left out, and `None` if
// it is there and of another kind.
ghost use Rattle.std.specs.Prelude.{◌≡◌, option_map};
ghost use Rattle.serde_json.specs.View.{view, items_view};
ghost use Rattle.json_members.specs.Members.{optional_text, optional_number, optional_truth, optional_list, optional_object};

use crate::member::as_object_value;
use serde_json::Value;

/// Returns the text of a member that may be left out. Returns `Some(None)` if it is left out, and
/// `None` if it is there and no text (null included).
pub fn optional_text<'v>(value: &'v Value, name: &str) -> Option<Option<&'v str>>
    ensures { option_map (option_map (λ text. text.now)) result
        ≡ optional_text name.now (view value.now) }
{
    match value.get(name) {
        Some(member) => Some(Some(member.as_str()?)),
        None => Some(None),
    }
}

/// Returns the number, 0 to 2^64 - 1, of a member that may be left out. Returns `Some(None)` if it
/// is left out, and `None` if it is there and no such number (null included).
pub fn optional_number(value: &Value, name: &str) -> Option<Option<u64>>
    ensures { result ≡ optional_number name.now (view value.now) }
{
    match value.get(name) {
        Some(member) => Some(Some(member.as_u64()?)),
        None => Some(None),
    }
}

/// Returns the truth value of a member that may be left out. Returns `Some(None)` if it is left
/// out, and `None` if it is there and no truth value (null included).
pub fn optional_truth(value: &Value, name: &str) -> Option<Option<bool>>
    ensures { result ≡ optional_truth name.now (view value.now) }
{
    match value.get(name) {
        Some(member) => Some(Some(member.as_bool()?)),
        None => Some(None),
    }
}

/// Returns the list of a member that may be left out. Returns `Some(None)` if it is left out, and
/// `None` if it is there and no list (null included).
pub fn optional_list<'v>(value: &'v Value, name: &str) -> Option<Option<&'v [Value]>>
    ensures { option_map (option_map (λ list. items_view list.now)) result
        ≡ optional_list name.now (view value.now) }
{
    match value.get(name) {
        Some(member) => Some(Some(member.as_array()?.as_slice())),
        None => Some(None),
    }
}

/// Returns the object of a member that may be left out. Returns `Some(None)` if it is left out, and
/// `None` if it is there and no object (null included).
pub fn optional_object<'v>(value: &'v Value, name: &str) -> Option<Option<&'v Value>>
    ensures { option_map (option_map (λ found. view found.now)) result
        ≡ optional_object name.now (view value.now) }
{
    match value.get(name) {
        Some(member) => Some(Some(as_object_value(member)?)),
        None => Some(None),
    }
}
