ghost use Rattle.std.specs.Prelude.{◌≡◌, map, bytes_eq, string_bytes};
ghost use Rattle.std.specs.List.{list_any, list_all};
ghost use Rattle.std.specs.BTreeMap.{keys};
ghost use Rattle.serde_json.specs.View.{view};
ghost use Rattle.json_members.specs.Members.{has_only};

use serde_json::{Map, Value};

/// Checks whether a value is an object that has no other members than these. It may lack some of
/// them.
///
/// The number of comparisons is at most the number of members times the number of names.
pub fn has_only(value: &Value, names: &[&str]) -> bool
    ensures { result ≡ has_only (map (λ name. name.now) names.now) (view value.now) }
{
    match value.as_object() {
        Some(members) => keys_among(members, names),
        None => false,
    }
}

fn keys_among(members: &Map<String, Value>, names: &[&str]) -> bool
    ensures { result ≡ list_all
        (λ key. list_any (λ listed. bytes_eq (string_bytes key) listed.now) names.now)
        (keys members.now) }
{
    members.keys().all(|key| is_listed(key.as_str(), names))
}

fn is_listed(name: &str, names: &[&str]) -> bool
    ensures { result ≡ list_any (λ listed. bytes_eq name.now listed.now) names.now }
{
    names.iter().any(|listed| name == *listed)
}
