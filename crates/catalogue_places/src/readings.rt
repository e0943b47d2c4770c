// The flaw of one member, by the catalogue's own reading of it.
ghost use Rattle.std.specs.List.{list_any};
ghost use Rattle.std.specs.BTreeMap.{keys};
ghost use Rattle.std.specs.Prelude.{◌≡◌, ◌^◌, true, false, not, map, bytes_eq, string_bytes, position, unwrap_or, is_some, if◌then◌else◌, Some, None};
ghost use Rattle.serde_json.specs.View.{view};
ghost use Rattle.json_members.specs.Members.{text_at, optional_text, list_at};
ghost use Rattle.jsl_json.specs.Tasks.{truth_or, count_or, item_count_at, partitions_at};
ghost use Rattle.catalogue_places.specs.Flaws.{absent_or_wrong, unless, needs, unlisted, other_kind, first};

use crate::flaws::Flaw;
use crate::member::Member;
use json_members::{has_only, list_at, optional_number, optional_text, optional_truth, text_at};
use serde_json::{Map, Value};

/// Returns the first flaw of these.
pub fn first<F: Copy + Drop>(flaws: &[Option<F>]) -> Option<F>
    ensures { result ≡ first flaws.now }
{
    for flaw in flaws {
        if let Some(found) = flaw {
            return Some(*found);
        }
    }
    None
}

pub fn absent_or_wrong(value: &Value, member: Member) -> Flaw
    ensures { result ≡ absent_or_wrong member (view value.now) }
{
    match value.get(member.name()) {
        Some(_) => Flaw::Wrong(member),
        None => Flaw::Missing(member),
    }
}

pub fn unless(right: bool, value: &Value, member: Member) -> Option<Flaw>
    ensures { result ≡ unless right member (view value.now) }
{
    if right {
        None
    } else {
        Some(absent_or_wrong(value, member))
    }
}

pub fn unlisted(value: &Value, names: &[&str]) -> Option<Flaw>
    ensures { result ≡ unlisted (map (λ name. name.now) names.now) (view value.now) }
{
    if has_only(value, names) {
        return None;
    }
    match value.as_object() {
        Some(members) => Some(Flaw::Unlisted(first_other(members, names))),
        None => Some(Flaw::NoObject),
    }
}

/// Returns the number of the first member that is not listed.
fn first_other(members: &Map<String, Value>, names: &[&str]) -> usize
    ensures { result ≡ unwrap_or (position
        (λ key. not (list_any (λ listed. bytes_eq (string_bytes key) listed.now) names.now))
        (keys members.now)) 0 }
{
    let place = members
        .keys()
        .position(|key| !is_listed(key.as_str(), names));
    place.unwrap_or(0)
}

fn is_listed(name: &str, names: &[&str]) -> bool
    ensures { result ≡ list_any (λ listed. bytes_eq name.now listed.now) names.now }
{
    names.iter().any(|listed| name == *listed)
}

pub fn other_kind(value: &Value) -> Flaw
    ensures { result ≡ other_kind (view value.now) }
{
    if value.as_object().is_some() {
        absent_or_wrong(value, Member::Kind)
    } else {
        Flaw::NoObject
    }
}

pub fn text(value: &Value, member: Member) -> Option<Flaw>
    ensures { result ≡ needs text_at member (view value.now) }
{
    unless(text_at(value, member.name()).is_some(), value, member)
}

pub fn text_if(value: &Value, member: Member) -> Option<Flaw>
    ensures { result ≡ needs optional_text member (view value.now) }
{
    unless(optional_text(value, member.name()).is_some(), value, member)
}

pub fn list(value: &Value, member: Member) -> Option<Flaw>
    ensures { result ≡ needs list_at member (view value.now) }
{
    unless(list_at(value, member.name()).is_some(), value, member)
}

pub fn truth_if(value: &Value, member: Member, left_out: bool) -> Option<Flaw>
    ensures { result ≡ needs (λ name. truth_or name left_out) member (view value.now) }
{
    unless(
        optional_truth(value, member.name()).is_some(),
        value,
        member,
    )
}

/// Checks whether a member is a number below 2^32, or is left out.
#[tactic(auto, unfolding(jsl_json::specs::Tasks::count_or))]
pub fn count_if(value: &Value, member: Member) -> Option<Flaw>
    ensures { result ≡ needs (λ name. count_or name 0) member (view value.now) }
{
    let right = match optional_number(value, member.name()) {
        Some(Some(count)) => count < 0x1_0000_0000,
        Some(None) => true,
        None => false,
    };
    unless(right, value, member)
}

/// Checks whether the items of a group are a number from 1 to 2^32 - 1, or left out.
#[tactic(auto, unfolding(jsl_json::specs::Tasks::count_or))]
pub fn item_count(value: &Value) -> Option<Flaw>
    ensures { result ≡ unless (is_some (item_count_at (view value.now))) Member.ItemCount
        (view value.now) }
{
    let right = match optional_number(value, "item-count") {
        Some(Some(count)) => 1 <= count && count < 0x1_0000_0000,
        Some(None) => true,
        None => false,
    };
    unless(right, value, Member::ItemCount)
}

/// Checks whether the partitions are a number from 1 to 64, or left out.
#[tactic(auto, unfolding(jsl_json::specs::Tasks::partitions_at))]
pub fn partitions(value: &Value) -> Option<Flaw>
    ensures { result ≡ unless (is_some (partitions_at (view value.now))) Member.Partitions
        (view value.now) }
{
    let right = match optional_number(value, "partitions") {
        Some(Some(count)) => 1 <= count && count <= 64,
        Some(None) => true,
        None => false,
    };
    unless(right, value, Member::Partitions)
}
