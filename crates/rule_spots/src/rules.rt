// The rules for the texts of a job.
ghost use Rattle.std.specs.Prelude.{◌≡◌};
ghost use Rattle.serde_json.specs.View.{items_view};
ghost use Rattle.rule_spots.specs.Rules.{breaks, is_name, is_target, is_restart, is_named};

use catalogue_places::Member;
use json_members::is_text;
use serde_json::Value;

/// A rule for the texts of a job.
#[derive(Clone, Copy)]
pub(crate) enum TextRule<'v> {
    /// A text has at most 256 bytes.
    Short,
    /// An id and the name of an artifact are not empty.
    Given,
    /// `next` and `to` name an element of this list.
    Target(&'v [Value]),
    /// `restart` names an element of this list.
    Restart(&'v [Value]),
}

fn is_name(member: Member) -> bool
    ensures { result ≡ is_name member }
{
    matches!(member, Member::Id | Member::Ref)
}

fn is_target(member: Member) -> bool
    ensures { result ≡ is_target member }
{
    matches!(member, Member::Next | Member::To)
}

fn is_restart(member: Member) -> bool
    ensures { result ≡ is_restart member }
{
    matches!(member, Member::Restart)
}

/// Checks whether an element of this list has this id.
fn is_named(list: &[Value], text: &str) -> bool
    ensures { result ≡ is_named text.now (items_view list.now) }
{
    for value in list {
        if is_text(value, "id", text) {
            return true;
        }
    }
    false
}

/// Checks whether the text of a member breaks a rule.
pub(crate) fn breaks(rule: TextRule<'_>, member: Member, text: &str) -> bool
    ensures { result ≡ breaks rule.entry member text.now }
{
    match rule {
        TextRule::Short => text.len() > 256,
        TextRule::Given => is_name(member) && text.is_empty(),
        TextRule::Target(list) => is_target(member) && !is_named(list, text),
        TextRule::Restart(list) => is_restart(member) && !is_named(list, text),
    }
}
