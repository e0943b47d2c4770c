// The texts of an element, or of a job, that break a rule.
ghost use Rattle.std.specs.Prelude.{◌≡◌, option_map, option_and_then};
ghost use Rattle.serde_json.specs.View.{view, items_view};
ghost use Rattle.rule_spots.specs.Rules.{breaks};
ghost use Rattle.rule_spots.specs.Texts.{text_part, part_if, artifact_text, chunk_texts, transition_texts, transitions_from, transitions_texts, texts_part};

use crate::rules::{TextRule, breaks};
use catalogue_places::{Inside, Member};
use json_members::{list_at, object_at, text_at};
use serde_json::Value;

/// A member of an element, or of an object inside it.
#[derive(Clone, Copy, Debug, PartialEq, Eq, Drop)]
pub struct Part {
    /// The object.
    pub inside: Inside,
    /// Its member.
    pub member: Member,
}

pub(crate) fn part_if(broken: bool, inside: Inside, member: Member) -> Option<Part>
    ensures { result ≡ part_if broken inside member }
{
    if broken {
        return Some(Part { inside, member });
    }
    None
}

/// Returns a text of the object `inside`, if it breaks the rule.
fn text_part(rule: TextRule<'_>, inside: Inside, member: Member, value: &Value) -> Option<Part>
    ensures { result ≡ text_part (breaks rule.entry) inside member (view value.now) }
{
    match text_at(value, member.name()) {
        Some(text) => part_if(breaks(rule, member, text), inside, member),
        None => None,
    }
}

/// Looks at the artifact in a member of an object.
fn artifact_text(rule: TextRule<'_>, inside: Inside, member: Member, value: &Value) -> Option<Part>
    ensures { result ≡ artifact_text (breaks rule.entry) inside member (view value.now) }
{
    match object_at(value, member.name()) {
        Some(artifact) => text_part(rule, inside, Member::Ref, artifact),
        None => None,
    }
}

fn part_text(rule: TextRule<'_>, member: Member, chunk: &Value) -> Option<Part>
    ensures { result ≡ artifact_text (breaks rule.entry) (Inside.InChunk member) member (view chunk.now) }
{
    artifact_text(rule, Inside::InChunk(member), member, chunk)
}

fn chunk_texts(rule: TextRule<'_>, value: &Value) -> Option<Part>
    ensures { result ≡ chunk_texts (breaks rule.entry) (view value.now) }
{
    match object_at(value, "chunk") {
        Some(chunk) => {
            let reader = part_text(rule, Member::Reader, chunk);
            let processor = part_text(rule, Member::Processor, chunk);
            let writer = part_text(rule, Member::Writer, chunk);
            reader.or(processor.or(writer))
        }
        None => None,
    }
}

fn transition_texts(rule: TextRule<'_>, number: u64, value: &Value) -> Option<Part>
    ensures { result ≡ transition_texts (breaks rule.entry) number (view value.now) }
{
    let inside = Inside::Transition(number);
    let on = text_part(rule, inside, Member::On, value);
    let to = text_part(rule, inside, Member::To, value);
    let exit_status = text_part(rule, inside, Member::ExitStatus, value);
    let restart = text_part(rule, inside, Member::Restart, value);
    on.or(to.or(exit_status.or(restart)))
}

fn transitions_from(rule: TextRule<'_>, list: &[Value]) -> Option<Part>
    ensures { result ≡ transitions_from (breaks rule.entry) 0 (items_view list.now) }
{
    for (index, value) in list.iter().enumerate() {
        if let Some(part) = transition_texts(rule, index as u64, value) {
            return Some(part);
        }
    }
    None
}

fn transitions_texts(rule: TextRule<'_>, value: &Value) -> Option<Part>
    ensures { result ≡ transitions_texts (breaks rule.entry) (view value.now) }
{
    match list_at(value, "transitions") {
        Some(list) => transitions_from(rule, list),
        None => None,
    }
}

/// Returns the first text of an element, a flow of a split or a job that breaks the rule,
/// without the elements inside it.
pub(crate) fn texts_part(rule: TextRule<'_>, value: &Value) -> Option<Part>
    ensures { result ≡ texts_part (breaks rule.entry) (view value.now) }
{
    let id = text_part(rule, Inside::Own, Member::Id, value);
    let next = text_part(rule, Inside::Own, Member::Next, value);
    let transitions = transitions_texts(rule, value);
    let batchlet = artifact_text(rule, Inside::In(Member::Batchlet), Member::Batchlet, value);
    let chunk = chunk_texts(rule, value);
    let decider = text_part(rule, Inside::Own, Member::Ref, value);
    id.or(next.or(transitions.or(batchlet.or(chunk.or(decider)))))
}
