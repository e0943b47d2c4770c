// Elements, with the transition elements and the artifacts inside them.
ghost use Rattle.std.specs.Prelude.{◌≡◌, option_map};
ghost use Rattle.serde_json.specs.View.{view, items_view};
ghost use Rattle.jsl_json.specs.Members.{own_of};
ghost use Rattle.catalogue_places.specs.Flaws.{Agrees, within, transitions_spot_in, transitions_spot, artifact_spot_in, artifact_spot_if, chunk_spot, one_task_spot, task_spot, step_spot, flow_spot, split_spot, decision_spot, kind_spot, element_spot};

use crate::flaws::{Flaw, Inside, Spot};
use crate::member::Member;
use crate::objects::{artifact_flaw, transition_flaw};
use crate::readings::{
    absent_or_wrong, count_if, first, item_count, list, other_kind, partitions, text, text_if,
    truth_if, unlisted,
};
use json_members::{is_text, object_at, optional_list, optional_object};
use serde_json::Value;

fn within(inside: Inside, flaw: Option<Flaw>) -> Option<Spot>
    ensures { result ≡ within inside flaw }
{
    match flaw {
        Some(flaw) => Some(Spot { inside, flaw }),
        None => None,
    }
}

fn own(flaw: Option<Flaw>) -> Option<Spot>
    ensures { result ≡ within Inside.Own flaw }
{
    within(Inside::Own, flaw)
}

fn transitions_spot_in(list: &[Value]) -> Option<Spot>
    ensures { result ≡ transitions_spot_in 0 (items_view list.now) }
{
    for (index, value) in list.iter().enumerate() {
        if let Some(flaw) = transition_flaw(value) {
            let inside = Inside::Transition(index as u64);
            return Some(Spot { inside, flaw });
        }
    }
    None
}

#[tactic(auto, unfolding(crate::specs::Flaws::transitions_spot))]
fn transitions_spot(value: &Value) -> Option<Spot>
    ensures { result ≡ transitions_spot (view value.now) }
{
    match optional_list(value, "transitions") {
        None => own(Some(absent_or_wrong(value, Member::Transitions))),
        Some(None) => None,
        Some(Some(list)) => transitions_spot_in(list),
    }
}

fn artifact_spot_in(value: &Value, member: Member, found: Option<&Value>) -> Option<Spot>
    ensures { result ≡ artifact_spot_in member
        (option_map (λ inner. view inner.now) found.entry) (view value.now) }
{
    match found {
        None => within(
            Inside::In(Member::Chunk),
            Some(absent_or_wrong(value, member)),
        ),
        Some(found) => within(Inside::InChunk(member), artifact_flaw(found)),
    }
}

fn artifact_spot_if(value: &Value, member: Member, found: Option<Option<&Value>>) -> Option<Spot>
    ensures { result ≡ artifact_spot_if member
        (option_map (option_map (λ inner. view inner.now)) found.entry) (view value.now) }
{
    match found {
        None => within(
            Inside::In(Member::Chunk),
            Some(absent_or_wrong(value, member)),
        ),
        Some(None) => None,
        Some(Some(found)) => within(Inside::InChunk(member), artifact_flaw(found)),
    }
}

#[tactic(auto, unfolding(crate::specs::Flaws::chunk_spot))]
fn chunk_spot(value: &Value) -> Option<Spot>
    ensures { result ≡ chunk_spot (view value.now) }
{
    let listed = unlisted(value, &["item-count", "reader", "processor", "writer"]);
    let reader = artifact_spot_in(value, Member::Reader, object_at(value, "reader"));
    let processor = artifact_spot_if(
        value,
        Member::Processor,
        optional_object(value, "processor"),
    );
    let writer = artifact_spot_in(value, Member::Writer, object_at(value, "writer"));
    first(&[
        within(Inside::In(Member::Chunk), listed),
        within(Inside::In(Member::Chunk), item_count(value)),
        reader,
        processor,
        writer,
    ])
}

fn one_task_spot(batchlet: Option<&Value>, chunk: Option<&Value>) -> Option<Spot>
    ensures { result ≡ one_task_spot (option_map (λ inner. view inner.now) batchlet.entry)
        (option_map (λ inner. view inner.now) chunk.entry) }
{
    match (batchlet, chunk) {
        (Some(batchlet), None) => within(Inside::In(Member::Batchlet), artifact_flaw(batchlet)),
        (None, Some(chunk)) => chunk_spot(chunk),
        _ => own(Some(Flaw::NotOneTask)),
    }
}

#[tactic(auto, unfolding(crate::specs::Flaws::task_spot))]
fn task_spot(value: &Value) -> Option<Spot>
    ensures { result ≡ task_spot (view value.now) }
{
    let Some(batchlet) = optional_object(value, "batchlet") else {
        return own(Some(absent_or_wrong(value, Member::Batchlet)));
    };
    let Some(chunk) = optional_object(value, "chunk") else {
        return own(Some(absent_or_wrong(value, Member::Chunk)));
    };
    one_task_spot(batchlet, chunk)
}

#[tactic(auto, unfolding(crate::specs::Flaws::step_spot))]
fn step_spot(value: &Value) -> Option<Spot>
    ensures { result ≡ step_spot (view value.now) }
{
    let listed = unlisted(
        value,
        &[
            "kind",
            "id",
            "next",
            "start-limit",
            "allow-start-if-complete",
            "partitions",
            "batchlet",
            "chunk",
            "transitions",
        ],
    );
    first(&[
        own(listed),
        own(text_if(value, Member::Next)),
        transitions_spot(value),
        own(count_if(value, Member::StartLimit)),
        own(truth_if(value, Member::AllowStartIfComplete, false)),
        own(partitions(value)),
        task_spot(value),
    ])
}

#[tactic(auto, unfolding(crate::specs::Flaws::flow_spot))]
fn flow_spot(value: &Value) -> Option<Spot>
    ensures { result ≡ flow_spot (view value.now) }
{
    let listed = unlisted(value, &["kind", "id", "next", "elements", "transitions"]);
    first(&[
        own(listed),
        own(text_if(value, Member::Next)),
        transitions_spot(value),
        own(list(value, Member::Elements)),
    ])
}

#[tactic(auto, unfolding(crate::specs::Flaws::split_spot))]
fn split_spot(value: &Value) -> Option<Spot>
    ensures { result ≡ split_spot (view value.now) }
{
    first(&[
        own(unlisted(value, &["kind", "id", "next", "flows"])),
        own(text_if(value, Member::Next)),
        own(list(value, Member::Flows)),
    ])
}

#[tactic(auto, unfolding(crate::specs::Flaws::decision_spot))]
fn decision_spot(value: &Value) -> Option<Spot>
    ensures { result ≡ decision_spot (view value.now) }
{
    first(&[
        own(unlisted(value, &["kind", "id", "ref", "transitions"])),
        transitions_spot(value),
        own(text(value, Member::Ref)),
    ])
}

#[tactic(auto, unfolding(crate::specs::Flaws::kind_spot))]
fn kind_spot(value: &Value) -> Option<Spot>
    ensures { result ≡ kind_spot (view value.now) }
{
    if is_text(value, "kind", "step") {
        step_spot(value)
    } else if is_text(value, "kind", "flow") {
        flow_spot(value)
    } else if is_text(value, "kind", "split") {
        split_spot(value)
    } else if is_text(value, "kind", "decision") {
        decision_spot(value)
    } else {
        own(Some(other_kind(value)))
    }
}

/// Returns the first flaw of an element's own members, of its artifacts and of its transition
/// elements, and `None` if they are right.
#[tactic(auto, unfolding(crate::specs::Flaws::element_spot))]
pub fn element_spot(value: &Value) -> Option<Spot>
    ensures flaw { result ≡ element_spot (view value.now) }
    ensures law { Agrees (element_spot (view value.now)) (own_of (view value.now)) }
{
    first(&[kind_spot(value), own(text(value, Member::Id))])
}
