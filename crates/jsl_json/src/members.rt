ghost use Rattle.std.specs.Prelude.{◌≡◌, Some, None, Err, codes, option_map, IfOk, IfSome};
ghost use Rattle.serde_json.specs.View.{view};
ghost use Rattle.json_members.specs.Members.{list_at};
ghost use Rattle.jsl_json.specs.Members.{IsInside, step_of_data, flow_of_data, split_of_data, decision_of_data, element_kind, own_of, own_flow_of, own_job_of};
ghost use Rattle.jsl_json.specs.MemberViews.{kind_in, own_in, own_flow_in, own_job_in};

use crate::member_fault::MemberFault;
use crate::task::{count_or, partitions_at, task_at, truth_or};
use crate::text::{optional_text_of, text_of};
use crate::transition::transitions_at;
use batch_ids::Listed;
use jsl_model::{StepParts, TransitionParts};
use json_members::{has_only, is_text, list_at, text_at};
use serde_json::Value;
use std::alloc::Global;

/// An element's kind, with the members that this kind may have. The values inside the element are
/// not read yet.
#[derive(Drop)]
pub enum ElementKind<'v> {
    Step(StepParts),
    Flow {
        next: Option<String>,
        transitions: Listed<TransitionParts>,
        elements: &'v [Value],
    },
    Split {
        next: Option<String>,
        flows: &'v [Value],
    },
    Decision {
        transitions: Listed<TransitionParts>,
        artifact: String,
    },
}

/// An element's own members.
#[derive(Drop)]
pub struct ElementMembers<'v> {
    pub id: String,
    pub kind: ElementKind<'v>,
}

/// The own members of a flow of a split.
#[derive(Clone, Copy)]
pub struct FlowMembers<'v> {
    pub id: &'v str,
    pub elements: &'v [Value],
}

/// A job's own members.
#[derive(Clone, Copy)]
pub struct JobMembers<'v> {
    pub id: &'v str,
    pub restartable: bool,
    pub elements: &'v [Value],
}

/// Reads the own members of an element.
#[tactic(auto, unfolding(crate::specs::Members::own_of))]
pub fn own_of(alloc: Global, value: &Value) -> Result<ElementMembers<'_>, MemberFault>
    ensures read { IfOk result (λ own. own_of (view value.now) ≡ Some (own_in own)) }
    ensures inside { IfOk result (λ own. IsInside (kind_in own.kind) (view value.now)) }
    ensures wrong { result ≡ Err MemberFault.Wrong → own_of (view value.now) ≡ None }
{
    let id = text_of(alloc, value, "id")?;
    let kind = element_kind(alloc, value)?;
    Ok(ElementMembers { id, kind })
}

#[tactic(auto, unfolding(crate::specs::Members::element_kind))]
fn element_kind(alloc: Global, value: &Value) -> Result<ElementKind<'_>, MemberFault>
    ensures read { IfOk result (λ kind. element_kind (view value.now) ≡ Some (kind_in kind)) }
    ensures inside { IfOk result (λ kind. IsInside (kind_in kind) (view value.now)) }
    ensures wrong { result ≡ Err MemberFault.Wrong → element_kind (view value.now) ≡ None }
{
    if is_text(value, "kind", "step") {
        step_of(alloc, value)
    } else if is_text(value, "kind", "flow") {
        flow_of(alloc, value)
    } else if is_text(value, "kind", "split") {
        split_of(alloc, value)
    } else if is_text(value, "kind", "decision") {
        decision_of(alloc, value)
    } else {
        Err(MemberFault::Wrong)
    }
}

#[tactic(auto, unfolding(crate::specs::Members::step_of_data))]
fn step_of(alloc: Global, value: &Value) -> Result<ElementKind<'_>, MemberFault>
    ensures read { IfOk result (λ kind. step_of_data (view value.now) ≡ Some (kind_in kind)) }
    ensures inside { IfOk result (λ kind. IsInside (kind_in kind) (view value.now)) }
    ensures wrong { result ≡ Err MemberFault.Wrong → step_of_data (view value.now) ≡ None }
{
    if !has_only(
        value,
        &[
            "kind",
            "id",
            "next",
            "start-limit",
            "allow-start-if-complete",
            "partitions",
            "batchlet",
            "chunk",
            "transitions",
        ],
    ) {
        return Err(MemberFault::Wrong);
    }
    let start_limit = count_or(value, "start-limit", 0).ok_or(MemberFault::Wrong)?;
    let allow_start_if_complete = truth_or(value, "allow-start-if-complete", false).ok_or(
        MemberFault::Wrong,
    )?;
    let partitions = partitions_at(value).ok_or(MemberFault::Wrong)?;
    let next = optional_text_of(alloc, value, "next")?;
    let transitions = transitions_at(alloc, value)?;
    let task = task_at(alloc, value)?;
    Ok(ElementKind::Step(StepParts {
        next,
        transitions,
        start_limit,
        allow_start_if_complete,
        partitions,
        task,
    }))
}

#[tactic(auto, unfolding(crate::specs::Members::flow_of_data))]
fn flow_of(alloc: Global, value: &Value) -> Result<ElementKind<'_>, MemberFault>
    ensures read { IfOk result (λ kind. flow_of_data (view value.now) ≡ Some (kind_in kind)) }
    ensures inside { IfOk result (λ kind. IsInside (kind_in kind) (view value.now)) }
    ensures wrong { result ≡ Err MemberFault.Wrong → flow_of_data (view value.now) ≡ None }
{
    if !has_only(value, &["kind", "id", "next", "elements", "transitions"]) {
        return Err(MemberFault::Wrong);
    }
    let elements = list_at(value, "elements").ok_or(MemberFault::Wrong)?;
    let next = optional_text_of(alloc, value, "next")?;
    let transitions = transitions_at(alloc, value)?;
    Ok(ElementKind::Flow {
        next,
        transitions,
        elements,
    })
}

#[tactic(auto, unfolding(crate::specs::Members::split_of_data))]
fn split_of(alloc: Global, value: &Value) -> Result<ElementKind<'_>, MemberFault>
    ensures read { IfOk result (λ kind. split_of_data (view value.now) ≡ Some (kind_in kind)) }
    ensures inside { IfOk result (λ kind. IsInside (kind_in kind) (view value.now)) }
    ensures wrong { result ≡ Err MemberFault.Wrong → split_of_data (view value.now) ≡ None }
{
    if !has_only(value, &["kind", "id", "next", "flows"]) {
        return Err(MemberFault::Wrong);
    }
    let next = optional_text_of(alloc, value, "next")?;
    let flows = list_at(value, "flows").ok_or(MemberFault::Wrong)?;
    Ok(ElementKind::Split { next, flows })
}

#[tactic(auto, unfolding(crate::specs::Members::decision_of_data))]
fn decision_of(alloc: Global, value: &Value) -> Result<ElementKind<'_>, MemberFault>
    ensures read { IfOk result (λ kind. decision_of_data (view value.now) ≡ Some (kind_in kind)) }
    ensures inside { IfOk result (λ kind. IsInside (kind_in kind) (view value.now)) }
    ensures wrong { result ≡ Err MemberFault.Wrong → decision_of_data (view value.now) ≡ None }
{
    if !has_only(value, &["kind", "id", "ref", "transitions"]) {
        return Err(MemberFault::Wrong);
    }
    let artifact = text_of(alloc, value, "ref")?;
    let transitions = transitions_at(alloc, value)?;
    Ok(ElementKind::Decision {
        transitions,
        artifact,
    })
}

/// Reads the own members of a flow of a split.
#[tactic(auto, unfolding(crate::specs::Members::own_flow_of))]
pub fn own_flow_of(value: &Value) -> Option<FlowMembers<'_>>
    ensures own { option_map own_flow_in result ≡ own_flow_of (view value.now) }
    ensures inside { IfSome result (λ own. list_at (codes "elements") (view value.now)
        ≡ Some (own_flow_in own).elements) }
{
    if !has_only(value, &["kind", "id", "elements"]) || !is_text(value, "kind", "flow") {
        return None;
    }
    let id = text_at(value, "id")?;
    let elements = list_at(value, "elements")?;
    Some(FlowMembers { id, elements })
}

/// Reads the own members of a job.
#[tactic(auto, unfolding(crate::specs::Members::own_job_of))]
pub fn own_job_of(value: &Value) -> Option<JobMembers<'_>>
    ensures { option_map own_job_in result ≡ own_job_of (view value.now) }
{
    if !has_only(value, &["id", "restartable", "elements"]) {
        return None;
    }
    let id = text_at(value, "id")?;
    let restartable = truth_or(value, "restartable", true)?;
    let elements = list_at(value, "elements")?;
    Some(JobMembers {
        id,
        restartable,
        elements,
    })
}
