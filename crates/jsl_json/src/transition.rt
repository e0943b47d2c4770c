ghost use Rattle.std.specs.Prelude.{◌≡◌, Some, None, Err, option_map, map, IfOk};
ghost use Rattle.serde_json.specs.View.{view, items_view};
ghost use Rattle.jsl_model.specs.Parts.{bytes_of_option, then_of, transition_of};
ghost use Rattle.jsl_json.specs.Transitions.{then_next, exit_status_of, then_stop, then_of_data, transition_of_data, transitions_of, transitions_at};

use crate::member_fault::MemberFault;
use crate::text::{optional_text_of, text_of};
use batch_ids::Listed;
use jsl_model::{ThenParts, TransitionParts};
use json_members::{has_only, is_text, optional_list};
use serde_json::Value;
use std::alloc::Global;

/// Reads the transition elements of an element, none if they are left out.
#[tactic(auto, unfolding(crate::specs::Transitions::transitions_at))]
pub fn transitions_at(alloc: Global, value: &Value) -> Result<Listed<TransitionParts>, MemberFault>
    ensures read { IfOk result (λ transitions. transitions_at (view value.now)
        ≡ Some (map transition_of transitions)) }
    ensures wrong { result ≡ Err MemberFault.Wrong → transitions_at (view value.now) ≡ None }
{
    match optional_list(value, "transitions").ok_or(MemberFault::Wrong)? {
        Some(list) => transitions_of(alloc, list),
        None => Ok(Listed::new(alloc)),
    }
}

fn transitions_of(alloc: Global, list: &[Value]) -> Result<Listed<TransitionParts>, MemberFault>
    ensures read { IfOk result (λ transitions. transitions_of (items_view list.now)
        ≡ Some (map transition_of transitions)) }
    ensures wrong { result ≡ Err MemberFault.Wrong → transitions_of (items_view list.now) ≡ None }
{
    let mut transitions = Vec::new(alloc);
    for value in list {
        transitions.push(transition_of(alloc, value)?)?;
    }
    Ok(Listed::from_vec(transitions))
}

#[tactic(auto, unfolding(crate::specs::Transitions::transition_of_data))]
fn transition_of(alloc: Global, value: &Value) -> Result<TransitionParts, MemberFault>
    ensures read { IfOk result (λ transition. transition_of_data (view value.now)
        ≡ Some (transition_of transition)) }
    ensures wrong { result ≡ Err MemberFault.Wrong → transition_of_data (view value.now) ≡ None }
{
    let on = text_of(alloc, value, "on")?;
    let then = then_of(alloc, value)?;
    Ok(TransitionParts { on, then })
}

#[tactic(auto, unfolding(crate::specs::Transitions::then_of_data))]
fn then_of(alloc: Global, value: &Value) -> Result<ThenParts, MemberFault>
    ensures read { IfOk result (λ target. then_of_data (view value.now) ≡ Some (then_of target)) }
    ensures wrong { result ≡ Err MemberFault.Wrong → then_of_data (view value.now) ≡ None }
{
    if is_text(value, "kind", "next") {
        then_next(alloc, value)
    } else if is_text(value, "kind", "end") {
        let exit_status = exit_status_of(alloc, value)?;
        Ok(ThenParts::End { exit_status })
    } else if is_text(value, "kind", "fail") {
        let exit_status = exit_status_of(alloc, value)?;
        Ok(ThenParts::Fail { exit_status })
    } else if is_text(value, "kind", "stop") {
        then_stop(alloc, value)
    } else {
        Err(MemberFault::Wrong)
    }
}

fn then_next(alloc: Global, value: &Value) -> Result<ThenParts, MemberFault>
    ensures read { IfOk result (λ target. then_next (view value.now) ≡ Some (then_of target)) }
    ensures wrong { result ≡ Err MemberFault.Wrong → then_next (view value.now) ≡ None }
{
    if !has_only(value, &["kind", "on", "to"]) {
        return Err(MemberFault::Wrong);
    }
    let to = text_of(alloc, value, "to")?;
    Ok(ThenParts::Next { to })
}

/// Reads the exit status of an `end` or a `fail`.
fn exit_status_of(alloc: Global, value: &Value) -> Result<Option<String>, MemberFault>
    ensures read { IfOk result (λ status. exit_status_of (view value.now)
        ≡ Some (bytes_of_option status)) }
    ensures wrong { result ≡ Err MemberFault.Wrong → exit_status_of (view value.now) ≡ None }
{
    if !has_only(value, &["kind", "on", "exit-status"]) {
        return Err(MemberFault::Wrong);
    }
    optional_text_of(alloc, value, "exit-status")
}

#[tactic(auto, unfolding(crate::specs::Transitions::then_stop))]
fn then_stop(alloc: Global, value: &Value) -> Result<ThenParts, MemberFault>
    ensures read { IfOk result (λ target. then_stop (view value.now) ≡ Some (then_of target)) }
    ensures wrong { result ≡ Err MemberFault.Wrong → then_stop (view value.now) ≡ None }
{
    if !has_only(value, &["kind", "on", "exit-status", "restart"]) {
        return Err(MemberFault::Wrong);
    }
    let exit_status = optional_text_of(alloc, value, "exit-status")?;
    let restart = optional_text_of(alloc, value, "restart")?;
    Ok(ThenParts::Stop {
        exit_status,
        restart,
    })
}
