ghost use Rattle.std.specs.Prelude.{◌≡◌, Some, None, Err, IfOk};
ghost use Rattle.serde_json.specs.View.{view, items_view};
ghost use Rattle.base_text.specs.Plans.{each_of, step_in, carried_in, kept_in, barred_at, carried_at, kept_at, plan_of, plan_at};

use crate::bounded::{bounded_text_at, partition_at, text_within};
use crate::fault::BaseLineFault;
use batch_ids::{Listed, T256};
use job_plans::Plan;
use json_members::{has_only, object_at, optional_list};
use lent_json::Look;
use serde_json::Value;
use std::alloc::Global;
use walk_rules::WorkKey;

/// Reads the plan of a job execution.
pub fn plan_at(alloc: Global, value: &Value) -> Result<Plan, BaseLineFault>
    ensures read { IfOk result (λ plan. plan_at (view value.now) ≡ Some plan) }
    ensures wrong { result ≡ Err BaseLineFault.NotABaseLine → plan_at (view value.now) ≡ None }
{
    match object_at(value, "plan") {
        Some(plan) => plan_of(alloc, plan),
        None => Err(BaseLineFault::NotABaseLine),
    }
}

#[tactic(auto, unfolding(crate::specs::Plans::plan_of))]
fn plan_of(alloc: Global, value: &Value) -> Result<Plan, BaseLineFault>
    ensures read { IfOk result (λ plan. plan_of (view value.now) ≡ Some plan) }
    ensures wrong { result ≡ Err BaseLineFault.NotABaseLine → plan_of (view value.now) ≡ None }
{
    if !has_only(value, &["barred", "carried", "from", "kept"]) {
        return Err(BaseLineFault::NotABaseLine);
    }
    let from = bounded_text_at(alloc, Look::Own(value), "from")?;
    let carried = carried_at(alloc, value)?;
    let kept = kept_at(alloc, value)?;
    let barred = barred_at(alloc, value)?;
    Ok(Plan {
        from,
        carried,
        kept,
        barred,
    })
}

/// Reads the steps that have reached their start limit, none if they are left out.
fn barred_at(alloc: Global, value: &Value) -> Result<Listed<T256>, BaseLineFault>
    ensures read { IfOk result (λ barred. barred_at (view value.now) ≡ Some barred) }
    ensures wrong { result ≡ Err BaseLineFault.NotABaseLine → barred_at (view value.now) ≡ None }
{
    match optional_list(value, "barred").ok_or(BaseLineFault::NotABaseLine)? {
        Some(list) => steps_of(alloc, list),
        None => Ok(Listed::new(alloc)),
    }
}

/// Reads the steps that are carried over, none if they are left out.
fn carried_at(alloc: Global, value: &Value) -> Result<Listed<(T256, T256)>, BaseLineFault>
    ensures read { IfOk result (λ carried. carried_at (view value.now) ≡ Some carried) }
    ensures wrong { result ≡ Err BaseLineFault.NotABaseLine → carried_at (view value.now) ≡ None }
{
    match optional_list(value, "carried").ok_or(BaseLineFault::NotABaseLine)? {
        Some(list) => carried_of(alloc, list),
        None => Ok(Listed::new(alloc)),
    }
}

/// Reads the partitions that are kept, none if they are left out.
fn kept_at(alloc: Global, value: &Value) -> Result<Listed<WorkKey>, BaseLineFault>
    ensures read { IfOk result (λ kept. kept_at (view value.now) ≡ Some kept) }
    ensures wrong { result ≡ Err BaseLineFault.NotABaseLine → kept_at (view value.now) ≡ None }
{
    match optional_list(value, "kept").ok_or(BaseLineFault::NotABaseLine)? {
        Some(list) => kept_of(alloc, list),
        None => Ok(Listed::new(alloc)),
    }
}

fn steps_of(alloc: Global, list: &[Value]) -> Result<Listed<T256>, BaseLineFault>
    ensures read { IfOk result (λ steps. each_of step_in (items_view list.now) ≡ Some steps) }
    ensures wrong { result ≡ Err BaseLineFault.NotABaseLine
        → each_of step_in (items_view list.now) ≡ None }
{
    let mut steps = Vec::new(alloc);
    for value in list {
        steps.push(step_in(alloc, value)?)?;
    }
    Ok(Listed::from_vec(steps))
}

fn carried_of(alloc: Global, list: &[Value]) -> Result<Listed<(T256, T256)>, BaseLineFault>
    ensures read { IfOk result (λ carried. each_of carried_in (items_view list.now)
        ≡ Some carried) }
    ensures wrong { result ≡ Err BaseLineFault.NotABaseLine
        → each_of carried_in (items_view list.now) ≡ None }
{
    let mut carried = Vec::new(alloc);
    for value in list {
        carried.push(carried_in(alloc, value)?)?;
    }
    Ok(Listed::from_vec(carried))
}

fn kept_of(alloc: Global, list: &[Value]) -> Result<Listed<WorkKey>, BaseLineFault>
    ensures read { IfOk result (λ kept. each_of kept_in (items_view list.now) ≡ Some kept) }
    ensures wrong { result ≡ Err BaseLineFault.NotABaseLine
        → each_of kept_in (items_view list.now) ≡ None }
{
    let mut kept = Vec::new(alloc);
    for value in list {
        kept.push(kept_in(alloc, value)?)?;
    }
    Ok(Listed::from_vec(kept))
}

#[tactic(auto, unfolding(crate::specs::Plans::step_in))]
fn step_in(alloc: Global, value: &Value) -> Result<T256, BaseLineFault>
    ensures read { IfOk result (λ step. step_in (view value.now) ≡ Some step) }
    ensures wrong { result ≡ Err BaseLineFault.NotABaseLine → step_in (view value.now) ≡ None }
{
    match value.as_str() {
        Some(step) => text_within(alloc, step),
        None => Err(BaseLineFault::NotABaseLine),
    }
}

/// Reads a step that an earlier job execution completed, with its exit status.
#[tactic(auto, unfolding(crate::specs::Plans::carried_in))]
fn carried_in(alloc: Global, value: &Value) -> Result<(T256, T256), BaseLineFault>
    ensures read { IfOk result (λ carried. carried_in (view value.now) ≡ Some carried) }
    ensures wrong { result ≡ Err BaseLineFault.NotABaseLine → carried_in (view value.now) ≡ None }
{
    if !has_only(value, &["exit", "step"]) {
        return Err(BaseLineFault::NotABaseLine);
    }
    let step = bounded_text_at(alloc, Look::Own(value), "step")?;
    let exit = bounded_text_at(alloc, Look::Own(value), "exit")?;
    Ok((step, exit))
}

#[tactic(auto, unfolding(crate::specs::Plans::kept_in))]
fn kept_in(alloc: Global, value: &Value) -> Result<WorkKey, BaseLineFault>
    ensures read { IfOk result (λ kept. kept_in (view value.now) ≡ Some kept) }
    ensures wrong { result ≡ Err BaseLineFault.NotABaseLine → kept_in (view value.now) ≡ None }
{
    if !has_only(value, &["partition", "step"]) {
        return Err(BaseLineFault::NotABaseLine);
    }
    let look = Look::Own(value);
    let partition = partition_at(look).ok_or(BaseLineFault::NotABaseLine)?;
    let element = bounded_text_at(alloc, look, "step")?;
    Ok(WorkKey { element, partition })
}
