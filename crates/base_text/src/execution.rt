ghost use Rattle.std.specs.Prelude.{◌≡◌, false, Some, None, Err, IfOk};
ghost use Rattle.serde_json.specs.View.{view};
ghost use Rattle.jsl_json.specs.Tasks.{truth_or};
ghost use Rattle.batch_ids.specs.Statuses.{status_named};
ghost use Rattle.base_text.specs.Executions.{status_at, execution_members_of, execution_of};

use crate::bounded::{bounded_text_at, exit_at};
use crate::fault::BaseLineFault;
use crate::parameters::bounded_parameters_at;
use crate::plan::plan_at;
use batch_history::ExecutionRow;
use batch_ids::{BatchStatus, ExecutionId, InstanceId, Moment, Shared};
use json_members::{has_only, number_at, optional_number, optional_truth, text_at};
use lent_json::Look;
use serde_json::Value;
use std::alloc::Global;

/// The members of a job execution that are no texts of its own, no parameters and no plan.
#[derive(Clone, Copy, Debug)]
pub struct ExecutionMembers {
    pub execution: u64,
    pub instance: u64,
    pub stop: bool,
    pub abandoned: bool,
    pub bare: BatchStatus,
    pub create: Moment,
    pub start: Option<Moment>,
    pub end: Option<Moment>,
    pub updated: Moment,
}

/// Reads the job execution in a value.
#[tactic(auto, unfolding(crate::specs::Executions::execution_of))]
pub fn execution_of(alloc: Global, value: &Value) -> Result<ExecutionRow, BaseLineFault>
    ensures read { IfOk result (λ row. execution_of (view value.now) ≡ Some row) }
    ensures wrong { result ≡ Err BaseLineFault.NotABaseLine
        → execution_of (view value.now) ≡ None }
{
    let names = [
        "abandoned",
        "create",
        "end",
        "execution",
        "exit",
        "instance",
        "job",
        "parameters",
        "plan",
        "start",
        "status",
        "stop",
        "updated",
    ];
    if !has_only(value, &names) {
        return Err(BaseLineFault::NotABaseLine);
    }
    let members = execution_members_of(value).ok_or(BaseLineFault::NotABaseLine)?;
    let job = bounded_text_at(alloc, Look::Own(value), "job")?;
    let exit = exit_at(alloc, Look::Own(value))?;
    let parameters = bounded_parameters_at(alloc, value)?;
    let plan = Shared::new(alloc, plan_at(alloc, value)?)?;
    Ok(ExecutionRow {
        execution: ExecutionId::new(members.execution),
        instance: InstanceId::new(members.instance),
        job,
        parameters,
        plan,
        stop: members.stop,
        abandoned: members.abandoned,
        bare: members.bare,
        create: members.create,
        start: members.start,
        end: members.end,
        exit,
        updated: members.updated,
    })
}

#[tactic(auto, unfolding(crate::specs::Executions::execution_members_of))]
fn execution_members_of(value: &Value) -> Option<ExecutionMembers>
    ensures { result ≡ execution_members_of (view value.now) }
{
    Some(ExecutionMembers {
        execution: number_at(value, "execution")?,
        instance: number_at(value, "instance")?,
        stop: is_true_at(value, "stop")?,
        abandoned: is_true_at(value, "abandoned")?,
        bare: status_at(value)?,
        create: number_at(value, "create")?,
        start: optional_number(value, "start")?,
        end: optional_number(value, "end")?,
        updated: number_at(value, "updated")?,
    })
}

/// Reads a truth value, false if it is left out.
fn is_true_at(value: &Value, name: &str) -> Option<bool>
    ensures { result ≡ truth_or name.now false (view value.now) }
{
    Some(optional_truth(value, name)?.unwrap_or(false))
}

fn status_at(value: &Value) -> Option<BatchStatus>
    ensures { result ≡ status_at (view value.now) }
{
    status_named(text_at(value, "status")?)
}

fn status_named(name: &str) -> Option<BatchStatus>
    ensures { result ≡ status_named name.now }
{
    name.parse().ok()
}
