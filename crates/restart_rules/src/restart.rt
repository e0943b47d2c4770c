//! The rules for which job executions may be restarted.
ghost use Rattle.std.specs.Prelude.{ℕ, ◌≡◌, Bool, true, is_some, Some, IfOk};
ghost use Rattle.std.specs.List.{list_any};
ghost use Rattle.std.specs.Option.{option_copied};
ghost use Rattle.batch_history.specs.declared.rows.LastNumbers.{LastNumbers as Last};
ghost use Rattle.batch_history.specs.Replies.{is_later_than, refusal_by_status, restart_plan};
ghost use Rattle.batch_history.specs.Restarts.{restart_point};
ghost use Rattle.batch_history.specs.Walks.{job_named, walk_value};
ghost use Rattle.restart_rules.specs.Placed.{begins_in_job, is_placed, IsPlaced};
ghost use Rattle.restart_rules.specs.Restarting.{refusal_due, rows_over};

use crate::plan::plan_after;
use crate::walks::{job_of, walk_value};
use batch_history::ExecutionRow;
use batch_ids::{BatchStatus, ExecutionId, OutOfMemory, Refusal, T256};
use job_plans::Plan;
use jsl_model::Catalogue;
use records::Records;
use std::alloc::Global;
use walk_rules::Value;

/// Checks whether the job instance of a job execution has a later job execution.
#[tactic(auto, using(crate::proofs::Reading::later_read))]
fn has_later(records: &Records, row: &ExecutionRow) -> bool
    ensures { result ≡ list_any (is_later_than row.now) records.now.executions }
{
    records.has_execution_above(row.instance, row.execution)
}

/// Returns the refusal to restart a job execution of this status, if it may not be restarted.
fn refusal_by_status(restartable: bool, status: BatchStatus) -> Option<Refusal>
    ensures { result ≡ refusal_by_status restartable status }
{
    match status {
        BatchStatus::Completed => Some(Refusal::JobExecutionAlreadyCompleteException),
        BatchStatus::Stopped | BatchStatus::Failed => if restartable {
            None
        } else {
            Some(Refusal::JobRestartException)
        },
        BatchStatus::Starting
        | BatchStatus::Started
        | BatchStatus::Stopping
        | BatchStatus::Abandoned => Some(Refusal::JobRestartException),
    }
}

/// Returns the element at which a restart begins.
fn restart_point<'a>(taken_up: bool, value: &'a Value, from: &'a T256) -> &'a T256
    ensures { result.now ≡ restart_point taken_up value.now from.now }
{
    match value {
        Value::Ended { point, .. } => match point {
            Some(point) => if taken_up { point } else { from },
            None => from,
        },
        Value::Open { .. } => from,
        Value::Done { .. } => from,
    }
}

/// Returns the element at which the restart of a job execution begins.
fn point_of_restart(
    alloc: Global,
    records: &Records,
    catalogue: &Catalogue,
    row: &ExecutionRow,
) -> Result<T256, OutOfMemory>
    requires { is_placed catalogue.now row.now ≡ true }
    ensures { IfOk result (λ point. point ≡ restart_point (is_some row.now.start)
        (walk_value catalogue.now records.now.works row.now.execution row.now.job row.now.plan)
        row.now.plan.from) }
{
    let value = walk_value(alloc, catalogue, records, row)?;
    let point = restart_point(row.start.is_some(), &value, &row.plan.get().from).try_clone();
    drop(value);
    point
}

/// Returns the plan of the restart of a job execution: the element at which it begins, and what it
/// takes over from all job executions of its job instance. See Jakarta Batch 2.1, "Job Restart
/// Processing".
///
/// # Errors
///
/// `OutOfMemory` if memory is refused.
pub fn restart_plan(
    alloc: Global,
    records: &Records,
    catalogue: &Catalogue,
    row: &ExecutionRow,
) -> Result<Plan, OutOfMemory>
    requires { is_placed catalogue.now row.now ≡ true }
    ensures plan { (count : ℕ) (last : Last) → IfOk result (λ plan. plan
        ≡ restart_plan (rows_over catalogue.now count last records.now) row.now) }
    ensures begins { IfOk result (λ plan.
        begins_in_job plan (job_named catalogue.now row.now.job) ≡ true) }
{
    let job = job_of(catalogue, row);
    let from = point_of_restart(alloc, records, catalogue, row)?;
    plan_after(alloc, records, row.instance, from, job.elements())
}

/// Returns why a job execution may not be restarted, or `None` if it may (Jakarta Batch 2.1,
/// "JobOperator", restart). The first of these applies:
///
/// - `NoSuchJobExecutionException`: there is no such job execution;
/// - `JobExecutionNotMostRecentException`: its job instance has a later job execution;
/// - `JobExecutionAlreadyCompleteException`: it is COMPLETED;
/// - `JobRestartException`: it is unfinished or ABANDONED, or its job is not restartable.
pub fn restart_refusal(records: &Records, catalogue: &Catalogue, x: ExecutionId) -> Option<Refusal>
    requires { IsPlaced catalogue.now records.now.executions x }
    ensures { (count : ℕ) (last : Last)
        → result ≡ refusal_due (rows_over catalogue.now count last records.now) x }
{
    let Some(row) = records.execution(x) else {
        return Some(Refusal::NoSuchJobExecutionException);
    };
    let job = job_of(catalogue, row);
    if has_later(records, row) {
        return Some(Refusal::JobExecutionNotMostRecentException);
    }
    refusal_by_status(job.restartable(), row.status())
}
