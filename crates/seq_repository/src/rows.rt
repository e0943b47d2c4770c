ghost use Rattle.std.specs.Prelude.{◌≡◌, IfOk};
ghost use Rattle.batch_ids.specs.Metrics.{added};
ghost use Rattle.batch_ids.specs.Metrics.{IsWithin, most_after};
ghost use Rattle.seq_repository.specs.Metered.{IsStep};
ghost use Rattle.batch_history.specs.Legal.{most_numbered};
ghost use Rattle.batch_history.specs.NextRows.{reported, over_as, fresh_row, renewed, refreshed};
ghost use Rattle.batch_history.specs.Works.{busy_work};
ghost use Rattle.seq_repository.specs.Changes.{abandoned_at, effect_of};

use batch_history::{ExecutionRow, WorkItem, WorkRow, WorkState};
use batch_ids::{
    BatchStatus, ExecutionId, InstanceId, MetricStep, Metrics, Moment, OutOfMemory, Parameters,
    Shared, T256, WorkOutcome, try_clone_option,
};
use job_plans::Plan;
use reply_rules::{batch_status, earliest, exit_status, is_finished};
use std::alloc::Global;
use walk_rules::Value;

/// The change that an operation makes to its job execution.
#[derive(Clone, Copy, PartialEq, Eq, Debug)]
pub(crate) enum Change {
    /// A stop is requested.
    StopRequest,
    /// The job execution is taken up.
    Claim,
    /// A work item of the job execution is reported on.
    Report,
}

/// Returns the row of a job execution that is made now.
fn row_of(
    x: u64,
    instance: InstanceId,
    at: Moment,
    job: T256,
    parameters: Parameters,
    plan: Shared<Plan>,
) -> ExecutionRow
    ensures { result ≡ fresh_row x instance at job parameters plan }
{
    ExecutionRow {
        execution: ExecutionId::new(x),
        instance,
        job,
        parameters,
        plan,
        stop: false,
        abandoned: false,
        bare: BatchStatus::Starting,
        create: at,
        start: None,
        end: None,
        exit: None,
        updated: at,
    }
}

/// Like `row_of`, with a copy of its job's name and of its parameters.
pub(crate) fn new_execution(
    alloc: Global,
    x: u64,
    instance: InstanceId,
    at: Moment,
    job: &T256,
    parameters: &Parameters,
    plan: Plan,
) -> Result<ExecutionRow, OutOfMemory>
    ensures { IfOk result (λ row. row ≡ fresh_row x instance at job.now parameters.now plan) }
{
    let plan = Shared::new(alloc, plan)?;
    let job = job.try_clone()?;
    let parameters = parameters.try_clone()?;
    Ok(row_of(x, instance, at, job, parameters, plan))
}

/// Returns the row with this start, these flags and this value of its walk.
fn row_with(
    alloc: Global,
    stop: bool,
    abandoned: bool,
    start: Option<Moment>,
    value: &Value,
    at: Moment,
    row: &ExecutionRow,
) -> Result<ExecutionRow, OutOfMemory>
    ensures { IfOk result (λ new. new ≡ renewed stop abandoned start value.now at row.now) }
{
    let job = row.job.try_clone()?;
    let parameters = row.parameters.try_clone()?;
    let plan = row.plan.try_clone()?;
    let bare = batch_status(stop, start, value);
    let exit = exit_status(alloc, stop, start, value)?;
    Ok(ExecutionRow {
        execution: row.execution,
        instance: row.instance,
        job,
        parameters,
        plan,
        stop,
        abandoned,
        bare,
        create: row.create,
        start,
        end: earliest(row.end, is_finished(bare), at),
        exit,
        updated: at,
    })
}

/// Returns the row of a job execution after a change. `value` is the value of its walk after the
/// change.
pub(crate) fn change_row(
    alloc: Global,
    change: Change,
    value: &Value,
    at: Moment,
    row: &ExecutionRow,
) -> Result<ExecutionRow, OutOfMemory>
    ensures { IfOk result (λ new. new ≡ refreshed (effect_of change) value.now at row.now) }
{
    match change {
        Change::StopRequest => row_with(alloc, true, row.abandoned, row.start, value, at, row),
        Change::Claim => {
            let start = earliest(row.start, true, at);
            row_with(alloc, row.stop, row.abandoned, start, value, at, row)
        }
        Change::Report => row_with(alloc, row.stop, row.abandoned, row.start, value, at, row),
    }
}

/// Returns the row of a job execution that is abandoned now. It shows the same of its walk.
pub(crate) fn give_up_row(at: Moment, row: &ExecutionRow) -> Result<ExecutionRow, OutOfMemory>
    ensures { IfOk result (λ new. new ≡ abandoned_at at row.now) }
{
    let job = row.job.try_clone()?;
    let parameters = row.parameters.try_clone()?;
    let plan = row.plan.try_clone()?;
    let exit = try_clone_option(&row.exit)?;
    Ok(ExecutionRow {
        execution: row.execution,
        instance: row.instance,
        job,
        parameters,
        plan,
        stop: row.stop,
        abandoned: true,
        bare: row.bare,
        create: row.create,
        start: row.start,
        end: row.end,
        exit,
        updated: at,
    })
}

/// Returns the row of a work item that is handed out to this session.
pub(crate) fn new_work(who: u64, at: Moment, item: &WorkItem) -> Result<WorkRow, OutOfMemory>
    ensures { IfOk result (λ row. row ≡ busy_work who at item.now) }
{
    let element = item.element.try_clone()?;
    Ok(WorkRow {
        work: item.work,
        execution: item.execution,
        element,
        partition: item.partition,
        kind: item.task.kind(),
        claimer: who,
        state: WorkState::Busy,
        start: at,
        end: None,
        ended: None,
        metrics: Metrics::zero(),
    })
}

fn copy_state(state: &WorkState) -> Result<WorkState, OutOfMemory>
    ensures { IfOk result (λ copy. copy ≡ state.now) }
{
    match state {
        WorkState::Busy => Ok(WorkState::Busy),
        WorkState::Over(outcome, exit) => Ok(WorkState::Over(*outcome, exit.try_clone()?)),
    }
}

/// Returns the metrics with these counts added.
fn add_counts(metrics: Metrics, step: MetricStep) -> Metrics
    requires { IsWithin (most_after most_numbered) metrics }
    ensures sum { result ≡ added metrics step }
    ensures small { IsStep step }
{
    let mut sum = metrics;
    sum.add(&step);
    sum
}

/// Returns the row of a work item with these counts added to its metrics.
pub(crate) fn report_counts(step: MetricStep, row: &WorkRow) -> Result<WorkRow, OutOfMemory>
    requires { IsWithin (most_after most_numbered) row.now.metrics }
    ensures new { IfOk result (λ new. new ≡ reported step row.now) }
    ensures small { IsStep step }
{
    let metrics = add_counts(row.metrics, step);
    let element = row.element.try_clone()?;
    let state = copy_state(&row.state)?;
    Ok(WorkRow {
        work: row.work,
        execution: row.execution,
        element,
        partition: row.partition,
        kind: row.kind,
        claimer: row.claimer,
        state,
        start: row.start,
        end: row.end,
        ended: row.ended,
        metrics,
    })
}

/// Returns the row of a work item that is over, by the operation with this number.
pub(crate) fn end_work(
    outcome: WorkOutcome,
    exit: T256,
    step: MetricStep,
    at: Moment,
    number: u64,
    row: &WorkRow,
) -> Result<WorkRow, OutOfMemory>
    requires { IsWithin (most_after most_numbered) row.now.metrics }
    ensures new { IfOk result (λ new. new ≡ over_as outcome exit step at number row.now) }
    ensures small { IsStep step }
{
    let metrics = add_counts(row.metrics, step);
    let element = row.element.try_clone()?;
    Ok(WorkRow {
        work: row.work,
        execution: row.execution,
        element,
        partition: row.partition,
        kind: row.kind,
        claimer: row.claimer,
        state: WorkState::Over(outcome, exit),
        start: row.start,
        end: Some(at),
        ended: Some(number),
        metrics,
    })
}
