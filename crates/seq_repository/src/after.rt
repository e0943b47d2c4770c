//! The state of a work item and of its job execution after a report of the work item.
ghost use Rattle.std.specs.Prelude.{◌≡◌, IfOk};
ghost use Rattle.std.specs.Option.{option_copied};
ghost use Rattle.batch_ids.specs.Metrics.{IsWithin, most_after};
ghost use Rattle.batch_history.specs.Legal.{most_numbered};
ghost use Rattle.batch_history.specs.NextRows.{over_as, reported};
ghost use Rattle.seq_repository.specs.Metered.{IsStep};
ghost use Rattle.seq_repository.specs.Reports.{IsAfter};

use crate::entering::execution_after;
use crate::rows::{self, Change};
use batch_history::{ExecutionRow, WorkRow};
use batch_ids::{MetricStep, Moment, OutOfMemory, T256, WorkOutcome};
use job_walk::Cursor;
use std::alloc::Global;
use walk_rules::WorkKey;

/// The state of a job execution after a report of a work item.
pub(crate) struct After {
    /// The work key of the work item.
    pub(crate) step: WorkKey,
    /// The new row of the job execution, if it exists.
    pub(crate) row: Option<ExecutionRow>,
    /// Whether there is something to do for the job execution.
    pub(crate) ready: bool,
}

/// The new row of a work item, and the state of its job execution.
pub(crate) struct Reported {
    pub(crate) work: WorkRow,
    pub(crate) after: After,
}

/// How a work item ends.
#[derive(Drop)]
pub(crate) struct End {
    pub(crate) outcome: WorkOutcome,
    /// The exit status that the work item shows then.
    pub(crate) exit: T256,
    pub(crate) step: MetricStep,
    pub(crate) at: Moment,
    /// The number of the operation that ends it.
    pub(crate) number: u64,
}

/// Returns the state after a report of this work item. `owner` is the row of its job execution
/// before, and `cursor` has the walk after the report.
fn after_report(
    alloc: Global,
    owner: Option<&ExecutionRow>,
    work: &WorkRow,
    cursor: &Option<Cursor>,
    at: Moment,
) -> Result<After, OutOfMemory>
    ensures { IfOk result (λ after. IsAfter (option_copied owner.entry) at work.now after cursor.now) }
{
    let step = work.key()?;
    let (row, ready) = execution_after(alloc, owner, Change::Report, cursor, at)?;
    Ok(After { step, row, ready })
}

/// Returns the state after a checkpoint of this work item.
pub(crate) fn after_checkpoint(
    alloc: Global,
    owner: Option<&ExecutionRow>,
    work: &WorkRow,
    step: MetricStep,
    cursor: &Option<Cursor>,
    at: Moment,
) -> Result<Reported, OutOfMemory>
    requires { IsWithin (most_after most_numbered) work.now.metrics }
    ensures work { IfOk result (λ new. new.work ≡ reported step work.now) }
    ensures small { IfOk result (λ _. IsStep step) }
    ensures after { IfOk result (λ new. IsAfter (option_copied owner.entry) at new.work new.after cursor.now) }
{
    let work = rows::report_counts(step, work)?;
    match after_report(alloc, owner, &work, cursor, at) {
        Ok(after) => Ok(Reported { work, after }),
        Err(error) => {
            drop(work);
            Err(error)
        }
    }
}

/// Returns the state after the end of this work item.
pub(crate) fn after_end(
    alloc: Global,
    owner: Option<&ExecutionRow>,
    work: &WorkRow,
    end: End,
    cursor: &Option<Cursor>,
) -> Result<Reported, OutOfMemory>
    requires { IsWithin (most_after most_numbered) work.now.metrics }
    ensures work { IfOk result (λ new. new.work ≡ over_as end.outcome end.exit end.step end.at end.number work.now) }
    ensures small { IfOk result (λ _. IsStep end.step) }
    ensures after { IfOk result (λ new. IsAfter (option_copied owner.entry) end.at new.work new.after cursor.now) }
{
    let End {
        outcome,
        exit,
        step,
        at,
        number,
    } = end;
    let work = rows::end_work(outcome, exit, step, at, number, work)?;
    match after_report(alloc, owner, &work, cursor, at) {
        Ok(after) => Ok(Reported { work, after }),
        Err(error) => {
            drop(work);
            Err(error)
        }
    }
}
