// Equality of rows: whether a line that was read back has the row that was written.
ghost use Rattle.std.specs.Prelude.{◌≡◌, ◌↔◌, IsTrue};
ghost use Rattle.base_text.specs.Sameness.{IsSameBegin, AreSameMoments, IsSameState};

use crate::head::BaseHead;
use crate::line::BaseLine;
use batch_history::{CheckpointRow, ExecutionRow, WorkRow};
use batch_ids::{BatchStatus, Parameters, T256};
use job_plans::Plan;
use walk_rules::WorkKey;

/// Checks whether a line is this head.
pub fn is_head(line: &BaseLine, head: &BaseHead) -> bool
    ensures { IsTrue result ↔ (line.now ≡ BaseLine.Head head.now) }
{
    match line {
        BaseLine::Head(read) => is_same_head(read, head),
        _ => false,
    }
}

/// Checks whether a line has this row of a job execution.
pub fn is_execution(line: &BaseLine, row: &ExecutionRow) -> bool
    ensures { IsTrue result ↔ (line.now ≡ BaseLine.Execution row.now) }
{
    match line {
        BaseLine::Execution(read) => is_same_execution(read, row),
        _ => false,
    }
}

/// Checks whether a line has this row of a work item.
pub fn is_work(line: &BaseLine, row: &WorkRow) -> bool
    ensures { IsTrue result ↔ (line.now ≡ BaseLine.Work row.now) }
{
    match line {
        BaseLine::Work(read) => is_same_work(read, row),
        _ => false,
    }
}

/// Checks whether a line has this row of a checkpoint.
pub fn is_checkpoint(line: &BaseLine, row: &CheckpointRow) -> bool
    ensures { IsTrue result ↔ (line.now ≡ BaseLine.Checkpoint row.now) }
{
    match line {
        BaseLine::Checkpoint(read) => is_same_checkpoint(read, row),
        _ => false,
    }
}

fn is_same_head(head: &BaseHead, other: &BaseHead) -> bool
    ensures { IsTrue result ↔ (head.now ≡ other.now) }
{
    head == other
}

fn is_same_execution(row: &ExecutionRow, other: &ExecutionRow) -> bool
    ensures { IsTrue result ↔ (row.now ≡ other.now) }
{
    is_same_begin(row, other) && are_same_moments(row, other) && is_same_state(row, other)
}

fn is_same_begin(row: &ExecutionRow, other: &ExecutionRow) -> bool
    ensures { IsTrue result ↔ IsSameBegin row.now other.now }
{
    row.execution == other.execution
        && row.instance == other.instance
        && row.job == other.job
        && are_same_parameters(&row.parameters, &other.parameters)
        && is_same_plan(row.plan.get(), other.plan.get())
}

fn are_same_moments(row: &ExecutionRow, other: &ExecutionRow) -> bool
    ensures { IsTrue result ↔ AreSameMoments row.now other.now }
{
    row.create == other.create
        && row.start == other.start
        && row.end == other.end
        && row.updated == other.updated
}

fn is_same_state(row: &ExecutionRow, other: &ExecutionRow) -> bool
    ensures { IsTrue result ↔ IsSameState row.now other.now }
{
    row.stop == other.stop
        && row.abandoned == other.abandoned
        && is_same_status(row.bare, other.bare)
        && row.exit == other.exit
}

fn is_same_status(status: BatchStatus, other: BatchStatus) -> bool
    ensures { IsTrue result ↔ (status ≡ other) }
{
    status == other
}

fn are_same_parameters(parameters: &Parameters, others: &Parameters) -> bool
    ensures { IsTrue result ↔ (parameters.now ≡ others.now) }
{
    parameters == others
}

fn is_same_work(work: &WorkRow, other: &WorkRow) -> bool
    ensures { IsTrue result ↔ (work.now ≡ other.now) }
{
    work == other
}

fn is_same_checkpoint(row: &CheckpointRow, other: &CheckpointRow) -> bool
    ensures { IsTrue result ↔ (row.now ≡ other.now) }
{
    row == other
}

fn is_same_plan(plan: &Plan, other: &Plan) -> bool
    ensures { IsTrue result ↔ (plan.now ≡ other.now) }
{
    plan.from == other.from
        && are_same_carried(plan.carried.as_slice(), other.carried.as_slice())
        && are_same_keys(plan.kept.as_slice(), other.kept.as_slice())
        && are_same_steps(plan.barred.as_slice(), other.barred.as_slice())
}

fn are_same_carried(steps: &[(T256, T256)], others: &[(T256, T256)]) -> bool
    ensures { IsTrue result ↔ (steps.now ≡ others.now) }
{
    steps == others
}

fn are_same_keys(keys: &[WorkKey], others: &[WorkKey]) -> bool
    ensures { IsTrue result ↔ (keys.now ≡ others.now) }
{
    keys == others
}

fn are_same_steps(steps: &[T256], others: &[T256]) -> bool
    ensures { IsTrue result ↔ (steps.now ≡ others.now) }
{
    steps == others
}
