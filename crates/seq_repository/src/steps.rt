//! The step executions of a job execution (Jakarta Batch 2.1, "StepExecution").
ghost use Rattle.std.specs.Prelude.{◌≡◌, ◌||◌, ◌&&◌, map, filter_map, IfOk, if◌then◌else◌};
ghost use Rattle.std.specs.List.{list_any, list_all};
ghost use Rattle.std.specs.Option.{option_and_then, option_copied};
ghost use Rattle.batch_ids.specs.Metrics.{most_after, sum_of_metrics};
ghost use Rattle.batch_ids.specs.declared.status.BatchStatus.TheVariants.{Stopped, Failed, Completed};
ghost use Rattle.job_plans.specs.Plans.{is_kept};
ghost use Rattle.walk_rules.specs.Keys.{key_of};
ghost use Rattle.batch_history.specs.Legal.{most_numbered};
ghost use Rattle.batch_history.specs.Lists.{is_at};
ghost use Rattle.batch_history.specs.Replies.{partitions_of_job, row_status};
ghost use Rattle.batch_history.specs.Rows.{Rows};
ghost use Rattle.batch_history.specs.StepExecutions.{is_busy, is_failed, is_stopped, is_left, any_left, ended_by, last_ended, same_step, is_first, shown_partitions, partitions_shown, step_by_partition, step_execution, step_executions};
ghost use Rattle.batch_history.specs.Walks.{job_named};
ghost use Rattle.batch_history.specs.Works.{work_key};
ghost use Rattle.records.specs.Left.{works_of};
ghost use Rattle.seq_repository.specs.Metered.{AreWithin};

use batch_history::{ExecutionRow, StepExecution, WorkKind, WorkRow, WorkState};
use batch_ids::{
    BatchStatus, ExecutionId, Listed, Metrics, Moment, OutOfMemory, T256, WorkOutcome,
};
use jsl_model::Catalogue;
use records::Records;
use std::alloc::Global;
use walk_rules::WorkKey;

/// Checks whether this partition of a step is kept: earlier job executions completed it.
fn is_kept(owner: &ExecutionRow, step: &T256, partition: u32) -> bool
    ensures { result ≡ is_kept owner.now.plan (key_of step.now partition) }
{
    for key in owner.plan.get().kept.as_slice() {
        if *step == key.element && partition == key.partition {
            return true;
        }
    }
    false
}

/// Checks whether one of these work items is of this partition.
fn has_partition(items: &[&WorkRow], partition: u32) -> bool
    ensures { result ≡ list_any (λ row. is_at partition row.partition) (map (λ row. row.now) items.now) }
{
    for row in items {
        if row.partition == Some(partition) {
            return true;
        }
    }
    false
}

/// Checks whether this partition of a step is left: it is not kept, and has no work item.
fn is_left(owner: &ExecutionRow, step: &T256, items: &[&WorkRow], partition: u32) -> bool
    ensures { result ≡ is_left owner.now.plan step.now (map (λ row. row.now) items.now) partition }
{
    !is_kept(owner, step, partition) && !has_partition(items, partition)
}

/// Checks whether one of `count` partitions is left.
#[tactic(auto, using(restart_rules::proofs::Keeping::numbers_ahead))]
fn any_left(owner: &ExecutionRow, step: &T256, items: &[&WorkRow], count: Option<u32>) -> bool
    ensures { result ≡ any_left owner.now.plan step.now (map (λ row. row.now) items.now) count }
{
    match count {
        None => false,
        Some(count) => {
            for partition in 0..count {
                if is_left(owner, step, items, partition) {
                    return true;
                }
            }
            false
        }
    }
}

fn is_busy(state: &WorkState) -> bool
    ensures { result ≡ is_busy state.now }
{
    match state {
        WorkState::Busy => true,
        WorkState::Over(_, _) => false,
    }
}

fn has_busy(items: &[&WorkRow]) -> bool
    ensures { result ≡ list_any (λ row. is_busy row.state) (map (λ row. row.now) items.now) }
{
    for row in items {
        if is_busy(&row.state) {
            return true;
        }
    }
    false
}

/// Checks whether the step execution goes on: a partition is busy, or one is left and the job
/// execution is unfinished.
fn goes_on(unfinished: bool, left: bool, items: &[&WorkRow]) -> bool
    ensures { result ≡ (list_any (λ row. is_busy row.state) (map (λ row. row.now) items.now)
        || (left && unfinished)) }
{
    has_busy(items) || (left && unfinished)
}

fn is_failed(state: &WorkState) -> bool
    ensures { result ≡ is_failed state.now }
{
    match state {
        WorkState::Over(WorkOutcome::Failed, _) => true,
        WorkState::Over(WorkOutcome::Completed, _) => false,
        WorkState::Over(WorkOutcome::Stopped, _) => false,
        WorkState::Busy => false,
    }
}

fn is_stopped(state: &WorkState) -> bool
    ensures { result ≡ is_stopped state.now }
{
    match state {
        WorkState::Over(WorkOutcome::Stopped, _) => true,
        WorkState::Over(WorkOutcome::Completed, _) => false,
        WorkState::Over(WorkOutcome::Failed, _) => false,
        WorkState::Busy => false,
    }
}

fn has_failed(items: &[&WorkRow]) -> bool
    ensures { result ≡ list_any (λ row. is_failed row.state) (map (λ row. row.now) items.now) }
{
    for row in items {
        if is_failed(&row.state) {
            return true;
        }
    }
    false
}

fn has_stopped(items: &[&WorkRow]) -> bool
    ensures { result ≡ list_any (λ row. is_stopped row.state) (map (λ row. row.now) items.now) }
{
    for row in items {
        if is_stopped(&row.state) {
            return true;
        }
    }
    false
}

/// Returns the batch status of partitions that do not go on.
fn status_over(left: bool, items: &[&WorkRow]) -> BatchStatus
    ensures { result ≡ (if list_any (λ row. is_failed row.state) (map (λ row. row.now) items.now)
        then Failed else if left || list_any (λ row. is_stopped row.state)
        (map (λ row. row.now) items.now) then Stopped else Completed) }
{
    if has_failed(items) {
        BatchStatus::Failed
    } else if left || has_stopped(items) {
        BatchStatus::Stopped
    } else {
        BatchStatus::Completed
    }
}

/// Checks whether `one` was ended by no later operation than `other`.
fn is_ended_by(one: &WorkRow, other: &WorkRow) -> bool
    ensures { result ≡ ended_by one.now.ended other.now.ended }
{
    match (one.ended, other.ended) {
        (None, _) => true,
        (Some(_), None) => false,
        (Some(one), Some(other)) => one <= other,
    }
}

/// Checks whether these work items were ended by no later operation than `last`.
fn are_ended_by(items: &[&WorkRow], last: &WorkRow) -> bool
    ensures { result ≡ list_all (λ other. ended_by other.ended last.now.ended)
        (map (λ row. row.now) items.now) }
{
    for row in items {
        if !is_ended_by(row, last) {
            return false;
        }
    }
    true
}

/// Returns the work item that ended last.
fn last_ended<'a>(items: &[&'a WorkRow]) -> Option<&'a WorkRow>
    ensures { option_copied result ≡ last_ended (map (λ row. row.now) items.now) }
{
    for row in items {
        if are_ended_by(items, row) {
            return Some(*row);
        }
    }
    None
}

/// Returns the end of the work item that ended last.
fn last_end(items: &[&WorkRow]) -> Option<Moment>
    ensures { result ≡ option_and_then (λ row. row.end)
        (last_ended (map (λ row. row.now) items.now)) }
{
    match last_ended(items) {
        None => None,
        Some(row) => row.end,
    }
}

/// Returns the sums of the reported metrics of these work items.
#[tactic(auto, using(crate::proofs::Metering::both_none))]
fn sum_of(items: &[&WorkRow]) -> Metrics
    requires { AreWithin (most_after most_numbered) (map (λ row. row.now) items.now) }
    ensures { result ≡ sum_of_metrics
        (map (λ row. row.metrics) (map (λ row. row.now) items.now)) }
{
    let mut sum = Metrics::zero();
    for row in items {
        sum.join(&row.metrics);
    }
    sum
}

/// Returns the step execution of these partitions of a step, the first of which is this work item.
fn shown_partitions(
    alloc: Global,
    owner: &ExecutionRow,
    left: bool,
    items: &[&WorkRow],
    first: &WorkRow,
) -> Result<StepExecution, OutOfMemory>
    requires { AreWithin (most_after most_numbered) (map (λ row. row.now) items.now) }
    ensures { IfOk result (λ shown. shown
        ≡ shown_partitions owner.now left (map (λ row. row.now) items.now) first.now) }
{
    let step = first.element.try_clone()?;
    let metrics = sum_of(items);
    if goes_on(owner.status().is_unfinished(), left, items) {
        return Ok(StepExecution {
            work: first.work,
            execution: first.execution,
            step,
            status: BatchStatus::Started,
            start: first.start,
            end: None,
            exit: None,
            metrics,
        });
    }
    let status = status_over(left, items);
    let end = if left { owner.end } else { last_end(items) };
    Ok(StepExecution {
        work: first.work,
        execution: first.execution,
        step,
        status,
        start: first.start,
        end,
        exit: Some(T256::within(alloc, status.name())?),
        metrics,
    })
}

/// Returns the work items of a job execution that are of the same step as this one.
fn same_step<'a>(
    alloc: Global,
    works: &[&'a WorkRow],
    row: &WorkRow,
) -> Result<Vec<&'a WorkRow>, OutOfMemory>
    ensures { IfOk result (λ items. map (λ item. item.now) items.items
        ≡ same_step (map (λ work. work.now) works.now) row.now) }
{
    let mut items = Vec::new(alloc);
    for work in works {
        if work.element == row.element {
            items.push(*work)?;
        }
    }
    Ok(items)
}

/// Returns the number of partitions of the step of a work item, if it is partitioned.
fn partitions_of(catalogue: &Catalogue, owner: &ExecutionRow, key: &WorkKey) -> Option<u32>
    ensures { result ≡ partitions_of_job (job_named catalogue.now owner.now.job) key.now }
{
    match catalogue.job(owner.job.as_str()) {
        None => None,
        Some(job) => job_plans::find_partitions(job, key),
    }
}

/// Checks whether a work item is the first of these.
fn is_first(items: &[&WorkRow], row: &WorkRow) -> bool
    ensures { result ≡ is_first (map (λ item. item.now) items.now) row.now }
{
    match items.first() {
        None => false,
        Some(first) => first.work == row.work,
    }
}

/// Returns the step execution of the partitions of a step, if it begins with this work item.
fn partitions_shown(
    alloc: Global,
    catalogue: &Catalogue,
    owner: &ExecutionRow,
    works: &[&WorkRow],
    row: &WorkRow,
) -> Result<Option<StepExecution>, OutOfMemory>
    requires { AreWithin (most_after most_numbered) (map (λ work. work.now) works.now) }
    ensures { IfOk result (λ step. step ≡ partitions_shown owner.now
        (partitions_of_job (job_named catalogue.now owner.now.job) (work_key row.now))
        (same_step (map (λ work. work.now) works.now) row.now) row.now) }
{
    let items = same_step(alloc, works, row)?;
    if !is_first(items.as_slice(), row) {
        return Ok(None);
    }
    let key = row.key()?;
    let count = partitions_of(catalogue, owner, &key);
    let left = any_left(owner, &row.element, items.as_slice(), count);
    let shown = shown_partitions(alloc, owner, left, items.as_slice(), row)?;
    Ok(Some(shown))
}

/// Returns the step execution that begins with this work item of a step, if there is one.
fn step_by_partition(
    alloc: Global,
    catalogue: &Catalogue,
    owner: &ExecutionRow,
    works: &[&WorkRow],
    row: &WorkRow,
) -> Result<Option<StepExecution>, OutOfMemory>
    requires { AreWithin (most_after most_numbered) (map (λ work. work.now) works.now) }
    ensures { IfOk result (λ step. step ≡ step_by_partition (job_named catalogue.now owner.now.job)
        owner.now (map (λ work. work.now) works.now) row.now row.now.partition) }
{
    match row.partition {
        None => Ok(Some(row.step_execution()?)),
        Some(_) => partitions_shown(alloc, catalogue, owner, works, row),
    }
}

/// Returns the step execution that begins with this work item of a job execution, if there is one.
fn step_execution(
    alloc: Global,
    catalogue: &Catalogue,
    owner: &ExecutionRow,
    works: &[&WorkRow],
    row: &WorkRow,
) -> Result<Option<StepExecution>, OutOfMemory>
    requires { AreWithin (most_after most_numbered) (map (λ work. work.now) works.now) }
    ensures { IfOk result (λ step. step ≡ step_execution (job_named catalogue.now owner.now.job)
        owner.now (map (λ work. work.now) works.now) row.now) }
{
    match row.kind {
        WorkKind::Batchlet => step_by_partition(alloc, catalogue, owner, works, row),
        WorkKind::Chunk => step_by_partition(alloc, catalogue, owner, works, row),
        WorkKind::Decision => Ok(None),
    }
}

/// Returns the work items of a job execution, in order.
fn works_of(alloc: Global, rows: &Records, x: ExecutionId) -> Result<Vec<&WorkRow>, OutOfMemory>
    ensures { IfOk result (λ works. map (λ work. work.now) works.items
        ≡ works_of x rows.now.works) }
{
    let mut works = Vec::new(alloc);
    for row in rows.works_of(x) {
        works.push(row)?;
    }
    Ok(works)
}

/// Returns the step executions that begin with these work items of a job execution.
fn each_of(
    alloc: Global,
    catalogue: &Catalogue,
    owner: &ExecutionRow,
    works: &[&WorkRow],
) -> Result<Vec<StepExecution>, OutOfMemory>
    requires { AreWithin (most_after most_numbered) (map (λ work. work.now) works.now) }
    ensures { IfOk result (λ found. found.items
        ≡ filter_map (step_execution (job_named catalogue.now owner.now.job) owner.now
        (map (λ work. work.now) works.now)) (map (λ work. work.now) works.now)) }
{
    let mut found = Vec::new(alloc);
    for row in works {
        if let Some(step) = step_execution(alloc, catalogue, owner, works, row)? {
            found.push(step)?;
        }
    }
    Ok(found)
}

/// Returns the step executions of a job execution, in order of their first work items.
pub(crate) fn step_executions(
    alloc: Global,
    catalogue: &Catalogue,
    rows: &Records,
    owner: &ExecutionRow,
) -> Result<Listed<StepExecution>, OutOfMemory>
    requires { AreWithin (most_after most_numbered) rows.now.works }
    ensures { (r : Rows) → r.catalogue ≡ catalogue.now → r.works ≡ rows.now.works
        → IfOk result (λ found. found ≡ step_executions r owner.now) }
{
    let works = works_of(alloc, rows, owner.execution)?;
    let found = each_of(alloc, catalogue, owner, works.as_slice())?;
    Ok(Listed::from_vec(found))
}
