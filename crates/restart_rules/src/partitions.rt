//! Partitioned steps (Jakarta Batch 2.1, "Step Partitioning"): which job executions are done with a
//! step, and which of its partitions a restart keeps. All work items in this module are of one
//! step.
ghost use Rattle.std.specs.Prelude.{◌≡◌, ◌==◌, ◌∷◌, not, nat_le, Some, map, filter, IfOk, OnOk};
ghost use Rattle.std.specs.List.{list_any};
ghost use Rattle.std.specs.Option.{option_copied};
ghost use Rattle.batch_history.specs.Partitions.{completes_in, done_among, done_executions, executions_with, is_completed, is_completed_after, is_done_after, is_first_done, is_kept_after, is_of_partition, newest_of_partition, partitions_kept, works_before};
ghost use Rattle.batch_history.specs.Works.{completed_exit};

use batch_history::{WorkRow, WorkState};
use batch_ids::{ExecutionId, OutOfMemory, T256, WorkOutcome};
use std::alloc::Global;

/// Returns the exit status of a work item, if it is COMPLETED.
pub(crate) fn completed_exit(state: &WorkState) -> Option<&T256>
    ensures { option_copied result ≡ completed_exit state.now }
{
    match state {
        WorkState::Over(WorkOutcome::Completed, exit) => Some(exit),
        WorkState::Over(WorkOutcome::Failed, _) => None,
        WorkState::Over(WorkOutcome::Stopped, _) => None,
        WorkState::Busy => None,
    }
}

fn is_completed(row: &WorkRow) -> bool
    ensures { result ≡ is_completed row.now }
{
    completed_exit(&row.state).is_some()
}

fn is_of_partition(partition: u32, row: &WorkRow) -> bool
    ensures { result ≡ is_of_partition partition row.now }
{
    row.partition == Some(partition)
}

/// Puts a job execution at the front, and removes it from its other places.
fn move_to_front(executions: &mut Vec<ExecutionId>, x: ExecutionId) -> Result<(), OutOfMemory>
    ensures { OnOk result (executions.new.items
        ≡ x ∷ filter (λ y. not (y == x)) executions.old.items) }
{
    executions.retain(|y| *y != x);
    executions.insert(0, x)?;
    Ok(())
}

/// Returns the job executions that have one of these work items, the newest first.
#[tactic(auto, using(crate::proofs::Keeping::executions_more))]
pub(crate) fn executions_with(
    alloc: Global,
    works: &[&WorkRow],
) -> Result<Vec<ExecutionId>, OutOfMemory>
    ensures { IfOk result (λ executions. executions.items
        ≡ executions_with (map (λ row. row.now) works.now)) }
{
    let mut executions = Vec::new(alloc);
    for row in works {
        move_to_front(&mut executions, row.execution)?;
    }
    Ok(executions)
}

/// Checks whether a partition has a COMPLETED work item in a job execution.
fn completes_in(works: &[&WorkRow], y: ExecutionId, partition: u32) -> bool
    ensures { result ≡ completes_in (map (λ row. row.now) works.now) y partition }
{
    for row in works {
        if row.execution == y && is_of_partition(partition, row) && is_completed(row) {
            return true;
        }
    }
    false
}

/// Returns the newest work item of a partition.
fn newest_of_partition<'a>(works: &[&'a WorkRow], partition: u32) -> Option<&'a WorkRow>
    ensures { option_copied result
        ≡ newest_of_partition (map (λ row. row.now) works.now) partition }
{
    let mut newest = None;
    for row in works {
        if is_of_partition(partition, row) {
            newest = Some(*row);
        }
    }
    newest
}

/// Returns the work items of job executions before this one.
fn works_before<'a>(
    alloc: Global,
    y: ExecutionId,
    works: &[&'a WorkRow],
) -> Result<Vec<&'a WorkRow>, OutOfMemory>
    ensures { IfOk result (λ before. map (λ row. row.now) before.items
        ≡ works_before y (map (λ row. row.now) works.now)) }
{
    let mut before = Vec::new(alloc);
    for row in works {
        if row.execution.value() < y.value() {
            before.push(*row)?;
        }
    }
    Ok(before)
}

/// Checks whether one of these job executions is this one or a later one.
fn has_from(executions: &[ExecutionId], x: ExecutionId) -> bool
    ensures { result ≡ list_any (λ y. nat_le x y) executions.now }
{
    for y in executions {
        if x.value() <= y.value() {
            return true;
        }
    }
    false
}

/// Checks whether a list contains this job execution.
fn is_among(executions: &[ExecutionId], x: ExecutionId) -> bool
    ensures { result ≡ list_any (λ y. y == x) executions.now }
{
    for y in executions {
        if *y == x {
            return true;
        }
    }
    false
}

/// Checks whether a newest work item is COMPLETED, and no job execution in `done` is its own or a
/// later one.
fn is_completed_after(done: &[ExecutionId], newest: Option<&WorkRow>) -> bool
    ensures { result ≡ is_completed_after done.now (option_copied newest.entry) }
{
    match newest {
        None => false,
        Some(row) => is_completed(row) && !has_from(done, row.execution),
    }
}

/// Checks whether a partition is kept after this work, if the job executions in `done` were done
/// with the step.
fn is_kept_after(done: &[ExecutionId], works: &[&WorkRow], partition: u32) -> bool
    ensures { result ≡ is_kept_after done.now (map (λ row. row.now) works.now) partition }
{
    is_completed_after(done, newest_of_partition(works, partition))
}

/// Checks whether a job execution is done with a step of `count` partitions, if the older job
/// executions in `done` were.
#[tactic(auto, using(crate::proofs::Keeping::numbers_ahead))]
fn is_done_after(
    alloc: Global,
    count: u32,
    done: &[ExecutionId],
    works: &[&WorkRow],
    y: ExecutionId,
) -> Result<bool, OutOfMemory>
    ensures { IfOk result (λ is. is
        ≡ is_done_after count done.now (map (λ row. row.now) works.now) y) }
{
    let before = works_before(alloc, y, works)?;
    for partition in 0..count {
        let kept = is_kept_after(done, before.as_slice(), partition);
        if !kept && !completes_in(works, y, partition) {
            return Ok(false);
        }
    }
    Ok(true)
}

/// Returns those of these job executions, the newest first, that are done with a step of `count`
/// partitions.
#[tactic(auto, using(crate::proofs::Keeping::done_at))]
fn done_among(
    alloc: Global,
    count: u32,
    works: &[&WorkRow],
    executions: &[ExecutionId],
) -> Result<Vec<ExecutionId>, OutOfMemory>
    ensures { IfOk result (λ done. done.items
        ≡ done_among count (map (λ row. row.now) works.now) executions.now) }
{
    let mut done = Vec::new(alloc);
    let mut place = executions.len();
    while 0 < place {
        place -= 1;
        let y = executions[place];
        if is_done_after(alloc, count, done.as_slice(), works, y)? {
            done.insert(0, y)?;
        }
    }
    Ok(done)
}

/// Returns the job executions that are done with a step of `count` partitions, the newest first.
fn done_executions(
    alloc: Global,
    count: u32,
    works: &[&WorkRow],
) -> Result<Vec<ExecutionId>, OutOfMemory>
    ensures { IfOk result (λ done. done.items
        ≡ done_executions count (map (λ row. row.now) works.now)) }
{
    let executions = executions_with(alloc, works)?;
    done_among(alloc, count, works, executions.as_slice())
}

/// Checks whether the first of these job executions, if there is one, is in `done`.
fn is_first_done(done: &[ExecutionId], executions: &[ExecutionId]) -> bool
    ensures { result ≡ is_first_done done.now executions.now }
{
    match executions.first() {
        None => false,
        Some(y) => is_among(done, *y),
    }
}

/// Checks whether the newest job execution with work of a step of `count` partitions is done with
/// it.
pub(crate) fn is_done(alloc: Global, count: u32, works: &[&WorkRow]) -> Result<bool, OutOfMemory>
    ensures { IfOk result (λ is. is
        ≡ is_first_done (done_executions count (map (λ row. row.now) works.now))
        (executions_with (map (λ row. row.now) works.now))) }
{
    let executions = executions_with(alloc, works)?;
    let done = done_among(alloc, count, works, executions.as_slice())?;
    Ok(is_first_done(done.as_slice(), executions.as_slice()))
}

/// Returns the partitions that are kept after this work of a step of `count` partitions, by rising
/// number.
#[tactic(auto, using(crate::proofs::Keeping::passing_ahead, crate::proofs::Keeping::failing_ahead))]
pub(crate) fn partitions_kept(
    alloc: Global,
    count: u32,
    works: &[&WorkRow],
) -> Result<Vec<u32>, OutOfMemory>
    ensures { IfOk result (λ kept. kept.items
        ≡ partitions_kept (Some count) (map (λ row. row.now) works.now)) }
{
    let done = done_executions(alloc, count, works)?;
    let mut kept = Vec::new(alloc);
    for partition in 0..count {
        if is_kept_after(done.as_slice(), works, partition) {
            kept.push(partition)?;
        }
    }
    Ok(kept)
}
