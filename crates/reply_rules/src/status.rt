//! The statuses of a job execution, from its walk.
ghost use Rattle.std.specs.Prelude.{◌≡◌, IfOk, is_some};
ghost use Rattle.std.specs.Option.{option_copied};
ghost use Rattle.batch_history.specs.Moments.{first_moment};
ghost use Rattle.batch_history.specs.Replies.{first_ready, has_something_by};
ghost use Rattle.batch_history.specs.Statuses.{is_finished, batch_status, exit_status, status_of_walk, exit_of_walk, stopping_status, stopped_exit, stopping_exit_status};
ghost use Rattle.batch_history.specs.Works.{exit_or_name};
ghost use Rattle.walk_rules.specs.declared.facts.Value.{Value as Walk};

use batch_ids::{BatchStatus, Moment, OutOfMemory, T256, WorkOutcome};
use std::alloc::Global;
use walk_rules::{Value, WorkKey, WorkKeys};

/// Returns the exit status of a work item: the one that was given, or else its outcome's name.
///
/// # Errors
///
/// `OutOfMemory` if memory is refused.
pub fn exit_or_name(
    alloc: Global,
    outcome: WorkOutcome,
    exit: &Option<T256>,
) -> Result<T256, OutOfMemory>
    ensures { IfOk result (λ text. text ≡ exit_or_name outcome exit.now) }
{
    match exit {
        Some(exit) => Ok(exit.try_clone()?),
        None => Ok(T256::within(alloc, outcome.status().name())?),
    }
}

/// Returns the first work key of a walk that may be run now.
pub fn first_ready(value: &Value) -> Option<&WorkKey>
    ensures { option_copied result ≡ first_ready value.now }
{
    match value {
        Value::Open { ready, .. } => ready.as_slice().first(),
        Value::Done { .. } => None,
        Value::Ended { .. } => None,
    }
}

/// Checks whether there is something to do for a job execution of this status. `ready` says whether
/// its walk has a work key that may be run now.
pub fn has_something(status: BatchStatus, ready: bool) -> bool
    ensures { (value : Walk) → ready ≡ is_some (first_ready value)
        → result ≡ has_something_by status value }
{
    match status {
        BatchStatus::Starting => true,
        BatchStatus::Started => ready,
        BatchStatus::Stopping => false,
        BatchStatus::Stopped => false,
        BatchStatus::Failed => false,
        BatchStatus::Completed => false,
        BatchStatus::Abandoned => false,
    }
}

/// Checks whether a job execution of this status is over.
pub fn is_finished(status: BatchStatus) -> bool
    ensures { result ≡ is_finished status }
{
    if status.is_unfinished() { false } else { true }
}

/// Returns the earlier moment if there is one, or else this moment if it counts.
pub fn earliest(earlier: Option<Moment>, counts: bool, at: Moment) -> Option<Moment>
    ensures { result ≡ first_moment earlier counts at }
{
    match earlier {
        Some(moment) => Some(moment),
        None => if counts { Some(at) } else { None },
    }
}

/// Returns the batch status of a job execution that was asked to stop, from the work keys that are
/// being run.
fn stop_status(busy: &WorkKeys) -> BatchStatus
    ensures { result ≡ stopping_status busy.now }
{
    match busy.as_slice().first() {
        None => BatchStatus::Stopped,
        Some(_) => BatchStatus::Stopping,
    }
}

fn status_of_walk(stop: bool, value: &Value) -> BatchStatus
    ensures { result ≡ status_of_walk stop value.now }
{
    match value {
        Value::Open { busy, .. } => if stop {
            stop_status(busy)
        } else {
            BatchStatus::Started
        },
        Value::Done { .. } => BatchStatus::Completed,
        Value::Ended { status, .. } => *status,
    }
}

/// Returns the batch status of a job execution, unless it is ABANDONED. It depends on whether it
/// was asked to stop, its start and its walk.
pub fn batch_status(stop: bool, start: Option<Moment>, value: &Value) -> BatchStatus
    ensures { result ≡ batch_status stop start value.now }
{
    match start {
        None => if stop {
            BatchStatus::Stopped
        } else {
            BatchStatus::Starting
        },
        Some(_) => status_of_walk(stop, value),
    }
}

/// Returns the exit status of a job execution that a stop ended.
fn stopped_exit(alloc: Global) -> Result<Option<T256>, OutOfMemory>
    ensures { IfOk result (λ exit. exit ≡ stopped_exit) }
{
    Ok(Some(T256::within(alloc, BatchStatus::Stopped.name())?))
}

fn exit_of_stop(alloc: Global, busy: &WorkKeys) -> Result<Option<T256>, OutOfMemory>
    ensures { IfOk result (λ exit. exit ≡ stopping_exit_status busy.now) }
{
    match busy.as_slice().first() {
        None => stopped_exit(alloc),
        Some(_) => Ok(None),
    }
}

fn exit_of_walk(alloc: Global, stop: bool, value: &Value) -> Result<Option<T256>, OutOfMemory>
    ensures { IfOk result (λ exit. exit ≡ exit_of_walk stop value.now) }
{
    match value {
        Value::Open { busy, .. } => if stop {
            exit_of_stop(alloc, busy)
        } else {
            Ok(None)
        },
        Value::Done { .. } => Ok(Some(T256::within(alloc, BatchStatus::Completed.name())?)),
        Value::Ended { exit, .. } => Ok(Some(exit.try_clone()?)),
    }
}

/// Returns the exit status of a job execution, unless it is ABANDONED. It depends on whether it was
/// asked to stop, its start and its walk. There is none while the job execution is unfinished.
///
/// # Errors
///
/// `OutOfMemory` if memory is refused.
pub fn exit_status(
    alloc: Global,
    stop: bool,
    start: Option<Moment>,
    value: &Value,
) -> Result<Option<T256>, OutOfMemory>
    ensures { IfOk result (λ exit. exit ≡ exit_status stop start value.now) }
{
    match start {
        None => if stop { stopped_exit(alloc) } else { Ok(None) },
        Some(_) => exit_of_walk(alloc, stop, value),
    }
}
