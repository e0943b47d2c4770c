ghost use Rattle.std.specs.Prelude.{◌≡◌, IfOk, OnOk, find, map};
ghost use Rattle.std.specs.Option.{option_copied};
ghost use Rattle.walk_rules.specs.Walk.{split_result, all_ready, all_busy, any_open, ended_as};

use crate::copies::add_keys;
use crate::element_result::{ElementResult, name_of};
use crate::facts::Value;
use crate::work_keys::WorkKeys;
use batch_ids::{BatchStatus, Listed, OutOfMemory, WorkOutcome};
use std::alloc::Global;

/// Counts the ready and the busy work keys of all values. The counts are only a capacity to ask
/// for, and no contract describes them.
fn room_for(values: &[&Value]) -> (usize, usize) {
    let mut ready_room = 0usize;
    let mut busy_room = 0usize;
    for value in values {
        match *value {
            Value::Open { ready, busy } => {
                ready_room = ready_room.saturating_add(ready.as_slice().len());
                busy_room = busy_room.saturating_add(busy.as_slice().len());
            }
            Value::Done { .. } => {}
            Value::Ended { .. } => {}
        }
    }
    (ready_room, busy_room)
}

/// Returns the ready and the busy work keys of all values.
fn open_of_all(alloc: Global, values: &[&Value]) -> Result<Value, OutOfMemory>
    ensures { IfOk result (λ value.
        value ≡ Value.Open (all_ready (map (λ value. value.now) values.now))
        (all_busy (map (λ value. value.now) values.now))) }
{
    let (ready_room, busy_room) = room_for(values);
    let mut ready = Vec::with_capacity(alloc, ready_room)?;
    let mut busy = Vec::with_capacity(alloc, busy_room)?;
    for value in values {
        match *value {
            Value::Open {
                ready: more,
                busy: more_busy,
            } => {
                add_keys(&mut ready, more.as_slice())?;
                add_keys(&mut busy, more_busy.as_slice())?;
            }
            Value::Done { .. } => {}
            Value::Ended { .. } => {}
        }
    }
    Ok(Value::Open {
        ready: WorkKeys::new(alloc, Listed::from_vec(ready))?,
        busy: WorkKeys::new(alloc, Listed::from_vec(busy))?,
    })
}

fn is_one_open(values: &[&Value]) -> bool
    ensures { result ≡ any_open (map (λ value. value.now) values.now) }
{
    for value in values {
        match *value {
            Value::Open { .. } => return true,
            Value::Done { .. } => {}
            Value::Ended { .. } => {}
        }
    }
    false
}

fn is_ended(value: &Value, wanted: BatchStatus) -> bool
    ensures { result ≡ ended_as wanted value.now }
{
    match value {
        Value::Ended { status, .. } => match wanted {
            BatchStatus::Failed => matches!(status, BatchStatus::Failed),
            BatchStatus::Stopped => matches!(status, BatchStatus::Stopped),
            BatchStatus::Completed => matches!(status, BatchStatus::Completed),
            BatchStatus::Starting => false,
            BatchStatus::Started => false,
            BatchStatus::Stopping => false,
            BatchStatus::Abandoned => false,
        },
        Value::Open { .. } => false,
        Value::Done { .. } => false,
    }
}

fn find_ended<'v>(values: &[&'v Value], wanted: BatchStatus) -> Option<&'v Value>
    ensures { option_copied result ≡ find (ended_as wanted) (map (λ value. value.now) values.now) }
{
    for value in values {
        if is_ended(value, wanted) {
            return Some(value);
        }
    }
    None
}

/// Returns the own result of a split, from its flows' values. See Jakarta Batch 2.1, "Split".
///
/// # Errors
///
/// `OutOfMemory` if memory is refused.
pub fn split_result(alloc: Global, values: &[Value]) -> Result<ElementResult, OutOfMemory>
    ensures { IfOk result (λ made. made ≡ split_result values.now) }
{
    let mut lent = Vec::with_capacity(alloc, values.len())?;
    for value in values {
        lent.push(value)?;
    }
    split_result_of(alloc, lent.as_slice())
}

/// Like `split_result`, but borrows each value.
///
/// # Errors
///
/// `OutOfMemory` if memory is refused.
pub fn split_result_of(alloc: Global, values: &[&Value]) -> Result<ElementResult, OutOfMemory>
    ensures { IfOk result (λ made. made ≡ split_result (map (λ value. value.now) values.now)) }
{
    if is_one_open(values) {
        return Ok(ElementResult::ListValue(open_of_all(alloc, values)?));
    }
    if let Some(value) = find_ended(values, BatchStatus::Failed) {
        return Ok(ElementResult::ListValue(value.try_clone()?));
    }
    if let Some(value) = find_ended(values, BatchStatus::Stopped) {
        return Ok(ElementResult::ListValue(value.try_clone()?));
    }
    if let Some(value) = find_ended(values, BatchStatus::Completed) {
        return Ok(ElementResult::ListValue(value.try_clone()?));
    }
    Ok(ElementResult::Outcome(
        WorkOutcome::Completed,
        name_of(alloc, BatchStatus::Completed)?,
    ))
}
