ghost use Rattle.std.specs.Prelude.{◌≡◌, ◌≤◌, ◌∷◌, [], IfOk, None, MatchOption};
ghost use Rattle.batch_ids.specs.Statuses.{status_name};
ghost use Rattle.walk_rules.specs.Keys.{key_of};
ghost use Rattle.walk_rules.specs.Walk.{fact_of, runnable_result, ready_result, busy_result};

use crate::facts::{Fact, Known, Value};
use crate::work_key::{WorkKey, key_of};
use crate::work_keys::WorkKeys;
use batch_ids::{BatchStatus, Listed, OutOfMemory, T256, WorkOutcome};
use std::alloc::Global;

/// An element's own result, before its transition elements and its `next` apply.
#[derive(Debug, Drop)]
pub enum ElementResult {
    /// The element's list has this value.
    ListValue(Value),
    /// The element has this outcome and this exit status.
    Outcome(WorkOutcome, T256),
}

fn one_key(alloc: Global, id: &T256) -> Result<WorkKeys, OutOfMemory>
    ensures { IfOk result (λ list. list ≡ key_of id.now 0 ∷ []) }
{
    let mut list = Listed::new(alloc);
    list.push(key_of(id, 0)?)?;
    WorkKeys::new(alloc, list)
}

fn ready_result(alloc: Global, id: &T256) -> Result<ElementResult, OutOfMemory>
    ensures { IfOk result (λ made. made ≡ ready_result (key_of id.now 0)) }
{
    Ok(ElementResult::ListValue(Value::Open {
        ready: one_key(alloc, id)?,
        busy: WorkKeys::none(),
    }))
}

fn busy_result(alloc: Global, id: &T256) -> Result<ElementResult, OutOfMemory>
    ensures { IfOk result (λ made. made ≡ busy_result (key_of id.now 0)) }
{
    Ok(ElementResult::ListValue(Value::Open {
        ready: WorkKeys::none(),
        busy: one_key(alloc, id)?,
    }))
}

/// Returns a status's name as a text.
///
/// # Errors
///
/// `OutOfMemory` if memory is refused.
pub fn name_of(alloc: Global, status: BatchStatus) -> Result<T256, OutOfMemory>
    ensures { IfOk result (λ name. name ≡ status_name status) }
{
    T256::within(alloc, status.name())
}

/// Returns the value that ends a job with this status, and with its name as the exit status.
pub(crate) fn ended_value(alloc: Global, status: BatchStatus) -> Result<Value, OutOfMemory>
    ensures { IfOk result (λ value. value ≡ Value.Ended status (status_name status) None) }
{
    Ok(Value::Ended {
        status,
        exit: name_of(alloc, status)?,
        point: None,
    })
}

/// Finds the first entry for a partition of an element.
fn find_known<'a>(known: &'a [Known], element: &T256, partition: u32) -> Option<&'a Known>
    ensures { MatchOption result (fact_of known.now (key_of element.now partition) ≡ Fact.Nothing)
        (λ one. fact_of known.now (key_of element.now partition) ≡ one.now.fact) }
{
    for one in known {
        if one.key.is_of(element, partition) {
            return Some(one);
        }
    }
    None
}

/// Returns the fact about a partition of an element, from the first entry that names it. Without
/// one, it is `Fact::Nothing`.
///
/// # Errors
///
/// `OutOfMemory` if memory is refused.
pub fn fact_of(known: &[Known], element: &T256, partition: u32) -> Result<Fact, OutOfMemory>
    ensures { IfOk result (λ fact. fact ≡ fact_of known.now (key_of element.now partition)) }
{
    match find_known(known, element, partition) {
        Some(one) => one.fact.try_clone(),
        None => Ok(Fact::Nothing),
    }
}

/// Returns the own result of a decision, or of a step that isn't partitioned, from the fact about
/// it.
///
/// # Errors
///
/// `OutOfMemory` if memory is refused.
pub fn result_by(alloc: Global, id: &T256, fact: &Fact) -> Result<ElementResult, OutOfMemory>
    ensures { IfOk result (λ made. made ≡ runnable_result (key_of id.now 0) fact.now) }
{
    match fact {
        Fact::Nothing => ready_result(alloc, id),
        Fact::Carried(exit) => Ok(ElementResult::Outcome(
            WorkOutcome::Completed,
            exit.try_clone()?,
        )),
        Fact::Busy => busy_result(alloc, id),
        Fact::Over(outcome, exit) => Ok(ElementResult::Outcome(*outcome, exit.try_clone()?)),
        Fact::Barred => Ok(ElementResult::ListValue(ended_value(alloc, BatchStatus::Failed)?)),
    }
}

/// Returns the own result of a decision, or of a step that isn't partitioned.
///
/// # Errors
///
/// `OutOfMemory` if memory is refused.
pub fn runnable_result(
    alloc: Global,
    known: &[Known],
    id: &T256,
) -> Result<ElementResult, OutOfMemory>
    ensures { IfOk result (λ made.
        made ≡ runnable_result (key_of id.now 0) (fact_of known.now (key_of id.now 0))) }
{
    match find_known(known, id, 0) {
        None => ready_result(alloc, id),
        Some(one) => result_by(alloc, id, &one.fact),
    }
}
