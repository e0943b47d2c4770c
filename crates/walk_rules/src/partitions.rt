//! A step's own result, from the facts about its partitions.
ghost use Rattle.std.specs.Prelude.{◌≡◌, ◌++◌, IfOk, OnOk, map};
ghost use Rattle.walk_rules.specs.Keys.{key_of, numbers_to};
ghost use Rattle.walk_rules.specs.Walk.{fact_of, known_of, is_left, is_busy, is_barred, is_failed, is_stopped, has_fact, keys_with, strongest_outcome, partitioned_result, step_result};

use crate::element_result::{ElementResult, ended_value, fact_of, runnable_result};
use crate::facts::{Fact, Known, Value};
use crate::work_key::{WorkKey, key_of};
use crate::work_keys::WorkKeys;
use batch_ids::{BatchStatus, Listed, OutOfMemory, T256, WorkOutcome};
use std::alloc::Global;

impl Fact {
    /// Returns `true` if there is no work item, and nothing prevents one.
    fn is_left(&self) -> bool
        ensures { result ≡ is_left self.now }
    {
        match self {
            Fact::Nothing => true,
            Fact::Barred => false,
            Fact::Busy => false,
            Fact::Carried(_) => false,
            Fact::Over(_, _) => false,
        }
    }

    /// Returns `true` if it is being run.
    fn is_busy(&self) -> bool
        ensures { result ≡ is_busy self.now }
    {
        matches!(self, Fact::Busy)
    }

    /// Returns `true` if the step has reached its start limit.
    fn is_barred(&self) -> bool
        ensures { result ≡ is_barred self.now }
    {
        matches!(self, Fact::Barred)
    }

    /// Returns `true` if it is over and FAILED.
    fn is_failed(&self) -> bool
        ensures { result ≡ is_failed self.now }
    {
        matches!(self, Fact::Over(WorkOutcome::Failed, _))
    }

    /// Returns `true` if it is over and STOPPED.
    fn is_stopped(&self) -> bool
        ensures { result ≡ is_stopped self.now }
    {
        matches!(self, Fact::Over(WorkOutcome::Stopped, _))
    }
}

/// Returns each partition of a step, with the fact about it.
fn known_partitions(
    alloc: Global,
    known: &[Known],
    id: &T256,
    count: u32,
) -> Result<Vec<Known>, OutOfMemory>
    ensures { IfOk result (λ partitions. partitions.items
        ≡ known_of (fact_of known.now) (map (key_of id.now) (numbers_to count))) }
{
    let mut partitions = Vec::new(alloc);
    for partition in 0..count {
        let key = key_of(id, partition)?;
        let fact = fact_of(known, id, partition)?;
        partitions.push(Known { key, fact })?;
    }
    Ok(partitions)
}

/// Adds the partitions that may be run, and those that are being run.
fn add_open(
    ready: &mut Listed<WorkKey>,
    busy: &mut Listed<WorkKey>,
    partitions: &[Known],
) -> Result<(), OutOfMemory>
    ensures ready { OnOk result (ready.new ≡ ready.old ++ keys_with is_left partitions.now) }
    ensures busy { OnOk result (busy.new ≡ busy.old ++ keys_with is_busy partitions.now) }
{
    for one in partitions {
        match &one.fact {
            Fact::Nothing => ready.push(one.key.try_clone()?)?,
            Fact::Barred => {}
            Fact::Busy => busy.push(one.key.try_clone()?)?,
            Fact::Carried(_) => {}
            Fact::Over(_, _) => {}
        }
    }
    Ok(())
}

/// Returns the partitions that may be run, and those that are being run.
fn open_value(alloc: Global, partitions: &[Known]) -> Result<Value, OutOfMemory>
    ensures { IfOk result (λ value. value
        ≡ Value.Open (keys_with is_left partitions.now) (keys_with is_busy partitions.now)) }
{
    let mut ready = Listed::new(alloc);
    let mut busy = Listed::new(alloc);
    add_open(&mut ready, &mut busy, partitions)?;
    Ok(Value::Open {
        ready: WorkKeys::new(alloc, ready)?,
        busy: WorkKeys::new(alloc, busy)?,
    })
}

fn has_left(partitions: &[Known]) -> bool
    ensures { result ≡ has_fact is_left partitions.now }
{
    partitions.iter().any(|one| one.fact.is_left())
}

fn has_busy(partitions: &[Known]) -> bool
    ensures { result ≡ has_fact is_busy partitions.now }
{
    partitions.iter().any(|one| one.fact.is_busy())
}

fn has_barred(partitions: &[Known]) -> bool
    ensures { result ≡ has_fact is_barred partitions.now }
{
    partitions.iter().any(|one| one.fact.is_barred())
}

fn has_failed(partitions: &[Known]) -> bool
    ensures { result ≡ has_fact is_failed partitions.now }
{
    partitions.iter().any(|one| one.fact.is_failed())
}

fn has_stopped(partitions: &[Known]) -> bool
    ensures { result ≡ has_fact is_stopped partitions.now }
{
    partitions.iter().any(|one| one.fact.is_stopped())
}

/// Returns the outcome of partitions that are over.
fn strongest_outcome(partitions: &[Known]) -> WorkOutcome
    ensures { result ≡ strongest_outcome partitions.now }
{
    if has_failed(partitions) {
        WorkOutcome::Failed
    } else if has_stopped(partitions) {
        WorkOutcome::Stopped
    } else {
        WorkOutcome::Completed
    }
}

/// Returns the own result of a partitioned step. See Jakarta Batch 2.1, "Step Partitioning".
///
/// # Errors
///
/// `OutOfMemory` if memory is refused.
pub fn partitioned_result(alloc: Global, partitions: &[Known]) -> Result<ElementResult, OutOfMemory>
    ensures { IfOk result (λ made. made ≡ partitioned_result partitions.now) }
{
    if has_barred(partitions) {
        return Ok(ElementResult::ListValue(ended_value(alloc, BatchStatus::Failed)?));
    }
    if has_left(partitions) || has_busy(partitions) {
        return Ok(ElementResult::ListValue(open_value(alloc, partitions)?));
    }
    let outcome = strongest_outcome(partitions);
    let exit = T256::within(alloc, outcome.name())?;
    Ok(ElementResult::Outcome(outcome, exit))
}

/// Returns the own result of a step.
///
/// # Errors
///
/// `OutOfMemory` if memory is refused.
pub fn step_result(
    alloc: Global,
    known: &[Known],
    id: &T256,
    partitions: Option<u32>,
) -> Result<ElementResult, OutOfMemory>
    ensures { IfOk result (λ made. made ≡ step_result (fact_of known.now) id.now partitions) }
{
    match partitions {
        None => runnable_result(alloc, known, id),
        Some(count) => {
            let partitions = known_partitions(alloc, known, id, count)?;
            partitioned_result(alloc, partitions.as_slice())
        }
    }
}
