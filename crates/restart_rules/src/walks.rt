//! The walks of job executions, from their plans and their work items.
ghost use Rattle.std.specs.Prelude.{◌≡◌, ◌++◌, List, true, Some, IfOk, OnOk};
ghost use Rattle.batch_history.specs.Walks.{fact_of_state, job_named, walk_value, known_elements};
ghost use Rattle.batch_history.specs.Works.{work_key};
ghost use Rattle.batch_history.specs.declared.rows.WorkRow.{WorkRow as Work};
ghost use Rattle.job_plans.specs.Cursors.{begins_in};
ghost use Rattle.restart_rules.specs.Placed.{is_placed};

use batch_history::{ExecutionRow, WorkRow, WorkState};
use batch_ids::{ExecutionId, OutOfMemory};
use job_walk::value_at_first;
use jsl_model::{Catalogue, Job};
use records::Records;
use std::alloc::Global;
use walk_rules::{Fact, Known, Value, WorkKey};

/// Returns the fact about a work key whose work item has this state.
///
/// # Errors
///
/// `OutOfMemory` if memory is refused.
pub fn state_fact(state: &WorkState) -> Result<Fact, OutOfMemory>
    ensures { IfOk result (λ fact. fact ≡ fact_of_state state.now) }
{
    match state {
        WorkState::Busy => Ok(Fact::Busy),
        WorkState::Over(outcome, exit) => Ok(Fact::Over(*outcome, exit.try_clone()?)),
    }
}

/// Returns the work key of a work item.
fn work_key(row: &WorkRow) -> Result<WorkKey, OutOfMemory>
    ensures { IfOk result (λ key. key ≡ work_key row.now) }
{
    Ok(WorkKey {
        element: row.element.try_clone()?,
        partition: row.partition.unwrap_or(0),
    })
}

/// Returns the work key of a work item, with the fact about it.
fn known_by(row: &WorkRow) -> Result<Known, OutOfMemory>
    ensures { IfOk result (λ known. known
        ≡ record { key = work_key row.now; fact = fact_of_state row.now.state }) }
{
    let key = work_key(row)?;
    match state_fact(&row.state) {
        Ok(fact) => Ok(Known { key, fact }),
        Err(refused) => {
            drop(key);
            Err(refused)
        }
    }
}

/// Adds the facts about the work keys of a job execution, from its work items.
#[tactic(auto, using(crate::proofs::Reading::known_read))]
fn add_known(known: &mut Vec<Known>, records: &Records, x: ExecutionId) -> Result<(), OutOfMemory>
    ensures { OnOk result (known.new.items
        ≡ known.old.items ++ known_elements x records.now.works) }
{
    for row in records.works_of(x) {
        known.push(known_by(row)?)?;
    }
    Ok(())
}

/// Returns the facts about the work keys of a job execution, from its work items.
///
/// # Errors
///
/// `OutOfMemory` if memory is refused.
pub fn known_of(alloc: Global, records: &Records, x: ExecutionId) -> Result<Vec<Known>, OutOfMemory>
    ensures { IfOk result (λ known. known.items ≡ known_elements x records.now.works) }
{
    let mut known = Vec::new(alloc);
    match add_known(&mut known, records, x) {
        Ok(()) => Ok(known),
        Err(refused) => {
            drop(known);
            Err(refused)
        }
    }
}

/// Returns the job of a job execution. The walk of the job execution begins in the job's own list.
pub(crate) fn job_of<'a>(catalogue: &'a Catalogue, row: &ExecutionRow) -> &'a Job
    requires { is_placed catalogue.now row.now ≡ true }
    ensures named { job_named catalogue.now row.now.job ≡ Some result.now }
    ensures begins { begins_in row.now.plan result.now ≡ true }
{
    match catalogue.job(row.job.as_str()) {
        Some(job) => job,
        None => unreachable!(),
    }
}

/// Returns the value of the walk of a job execution, from the facts about its work keys.
///
/// # Errors
///
/// `OutOfMemory` if memory is refused.
pub fn walk_of(
    alloc: Global,
    catalogue: &Catalogue,
    known: &[Known],
    row: &ExecutionRow,
) -> Result<Value, OutOfMemory>
    requires { is_placed catalogue.now row.now ≡ true }
    ensures { (works : List Work) → known.now ≡ known_elements row.now.execution works
        → IfOk result (λ value. value ≡ walk_value catalogue.now works
        row.now.execution row.now.job row.now.plan) }
{
    let job = job_of(catalogue, row);
    Ok(value_at_first(alloc, job, row.plan.get(), known)?)
}

/// Returns the value of the walk of a job execution.
///
/// # Errors
///
/// `OutOfMemory` if memory is refused.
pub fn walk_value(
    alloc: Global,
    catalogue: &Catalogue,
    records: &Records,
    row: &ExecutionRow,
) -> Result<Value, OutOfMemory>
    requires { is_placed catalogue.now row.now ≡ true }
    ensures { IfOk result (λ value. value ≡ walk_value catalogue.now records.now.works
        row.now.execution row.now.job row.now.plan) }
{
    let known = known_of(alloc, records, row.execution)?;
    walk_of(alloc, catalogue, known.as_slice(), row)
}
