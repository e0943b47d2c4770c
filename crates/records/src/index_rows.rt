//! Adding a row to the indexes, with room reserved for it.
ghost use Rattle.std.specs.Prelude.{◌≡◌, ◌==◌, ◌&&◌, ◌<◌, ◌^◌, ◌++◌, ◌∷◌, [], ℕ, List, true, bytes_eq, if◌then◌else◌, length, IfSome, OnOk, OnErr};
ghost use Rattle.batch_history.specs.Lists.{is_at};
ghost use Rattle.records.specs.Indexes.{has_steps, numbers_named, numbers_of_step, numbers_under};
ghost use Rattle.records.specs.Maps.{AreBelow};

use crate::number_lists::NumberLists;
use crate::row_list::RowList;
use crate::step_lists::StepLists;
use batch_history::{ExecutionRow, JobInstance, WorkRow};
use batch_ids::{InstanceId, OutOfMemory};
use record_lists::NameLists;

/// Reserves room for a job execution, and adds it to the index by job instance.
pub(crate) fn index_execution(
    executions: &mut RowList<ExecutionRow>,
    by_instance: &mut NumberLists,
    row: &ExecutionRow,
) -> Result<(), OutOfMemory>
    ensures rows { executions.new.rows ≡ executions.old.rows }
    ensures few { OnOk result (length executions.old.rows < 2 ^ 63) }
    ensures room { OnOk result (0 < executions.new.room) }
    ensures owned { OnOk result ((q : ℕ) → numbers_under by_instance.new q
        ≡ (if row.now.instance == q then numbers_under by_instance.old q ++ row.now.execution ∷ [] else numbers_under by_instance.old q)) }
    ensures unowned { OnErr result ((q : ℕ)
        → numbers_under by_instance.new q ≡ numbers_under by_instance.old q) }
{
    executions.reserve()?;
    by_instance.push(row.instance.value(), row.execution.value())
}

/// Reserves room for a job instance and its first job execution. Adds the job instance to the index
/// by name, and the job execution to the index by job instance.
pub(crate) fn index_instance(
    instances: &mut RowList<JobInstance>,
    executions: &mut RowList<ExecutionRow>,
    by_name: &mut NameLists,
    by_instance: &mut NumberLists,
    instance: &JobInstance,
    first: &ExecutionRow,
) -> Result<(), OutOfMemory>
    requires { AreBelow instance.now.instance (numbers_named by_name.old instance.now.job) }
    ensures instances { instances.new.rows ≡ instances.old.rows }
    ensures executions { executions.new.rows ≡ executions.old.rows }
    ensures few { OnOk result (length executions.old.rows < 2 ^ 63) }
    ensures instance_room { OnOk result (0 < instances.new.room) }
    ensures execution_room { OnOk result (0 < executions.new.room) }
    ensures named { OnOk result ((q : List ℕ) → numbers_named by_name.new q
        ≡ (if bytes_eq instance.now.job q then numbers_named by_name.old q ++ instance.now.instance ∷ [] else numbers_named by_name.old q)) }
    ensures owned { OnOk result ((q : ℕ) → numbers_under by_instance.new q
        ≡ (if first.now.instance == q then numbers_under by_instance.old q ++ first.now.execution ∷ [] else numbers_under by_instance.old q)) }
    ensures unnamed { OnErr result ((q : List ℕ)
        → numbers_named by_name.new q ≡ numbers_named by_name.old q) }
    ensures unowned { OnErr result ((q : ℕ)
        → numbers_under by_instance.new q ≡ numbers_under by_instance.old q) }
{
    instances.reserve()?;
    executions.reserve()?;
    let name = instance.job.as_str();
    by_name.push(name, instance.instance.value())?;
    match by_instance.push(first.instance.value(), first.execution.value()) {
        Ok(()) => Ok(()),
        Err(refused) => {
            by_name.remove(name, instance.instance.value());
            Err(refused)
        }
    }
}

/// Reserves room for a work item, and adds it to the index by job execution. Adds it to the index
/// by step, too, if the job instance is given.
pub(crate) fn index_work(
    works: &mut RowList<WorkRow>,
    by_step: &mut StepLists,
    by_execution: &mut NumberLists,
    owner: Option<InstanceId>,
    row: &WorkRow,
) -> Result<(), OutOfMemory>
    requires { IfSome owner (λ i. has_steps by_step.old i ≡ true
        → AreBelow row.now.work (numbers_of_step by_step.old i row.now.element)) }
    ensures rows { works.new.rows ≡ works.old.rows }
    ensures room { OnOk result (0 < works.new.room) }
    ensures has { (i : ℕ) → has_steps by_step.new i ≡ has_steps by_step.old i }
    ensures stepped { OnOk result ((i : ℕ) (q : List ℕ) → has_steps by_step.old i ≡ true
        → numbers_of_step by_step.new i q
        ≡ (if is_at i owner && bytes_eq row.now.element q then numbers_of_step by_step.old i q ++ row.now.work ∷ [] else numbers_of_step by_step.old i q)) }
    ensures owned { OnOk result ((q : ℕ) → numbers_under by_execution.new q
        ≡ (if row.now.execution == q then numbers_under by_execution.old q ++ row.now.work ∷ [] else numbers_under by_execution.old q)) }
    ensures unstepped { OnErr result ((i : ℕ) (q : List ℕ) → has_steps by_step.old i ≡ true
        → numbers_of_step by_step.new i q ≡ numbers_of_step by_step.old i q) }
    ensures unowned { OnErr result ((q : ℕ)
        → numbers_under by_execution.new q ≡ numbers_under by_execution.old q) }
{
    works.reserve()?;
    match owner {
        Some(owner) => index_step(by_step, by_execution, owner.value(), row),
        None => by_execution.push(row.execution.value(), row.work.value()),
    }
}

/// Adds a work item to the index by step of its job instance, and to the index by job execution.
pub(crate) fn index_step(
    by_step: &mut StepLists,
    by_execution: &mut NumberLists,
    owner: u64,
    row: &WorkRow,
) -> Result<(), OutOfMemory>
    requires { has_steps by_step.old owner ≡ true
        → AreBelow row.now.work (numbers_of_step by_step.old owner row.now.element) }
    ensures has { (i : ℕ) → has_steps by_step.new i ≡ has_steps by_step.old i }
    ensures stepped { OnOk result ((i : ℕ) (q : List ℕ) → has_steps by_step.old i ≡ true
        → numbers_of_step by_step.new i q
        ≡ (if owner == i && bytes_eq row.now.element q then numbers_of_step by_step.old i q ++ row.now.work ∷ [] else numbers_of_step by_step.old i q)) }
    ensures owned { OnOk result ((q : ℕ) → numbers_under by_execution.new q
        ≡ (if row.now.execution == q then numbers_under by_execution.old q ++ row.now.work ∷ [] else numbers_under by_execution.old q)) }
    ensures unstepped { OnErr result ((i : ℕ) (q : List ℕ) → has_steps by_step.old i ≡ true
        → numbers_of_step by_step.new i q ≡ numbers_of_step by_step.old i q) }
    ensures unowned { OnErr result ((q : ℕ)
        → numbers_under by_execution.new q ≡ numbers_under by_execution.old q) }
{
    let step = row.element.as_str();
    by_step.push(owner, step, row.work.value())?;
    match by_execution.push(row.execution.value(), row.work.value()) {
        Ok(()) => Ok(()),
        Err(refused) => {
            by_step.leave_out(owner, step, row.work.value());
            Err(refused)
        }
    }
}
