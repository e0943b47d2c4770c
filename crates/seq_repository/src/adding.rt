//! Adding a row, together with its number on the agenda. Either both are added, or neither is.
ghost use Rattle.std.specs.Prelude.{◌≡◌, ◌++◌, ◌∷◌, [], Some, OnOk, OnErr, if◌then◌else◌};
ghost use Rattle.std.specs.BTreeSet.{insert_key};
ghost use Rattle.std.specs.Ordering.{nat_cmp};
ghost use Rattle.batch_history.specs.Works.{busy_work};
ghost use Rattle.records.specs.Maps.{AreBelow, instance_numbers, execution_numbers, work_numbers};
ghost use Rattle.seq_repository.specs.Changes.{place_at, SetsMark};

use crate::{agenda, rows};
use batch_history::{ExecutionRow, JobInstance, WorkItem};
use batch_ids::{ExecutionId, Moment, OutOfMemory, Text};
use records::Records;
use std::collections::BTreeSet;
use walk_rules::WorkKey;

/// Adds a job instance with its first job execution.
pub(crate) fn add_instance(
    agenda: &mut BTreeSet<u64>,
    records: &mut Records,
    instance: JobInstance,
    first: ExecutionRow,
) -> Result<(), OutOfMemory>
    requires instance { AreBelow instance.instance (instance_numbers records.old.instances) }
    requires first { AreBelow first.execution (execution_numbers records.old.executions) }
    ensures added { OnOk result (records.new ≡ record records.old {
      instances = records.old.instances ++ instance ∷ [];
      executions = records.old.executions ++ first ∷ [];
    }) }
    ensures agenda { OnOk result (agenda.new.keys
        ≡ insert_key nat_cmp agenda.old.keys first.execution) }
    ensures unchanged { OnErr result (records.new ≡ records.old) }
    ensures no_agenda { OnErr result (agenda.new.keys ≡ agenda.old.keys) }
{
    let x = first.execution;
    let new = agenda::put(agenda, x, true)?;
    match records.add_instance(instance, first) {
        Ok(()) => Ok(()),
        Err(error) => {
            agenda::remove_if(agenda, x, new);
            Err(error)
        }
    }
}

/// Adds a job execution.
pub(crate) fn add_execution(
    agenda: &mut BTreeSet<u64>,
    records: &mut Records,
    row: ExecutionRow,
) -> Result<(), OutOfMemory>
    requires { AreBelow row.execution (execution_numbers records.old.executions) }
    ensures added { OnOk result (records.new ≡ record records.old {
      executions = records.old.executions ++ row ∷ [];
    }) }
    ensures agenda { OnOk result (agenda.new.keys
        ≡ insert_key nat_cmp agenda.old.keys row.execution) }
    ensures unchanged { OnErr result (records.new ≡ records.old) }
    ensures no_agenda { OnErr result (agenda.new.keys ≡ agenda.old.keys) }
{
    let x = row.execution;
    let new = agenda::put(agenda, x, true)?;
    match records.add_execution(row) {
        Ok(()) => Ok(()),
        Err(error) => {
            agenda::remove_if(agenda, x, new);
            Err(error)
        }
    }
}

fn put_work(records: &mut Records, who: u64, at: Moment, item: &WorkItem) -> Result<(), OutOfMemory>
    requires { AreBelow item.now.work (work_numbers records.old.works) }
    ensures added { OnOk result (records.new ≡ record records.old {
      works = records.old.works ++ busy_work who at item.now ∷ [];
    }) }
    ensures unchanged { OnErr result (records.new ≡ records.old) }
{
    let work = rows::new_work(who, at, item)?;
    records.add_work(work)
}

/// Adds a work item that is handed out. Its job execution stays on the agenda if there is more to
/// do for it.
pub(crate) fn add_work(
    agenda: &mut BTreeSet<u64>,
    records: &mut Records,
    ready: bool,
    who: u64,
    at: Moment,
    item: &WorkItem,
) -> Result<(), OutOfMemory>
    requires { AreBelow item.now.work (work_numbers records.old.works) }
    ensures added { OnOk result (records.new ≡ record records.old {
      works = records.old.works ++ busy_work who at item.now ∷ [];
    }) }
    ensures agenda { OnOk result (agenda.new.keys
        ≡ (if ready then insert_key nat_cmp agenda.old.keys item.now.execution
        else agenda.old.keys)) }
    ensures unchanged { OnErr result (records.new ≡ records.old) }
    ensures no_agenda { OnErr result (agenda.new.keys ≡ agenda.old.keys) }
{
    let x = item.execution;
    let new = agenda::put(agenda, x, ready)?;
    match put_work(records, who, at, item) {
        Ok(()) => Ok(()),
        Err(error) => {
            agenda::remove_if(agenda, x, new);
            Err(error)
        }
    }
}

fn set_mark(
    records: &mut Records,
    row: &Option<ExecutionRow>,
    step: WorkKey,
    mark: &Text<65536>,
) -> Result<(), OutOfMemory>
    ensures rows { OnOk result (SetsMark (place_at row.now step) (Some mark.now)
        records.old records.new) }
    ensures unchanged { OnErr result (records.new ≡ records.old) }
{
    match row {
        None => Ok(()),
        Some(row) => {
            let mark = mark.try_clone()?;
            records.set_checkpoint(row.instance, step, Some(mark))
        }
    }
}

/// Stores the checkpoint of a step of the job instance of this job execution, if this exists. The
/// job execution is on the agenda afterwards if there is something to do for it.
pub(crate) fn put_mark(
    agenda: &mut BTreeSet<u64>,
    records: &mut Records,
    x: ExecutionId,
    ready: bool,
    row: &Option<ExecutionRow>,
    step: WorkKey,
    mark: &Text<65536>,
) -> Result<(), OutOfMemory>
    ensures rows { OnOk result (SetsMark (place_at row.now step) (Some mark.now)
        records.old records.new) }
    ensures agenda { OnOk result (agenda.new.keys
        ≡ (if ready then insert_key nat_cmp agenda.old.keys x else agenda.old.keys)) }
    ensures unchanged { OnErr result (records.new ≡ records.old) }
    ensures no_agenda { OnErr result (agenda.new.keys ≡ agenda.old.keys) }
{
    let new = agenda::put(agenda, x, ready)?;
    match set_mark(records, row, step, mark) {
        Ok(()) => Ok(()),
        Err(error) => {
            agenda::remove_if(agenda, x, new);
            Err(error)
        }
    }
}
