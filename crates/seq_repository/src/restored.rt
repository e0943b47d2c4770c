ghost use Rattle.std.specs.Prelude.{◌≡◌, ◌≤◌, ◌+◌, ◌↔◌, None, Some, nat_le, IsTrue, OnOk, OnErr};
ghost use Rattle.batch_history.specs.Works.{work_key};
ghost use Rattle.batch_ids.specs.Metrics.{both_metrics};
ghost use Rattle.row_repository.specs.Placed.{is_placed};
ghost use Rattle.row_repository.specs.Restoring.{AreCounted, IsTaken, again_fault, checkpoint_fault, first_fault, has_execution, has_instance, has_room, has_work, is_next, is_within, last_in, with_again, with_checkpoint, with_first, with_work, work_fault};
ghost use Rattle.seq_repository.specs.Kept.{rows_in};
ghost use Rattle.walk_rules.specs.Keys.{is_same_key};

use crate::repository::Repository;
use crate::restoring::agenda_of;
use batch_history::{CheckpointRow, ExecutionRow, JobInstance, LastNumbers, WorkRow};
use batch_ids::{ExecutionId, InstanceId, Metrics, WorkId};
use jsl_model::Catalogue;
use records::Records;
use row_repository::{RowFault, RowRestoration};
use std::alloc::Global;
use std::collections::BTreeMap;
use std::marker::Model;

/// The most that an operation adds to a count of the metrics.
const MOST_REPORTED: u64 = 4_294_967_295;

/// Rows from which a repository of at most `LIMIT` accepted operations is restored
/// ([`RowRestoration`]). Contracts see them as they see a repository.
#[derive(Debug, Drop)]
pub struct Restored<const LIMIT: u64> {
    alloc: Global,
    catalogue: Catalogue,
    count: u64,
    last: LastNumbers,
    records: Records,
    /// The numbers of the last rows.
    newest: LastNumbers,
    /// The sums of the metrics of all work items.
    sums: Metrics,
}

impl<const LIMIT: u64> Model for Restored<LIMIT> {
    ghost use Rattle.seq_repository.specs.Kept.{Kept};
    ghost use Rattle.seq_repository.specs.Restoring.{IsRestored};
    ghost use Rattle.jsl_model.specs.contracts.element.Body as body;
    ghost use Rattle.std.specs.Coded.{codes};

    ghost Value = { Kept };

    ghost coded = { Prim.hlevel (codes, body.the_row.coded) };

    ghost view = { λ r. record { catalogue = r.catalogue; count = r.count; last = r.last; records = r.records } };

    ghost invariant = { λ r. IsRestored LIMIT r.newest r.sums record { catalogue = r.catalogue; count = r.count; last = r.last; records = r.records } };
}

/// Checks whether each last number was given by one of `count` operations, of which there are at
/// most `limit`.
#[tactic(auto, using(crate::proofs::RowsAdded::counted_all))]
fn are_counted(limit: u64, count: u64, last: LastNumbers) -> bool
    ensures { IsTrue result ↔ AreCounted limit count last }
{
    count <= limit && last.instance <= count && last.execution <= count && last.work <= count
}

/// Checks whether a number is above that of the row before, and was given.
fn is_next(before: u64, given: u64, number: u64) -> bool
    ensures { result ≡ is_next before given number }
{
    before < number && number <= given
}

/// Checks whether two counts come to at most `most`.
fn fits(one: u64, other: u64, most: u64) -> bool
    ensures { result ≡ nat_le (one + other) most }
{
    match one.checked_add(other) {
        Some(sum) => sum <= most,
        None => false,
    }
}

/// Checks whether the counts of both metrics come to at most `most` each.
fn are_within(one: &Metrics, other: &Metrics, most: u64) -> bool
    ensures { result ≡ is_within most (both_metrics one.now other.now) }
{
    fits(one.read_count, other.read_count, most)
        && fits(one.write_count, other.write_count, most)
        && fits(one.commit_count, other.commit_count, most)
        && fits(one.rollback_count, other.rollback_count, most)
        && fits(one.read_skip_count, other.read_skip_count, most)
        && fits(one.process_skip_count, other.process_skip_count, most)
        && fits(one.filter_count, other.filter_count, most)
        && fits(one.write_skip_count, other.write_skip_count, most)
}

/// Checks whether two work items have the same work key.
fn is_same_key(one: &WorkRow, other: &WorkRow) -> bool
    ensures { result ≡ is_same_key (work_key one.now) (work_key other.now) }
{
    one.element == other.element && one.partition.unwrap_or(0) == other.partition.unwrap_or(0)
}

/// Checks whether the job of a job execution is in the catalogue, and its walk begins at an element
/// of the job's own list.
fn is_placed(catalogue: &Catalogue, row: &ExecutionRow) -> bool
    ensures { result ≡ is_placed catalogue.now row.now }
{
    match catalogue.job(row.job.as_str()) {
        None => false,
        Some(job) => row.plan.get().begins_in(job),
    }
}

impl<const LIMIT: u64> RowRestoration<Repository<LIMIT>> for Restored<LIMIT> {
    ghost rows = { rows_in };

    #[tactic(auto, using(crate::proofs::RowsAdded::restored_none))]
    fn new(
        alloc: Global,
        catalogue: Catalogue,
        count: u64,
        last: LastNumbers,
    ) -> Option<Restored<LIMIT>> {
        if !are_counted(LIMIT, count, last) {
            drop(catalogue);
            return None;
        }
        Some(Restored {
            alloc,
            catalogue,
            count,
            last,
            records: Records::new(alloc),
            newest: LastNumbers {
                instance: 0,
                execution: 0,
                work: 0,
            },
            sums: Metrics::zero(),
        })
    }

    fn add_execution(&mut self, row: ExecutionRow) -> Result<(), RowFault> {
        if self.has_instance(row.instance) {
            self.add_again(row)
        } else {
            self.add_first(row)
        }
    }

    /// It costs time proportional to the number of work items of the job execution.
    #[tactic(auto, using(crate::proofs::RowsAdded::taken_put))]
    fn add_work(&mut self, row: WorkRow) -> Result<(), RowFault> {
        match self.work_fault(&row) {
            None => self.put_work(row),
            Some(fault) => {
                drop(row);
                Err(fault)
            }
        }
    }

    #[tactic(auto, using(crate::proofs::RowsAdded::taken_put))]
    fn add_checkpoint(&mut self, row: CheckpointRow) -> Result<(), RowFault> {
        match self.checkpoint_fault(&row) {
            None => self.put_checkpoint(row),
            Some(fault) => {
                drop(row);
                Err(fault)
            }
        }
    }

    /// It costs a walk of each job execution.
    #[tactic(auto, using(crate::proofs::Gathering::none_followed, crate::proofs::Gathering::no_slots))]
    fn finish(self) -> Result<Repository<LIMIT>, RowFault> {
        let Restored {
            alloc,
            catalogue,
            count,
            last,
            records,
            newest: _,
            sums: _,
        } = self;
        match agenda_of(alloc, &catalogue, &records) {
            Ok(agenda) => Ok(Repository {
                alloc,
                catalogue,
                count,
                last,
                records,
                agenda,
                cursors: BTreeMap::new(alloc),
            }),
            Err(fault) => {
                drop(records);
                drop(catalogue);
                Err(fault)
            }
        }
    }
}

impl<const LIMIT: u64> Restored<LIMIT> {
    /// Adds a job instance and its first job execution.
    #[tactic(auto, using(crate::proofs::RowsAdded::taken_put))]
    fn add_first(&mut self, row: ExecutionRow) -> Result<(), RowFault>
        ensures taken { IsTaken result (first_fault (rows_in self.old) row) }
        ensures added { OnOk result (rows_in self.new ≡ with_first (rows_in self.old) row) }
        ensures unchanged { OnErr result (self.new ≡ self.old) }
    {
        match self.first_fault(&row) {
            None => self.put_first(row),
            Some(fault) => {
                drop(row);
                Err(fault)
            }
        }
    }

    /// Adds a further job execution of a job instance.
    #[tactic(auto, using(crate::proofs::RowsAdded::taken_put))]
    fn add_again(&mut self, row: ExecutionRow) -> Result<(), RowFault>
        ensures taken { IsTaken result (again_fault (rows_in self.old) row) }
        ensures added { OnOk result (rows_in self.new ≡ with_again (rows_in self.old) row) }
        ensures unchanged { OnErr result (self.new ≡ self.old) }
    {
        match self.again_fault(&row) {
            None => self.put_execution(row),
            Some(fault) => {
                drop(row);
                Err(fault)
            }
        }
    }

    /// Checks whether the job instance of this number exists.
    fn has_instance(&self, i: InstanceId) -> bool
        ensures { result ≡ has_instance (rows_in self.now) i }
    {
        self.records.instance(i).is_some()
    }

    /// Checks whether the job execution of this number exists.
    fn has_execution(&self, x: ExecutionId) -> bool
        ensures { result ≡ has_execution (rows_in self.now) x }
    {
        self.records.execution(x).is_some()
    }

    /// Checks whether the job execution of a work item has another one of its work key.
    fn has_work(&self, row: &WorkRow) -> bool
        ensures { result ≡ has_work (rows_in self.now) row.now }
    {
        for other in self.records.works_of(row.execution) {
            if is_same_key(other, row) {
                return true;
            }
        }
        false
    }

    /// Checks whether the metrics of all work items with this one are what so many operations can
    /// report.
    fn has_room(&self, row: &WorkRow) -> bool
        ensures { result ≡ has_room (rows_in self.now) row.now }
    {
        are_within(&self.sums, &row.metrics, self.count * MOST_REPORTED)
    }

    /// Checks whether a number may be that of the next job instance.
    fn is_next_instance(&self, i: InstanceId) -> bool
        ensures { result ≡ is_next (last_in (rows_in self.now)).instance self.now.last.instance i }
    {
        is_next(self.newest.instance, self.last.instance, i.value())
    }

    /// Checks whether a number may be that of the next job execution.
    fn is_next_execution(&self, x: ExecutionId) -> bool
        ensures { result ≡ is_next (last_in (rows_in self.now)).execution self.now.last.execution x }
    {
        is_next(self.newest.execution, self.last.execution, x.value())
    }

    /// Checks whether a number may be that of the next work item.
    fn is_next_work(&self, w: WorkId) -> bool
        ensures { result ≡ is_next (last_in (rows_in self.now)).work self.now.last.work w }
    {
        is_next(self.newest.work, self.last.work, w.value())
    }

    /// Checks whether a job execution is placed.
    fn places(&self, row: &ExecutionRow) -> bool
        ensures { result ≡ is_placed self.now.catalogue row.now }
    {
        is_placed(&self.catalogue, row)
    }

    /// Returns the fault of a further job execution of a job instance, if it has one.
    fn again_fault(&self, row: &ExecutionRow) -> Option<RowFault>
        ensures { result ≡ again_fault (rows_in self.now) row.now }
    {
        if !self.is_next_execution(row.execution) {
            Some(RowFault::NotNext)
        } else if !self.places(row) {
            Some(RowFault::NotPlaced)
        } else {
            None
        }
    }

    /// Returns the fault of the first job execution of a job instance, if it has one.
    fn first_fault(&self, row: &ExecutionRow) -> Option<RowFault>
        ensures { result ≡ first_fault (rows_in self.now) row.now }
    {
        if self.is_next_instance(row.instance) {
            self.again_fault(row)
        } else {
            Some(RowFault::NotNext)
        }
    }

    /// Returns the fault of a work item, if it has one.
    fn work_fault(&self, row: &WorkRow) -> Option<RowFault>
        ensures { result ≡ work_fault (rows_in self.now) row.now }
    {
        if !self.is_next_work(row.work) {
            Some(RowFault::NotNext)
        } else if !self.has_execution(row.execution) {
            Some(RowFault::NoOwner)
        } else if self.has_work(row) {
            Some(RowFault::Taken)
        } else if !self.has_room(row) {
            Some(RowFault::TooGreat)
        } else {
            None
        }
    }

    /// Returns the fault of a checkpoint, if it has one.
    fn checkpoint_fault(&self, row: &CheckpointRow) -> Option<RowFault>
        ensures { result ≡ checkpoint_fault (rows_in self.now) row.now }
    {
        if !self.has_instance(row.instance) {
            Some(RowFault::NoOwner)
        } else if self.records.checkpoint(row.instance, &row.step).is_some() {
            Some(RowFault::Taken)
        } else {
            None
        }
    }

    fn put_first(&mut self, row: ExecutionRow) -> Result<(), RowFault>
        requires { first_fault (rows_in self.old) row ≡ None }
        ensures memory { OnErr result (result ≡ Err RowFault.OutOfMemory) }
        ensures added { OnOk result (rows_in self.new ≡ with_first (rows_in self.old) row) }
        ensures unchanged { OnErr result (self.new ≡ self.old) }
    {
        let (instance, x) = (row.instance, row.execution);
        let job = match row.job.try_clone() {
            Ok(job) => job,
            Err(refused) => {
                drop(row);
                return Err(refused.into());
            }
        };
        self.records
            .add_instance(JobInstance { instance, job }, row)?;
        self.newest.instance = instance.value();
        self.newest.execution = x.value();
        Ok(())
    }

    fn put_execution(&mut self, row: ExecutionRow) -> Result<(), RowFault>
        requires { again_fault (rows_in self.old) row ≡ None }
        ensures memory { OnErr result (result ≡ Err RowFault.OutOfMemory) }
        ensures added { OnOk result (rows_in self.new ≡ with_again (rows_in self.old) row) }
        ensures unchanged { OnErr result (self.new ≡ self.old) }
    {
        let x = row.execution;
        self.records.add_execution(row)?;
        self.newest.execution = x.value();
        Ok(())
    }

    fn put_work(&mut self, row: WorkRow) -> Result<(), RowFault>
        requires { work_fault (rows_in self.old) row ≡ None }
        ensures memory { OnErr result (result ≡ Err RowFault.OutOfMemory) }
        ensures added { OnOk result (rows_in self.new ≡ with_work (rows_in self.old) row) }
        ensures unchanged { OnErr result (self.new ≡ self.old) }
    {
        let (w, metrics) = (row.work, row.metrics);
        self.records.add_work(row)?;
        self.newest.work = w.value();
        self.sums.join(&metrics);
        Ok(())
    }

    fn put_checkpoint(&mut self, row: CheckpointRow) -> Result<(), RowFault>
        ensures memory { OnErr result (result ≡ Err RowFault.OutOfMemory) }
        ensures added { OnOk result (rows_in self.new ≡ with_checkpoint (rows_in self.old) row) }
        ensures unchanged { OnErr result (self.new ≡ self.old) }
    {
        let CheckpointRow {
            instance,
            step,
            mark,
        } = row;
        self.records.set_checkpoint(instance, step, Some(mark))?;
        Ok(())
    }
}
