ghost use Rattle.std.specs.List.{list_any};
ghost use Rattle.std.specs.Prelude.{nat_lt, drop, take, filter, false, not, ◌&&◌, bytes_eq, if◌then◌else◌, vec_len, vec_capacity, ◌≡◌, ◌==◌, ◌+◌, ◌-◌, ◌^◌, ◌<◌, ◌≤◌, ◌++◌, ◌∷◌, [], ℕ, List, None, true, length, find, slice_set, is_some, option_copied, IsOk, IfOk, map, IfSome, IfNone, OnOk, OnErr};
ghost use Rattle.jsl_model.specs.Names.{distinct};
ghost use Rattle.batch_history.specs.Answers.{counts_of, instances_of_job, running_executions};
ghost use Rattle.batch_ids.specs.Statuses.{is_unfinished};
ghost use Rattle.batch_history.specs.Lists.{change_first};
ghost use Rattle.batch_history.specs.Replies.{is_execution, is_running_in, row_status};
ghost use Rattle.batch_history.specs.Works.{is_work};
ghost use Rattle.batch_history.specs.Lists.{is_at};
ghost use Rattle.batch_history.specs.Replies.{instance_in};
ghost use Rattle.batch_history.specs.Restarts.{newest_work, works_of_step};
ghost use Rattle.records.specs.Indexes.{AreStepped, AreStepsOf, has_steps, numbers_named, numbers_of_step, numbers_under};
ghost use Rattle.records.specs.Maps.{no_rows, is_instance, is_place, mark_at, instance_numbers, execution_numbers, work_numbers, AreBelow, AreKeyed, AreRising, SetsCheckpoint, MayReplaceExecution, MayReplaceWork};
ghost use Rattle.records.specs.Left.{is_work_of_instance, job_names, is_first_of_job, names_left, instances_left, executions_of, executions_left, works_of, works_left, works_numbered, works_of_instance};
ghost use Rattle.batch_history.specs.Rows.{instances_there, executions_there, works_there};
ghost use Rattle.records.specs.Slots.{rows_left};
ghost use Rattle.records.specs.Without.{checkpoints_there, without_instance};

use crate::index_rows::{index_execution, index_instance, index_work};
use crate::number_lists::{NumberLists, are_rising, numbers_through};
use crate::readers::{ExecutionsOf, InstancesOf, Names, WorksOf};
use crate::row_list::{RowList, RowsLeft};
use crate::running::{RunningLists, add_running, change_running, forget_if, running_searched};
use crate::step_lists::StepLists;
use batch_history::{CheckpointRow, CountsByStatus, ExecutionRow, JobInstance, WorkRow};
use batch_ids::{ExecutionId, InstanceId, OutOfMemory, Text, WorkId};
use record_lists::{CheckpointLists, NameLists};
use std::alloc::Global;
use std::marker::Model;
use walk_rules::WorkKey;

/// The rows of a job repository. See Jakarta Batch 2.1, "JobRepository".
///
/// Each job instance, job execution and work item has a row and a number of its own. The rows of
/// each kind are in ascending order of their numbers. The numbers of a removed job instance, and of
/// its job executions and work items, are missing. A step of a job instance, or a partition of it,
/// has one checkpoint at most.
///
/// These indexes exist:
///
/// - from a job's name to its job instances and to its unfinished job executions
/// - from a job instance to its job executions and to its checkpoints
/// - from a step of a job instance to its work items
/// - from a job execution to its work items
///
/// The number of job executions with each batch status is counted, too.
///
/// Adding a row costs constant time on average, plus a search of the numbers beside it. An
/// unfinished job execution also costs a search among the unfinished ones of its job. A single call
/// may cost time proportional to the number of rows, if a list of them grows.
#[derive(Debug, Drop)]
pub struct Records {
    instances: RowList<JobInstance>,
    executions: RowList<ExecutionRow>,
    works: RowList<WorkRow>,
    checkpoints: CheckpointLists,
    instances_by_name: NameLists,
    executions_by_instance: NumberLists,
    works_by_execution: NumberLists,
    works_by_step: StepLists,
    counts: CountsByStatus,
    running: Option<RunningLists>,
}

impl Model for Records {
    ghost use Rattle.std.specs.Prelude.{◌≡◌};
    ghost use Rattle.batch_history.specs.Answers.{counts_of};
    ghost use Rattle.records.specs.Indexes.{AreIndexed, AreRunning, AreStepped, has_steps, numbers_named, numbers_of_step, numbers_under};
    ghost use Rattle.records.specs.Maps.{Maps};

    ghost Value = { Maps };

    ghost view = { λ r. record { instances = r.instances.rows; executions = r.executions.rows; works = r.works.rows; checkpoints = r.checkpoints } };

    ghost invariant = { λ r. AreIndexed record { instances = r.instances.rows; executions = r.executions.rows; works = r.works.rows; checkpoints = r.checkpoints } (numbers_named r.instances_by_name) (numbers_under r.executions_by_instance) (numbers_under r.works_by_execution) × AreStepped record { instances = r.instances.rows; executions = r.executions.rows; works = r.works.rows; checkpoints = r.checkpoints } (numbers_of_step r.works_by_step) (has_steps r.works_by_step) × (r.counts ≡ counts_of r.executions.rows) × AreRunning r.running r.executions.rows };
}

impl Records {
    /// Returns a repository without rows. Allocates nothing.
    pub fn new(alloc: Global) -> Records
        ensures { result ≡ no_rows }
    {
        Records {
            instances: RowList::new(alloc),
            executions: RowList::new(alloc),
            works: RowList::new(alloc),
            checkpoints: CheckpointLists::new(alloc),
            instances_by_name: NameLists::new(alloc),
            executions_by_instance: NumberLists::new(alloc),
            works_by_execution: NumberLists::new(alloc),
            works_by_step: StepLists::new(alloc),
            counts: CountsByStatus::zero(),
            running: Some(RunningLists::new(alloc)),
        }
    }

    /// Returns the job instance with this number, if there is one.
    ///
    /// Looks first at the position that the number suggests, then does a binary search.
    pub fn instance(&self, i: InstanceId) -> Option<&JobInstance>
        ensures { option_copied result ≡ find (is_instance i) self.now.instances }
    {
        self.instances.get(i.value())
    }

    /// Returns the job execution with this number, if there is one. Costs the same as `instance`.
    pub fn execution(&self, x: ExecutionId) -> Option<&ExecutionRow>
        ensures found { option_copied result ≡ find (is_execution x) self.now.executions }
        ensures keyed { AreKeyed self.now }
    {
        self.executions.get(x.value())
    }

    /// Returns the work item with this number, if there is one. Costs the same as `instance`.
    pub fn work(&self, w: WorkId) -> Option<&WorkRow>
        ensures { option_copied result ≡ find (is_work w) self.now.works }
    {
        self.works.get(w.value())
    }

    /// Returns the checkpoint of a step of a job instance, or of a partition of the step, if there
    /// is one.
    ///
    /// Costs time proportional to the number of checkpoints of the job instance.
    pub fn checkpoint(&self, i: InstanceId, step: &WorkKey) -> Option<&Text<65536>>
        ensures { option_copied result ≡ mark_at self.now.checkpoints record {
          instance = i;
          step = step.now;
        } }
    {
        self.checkpoints.mark(i, step)
    }

    /// Returns all job instances, in ascending order of their numbers. Allocates nothing.
    pub fn instances(&self) -> RowsLeft<'_, JobInstance>
        ensures { rows_left result ≡ self.now.instances }
    {
        self.instances.rows()
    }

    /// Returns all job executions, in ascending order of their numbers. Allocates nothing.
    pub fn executions(&self) -> RowsLeft<'_, ExecutionRow>
        ensures { rows_left result ≡ self.now.executions }
    {
        self.executions.rows()
    }

    /// Returns all work items, in ascending order of their numbers. Allocates nothing.
    pub fn works(&self) -> RowsLeft<'_, WorkRow>
        ensures { rows_left result ≡ self.now.works }
    {
        self.works.rows()
    }

    /// Returns all checkpoints, in ascending order of the numbers of their job instances.
    ///
    /// # Errors
    ///
    /// Returns `OutOfMemory` if memory is refused.
    pub fn checkpoints(&self) -> Result<Vec<&CheckpointRow>, OutOfMemory>
        ensures { IfOk result (λ found. map (λ row. row.now) found.items ≡ self.now.checkpoints) }
    {
        self.checkpoints.rows()
    }

    /// Returns the names of the jobs that have a job instance. They are in ascending order of each
    /// job's first remaining job instance. Allocates nothing.
    pub fn names(&self) -> Names<'_>
        ensures { names_left result ≡ distinct (job_names self.now.instances) }
    {
        Names::new(self, self.rows_to_newest_job())
    }

    /// Returns the job instances up to the first one of the newest job.
    fn rows_to_newest_job(&self) -> RowsLeft<'_, JobInstance>
        ensures { job_names (filter (is_first_of_job self.now.instances) (rows_left result))
            ≡ distinct (job_names self.now.instances) }
    {
        self.instances.rows_through(self.instances_by_name.newest())
    }

    /// Checks whether a job instance is the first of its job.
    pub(crate) fn is_first_of_job(&self, row: &JobInstance) -> bool
        ensures { result ≡ is_first_of_job self.now.instances row.now }
    {
        self.instances_by_name
            .is_first(row.job.as_str(), row.instance.value())
    }

    /// Returns the job instances of a job, in ascending order of their numbers. There are fewer
    /// than 2^64.
    ///
    /// Allocates nothing. Reading costs a binary search for each job instance.
    #[tactic(auto, using(crate::proofs::Naming::instances_few))]
    pub fn instances_of<'r>(&'r self, name: &'r str) -> InstancesOf<'r>
        ensures named { instances_left result ≡ instances_of_job name.now self.now.instances }
        ensures few { length (instances_of_job name.now self.now.instances) < 2 ^ 64 }
    {
        InstancesOf::new(self, self.instances_by_name.under(name))
    }

    /// Returns the number of job instances of a job, in constant time.
    pub fn instance_count(&self, name: &str) -> usize
        ensures { result ≡ length (instances_of_job name.now self.now.instances) }
    {
        self.instances_by_name.under(name).len()
    }

    /// Returns a range of a job's job instances, in ascending order of their numbers. The range
    /// includes position `from` and excludes position `to`.
    ///
    /// Allocates nothing. Reading costs a binary search for each job instance.
    pub fn instances_between(&self, name: &str, from: usize, to: usize) -> InstancesOf<'_>
        requires order { from ≤ to }
        requires within { to ≤ length (instances_of_job name.now self.now.instances) }
        ensures { instances_left result
            ≡ take (to - from) (drop from (instances_of_job name.now self.now.instances)) }
    {
        InstancesOf::new(self, &self.instances_by_name.under(name)[from..to])
    }

    /// Returns the job executions of a job instance, in ascending order of their numbers.
    ///
    /// Allocates nothing. Reading costs a binary search for each job execution.
    pub fn executions_of(&self, i: InstanceId) -> ExecutionsOf<'_>
        ensures { executions_left result ≡ executions_of i self.now.executions }
    {
        ExecutionsOf::new(self, self.executions_by_instance.under(i.value()))
    }

    /// Checks whether a job instance has a job execution with a number above `x`, in constant time.
    pub fn has_execution_above(&self, i: InstanceId, x: ExecutionId) -> bool
        ensures { result
            ≡ list_any (λ row. nat_lt x row.execution) (executions_of i self.now.executions) }
    {
        match self.executions_by_instance.under(i.value()).last() {
            Some(newest) => x.value() < *newest,
            None => false,
        }
    }

    /// Returns the work items of a job execution, in ascending order of their numbers.
    ///
    /// Allocates nothing. Reading costs a binary search for each work item.
    pub fn works_of(&self, x: ExecutionId) -> WorksOf<'_>
        ensures { works_left result ≡ works_of x self.now.works }
    {
        WorksOf::new(self, self.works_by_execution.under(x.value()))
    }

    /// Returns the work items of all job executions of a job instance, in ascending order of their
    /// numbers.
    ///
    /// Costs time proportional to the number of these work items, if those of each job execution
    /// precede those of the next one. Otherwise, it looks at every work item of the repository.
    ///
    /// # Errors
    ///
    /// Returns `OutOfMemory` if memory is refused.
    pub fn works_of_instance(&self, i: InstanceId) -> Result<Vec<&WorkRow>, OutOfMemory>
        ensures { IfOk result (λ found. map (λ row. row.now) found.items
            ≡ works_of_instance i self.now.executions self.now.works) }
    {
        let alloc = self.works.alloc();
        let executions = &self.executions_by_instance;
        let numbers = numbers_through(alloc, executions, &self.works_by_execution, i.value())?;
        if are_rising(numbers.as_slice()) {
            self.works_numbered(numbers.as_slice())
        } else {
            self.works_searched(i)
        }
    }

    /// Returns the index of a job instance's work items by the ids of their steps, if there is one.
    /// A job instance that was restarted has one.
    pub fn steps_of(&self, i: InstanceId) -> Option<&NameLists>
        ensures { IfSome result (λ names. AreStepsOf i self.now (numbers_named names.now)) }
    {
        self.works_by_step.of(i.value())
    }

    /// Builds the index of a job instance's work items by the ids of their steps. Costs a look-up
    /// for each work item of the job instance.
    ///
    /// # Errors
    ///
    /// Returns `OutOfMemory` if memory is refused.
    pub fn steps_made(&self, i: InstanceId) -> Result<NameLists, OutOfMemory>
        ensures { IfOk result (λ names. AreStepsOf i self.now (numbers_named names)) }
    {
        let works = self.works_of_instance(i)?;
        steps_among(self.works.alloc(), works.as_slice())
    }

    /// Returns the numbers of a step's work items from an index of its job instance.
    fn step_numbers<'s>(&self, steps: &'s NameLists, step: &str) -> &'s [u64]
        ensures numbers { result.now ≡ numbers_named steps.now step.now }
        ensures keyed { AreKeyed self.now }
    {
        let _ = &self.works;
        steps.under(step)
    }

    /// Returns the work items of a step from an index of its job instance, in ascending order of
    /// their numbers. Costs a binary search for each of them.
    ///
    /// # Errors
    ///
    /// Returns `OutOfMemory` if memory is refused.
    pub fn works_of_step(&self, steps: &NameLists, step: &str) -> Result<Vec<&WorkRow>, OutOfMemory>
        ensures { (i : ℕ) → AreStepsOf i self.now (numbers_named steps.now)
            → IfOk result (λ found. map (λ row. row.now) found.items
            ≡ works_of_step step.now (works_of_instance i self.now.executions self.now.works)) }
    {
        self.works_numbered(self.step_numbers(steps, step))
    }

    /// Returns the newest work item of a step from an index of its job instance, if there is one.
    /// Costs a binary search.
    pub fn newest_of_step(&self, steps: &NameLists, step: &str) -> Option<&WorkRow>
        ensures { (i : ℕ) → AreStepsOf i self.now (numbers_named steps.now)
            → option_copied result ≡ newest_work
            (works_of_step step.now (works_of_instance i self.now.executions self.now.works)) }
    {
        match self.step_numbers(steps, step).last() {
            Some(number) => self.work(WorkId::new(*number)),
            None => None,
        }
    }

    /// Returns the number of a step's work items from an index of its job instance.
    pub fn count_of_step(&self, steps: &NameLists, step: &str) -> usize
        ensures { (i : ℕ) → AreStepsOf i self.now (numbers_named steps.now)
            → result ≡ length
            (works_of_step step.now (works_of_instance i self.now.executions self.now.works)) }
    {
        steps.under(step).len()
    }

    /// Indexes the work items of a job instance by their steps, unless they are indexed already.
    fn index_steps(&mut self, i: InstanceId) -> Result<(), OutOfMemory>
        ensures { self.new ≡ self.old }
    {
        if self.works_by_step.of(i.value()).is_some() {
            return Ok(());
        }
        let names = self.steps_made(i)?;
        self.works_by_step.put(i.value(), names)
    }

    /// Checks whether there is no work item of a job execution with this number.
    fn has_no_work(&self, x: ExecutionId) -> bool
        ensures { result ≡ true → works_of x self.now.works ≡ [] }
    {
        self.works_by_execution.under(x.value()).is_empty()
    }

    /// Returns the work items with these numbers.
    fn works_numbered(&self, numbers: &[u64]) -> Result<Vec<&WorkRow>, OutOfMemory>
        ensures { IfOk result (λ found. map (λ row. row.now) found.items
            ≡ works_numbered numbers.now self.now.works) }
    {
        let mut found = Vec::new(self.works.alloc());
        for number in numbers {
            if let Some(row) = self.work(WorkId::new(*number)) {
                found.push(row)?;
            }
        }
        Ok(found)
    }

    /// Returns the work items of a job instance by a look at every work item.
    fn works_searched(&self, i: InstanceId) -> Result<Vec<&WorkRow>, OutOfMemory>
        ensures { IfOk result (λ found. map (λ row. row.now) found.items
            ≡ works_of_instance i self.now.executions self.now.works) }
    {
        let mut found = Vec::new(self.works.alloc());
        for row in self.works.rows() {
            if is_work_of_instance(&self.executions, i, row) {
                found.push(row)?;
            }
        }
        Ok(found)
    }

    /// Adds a job instance with its first job execution. Both need a number above the existing
    /// ones.
    ///
    /// Costs constant time on average, plus a search among the unfinished job executions of the
    /// job. That search compares as many numbers as their count has binary digits.
    ///
    /// # Errors
    ///
    /// Returns only `OutOfMemory`, with nothing changed, if memory is refused.
    pub fn add_instance(
        &mut self,
        instance: JobInstance,
        first: ExecutionRow,
    ) -> Result<(), OutOfMemory>
        requires instance { AreBelow instance.instance (instance_numbers self.old.instances) }
        requires first { AreBelow first.execution (execution_numbers self.old.executions) }
        ensures added { OnOk result (self.new ≡
            record self.old {
              instances = self.old.instances ++ instance ∷ [];
              executions = self.old.executions ++ first ∷ [];
            }) }
        ensures unchanged { OnErr result (self.new ≡ self.old) }
    {
        let has_no_work = self.has_no_work(first.execution);
        match index_instance(
            &mut self.instances,
            &mut self.executions,
            &mut self.instances_by_name,
            &mut self.executions_by_instance,
            &instance,
            &first,
        ) {
            Ok(()) => (),
            Err(refused) => {
                drop(first);
                drop(instance);
                return Err(refused);
            }
        }
        self.works_by_step.keep_if(has_no_work);
        self.counts.add(first.status());
        add_running(&mut self.running, &first);
        self.executions.push_reserved(first);
        self.instances.push_reserved(instance);
        Ok(())
    }

    /// Adds a job execution. It needs a number above the existing ones.
    ///
    /// Costs as much as `add_instance`. If the job instance's work items aren't indexed by step
    /// yet, each of them costs a look-up.
    ///
    /// # Errors
    ///
    /// Returns only `OutOfMemory`, with nothing changed, if memory is refused.
    pub fn add_execution(&mut self, row: ExecutionRow) -> Result<(), OutOfMemory>
        requires { AreBelow row.execution (execution_numbers self.old.executions) }
        ensures added { OnOk result (self.new ≡
            record self.old { executions = self.old.executions ++ row ∷ [] }) }
        ensures unchanged { OnErr result (self.new ≡ self.old) }
    {
        match self.index_steps(row.instance) {
            Ok(()) => self.put_execution(row),
            Err(refused) => {
                drop(row);
                Err(refused)
            }
        }
    }

    /// Adds a job execution of a job instance whose work items are indexed by step already.
    fn put_execution(&mut self, row: ExecutionRow) -> Result<(), OutOfMemory>
        requires { AreBelow row.execution (execution_numbers self.old.executions) }
        ensures added { OnOk result (self.new ≡
            record self.old { executions = self.old.executions ++ row ∷ [] }) }
        ensures unchanged { OnErr result (self.new ≡ self.old) }
    {
        let has_no_work = self.has_no_work(row.execution);
        let by_instance = &mut self.executions_by_instance;
        match index_execution(&mut self.executions, by_instance, &row) {
            Ok(()) => (),
            Err(refused) => {
                drop(row);
                return Err(refused);
            }
        }
        self.works_by_step.keep_if(has_no_work);
        self.counts.add(row.status());
        add_running(&mut self.running, &row);
        self.executions.push_reserved(row);
        Ok(())
    }

    /// Adds a work item. It needs a number above the existing ones.
    ///
    /// # Errors
    ///
    /// Returns only `OutOfMemory`, with nothing changed, if memory is refused.
    pub fn add_work(&mut self, row: WorkRow) -> Result<(), OutOfMemory>
        requires { AreBelow row.work (work_numbers self.old.works) }
        ensures added { OnOk result (self.new ≡
            record self.old { works = self.old.works ++ row ∷ [] }) }
        ensures unchanged { OnErr result (self.new ≡ self.old) }
    {
        let owner = owner_of(&self.executions, row.execution);
        match index_work(
            &mut self.works,
            &mut self.works_by_step,
            &mut self.works_by_execution,
            owner,
            &row,
        ) {
            Ok(()) => (),
            Err(refused) => {
                drop(row);
                return Err(refused);
            }
        }
        self.works.push_reserved(row);
        Ok(())
    }

    /// Replaces the row of a job execution. The new row must have the old one's number, job
    /// instance and job, because the indexes use them. Allocates nothing.
    pub fn change_execution(&mut self, x: ExecutionId, row: ExecutionRow)
        requires { MayReplaceExecution self.old.executions x row }
        ensures { self.new ≡ record self.old {
          executions = change_first (is_execution x)
              (λ old. row) self.old.executions;
        } }
    {
        let Some(old) = self.executions.get(x.value()) else {
            unreachable!();
        };
        let was = old.status();
        self.counts.remove(was);
        self.counts.add(row.status());
        change_running(&mut self.running, was.is_unfinished(), &row);
        self.executions.put(x.value(), row);
    }

    /// Replaces the row of a work item. The new row must have the old one's number, job execution
    /// and step or decision, because the indexes use them. Allocates nothing.
    pub fn change_work(&mut self, w: WorkId, row: WorkRow)
        requires { MayReplaceWork self.old.works w row }
        ensures { self.new ≡ record self.old {
          works = change_first (is_work w)
              (λ old. row) self.old.works;
        } }
    {
        self.works.put(w.value(), row);
    }

    /// Returns the numbers of the unfinished job executions of a job, in ascending order.
    ///
    /// Costs time proportional to their number. Without their index, it looks at every job
    /// execution. The index is dropped if memory for it is refused, or if a job instance with an
    /// unfinished job execution is removed.
    ///
    /// # Errors
    ///
    /// Returns `OutOfMemory` if memory is refused.
    pub fn running_of(&self, name: &str) -> Result<Vec<ExecutionId>, OutOfMemory>
        ensures { IfOk result (λ found. found.items
            ≡ running_executions name.now self.now.executions) }
    {
        match self.running.as_ref() {
            Some(lists) => lists.of_job(name),
            None => running_searched(&self.executions, name),
        }
    }

    /// Checks whether a job instance has an unfinished job execution, in constant time. Without the
    /// index, it looks at each job execution of the job instance.
    pub fn has_unfinished(&self, i: InstanceId) -> bool
        ensures { result ≡ list_any (is_running_in i) self.now.executions }
    {
        match self.running.as_ref() {
            Some(lists) => !lists.of_instance(i.value()).is_empty(),
            None => self.finds_unfinished(i),
        }
    }

    /// Checks whether a job instance has an unfinished job execution, by a look at each of its job
    /// executions.
    fn finds_unfinished(&self, i: InstanceId) -> bool
        ensures { result ≡ list_any (is_running_in i) self.now.executions }
    {
        for row in self.executions_of(i) {
            if row.status().is_unfinished() {
                return true;
            }
        }
        false
    }

    /// Returns the number of job executions with each batch status, in constant time.
    pub fn counts(&self) -> CountsByStatus
        ensures { result ≡ counts_of self.now.executions }
    {
        self.counts
    }

    /// Returns the number of job executions with each batch status, without those of a job
    /// instance. Costs time proportional to the number of its job executions.
    fn counts_without(&self, i: InstanceId) -> CountsByStatus
        ensures { result ≡ counts_of (executions_there (λ j. j == i) self.now.executions) }
    {
        let mut counts = self.counts;
        for row in self.executions_of(i) {
            counts.remove(row.status());
        }
        counts
    }

    /// Removes a job instance, its job executions, their work items and its checkpoints.
    ///
    /// Allocates nothing. Each removed row costs a binary search, and removing the job instance
    /// shifts the later numbers of its job. The slots of the removed rows stay, empty, between the
    /// others.
    pub fn remove_instance(&mut self, i: InstanceId)
        requires { is_some (find (is_instance i) self.old.instances) ≡ true }
        ensures { self.new ≡ without_instance i self.old }
    {
        let counts = self.counts_without(i);
        let has_unfinished = self.has_unfinished(i);
        let Some(row) = self.instances.get(i.value()) else {
            unreachable!();
        };
        self.instances_by_name.remove(row.job.as_str(), i.value());
        let executions = self.executions_by_instance.under(i.value());
        remove_works(&mut self.works, &self.works_by_execution, executions);
        self.executions.remove_all(executions);
        self.works_by_execution.remove_all(executions);
        self.executions_by_instance.remove(i.value());
        self.works_by_step.remove(i.value());
        self.checkpoints.remove_instance(i);
        self.instances.remove(i.value());
        self.counts = counts;
        forget_if(&mut self.running, has_unfinished);
    }

    /// Sets the checkpoint of a step of a job instance, or of a partition of the step. Clears it if
    /// `mark` is `None`.
    ///
    /// # Errors
    ///
    /// Returns only `OutOfMemory`, with nothing changed, if memory is refused for a mark. Clearing
    /// allocates nothing and succeeds.
    #[tactic(auto, using(crate::proofs::Marks::set_one))]
    pub fn set_checkpoint(
        &mut self,
        i: InstanceId,
        step: WorkKey,
        mark: Option<Text<65536>>,
    ) -> Result<(), OutOfMemory>
        ensures set { OnOk result (SetsCheckpoint self.old self.new
            record { instance = i; step = step } mark) }
        ensures unchanged { OnErr result (self.new ≡ self.old) }
        ensures cleared { mark ≡ None → IsOk result }
    {
        match mark {
            Some(mark) => self.checkpoints.put(CheckpointRow {
                instance: i,
                step,
                mark,
            }),
            None => {
                self.checkpoints.clear(i, &step);
                Ok(())
            }
        }
    }
}

/// Indexes these work items by the ids of their steps.
fn steps_among(alloc: Global, works: &[&WorkRow]) -> Result<NameLists, OutOfMemory>
    ensures { IfOk result (λ names. (q : List ℕ) → numbers_named names q
        ≡ work_numbers (works_of_step q (map (λ row. row.now) works.now))) }
{
    let mut names = NameLists::new(alloc);
    for row in works {
        names.push(row.element.as_str(), row.work.value())?;
    }
    Ok(names)
}

/// Returns the job instance of a job execution, if the job execution exists.
fn owner_of(executions: &RowList<ExecutionRow>, x: ExecutionId) -> Option<InstanceId>
    ensures { result ≡ instance_in executions.now.rows x }
{
    let row = executions.get(x.value())?;
    Some(row.instance)
}

/// Checks whether a work item belongs to a job execution of this job instance, from the rows of the
/// job executions.
fn is_work_of_instance(executions: &RowList<ExecutionRow>, i: InstanceId, row: &WorkRow) -> bool
    ensures { result ≡ is_work_of_instance i executions.now.rows row.now }
{
    match executions.get(row.execution.value()) {
        None => false,
        Some(execution) => execution.instance == i,
    }
}

/// Removes the work items of these job executions.
fn remove_works(works: &mut RowList<WorkRow>, by_execution: &NumberLists, executions: &[u64])
    ensures { works.new.rows ≡ filter (λ row. not (list_any (λ x. list_any (λ n. n == row.work)
        (numbers_under by_execution.now x)) executions.now)) works.old.rows }
{
    for x in executions {
        works.remove_all(by_execution.under(*x));
    }
}
