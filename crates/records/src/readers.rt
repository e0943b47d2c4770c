ghost use Rattle.std.specs.Prelude.{◌≡◌, filter};
ghost use Rattle.records.specs.Slots.{rows_left};
ghost use Rattle.records.specs.Left.{job_names, is_first_of_job, names_left, instances_numbered, instances_left, executions_numbered, executions_left, works_numbered, works_left};

use crate::Records;
use crate::row_list::RowsLeft;
use batch_history::{ExecutionRow, JobInstance, WorkRow};
use batch_ids::{ExecutionId, InstanceId, T256, WorkId};

/// The names of the jobs that have a job instance, in ascending order of each job's first remaining
/// job instance. Reading all of them looks at each job instance up to the first one of the newest
/// job.
#[derive(Debug, Drop)]
pub struct Names<'r> {
    records: &'r Records,
    rows: RowsLeft<'r, JobInstance>,
}

impl<'r> Names<'r> {
    pub(crate) fn new(records: &'r Records, rows: RowsLeft<'r, JobInstance>) -> Names<'r>
        ensures { names_left result
            ≡ job_names (filter (is_first_of_job records.now.instances) (rows_left rows.entry)) }
    {
        Names { records, rows }
    }
}

impl<'r> Iterator for Names<'r> {
    ghost use Rattle.std.specs.Iterator.{YieldsFirstRef, item_count};
    ghost use Rattle.records.specs.Left.{names_left};

    type Item = &'r T256;

    ghost next_gives = { YieldsFirstRef names_left };

    ghost remaining = { item_count names_left };

    fn next(&mut self) -> Option<&'r T256> {
        while let Some(first) = self.rows.next() {
            if self.records.is_first_of_job(first) {
                return Some(&first.job);
            }
        }
        None
    }
}

/// The job instances of a job, in ascending order of their numbers.
#[derive(Debug, Drop)]
pub struct InstancesOf<'r> {
    records: &'r Records,
    numbers: &'r [u64],
}

impl<'r> InstancesOf<'r> {
    pub(crate) fn new(records: &'r Records, numbers: &'r [u64]) -> InstancesOf<'r>
        ensures { instances_left result ≡ instances_numbered numbers.now records.now.instances }
    {
        InstancesOf { records, numbers }
    }
}

impl<'r> Iterator for InstancesOf<'r> {
    ghost use Rattle.std.specs.Iterator.{YieldsFirstRef, item_count};
    ghost use Rattle.records.specs.Left.{instances_left};

    type Item = &'r JobInstance;

    ghost next_gives = { YieldsFirstRef instances_left };

    ghost remaining = { item_count instances_left };

    fn next(&mut self) -> Option<&'r JobInstance> {
        while let Some((first, others)) = self.numbers.split_first() {
            self.numbers = others;
            if let Some(row) = self.records.instance(InstanceId::new(*first)) {
                return Some(row);
            }
        }
        None
    }
}

/// The job executions of a job instance, in ascending order of their numbers.
#[derive(Debug, Drop)]
pub struct ExecutionsOf<'r> {
    records: &'r Records,
    numbers: &'r [u64],
}

impl<'r> ExecutionsOf<'r> {
    pub(crate) fn new(records: &'r Records, numbers: &'r [u64]) -> ExecutionsOf<'r>
        ensures { executions_left result ≡ executions_numbered numbers.now records.now.executions }
    {
        ExecutionsOf { records, numbers }
    }
}

impl<'r> Iterator for ExecutionsOf<'r> {
    ghost use Rattle.std.specs.Iterator.{YieldsFirstRef, item_count};
    ghost use Rattle.records.specs.Left.{executions_left};

    type Item = &'r ExecutionRow;

    ghost next_gives = { YieldsFirstRef executions_left };

    ghost remaining = { item_count executions_left };

    fn next(&mut self) -> Option<&'r ExecutionRow> {
        while let Some((first, others)) = self.numbers.split_first() {
            self.numbers = others;
            if let Some(row) = self.records.execution(ExecutionId::new(*first)) {
                return Some(row);
            }
        }
        None
    }
}

/// The work items of a job execution, in ascending order of their numbers.
#[derive(Debug, Drop)]
pub struct WorksOf<'r> {
    records: &'r Records,
    numbers: &'r [u64],
}

impl<'r> WorksOf<'r> {
    pub(crate) fn new(records: &'r Records, numbers: &'r [u64]) -> WorksOf<'r>
        ensures { works_left result ≡ works_numbered numbers.now records.now.works }
    {
        WorksOf { records, numbers }
    }
}

impl<'r> Iterator for WorksOf<'r> {
    ghost use Rattle.std.specs.Iterator.{YieldsFirstRef, item_count};
    ghost use Rattle.records.specs.Left.{works_left};

    type Item = &'r WorkRow;

    ghost next_gives = { YieldsFirstRef works_left };

    ghost remaining = { item_count works_left };

    fn next(&mut self) -> Option<&'r WorkRow> {
        while let Some((first, others)) = self.numbers.split_first() {
            self.numbers = others;
            if let Some(row) = self.records.work(WorkId::new(*first)) {
                return Some(row);
            }
        }
        None
    }
}
