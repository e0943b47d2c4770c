ghost use Rattle.std.specs.Prelude.{◌≡◌, ◌+◌, ◌<◌, ◌≤◌, ◌^◌};
ghost use Rattle.batch_history.specs.Answers.{no_counts, counted, with_one_more, total};

use crate::rows::JobInstance;
use batch_ids::{
    BatchStatus, ExecutionId, InstanceId, Listed, Metrics, Moment, Parameters, T256, WorkId,
};

/// A query of the job repository (Jakarta Batch 2.1, "JobOperator"). The counts of job executions
/// are this service's own.
#[derive(PartialEq, Eq, Debug, Drop)]
pub enum Query {
    /// The names of the jobs that have a job instance, by the least job instance number of each.
    JobNames,
    /// The number of a job's job instances.
    JobInstanceCount {
        /// The job's id.
        job: T256,
    },
    /// The job instances of a job, the newest first.
    JobInstances {
        /// The job's id.
        job: T256,
        /// The number of the newest ones to leave out.
        start: u64,
        /// The most job instances to return.
        count: u64,
    },
    /// The unfinished job executions of a job.
    RunningExecutions {
        /// The job's id.
        job: T256,
    },
    /// The parameters of a job execution.
    Parameters {
        /// Its number.
        execution: ExecutionId,
    },
    /// The job instance of a job execution.
    JobInstance {
        /// The job execution's number.
        execution: ExecutionId,
    },
    /// The records of the job executions of a job instance, the newest first.
    JobExecutions {
        /// The job instance's number.
        instance: InstanceId,
    },
    /// The record of a job execution.
    JobExecution {
        /// Its number.
        execution: ExecutionId,
    },
    /// The records of the step executions of a job execution.
    StepExecutions {
        /// The job execution's number.
        execution: ExecutionId,
    },
    /// The number of job executions with each batch status.
    StatusCounts,
}

/// The record of a job execution (Jakarta Batch 2.1, "JobExecution").
#[derive(PartialEq, Eq, Debug, Drop)]
pub struct JobExecution {
    /// Its number.
    pub execution: ExecutionId,
    /// The job instance that it belongs to.
    pub instance: InstanceId,
    /// The job's id.
    pub job: T256,
    /// Its batch status.
    pub status: BatchStatus,
    /// The moment of the start or restart that made it.
    pub create: Moment,
    /// The moment of the claim that took it up, if one did.
    pub start: Option<Moment>,
    /// The moment of the first operation after which it was finished, if it is finished.
    pub end: Option<Moment>,
    /// Its exit status, if it is finished.
    pub exit: Option<T256>,
    /// The moment of the last operation on it.
    pub updated: Moment,
}

/// The record of a step execution (Jakarta Batch 2.1, "StepExecution").
#[derive(PartialEq, Eq, Debug, Drop)]
pub struct StepExecution {
    /// Its number: that of its work item, or of the first work item if the step is partitioned.
    pub work: WorkId,
    /// The job execution that it belongs to.
    pub execution: ExecutionId,
    /// The id of the step.
    pub step: T256,
    /// Its batch status.
    pub status: BatchStatus,
    /// The moment of the claim that handed out that work item.
    pub start: Moment,
    /// The moment of the operation that ended it, if it is over.
    pub end: Option<Moment>,
    /// Its exit status, if it is over.
    pub exit: Option<T256>,
    /// The sums of all metric steps reported of it.
    pub metrics: Metrics,
}

/// The number of job executions with each batch status.
#[derive(Clone, Copy, PartialEq, Eq, Debug)]
pub struct CountsByStatus {
    /// The number of STARTING job executions.
    pub starting: u64,
    /// The number of STARTED job executions.
    pub started: u64,
    /// The number of STOPPING job executions.
    pub stopping: u64,
    /// The number of STOPPED job executions.
    pub stopped: u64,
    /// The number of FAILED job executions.
    pub failed: u64,
    /// The number of COMPLETED job executions.
    pub completed: u64,
    /// The number of ABANDONED job executions.
    pub abandoned: u64,
}

/// The answer to a query.
#[derive(Debug, Drop)]
pub enum Answer {
    /// The names of jobs, by the least job instance number of each.
    JobNames(Listed<T256>),
    /// The number of job instances.
    JobInstanceCount(u64),
    /// Job instances, the newest first.
    JobInstances(Listed<JobInstance>),
    /// The numbers of job executions, rising.
    RunningExecutions(Listed<ExecutionId>),
    /// The parameters of a job execution.
    Parameters(Parameters),
    /// The job instance of a job execution.
    JobInstance(JobInstance),
    /// The records of job executions, the newest first.
    JobExecutions(Listed<JobExecution>),
    /// The record of a job execution.
    JobExecution(JobExecution),
    /// The records of step executions, by rising number.
    StepExecutions(Listed<StepExecution>),
    /// The number of job executions with each batch status.
    StatusCounts(CountsByStatus),
}

impl CountsByStatus {
    /// Returns the counts of no job executions.
    pub fn zero() -> CountsByStatus
        ensures { result ≡ no_counts }
    {
        CountsByStatus {
            starting: 0,
            started: 0,
            stopping: 0,
            stopped: 0,
            failed: 0,
            completed: 0,
            abandoned: 0,
        }
    }

    /// Counts a job execution of this status. The caller ensures that fewer than 2^64 - 1 are
    /// counted.
    pub fn add(&mut self, status: BatchStatus)
        requires { total self.old + 1 < 2 ^ 64 }
        ensures { self.new ≡ with_one_more status self.old }
    {
        match status {
            BatchStatus::Starting => self.starting += 1,
            BatchStatus::Started => self.started += 1,
            BatchStatus::Stopping => self.stopping += 1,
            BatchStatus::Stopped => self.stopped += 1,
            BatchStatus::Failed => self.failed += 1,
            BatchStatus::Completed => self.completed += 1,
            BatchStatus::Abandoned => self.abandoned += 1,
        }
    }

    /// Removes one job execution of this status from the count. The caller ensures that one is
    /// counted.
    pub fn remove(&mut self, status: BatchStatus)
        requires { 1 ≤ counted status self.old }
        ensures { self.old ≡ with_one_more status self.new }
    {
        match status {
            BatchStatus::Starting => self.starting -= 1,
            BatchStatus::Started => self.started -= 1,
            BatchStatus::Stopping => self.stopping -= 1,
            BatchStatus::Stopped => self.stopped -= 1,
            BatchStatus::Failed => self.failed -= 1,
            BatchStatus::Completed => self.completed -= 1,
            BatchStatus::Abandoned => self.abandoned -= 1,
        }
    }
}
