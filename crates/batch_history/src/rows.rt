ghost use Rattle.std.specs.Prelude.{◌≡◌, IfOk};
ghost use Rattle.batch_history.specs.Answers.{record_of};
ghost use Rattle.batch_history.specs.StepExecutions.{shown_step, state_status};
ghost use Rattle.batch_history.specs.Replies.{row_status};
ghost use Rattle.batch_history.specs.Works.{work_key};

use crate::call::WorkKind;
use crate::query::{JobExecution, StepExecution};
use batch_ids::{
    BatchStatus, ExecutionId, InstanceId, Metrics, Moment, OutOfMemory, Parameters, Shared, T256,
    Text, WorkId, WorkOutcome, try_clone_option,
};
use job_plans::Plan;
use walk_rules::WorkKey;

/// A job instance (Jakarta Batch 2.1, "JobInstance").
#[derive(PartialEq, Eq, Debug, Drop)]
pub struct JobInstance {
    /// Its number.
    pub instance: InstanceId,
    /// The job's id.
    pub job: T256,
}

/// The last numbers given to a job instance, a job execution and a work item, 0 if none was given.
/// A number is given once, even after a purge has removed its row.
#[derive(Clone, Copy, PartialEq, Eq, Debug)]
pub struct LastNumbers {
    /// The last number of a job instance.
    pub instance: u64,
    /// The last number of a job execution.
    pub execution: u64,
    /// The last number of a work item.
    pub work: u64,
}

/// A repository's row of a job execution.
#[derive(Debug, Drop)]
pub struct ExecutionRow {
    /// Its number.
    pub execution: ExecutionId,
    /// The job instance that it belongs to.
    pub instance: InstanceId,
    /// The job's id.
    pub job: T256,
    /// The parameters of its start or restart.
    pub parameters: Parameters,
    /// The element at which it begins, and the state that it takes over from earlier job executions
    /// (Jakarta Batch 2.1, "Job Restart Processing").
    pub plan: Shared<Plan>,
    /// Whether it was asked to stop.
    pub stop: bool,
    /// Whether it was abandoned.
    pub abandoned: bool,
    /// Its batch status, apart from abandonment.
    pub bare: BatchStatus,
    /// The moment of the start or restart that made it.
    pub create: Moment,
    /// The moment of the claim that took it up, if one did.
    pub start: Option<Moment>,
    /// The moment of the first operation after which it was finished, if it is finished.
    pub end: Option<Moment>,
    /// Its exit status, if it is finished.
    pub exit: Option<T256>,
    /// The moment of the last operation on it.
    pub updated: Moment,
}

/// The state of a work item.
#[derive(PartialEq, Eq, Debug, Drop)]
pub enum WorkState {
    /// It is being run.
    Busy,
    /// It is over, with this outcome and exit status.
    Over(WorkOutcome, T256),
}

/// A repository's row of a work item.
#[derive(PartialEq, Eq, Debug, Drop)]
pub struct WorkRow {
    /// Its number.
    pub work: WorkId,
    /// The job execution that it belongs to.
    pub execution: ExecutionId,
    /// The id of the step or decision.
    pub element: T256,
    /// The number of its partition, from 0, if the step is partitioned.
    pub partition: Option<u32>,
    /// The kind of the work item.
    pub kind: WorkKind,
    /// The number of the session that claimed it.
    pub claimer: u64,
    /// Its state.
    pub state: WorkState,
    /// The moment of the claim that handed it out.
    pub start: Moment,
    /// The moment of the finish or loss that ended it, if it is over.
    pub end: Option<Moment>,
    /// The number, from 1, of the operation of the history that ended it, if it is over.
    pub ended: Option<u64>,
    /// The metrics reported of it so far.
    pub metrics: Metrics,
}

/// A repository's row of the checkpoint of a job instance's step, or of a partition of it.
#[derive(PartialEq, Eq, Debug, Drop)]
pub struct CheckpointRow {
    /// The job instance.
    pub instance: InstanceId,
    /// The step, or the partition of it.
    pub step: WorkKey,
    /// The position from which its reader goes on.
    pub mark: Text<65536>,
}

impl JobInstance {
    /// Returns an equal job instance.
    ///
    /// # Errors
    ///
    /// Returns `OutOfMemory` if memory is refused.
    pub fn try_clone(&self) -> Result<JobInstance, OutOfMemory>
        ensures { IfOk result (λ copy. copy ≡ self.now) }
    {
        Ok(JobInstance {
            instance: self.instance,
            job: self.job.try_clone()?,
        })
    }
}

impl ExecutionRow {
    /// Returns the batch status, which is ABANDONED after an abandonment.
    pub fn status(&self) -> BatchStatus
        ensures { result ≡ row_status self.now }
    {
        if self.abandoned {
            BatchStatus::Abandoned
        } else {
            self.bare
        }
    }

    /// Returns the record that is shown of the job execution.
    ///
    /// # Errors
    ///
    /// Returns `OutOfMemory` if memory is refused.
    pub fn record(&self) -> Result<JobExecution, OutOfMemory>
        ensures { IfOk result (λ shown. shown ≡ record_of self.now) }
    {
        let job = self.job.try_clone()?;
        let exit = try_clone_option(&self.exit)?;
        Ok(JobExecution {
            execution: self.execution,
            instance: self.instance,
            job,
            status: self.status(),
            create: self.create,
            start: self.start,
            end: self.end,
            exit,
            updated: self.updated,
        })
    }
}

impl WorkRow {
    /// Returns the step execution of this work item, whose step is not partitioned.
    ///
    /// # Errors
    ///
    /// Returns `OutOfMemory` if memory is refused.
    pub fn step_execution(&self) -> Result<StepExecution, OutOfMemory>
        ensures { IfOk result (λ shown. shown ≡ shown_step self.now) }
    {
        let step = self.element.try_clone()?;
        let exit = match &self.state {
            WorkState::Busy => None,
            WorkState::Over(_, exit) => Some(exit.try_clone()?),
        };
        Ok(StepExecution {
            work: self.work,
            execution: self.execution,
            step,
            status: self.state.status(),
            start: self.start,
            end: self.end,
            exit,
            metrics: self.metrics,
        })
    }
}

impl WorkRow {
    /// Returns the work key: the work item's name inside its job execution.
    ///
    /// # Errors
    ///
    /// Returns `OutOfMemory` if memory is refused.
    pub fn key(&self) -> Result<WorkKey, OutOfMemory>
        ensures { IfOk result (λ key. key ≡ work_key self.now) }
    {
        Ok(WorkKey {
            element: self.element.try_clone()?,
            partition: self.partition.unwrap_or(0),
        })
    }
}

impl WorkState {
    /// Returns the batch status of a step execution whose work item has this state: STARTED until
    /// it is over.
    pub fn status(&self) -> BatchStatus
        ensures { result ≡ state_status self.now }
    {
        match self {
            WorkState::Busy => BatchStatus::Started,
            WorkState::Over(outcome, _) => outcome.status(),
        }
    }
}
