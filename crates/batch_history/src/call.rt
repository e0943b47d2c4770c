ghost use Rattle.std.specs.Prelude.{◌≡◌, IfOk};
ghost use Rattle.batch_history.specs.Replies.{is_nothing};
ghost use Rattle.batch_history.specs.Works.{item_key, work_kind};

use batch_ids::{
    ExecutionId, InstanceId, MetricStep, Moment, OutOfMemory, Parameters, T256, Text, WorkId,
    WorkOutcome, try_clone_option,
};
use walk_rules::WorkKey;

/// An operation on the job repository (Jakarta Batch 2.1, "JobOperator"). Claim, checkpoint, finish
/// and lose are this service's own, for its workers. So is purge.
#[derive(PartialEq, Eq, Debug, Drop)]
pub enum Call {
    /// Makes a job instance of this job, and its first job execution.
    Start {
        /// The job's id.
        job: T256,
        /// The parameters of the job execution.
        parameters: Parameters,
    },
    /// Makes a further job execution of a job instance.
    Restart {
        /// A job execution of that job instance.
        execution: ExecutionId,
        /// The parameters of the further job execution.
        parameters: Parameters,
    },
    /// Asks a job execution to stop.
    Stop {
        /// The job execution.
        execution: ExecutionId,
    },
    /// Abandons a finished job execution: it becomes ABANDONED.
    Abandon {
        /// The job execution.
        execution: ExecutionId,
    },
    /// Asks for a work item.
    Claim,
    /// Reports the progress of a work item's chunk.
    Checkpoint {
        /// The work item.
        work: WorkId,
        /// The position from which its reader goes on after a restart.
        mark: Text<65536>,
        /// The metric step that is added to its metrics.
        step: MetricStep,
    },
    /// Ends a work item.
    Finish {
        /// The work item.
        work: WorkId,
        /// Its outcome.
        outcome: WorkOutcome,
        /// The exit status of the step or decision. Without one it is the outcome's name.
        exit: Option<T256>,
        /// The metric step that is added to its metrics.
        step: MetricStep,
    },
    /// Gives up a busy work item whose worker is gone: it is FAILED, with the exit status `FAILED`.
    /// Any session may do so.
    Lose {
        /// The work item.
        work: WorkId,
    },
    /// Removes a job instance with its job executions, their work items and its checkpoints. None
    /// of the job executions may be unfinished. Their numbers are not given again.
    Purge {
        /// The job instance.
        instance: InstanceId,
    },
}

/// The task that a worker runs for a work item.
#[derive(PartialEq, Eq, Debug, Drop)]
pub enum WorkTask {
    /// The batchlet of a step.
    Batchlet {
        /// The artifact's name.
        artifact: T256,
    },
    /// The chunk of a step.
    Chunk {
        /// The name of the artifact that reads items.
        reader: T256,
        /// The name of the artifact that processes an item, if there is one.
        processor: Option<T256>,
        /// The name of the artifact that writes a group of items.
        writer: T256,
        /// The number of items of a group, from 1.
        item_count: u32,
        /// The checkpoint at which the reader begins, if there is one.
        checkpoint: Option<Text<65536>>,
    },
    /// A decision.
    Decision {
        /// The artifact's name.
        artifact: T256,
    },
}

/// The kind of a work item.
#[derive(Clone, Copy, PartialEq, Eq, Debug)]
pub enum WorkKind {
    /// The batchlet of a step.
    Batchlet,
    /// The chunk of a step.
    Chunk,
    /// A decision.
    Decision,
}

/// One run of a step, of a partition of a step, or of a decision.
#[derive(PartialEq, Eq, Debug, Drop)]
pub struct WorkItem {
    /// Its number. It is the step execution's id if the work item is of a step. The id of a
    /// partitioned step's step execution is the number of its first work item in the job execution.
    pub work: WorkId,
    /// The job execution that it belongs to.
    pub execution: ExecutionId,
    /// The id of the step or decision.
    pub element: T256,
    /// The number of its partition, from 0, if the step is partitioned (Jakarta Batch 2.1, "Step
    /// Partitioning").
    pub partition: Option<u32>,
    /// The task to run.
    pub task: WorkTask,
}

/// The reply to an operation.
#[derive(PartialEq, Eq, Debug, Drop)]
pub enum Reply {
    /// The new job execution.
    Execution(ExecutionId),
    /// A work item to run.
    Work(WorkItem),
    /// A job execution that was taken up and has nothing to run.
    Closed(ExecutionId),
    /// There is nothing to run. Only this reply makes no entry.
    Nothing,
    /// The operation is done.
    Done,
    /// The checkpoint is saved, and the chunk goes on.
    Go,
    /// The checkpoint is saved, and the job execution was asked to stop.
    StopAsked,
}

/// An accepted operation.
#[derive(PartialEq, Eq, Debug, Drop)]
pub struct Entry {
    /// The number of the session that made the call.
    pub who: u64,
    /// The call.
    pub call: Call,
    /// The moment that the caller gave with it.
    pub at: Moment,
    /// The reply to it.
    pub reply: Reply,
}

impl Call {
    /// Returns an equal call.
    ///
    /// # Errors
    ///
    /// Returns `OutOfMemory` if memory is refused.
    pub fn try_clone(&self) -> Result<Call, OutOfMemory>
        ensures { IfOk result (λ copy. copy ≡ self.now) }
    {
        match self {
            Call::Start { job, parameters } => start_copy(job, parameters),
            Call::Restart {
                execution,
                parameters,
            } => {
                let parameters = parameters.try_clone()?;
                Ok(Call::Restart {
                    execution: *execution,
                    parameters,
                })
            }
            Call::Stop { execution } => Ok(Call::Stop {
                execution: *execution,
            }),
            Call::Abandon { execution } => Ok(Call::Abandon {
                execution: *execution,
            }),
            Call::Claim => Ok(Call::Claim),
            Call::Checkpoint { work, mark, step } => checkpoint_copy(*work, mark, *step),
            Call::Finish {
                work,
                outcome,
                exit,
                step,
            } => finish_copy(*work, *outcome, exit, *step),
            Call::Lose { work } => Ok(Call::Lose { work: *work }),
            Call::Purge { instance } => Ok(Call::Purge {
                instance: *instance,
            }),
        }
    }
}

fn start_copy(job: &T256, parameters: &Parameters) -> Result<Call, OutOfMemory>
    ensures { IfOk result (λ copy. copy ≡ Call.Start job.now parameters.now) }
{
    Ok(Call::Start {
        job: job.try_clone()?,
        parameters: parameters.try_clone()?,
    })
}

fn checkpoint_copy(work: WorkId, mark: &Text<65536>, step: MetricStep) -> Result<Call, OutOfMemory>
    ensures { IfOk result (λ copy. copy ≡ Call.Checkpoint work mark.now step) }
{
    let mark = mark.try_clone()?;
    Ok(Call::Checkpoint { work, mark, step })
}

fn finish_copy(
    work: WorkId,
    outcome: WorkOutcome,
    exit: &Option<T256>,
    step: MetricStep,
) -> Result<Call, OutOfMemory>
    ensures { IfOk result (λ copy. copy ≡ Call.Finish work outcome exit.now step) }
{
    let exit = try_clone_option(exit)?;
    Ok(Call::Finish {
        work,
        outcome,
        exit,
        step,
    })
}

impl WorkTask {
    /// Returns the kind of the task.
    pub fn kind(&self) -> WorkKind
        ensures { result ≡ work_kind self.now }
    {
        match self {
            WorkTask::Batchlet { .. } => WorkKind::Batchlet,
            WorkTask::Chunk { .. } => WorkKind::Chunk,
            WorkTask::Decision { .. } => WorkKind::Decision,
        }
    }

    /// Returns an equal task.
    ///
    /// # Errors
    ///
    /// Returns `OutOfMemory` if memory is refused.
    pub fn try_clone(&self) -> Result<WorkTask, OutOfMemory>
        ensures { IfOk result (λ copy. copy ≡ self.now) }
    {
        match self {
            WorkTask::Batchlet { artifact } => {
                Ok(WorkTask::Batchlet {
                    artifact: artifact.try_clone()?,
                })
            }
            WorkTask::Chunk {
                reader,
                processor,
                writer,
                item_count,
                checkpoint,
            } => {
                Ok(WorkTask::Chunk {
                    reader: reader.try_clone()?,
                    processor: try_clone_option(processor)?,
                    writer: writer.try_clone()?,
                    item_count: *item_count,
                    checkpoint: try_clone_option(checkpoint)?,
                })
            }
            WorkTask::Decision { artifact } => {
                Ok(WorkTask::Decision {
                    artifact: artifact.try_clone()?,
                })
            }
        }
    }
}

impl WorkItem {
    /// Returns the work key: the work item's name inside its job execution.
    ///
    /// # Errors
    ///
    /// Returns `OutOfMemory` if memory is refused.
    pub fn key(&self) -> Result<WorkKey, OutOfMemory>
        ensures { IfOk result (λ key. key ≡ item_key self.now) }
    {
        Ok(WorkKey {
            element: self.element.try_clone()?,
            partition: self.partition.unwrap_or(0),
        })
    }

    /// Returns an equal work item.
    ///
    /// # Errors
    ///
    /// Returns `OutOfMemory` if memory is refused.
    pub fn try_clone(&self) -> Result<WorkItem, OutOfMemory>
        ensures { IfOk result (λ copy. copy ≡ self.now) }
    {
        let element = self.element.try_clone()?;
        let task = self.task.try_clone()?;
        Ok(WorkItem {
            work: self.work,
            execution: self.execution,
            element,
            partition: self.partition,
            task,
        })
    }
}

impl Reply {
    /// Returns an equal reply.
    ///
    /// # Errors
    ///
    /// Returns `OutOfMemory` if memory is refused.
    pub fn try_clone(&self) -> Result<Reply, OutOfMemory>
        ensures { IfOk result (λ copy. copy ≡ self.now) }
    {
        match self {
            Reply::Execution(execution) => Ok(Reply::Execution(*execution)),
            Reply::Work(item) => Ok(Reply::Work(item.try_clone()?)),
            Reply::Closed(execution) => Ok(Reply::Closed(*execution)),
            Reply::Nothing => Ok(Reply::Nothing),
            Reply::Done => Ok(Reply::Done),
            Reply::Go => Ok(Reply::Go),
            Reply::StopAsked => Ok(Reply::StopAsked),
        }
    }

    /// Checks whether the reply is `Nothing`, the only one that makes no entry.
    pub fn is_nothing(&self) -> bool
        ensures { result ≡ is_nothing self.now }
    {
        matches!(self, Reply::Nothing)
    }
}
