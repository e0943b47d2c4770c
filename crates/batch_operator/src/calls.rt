ghost use Rattle.batch_operator.specs.Calls.{IsReplied};

use crate::operator::Operator;
use batch_ids::{
    ExecutionId, InstanceId, MetricStep, Moment, Parameters, Refusal, T256, Text, WorkId,
    WorkOutcome,
};
use op_log::{Call, JobRepository, Reply};
use seat_rules::Site;
use sessions::Session;
use std::sync::Wait;

impl<N: Site, J: JobRepository> Operator<N, J> {
    /// Starts a job: creates a job instance and its first job execution. The reply is
    /// `Reply::Execution`. See Jakarta Batch 2.1, "JobOperator", start.
    ///
    /// Costs time proportional to the number of the catalogue's jobs and of the job's elements.
    ///
    /// # Errors
    ///
    /// Returns the first of these that applies:
    ///
    /// - `JobStartException` if the catalogue has no such job
    /// - `RepositoryFull`
    ///
    /// Returns `OutOfMemory` instead of any reply if memory is refused. A refused call changes
    /// nothing.
    pub fn start(
        &self,
        rt: &impl Wait,
        session: &mut Session<N>,
        job: T256,
        parameters: Parameters,
        at: Moment,
    ) -> Result<Reply, Refusal>
        ensures { IsReplied N.place.catalogue session.old session.new (Call.Start job parameters) at result }
    {
        self.act(rt, session, Call::Start { job, parameters }, at)
    }

    /// Restarts a job execution: creates another job execution of its job instance. The reply is
    /// `Reply::Execution`. See Jakarta Batch 2.1, "JobOperator", restart.
    ///
    /// Costs time proportional to the number of the job's steps and, for each partition of a step,
    /// to the number of job executions with work of it. The first restart of a job instance also
    /// costs time proportional to the number of its work items.
    ///
    /// # Errors
    ///
    /// Returns the first of these that applies:
    ///
    /// - `NoSuchJobExecutionException`
    /// - `JobExecutionNotMostRecentException` if it isn't the most recent one of its job instance
    /// - `JobExecutionAlreadyCompleteException` if it is COMPLETED
    /// - `JobRestartException` if it is unfinished or ABANDONED, or if its job isn't restartable
    /// - `RepositoryFull`
    ///
    /// Returns `OutOfMemory` instead of any reply if memory is refused. A refused call changes
    /// nothing.
    pub fn restart(
        &self,
        rt: &impl Wait,
        session: &mut Session<N>,
        execution: ExecutionId,
        parameters: Parameters,
        at: Moment,
    ) -> Result<Reply, Refusal>
        ensures { IsReplied N.place.catalogue session.old session.new (Call.Restart execution parameters) at result }
    {
        self.act(
            rt,
            session,
            Call::Restart {
                execution,
                parameters,
            },
            at,
        )
    }

    /// Asks a job execution to stop, and signals that to all sessions. The reply is `Reply::Done`.
    /// See Jakarta Batch 2.1, "JobOperator", stop.
    ///
    /// Costs the time to find the row of the job execution.
    ///
    /// # Errors
    ///
    /// Returns the first of these that applies:
    ///
    /// - `NoSuchJobExecutionException`
    /// - `JobExecutionNotRunningException` if the job execution is finished
    /// - `RepositoryFull`
    ///
    /// Returns `OutOfMemory` instead of any reply if memory is refused. A refused call changes
    /// nothing.
    pub fn stop(
        &self,
        rt: &impl Wait,
        session: &mut Session<N>,
        execution: ExecutionId,
        at: Moment,
    ) -> Result<Reply, Refusal>
        ensures { IsReplied N.place.catalogue session.old session.new (Call.Stop execution) at result }
    {
        self.act_on_stop(rt, session, execution, at)
    }

    /// Abandons a finished job execution, so that it is ABANDONED. The reply is `Reply::Done`. See
    /// Jakarta Batch 2.1, "JobOperator", abandon.
    ///
    /// Costs the time to find the row of the job execution.
    ///
    /// # Errors
    ///
    /// Returns the first of these that applies:
    ///
    /// - `NoSuchJobExecutionException`
    /// - `JobExecutionIsRunningException` if a job execution of its job instance is unfinished
    /// - `RepositoryFull`
    ///
    /// Returns `OutOfMemory` instead of any reply if memory is refused. A refused call changes
    /// nothing.
    pub fn abandon(
        &self,
        rt: &impl Wait,
        session: &mut Session<N>,
        execution: ExecutionId,
        at: Moment,
    ) -> Result<Reply, Refusal>
        ensures { IsReplied N.place.catalogue session.old session.new (Call.Abandon execution) at result }
    {
        self.act(rt, session, Call::Abandon { execution }, at)
    }

    /// Claims work for a worker: the first ready step or decision of the lowest-numbered job
    /// execution that has something to do.
    ///
    /// The reply is `Reply::Work`, or `Reply::Closed` if the call took up a job execution that had
    /// nothing to run. It is `Reply::Nothing` if there is no work, and then the call isn't an
    /// operation.
    ///
    /// Costs the time of `finish`, plus time proportional to the number of the catalogue's jobs. If
    /// it takes up a job execution, the job's elements and partitions add to that.
    ///
    /// # Errors
    ///
    /// Returns `RepositoryFull`, or `OutOfMemory` instead of any reply if memory is refused. A
    /// refused call changes nothing.
    pub fn claim(
        &self,
        rt: &impl Wait,
        session: &mut Session<N>,
        at: Moment,
    ) -> Result<Reply, Refusal>
        ensures { IsReplied N.place.catalogue session.old session.new Call.Claim at result }
    {
        self.act(rt, session, Call::Claim, at)
    }

    /// Reports the progress of a work item's chunk. The reply is `Reply::Go`, or `Reply::StopAsked`
    /// if its job execution was asked to stop. See Jakarta Batch 2.1, "Checkpoint".
    ///
    /// Costs time proportional to the number of checkpoints of the job instance.
    ///
    /// # Errors
    ///
    /// Returns the first of these that applies:
    ///
    /// - `NoSuchWork`
    /// - `WorkNotRunning`
    /// - `NotClaimer` if another session claimed the work item
    /// - `WrongOutcome` if it isn't a chunk
    /// - `RepositoryFull`
    ///
    /// Returns `OutOfMemory` instead of any reply if memory is refused. A refused call changes
    /// nothing.
    pub fn checkpoint(
        &self,
        rt: &impl Wait,
        session: &mut Session<N>,
        work: WorkId,
        mark: Text<65536>,
        step: MetricStep,
        at: Moment,
    ) -> Result<Reply, Refusal>
        ensures { IsReplied N.place.catalogue session.old session.new (Call.Checkpoint work mark step) at result }
    {
        self.act(rt, session, Call::Checkpoint { work, mark, step }, at)
    }

    /// Ends a work item with this outcome and exit status. Without an exit status, the outcome's
    /// name is used. The reply is `Reply::Done`.
    ///
    /// Costs time proportional to the number of these together:
    ///
    /// - lists of elements from the work item's own up to the job's
    /// - flows of the splits among them
    /// - elements that the walk newly passes
    ///
    /// If a step becomes COMPLETED, the job instance's checkpoints add to that. If the job
    /// execution ends, the binary digits of the number of its job's unfinished job executions do.
    ///
    /// # Errors
    ///
    /// Returns the first of these that applies:
    ///
    /// - `NoSuchWork`
    /// - `WorkNotRunning`
    /// - `NotClaimer` if another session claimed the work item
    /// - `WrongOutcome` if a decision is to be STOPPED
    /// - `NotStopping` if a step is to be STOPPED and no stop of its job execution was accepted
    /// - `RepositoryFull`
    ///
    /// Returns `OutOfMemory` instead of any reply if memory is refused. A refused call changes
    /// nothing.
    pub fn finish(
        &self,
        rt: &impl Wait,
        session: &mut Session<N>,
        work: WorkId,
        outcome: WorkOutcome,
        exit: Option<T256>,
        step: MetricStep,
        at: Moment,
    ) -> Result<Reply, Refusal>
        ensures { IsReplied N.place.catalogue session.old session.new (Call.Finish work outcome exit step) at result }
    {
        self.act(
            rt,
            session,
            Call::Finish {
                work,
                outcome,
                exit,
                step,
            },
            at,
        )
    }

    /// Ends a running work item whose worker is gone: it is FAILED. Any session may call this. The
    /// reply is `Reply::Done`.
    ///
    /// Costs the time of `finish`.
    ///
    /// # Errors
    ///
    /// Returns the first of these that applies:
    ///
    /// - `NoSuchWork`
    /// - `WorkNotRunning`
    /// - `RepositoryFull`
    ///
    /// Returns `OutOfMemory` instead of any reply if memory is refused. A refused call changes
    /// nothing.
    pub fn lose(
        &self,
        rt: &impl Wait,
        session: &mut Session<N>,
        work: WorkId,
        at: Moment,
    ) -> Result<Reply, Refusal>
        ensures { IsReplied N.place.catalogue session.old session.new (Call.Lose work) at result }
    {
        self.act(rt, session, Call::Lose { work }, at)
    }

    /// Removes a job instance whose job executions are all finished, with its job executions, their
    /// work items and its checkpoints. From then on, no call and no query finds them. Their numbers
    /// aren't used again, and the operations on them stay in the log. Any session may call this.
    /// The reply is `Reply::Done`.
    ///
    /// The call is this service's own. Jakarta Batch 2.1 leaves it to a job repository when to
    /// forget a job instance ("JobRepository"), and its `JobOperator` has no such method.
    ///
    /// Costs time proportional to the number of the job instance's job executions, work items and
    /// checkpoints, and of its job's job instances.
    ///
    /// # Errors
    ///
    /// Returns the first of these that applies:
    ///
    /// - `NoSuchJobInstanceException` if there is no such job instance, or no longer
    /// - `JobExecutionIsRunningException` if a job execution of it is unfinished
    /// - `RepositoryFull`
    ///
    /// Returns `OutOfMemory` instead of any reply if memory is refused. A refused call changes
    /// nothing.
    pub fn purge(
        &self,
        rt: &impl Wait,
        session: &mut Session<N>,
        instance: InstanceId,
        at: Moment,
    ) -> Result<Reply, Refusal>
        ensures { IsReplied N.place.catalogue session.old session.new (Call.Purge instance) at result }
    {
        self.act(rt, session, Call::Purge { instance }, at)
    }
}
