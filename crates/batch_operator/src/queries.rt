ghost use Rattle.batch_operator.specs.Calls.{IsAnswered};

use crate::operator::Operator;
use batch_ids::{ExecutionId, InstanceId, Refusal, T256};
use op_log::{Answer, JobRepository, Query};
use seat_rules::Site;
use sessions::Session;
use std::sync::Wait;

/// A query is answered from a read copy, if that has absorbed at least the operations that the
/// session has seen or was shown. Otherwise, the whole history answers it. The session has then
/// seen the operations that the answer takes into account.
impl<N: Site, J: JobRepository> Operator<N, J> {
    /// Returns the names of the jobs that have a job instance, in the order of each job's
    /// lowest-numbered one. See Jakarta Batch 2.1, "JobOperator", getJobNames.
    ///
    /// Costs time proportional to the number of job instances at worst.
    ///
    /// # Errors
    ///
    /// Returns only `OutOfMemory`, if memory is refused.
    pub fn get_job_names(&self, rt: &impl Wait, session: &mut Session<N>) -> Result<Answer, Refusal>
        ensures { IsAnswered N.place.catalogue session.old session.new Query.JobNames result }
    {
        self.ask(rt, session, &Query::JobNames)
    }

    /// Returns the number of job instances of a job. See Jakarta Batch 2.1, "JobOperator",
    /// getJobInstanceCount.
    ///
    /// Costs the time to find the name.
    ///
    /// # Errors
    ///
    /// Returns `NoSuchJobException` if the job has no job instance, or `OutOfMemory` instead of any
    /// answer if memory is refused.
    pub fn get_job_instance_count(
        &self,
        rt: &impl Wait,
        session: &mut Session<N>,
        job: T256,
    ) -> Result<Answer, Refusal>
        ensures { IsAnswered N.place.catalogue session.old session.new (Query.JobInstanceCount job) result }
    {
        self.ask(rt, session, &Query::JobInstanceCount { job })
    }

    /// Returns the job instances of a job, the newest first: at most `count` of them, without the
    /// `start` newest. See Jakarta Batch 2.1, "JobOperator", getJobInstances.
    ///
    /// Costs time proportional to the number of job instances in the answer.
    ///
    /// # Errors
    ///
    /// Returns `NoSuchJobException` if the job has no job instance, or `OutOfMemory` instead of any
    /// answer if memory is refused.
    pub fn get_job_instances(
        &self,
        rt: &impl Wait,
        session: &mut Session<N>,
        job: T256,
        start: u64,
        count: u64,
    ) -> Result<Answer, Refusal>
        ensures { IsAnswered N.place.catalogue session.old session.new (Query.JobInstances job start count) result }
    {
        self.ask(rt, session, &Query::JobInstances { job, start, count })
    }

    /// Returns the numbers of the unfinished job executions of a job, in ascending order. See
    /// Jakarta Batch 2.1, "JobOperator", getRunningExecutions.
    ///
    /// Costs time proportional to the number of job executions in the answer.
    ///
    /// # Errors
    ///
    /// Returns `NoSuchJobException` if the job has no job instance, or `OutOfMemory` instead of any
    /// answer if memory is refused.
    pub fn get_running_executions(
        &self,
        rt: &impl Wait,
        session: &mut Session<N>,
        job: T256,
    ) -> Result<Answer, Refusal>
        ensures { IsAnswered N.place.catalogue session.old session.new (Query.RunningExecutions job) result }
    {
        self.ask(rt, session, &Query::RunningExecutions { job })
    }

    /// Returns the parameters that were given to the start or restart of a job execution. See
    /// Jakarta Batch 2.1, "JobOperator", getParameters.
    ///
    /// Costs the time to find the row. The answer shares the parameters.
    ///
    /// # Errors
    ///
    /// Returns `NoSuchJobExecutionException`, or `OutOfMemory` instead of any answer if memory is
    /// refused.
    pub fn get_parameters(
        &self,
        rt: &impl Wait,
        session: &mut Session<N>,
        execution: ExecutionId,
    ) -> Result<Answer, Refusal>
        ensures { IsAnswered N.place.catalogue session.old session.new (Query.Parameters execution) result }
    {
        self.ask(rt, session, &Query::Parameters { execution })
    }

    /// Returns the job instance of a job execution. See Jakarta Batch 2.1, "JobOperator",
    /// getJobInstance.
    ///
    /// Costs the time to find two rows.
    ///
    /// # Errors
    ///
    /// Returns `NoSuchJobExecutionException`, or `OutOfMemory` instead of any answer if memory is
    /// refused.
    pub fn get_job_instance(
        &self,
        rt: &impl Wait,
        session: &mut Session<N>,
        execution: ExecutionId,
    ) -> Result<Answer, Refusal>
        ensures { IsAnswered N.place.catalogue session.old session.new (Query.JobInstance execution) result }
    {
        self.ask(rt, session, &Query::JobInstance { execution })
    }

    /// Returns the records of the job executions of a job instance, the newest first. See Jakarta
    /// Batch 2.1, "JobOperator", getJobExecutions.
    ///
    /// Costs time proportional to the number of job executions in the answer.
    ///
    /// # Errors
    ///
    /// Returns `NoSuchJobInstanceException`, or `OutOfMemory` instead of any answer if memory is
    /// refused.
    pub fn get_job_executions(
        &self,
        rt: &impl Wait,
        session: &mut Session<N>,
        instance: InstanceId,
    ) -> Result<Answer, Refusal>
        ensures { IsAnswered N.place.catalogue session.old session.new (Query.JobExecutions instance) result }
    {
        self.ask(rt, session, &Query::JobExecutions { instance })
    }

    /// Returns the record of a job execution. See Jakarta Batch 2.1, "JobOperator",
    /// getJobExecution.
    ///
    /// Costs the time to find the row.
    ///
    /// # Errors
    ///
    /// Returns `NoSuchJobExecutionException`, or `OutOfMemory` instead of any answer if memory is
    /// refused.
    pub fn get_job_execution(
        &self,
        rt: &impl Wait,
        session: &mut Session<N>,
        execution: ExecutionId,
    ) -> Result<Answer, Refusal>
        ensures { IsAnswered N.place.catalogue session.old session.new (Query.JobExecution execution) result }
    {
        self.ask(rt, session, &Query::JobExecution { execution })
    }

    /// Returns the records of the step executions of a job execution, in ascending order of their
    /// numbers. See Jakarta Batch 2.1, "JobOperator", getStepExecutions.
    ///
    /// Costs time proportional to the number of the job execution's work items. Each work item of a
    /// partitioned step costs that much again.
    ///
    /// # Errors
    ///
    /// Returns `NoSuchJobExecutionException`, or `OutOfMemory` instead of any answer if memory is
    /// refused.
    pub fn get_step_executions(
        &self,
        rt: &impl Wait,
        session: &mut Session<N>,
        execution: ExecutionId,
    ) -> Result<Answer, Refusal>
        ensures { IsAnswered N.place.catalogue session.old session.new (Query.StepExecutions execution) result }
    {
        self.ask(rt, session, &Query::StepExecutions { execution })
    }

    /// Returns the number of job executions with each batch status.
    ///
    /// Costs constant time.
    ///
    /// # Errors
    ///
    /// Returns only `OutOfMemory`, if memory is refused.
    pub fn status_counts(&self, rt: &impl Wait, session: &mut Session<N>) -> Result<Answer, Refusal>
        ensures { IsAnswered N.place.catalogue session.old session.new Query.StatusCounts result }
    {
        let j = self.copy_for(session);
        match self.counts.read(rt, j, session, &(), &self.table) {
            Some(Ok(counts)) => Ok(Answer::StatusCounts(counts)),
            Some(Err(refusal)) => Err(refusal),
            None => self.ask_book(rt, session, &Query::StatusCounts),
        }
    }
}
