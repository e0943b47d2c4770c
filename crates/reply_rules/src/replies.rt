//! The replies to calls, from the state of a repository.
ghost use Rattle.std.specs.Prelude.{◌≡◌, ◌≤◌, [], find, IfOk};
ghost use Rattle.std.specs.Option.{option_copied};
ghost use Rattle.batch_history.specs.Due.{IsDue};
ghost use Rattle.batch_history.specs.Legal.{most_numbered};
ghost use Rattle.batch_history.specs.Replies.{is_execution, reply_by, accepted, claim_reply, reply_to_stop, reply_to_abandon, reply_to_checkpoint, reply_to_finish, reply_to_loss, reply_to_purge, stop_requested_of, report_refusal, reply_to_kept_checkpoint, reply_to_stopped_step, reply_to_stopped_work, reply_to_end, next_work_item, partition_named, partitions_of_job, work_task, runnable_of_job};
ghost use Rattle.batch_history.specs.Walks.{job_named};
ghost use Rattle.batch_history.specs.Works.{is_work};
ghost use Rattle.restart_rules.specs.Placed.{IsPlaced};
ghost use Rattle.reply_rules.specs.Standings.{rows_at};

use crate::standing::Standing;
use crate::{search, status};
use batch_history::{Call, ExecutionRow, Reply, WorkItem, WorkKind, WorkState, WorkTask};
use batch_ids::{ExecutionId, InstanceId, OutOfMemory, Refusal, T256, Text, WorkId, WorkOutcome};
use job_plans::Runnable;
use jsl_model::Task;
use restart_rules::restart_refusal;
use std::alloc::Global;
use walk_rules::WorkKey;

/// Returns the reply to a call that is accepted after `count` operations.
///
/// # Errors
///
/// `RepositoryFull` if `LIMIT` operations were accepted.
pub fn accept<const LIMIT: u64>(count: u64, reply: Reply) -> Result<Reply, Refusal>
    ensures { result ≡ accepted LIMIT count reply }
{
    if count < LIMIT {
        Ok(reply)
    } else {
        Err(Refusal::RepositoryFull)
    }
}

/// Returns the task that a worker is to run. A chunk starts from this checkpoint.
fn task_of(
    alloc: Global,
    mark: Option<&Text<65536>>,
    found: Option<Runnable>,
) -> Result<WorkTask, OutOfMemory>
    ensures { IfOk result (λ task. task ≡ work_task (option_copied mark.entry) found) }
{
    match found {
        None => Ok(WorkTask::Decision {
            artifact: T256::empty(),
        }),
        Some(Runnable::Decision(artifact)) => Ok(WorkTask::Decision { artifact }),
        Some(Runnable::Step(task)) => match task {
            Task::Batchlet { artifact } => Ok(WorkTask::Batchlet { artifact }),
            Task::Chunk {
                reader,
                processor,
                writer,
                item_count,
            } => {
                let checkpoint = match mark {
                    None => None,
                    Some(mark) => Some(mark.try_clone()?),
                };
                Ok(WorkTask::Chunk {
                    reader,
                    processor,
                    writer,
                    item_count,
                    checkpoint,
                })
            }
        },
    }
}

/// Returns the partition that a work item names, if its step is partitioned.
fn partition_named(partition: u32, partitions: Option<u32>) -> Option<u32>
    ensures { result ≡ partition_named partition partitions }
{
    match partitions {
        None => None,
        Some(_) => Some(partition),
    }
}

/// Returns the refusal if a session may not report on a work item.
fn report_refusal(who: u64, claimer: u64, state: &WorkState) -> Option<Refusal>
    ensures { result ≡ report_refusal who claimer state.now }
{
    match state {
        WorkState::Over(_, _) => Some(Refusal::WorkNotRunning),
        WorkState::Busy => if claimer == who {
            None
        } else {
            Some(Refusal::NotClaimer)
        },
    }
}

/// Returns the reply to a checkpoint of a work item of this kind.
fn checkpoint_reply<const LIMIT: u64>(
    count: u64,
    stop: bool,
    kind: WorkKind,
) -> Result<Reply, Refusal>
    ensures { result ≡ reply_to_kept_checkpoint LIMIT count stop kind }
{
    match kind {
        WorkKind::Chunk => if stop {
            accept::<LIMIT>(count, Reply::StopAsked)
        } else {
            accept::<LIMIT>(count, Reply::Go)
        },
        WorkKind::Batchlet => Err(Refusal::WrongOutcome),
        WorkKind::Decision => Err(Refusal::WrongOutcome),
    }
}

fn stopped_step_reply<const LIMIT: u64>(count: u64, stop: bool) -> Result<Reply, Refusal>
    ensures { result ≡ reply_to_stopped_step LIMIT count stop }
{
    if stop {
        accept::<LIMIT>(count, Reply::Done)
    } else {
        Err(Refusal::NotStopping)
    }
}

fn stopped_work_reply<const LIMIT: u64>(
    count: u64,
    stop: bool,
    kind: WorkKind,
) -> Result<Reply, Refusal>
    ensures { result ≡ reply_to_stopped_work LIMIT count stop kind }
{
    match kind {
        WorkKind::Decision => Err(Refusal::WrongOutcome),
        WorkKind::Batchlet => stopped_step_reply::<LIMIT>(count, stop),
        WorkKind::Chunk => stopped_step_reply::<LIMIT>(count, stop),
    }
}

/// Returns the reply to the end of a work item of this kind.
fn finish_reply<const LIMIT: u64>(
    count: u64,
    stop: bool,
    kind: WorkKind,
    outcome: WorkOutcome,
) -> Result<Reply, Refusal>
    ensures { result ≡ reply_to_end LIMIT count stop kind outcome }
{
    match outcome {
        WorkOutcome::Stopped => stopped_work_reply::<LIMIT>(count, stop, kind),
        WorkOutcome::Completed => accept::<LIMIT>(count, Reply::Done),
        WorkOutcome::Failed => accept::<LIMIT>(count, Reply::Done),
    }
}

impl<const LIMIT: u64> Standing<'_, LIMIT> {
    /// Returns the reply to a start of this job: the number of the next job execution (Jakarta
    /// Batch 2.1, "JobOperator", start).
    ///
    /// # Errors
    ///
    /// The first of these that applies:
    /// - `JobStartException`: the catalogue has no such job;
    /// - `RepositoryFull`: `LIMIT` operations were accepted.
    pub fn reply_to_start(&self, job: &T256) -> Result<Reply, Refusal>
        requires { self.now.last.execution ≤ most_numbered }
        ensures { result ≡ reply_by LIMIT (rows_at self.now) 0 (Call.Start job.now []) }
    {
        if self.catalogue.job(job.as_str()).is_none() {
            return Err(Refusal::JobStartException);
        }
        let x = ExecutionId::new(self.last.execution + 1);
        accept::<LIMIT>(self.count, Reply::Execution(x))
    }

    /// Returns the reply to a restart of this job execution: the number of the next one (Jakarta
    /// Batch 2.1, "JobOperator", restart).
    ///
    /// # Errors
    ///
    /// That of `restart_refusal`, then `RepositoryFull` if `LIMIT` operations were accepted.
    pub fn reply_to_restart(&self, x: ExecutionId) -> Result<Reply, Refusal>
        requires placed { IsPlaced self.now.catalogue.now self.now.records.now.executions x }
        requires room { self.now.last.execution ≤ most_numbered }
        ensures { result ≡ reply_by LIMIT (rows_at self.now) 0 (Call.Restart x []) }
    {
        if let Some(refusal) = restart_refusal(self.records, self.catalogue, x) {
            return Err(refusal);
        }
        let next = ExecutionId::new(self.last.execution + 1);
        accept::<LIMIT>(self.count, Reply::Execution(next))
    }

    /// Returns the reply to a stop of this job execution (Jakarta Batch 2.1, "JobOperator", stop).
    ///
    /// # Errors
    ///
    /// The first of these that applies:
    /// - `NoSuchJobExecutionException`: there is no such job execution;
    /// - `JobExecutionNotRunningException`: it is finished;
    /// - `RepositoryFull`: `LIMIT` operations were accepted.
    pub fn reply_to_stop(&self, x: ExecutionId) -> Result<Reply, Refusal>
        ensures { result ≡ reply_to_stop LIMIT self.now.count (find
            (is_execution x) self.now.records.now.executions) }
    {
        match self.records.execution(x) {
            None => Err(Refusal::NoSuchJobExecutionException),
            Some(row) => if status::is_finished(row.status()) {
                Err(Refusal::JobExecutionNotRunningException)
            } else {
                accept::<LIMIT>(self.count, Reply::Done)
            },
        }
    }

    /// Returns the reply to an abandonment of this job execution (Jakarta Batch 2.1, "JobOperator",
    /// abandon).
    ///
    /// # Errors
    ///
    /// The first of these that applies:
    /// - `NoSuchJobExecutionException`: there is no such job execution;
    /// - `JobExecutionIsRunningException`: a job execution of its job instance is unfinished;
    /// - `RepositoryFull`: `LIMIT` operations were accepted.
    pub fn reply_to_abandon(&self, x: ExecutionId) -> Result<Reply, Refusal>
        ensures { result ≡ reply_to_abandon LIMIT (rows_at self.now) (find
            (is_execution x) self.now.records.now.executions) }
    {
        match self.records.execution(x) {
            None => Err(Refusal::NoSuchJobExecutionException),
            Some(row) => if self.records.has_unfinished(row.instance) {
                Err(Refusal::JobExecutionIsRunningException)
            } else {
                accept::<LIMIT>(self.count, Reply::Done)
            },
        }
    }

    /// Returns the task for a work key of this job, a chunk from this checkpoint on. If its step is
    /// partitioned, it also returns the partition that a work item of it names.
    fn task_in(
        &self,
        mark: Option<&Text<65536>>,
        job: &T256,
        key: &WorkKey,
    ) -> Result<(WorkTask, Option<u32>), OutOfMemory>
        ensures task { IfOk result (λ made. made.0
            ≡ work_task (option_copied mark.entry) (runnable_of_job
            (job_named self.now.catalogue.now job.now) key.now)) }
        ensures partition { IfOk result (λ made. made.1
            ≡ partition_named key.now.partition (partitions_of_job
            (job_named self.now.catalogue.now job.now) key.now)) }
    {
        match self.catalogue.job(job.as_str()) {
            None => Ok((task_of(self.alloc, mark, None)?, None)),
            Some(job) => {
                let (found, partitions) = job_plans::find_task(job, key)?;
                let task = task_of(self.alloc, mark, found)?;
                Ok((task, partition_named(key.partition, partitions)))
            }
        }
    }

    /// Returns the next work item, with this work key of a job execution.
    fn item_of(&self, row: &ExecutionRow, key: &WorkKey) -> Result<WorkItem, OutOfMemory>
        requires { self.now.last.work ≤ most_numbered }
        ensures { IfOk result (λ item. item ≡ next_work_item (rows_at self.now) row.now key.now) }
    {
        let mark = self.records.checkpoint(row.instance, key);
        let (task, partition) = self.task_in(mark, &row.job, key)?;
        let element = key.element.try_clone()?;
        let work = WorkId::new(self.last.work + 1);
        Ok(WorkItem {
            work,
            execution: row.execution,
            element,
            partition,
            task,
        })
    }

    /// Returns the reply to a claim of a job execution, whose first work key that may be run now is
    /// `key`. The reply is the next work item, or that the job execution is closed if there is no
    /// such key.
    ///
    /// # Errors
    ///
    /// `OutOfMemory` if memory is refused.
    pub fn claim_reply(
        &self,
        row: &ExecutionRow,
        key: &Option<WorkKey>,
    ) -> Result<Reply, OutOfMemory>
        requires { self.now.last.work ≤ most_numbered }
        ensures { IfOk result (λ reply. reply ≡ claim_reply (rows_at self.now) row.now key.now) }
    {
        match key {
            None => Ok(Reply::Closed(row.execution)),
            Some(key) => Ok(Reply::Work(self.item_of(row, key)?)),
        }
    }

    /// Checks whether a job execution was asked to stop.
    fn stop_requested(&self, x: ExecutionId) -> bool
        ensures { result ≡ stop_requested_of (rows_at self.now) x }
    {
        match self.records.execution(x) {
            None => false,
            Some(row) => row.stop,
        }
    }

    /// Returns the reply to a checkpoint of this work item, from the session `who`. The reply says
    /// whether the job execution was asked to stop.
    ///
    /// # Errors
    ///
    /// The first of these that applies:
    /// - `NoSuchWork`: there is no such work item;
    /// - `WorkNotRunning`: it is over;
    /// - `NotClaimer`: another session claimed it;
    /// - `WrongOutcome`: it is no chunk;
    /// - `RepositoryFull`: `LIMIT` operations were accepted.
    pub fn reply_to_checkpoint(&self, who: u64, w: WorkId) -> Result<Reply, Refusal>
        ensures { result ≡ reply_to_checkpoint LIMIT (rows_at self.now) who (find
            (is_work w) self.now.records.now.works) }
    {
        match self.records.work(w) {
            None => Err(Refusal::NoSuchWork),
            Some(row) => match report_refusal(who, row.claimer, &row.state) {
                Some(refusal) => Err(refusal),
                None => checkpoint_reply::<LIMIT>(
                    self.count,
                    self.stop_requested(row.execution),
                    row.kind,
                ),
            },
        }
    }

    /// Returns the reply to the end of this work item with this outcome, from the session `who`.
    ///
    /// # Errors
    ///
    /// The first of these that applies:
    /// - `NoSuchWork`: there is no such work item;
    /// - `WorkNotRunning`: it is over;
    /// - `NotClaimer`: another session claimed it;
    /// - `WrongOutcome`: it is a decision, and the outcome is STOPPED;
    /// - `NotStopping`: the outcome is STOPPED, and no stop of its job execution was asked for;
    /// - `RepositoryFull`: `LIMIT` operations were accepted.
    pub fn reply_to_finish(
        &self,
        who: u64,
        w: WorkId,
        outcome: WorkOutcome,
    ) -> Result<Reply, Refusal>
        ensures { result ≡ reply_to_finish LIMIT (rows_at self.now) who outcome (find
            (is_work w) self.now.records.now.works) }
    {
        match self.records.work(w) {
            None => Err(Refusal::NoSuchWork),
            Some(row) => match report_refusal(who, row.claimer, &row.state) {
                Some(refusal) => Err(refusal),
                None => {
                    let stop = self.stop_requested(row.execution);
                    finish_reply::<LIMIT>(self.count, stop, row.kind, outcome)
                }
            },
        }
    }

    /// Returns the reply to the loss of this work item.
    ///
    /// # Errors
    ///
    /// The first of these that applies:
    /// - `NoSuchWork`: there is no such work item;
    /// - `WorkNotRunning`: it is over;
    /// - `RepositoryFull`: `LIMIT` operations were accepted.
    pub fn reply_to_loss(&self, w: WorkId) -> Result<Reply, Refusal>
        ensures { result ≡ reply_to_loss LIMIT self.now.count (find
            (is_work w) self.now.records.now.works) }
    {
        match self.records.work(w) {
            None => Err(Refusal::NoSuchWork),
            Some(row) => match &row.state {
                WorkState::Over(_, _) => Err(Refusal::WorkNotRunning),
                WorkState::Busy => accept::<LIMIT>(self.count, Reply::Done),
            },
        }
    }

    /// Returns the reply to a purge of this job instance.
    ///
    /// # Errors
    ///
    /// The first of these that applies:
    /// - `NoSuchJobInstanceException`: there is no such job instance;
    /// - `JobExecutionIsRunningException`: a job execution of it is unfinished;
    /// - `RepositoryFull`: `LIMIT` operations were accepted.
    pub fn reply_to_purge(&self, i: InstanceId) -> Result<Reply, Refusal>
        ensures { result ≡ reply_to_purge LIMIT (rows_at self.now) i }
    {
        if !search::is_there(self.records, i) {
            Err(Refusal::NoSuchJobInstanceException)
        } else if self.records.has_unfinished(i) {
            Err(Refusal::JobExecutionIsRunningException)
        } else {
            accept::<LIMIT>(self.count, Reply::Done)
        }
    }
}
