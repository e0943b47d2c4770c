ghost use Rattle.std.specs.Prelude.{◌≡◌, ◌≤◌, ◌==◌, Ok, Err, Some, None, IfErr, length, find, reverse, IfOk, if◌then◌else◌};
ghost use Rattle.std.specs.List.{list_any};
ghost use Rattle.jsl_model.specs.Names.{distinct};
ghost use Rattle.batch_ids.specs.Metrics.{most_after};
ghost use Rattle.batch_history.specs.Legal.{most_numbered};
ghost use Rattle.batch_history.specs.declared.query.Answer.{Answer};
ghost use Rattle.batch_history.specs.Answers.{instances_of_job, page, running_executions, records_of, if_job_known, if_execution_known, answer_by};
ghost use Rattle.batch_history.specs.Due.{IsDue};
ghost use Rattle.batch_history.specs.Replies.{is_execution};
ghost use Rattle.batch_history.specs.Rows.{Rows};
ghost use Rattle.records.specs.Left.{job_names};
ghost use Rattle.seq_repository.specs.Metered.{AreWithin};

use crate::steps;
use batch_history::{Answer, ExecutionRow, JobExecution, JobInstance, Query};
use batch_ids::{ExecutionId, InstanceId, Listed, OutOfMemory, Refusal, T256};
use jsl_model::Catalogue;
use records::Records;
use std::alloc::Global;

/// Returns the answer to a query, from these rows.
pub(crate) fn answer(
    alloc: Global,
    catalogue: &Catalogue,
    rows: &Records,
    query: &Query,
) -> Result<Answer, Refusal>
    requires { AreWithin (most_after most_numbered) rows.now.works }
    ensures { (r : Rows) → r.catalogue ≡ catalogue.now → r.instances ≡ rows.now.instances → r.executions ≡ rows.now.executions
        → r.works ≡ rows.now.works
        → IsDue result (answer_by r query.now) }
{
    match query {
        Query::JobNames => Ok(Answer::JobNames(names(alloc, rows)?)),
        Query::JobInstanceCount { job } => instance_count(rows, job),
        Query::JobInstances { job, start, count } => instances(alloc, rows, job, *start, *count),
        Query::RunningExecutions { job } => running(alloc, rows, job),
        Query::JobExecutions { instance } => executions(alloc, rows, *instance),
        Query::StatusCounts => Ok(Answer::StatusCounts(rows.counts())),
        Query::Parameters { execution } => {
            let row = known(rows, *execution)?;
            Ok(Answer::Parameters(row.parameters.try_clone()?))
        }
        Query::JobInstance { execution } => {
            let row = known(rows, *execution)?;
            Ok(Answer::JobInstance(JobInstance {
                instance: row.instance,
                job: row.job.try_clone()?,
            }))
        }
        Query::JobExecution { execution } => {
            let row = known(rows, *execution)?;
            Ok(Answer::JobExecution(row.record()?))
        }
        Query::StepExecutions { execution } => {
            let row = known(rows, *execution)?;
            Ok(Answer::StepExecutions(steps::step_executions(alloc, catalogue, rows, row)?))
        }
    }
}

/// Returns the row of a job execution, or `NoSuchJobExecutionException` if there is no such job
/// execution.
fn known(rows: &Records, x: ExecutionId) -> Result<&ExecutionRow, Refusal>
    ensures there { IfOk result (λ row. find (is_execution x) rows.now.executions ≡ Some row.now) }
    ensures none { IfErr result (λ refusal. (refusal ≡ Refusal.NoSuchJobExecutionException)
        × (find (is_execution x) rows.now.executions ≡ None)) }
{
    match rows.execution(x) {
        Some(row) => Ok(row),
        None => Err(Refusal::NoSuchJobExecutionException),
    }
}

/// Checks whether a job has a job instance.
fn is_known(rows: &Records, job: &T256) -> bool
    ensures { (found : Answer)
        → if_job_known (instances_of_job job.now rows.now.instances) found
        ≡ (if result then Ok found else Err Refusal.NoSuchJobException) }
{
    rows.instances_of(job.as_str()).next().is_some()
}

fn names(alloc: Global, rows: &Records) -> Result<Listed<T256>, OutOfMemory>
    ensures { IfOk result (λ names. names ≡ distinct (job_names rows.now.instances)) }
{
    let mut names = Vec::new(alloc);
    for name in rows.names() {
        names.push(name.try_clone()?)?;
    }
    Ok(Listed::from_vec(names))
}

fn instance_count(rows: &Records, job: &T256) -> Result<Answer, Refusal>
    ensures { result ≡ if_job_known (instances_of_job job.now rows.now.instances)
        (Answer.JobInstanceCount (length (instances_of_job job.now rows.now.instances))) }
{
    if !is_known(rows, job) {
        return Err(Refusal::NoSuchJobException);
    }
    let count = rows.instance_count(job.as_str());
    Ok(Answer::JobInstanceCount(count as u64))
}

fn instances(
    alloc: Global,
    rows: &Records,
    job: &T256,
    start: u64,
    count: u64,
) -> Result<Answer, Refusal>
    ensures { IsDue result (if_job_known (instances_of_job job.now rows.now.instances)
        (Answer.JobInstances (page start count (reverse
        (instances_of_job job.now rows.now.instances))))) }
{
    if !is_known(rows, job) {
        return Err(Refusal::NoSuchJobException);
    }
    let page = newest(alloc, rows, job, start, count)?;
    Ok(Answer::JobInstances(Listed::from_vec(page)))
}

/// Returns at most `count` of the job instances of a job, the newest first, without the `start`
/// newest.
fn newest(
    alloc: Global,
    rows: &Records,
    job: &T256,
    start: u64,
    count: u64,
) -> Result<Vec<JobInstance>, OutOfMemory>
    ensures { IfOk result (λ found. found.items
        ≡ page start count (reverse (instances_of_job job.now rows.now.instances))) }
{
    let to = rows
        .instance_count(job.as_str())
        .saturating_sub(start as usize);
    let from = to.saturating_sub(count as usize);
    let mut found = Vec::new(alloc);
    for row in rows.instances_between(job.as_str(), from, to) {
        found.push(row.try_clone()?)?;
    }
    found.reverse();
    Ok(found)
}

fn running(alloc: Global, rows: &Records, job: &T256) -> Result<Answer, Refusal>
    ensures { IsDue result (if_job_known (instances_of_job job.now rows.now.instances)
        (Answer.RunningExecutions (running_executions job.now rows.now.executions))) }
{
    if !is_known(rows, job) {
        return Err(Refusal::NoSuchJobException);
    }
    let running = rows.running_of(job.as_str())?;
    Ok(Answer::RunningExecutions(Listed::from_vec(running)))
}

#[tactic(auto, using(reply_rules::proofs::Lists::any_found))]
fn executions(alloc: Global, rows: &Records, i: InstanceId) -> Result<Answer, Refusal>
    ensures { IsDue result (if list_any
        (λ instance. instance.instance == i) rows.now.instances then Ok (Answer.JobExecutions
        (records_of i rows.now.executions)) else Err Refusal.NoSuchJobInstanceException) }
{
    if rows.instance(i).is_none() {
        return Err(Refusal::NoSuchJobInstanceException);
    }
    let records = records_of(alloc, rows, i)?;
    Ok(Answer::JobExecutions(Listed::from_vec(records)))
}

/// Returns the records of the job executions of a job instance, the newest first.
fn records_of(
    alloc: Global,
    rows: &Records,
    i: InstanceId,
) -> Result<Vec<JobExecution>, OutOfMemory>
    ensures { IfOk result (λ found. found.items ≡ records_of i rows.now.executions) }
{
    let mut found = Vec::new(alloc);
    for row in rows.executions_of(i) {
        found.push(row.record()?)?;
    }
    found.reverse();
    Ok(found)
}
