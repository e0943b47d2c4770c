// The bounds of a command's texts. A text within its bound is copied.
ghost use Rattle.std.specs.Prelude.{◌≡◌, IfOk, option_map};
ghost use Rattle.batch_history.specs.declared.call.Call.TheVariants.{Start, Restart, Checkpoint, Finish};
ghost use Rattle.batch_history.specs.declared.query.Query.TheVariants.{JobInstances};
ghost use Rattle.script_text.specs.Bounds.{text_within, exit_within, call_within, query_within};
ghost use Rattle.script_text.specs.RawCommands.{call_in, query_in, pairs_in};

use crate::parameters::parameters_within;
use crate::raw::{RawCall, RawQuery};
use batch_history::{Call, Query};
use batch_ids::{
    ExecutionId, InstanceId, MetricStep, OutOfMemory, T256, Text, WorkId, WorkOutcome,
};
use lent_json::Texts;
use std::alloc::Global;

/// Returns the call of a raw call, with copies of its texts. Returns `None` if a text is above its
/// bound.
pub fn call_within(alloc: Global, call: &RawCall<'_, '_>) -> Result<Option<Call>, OutOfMemory>
    ensures { IfOk result (λ made. made ≡ call_within (call_in call.now)) }
{
    match call {
        RawCall::Start { job, parameters } => start_within(alloc, job, *parameters),
        RawCall::Restart {
            execution,
            parameters,
        } => restart_within(alloc, *execution, *parameters),
        RawCall::Stop { execution } => Ok(Some(Call::Stop {
            execution: ExecutionId::new(*execution),
        })),
        RawCall::Abandon { execution } => Ok(Some(Call::Abandon {
            execution: ExecutionId::new(*execution),
        })),
        RawCall::Claim => Ok(Some(Call::Claim)),
        RawCall::Checkpoint { work, mark, step } => { checkpoint_within(alloc, *work, mark, *step) }
        RawCall::Finish {
            work,
            outcome,
            exit,
            step,
        } => finish_within(alloc, *work, *outcome, *exit, *step),
        RawCall::Lose { work } => Ok(Some(Call::Lose {
            work: WorkId::new(*work),
        })),
        RawCall::Purge { instance } => Ok(Some(Call::Purge {
            instance: InstanceId::new(*instance),
        })),
    }
}

fn start_within(
    alloc: Global,
    job: &str,
    parameters: Option<Texts<'_, '_>>,
) -> Result<Option<Call>, OutOfMemory>
    ensures { IfOk result (λ made. made ≡ call_within (Start job.now (pairs_in parameters.entry))) }
{
    let Some(job) = text_within(alloc, job)? else {
        return Ok(None);
    };
    let Some(parameters) = parameters_within(alloc, parameters)? else {
        return Ok(None);
    };
    Ok(Some(Call::Start { job, parameters }))
}

fn restart_within(
    alloc: Global,
    execution: u64,
    parameters: Option<Texts<'_, '_>>,
) -> Result<Option<Call>, OutOfMemory>
    ensures { IfOk result (λ made. made ≡ call_within (Restart execution (pairs_in parameters.entry))) }
{
    let Some(parameters) = parameters_within(alloc, parameters)? else {
        return Ok(None);
    };
    Ok(Some(Call::Restart {
        execution: ExecutionId::new(execution),
        parameters,
    }))
}

fn checkpoint_within(
    alloc: Global,
    work: u64,
    mark: &str,
    step: MetricStep,
) -> Result<Option<Call>, OutOfMemory>
    ensures { IfOk result (λ made. made ≡ call_within (Checkpoint work mark.now step)) }
{
    let Some(mark) = text_within(alloc, mark)? else {
        return Ok(None);
    };
    Ok(Some(Call::Checkpoint {
        work: WorkId::new(work),
        mark,
        step,
    }))
}

fn finish_within(
    alloc: Global,
    work: u64,
    outcome: WorkOutcome,
    exit: Option<&str>,
    step: MetricStep,
) -> Result<Option<Call>, OutOfMemory>
    ensures { IfOk result (λ made. made ≡ call_within (Finish work outcome (option_map (λ text. text.now) exit.entry) step)) }
{
    let Some(exit) = exit_within(alloc, exit)? else {
        return Ok(None);
    };
    Ok(Some(Call::Finish {
        work: WorkId::new(work),
        outcome,
        exit,
        step,
    }))
}

/// Returns the query of a raw query, with a copy of its text. Returns `None` if the text is above
/// its bound.
pub fn query_within(alloc: Global, query: &RawQuery<'_>) -> Result<Option<Query>, OutOfMemory>
    ensures { IfOk result (λ made. made ≡ query_within (query_in query.now)) }
{
    match query {
        RawQuery::JobNames => Ok(Some(Query::JobNames)),
        RawQuery::JobInstanceCount { job } => {
            let job = text_within(alloc, job)?;
            Ok(job.map(|job| Query::JobInstanceCount { job }))
        }
        RawQuery::JobInstances { job, start, count } => {
            instances_within(alloc, job, *start, *count)
        }
        RawQuery::RunningExecutions { job } => {
            let job = text_within(alloc, job)?;
            Ok(job.map(|job| Query::RunningExecutions { job }))
        }
        RawQuery::Parameters { execution } => Ok(Some(Query::Parameters {
            execution: ExecutionId::new(*execution),
        })),
        RawQuery::JobInstance { execution } => Ok(Some(Query::JobInstance {
            execution: ExecutionId::new(*execution),
        })),
        RawQuery::JobExecutions { instance } => Ok(Some(Query::JobExecutions {
            instance: InstanceId::new(*instance),
        })),
        RawQuery::JobExecution { execution } => Ok(Some(Query::JobExecution {
            execution: ExecutionId::new(*execution),
        })),
        RawQuery::StepExecutions { execution } => Ok(Some(Query::StepExecutions {
            execution: ExecutionId::new(*execution),
        })),
        RawQuery::StatusCounts => Ok(Some(Query::StatusCounts)),
    }
}

fn instances_within(
    alloc: Global,
    job: &str,
    start: u64,
    count: u64,
) -> Result<Option<Query>, OutOfMemory>
    ensures { IfOk result (λ made. made ≡ query_within (JobInstances job.now start count)) }
{
    let Some(job) = text_within(alloc, job)? else {
        return Ok(None);
    };
    Ok(Some(Query::JobInstances { job, start, count }))
}

/// Copies a text of at most `MAX` bytes. Returns `None` if it has more.
pub fn text_within<const MAX: usize>(
    alloc: Global,
    text: &str,
) -> Result<Option<Text<MAX>>, OutOfMemory>
    ensures { IfOk result (λ made. made ≡ text_within MAX text.now) }
{
    if text.len() > MAX {
        return Ok(None);
    }
    Ok(Some(Text::within(alloc, text)?))
}

/// Copies an exit status that may be left out. Returns `None` if it is above its bound.
fn exit_within(alloc: Global, exit: Option<&str>) -> Result<Option<Option<T256>>, OutOfMemory>
    ensures { IfOk result (λ made. made ≡ exit_within (option_map (λ text. text.now) exit.entry)) }
{
    match exit {
        None => Ok(Some(None)),
        Some(exit) => match text_within(alloc, exit)? {
            Some(exit) => Ok(Some(Some(exit))),
            None => Ok(None),
        },
    }
}
