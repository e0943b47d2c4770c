ghost use Rattle.std.specs.Prelude.{◌≡◌, option_map};
ghost use Rattle.lent_json.specs.Looks.{shown};
ghost use Rattle.script_text.specs.Commands.{session_at, call_of, query_of, raw_command_of};
ghost use Rattle.script_text.specs.RawCommands.{command_in};

use crate::calls::call_named;
use crate::queries::query_named;
use batch_ids::{MetricStep, Moment, WorkOutcome};
use lent_json::{Look, Texts};

/// A command as its line spells it. Its texts are those of the line, of any length.
#[derive(Clone, Copy)]
pub enum RawCommand<'a, 't> {
    Act {
        by: u64,
        at: Moment,
        call: RawCall<'a, 't>,
    },
    Ask(RawQuery<'a>),
}

/// A call as its line spells it. Its parameters are an object of texts.
#[derive(Clone, Copy)]
pub enum RawCall<'a, 't> {
    Start {
        job: &'a str,
        parameters: Option<Texts<'a, 't>>,
    },
    Restart {
        execution: u64,
        parameters: Option<Texts<'a, 't>>,
    },
    Stop {
        execution: u64,
    },
    Abandon {
        execution: u64,
    },
    Claim,
    Checkpoint {
        work: u64,
        mark: &'a str,
        step: MetricStep,
    },
    Finish {
        work: u64,
        outcome: WorkOutcome,
        exit: Option<&'a str>,
        step: MetricStep,
    },
    Lose {
        work: u64,
    },
    Purge {
        instance: u64,
    },
}

/// A query as its line spells it.
#[derive(Clone, Copy)]
pub enum RawQuery<'a> {
    JobNames,
    JobInstanceCount {
        job: &'a str,
    },
    JobInstances {
        job: &'a str,
        start: u64,
        count: u64,
    },
    RunningExecutions {
        job: &'a str,
    },
    Parameters {
        execution: u64,
    },
    JobInstance {
        execution: u64,
    },
    JobExecutions {
        instance: u64,
    },
    JobExecution {
        execution: u64,
    },
    StepExecutions {
        execution: u64,
    },
    StatusCounts,
}

/// Reads the raw command of a value, if it is one of the table.
#[tactic(auto, unfolding(crate::specs::Commands::raw_command_of))]
pub fn raw_command_of<'v, 't>(value: Look<'v, 't>) -> Option<RawCommand<'v, 't>>
    ensures { option_map command_in result ≡ raw_command_of (shown value.entry) }
{
    match call_of(value) {
        Some(act) => Some(act),
        None => query_of(value),
    }
}

#[tactic(auto, unfolding(crate::specs::Commands::call_of))]
fn call_of<'v, 't>(value: Look<'v, 't>) -> Option<RawCommand<'v, 't>>
    ensures { option_map command_in result ≡ call_of (shown value.entry) }
{
    let word = value.text_at("do")?;
    let call = call_named(word, value)?;
    let by = session_at(value)?;
    let at = value.number_at("at")?;
    Some(RawCommand::Act { by, at, call })
}

#[tactic(auto, unfolding(crate::specs::Commands::query_of))]
fn query_of<'v, 't>(value: Look<'v, 't>) -> Option<RawCommand<'v, 't>>
    ensures { option_map command_in result ≡ query_of (shown value.entry) }
{
    let word = value.text_at("ask")?;
    let query = query_named(word, value)?;
    Some(RawCommand::Ask(query))
}

/// Reads the session that gives a command: a number from 1.
fn session_at(value: Look<'_, '_>) -> Option<u64>
    ensures { result ≡ session_at (shown value.entry) }
{
    let by = value.number_at("by")?;
    if by == 0 { None } else { Some(by) }
}
