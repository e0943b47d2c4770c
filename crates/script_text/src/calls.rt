// The calls of a script, one function for each entry of the table.
ghost use Rattle.std.specs.Prelude.{◌≡◌, option_map};
ghost use Rattle.lent_json.specs.Looks.{shown};
ghost use Rattle.batch_ids.specs.Statuses.{outcome_named};
ghost use Rattle.script_text.specs.Calls.{start_of, restart_of, stop_of, abandon_of, claim_of, checkpoint_of, finish_of, lose_of, purge_of, call_named};
ghost use Rattle.script_text.specs.RawCommands.{call_in};

use crate::metrics::metrics_at;
use crate::parameters::parameters_at;
use crate::raw::RawCall;
use batch_ids::WorkOutcome;
use lent_json::Look;

/// Reads the call of a line whose `do` is this word.
#[tactic(auto, unfolding(crate::specs::Calls::call_named))]
pub fn call_named<'v, 't>(word: &str, value: Look<'v, 't>) -> Option<RawCall<'v, 't>>
    ensures { option_map call_in result ≡ call_named word.now (shown value.entry) }
{
    match word {
        "start" => start_of(value),
        "restart" => restart_of(value),
        "stop" => stop_of(value),
        "abandon" => abandon_of(value),
        "claim" => claim_of(value),
        "checkpoint" => checkpoint_of(value),
        "finish" => finish_of(value),
        "lose" => lose_of(value),
        "purge" => purge_of(value),
        _ => None,
    }
}

#[tactic(auto, unfolding(crate::specs::Calls::start_of))]
fn start_of<'v, 't>(value: Look<'v, 't>) -> Option<RawCall<'v, 't>>
    ensures { option_map call_in result ≡ start_of (shown value.entry) }
{
    if !value.has_only(&["do", "by", "at", "job", "parameters"]) {
        return None;
    }
    let job = value.text_at("job")?;
    let parameters = parameters_at(value)?;
    Some(RawCall::Start { job, parameters })
}

#[tactic(auto, unfolding(crate::specs::Calls::restart_of))]
fn restart_of<'v, 't>(value: Look<'v, 't>) -> Option<RawCall<'v, 't>>
    ensures { option_map call_in result ≡ restart_of (shown value.entry) }
{
    if !value.has_only(&["do", "by", "at", "execution", "parameters"]) {
        return None;
    }
    let execution = value.number_at("execution")?;
    let parameters = parameters_at(value)?;
    Some(RawCall::Restart {
        execution,
        parameters,
    })
}

#[tactic(auto, unfolding(crate::specs::Calls::stop_of))]
fn stop_of<'v, 't>(value: Look<'v, 't>) -> Option<RawCall<'v, 't>>
    ensures { option_map call_in result ≡ stop_of (shown value.entry) }
{
    if !value.has_only(&["do", "by", "at", "execution"]) {
        return None;
    }
    let execution = value.number_at("execution")?;
    Some(RawCall::Stop { execution })
}

#[tactic(auto, unfolding(crate::specs::Calls::abandon_of))]
fn abandon_of<'v, 't>(value: Look<'v, 't>) -> Option<RawCall<'v, 't>>
    ensures { option_map call_in result ≡ abandon_of (shown value.entry) }
{
    if !value.has_only(&["do", "by", "at", "execution"]) {
        return None;
    }
    let execution = value.number_at("execution")?;
    Some(RawCall::Abandon { execution })
}

#[tactic(auto, unfolding(crate::specs::Calls::claim_of))]
fn claim_of<'v, 't>(value: Look<'v, 't>) -> Option<RawCall<'v, 't>>
    ensures { option_map call_in result ≡ claim_of (shown value.entry) }
{
    if !value.has_only(&["do", "by", "at"]) {
        return None;
    }
    Some(RawCall::Claim)
}

#[tactic(auto, unfolding(crate::specs::Calls::checkpoint_of))]
fn checkpoint_of<'v, 't>(value: Look<'v, 't>) -> Option<RawCall<'v, 't>>
    ensures { option_map call_in result ≡ checkpoint_of (shown value.entry) }
{
    if !value.has_only(&["do", "by", "at", "work", "data", "metrics"]) {
        return None;
    }
    let work = value.number_at("work")?;
    let mark = value.text_at("data")?;
    let step = metrics_at(value)?;
    Some(RawCall::Checkpoint { work, mark, step })
}

#[tactic(auto, unfolding(crate::specs::Calls::finish_of))]
fn finish_of<'v, 't>(value: Look<'v, 't>) -> Option<RawCall<'v, 't>>
    ensures { option_map call_in result ≡ finish_of (shown value.entry) }
{
    let names = ["do", "by", "at", "work", "outcome", "exit", "metrics"];
    if !value.has_only(&names) {
        return None;
    }
    let work = value.number_at("work")?;
    let name = value.text_at("outcome")?;
    let outcome = outcome_named(name)?;
    let exit = value.optional_text("exit")?;
    let step = metrics_at(value)?;
    Some(RawCall::Finish {
        work,
        outcome,
        exit,
        step,
    })
}

#[tactic(auto, unfolding(crate::specs::Calls::lose_of))]
fn lose_of<'v, 't>(value: Look<'v, 't>) -> Option<RawCall<'v, 't>>
    ensures { option_map call_in result ≡ lose_of (shown value.entry) }
{
    if !value.has_only(&["do", "by", "at", "work"]) {
        return None;
    }
    let work = value.number_at("work")?;
    Some(RawCall::Lose { work })
}

#[tactic(auto, unfolding(crate::specs::Calls::purge_of))]
fn purge_of<'v, 't>(value: Look<'v, 't>) -> Option<RawCall<'v, 't>>
    ensures { option_map call_in result ≡ purge_of (shown value.entry) }
{
    if !value.has_only(&["do", "by", "at", "instance"]) {
        return None;
    }
    let instance = value.number_at("instance")?;
    Some(RawCall::Purge { instance })
}

/// Returns the outcome of this name.
fn outcome_named(name: &str) -> Option<WorkOutcome>
    ensures { result ≡ outcome_named name.now }
{
    name.parse().ok()
}
