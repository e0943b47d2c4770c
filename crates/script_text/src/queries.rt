// The queries of a script, one function for each entry of the table.
ghost use Rattle.std.specs.Prelude.{◌≡◌, Some, None, option_map, if◌then◌else◌};
ghost use Rattle.lent_json.specs.Looks.{shown};
ghost use Rattle.script_text.specs.Queries.{is_alone, job_asked, execution_asked, instance_asked, job_instances_of, query_named};
ghost use Rattle.script_text.specs.RawCommands.{query_in};

use crate::raw::RawQuery;
use lent_json::Look;

/// Reads the query of a line whose `ask` is this word.
#[tactic(auto, unfolding(crate::specs::Queries::query_named))]
pub fn query_named<'v>(word: &str, value: Look<'v, '_>) -> Option<RawQuery<'v>>
    ensures { option_map query_in result ≡ query_named word.now (shown value.entry) }
{
    match word {
        "job_names" => alone(value, RawQuery::JobNames),
        "job_instance_count" => Some(RawQuery::JobInstanceCount {
            job: job_asked(value)?,
        }),
        "job_instances" => job_instances_of(value),
        "running_executions" => Some(RawQuery::RunningExecutions {
            job: job_asked(value)?,
        }),
        "parameters" => Some(RawQuery::Parameters {
            execution: execution_asked(value)?,
        }),
        "job_instance" => Some(RawQuery::JobInstance {
            execution: execution_asked(value)?,
        }),
        "job_executions" => Some(RawQuery::JobExecutions {
            instance: instance_asked(value)?,
        }),
        "job_execution" => Some(RawQuery::JobExecution {
            execution: execution_asked(value)?,
        }),
        "step_executions" => Some(RawQuery::StepExecutions {
            execution: execution_asked(value)?,
        }),
        "status_counts" => alone(value, RawQuery::StatusCounts),
        _ => None,
    }
}

/// Returns the query if the line has no other members.
fn alone<'v>(value: Look<'_, '_>, query: RawQuery<'v>) -> Option<RawQuery<'v>>
    ensures { option_map query_in result ≡ (if is_alone (shown value.entry) then Some (query_in query.entry) else None) }
{
    if is_alone(value) { Some(query) } else { None }
}

#[tactic(auto, unfolding(crate::specs::Queries::job_instances_of))]
fn job_instances_of<'v>(value: Look<'v, '_>) -> Option<RawQuery<'v>>
    ensures { option_map query_in result ≡ job_instances_of (shown value.entry) }
{
    if !value.has_only(&["ask", "job", "start", "count"]) {
        return None;
    }
    let job = value.text_at("job")?;
    let start = value.number_at("start")?;
    let count = value.number_at("count")?;
    Some(RawQuery::JobInstances { job, start, count })
}

/// Checks whether a query has no other members than `ask`.
fn is_alone(value: Look<'_, '_>) -> bool
    ensures { result ≡ is_alone (shown value.entry) }
{
    value.has_only(&["ask"])
}

/// Reads the name of the job that the query is about.
fn job_asked<'v>(value: Look<'v, '_>) -> Option<&'v str>
    ensures { option_map (λ job. job.now) result ≡ job_asked (shown value.entry) }
{
    if !value.has_only(&["ask", "job"]) {
        return None;
    }
    value.text_at("job")
}

/// Reads the job execution that the query is about.
fn execution_asked(value: Look<'_, '_>) -> Option<u64>
    ensures { result ≡ execution_asked (shown value.entry) }
{
    if !value.has_only(&["ask", "execution"]) {
        return None;
    }
    value.number_at("execution")
}

/// Reads the job instance that the query is about.
fn instance_asked(value: Look<'_, '_>) -> Option<u64>
    ensures { result ≡ instance_asked (shown value.entry) }
{
    if !value.has_only(&["ask", "instance"]) {
        return None;
    }
    value.number_at("instance")
}
