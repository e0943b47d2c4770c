ghost use Rattle.std.specs.Prelude.{◌≡◌, false, Ok, IfOk, OnOk};
ghost use Rattle.batch_history.specs.declared.query.Answer.TheVariants as answers;
ghost use Rattle.script_text.specs.Answers.{answer_data, answer_text};
ghost use Rattle.script_text.specs.Telling.{Adds, tells_parameters};

use crate::objects::{Shown, one};
use crate::parameters::parameters_value;
use crate::telling::{Told, line_from, new_line, tell_object, tell_one, tell_refused};
use crate::written::line_of;
use batch_history::Answer;
use batch_ids::{OutOfMemory, Parameters, Refusal};
use json::Writer;
use std::alloc::Global;

/// Writes the line of a query's answer, with its line feed. It is compact JSON, the members of each
/// object in rising order of their names. A missing value is null.
///
/// The line depends on the query (Jakarta Batch 2.1, "JobOperator"; `status_counts` is this
/// service's own):
/// - `job_names`: `{"names":[..]}`
/// - `job_instance_count`: `{"count":N}`
/// - `job_instances`: `{"instances":[..]}`. `job_instance`: one of them alone. Each has the members
///   `instance` and `job`.
/// - `running_executions`: `{"running":[..]}`, a list of numbers.
/// - `parameters`: `{"parameters":{..}}`
/// - `job_executions`: `{"job_executions":[..]}`. `job_execution`: `{"job_execution":{..}}`. Each
///   has the members `create`, `end`, `execution`, `exit`, `instance`, `job`, `start`, `status` and
///   `updated` ("JobExecution").
/// - `step_executions`: `{"step_executions":[..]}`. Each has the members `end`, `execution`,
///   `exit`, `metrics`, `start`, `status`, `step` and `work` ("StepExecution").
/// - `status_counts`: `{"counts":{..}}`, by the names of the statuses.
///
/// The line of a refusal is `{"refused":NAME}`. In `metrics` and `counts` a count of 0 is left out.
///
/// # Errors
///
/// Returns `OutOfMemory` if memory is refused.
pub fn answer_text(alloc: Global, answer: &Result<Answer, Refusal>) -> Result<Vec<u8>, OutOfMemory>
    ensures { IfOk result (λ text. text.items ≡ answer_text answer.now) }
{
    if let Ok(Answer::Parameters(parameters)) = answer {
        return parameters_text(alloc, parameters);
    }
    let mut out = new_line(alloc)?;
    tell_answer(&mut out, answer)?;
    line_from(out)
}

/// Writes the line of parameters.
#[tactic(auto, using(crate::proofs::Floats::answer_has_no_float))]
fn parameters_text(alloc: Global, parameters: &Parameters) -> Result<Vec<u8>, OutOfMemory>
    ensures { IfOk result (λ text. text.items ≡ answer_text (Ok (answers.Parameters parameters.now))) }
{
    let value = one(alloc, "parameters", parameters_value(alloc, parameters)?)?;
    line_of(alloc, &value)
}

/// Writes an answer other than parameters.
fn tell_answer(out: &mut Writer, answer: &Result<Answer, Refusal>) -> Result<(), OutOfMemory>
    requires { tells_parameters answer.now ≡ false }
    ensures { OnOk result (Adds (answer_data answer.now) out.old out.new) }
{
    match answer {
        Ok(Answer::JobNames(names)) => tell_one(out, "names", names),
        Ok(Answer::JobInstanceCount(count)) => {
            tell_object(out, &[("count", Shown::Count(*count))])
        }
        Ok(Answer::JobInstances(instances)) => tell_one(out, "instances", instances),
        Ok(Answer::RunningExecutions(executions)) => tell_one(out, "running", executions),
        Ok(Answer::Parameters(_)) => unreachable!(),
        Ok(Answer::JobInstance(instance)) => instance.tell(out),
        Ok(Answer::JobExecutions(executions)) => tell_one(out, "job_executions", executions),
        Ok(Answer::JobExecution(execution)) => tell_one(out, "job_execution", execution),
        Ok(Answer::StepExecutions(steps)) => tell_one(out, "step_executions", steps),
        Ok(Answer::StatusCounts(counts)) => tell_one(out, "counts", counts),
        Err(refusal) => tell_refused(out, refusal.name()),
    }
}
