// The lines in which a run reports its job executions.
ghost use Rattle.std.specs.Prelude.{◌≡◌, map, IfOk};
ghost use Rattle.serde_json.specs.Data.{array, no_members};
ghost use Rattle.serde_json.specs.View.{view, members_view};
ghost use Rattle.script_text.specs.Written.{with_members};
ghost use Rattle.script_text.specs.Runs.{run_step_data, run_steps_data, step_by_id, values_of, execution_data, execution_text};

use crate::objects::{Shown, members_of, object_value, object_with, text_or_null};
use crate::written::line_of;
use batch_history::{JobExecution, StepExecution};
use batch_ids::OutOfMemory;
use serde_json::{Map, Value, put};
use std::alloc::Global;

/// Writes the line in which a run reports a job execution, with its line feed. It is compact JSON
/// with the members `execution`, `exit`, `status` and `steps`. `steps` is a list of objects with
/// the members `exit`, `metrics`, `status` and `step`, by rising ids of the steps. A missing exit
/// status is null. Metrics of 0 are left out.
///
/// # Errors
///
/// Returns `OutOfMemory` if memory is refused.
#[tactic(auto, using(crate::proofs::Floats::run_has_no_float))]
pub fn execution_text(
    alloc: Global,
    execution: &JobExecution,
    steps: &[StepExecution],
) -> Result<Vec<u8>, OutOfMemory>
    ensures { IfOk result (λ text. text.items ≡ execution_text execution.now steps.now) }
{
    let value = execution_value(alloc, execution, steps)?;
    line_of(alloc, &value)
}

fn execution_value(
    alloc: Global,
    execution: &JobExecution,
    steps: &[StepExecution],
) -> Result<Value, OutOfMemory>
    ensures { IfOk result (λ value. view value ≡ execution_data execution.now steps.now) }
{
    let members = members_of(
        alloc,
        &[
            ("execution", Shown::Count(execution.execution.value())),
            ("exit", text_or_null(&execution.exit)),
            ("status", Shown::Text(execution.status.name())),
        ],
    )?;
    object_with(alloc, members, "steps", steps_value(alloc, steps)?)
}

/// Returns the list of step executions, by rising ids of their steps.
fn steps_value(alloc: Global, steps: &[StepExecution]) -> Result<Value, OutOfMemory>
    ensures { IfOk result (λ value. view value ≡ run_steps_data steps.now) }
{
    let by_id = steps_by_id(alloc, steps)?;
    values_of(alloc, by_id)
}

/// Returns the step executions by the ids of their steps.
fn steps_by_id(alloc: Global, steps: &[StepExecution]) -> Result<Map<String, Value>, OutOfMemory>
    ensures { IfOk result (λ by_id. members_view by_id.entries ≡ with_members no_members (map step_by_id steps.now)) }
{
    let mut by_id = Map::new(alloc);
    for step in steps {
        put(
            &mut by_id,
            alloc,
            step.step.as_str(),
            step_value(alloc, step)?,
        )?;
    }
    Ok(by_id)
}

/// Returns the values of members, in the order of their names.
fn values_of(alloc: Global, members: Map<String, Value>) -> Result<Value, OutOfMemory>
    ensures { IfOk result (λ value. view value ≡ array (values_of (members_view members.entries))) }
{
    let mut values = Vec::new(alloc);
    for value in members.into_values() {
        values.push(value)?;
    }
    Ok(Value::Array(values))
}

fn step_value(alloc: Global, step: &StepExecution) -> Result<Value, OutOfMemory>
    ensures { IfOk result (λ value. view value ≡ run_step_data step.now) }
{
    object_value(
        alloc,
        &[
            ("exit", text_or_null(&step.exit)),
            ("metrics", Shown::Metrics(&step.metrics)),
            ("status", Shown::Text(step.status.name())),
            ("step", Shown::Text(step.step.as_str())),
        ],
    )
}
