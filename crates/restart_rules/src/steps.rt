//! The steps of a job, at any depth.
ghost use Rattle.std.specs.Prelude.{◌≡◌, ◌++◌, map, IfOk, OnOk};
ghost use Rattle.batch_history.specs.JobSteps.{all_steps, steps_of_element, steps_of_flow};
ghost use Rattle.jsl_model.specs.Trees.{joined};
ghost use Rattle.restart_rules.specs.Restarting.{job_step};

use batch_ids::{OutOfMemory, T256};
use jsl_model::{Body, Element, SplitFlow, Step};
use std::alloc::Global;

/// A step with its id.
#[derive(Clone, Copy)]
pub(crate) struct StepOf<'a> {
    pub(crate) id: &'a T256,
    pub(crate) step: &'a Step,
}

/// Adds the steps in an element.
#[cycle(gathering)]
fn add_inside<'a>(steps: &mut Vec<StepOf<'a>>, element: &'a Element) -> Result<(), OutOfMemory>
    ensures { OnOk result (map job_step steps.new.items
        ≡ map job_step steps.old.items ++ steps_of_element element.now) }
{
    match &element.body {
        Body::Step(step) => {
            steps.push(StepOf {
                id: &element.id,
                step,
            })?;
            Ok(())
        }
        Body::Decision { .. } => Ok(()),
        Body::Flow(elements) => add_all(steps, elements.as_slice()),
        Body::Split(flows) => add_flows(steps, flows.as_slice()),
    }
}

/// Adds the steps of the flows of a split.
#[cycle(gathering)]
fn add_flows<'a>(steps: &mut Vec<StepOf<'a>>, flows: &'a [SplitFlow]) -> Result<(), OutOfMemory>
    ensures { OnOk result (map job_step steps.new.items
        ≡ map job_step steps.old.items ++ joined (map steps_of_flow flows.now)) }
{
    for flow in flows {
        add_all(steps, flow.elements.as_slice())?;
    }
    Ok(())
}

/// Adds the steps of a list.
#[cycle(gathering)]
fn add_all<'a>(steps: &mut Vec<StepOf<'a>>, elements: &'a [Element]) -> Result<(), OutOfMemory>
    ensures { OnOk result (map job_step steps.new.items
        ≡ map job_step steps.old.items ++ all_steps elements.now) }
{
    for element in elements {
        add_inside(steps, element)?;
    }
    Ok(())
}

/// Returns the steps of these elements, at any depth, in written order.
pub(crate) fn steps_in<'a>(
    alloc: Global,
    elements: &'a [Element],
) -> Result<Vec<StepOf<'a>>, OutOfMemory>
    ensures { IfOk result (λ steps. map job_step steps.items ≡ all_steps elements.now) }
{
    let mut steps = Vec::new(alloc);
    add_all(&mut steps, elements)?;
    Ok(steps)
}
