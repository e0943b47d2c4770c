ghost use Rattle.std.specs.Prelude.{◌≡◌, map};
ghost use Rattle.jsl_model.specs.Emptiness.{is_empty_option, is_lacking, task_has_empty, step_has_empty, body_has_empty, element_has_empty, flow_has_empty};

use crate::element::{Body, Element, SplitFlow, Step, Task};
use batch_ids::T256;

fn is_empty_name(name: &Option<T256>) -> bool
    ensures { result ≡ is_empty_option name.now }
{
    match name {
        None => false,
        Some(name) => name.as_str().is_empty(),
    }
}

fn has_empty_task(task: &Task) -> bool
    ensures { result ≡ task_has_empty task.now }
{
    match task {
        Task::Batchlet { artifact } => artifact.as_str().is_empty(),
        Task::Chunk {
            reader,
            processor,
            writer,
            item_count,
        } => {
            reader.as_str().is_empty()
                || is_empty_name(processor)
                || writer.as_str().is_empty()
                || *item_count == 0
        }
    }
}

fn has_empty_step(step: &Step) -> bool
    ensures { result ≡ step_has_empty step.now }
{
    step.partitions == Some(0) || has_empty_task(&step.task)
}

#[cycle(emptiness)]
fn is_empty_element(element: &Element) -> bool
    ensures { result ≡ element_has_empty element.now }
{
    element.id.as_str().is_empty() || is_empty_body(&element.body)
}

#[cycle(emptiness)]
fn is_empty_body(body: &Body) -> bool
    ensures { result ≡ body_has_empty body.now }
{
    match body {
        Body::Step(step) => has_empty_step(step),
        Body::Flow(elements) => is_list_lacking(elements.as_slice()),
        Body::Split(flows) => is_split_lacking(flows.as_slice()),
        Body::Decision { artifact } => artifact.as_str().is_empty(),
    }
}

/// Checks whether there is no element, or an element with a required part that is empty.
#[cycle(emptiness)]
pub fn is_list_lacking(elements: &[Element]) -> bool
    ensures { result ≡ is_lacking (map element_has_empty elements.now) }
{
    if elements.is_empty() {
        return true;
    }
    for element in elements {
        if is_empty_element(element) {
            return true;
        }
    }
    false
}

#[cycle(emptiness)]
fn is_empty_flow(flow: &SplitFlow) -> bool
    ensures { result ≡ flow_has_empty flow.now }
{
    flow.id.as_str().is_empty() || is_list_lacking(flow.elements.as_slice())
}

#[cycle(emptiness)]
fn is_split_lacking(flows: &[SplitFlow]) -> bool
    ensures { result ≡ is_lacking (map flow_has_empty flows.now) }
{
    if flows.is_empty() {
        return true;
    }
    for flow in flows {
        if is_empty_flow(flow) {
            return true;
        }
    }
    false
}
