ghost use Rattle.std.specs.Prelude.{◌≡◌, ◌↔◌, IsTrue};

use jsl_model::{Body, Element, Job, SplitFlow, Step, Transition};

/// Checks whether two jobs are equal: their ids, whether they are restartable, and all their
/// elements at all depths.
///
/// The time is proportional to the elements of the first job. It takes no memory.
pub fn is_same_job(job: &Job, other: &Job) -> bool
    ensures { IsTrue result ↔ (job.now ≡ other.now) }
{
    job.id() == other.id()
        && job.restartable() == other.restartable()
        && are_same_elements(job.elements(), other.elements())
}

fn is_same_step(step: &Step, other: &Step) -> bool
    ensures { IsTrue result ↔ (step.now ≡ other.now) }
{
    step == other
}

fn are_same_transitions(transitions: &[Transition], others: &[Transition]) -> bool
    ensures { IsTrue result ↔ (transitions.now ≡ others.now) }
{
    transitions == others
}

#[cycle(sameness)]
fn is_same_element(element: &Element, other: &Element) -> bool
    ensures { IsTrue result ↔ (element.now ≡ other.now) }
{
    element.id == other.id
        && element.next == other.next
        && are_same_transitions(element.transitions.as_slice(), other.transitions.as_slice())
        && is_same_body(&element.body, &other.body)
}

#[cycle(sameness)]
fn is_same_body(body: &Body, other: &Body) -> bool
    ensures { IsTrue result ↔ (body.now ≡ other.now) }
{
    match (body, other) {
        (Body::Step(step), Body::Step(other)) => is_same_step(step, other),
        (Body::Flow(elements), Body::Flow(others)) => {
            are_same_elements(elements.as_slice(), others.as_slice())
        }
        (Body::Split(flows), Body::Split(others)) => {
            are_same_flows(flows.as_slice(), others.as_slice())
        }
        (Body::Decision { artifact }, Body::Decision { artifact: other }) => artifact == other,
        _ => false,
    }
}

#[cycle(sameness)]
fn are_same_elements(elements: &[Element], others: &[Element]) -> bool
    ensures { IsTrue result ↔ (elements.now ≡ others.now) }
{
    if elements.len() != others.len() {
        return false;
    }
    for (index, element) in elements.iter().enumerate() {
        if !is_same_element(element, &others[index]) {
            return false;
        }
    }
    true
}

#[cycle(sameness)]
fn is_same_flow(flow: &SplitFlow, other: &SplitFlow) -> bool
    ensures { IsTrue result ↔ (flow.now ≡ other.now) }
{
    flow.id == other.id && are_same_elements(flow.elements.as_slice(), other.elements.as_slice())
}

#[cycle(sameness)]
fn are_same_flows(flows: &[SplitFlow], others: &[SplitFlow]) -> bool
    ensures { IsTrue result ↔ (flows.now ≡ others.now) }
{
    if flows.len() != others.len() {
        return false;
    }
    for (index, flow) in flows.iter().enumerate() {
        if !is_same_flow(flow, &others[index]) {
            return false;
        }
    }
    true
}
