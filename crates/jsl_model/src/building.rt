ghost use Rattle.std.specs.Prelude.{◌≡◌, true, false, map, Err, IfOk, IfErr, OnOk};
ghost use Rattle.jsl_model.specs.Faults.{IsBuildingFault};
ghost use Rattle.jsl_model.specs.Parts.{bytes_of_option, then_of, transition_of, task_of, step_of, content_of, element_of, flow_of};
ghost use Rattle.jsl_model.specs.LongTexts.{is_long, is_long_option, then_has_long, transition_has_long, task_has_long, body_has_long, element_has_long, flow_has_long};
ghost use Rattle.jsl_model.specs.Trees.{any_true};

use crate::element::{Body, Element, SplitFlow, Step, Task, Then, Transition};
use crate::job::JobFault;
use crate::parts::{
    BodyParts, ElementParts, SplitFlowParts, StepParts, TaskParts, ThenParts, TransitionParts,
};
use batch_ids::{Listed, T256};
use std::alloc::Global;

/// The most bytes that a text of a job may have.
const MOST_BYTES: usize = 256;

/// Builds a bounded text from a text.
///
/// Returns `TextTooLong` if it has more than 256 bytes, and `OutOfMemory` if memory is refused.
pub fn build_text(alloc: Global, text: &str) -> Result<T256, JobFault>
    ensures same { IfOk result (λ built. built ≡ text.now) }
    ensures short { OnOk result (is_long text.now ≡ false) }
    ensures long { result ≡ Err JobFault.TextTooLong → is_long text.now ≡ true }
    ensures fault { IfErr result IsBuildingFault }
{
    if text.len() > MOST_BYTES {
        return Err(JobFault::TextTooLong);
    }
    Ok(T256::within(alloc, text)?)
}

fn build_option(alloc: Global, text: &Option<String>) -> Result<Option<T256>, JobFault>
    ensures same { IfOk result (λ built. built ≡ bytes_of_option text.now) }
    ensures short { OnOk result (is_long_option (bytes_of_option text.now) ≡ false) }
    ensures long { result ≡ Err JobFault.TextTooLong
        → is_long_option (bytes_of_option text.now) ≡ true }
    ensures fault { IfErr result IsBuildingFault }
{
    match text {
        None => Ok(None),
        Some(text) => Ok(Some(build_text(alloc, text.as_str())?)),
    }
}

fn build_then(alloc: Global, parts: &ThenParts) -> Result<Then, JobFault>
    ensures same { IfOk result (λ built. built ≡ then_of parts.now) }
    ensures short { OnOk result (then_has_long (then_of parts.now) ≡ false) }
    ensures long { result ≡ Err JobFault.TextTooLong → then_has_long (then_of parts.now) ≡ true }
    ensures fault { IfErr result IsBuildingFault }
{
    match parts {
        ThenParts::Next { to } => {
            Ok(Then::Next {
                to: build_text(alloc, to.as_str())?,
            })
        }
        ThenParts::End { exit_status } => {
            Ok(Then::End {
                exit_status: build_option(alloc, exit_status)?,
            })
        }
        ThenParts::Fail { exit_status } => {
            Ok(Then::Fail {
                exit_status: build_option(alloc, exit_status)?,
            })
        }
        ThenParts::Stop {
            exit_status,
            restart,
        } => {
            Ok(Then::Stop {
                exit_status: build_option(alloc, exit_status)?,
                restart: build_option(alloc, restart)?,
            })
        }
    }
}

fn build_transition(alloc: Global, parts: &TransitionParts) -> Result<Transition, JobFault>
    ensures same { IfOk result (λ built. built ≡ transition_of parts.now) }
    ensures short { OnOk result (transition_has_long (transition_of parts.now) ≡ false) }
    ensures long { result ≡ Err JobFault.TextTooLong
        → transition_has_long (transition_of parts.now) ≡ true }
    ensures fault { IfErr result IsBuildingFault }
{
    let on = build_text(alloc, parts.on.as_str())?;
    let then = build_then(alloc, &parts.then)?;
    Ok(Transition { on, then })
}

fn build_transitions(
    alloc: Global,
    parts: &[TransitionParts],
) -> Result<Listed<Transition>, JobFault>
    ensures same { IfOk result (λ built. built ≡ map transition_of parts.now) }
    ensures short { OnOk result (any_true (map transition_has_long (map transition_of parts.now))
        ≡ false) }
    ensures long { result ≡ Err JobFault.TextTooLong
        → any_true (map transition_has_long (map transition_of parts.now)) ≡ true }
    ensures fault { IfErr result IsBuildingFault }
{
    let mut built = Vec::new(alloc);
    for transition in parts {
        built.push(build_transition(alloc, transition)?)?;
    }
    Ok(Listed::from_vec(built))
}

fn build_task(alloc: Global, parts: &TaskParts) -> Result<Task, JobFault>
    ensures same { IfOk result (λ built. built ≡ task_of parts.now) }
    ensures short { OnOk result (task_has_long (task_of parts.now) ≡ false) }
    ensures long { result ≡ Err JobFault.TextTooLong → task_has_long (task_of parts.now) ≡ true }
    ensures fault { IfErr result IsBuildingFault }
{
    match parts {
        TaskParts::Batchlet { artifact } => {
            Ok(Task::Batchlet {
                artifact: build_text(alloc, artifact.as_str())?,
            })
        }
        TaskParts::Chunk {
            reader,
            processor,
            writer,
            item_count,
        } => {
            Ok(Task::Chunk {
                reader: build_text(alloc, reader.as_str())?,
                processor: build_option(alloc, processor)?,
                writer: build_text(alloc, writer.as_str())?,
                item_count: *item_count,
            })
        }
    }
}

fn build_step(alloc: Global, parts: &StepParts) -> Result<Step, JobFault>
    ensures same { IfOk result (λ built. built ≡ step_of parts.now) }
    ensures short { OnOk result (task_has_long (task_of parts.now.task) ≡ false) }
    ensures long { result ≡ Err JobFault.TextTooLong
        → task_has_long (task_of parts.now.task) ≡ true }
    ensures fault { IfErr result IsBuildingFault }
{
    let task = build_task(alloc, &parts.task)?;
    Ok(Step {
        start_limit: parts.start_limit,
        allow_start_if_complete: parts.allow_start_if_complete,
        partitions: parts.partitions,
        task,
    })
}

/// Builds the `next` of an element. A decision has none.
#[tactic(auto, using(crate::proofs::Layers::step_given, crate::proofs::Layers::flow_given, crate::proofs::Layers::split_given, crate::proofs::Layers::decision_given))]
fn build_next(alloc: Global, parts: &BodyParts) -> Result<Option<T256>, JobFault>
    ensures same { IfOk result (λ built. built ≡ (content_of parts.now).next) }
    ensures short { OnOk result (is_long_option (content_of parts.now).next ≡ false) }
    ensures long { result ≡ Err JobFault.TextTooLong
        → is_long_option (content_of parts.now).next ≡ true }
    ensures fault { IfErr result IsBuildingFault }
{
    match parts {
        BodyParts::Step(step) => build_option(alloc, &step.next),
        BodyParts::Flow { next, .. } => build_option(alloc, next),
        BodyParts::Split { next, .. } => build_option(alloc, next),
        BodyParts::Decision { .. } => Ok(None),
    }
}

/// Returns the transition elements of an element. A split has none.
#[tactic(auto, using(crate::proofs::Layers::step_given, crate::proofs::Layers::flow_given, crate::proofs::Layers::split_given, crate::proofs::Layers::decision_given))]
fn transitions_in(parts: &BodyParts) -> &[TransitionParts]
    ensures { map transition_of result.now ≡ (content_of parts.now).transitions }
{
    match parts {
        BodyParts::Step(step) => step.transitions.as_slice(),
        BodyParts::Flow { transitions, .. } => transitions.as_slice(),
        BodyParts::Split { .. } => &[],
        BodyParts::Decision { transitions, .. } => transitions.as_slice(),
    }
}

#[cycle(building)]
fn build_element(alloc: Global, parts: &ElementParts) -> Result<Element, JobFault>
    ensures same { IfOk result (λ built. built ≡ element_of parts.now) }
    ensures short { OnOk result (element_has_long (element_of parts.now) ≡ false) }
    ensures long { result ≡ Err JobFault.TextTooLong
        → element_has_long (element_of parts.now) ≡ true }
    ensures fault { IfErr result IsBuildingFault }
{
    let id = build_text(alloc, parts.id.as_str())?;
    let next = build_next(alloc, &parts.body)?;
    let transitions = build_transitions(alloc, transitions_in(&parts.body))?;
    let body = build_body(alloc, &parts.body)?;
    Ok(Element {
        id,
        next,
        transitions,
        body,
    })
}

#[cycle(building)]
fn build_body(alloc: Global, parts: &BodyParts) -> Result<Body, JobFault>
    ensures same { IfOk result (λ built. built ≡ (content_of parts.now).body) }
    ensures short { OnOk result (body_has_long (content_of parts.now).body ≡ false) }
    ensures long { result ≡ Err JobFault.TextTooLong
        → body_has_long (content_of parts.now).body ≡ true }
    ensures fault { IfErr result IsBuildingFault }
{
    match parts {
        BodyParts::Step(step) => Ok(Body::Step(build_step(alloc, step)?)),
        BodyParts::Flow { elements, .. } => {
            Ok(Body::Flow(build_elements(alloc, elements.as_slice())?))
        }
        BodyParts::Split { flows, .. } => Ok(Body::Split(build_flows(alloc, flows.as_slice())?)),
        BodyParts::Decision { artifact, .. } => {
            Ok(Body::Decision {
                artifact: build_text(alloc, artifact.as_str())?,
            })
        }
    }
}

/// Builds the elements of these parts. Returns `TextTooLong` if a text has more than 256 bytes, and
/// `OutOfMemory` if memory is refused.
#[cycle(building)]
pub fn build_elements(alloc: Global, parts: &[ElementParts]) -> Result<Listed<Element>, JobFault>
    ensures same { IfOk result (λ built. built ≡ map element_of parts.now) }
    ensures short { OnOk result (any_true (map element_has_long (map element_of parts.now))
        ≡ false) }
    ensures long { result ≡ Err JobFault.TextTooLong
        → any_true (map element_has_long (map element_of parts.now)) ≡ true }
    ensures fault { IfErr result IsBuildingFault }
{
    let mut built = Vec::new(alloc);
    for element in parts {
        built.push(build_element(alloc, element)?)?;
    }
    Ok(Listed::from_vec(built))
}

#[cycle(building)]
fn build_flow(alloc: Global, parts: &SplitFlowParts) -> Result<SplitFlow, JobFault>
    ensures same { IfOk result (λ built. built ≡ flow_of parts.now) }
    ensures short { OnOk result (flow_has_long (flow_of parts.now) ≡ false) }
    ensures long { result ≡ Err JobFault.TextTooLong → flow_has_long (flow_of parts.now) ≡ true }
    ensures fault { IfErr result IsBuildingFault }
{
    let id = build_text(alloc, parts.id.as_str())?;
    let elements = build_elements(alloc, parts.elements.as_slice())?;
    Ok(SplitFlow { id, elements })
}

#[cycle(building)]
fn build_flows(alloc: Global, parts: &[SplitFlowParts]) -> Result<Listed<SplitFlow>, JobFault>
    ensures same { IfOk result (λ built. built ≡ map flow_of parts.now) }
    ensures short { OnOk result (any_true (map flow_has_long (map flow_of parts.now)) ≡ false) }
    ensures long { result ≡ Err JobFault.TextTooLong
        → any_true (map flow_has_long (map flow_of parts.now)) ≡ true }
    ensures fault { IfErr result IsBuildingFault }
{
    let mut built = Vec::new(alloc);
    for flow in parts {
        built.push(build_flow(alloc, flow)?)?;
    }
    Ok(Listed::from_vec(built))
}
