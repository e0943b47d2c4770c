//! Jobs that are made of parts.
use anyhow::{Result, bail};
use batch_ids::Listed;
use call_lines::{Line, told};
use jsl_model::{
    BodyParts, ElementParts, Job, JobParts, StepParts, TaskParts, ThenParts, TransitionParts,
};
use std::alloc::{AllocError, Global};

/// A job of two steps, of which the second may be inside flows.
#[derive(Clone, Copy)]
struct Shape {
    /// The id of the first step. The second one is `t`.
    id: &'static str,
    /// The target of the first step.
    next: &'static str,
    /// The restart point of the first step's stop.
    restart: &'static str,
    /// The number of flows around the second step.
    flows: u32,
    /// The item count of both steps.
    item_count: u32,
    /// The number of partitions of both steps.
    partitions: u32,
}

/// A job without a fault.
const FAULTLESS: Shape = Shape {
    id: "s",
    next: "t",
    restart: "t",
    flows: 0,
    item_count: 2,
    partitions: 3,
};

const LONG: &str =
    "0123456789abcdef0123456789abcdef0123456789abcdef0123456789abcdef0123456789abcdef0123456789abcdef0123456789abcdef0123456789abcdef0123456789abcdef0123456789abcdef0123456789abcdef0123456789abcdef0123456789abcdef0123456789abcdef0123456789abcdef0123456789abcdef+";

/// Returns the job without a fault, or the one with the fault of this name.
fn shape_of(name: &str) -> Option<Shape> {
    let mut shape = FAULTLESS;
    match name {
        "faultless" => {}
        "in_flows" => {
            shape.flows = 2;
            shape.next = "f";
            shape.restart = "f";
        }
        "TextTooLong" => shape.id = LONG,
        "Empty" => shape.item_count = 0,
        "TooDeep" => {
            shape.flows = 16;
            shape.next = "f";
            shape.restart = "f";
        }
        "TooMany" => shape.partitions = 65,
        "DuplicateId" => shape.id = "t",
        "NoSuchTarget" => shape.next = "u",
        "Loop" => shape.next = "s",
        "RestartNotJobLevel" => shape.restart = "u",
        _ => return None,
    }
    Some(shape)
}

fn step(alloc: Global, id: &str, shape: &Shape) -> Result<(String, StepParts), AllocError> {
    let task = TaskParts::Chunk {
        reader: String::from_str(alloc, "count:5")?,
        processor: Some(String::from_str(alloc, "odd")?),
        writer: String::from_str(alloc, "sink")?,
        item_count: shape.item_count,
    };
    let parts = StepParts {
        next: None,
        transitions: Listed::new(alloc),
        start_limit: 0,
        allow_start_if_complete: false,
        partitions: Some(shape.partitions),
        task,
    };
    Ok((String::from_str(alloc, id)?, parts))
}

/// Returns the first step, with its target and its stop.
fn first(alloc: Global, shape: &Shape) -> Result<ElementParts, AllocError> {
    let (id, mut parts) = step(alloc, shape.id, shape)?;
    parts.next = Some(String::from_str(alloc, shape.next)?);
    parts.transitions.push(TransitionParts {
        on: String::from_str(alloc, "STOP*")?,
        then: ThenParts::Stop {
            exit_status: None,
            restart: Some(String::from_str(alloc, shape.restart)?),
        },
    })?;
    Ok(ElementParts {
        id,
        body: BodyParts::Step(parts),
    })
}

/// Returns a flow of this element.
fn flow(alloc: Global, id: &str, element: ElementParts) -> Result<ElementParts, AllocError> {
    let mut elements = Listed::new(alloc);
    elements.push(element)?;
    Ok(ElementParts {
        id: String::from_str(alloc, id)?,
        body: BodyParts::Flow {
            next: None,
            transitions: Listed::new(alloc),
            elements,
        },
    })
}

/// Returns the second step, inside its flows. The outermost one is `f`.
fn second(alloc: Global, shape: &Shape) -> Result<ElementParts, AllocError> {
    let (id, parts) = step(alloc, "t", shape)?;
    let mut element = ElementParts {
        id,
        body: BodyParts::Step(parts),
    };
    for number in 0..shape.flows {
        let id = if number + 1 == shape.flows { "f" } else { "g" };
        element = flow(alloc, id, element)?;
    }
    Ok(element)
}

fn parts(alloc: Global, id: &str, shape: &Shape) -> Result<JobParts, AllocError> {
    let mut elements = Listed::new(alloc);
    elements.push(first(alloc, shape)?)?;
    elements.push(second(alloc, shape)?)?;
    Ok(JobParts {
        id: String::from_str(alloc, id)?,
        restartable: true,
        elements,
    })
}

/// Returns a job without a fault.
pub(crate) fn job(alloc: Global, id: &str) -> Result<Job> {
    Ok(Job::check(alloc, parts(alloc, id, &FAULTLESS)?)?)
}

/// Checks the job that a line names.
pub fn run_job<R: Print + AllocGlobal>(rt: &R, line: Line<'_>) -> Result<()> {
    let Some(shape) = shape_of(line.text) else {
        bail!("no job is called {}", line.text);
    };
    let given = parts(rt.alloc(), "night", &shape)?;
    told!(rt, line, Job::check(rt.alloc(), given))
}
