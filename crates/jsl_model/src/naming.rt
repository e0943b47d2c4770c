ghost use Rattle.std.specs.Prelude.{◌≡◌, ◌++◌, map, OnOk, IfOk};
ghost use Rattle.jsl_model.specs.Nodes.{node};
ghost use Rattle.jsl_model.specs.Trees.{in_body, task_artifacts};
ghost use Rattle.jsl_model.specs.Targets.{outline, ids};
ghost use Rattle.jsl_model.specs.Faults.{node_ids, restarts, restarts_in};

use crate::element::{Body, Element, Task, Then, Transition};
use crate::node::Node;
use batch_ids::OutOfMemory;
use std::alloc::Global;

/// Returns the ids of these nodes.
pub fn ids_of<'a>(alloc: Global, nodes: &[Node<'a>]) -> Result<Vec<&'a str>, OutOfMemory>
    ensures { IfOk result (λ found. map (λ id. id.now) found.items
        ≡ node_ids (map node nodes.now)) }
{
    let mut ids = Vec::new(alloc);
    for node in nodes {
        ids.push(node.id)?;
    }
    Ok(ids)
}

/// Returns the ids of a list's own elements.
pub fn own_ids(alloc: Global, elements: &[Element]) -> Result<Vec<&str>, OutOfMemory>
    ensures { IfOk result (λ found. map (λ id. id.now) found.items ≡ ids (outline elements.now)) }
{
    let mut ids = Vec::new(alloc);
    for element in elements {
        ids.push(element.id.as_str())?;
    }
    Ok(ids)
}

/// Returns the ids of the elements at which restarts begin, as all transition elements of these
/// nodes name them.
pub fn restarts_of<'a>(alloc: Global, nodes: &[Node<'a>]) -> Result<Vec<&'a str>, OutOfMemory>
    ensures { IfOk result (λ found. map (λ id. id.now) found.items
        ≡ restarts (map node nodes.now)) }
{
    let mut found = Vec::new(alloc);
    for node in nodes {
        add_restarts(node.transitions, &mut found)?;
    }
    Ok(found)
}

fn add_restarts<'a>(
    transitions: &'a [Transition],
    found: &mut Vec<&'a str>,
) -> Result<(), OutOfMemory>
    ensures { OnOk result (map (λ id. id.now) found.new.items
        ≡ map (λ id. id.now) found.old.items ++ restarts_in transitions.now) }
{
    for transition in transitions {
        if let Then::Stop {
            restart: Some(restart),
            ..
        } = &transition.then
        {
            found.push(restart.as_str())?;
        }
    }
    Ok(())
}

/// Adds the names of the artifacts that a body itself names.
pub fn add_artifacts<'a>(body: &'a Body, found: &mut Vec<&'a str>) -> Result<(), OutOfMemory>
    ensures { OnOk result (map (λ name. name.now) found.new.items
        ≡ map (λ name. name.now) found.old.items ++ (in_body body.now).artifacts) }
{
    match body {
        Body::Step(step) => add_task(&step.task, found),
        Body::Flow(_) => Ok(()),
        Body::Split(_) => Ok(()),
        Body::Decision { artifact } => {
            found.push(artifact.as_str())?;
            Ok(())
        }
    }
}

fn add_task<'a>(task: &'a Task, found: &mut Vec<&'a str>) -> Result<(), OutOfMemory>
    ensures { OnOk result (map (λ name. name.now) found.new.items
        ≡ map (λ name. name.now) found.old.items ++ task_artifacts task.now) }
{
    match task {
        Task::Batchlet { artifact } => {
            found.push(artifact.as_str())?;
        }
        Task::Chunk {
            reader,
            processor,
            writer,
            ..
        } => {
            found.push(reader.as_str())?;
            if let Some(processor) = processor {
                found.push(processor.as_str())?;
            }
            found.push(writer.as_str())?;
        }
    }
    Ok(())
}
