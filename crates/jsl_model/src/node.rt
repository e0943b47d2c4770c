ghost use Rattle.std.specs.Prelude.{◌≡◌, ◌++◌, map, OnOk, IfOk};
ghost use Rattle.jsl_model.specs.Trees.{joined, nodes, nodes_of, in_body, nodes_of_flow};
ghost use Rattle.jsl_model.specs.Nodes.{node};

use crate::element::{Body, Element, SplitFlow, Transition};
use batch_ids::OutOfMemory;
use std::alloc::Global;

/// An element, or a flow of a split, without its contents.
#[derive(Clone, Copy)]
pub struct Node<'a> {
    pub id: &'a str,
    pub transitions: &'a [Transition],
    /// The element's body. A flow of a split has none.
    pub body: Option<&'a Body>,
}

/// Returns all elements of a list at all depths, flows of splits included, in written order.
pub fn nodes_in(alloc: Global, elements: &[Element]) -> Result<Vec<Node<'_>>, OutOfMemory>
    ensures { IfOk result (λ found. map node found.items ≡ nodes elements.now) }
{
    let mut found = Vec::new(alloc);
    add_all(elements, &mut found)?;
    Ok(found)
}

#[cycle(adding)]
fn add_element<'a>(element: &'a Element, found: &mut Vec<Node<'a>>) -> Result<(), OutOfMemory>
    ensures { OnOk result (map node found.new.items
        ≡ map node found.old.items ++ nodes_of element.now) }
{
    found.push(Node {
        id: element.id.as_str(),
        transitions: element.transitions.as_slice(),
        body: Some(&element.body),
    })?;
    add_inside(&element.body, found)
}

#[cycle(adding)]
fn add_inside<'a>(body: &'a Body, found: &mut Vec<Node<'a>>) -> Result<(), OutOfMemory>
    ensures { OnOk result (map node found.new.items
        ≡ map node found.old.items ++ (in_body body.now).nodes) }
{
    match body {
        Body::Step(_) => Ok(()),
        Body::Flow(elements) => add_all(elements.as_slice(), found),
        Body::Split(flows) => add_flows(flows.as_slice(), found),
        Body::Decision { .. } => Ok(()),
    }
}

#[cycle(adding)]
fn add_all<'a>(elements: &'a [Element], found: &mut Vec<Node<'a>>) -> Result<(), OutOfMemory>
    ensures { OnOk result (map node found.new.items
        ≡ map node found.old.items ++ nodes elements.now) }
{
    for element in elements {
        add_element(element, found)?;
    }
    Ok(())
}

#[cycle(adding)]
fn add_flows<'a>(flows: &'a [SplitFlow], found: &mut Vec<Node<'a>>) -> Result<(), OutOfMemory>
    ensures { OnOk result (map node found.new.items
        ≡ map node found.old.items ++ joined (map nodes_of_flow flows.now)) }
{
    for flow in flows {
        found.push(Node {
            id: flow.id.as_str(),
            transitions: &[],
            body: None,
        })?;
        add_all(flow.elements.as_slice(), found)?;
    }
    Ok(())
}
