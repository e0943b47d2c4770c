ghost use Rattle.std.specs.Prelude.{◌≡◌, map, nat_lt};
ghost use Rattle.jsl_model.specs.Trees.{greatest, depth, depth_of_body, depth_of_flow};

use crate::element::{Body, Element, SplitFlow};

#[cycle(depth)]
fn is_body_deeper(body: &Body, most: usize) -> bool
    ensures { result ≡ nat_lt most (depth_of_body body.now) }
{
    match body {
        Body::Step(_) => false,
        Body::Flow(elements) => is_deeper(elements.as_slice(), most),
        Body::Split(flows) => are_flows_deeper(flows.as_slice(), most),
        Body::Decision { .. } => false,
    }
}

/// Checks whether an element is deeper than `most` levels. Level 1 has the elements of this list.
/// It looks no deeper than `most` levels.
#[cycle(depth)]
pub fn is_deeper(elements: &[Element], most: usize) -> bool
    ensures { result ≡ nat_lt most (depth elements.now) }
{
    for element in elements {
        if most == 0 || is_body_deeper(&element.body, most - 1) {
            return true;
        }
    }
    false
}

#[cycle(depth)]
fn are_flows_deeper(flows: &[SplitFlow], most: usize) -> bool
    ensures { result ≡ nat_lt most (greatest (map depth_of_flow flows.now)) }
{
    for flow in flows {
        if most == 0 || is_deeper(flow.elements.as_slice(), most - 1) {
            return true;
        }
    }
    false
}
