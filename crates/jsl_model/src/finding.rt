ghost use Rattle.std.specs.Prelude.{◌≡◌, find, option_copied};
ghost use Rattle.std.specs.List.{flat_map};
ghost use Rattle.std.specs.Str.{bytes_eq};
ghost use Rattle.jsl_model.specs.Trees.{all_elements, elements_in_body, elements_in_flow};

use crate::element::{Body, Element, SplitFlow};

/// Returns the first element with this id, at any depth.
#[cycle(finding)]
#[tactic(auto, using(crate::proofs::Opening::in_step, crate::proofs::Opening::in_flow, crate::proofs::Opening::in_split, crate::proofs::Opening::in_decision, crate::proofs::Opening::in_split_flow))]
pub fn find_element<'a>(elements: &'a [Element], id: &str) -> Option<&'a Element>
    ensures { option_copied result
        ≡ find (λ element. bytes_eq element.id id.now) (all_elements elements.now) }
{
    for element in elements {
        if element.id.as_str() == id {
            return Some(element);
        }
        let inside = find_in_body(&element.body, id);
        if inside.is_some() {
            return inside;
        }
    }
    None
}

#[cycle(finding)]
#[tactic(auto, using(crate::proofs::Opening::in_step, crate::proofs::Opening::in_flow, crate::proofs::Opening::in_split, crate::proofs::Opening::in_decision, crate::proofs::Opening::in_split_flow))]
fn find_in_body<'a>(body: &'a Body, id: &str) -> Option<&'a Element>
    ensures { option_copied result
        ≡ find (λ element. bytes_eq element.id id.now) (elements_in_body body.now) }
{
    match body {
        Body::Step(_) => None,
        Body::Flow(elements) => find_element(elements.as_slice(), id),
        Body::Split(flows) => find_in_flows(flows.as_slice(), id),
        Body::Decision { .. } => None,
    }
}

#[cycle(finding)]
#[tactic(auto, using(crate::proofs::Opening::in_step, crate::proofs::Opening::in_flow, crate::proofs::Opening::in_split, crate::proofs::Opening::in_decision, crate::proofs::Opening::in_split_flow))]
fn find_in_flows<'a>(flows: &'a [SplitFlow], id: &str) -> Option<&'a Element>
    ensures { option_copied result
        ≡ find (λ element. bytes_eq element.id id.now) (flat_map elements_in_flow flows.now) }
{
    for flow in flows {
        let inside = find_element(flow.elements.as_slice(), id);
        if inside.is_some() {
            return inside;
        }
    }
    None
}
