// The object of a job that is wrong, with the steps to it.
ghost use Rattle.std.specs.Prelude.{◌≡◌, ◌++◌, ◌∷◌, [], reverse, IfOk, IfSome};
ghost use Rattle.serde_json.specs.Data.{array};
ghost use Rattle.serde_json.specs.View.{view, items_view};
ghost use Rattle.catalogue_places.specs.Paths.{IsFlawed, Reaches, ReachesFrom};

use crate::elements::element_spot;
use crate::flaws::{Inside, Spot};
use crate::objects::split_flow_flaw;
use batch_ids::OutOfMemory;
use json_members::list_at;
use json_places::Step;
use serde_json::Value;
use std::alloc::Global;

/// The flaw of an element, or of a flow of a split.
#[derive(Debug, Drop)]
pub struct ElementFlaw {
    /// The steps to the element or flow, from the list in which it was looked for.
    pub path: Vec<Step>,
    /// Its flaw.
    pub spot: Spot,
}

/// A flaw inside a list of elements or flows, and the steps to its element from the last to the
/// first.
#[derive(Debug, Drop)]
struct Wrong {
    back: Vec<Step>,
    spot: Spot,
}

fn object_spot(value: &Value, in_split: bool) -> Option<Spot>
    ensures { IfSome result (λ spot. IsFlawed (view value.now) spot) }
{
    if in_split {
        match split_flow_flaw(value) {
            Some(flaw) => Some(Spot {
                inside: Inside::Own,
                flaw,
            }),
            None => None,
        }
    } else {
        element_spot(value)
    }
}

/// Makes the fault of the item of this number, which has no steps yet.
fn at_item(alloc: Global, index: usize, spot: Spot) -> Result<Wrong, OutOfMemory>
    ensures { IfOk result (λ wrong. (wrong.back.items ≡ Step.Item index ∷ []) × (wrong.spot ≡ spot)) }
{
    let mut back = Vec::new(alloc);
    back.push(Step::Item(index))?;
    Ok(Wrong { back, spot })
}

/// Puts the steps to a list, which is this member of the item of this number, before the steps of a
/// fault inside the list.
fn outside(wrong: Wrong, name: String, index: usize) -> Result<Wrong, OutOfMemory>
    ensures { IfOk result (λ outer. (outer.spot ≡ wrong.spot)
        × (outer.back.items ≡ wrong.back.items ++ Step.Member name ∷ Step.Item index ∷ [])) }
{
    let Wrong { mut back, spot } = wrong;
    back.push(Step::Member(name))?;
    back.push(Step::Item(index))?;
    Ok(Wrong { back, spot })
}

/// Finds the first element or flow of a list that is wrong, in written order. An element's own
/// members come before the elements inside it.
#[cycle(search)]
fn wrong_in(alloc: Global, list: &[Value], in_split: bool) -> Result<Option<Wrong>, OutOfMemory>
    ensures { IfOk result (λ found. IfSome found
        (λ wrong. Reaches (reverse wrong.back.items) (array (items_view list.now)) wrong.spot)) }
{
    for (index, value) in list.iter().enumerate() {
        if let Some(spot) = object_spot(value, in_split) {
            return Ok(Some(at_item(alloc, index, spot)?));
        }
        if let Some(wrong) = wrong_inside(alloc, value, index)? {
            return Ok(Some(wrong));
        }
    }
    Ok(None)
}

#[cycle(search)]
fn wrong_inside(alloc: Global, value: &Value, index: usize) -> Result<Option<Wrong>, OutOfMemory>
    ensures { IfOk result (λ found. IfSome found
        (λ wrong. ReachesFrom index (reverse wrong.back.items) (view value.now) wrong.spot)) }
{
    if let Some(elements) = list_at(value, "elements") {
        return match wrong_in(alloc, elements, false)? {
            Some(wrong) => {
                let name = String::from_str(alloc, "elements")?;
                Ok(Some(outside(wrong, name, index)?))
            }
            None => Ok(None),
        };
    }
    if let Some(flows) = list_at(value, "flows") {
        return match wrong_in(alloc, flows, true)? {
            Some(wrong) => {
                let name = String::from_str(alloc, "flows")?;
                Ok(Some(outside(wrong, name, index)?))
            }
            None => Ok(None),
        };
    }
    Ok(None)
}

/// Finds the first element of a list, or of the lists inside it, that has a flaw of its own, and
/// the steps to it from the list. Elements are looked at in written order, each one before those
/// inside it. Returns `None` if no flaw is found.
///
/// # Errors
///
/// Returns `OutOfMemory` if memory is refused.
pub fn flaw_of_elements(alloc: Global, list: &[Value]) -> Result<Option<ElementFlaw>, OutOfMemory>
    ensures { IfOk result (λ found. IfSome found
        (λ flaw. Reaches flaw.path.items (array (items_view list.now)) flaw.spot)) }
{
    match wrong_in(alloc, list, false)? {
        Some(wrong) => {
            let Wrong { back, spot } = wrong;
            let mut path = back;
            path.reverse();
            Ok(Some(ElementFlaw { path, spot }))
        }
        None => Ok(None),
    }
}
