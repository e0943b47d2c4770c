ghost use Rattle.std.specs.Prelude.{◌≡◌, ◌++◌, map, IfOk, OnOk};
ghost use Rattle.jsl_model.specs.Targets.{outline, lists_of, lists_inside};

use crate::element::{Body, Element};
use batch_ids::OutOfMemory;
use std::alloc::Global;

/// Returns all lists of a job in written order: this list, and then the lists inside its elements.
/// It takes time proportional to the number of elements at all depths, and memory proportional to
/// the number of lists. Returns `OutOfMemory` if memory is refused.
pub fn lists_in<'a>(
    alloc: Global,
    elements: &'a [Element],
) -> Result<Vec<&'a [Element]>, OutOfMemory>
    ensures { IfOk result (λ lists. map (λ list. outline list.now) lists.items
        ≡ lists_of elements.now) }
{
    let mut lists = Vec::new(alloc);
    add_lists(&mut lists, elements)?;
    Ok(lists)
}

#[cycle(listing)]
fn add_lists<'a>(lists: &mut Vec<&'a [Element]>, elements: &'a [Element]) -> Result<(), OutOfMemory>
    ensures { OnOk result (map (λ list. outline list.now) lists.new.items
        ≡ map (λ list. outline list.now) lists.old.items ++ lists_of elements.now) }
{
    lists.push(elements)?;
    for element in elements {
        add_inside(lists, element)?;
    }
    Ok(())
}

#[cycle(listing)]
fn add_inside<'a>(lists: &mut Vec<&'a [Element]>, element: &'a Element) -> Result<(), OutOfMemory>
    ensures { OnOk result (map (λ list. outline list.now) lists.new.items
        ≡ map (λ list. outline list.now) lists.old.items ++ lists_inside element.now) }
{
    match &element.body {
        Body::Step(_) => Ok(()),
        Body::Decision { artifact: _ } => Ok(()),
        Body::Flow(elements) => add_lists(lists, elements.as_slice()),
        Body::Split(flows) => {
            for flow in flows.as_slice() {
                add_lists(lists, flow.elements.as_slice())?;
            }
            Ok(())
        }
    }
}
