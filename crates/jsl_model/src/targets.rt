ghost use Rattle.std.specs.Prelude.{◌≡◌, ℕ, List, ◌++◌, false, length, map, All, IfOk, OnOk, bytes_eq};
ghost use Rattle.std.specs.HashMap as hash;
ghost use Rattle.std.specs.List.{filter_map, list_any};
ghost use Rattle.jsl_model.specs.Targets.{item_of, outline, ids, targets_in, lacks_target, place_in, graph_of, has_loop, HasRanks};

use crate::element::{Element, Then};
use crate::names::are_among;
use crate::naming::own_ids;
use batch_ids::OutOfMemory;
use std::alloc::Global;
use std::collections::HashMap;
use target_graph::{Graph, ranks};

/// Checks whether a `next` or `to`, in one of these lists, is the id of no element of its list
/// (Jakarta Batch 2.1, "Job Specification Language"). It takes time about proportional to the
/// number of elements and targets. Returns `OutOfMemory` if memory is refused.
pub fn lacks_some_target(alloc: Global, lists: &[&[Element]]) -> Result<bool, OutOfMemory>
    ensures { IfOk result (λ lacks. lacks
        ≡ list_any lacks_target (map (λ list. outline list.now) lists.now)) }
{
    for list in lists {
        if lacks_target(alloc, *list)? {
            return Ok(true);
        }
    }
    Ok(false)
}

/// Checks whether the targets of `next` and `to` form a cycle in one of these lists (Jakarta Batch
/// 2.1, "Job Specification Language"). If two elements of a list have the same id, the first of
/// them is the target. It takes time about proportional to the number of elements and targets, and
/// a call stack as deep as a list has elements. Returns `OutOfMemory` if memory is refused.
pub fn has_some_loop(alloc: Global, lists: &[&[Element]]) -> Result<bool, OutOfMemory>
    ensures same { IfOk result (λ loops. loops
        ≡ list_any has_loop (map (λ list. outline list.now) lists.now)) }
    ensures ranked { IfOk result (λ loops. loops ≡ false
        → All HasRanks (map (λ list. outline list.now) lists.now)) }
{
    for list in lists {
        if has_loop(alloc, *list)? {
            return Ok(true);
        }
    }
    Ok(false)
}

fn lacks_target(alloc: Global, elements: &[Element]) -> Result<bool, OutOfMemory>
    ensures { IfOk result (λ lacks. lacks ≡ lacks_target (outline elements.now)) }
{
    let ids = own_ids(alloc, elements)?;
    let targets = targets_of(alloc, elements)?;
    Ok(!are_among(alloc, &targets, &ids)?)
}

// Returns the ids that the elements of a list name.
fn targets_of(alloc: Global, elements: &[Element]) -> Result<Vec<&str>, OutOfMemory>
    ensures { IfOk result (λ found. map (λ name. name.now) found.items
        ≡ targets_in (outline elements.now)) }
{
    let mut targets = Vec::new(alloc);
    for element in elements {
        add_targets(&mut targets, element)?;
    }
    Ok(targets)
}

fn has_loop(alloc: Global, elements: &[Element]) -> Result<bool, OutOfMemory>
    ensures same { IfOk result (λ loops. loops ≡ has_loop (outline elements.now)) }
    ensures ranked { IfOk result (λ loops. loops ≡ false → HasRanks (outline elements.now)) }
{
    let graph = graph_of(alloc, elements)?;
    let found = ranks(alloc, &graph)?;
    Ok(found.is_none())
}

fn graph_of(alloc: Global, elements: &[Element]) -> Result<Graph, OutOfMemory>
    ensures { IfOk result (λ graph. graph ≡ graph_of (outline elements.now)) }
{
    let places = places_of(alloc, elements)?;
    let mut graph = Vec::new(alloc);
    for element in elements {
        let mut targets = Vec::new(alloc);
        add_targets(&mut targets, element)?;
        graph.push(places_in(alloc, &places, &targets)?)?;
    }
    Ok(Graph::new(graph))
}

// Adds the ids that an element names.
fn add_targets<'a>(targets: &mut Vec<&'a str>, element: &'a Element) -> Result<(), OutOfMemory>
    ensures { OnOk result (map (λ name. name.now) targets.new.items
        ≡ map (λ name. name.now) targets.old.items ++ (item_of element.now).targets) }
{
    if let Some(next) = &element.next {
        targets.push(next.as_str())?;
    }
    for transition in element.transitions.as_slice() {
        if let Then::Next { to } = &transition.then {
            targets.push(to.as_str())?;
        }
    }
    Ok(())
}

// Returns the index of the first element with each id.
fn places_of<'a>(
    alloc: Global,
    elements: &'a [Element],
) -> Result<HashMap<&'a str, usize>, OutOfMemory>
    ensures { IfOk result (λ places. (q : List ℕ) → hash.get_by (λ key. bytes_eq q key.now) places
        ≡ place_in (ids (outline elements.now)) q) }
{
    let mut places = HashMap::new(alloc);
    for (place, element) in elements.iter().enumerate() {
        places.entry(element.id.as_str())?.or_insert(place);
    }
    Ok(places)
}

// Returns the indices of the names that are in the map.
fn places_in<'a>(
    alloc: Global,
    places: &HashMap<&'a str, usize>,
    names: &[&'a str],
) -> Result<Vec<usize>, OutOfMemory>
    ensures { IfOk result (λ found. found.items
        ≡ filter_map (λ name. hash.get_by (λ key. bytes_eq name.now key.now) places.now)
        names.now) }
{
    let mut found = Vec::new(alloc);
    for name in names {
        if let Some(place) = places.get(*name) {
            found.push(*place)?;
        }
    }
    Ok(found)
}
