// The elements of a list in the order in which they are counted, and the steps to the one of a number.
ghost use Rattle.std.specs.Prelude.{◌≡◌, ◌++◌, ◌<◌, ◌^◌, ℕ, Bool, false, length, map, option_map, slice_get, Some, Err, IsSomeAnd, IfOk, OnOk};
ghost use Rattle.serde_json.specs.View.{view, items_view};
ghost use Rattle.json_members.specs.Members.{list_at};
ghost use Rattle.jsl_json.specs.declared.fault.ReadFault.TheVariants.{BadElement};
ghost use Rattle.jsl_json.specs.Elements.{elements_at};
ghost use Rattle.element_numbers.specs.Numbering.{key_of, IsWrong, all_in, all_inside};
ghost use Rattle.element_numbers.specs.Ways.{bare, bare_of, from_item, all_by, way_of, way_to, outside, found_of};

use batch_ids::OutOfMemory;
use json_members::{is_text, list_at};
use json_places::Step;
use serde_json::Value;
use std::alloc::Global;

/// An element of a job, or a flow of a split. Both are counted as the job's elements.
#[derive(Clone, Copy)]
pub struct Numbered<'v> {
    /// Its value.
    pub value: &'v Value,
    /// Whether it is a flow of a split.
    pub in_split: bool,
}

/// An element of a job, or a flow of a split, with the steps to it.
#[derive(Drop)]
pub struct Found<'v> {
    /// The steps, from the list of the job's elements.
    pub path: Vec<Step>,
    /// The element.
    pub numbered: Numbered<'v>,
}

/// Where the element of a number is.
#[derive(Drop)]
enum Way {
    /// At the end of these steps, which are written from the last to the first.
    Back(Vec<Step>),
    /// Further on, and has this number from there.
    Left(usize),
}

/// Adds the elements of a list, or the flows of a split, each with those inside it.
#[cycle(listing)]
fn add_all<'v>(
    list: &'v [Value],
    in_split: bool,
    all: &mut Vec<Numbered<'v>>,
) -> Result<(), OutOfMemory>
    ensures { OnOk result (map bare_of all.new.items
        ≡ map bare_of all.old.items ++ map bare (all_in in_split 0 (items_view list.now))) }
{
    for value in list {
        all.push(Numbered { value, in_split })?;
        add_inside(value, all)?;
    }
    Ok(())
}

#[cycle(listing)]
fn add_inside<'v>(value: &'v Value, all: &mut Vec<Numbered<'v>>) -> Result<(), OutOfMemory>
    ensures { OnOk result (map bare_of all.new.items
        ≡ map bare_of all.old.items ++ map bare (all_inside (view value.now))) }
{
    let flow = is_text(value, "kind", "flow");
    let split = is_text(value, "kind", "split");
    match (flow, split) {
        (true, _) => add_list(value, "elements", false, all),
        (false, true) => add_list(value, "flows", true, all),
        (false, false) => Ok(()),
    }
}

#[cycle(listing)]
fn add_list<'v>(
    value: &'v Value,
    name: &str,
    in_split: bool,
    all: &mut Vec<Numbered<'v>>,
) -> Result<(), OutOfMemory>
    ensures { OnOk result (map bare_of all.new.items ≡ map bare_of all.old.items
        ++ map bare (all_by name.now in_split (list_at name.now (view value.now)))) }
{
    match list_at(value, name) {
        Some(list) => add_all(list, in_split, all),
        None => Ok(()),
    }
}

/// Puts a step before the steps of a way.
fn outside(way: Way, step: Step) -> Result<Way, OutOfMemory>
    ensures { IfOk result (λ outer. way_of outer ≡ outside (key_of step) (way_of way)) }
{
    match way {
        Way::Back(mut back) => {
            back.push(step)?;
            Ok(Way::Back(back))
        }
        Way::Left(left) => Ok(Way::Left(left)),
    }
}

/// Finds the element of a number in a list, or inside an element of the list.
#[cycle(way)]
fn way_in(alloc: Global, list: &[Value], number: usize) -> Result<Way, OutOfMemory>
    ensures { IfOk result (λ way. (in_split : Bool)
        → way_of way ≡ way_to number (all_in in_split 0 (items_view list.now))) }
{
    let mut left = number;
    for (index, value) in list.iter().enumerate() {
        match way_at(alloc, value, index, left)? {
            Way::Back(back) => return Ok(Way::Back(back)),
            Way::Left(next) => left = next,
        }
    }
    Ok(Way::Left(left))
}

/// Finds the element of a number from the item of a list on, which has number 0.
#[cycle(way)]
fn way_at(alloc: Global, value: &Value, index: usize, number: usize) -> Result<Way, OutOfMemory>
    ensures { IfOk result (λ way. (in_split : Bool)
        → way_of way ≡ way_to number (from_item in_split index (view value.now))) }
{
    if number == 0 {
        let here = outside(Way::Back(Vec::new(alloc)), Step::Item(index))?;
        return Ok(here);
    }
    let inner = way_inside(alloc, value, number - 1)?;
    let way = outside(inner, Step::Item(index))?;
    Ok(way)
}

#[cycle(way)]
fn way_inside(alloc: Global, value: &Value, number: usize) -> Result<Way, OutOfMemory>
    ensures { IfOk result (λ way. way_of way ≡ way_to number (all_inside (view value.now))) }
{
    let flow = is_text(value, "kind", "flow");
    let split = is_text(value, "kind", "split");
    match (flow, split) {
        (true, _) => Ok(way_by(alloc, value, "elements", number)?),
        (false, true) => Ok(way_by(alloc, value, "flows", number)?),
        (false, false) => Ok(Way::Left(number)),
    }
}

#[cycle(way)]
fn way_by(alloc: Global, value: &Value, name: &str, number: usize) -> Result<Way, OutOfMemory>
    ensures { IfOk result (λ way. (in_split : Bool)
        → way_of way ≡ way_to number (all_by name.now in_split (list_at name.now (view value.now)))) }
{
    match list_at(value, name) {
        Some(list) => {
            let inner = way_in(alloc, list, number)?;
            let step = Step::Member(String::from_str(alloc, name)?);
            let way = outside(inner, step)?;
            Ok(way)
        }
        None => Ok(Way::Left(number)),
    }
}

/// Returns the elements of a list, each before those inside it. The flows of splits are among them.
///
/// The time and memory are proportional to the size of the list.
///
/// # Errors
///
/// Returns `OutOfMemory` if memory is refused.
pub fn elements_of(alloc: Global, list: &[Value]) -> Result<Vec<Numbered<'_>>, OutOfMemory>
    ensures { IfOk result (λ all. map bare_of all.items
        ≡ map bare (all_in false 0 (items_view list.now))) }
{
    let mut all = Vec::new(alloc);
    add_all(list, false, &mut all)?;
    Ok(all)
}

fn found_at<'v>(
    alloc: Global,
    list: &'v [Value],
    number: usize,
) -> Result<Option<Found<'v>>, OutOfMemory>
    ensures element { IfOk result (λ found. option_map found_of found
        ≡ slice_get (all_in false 0 (items_view list.now)) number) }
    ensures few { IfOk result (λ found. length (all_in false 0 (items_view list.now)) < 2 ^ 64) }
{
    let all = elements_of(alloc, list)?;
    if number >= all.len() {
        return Ok(None);
    }
    let numbered = all[number];
    match way_in(alloc, list, number)? {
        Way::Back(back) => {
            let mut path = back;
            path.reverse();
            Ok(Some(Found { path, numbered }))
        }
        Way::Left(_) => Ok(None),
    }
}

/// Finds the element of this number among the elements of a list and those inside them. Returns
/// `None` if there are not so many. The number in a fault of `read_catalogue` is that of an element
/// whose own members are wrong.
///
/// The time and memory are proportional to the size of the list.
///
/// # Errors
///
/// Returns `OutOfMemory` if memory is refused.
pub fn element_of_number<'v>(
    alloc: Global,
    list: &'v [Value],
    number: usize,
) -> Result<Option<Found<'v>>, OutOfMemory>
    ensures element { IfOk result (λ found. option_map found_of found
        ≡ slice_get (all_in false 0 (items_view list.now)) number) }
    ensures fault { IfOk result (λ found. (job : ℕ)
        → elements_at job (items_view list.now) 0 ≡ Err (BadElement job (Some number))
        → IsSomeAnd found (λ element. IsWrong (found_of element))) }
    ensures few { IfOk result (λ found. length (all_in false 0 (items_view list.now)) < 2 ^ 64) }
{
    let found = found_at(alloc, list, number)?;
    Ok(found)
}
