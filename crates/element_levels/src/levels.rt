// The elements of a list in the order in which they are counted, each by the steps of its path.
ghost use Rattle.std.specs.Prelude.{◌≡◌, ◌++◌, ◌-◌, Bool, false, map, IfOk, OnOk};
ghost use Rattle.serde_json.specs.View.{view, items_view};
ghost use Rattle.json_members.specs.Members.{list_at};
ghost use Rattle.element_numbers.specs.Numbering.{all_in, all_inside};
ghost use Rattle.element_numbers.specs.Ways.{all_by};
ghost use Rattle.element_levels.specs.Levels.{steps_left};

use batch_ids::OutOfMemory;
use json_members::{is_text, list_at};
use serde_json::Value;
use std::alloc::Global;

fn one_less(left: u64) -> u64
    ensures { result ≡ left - 1 }
{
    left.saturating_sub(1)
}

/// Adds the elements of a list, or the flows of a split, each with those inside it.
#[cycle(levels)]
fn add_all(list: &[Value], left: u64, all: &mut Vec<u64>) -> Result<(), OutOfMemory>
    ensures { (in_split : Bool) → OnOk result (all.new.items
        ≡ all.old.items ++ map (steps_left left) (all_in in_split 0 (items_view list.now))) }
{
    let inner = one_less(left);
    for value in list {
        all.push(inner)?;
        add_inside(value, inner, all)?;
    }
    Ok(())
}

#[cycle(levels)]
fn add_inside(value: &Value, left: u64, all: &mut Vec<u64>) -> Result<(), OutOfMemory>
    ensures { OnOk result (all.new.items
        ≡ all.old.items ++ map (steps_left left) (all_inside (view value.now))) }
{
    let flow = is_text(value, "kind", "flow");
    let split = is_text(value, "kind", "split");
    match (flow, split) {
        (true, _) => add_list(value, "elements", left, all),
        (false, true) => add_list(value, "flows", left, all),
        (false, false) => Ok(()),
    }
}

#[cycle(levels)]
fn add_list(value: &Value, name: &str, left: u64, all: &mut Vec<u64>) -> Result<(), OutOfMemory>
    ensures { (in_split : Bool) → OnOk result (all.new.items ≡ all.old.items
        ++ map (steps_left left) (all_by name.now in_split (list_at name.now (view value.now)))) }
{
    match list_at(value, name) {
        Some(list) => add_all(list, one_less(left), all),
        None => Ok(()),
    }
}

/// Returns for each element of a list, and for each one inside it, how many steps fewer than `most`
/// its path from the list has, or 0 if it has more. They are in the order in which they are counted.
/// An element of the list has a path of one step, and one inside it of two steps more.
///
/// The time is proportional to the size of the list.
///
/// # Errors
///
/// Returns `OutOfMemory` if memory is refused.
pub fn steps_left(alloc: Global, list: &[Value], most: u64) -> Result<Vec<u64>, OutOfMemory>
    ensures { IfOk result (λ all. all.items
        ≡ map (steps_left most) (all_in false 0 (items_view list.now))) }
{
    let mut all = Vec::new(alloc);
    add_all(list, most, &mut all)?;
    Ok(all)
}
