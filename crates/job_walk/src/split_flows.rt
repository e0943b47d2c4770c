//! The stored lists of a split's flows, and the flow that shows a work key.
ghost use Rattle.std.specs.Prelude.{◌≡◌, ◌<◌, ◌≤◌, true, length, map, take, IfOk, slice_index_or, slice_set};
ghost use Rattle.jsl_model.specs.Trees.{joined};
ghost use Rattle.walk_rules.specs.declared.facts.Fact.{Fact as AFact};
ghost use Rattle.jsl_model.specs.declared.element.SplitFlow.{SplitFlow};
ghost use Rattle.walk_rules.specs.declared.work_key.WorkKey.{WorkKey as Key};
ghost use Rattle.walk_rules.specs.Shown.{is_shown};
ghost use Rattle.walk_rules.specs.Walk.{split_result};
ghost use Rattle.job_walk.specs.declared.kept_list.KeptList.{KeptList as Kept};
ghost use Rattle.job_walk.specs.KeptLists.{KeepsFlows, ShowsInFlow, kept_flow, value_kept, lists_in};

use crate::kept_list::KeptList;
use batch_ids::{OutOfMemory, T256};
use jsl_model::{ElementIndex, SplitFlow};
use std::alloc::Global;
use walk_rules::{ElementResult, Value, WorkKey, has_key, split_result_of};

/// The most levels of elements, one inside another.
const MOST_LEVELS: u32 = 16;

/// The number of flows up to which a look at each flow is as fast as the job's index. The index is
/// asked once for each level in between.
const FEW_FLOWS: usize = 8;

/// Checks whether a value shows this work key as ready or busy.
fn shows(value: &Value, key: &WorkKey) -> bool
    ensures { result ≡ is_shown value.now key.now }
{
    match value {
        Value::Open { ready, busy } => has_key(ready.as_slice(), key)
            || has_key(busy.as_slice(), key),
        Value::Done { .. } => false,
        Value::Ended { .. } => false,
    }
}

/// Returns the list with this number.
fn list_at(lists: &[KeptList], number: usize) -> &KeptList
    requires { number < length lists.now }
    ensures { (d : Kept) → result.now ≡ slice_index_or lists.now number d }
{
    &lists[number]
}

/// Returns the number of stored lists of a split's flows before this place.
pub(crate) fn lists_before(lists: &[KeptList], flows: &[SplitFlow], place: usize) -> usize
    requires kept { (facts : Key → AFact) × KeepsFlows facts flows.now lists.now }
    requires within { place ≤ length flows.now }
    ensures { (facts : Key → AFact) → KeepsFlows facts flows.now lists.now
        → result ≡ length (joined (map (λ flow. lists_in (kept_flow facts flow)) (take place flows.now))) }
{
    let mut start = 0;
    for before in 0..place {
        start += list_at(lists, start).size;
    }
    start
}

/// Returns the value of each flow of a split, with `comes_to` as the value of the changed one.
fn flow_values<'v>(
    alloc: Global,
    lists: &'v [KeptList],
    flows: &[SplitFlow],
    changed: usize,
    comes_to: &'v Value,
) -> Result<Vec<&'v Value>, OutOfMemory>
    requires { (facts : Key → AFact) × KeepsFlows facts flows.now lists.now }
    ensures { (facts : Key → AFact) → KeepsFlows facts flows.now lists.now → IfOk result (λ values.
        map (λ value. value.now) values.items
        ≡ slice_set (map (λ flow. value_kept (kept_flow facts flow)) flows.now) changed comes_to.now) }
{
    let mut values = Vec::with_capacity(alloc, flows.len())?;
    let mut start = 0;
    for place in 0..flows.len() {
        let kept = list_at(lists, start);
        let value = if place == changed {
            comes_to
        } else {
            &kept.progress.value
        };
        values.push_reserved(value);
        start += kept.size;
    }
    Ok(values)
}

/// Returns a split's own result, with `comes_to` as the value of its changed flow.
pub(crate) fn split_after(
    alloc: Global,
    lists: &[KeptList],
    flows: &[SplitFlow],
    changed: usize,
    comes_to: &Value,
) -> Result<ElementResult, OutOfMemory>
    requires { (facts : Key → AFact) × KeepsFlows facts flows.now lists.now }
    ensures { (facts : Key → AFact) → KeepsFlows facts flows.now lists.now → IfOk result (λ made.
        made ≡ split_result (slice_set (map (λ flow. value_kept (kept_flow facts flow)) flows.now)
        changed comes_to.now)) }
{
    let values = flow_values(alloc, lists, flows, changed, comes_to)?;
    split_result_of(alloc, values.as_slice())
}

/// Returns the flow of a split in which the job's index has an element. Returns `None` if the index
/// has it in none of them, or if the flows are few.
fn indexed_flow(index: &ElementIndex, split: &T256, many: usize, id: &T256) -> Option<usize> {
    if many <= FEW_FLOWS {
        return None;
    }
    let mut outer = index.outer_of(id)?;
    for level in 0..MOST_LEVELS {
        if outer.id == *split {
            return Some(outer.flow);
        }
        outer = index.outer_of(&outer.id)?;
    }
    None
}

/// Returns the place of the split's flow that shows this work key, by a search.
fn search_place(lists: &[KeptList], flows: &[SplitFlow], key: &WorkKey) -> usize
    requires { ShowsInFlow key.now flows.now lists.now }
    ensures within { result < length flows.now }
    ensures shows { (facts : Key → AFact) → KeepsFlows facts flows.now lists.now
        → (f : SplitFlow) → f ≡ slice_index_or flows.now result f
        → is_shown (value_kept (kept_flow facts f)) key.now ≡ true }
{
    let mut start = 0;
    for place in 0..flows.len() {
        let kept = list_at(lists, start);
        if shows(&kept.progress.value, key) {
            return place;
        }
        start += kept.size;
    }
    unreachable!()
}

/// Returns the place of the split's flow that shows this work key. If there are many flows and it
/// is the one that the index has, no other is looked at.
pub(crate) fn place_that_shows(
    index: &ElementIndex,
    split: &T256,
    lists: &[KeptList],
    flows: &[SplitFlow],
    key: &WorkKey,
) -> usize
    requires { ShowsInFlow key.now flows.now lists.now }
    ensures within { result < length flows.now }
    ensures shows { (facts : Key → AFact) → KeepsFlows facts flows.now lists.now
        → (f : SplitFlow) → f ≡ slice_index_or flows.now result f
        → is_shown (value_kept (kept_flow facts f)) key.now ≡ true }
{
    if let Some(place) = indexed_flow(index, split, flows.len(), &key.element) {
        if place < flows.len() {
            let start = lists_before(lists, flows, place);
            if shows(&list_at(lists, start).progress.value, key) {
                return place;
            }
        }
    }
    search_place(lists, flows, key)
}
