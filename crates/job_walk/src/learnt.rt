//! The changes that a new fact makes: in the lists on the way from the element up to the job's
//! list, and in no others.
ghost use Rattle.std.specs.Prelude.{◌≡◌, ◌+◌, ◌++◌, ◌∷◌, [], ◌<◌, ◌≤◌, ◌^◌, true, false, ℕ, List, length, map, drop, slice_index_or, IfOk, OnOk};
ghost use Rattle.jsl_model.specs.declared.element.Body.TheVariants.{Split};
ghost use Rattle.job_walk.specs.declared.kept_list.KeptList.{KeptList};
ghost use Rattle.walk_rules.specs.declared.work_key.WorkKey.{WorkKey};
ghost use Rattle.job_plans.specs.Cursors.{known_keys, put_fact};
ghost use Rattle.walk_rules.specs.Keys.{key_of, has_key};
ghost use Rattle.job_plans.specs.Lists.{key_count};
ghost use Rattle.job_walk.specs.KeptLists.{Keeps, KeepsFirst, KeepsInside, tree_first, lists_in, value_kept, Puts, ChangesList, ComesTo, facts_after, first_shows, result_shows, kept_element};
ghost use Rattle.walk_rules.specs.Counts.{count_of, count_in};
ghost use Rattle.walk_rules.specs.Walk.{fact_of, runnable_result, step_result};

use crate::keeping::flow_result;
use crate::kept_list::{KeptList, ListChange};
use crate::known_fact::known_fact;
use crate::split_flows::{lists_before, place_that_shows, split_after};
use batch_ids::{OutOfMemory, T256};
use jsl_model::{Body, Element, ElementIndex, SplitFlow};
use std::alloc::Global;
use walk_rules::{
    ElementResult, Fact, Known, Value, WorkKey, key_of, partitioned_result, result_by, walk_on,
};

/// Returns the fact of an element's partition, after `key` got its new fact.
fn fact_after(
    index: &ElementIndex,
    known: &[Known],
    key: &WorkKey,
    fact: &Fact,
    id: &T256,
    partition: u32,
) -> Result<Fact, OutOfMemory>
    requires known { has_key (known_keys known.now) key.now ≡ true }
    requires each { (one : WorkKey) → key_count one (known_keys known.now) ≤ 1 }
    ensures { IfOk result (λ after.
        after ≡ fact_of (put_fact known.now key.now fact.now) (key_of id.now partition)) }
{
    if key.is_of(id, partition) {
        Ok(fact.try_clone()?)
    } else {
        Ok(known_fact(index, known, id, partition)?)
    }
}

/// Returns the own result of a decision, or of a step that isn't partitioned, after the new fact.
fn runnable_after(
    alloc: Global,
    index: &ElementIndex,
    known: &[Known],
    key: &WorkKey,
    fact: &Fact,
    id: &T256,
) -> Result<ElementResult, OutOfMemory>
    requires known { has_key (known_keys known.now) key.now ≡ true }
    requires each { (one : WorkKey) → key_count one (known_keys known.now) ≤ 1 }
    ensures { IfOk result (λ made. made ≡ runnable_result (key_of id.now 0)
        (fact_of (put_fact known.now key.now fact.now) (key_of id.now 0))) }
{
    let after = fact_after(index, known, key, fact, id, 0)?;
    let made = result_by(alloc, id, &after);
    drop(after);
    made
}

/// Returns a step's own result after the new fact.
fn step_after(
    alloc: Global,
    index: &ElementIndex,
    known: &[Known],
    key: &WorkKey,
    fact: &Fact,
    id: &T256,
    partitions: Option<u32>,
) -> Result<ElementResult, OutOfMemory>
    requires known { has_key (known_keys known.now) key.now ≡ true }
    requires each { (one : WorkKey) → key_count one (known_keys known.now) ≤ 1 }
    ensures { IfOk result (λ made.
        made ≡ step_result (fact_of (put_fact known.now key.now fact.now)) id.now partitions) }
{
    match partitions {
        None => runnable_after(alloc, index, known, key, fact, id),
        Some(count) => {
            let mut after = Vec::new(alloc);
            for partition in 0..count {
                let one = Known {
                    key: key_of(id, partition)?,
                    fact: fact_after(index, known, key, fact, id, partition)?,
                };
                after.push(one)?;
            }
            partitioned_result(alloc, after.as_slice())
        }
    }
}

/// Returns the lists from this one on.
fn lists_from(lists: &[KeptList], start: usize) -> &[KeptList]
    requires { start ≤ length lists.now }
    ensures { result.now ≡ drop start lists.now }
{
    &lists[start..]
}

/// Adds a change of a list, and returns the list's new value.
fn add_change(changes: &mut Vec<ListChange>, change: ListChange) -> Result<Value, OutOfMemory>
    ensures value { IfOk result (λ value. value ≡ change.progress.value) }
    ensures changes { OnOk result (changes.new.items ≡ changes.old.items ++ change ∷ []) }
{
    let place = changes.len();
    changes.push(change)?;
    changes[place].progress.value.try_clone()
}

/// Adds the changes that a new fact of a shown work key makes in a list and in those inside it.
/// Returns the list's new value. `lists` begins with their stored lists, and the first of these has
/// the number `base`.
#[cycle(learning)]
pub(crate) fn list_changes(
    alloc: Global,
    changes: &mut Vec<ListChange>,
    base: usize,
    lists: &[KeptList],
    elements: &[Element],
    index: &ElementIndex,
    known: &[Known],
    key: &WorkKey,
    fact: &Fact,
) -> Result<Value, OutOfMemory>
    requires kept { Keeps (fact_of known.now) elements.now lists.now }
    requires shown { first_shows key.now lists.now ≡ true }
    requires known { has_key (known_keys known.now) key.now ≡ true }
    requires each { (one : WorkKey) → key_count one (known_keys known.now) ≤ 1 }
    requires once { (id : List ℕ) → count_of id elements.now ≤ 1 }
    requires numbered { base + length lists.now < 2 ^ 64 }
    ensures value { IfOk result (λ value. ComesTo value lists.now
        (fact_of known.now) (facts_after known.now key.now fact.now) elements.now) }
    ensures changes { OnOk result (ChangesList changes.old.items changes.new.items base lists.now
        (fact_of known.now) (facts_after known.now key.now fact.now) elements.now) }
{
    let kept = &lists[0];
    let Some(place) = kept.progress.place else {
        unreachable!()
    };
    let start = kept.starts.as_slice()[place] + 1;
    let element = &elements[place];
    let result = element_changes(
        alloc,
        changes,
        base + start,
        lists_from(lists, start),
        element,
        index,
        known,
        key,
        fact,
    )?;
    let come = walk_on(
        alloc,
        index,
        elements,
        kept.results.as_slice(),
        place,
        &result,
        &element.id,
        Some(place),
        kept.progress.left,
    );
    match come {
        Ok(progress) => {
            let change = ListChange::new(base, place, result, progress);
            Ok(add_change(changes, change)?)
        }
        Err(error) => {
            drop(result);
            Err(error)
        }
    }
}

/// Returns an element's own result after the new fact of a work key that it shows. Adds the changes
/// of the lists inside the element.
#[cycle(learning)]
fn element_changes(
    alloc: Global,
    changes: &mut Vec<ListChange>,
    base: usize,
    lists: &[KeptList],
    element: &Element,
    index: &ElementIndex,
    known: &[Known],
    key: &WorkKey,
    fact: &Fact,
) -> Result<ElementResult, OutOfMemory>
    requires kept { KeepsInside (fact_of known.now) element.now lists.now }
    requires shown { result_shows key.now (kept_element (fact_of known.now) element.now).row.own_result
        ≡ true }
    requires known { has_key (known_keys known.now) key.now ≡ true }
    requires each { (one : WorkKey) → key_count one (known_keys known.now) ≤ 1 }
    requires once { (id : List ℕ) → count_in id element.now ≤ 1 }
    requires numbered { base + length lists.now < 2 ^ 64 }
    ensures comes { IfOk result (λ made. made
        ≡ (kept_element (facts_after known.now key.now fact.now) element.now).row.own_result) }
    ensures changes { OnOk result (Puts changes.old.items changes.new.items base
        (kept_element (fact_of known.now) element.now).inside
        (kept_element (facts_after known.now key.now fact.now) element.now).inside) }
{
    match &element.body {
        Body::Step(step) => {
            step_after(alloc, index, known, key, fact, &element.id, step.partitions)
        }
        Body::Decision { .. } => runnable_after(alloc, index, known, key, fact, &element.id),
        Body::Flow(elements) => {
            let elements = elements.as_slice();
            let value = list_changes(
                alloc, changes, base, lists, elements, index, known, key, fact,
            )?;
            Ok(flow_result(value))
        }
        Body::Split(flows) => split_changes(
            alloc,
            changes,
            base,
            lists,
            element,
            flows.as_slice(),
            index,
            known,
            key,
            fact,
        ),
    }
}

/// Like `element_changes`, for a split. Only the flow that shows the work key is walked, and the
/// stored values of the others are borrowed.
#[cycle(learning)]
fn split_changes(
    alloc: Global,
    changes: &mut Vec<ListChange>,
    base: usize,
    lists: &[KeptList],
    element: &Element,
    flows: &[SplitFlow],
    index: &ElementIndex,
    known: &[Known],
    key: &WorkKey,
    fact: &Fact,
) -> Result<ElementResult, OutOfMemory>
    requires split { element.now.body ≡ Split flows.now }
    requires kept { KeepsInside (fact_of known.now) element.now lists.now }
    requires shown { result_shows key.now (kept_element (fact_of known.now) element.now).row.own_result
        ≡ true }
    requires known { has_key (known_keys known.now) key.now ≡ true }
    requires each { (one : WorkKey) → key_count one (known_keys known.now) ≤ 1 }
    requires once { (id : List ℕ) → count_in id element.now ≤ 1 }
    requires numbered { base + length lists.now < 2 ^ 64 }
    ensures comes { IfOk result (λ made. made
        ≡ (kept_element (facts_after known.now key.now fact.now) element.now).row.own_result) }
    ensures changes { OnOk result (Puts changes.old.items changes.new.items base
        (kept_element (fact_of known.now) element.now).inside
        (kept_element (facts_after known.now key.now fact.now) element.now).inside) }
{
    let place = place_that_shows(index, &element.id, lists, flows, key);
    let start = lists_before(lists, flows, place);
    let here = base + start;
    let rest = lists_from(lists, start);
    let elements = flows[place].elements.as_slice();
    let made = list_changes(
        alloc, changes, here, rest, elements, index, known, key, fact,
    )?;
    let result = split_after(alloc, lists, flows, place, &made);
    drop(made);
    result
}
