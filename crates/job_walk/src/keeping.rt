//! Builds a cursor's stored lists at the beginning of a walk.
ghost use Rattle.std.specs.Prelude.{◌≡◌, ◌++◌, ◌≤◌, ℕ, List, [], length, map, IfOk, OnOk};
ghost use Rattle.jsl_model.specs.Trees.{joined};
ghost use Rattle.jsl_model.specs.declared.element.Element.{Element};
ghost use Rattle.walk_rules.specs.declared.work_key.WorkKey.{WorkKey};
ghost use Rattle.job_plans.specs.Cursors.{known_keys};
ghost use Rattle.walk_rules.specs.Keys.{key_of};
ghost use Rattle.walk_rules.specs.Walk.{fact_of, flow_result, runnable_result, step_result};
ghost use Rattle.walk_rules.specs.Counts.{count_of, count_in};
ghost use Rattle.job_plans.specs.Lists.{key_count};
ghost use Rattle.job_walk.specs.KeptLists.{kept_of, kept_element, tree_first, value_kept, lists_in, starts_from};
ghost use Rattle.walk_rules.specs.Standing.{progress, rows_by};

use crate::kept_list::KeptList;
use crate::known_fact::known_fact;
use batch_ids::{Listed, OutOfMemory, T256, WorkOutcome};
use jsl_model::{Body, Element, ElementIndex};
use std::alloc::Global;
use std::mem::replace;
use walk_rules::{
    ElementResult, Known, Progress, Value, key_of, partitioned_result, place_in, result_by,
    split_result, walk_on,
};

/// Makes the placeholder for a list that hasn't been walked yet.
fn nothing_kept(alloc: Global) -> KeptList {
    KeptList {
        progress: Progress {
            value: Value::Done {
                exit: T256::empty(),
            },
            place: None,
            left: 0,
        },
        results: Listed::new(alloc),
        starts: Listed::new(alloc),
        size: 0,
    }
}

/// Adds the stored lists inside the elements of a list. Also adds each element's own result, and
/// the number of added lists before those inside it.
#[cycle(keeping)]
fn keep_each(
    alloc: Global,
    lists: &mut Vec<KeptList>,
    known: &[Known],
    index: &ElementIndex,
    elements: &[Element],
    results: &mut Listed<ElementResult>,
    starts: &mut Listed<usize>,
) -> Result<(), OutOfMemory>
    requires each { (one : WorkKey) → key_count one (known_keys known.now) ≤ 1 }
    requires once { (id : List ℕ) → count_of id elements.now ≤ 1 }
    requires results { results.old ≡ [] }
    requires starts { starts.old ≡ [] }
    ensures lists { OnOk result (lists.new.items ≡ lists.old.items ++ joined
        (map (λ (e : Element). (kept_element (fact_of known.now) e).inside) elements.now)) }
    ensures results { OnOk result (results.new
        ≡ map (λ (e : Element). (kept_element (fact_of known.now) e).row.own_result) elements.now) }
    ensures starts { OnOk result (starts.new ≡ starts_from 0
        (map (λ (e : Element). (kept_element (fact_of known.now) e).inside) elements.now)) }
{
    let base = lists.len();
    for element in elements {
        starts.push(lists.len() - base)?;
        let result = keep_element(alloc, lists, known, index, element)?;
        results.push(result)?;
    }
    Ok(())
}

/// Returns how far the walk from `from` comes over a list, with these own results of its elements.
fn walk_all(
    alloc: Global,
    index: &ElementIndex,
    elements: &[Element],
    results: &[ElementResult],
    from: &T256,
) -> Result<Progress, OutOfMemory>
    requires once { (id : List ℕ) → count_of id elements.now ≤ 1 }
    requires same { length results.now ≡ length elements.now }
    ensures { IfOk result (λ come. come
        ≡ progress (length elements.now) (rows_by elements.now results.now) from.now) }
{
    let none = ElementResult::Outcome(WorkOutcome::Completed, T256::empty());
    let place = place_in(index, elements, from);
    let many = elements.len();
    let come = walk_on(
        alloc, index, elements, results, many, &none, from, place, many,
    );
    drop(none);
    come
}

/// Adds the stored list of these elements, and those inside it.
#[cycle(keeping)]
pub(crate) fn keep_list(
    alloc: Global,
    lists: &mut Vec<KeptList>,
    known: &[Known],
    index: &ElementIndex,
    elements: &[Element],
    from: &T256,
) -> Result<(), OutOfMemory>
    requires each { (one : WorkKey) → key_count one (known_keys known.now) ≤ 1 }
    requires once { (id : List ℕ) → count_of id elements.now ≤ 1 }
    ensures { OnOk result (lists.new.items
        ≡ lists.old.items ++ kept_of (fact_of known.now) elements.now from.now) }
{
    let base = lists.len();
    lists.push(nothing_kept(alloc))?;
    let mut results = Listed::new(alloc);
    let mut starts = Listed::new(alloc);
    keep_each(
        alloc,
        lists,
        known,
        index,
        elements,
        &mut results,
        &mut starts,
    )?;
    let progress = walk_all(alloc, index, elements, results.as_slice(), from)?;
    let size = lists.len() - base;
    let kept = KeptList {
        progress,
        results,
        starts,
        size,
    };
    drop(replace(&mut lists[base], kept));
    Ok(())
}

/// Like `keep_list`, for a list that begins at its first element. Returns the list's value.
#[cycle(keeping)]
fn keep_first(
    alloc: Global,
    lists: &mut Vec<KeptList>,
    known: &[Known],
    index: &ElementIndex,
    elements: &[Element],
) -> Result<Value, OutOfMemory>
    requires each { (one : WorkKey) → key_count one (known_keys known.now) ≤ 1 }
    requires once { (id : List ℕ) → count_of id elements.now ≤ 1 }
    ensures value { IfOk result (λ value.
        value ≡ value_kept (tree_first (map (kept_element (fact_of known.now)) elements.now))) }
    ensures lists { OnOk result (lists.new.items ≡ lists.old.items
        ++ lists_in (tree_first (map (kept_element (fact_of known.now)) elements.now))) }
{
    let base = lists.len();
    match elements.first() {
        None => {
            let from = T256::empty();
            keep_list(alloc, lists, known, index, elements, &from)?;
        }
        Some(first) => keep_list(alloc, lists, known, index, elements, &first.id)?,
    }
    lists[base].progress.value.try_clone()
}

/// Returns an element's own result, and adds the stored lists inside the element.
#[cycle(keeping)]
fn keep_element(
    alloc: Global,
    lists: &mut Vec<KeptList>,
    known: &[Known],
    index: &ElementIndex,
    element: &Element,
) -> Result<ElementResult, OutOfMemory>
    requires each { (one : WorkKey) → key_count one (known_keys known.now) ≤ 1 }
    requires once { (id : List ℕ) → count_in id element.now ≤ 1 }
    ensures result { IfOk result (λ made.
        made ≡ (kept_element (fact_of known.now) element.now).row.own_result) }
    ensures lists { OnOk result (lists.new.items ≡ lists.old.items
        ++ (kept_element (fact_of known.now) element.now).inside) }
{
    match &element.body {
        Body::Step(step) => step_kept(alloc, index, known, &element.id, step.partitions),
        Body::Decision { .. } => runnable_kept(alloc, index, known, &element.id),
        Body::Flow(elements) => {
            let value = keep_first(alloc, lists, known, index, elements.as_slice())?;
            Ok(flow_result(value))
        }
        Body::Split(flows) => {
            let mut values = Vec::new(alloc);
            for flow in flows.as_slice() {
                values.push(keep_first(alloc, lists, known, index, flow.elements.as_slice())?)?;
            }
            split_result(alloc, values.as_slice())
        }
    }
}

/// Returns the own result of a decision, or of a step that isn't partitioned.
fn runnable_kept(
    alloc: Global,
    index: &ElementIndex,
    known: &[Known],
    id: &T256,
) -> Result<ElementResult, OutOfMemory>
    requires each { (one : WorkKey) → key_count one (known_keys known.now) ≤ 1 }
    ensures { IfOk result (λ made.
        made ≡ runnable_result (key_of id.now 0) (fact_of known.now (key_of id.now 0))) }
{
    let fact = known_fact(index, known, id, 0)?;
    let made = result_by(alloc, id, &fact);
    drop(fact);
    made
}

/// Returns a step's own result.
fn step_kept(
    alloc: Global,
    index: &ElementIndex,
    known: &[Known],
    id: &T256,
    partitions: Option<u32>,
) -> Result<ElementResult, OutOfMemory>
    requires each { (one : WorkKey) → key_count one (known_keys known.now) ≤ 1 }
    ensures { IfOk result (λ made. made ≡ step_result (fact_of known.now) id.now partitions) }
{
    match partitions {
        None => runnable_kept(alloc, index, known, id),
        Some(count) => {
            let mut facts = Vec::new(alloc);
            for partition in 0..count {
                let one = Known {
                    key: key_of(id, partition)?,
                    fact: known_fact(index, known, id, partition)?,
                };
                facts.push(one)?;
            }
            partitioned_result(alloc, facts.as_slice())
        }
    }
}

/// Returns a flow's own result.
pub(crate) fn flow_result(value: Value) -> ElementResult
    ensures { result ≡ flow_result value }
{
    match value {
        Value::Done { exit } => ElementResult::Outcome(WorkOutcome::Completed, exit),
        Value::Open { ready, busy } => ElementResult::ListValue(Value::Open { ready, busy }),
        Value::Ended {
            status,
            exit,
            point,
        } => {
            ElementResult::ListValue(Value::Ended {
                status,
                exit,
                point,
            })
        }
    }
}
