//! The tasks and artifacts that workers run, and how a job's step or decision is found by its work
//! key.
ghost use Rattle.std.specs.Prelude.{◌≡◌, ◌≤◌, IfOk, IfSome, Some};
ghost use Rattle.std.specs.Option.{option_map};
ghost use Rattle.walk_rules.specs.declared.work_key.WorkKey.{WorkKey};
ghost use Rattle.walk_rules.specs.Counts.{count_of};
ghost use Rattle.job_plans.specs.Spots.{IsListIn, IsElementIn, IsListBelow};
ghost use Rattle.job_plans.specs.Runnables.{leaves, leaves_in_body, all_leaves, run_with, runnable_with, partitions_with};

use batch_ids::{OutOfMemory, T256};
use jsl_model::{Body, Element, ElementIndex, Job, Task};
use walk_rules::WorkKey;

/// The batchlet, chunk or decision artifact that a worker runs for an element.
#[derive(PartialEq, Eq, Debug, Drop)]
pub enum Runnable {
    /// The batchlet or the chunk of a step.
    Step(Task),
    /// The artifact of a decision.
    Decision(T256),
}

#[cycle(finding)]
fn find_inside<'a>(element: &'a Element, key: &WorkKey) -> Option<&'a Body>
    ensures { option_map (λ body. leaves_in_body body.now) result
        ≡ run_with (leaves element.now) key.now }
{
    match &element.body {
        Body::Step(step) => {
            if key.is_one_of(&element.id, step.partitions) {
                Some(&element.body)
            } else {
                None
            }
        }
        Body::Decision { .. } => {
            if key.is_one_of(&element.id, None) {
                Some(&element.body)
            } else {
                None
            }
        }
        Body::Flow(elements) => find_body(elements.as_slice(), key),
        Body::Split(flows) => {
            for flow in flows.as_slice() {
                let found = find_body(flow.elements.as_slice(), key);
                if found.is_some() {
                    return found;
                }
            }
            None
        }
    }
}

/// Returns the body of the first step or decision with this work key, at any depth.
#[cycle(finding)]
fn find_body<'a>(elements: &'a [Element], key: &WorkKey) -> Option<&'a Body>
    ensures { option_map (λ body. leaves_in_body body.now) result
        ≡ run_with (all_leaves elements.now) key.now }
{
    for element in elements {
        let found = find_inside(element, key);
        if found.is_some() {
            return found;
        }
    }
    None
}

/// The most lists, one inside another, that a search by the index goes down: a checked job's lists
/// lie no deeper.
const MOST_LISTS: usize = 16;

/// Returns the list inside an element: that of a flow, or of the flow of a split at this place.
fn list_inside(element: &Element, flow: usize) -> Option<&[Element]>
    ensures { (key : WorkKey) → IfSome result (λ list. IsListIn key element.now list.now) }
{
    match &element.body {
        Body::Step(_) | Body::Decision { .. } => None,
        Body::Flow(elements) => Some(elements.as_slice()),
        Body::Split(flows) => {
            let flows = flows.as_slice();
            if flow < flows.len() {
                Some(flows[flow].elements.as_slice())
            } else {
                None
            }
        }
    }
}

/// Returns the element at this place of a list, if it has this id.
fn element_at<'a>(list: &'a [Element], place: usize, id: &T256) -> Option<&'a Element>
    ensures { (key : WorkKey) → count_of key.element list.now ≤ 1
        → IfSome result (λ element. IsElementIn key list.now element.now) }
{
    if place < list.len() && list[place].id == *id {
        Some(&list[place])
    } else {
        None
    }
}

/// Returns the list that has the element with this id, if the index has it at most `most` lists
/// below these elements.
#[cycle(descending)]
fn list_with<'a>(
    index: &ElementIndex,
    elements: &'a [Element],
    id: &T256,
    most: usize,
) -> Option<&'a [Element]>
    ensures { (key : WorkKey) → count_of key.element elements.now ≤ 1
        → IfSome result (λ list. IsListBelow key elements.now list.now) }
{
    let Some((outer, place)) = index.outer_with_place(id) else {
        return Some(elements);
    };
    if most == 0 {
        return None;
    }
    let list = list_with(index, elements, &outer.id, most - 1)?;
    let element = element_at(list, place, &outer.id)?;
    list_inside(element, outer.flow)
}

/// Returns the body of the step or decision with this work key, if it is at the place that the
/// index has.
fn body_at<'a>(job: &'a Job, key: &WorkKey) -> Option<&'a Body>
    ensures { IfSome result (λ body.
        run_with (all_leaves job.now.elements) key.now ≡ Some (leaves_in_body body.now)) }
{
    let list = list_with(job.index(), job.elements(), &key.element, MOST_LISTS)?;
    let place = job.index().place_of(&key.element);
    let element = element_at(list, place, &key.element)?;
    find_inside(element, key)
}

/// Returns the body of the step or decision with this work key. There is no search if it is at the
/// place that the index has.
fn body_of<'a>(job: &'a Job, key: &WorkKey) -> Option<&'a Body>
    ensures { option_map (λ body. leaves_in_body body.now) result
        ≡ run_with (all_leaves job.now.elements) key.now }
{
    match body_at(job, key) {
        Some(body) => Some(body),
        None => find_body(job.elements(), key),
    }
}

/// Returns the task or artifact that a worker runs for the step or decision with this work key, at
/// any depth of a job.
///
/// The job's index finds it, at each depth down to it. The time is proportional to that depth,
/// times the binary digits of the number of ids with the same hash, which mostly is one.
///
/// # Errors
///
/// Returns `OutOfMemory` if memory is refused.
pub fn find_runnable(job: &Job, key: &WorkKey) -> Result<Option<Runnable>, OutOfMemory>
    ensures { IfOk result (λ found. found
        ≡ runnable_with (all_leaves job.now.elements) key.now) }
{
    let (found, _) = find_task(job, key)?;
    Ok(found)
}

/// Returns the task or artifact that a worker runs for the step or decision with this work key, at
/// any depth of a job. Also returns the step's number of partitions, or `None` if it isn't a
/// partitioned step.
///
/// It returns the results of `find_runnable` and `find_partitions`, by one look.
///
/// # Errors
///
/// Returns `OutOfMemory` if memory is refused.
pub fn find_task(job: &Job, key: &WorkKey) -> Result<(Option<Runnable>, Option<u32>), OutOfMemory>
    ensures runs { IfOk result (λ found. found.0
        ≡ runnable_with (all_leaves job.now.elements) key.now) }
    ensures partitions { IfOk result (λ found. found.1
        ≡ partitions_with (all_leaves job.now.elements) key.now) }
{
    match body_of(job, key) {
        None => Ok((None, None)),
        Some(body) => match body {
            Body::Step(step) => Ok((
                Some(Runnable::Step(step.task.try_clone()?)),
                step.partitions,
            )),
            Body::Decision { artifact } => {
                Ok((Some(Runnable::Decision(artifact.try_clone()?)), None))
            }
            Body::Flow(_) => Ok((None, None)),
            Body::Split(_) => Ok((None, None)),
        },
    }
}

/// Returns the number of partitions of the step with this work key, at any depth of a job. Returns
/// `None` if it isn't a partitioned step.
///
/// It finds the step as `find_runnable` does, at the same cost.
pub fn find_partitions(job: &Job, key: &WorkKey) -> Option<u32>
    ensures { result ≡ partitions_with (all_leaves job.now.elements) key.now }
{
    match body_of(job, key) {
        None => None,
        Some(body) => match body {
            Body::Step(step) => step.partitions,
            Body::Decision { .. } => None,
            Body::Flow(_) => None,
            Body::Split(_) => None,
        },
    }
}
