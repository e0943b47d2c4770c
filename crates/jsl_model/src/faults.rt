ghost use Rattle.std.specs.Prelude.{◌≡◌, ◌||◌, Bool, All, None, Some, length, map, nat_lt, IfOk, if◌then◌else◌};
ghost use Rattle.jsl_model.specs.declared.job.JobFault.TheVariants.{NoSuchTarget, Loop};
ghost use Rattle.jsl_model.specs.Faults.{tree_fault, node_ids, restarts, are_many_partitions, has_many_partitions};
ghost use Rattle.jsl_model.specs.Nodes.{node};
ghost use Rattle.jsl_model.specs.Names.{are_among, has_twice};
ghost use Rattle.jsl_model.specs.Targets.{outline, ids, lists_of, lacks_some_target, has_some_loop, HasRanks};

use crate::depth::is_deeper;
use crate::element::{Body, Element};
use crate::emptiness::is_list_lacking;
use crate::job::JobFault;
use crate::lists::lists_in;
use crate::names::{are_among, has_twice};
use crate::naming::{ids_of, own_ids, restarts_of};
use crate::node::{Node, nodes_in};
use crate::targets::{has_some_loop, lacks_some_target};
use batch_ids::{OutOfMemory, T256};
use std::alloc::Global;

/// The deepest level that an element may have.
const MOST_DEEP: usize = 16;

/// The most partitions that a step may have.
const MOST_PARTITIONS: u32 = 64;

/// The most elements that a job may have, flows of splits included.
const MOST_ELEMENTS: usize = 1000;

/// Returns the first fault of a job whose texts are short enough. Each fault is tested over the
/// whole job before the next one.
pub fn fault_in(
    alloc: Global,
    id: &T256,
    elements: &[Element],
) -> Result<Option<JobFault>, OutOfMemory>
    ensures ranked { IfOk result (λ found. found ≡ None → All HasRanks (lists_of elements.now)) }
    ensures first { IfOk result (λ found. (restartable : Bool) → found
        ≡ tree_fault record { id = id.now; restartable = restartable; elements = elements.now }) }
{
    if id.as_str().is_empty() || is_list_lacking(elements) {
        return Ok(Some(JobFault::Empty));
    }
    if is_deeper(elements, MOST_DEEP) {
        return Ok(Some(JobFault::TooDeep));
    }
    let nodes = nodes_in(alloc, elements)?;
    if are_too_many(nodes.as_slice()) {
        return Ok(Some(JobFault::TooMany));
    }
    if have_one_id_twice(alloc, nodes.as_slice())? {
        return Ok(Some(JobFault::DuplicateId));
    }
    if let Some(fault) = fault_of_targets(alloc, elements)? {
        return Ok(Some(fault));
    }
    if !are_restarts_own(alloc, nodes.as_slice(), elements)? {
        return Ok(Some(JobFault::RestartNotJobLevel));
    }
    Ok(None)
}

/// Checks whether there are more than 1,000 elements, or a step with more than 64 partitions.
fn are_too_many(nodes: &[Node<'_>]) -> bool
    ensures { result ≡ (nat_lt 1000 (length nodes.now) || has_many_partitions (map node nodes.now)) }
{
    nodes.len() > MOST_ELEMENTS || have_many_partitions(nodes)
}

/// Checks whether the node is a step with more than 64 partitions.
fn has_many_partitions(one: &Node<'_>) -> bool
    ensures { result ≡ are_many_partitions (node one.now).partitions }
{
    match one.body {
        Some(Body::Step(step)) => {
            match step.partitions {
                Some(partitions) => partitions > MOST_PARTITIONS,
                None => false,
            }
        }
        _ => false,
    }
}

fn have_many_partitions(nodes: &[Node<'_>]) -> bool
    ensures { result ≡ has_many_partitions (map node nodes.now) }
{
    for one in nodes {
        if has_many_partitions(one) {
            return true;
        }
    }
    false
}

/// Checks whether two of the nodes have the same id.
fn have_one_id_twice(alloc: Global, nodes: &[Node<'_>]) -> Result<bool, OutOfMemory>
    ensures { IfOk result (λ twice. twice ≡ has_twice (node_ids (map node nodes.now))) }
{
    let ids = ids_of(alloc, nodes)?;
    has_twice(alloc, ids.as_slice())
}

/// Returns the first fault in the targets of `next` and `to`, in the lists at all depths.
fn fault_of_targets(alloc: Global, elements: &[Element]) -> Result<Option<JobFault>, OutOfMemory>
    ensures ranked { IfOk result (λ found. found ≡ None → All HasRanks (lists_of elements.now)) }
    ensures first { IfOk result (λ found. found
        ≡ (if lacks_some_target elements.now then Some NoSuchTarget
        else (if has_some_loop elements.now then Some Loop else None))) }
{
    let lists = lists_in(alloc, elements)?;
    if lacks_some_target(alloc, lists.as_slice())? {
        return Ok(Some(JobFault::NoSuchTarget));
    }
    if has_some_loop(alloc, lists.as_slice())? {
        return Ok(Some(JobFault::Loop));
    }
    Ok(None)
}

/// Checks whether each restart begins at one of these elements.
fn are_restarts_own(
    alloc: Global,
    nodes: &[Node<'_>],
    elements: &[Element],
) -> Result<bool, OutOfMemory>
    ensures { IfOk result (λ own. own
        ≡ are_among (ids (outline elements.now)) (restarts (map node nodes.now))) }
{
    let restarts = restarts_of(alloc, nodes)?;
    let own = own_ids(alloc, elements)?;
    are_among(alloc, restarts.as_slice(), own.as_slice())
}
