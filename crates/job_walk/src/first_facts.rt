//! The first facts of a job's work keys.
ghost use Rattle.std.specs.Prelude.{◌≡◌, ◌++◌, ◌∷◌, [], map, IfOk, OnOk};
ghost use Rattle.std.specs.List.{flat_map};
ghost use Rattle.std.specs.Option.{option_copied};
ghost use Rattle.jsl_model.specs.Names.{is_among};
ghost use Rattle.job_plans.specs.Cursors.{step_at_first, known_at_first};
ghost use Rattle.walk_rules.specs.Keys.{key_of, keys_of_step};
ghost use Rattle.job_plans.specs.Plans.{bars_kept, carried_exit, keeps_each, keeps_partition, unless_barred};
ghost use Rattle.job_plans.specs.Runnables.{leaves, all_leaves};
ghost use Rattle.walk_rules.specs.Walk.{fact_of, known_of};

use batch_ids::{BatchStatus, OutOfMemory, T256};
use job_plans::Plan;
use jsl_model::{Body, Element};
use std::alloc::Global;
use walk_rules::{Fact, Known, WorkKey, fact_of, has_key, key_of, name_of};

/// Returns the exit status with which an earlier job execution completed this step.
fn find_carried<'a>(carried: &'a [(T256, T256)], id: &T256) -> Option<&'a T256>
    ensures { option_copied result ≡ carried_exit carried.now id.now }
{
    for step in carried {
        if step.0 == *id {
            return Some(&step.1);
        }
    }
    None
}

fn is_among(steps: &[T256], id: &T256) -> bool
    ensures { result ≡ is_among steps.now id.now }
{
    for step in steps {
        if *id == *step {
            return true;
        }
    }
    false
}

/// Returns this fact, or `Barred` if there is none and the step has reached its start limit.
fn unless_barred(known: Fact, barred: &[T256], id: &T256) -> Fact
    ensures { result ≡ unless_barred known (is_among barred.now id.now) }
{
    match known {
        Fact::Nothing => {
            if is_among(barred, id) {
                Fact::Barred
            } else {
                Fact::Nothing
            }
        }
        Fact::Carried(exit) => Fact::Carried(exit),
        Fact::Busy => Fact::Busy,
        Fact::Over(outcome, exit) => Fact::Over(outcome, exit),
        Fact::Barred => Fact::Barred,
    }
}

/// Checks whether the plan keeps a work key's partition. A step that isn't partitioned has no kept
/// partition.
fn keeps_partition(plan: &Plan, partitions: Option<u32>, key: &WorkKey) -> bool
    ensures { result ≡ keeps_partition plan.now partitions key.now }
{
    match partitions {
        None => false,
        Some(_) => has_key(plan.kept.as_slice(), key),
    }
}

/// Checks whether the plan keeps each partition of a step.
#[tactic(auto, using(job_plans::proofs::Beginning::numbers_ahead))]
fn keeps_each(plan: &Plan, id: &T256, partitions: Option<u32>) -> Result<bool, OutOfMemory>
    ensures { IfOk result (λ each. each ≡ keeps_each plan.now id.now partitions) }
{
    match partitions {
        None => Ok(false),
        Some(count) => {
            for partition in 0..count {
                let key = key_of(id, partition)?;
                if !keeps_partition(plan, partitions, &key) {
                    return Ok(false);
                }
            }
            Ok(true)
        }
    }
}

/// Checks whether a step has reached its start limit, though the plan keeps each of its partitions.
fn bars_kept(plan: &Plan, id: &T256, partitions: Option<u32>) -> Result<bool, OutOfMemory>
    ensures { IfOk result (λ bars. bars ≡ bars_kept plan.now id.now partitions) }
{
    if is_among(plan.barred.as_slice(), id) {
        keeps_each(plan, id, partitions)
    } else {
        Ok(false)
    }
}

/// Returns the first fact of a step's work key, from the plan and `known`.
fn step_at_first(
    alloc: Global,
    plan: &Plan,
    known: &[Known],
    partitions: Option<u32>,
    is_barred: bool,
    key: &WorkKey,
) -> Result<Fact, OutOfMemory>
    requires { is_barred ≡ bars_kept plan.now key.now.element partitions }
    ensures { IfOk result (λ fact. fact ≡ step_at_first plan.now known.now partitions key.now) }
{
    if let Some(exit) = find_carried(plan.carried.as_slice(), &key.element) {
        return Ok(Fact::Carried(exit.try_clone()?));
    }
    if is_barred {
        return Ok(Fact::Barred);
    }
    if keeps_partition(plan, partitions, key) {
        return Ok(Fact::Carried(name_of(alloc, BatchStatus::Completed)?));
    }
    let fact = fact_of(known, &key.element, key.partition)?;
    Ok(unless_barred(fact, plan.barred.as_slice(), &key.element))
}

/// Adds the first fact of a step's partition.
fn add_partition(
    facts: &mut Vec<Known>,
    plan: &Plan,
    known: &[Known],
    id: &T256,
    partitions: Option<u32>,
    is_barred: bool,
    partition: u32,
) -> Result<(), OutOfMemory>
    requires { is_barred ≡ bars_kept plan.now id.now partitions }
    ensures { OnOk result (facts.new.items ≡ facts.old.items
        ++ known_of (step_at_first plan.now known.now partitions) (key_of id.now partition ∷ [])) }
{
    let alloc = *facts.allocator();
    let key = key_of(id, partition)?;
    let fact = step_at_first(alloc, plan, known, partitions, is_barred, &key)?;
    facts.push(Known { key, fact })?;
    Ok(())
}

/// Adds the first facts of a step's partitions.
fn add_step(
    facts: &mut Vec<Known>,
    plan: &Plan,
    known: &[Known],
    id: &T256,
    partitions: Option<u32>,
) -> Result<(), OutOfMemory>
    ensures { OnOk result (facts.new.items ≡ facts.old.items
        ++ known_of (step_at_first plan.now known.now partitions) (keys_of_step id.now partitions)) }
{
    let is_barred = bars_kept(plan, id, partitions)?;
    match partitions {
        None => add_partition(facts, plan, known, id, partitions, is_barred, 0),
        Some(count) => {
            for partition in 0..count {
                add_partition(facts, plan, known, id, partitions, is_barred, partition)?;
            }
            Ok(())
        }
    }
}

/// Adds the first fact of a decision.
fn add_decision(facts: &mut Vec<Known>, known: &[Known], id: &T256) -> Result<(), OutOfMemory>
    ensures { OnOk result (facts.new.items ≡ facts.old.items
        ++ known_of (fact_of known.now) (key_of id.now 0 ∷ [])) }
{
    let key = key_of(id, 0)?;
    let fact = fact_of(known, id, 0)?;
    facts.push(Known { key, fact })?;
    Ok(())
}

/// Adds the first facts of the work keys in an element.
#[cycle(knowing)]
fn add_inside(
    facts: &mut Vec<Known>,
    plan: &Plan,
    known: &[Known],
    element: &Element,
) -> Result<(), OutOfMemory>
    ensures { OnOk result (facts.new.items
        ≡ facts.old.items ++ flat_map (known_at_first plan.now known.now) (leaves element.now)) }
{
    match &element.body {
        Body::Step(step) => add_step(facts, plan, known, &element.id, step.partitions),
        Body::Decision { .. } => add_decision(facts, known, &element.id),
        Body::Flow(elements) => add_all(facts, plan, known, elements.as_slice()),
        Body::Split(flows) => {
            for flow in flows.as_slice() {
                add_all(facts, plan, known, flow.elements.as_slice())?;
            }
            Ok(())
        }
    }
}

/// Adds the first facts of the work keys in a list.
#[cycle(knowing)]
fn add_all(
    facts: &mut Vec<Known>,
    plan: &Plan,
    known: &[Known],
    elements: &[Element],
) -> Result<(), OutOfMemory>
    ensures { OnOk result (facts.new.items ≡ facts.old.items
        ++ flat_map (known_at_first plan.now known.now) (all_leaves elements.now)) }
{
    for element in elements {
        add_inside(facts, plan, known, element)?;
    }
    Ok(())
}

/// Returns the first fact of each work key of these elements, from the plan and `known`. The facts
/// are in written order and by rising partition.
pub(crate) fn known_at_first(
    alloc: Global,
    plan: &Plan,
    known: &[Known],
    elements: &[Element],
) -> Result<Vec<Known>, OutOfMemory>
    ensures { IfOk result (λ facts. facts.items
        ≡ flat_map (known_at_first plan.now known.now) (all_leaves elements.now)) }
{
    let mut facts = Vec::new(alloc);
    add_all(&mut facts, plan, known, elements)?;
    Ok(facts)
}
