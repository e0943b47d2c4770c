//! The plan of a job execution: the element at which it begins, its carried steps, its kept
//! partitions and its barred steps.
ghost use Rattle.std.specs.Prelude.{◌≡◌, ◌++◌, ◌∷◌, [], true, Some, map, filter, length, IfOk, OnOk};
ghost use Rattle.std.specs.List.{filter_map, flat_map};
ghost use Rattle.std.specs.Option.{option_copied, option_map};
ghost use Rattle.batch_history.specs.Restarts.{carried_step, exit_carried, exit_if_done, exit_of_newest, first_plan, is_barred, kept_partitions, plan_by, starts_of, works_of_step};
ghost use Rattle.job_plans.specs.Cursors.{begins_in};
ghost use Rattle.walk_rules.specs.Keys.{key_of};
ghost use Rattle.jsl_model.specs.Jobs.{JobTree};
ghost use Rattle.batch_history.specs.Partitions.{partitions_kept};
ghost use Rattle.records.specs.Left.{works_of_instance};
ghost use Rattle.restart_rules.specs.Restarting.{AreLookedUp, earlier_works, job_step};

use crate::partitions::{completed_exit, executions_with, is_done, partitions_kept};
use crate::steps::{StepOf, steps_in};
use batch_history::WorkRow;
use batch_ids::{BatchStatus, InstanceId, Listed, OutOfMemory, T256};
use job_plans::Plan;
use jsl_model::{Element, Job};
use records::{NameLists, Records};
use std::alloc::Global;
use walk_rules::WorkKey;

/// Returns the plan of a job's first job execution. It begins at the job's first element, with
/// nothing carried, kept or barred.
///
/// # Errors
///
/// `OutOfMemory` if memory is refused.
#[tactic(auto, using(crate::proofs::Beginning::first_begins))]
pub fn first_plan(alloc: Global, job: &Job) -> Result<Plan, OutOfMemory>
    ensures plan { IfOk result (λ plan. plan ≡ first_plan (Some job.now)) }
    ensures begins { IfOk result (λ plan. begins_in plan job.now ≡ true) }
{
    let Some(first) = job.elements().first() else {
        unreachable!();
    };
    Ok(plan_from(alloc, first.id.try_clone()?))
}

/// Returns the plan that begins at this element, with nothing carried, kept or barred.
fn plan_from(alloc: Global, from: T256) -> Plan
    ensures { result ≡ record { from = from; carried = []; kept = []; barred = [] } }
{
    Plan {
        from,
        carried: Listed::new(alloc),
        kept: Listed::new(alloc),
        barred: Listed::new(alloc),
    }
}

/// The work items of a job instance, with lists for looking them up by their step.
#[derive(Clone, Copy)]
pub(crate) struct Earlier<'a> {
    alloc: Global,
    records: &'a Records,
    instance: InstanceId,
    steps: &'a NameLists,
}

/// Returns those of the work items that are of a step.
fn works_of_step<'a>(earlier: &Earlier<'a>, id: &T256) -> Result<Vec<&'a WorkRow>, OutOfMemory>
    requires { AreLookedUp earlier.now }
    ensures { IfOk result (λ works. map (λ row. row.now) works.items
        ≡ works_of_step id.now (earlier_works earlier.now)) }
{
    earlier.records.works_of_step(earlier.steps, id.as_str())
}

/// Returns the exit status with which a step that isn't partitioned is carried.
fn exit_of_newest(earlier: &Earlier<'_>, id: &T256) -> Result<Option<T256>, OutOfMemory>
    requires { AreLookedUp earlier.now }
    ensures { IfOk result (λ exit. exit
        ≡ exit_of_newest (works_of_step id.now (earlier_works earlier.now))) }
{
    let Some(row) = earlier.records.newest_of_step(earlier.steps, id.as_str()) else {
        return Ok(None);
    };
    match completed_exit(&row.state) {
        None => Ok(None),
        Some(exit) => Ok(Some(exit.try_clone()?)),
    }
}

/// Returns the exit status with which a step of `count` partitions is carried.
fn exit_if_done(alloc: Global, count: u32, works: &[&WorkRow]) -> Result<Option<T256>, OutOfMemory>
    ensures { IfOk result (λ exit. exit ≡ exit_if_done count (map (λ row. row.now) works.now)) }
{
    if is_done(alloc, count, works)? {
        Ok(Some(T256::within(alloc, BatchStatus::Completed.name())?))
    } else {
        Ok(None)
    }
}

/// Returns the exit status with which a step is carried, from its work items.
fn exit_carried(earlier: &Earlier<'_>, one: &StepOf<'_>) -> Result<Option<T256>, OutOfMemory>
    requires { AreLookedUp earlier.now }
    ensures { IfOk result (λ exit. exit ≡ exit_carried one.now.step.now.partitions
        (works_of_step one.now.id.now (earlier_works earlier.now))) }
{
    match one.step.partitions {
        None => exit_of_newest(earlier, one.id),
        Some(count) => {
            let works = works_of_step(earlier, one.id)?;
            exit_if_done(earlier.alloc, count, works.as_slice())
        }
    }
}

/// Returns how often a step was started, from its work items.
fn starts_of(earlier: &Earlier<'_>, one: &StepOf<'_>) -> Result<usize, OutOfMemory>
    requires { AreLookedUp earlier.now }
    ensures { IfOk result (λ starts. starts ≡ starts_of one.now.step.now.partitions
        (works_of_step one.now.id.now (earlier_works earlier.now))) }
{
    match one.step.partitions {
        None => Ok(
            earlier
                .records
                .count_of_step(earlier.steps, one.id.as_str()),
        ),
        Some(_) => {
            let works = works_of_step(earlier, one.id)?;
            Ok(executions_with(earlier.alloc, works.as_slice())?.len())
        }
    }
}

/// Returns a step with its exit status, if it is carried.
fn carried_step(
    earlier: &Earlier<'_>,
    one: &StepOf<'_>,
) -> Result<Option<(T256, T256)>, OutOfMemory>
    requires { AreLookedUp earlier.now }
    ensures { IfOk result (λ step. step
        ≡ carried_step (earlier_works earlier.now) (job_step one.now)) }
{
    if one.step.allow_start_if_complete {
        return Ok(None);
    }
    match exit_carried(earlier, one)? {
        None => Ok(None),
        Some(exit) => Ok(Some((one.id.try_clone()?, exit))),
    }
}

/// Checks whether a step has reached its start limit.
fn is_barred(earlier: &Earlier<'_>, one: &StepOf<'_>) -> Result<bool, OutOfMemory>
    requires { AreLookedUp earlier.now }
    ensures { IfOk result (λ is. is ≡ is_barred (earlier_works earlier.now) (job_step one.now)) }
{
    let starts = starts_of(earlier, one)?;
    let limit = one.step.start_limit as u64;
    Ok(0 < limit && limit <= starts as u64)
}

/// Returns the kept partitions of a step, by rising number.
fn kept_of_step(earlier: &Earlier<'_>, one: &StepOf<'_>) -> Result<Vec<u32>, OutOfMemory>
    requires { AreLookedUp earlier.now }
    ensures { IfOk result (λ kept. kept.items ≡ partitions_kept one.now.step.now.partitions
        (works_of_step one.now.id.now (earlier_works earlier.now))) }
{
    match one.step.partitions {
        None => Ok(Vec::new(earlier.alloc)),
        Some(count) => {
            let works = works_of_step(earlier, one.id)?;
            partitions_kept(earlier.alloc, count, works.as_slice())
        }
    }
}

/// Adds these partitions of a step.
fn add_keys(kept: &mut Listed<WorkKey>, id: &T256, numbers: &[u32]) -> Result<(), OutOfMemory>
    ensures { OnOk result (kept.new ≡ kept.old ++ map (key_of id.now) numbers.now) }
{
    for partition in numbers {
        kept.push(WorkKey {
            element: id.try_clone()?,
            partition: *partition,
        })?;
    }
    Ok(())
}

/// Adds the kept partitions of a step.
fn add_kept(
    kept: &mut Listed<WorkKey>,
    earlier: &Earlier<'_>,
    one: &StepOf<'_>,
) -> Result<(), OutOfMemory>
    requires { AreLookedUp earlier.now }
    ensures { OnOk result (kept.new ≡ kept.old
        ++ kept_partitions (earlier_works earlier.now) (job_step one.now)) }
{
    let numbers = kept_of_step(earlier, one)?;
    add_keys(kept, one.id, numbers.as_slice())
}

/// Adds the carried steps.
fn add_carried_steps(
    carried: &mut Listed<(T256, T256)>,
    earlier: &Earlier<'_>,
    steps: &[StepOf<'_>],
) -> Result<(), OutOfMemory>
    requires { AreLookedUp earlier.now }
    ensures { OnOk result (carried.new ≡ carried.old
        ++ filter_map (carried_step (earlier_works earlier.now)) (map job_step steps.now)) }
{
    for one in steps {
        if let Some(step) = carried_step(earlier, one)? {
            carried.push(step)?;
        }
    }
    Ok(())
}

/// Adds the kept partitions.
fn add_kept_partitions(
    kept: &mut Listed<WorkKey>,
    earlier: &Earlier<'_>,
    steps: &[StepOf<'_>],
) -> Result<(), OutOfMemory>
    requires { AreLookedUp earlier.now }
    ensures { OnOk result (kept.new ≡ kept.old
        ++ flat_map (kept_partitions (earlier_works earlier.now)) (map job_step steps.now)) }
{
    for one in steps {
        add_kept(kept, earlier, one)?;
    }
    Ok(())
}

/// Adds the barred steps.
fn add_barred_steps(
    barred: &mut Listed<T256>,
    earlier: &Earlier<'_>,
    steps: &[StepOf<'_>],
) -> Result<(), OutOfMemory>
    requires { AreLookedUp earlier.now }
    ensures { OnOk result (barred.new ≡ barred.old ++ map (λ s. s.id)
        (filter (is_barred (earlier_works earlier.now)) (map job_step steps.now))) }
{
    for one in steps {
        if is_barred(earlier, one)? {
            barred.push(one.id.try_clone()?)?;
        }
    }
    Ok(())
}

/// Adds the carried steps, the kept partitions and the barred steps among these steps to a plan.
fn take_over_steps(
    plan: &mut Plan,
    earlier: &Earlier<'_>,
    steps: &[StepOf<'_>],
) -> Result<(), OutOfMemory>
    requires { AreLookedUp earlier.now }
    ensures { OnOk result (plan.new ≡ record {
      from = plan.old.from;
      carried = plan.old.carried
          ++ filter_map (carried_step (earlier_works earlier.now)) (map job_step steps.now);
      kept = plan.old.kept
          ++ flat_map (kept_partitions (earlier_works earlier.now)) (map job_step steps.now);
      barred = plan.old.barred ++ map (λ s. s.id)
          (filter (is_barred (earlier_works earlier.now)) (map job_step steps.now));
    }) }
{
    add_carried_steps(&mut plan.carried, earlier, steps)?;
    add_kept_partitions(&mut plan.kept, earlier, steps)?;
    add_barred_steps(&mut plan.barred, earlier, steps)
}

/// Adds to a plan what it takes over for these elements, from the work items of the earlier job
/// executions of its job instance.
fn take_over(
    plan: &mut Plan,
    earlier: &Earlier<'_>,
    elements: &[Element],
) -> Result<(), OutOfMemory>
    requires looked_up { AreLookedUp earlier.now }
    requires begins { plan.old
        ≡ record { from = plan.old.from; carried = []; kept = []; barred = [] } }
    ensures { (job : JobTree) → job.elements ≡ elements.now → OnOk result (plan.new
        ≡ plan_by plan.old.from (earlier_works earlier.now) (Some job)) }
{
    let steps = steps_in(earlier.alloc, elements)?;
    take_over_steps(plan, earlier, steps.as_slice())
}

/// Like `take_over`, but first makes the lists for looking up the work items by their step.
fn take_over_unsorted(
    plan: &mut Plan,
    alloc: Global,
    records: &Records,
    instance: InstanceId,
    elements: &[Element],
) -> Result<(), OutOfMemory>
    requires { plan.old ≡ record { from = plan.old.from; carried = []; kept = []; barred = [] } }
    ensures { (job : JobTree) → job.elements ≡ elements.now → OnOk result (plan.new
        ≡ plan_by plan.old.from
        (works_of_instance instance records.now.executions records.now.works) (Some job)) }
{
    let steps = records.steps_made(instance)?;
    let earlier = Earlier {
        alloc,
        records,
        instance,
        steps: &steps,
    };
    take_over(plan, &earlier, elements)
}

/// Like `take_over`, from the rows of the job instance.
fn take_over_by_rows(
    plan: &mut Plan,
    alloc: Global,
    records: &Records,
    instance: InstanceId,
    elements: &[Element],
) -> Result<(), OutOfMemory>
    requires { plan.old ≡ record { from = plan.old.from; carried = []; kept = []; barred = [] } }
    ensures { (job : JobTree) → job.elements ≡ elements.now → OnOk result (plan.new
        ≡ plan_by plan.old.from
        (works_of_instance instance records.now.executions records.now.works) (Some job)) }
{
    match records.steps_of(instance) {
        None => take_over_unsorted(plan, alloc, records, instance, elements),
        Some(steps) => {
            let earlier = Earlier {
                alloc,
                records,
                instance,
                steps,
            };
            take_over(plan, &earlier, elements)
        }
    }
}

/// Returns the plan of a job execution that begins at this element. Its job has these elements. The
/// plan takes over from the work items of the earlier job executions of its job instance.
pub(crate) fn plan_after(
    alloc: Global,
    records: &Records,
    instance: InstanceId,
    from: T256,
    elements: &[Element],
) -> Result<Plan, OutOfMemory>
    ensures { (job : JobTree) → job.elements ≡ elements.now → IfOk result (λ plan. plan
        ≡ plan_by from (works_of_instance instance records.now.executions records.now.works)
        (Some job)) }
{
    let mut plan = plan_from(alloc, from);
    match take_over_by_rows(&mut plan, alloc, records, instance, elements) {
        Ok(()) => Ok(plan),
        Err(refused) => {
            drop(plan);
            Err(refused)
        }
    }
}
