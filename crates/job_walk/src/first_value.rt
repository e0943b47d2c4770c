//! The value of a walk at its beginning.
ghost use Rattle.std.specs.Prelude.{◌≡◌, [], true, IfOk};
ghost use Rattle.job_plans.specs.Cursors.{begins_in, resumed, value_in};

use crate::cursor::Cursor;
use crate::walk::walk_value;
use batch_ids::OutOfMemory;
use job_plans::Plan;
use jsl_model::Job;
use std::alloc::Global;
use walk_rules::{Known, Value};

/// Checks whether a plan says nothing of any step.
fn says_nothing(plan: &Plan) -> bool
    ensures { result ≡ true
        → (plan.now.carried ≡ []) × (plan.now.kept ≡ []) × (plan.now.barred ≡ []) }
{
    plan.carried.is_empty() && plan.kept.is_empty() && plan.barred.is_empty()
}

/// Returns the value of the job whose walk begins by this plan, with these facts already. It is the
/// value of the cursor that `Cursor::resume` makes.
///
/// If the plan says nothing of any step and `known` is empty, it walks only to the first steps and
/// decisions that may be run. Otherwise it walks each list of the job once.
///
/// # Errors
///
/// Returns `OutOfMemory` if memory is refused.
pub fn value_at_first(
    alloc: Global,
    job: &Job,
    plan: &Plan,
    known: &[Known],
) -> Result<Value, OutOfMemory>
    requires from { begins_in plan.now job.now ≡ true }
    ensures { IfOk result (λ value. value ≡ value_in (resumed job.now plan.now known.now)) }
{
    if known.is_empty() && says_nothing(plan) {
        return walk_value(alloc, known, job.elements(), &plan.from);
    }
    let cursor = Cursor::resume(alloc, job, plan, known)?;
    Ok(cursor.into_value())
}
