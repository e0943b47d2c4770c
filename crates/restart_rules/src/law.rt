//! The law of the restart rules, over the rows of a legal history.
ghost use Rattle.std.specs.Prelude.{ℕ, ◌≡◌, ◌+◌, List, Ok, Err};
ghost use Rattle.batch_ids.specs.Parameters.{Pair};
ghost use Rattle.batch_ids.specs.declared.refusal.Refusal.{Refusal as Refused};
ghost use Rattle.batch_history.specs.declared.call.Call.TheVariants.{Restart};
ghost use Rattle.batch_history.specs.declared.call.Reply.TheVariants.{Execution as IsExecution};
ghost use Rattle.batch_history.specs.Legal.{IsLegal};
ghost use Rattle.batch_history.specs.Replies.{accepted, reply};
ghost use Rattle.batch_history.specs.Rows.{History, rows};
ghost use Rattle.job_plans.specs.declared.plan.Plan.{Plan as PlanOf};
ghost use Rattle.jsl_model.specs.Catalogues.{AreJobs};
ghost use Rattle.restart_rules.specs.Histories.{plan_in, restarted};
ghost use Rattle.restart_rules.specs.Placed.{ArePlaced, IsPlaced};
ghost use Rattle.restart_rules.specs.Restarting.{plan_due};

/// Over the rows of a legal history, `restart_refusal` and `restart_plan` agree with the history
/// (Jakarta Batch 2.1, "Job Restart Processing").
///
/// - `placed`, `each`: the job of each job execution is in the catalogue, and its walk begins at an
///   element of the job's own list. So both may be called for every number.
/// - `refused`: if there is a refusal, it is the reply to the restart.
/// - `accepted`: if there is none, the restart is accepted, unless the history is full.
/// - `plan`: a job execution that a restart made has the plan that `restart_plan` returns before
///   it.
///
/// The function does nothing. Its contract is the law, which holds of every legal history over a
/// catalogue of checked jobs.
pub fn restarts_are_due_what_the_history_says()
    ensures placed { (limit : ℕ) (h : History) → AreJobs h.catalogue → IsLegal limit h
        → ArePlaced h.catalogue (rows h).executions }
    ensures each { (limit : ℕ) (h : History) → AreJobs h.catalogue → IsLegal limit h → (x : ℕ)
        → IsPlaced h.catalogue (rows h).executions x }
    ensures refused { (limit : ℕ) (h : History) (who x : ℕ) (parameters : List Pair)
        → (refusal : Refused) → plan_due (rows h) x ≡ Err refusal
        → reply limit h who (Restart x parameters) ≡ Err refusal }
    ensures accepted { (limit : ℕ) (h : History) (who x : ℕ) (parameters : List Pair)
        → (plan : PlanOf) → plan_due (rows h) x ≡ Ok plan
        → reply limit h who (Restart x parameters)
        ≡ accepted limit (rows h).count (IsExecution ((rows h).last.execution + 1)) }
    ensures plan { (limit : ℕ) (h : History) (who at x y : ℕ) (parameters : List Pair)
        → IsLegal limit (restarted h who at x parameters y)
        → plan_due (rows h) x ≡ Ok (plan_in (restarted h who at x parameters y) y) }
{}
