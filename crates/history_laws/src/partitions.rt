ghost use Rattle.std.specs.Prelude.{ℕ, ◌≡◌, ◌≢◌, ◌<◌, ◌↔◌, List, None, Some, Ok, true};
ghost use Rattle.batch_ids.specs.declared.status.BatchStatus.TheVariants.{Started};
ghost use Rattle.jsl_model.specs.Catalogues.{AreJobs};
ghost use Rattle.batch_history.specs.declared.query.Answer.TheVariants.{StepExecutions as AreStepExecutions};
ghost use Rattle.batch_history.specs.declared.query.Query.TheVariants.{StepExecutions};
ghost use Rattle.batch_history.specs.declared.query.StepExecution.{StepExecution};
ghost use Rattle.batch_history.specs.declared.rows.ExecutionRow.{ExecutionRow};
ghost use Rattle.batch_history.specs.Answers.{answer};
ghost use Rattle.batch_history.specs.Legal.{IsLegal};
ghost use Rattle.batch_history.specs.Rows.{History};
ghost use Rattle.batch_history.specs.Walks.{job_named};
ghost use Rattle.history_laws.specs.Laws.{row_in, works_of_instance_in};
ghost use Rattle.history_laws.specs.Partitions.{works_of_step_in, is_kept_in, is_done_in, all_kept_in, IsKept, IsDone};
ghost use Rattle.history_laws.specs.StepExecutions.{step_in, IsPartitioned, StepEnds, AreStepsOf, IsThrough, HasResult};

/// A job execution keeps a partition of a step exactly under two conditions (Jakarta Batch 2.1,
/// "Step Partitioning" and "Job Restart Processing"):
///
/// - The newest work item of the partition in earlier job executions of its job instance is
///   COMPLETED.
/// - No job execution from that of the work item up to this one is done with the step.
///
/// A job execution is done with a step exactly if it has a work item of the step, and each
/// partition is kept by it or has a COMPLETED work item in it. The plan of a job execution has
/// exactly these kept partitions.
///
/// The function does nothing: its contract is the law, of every legal history.
pub fn partitions_are_kept_until_a_job_execution_is_done()
    ensures kept { (limit : ℕ) (h : History) → IsLegal limit h → (i n x p : ℕ) (step : List ℕ)
        → (is_kept_in n (works_of_step_in h i step) x p ≡ true)
        ↔ IsKept n (works_of_step_in h i step) x p }
    ensures done { (limit : ℕ) (h : History) → IsLegal limit h → (i n y : ℕ) (step : List ℕ)
        → (is_done_in n (works_of_step_in h i step) y ≡ true)
        ↔ IsDone n (works_of_step_in h i step) y }
    ensures plan { (h : History) (x : ℕ) (row : ExecutionRow) → row_in h x ≡ Some row
        → row.plan.kept
        ≡ all_kept_in (works_of_instance_in h row.instance) x (job_named h.catalogue row.job) }
{}

/// The step execution of a partitioned step has no end while it is STARTED. Its end is the moment
/// of the first operation after which it is not STARTED (Jakarta Batch 2.1, "StepExecution"). These
/// step executions are the answer of the query.
///
/// The function does nothing: its contract is the law, of every legal history over the jobs of a
/// catalogue.
pub fn partitioned_steps_end_once_they_are_not_started()
    ensures started { (limit : ℕ) (h : History) → IsLegal limit h → AreJobs h.catalogue
        → (x n : ℕ) (step : List ℕ) → IsPartitioned h x step n → (shown : StepExecution)
        → step_in h x step ≡ Some shown → shown.status ≡ Started → shown.end ≡ None }
    ensures ended { (limit : ℕ) (h : History) → IsLegal limit h → AreJobs h.catalogue
        → (x n : ℕ) (step : List ℕ) → IsPartitioned h x step n → (shown : StepExecution)
        → step_in h x step ≡ Some shown → shown.status ≢ Started → StepEnds h x step shown.end }
    ensures answered { (limit : ℕ) (h : History) → IsLegal limit h
        → (x : ℕ) (steps : List StepExecution)
        → answer h (StepExecutions x) ≡ Ok (AreStepExecutions steps) → AreStepsOf h x steps }
{}

/// If each partition of a partitioned step is kept or over, the step has the outcome that the job
/// execution's walk gives it. Its step execution has the outcome's status, and the outcome's name
/// as the exit status (Jakarta Batch 2.1, "Step Partitioning").
///
/// The function does nothing: its contract is the law, of every legal history over the jobs of a
/// catalogue.
pub fn partitioned_steps_have_the_outcome_of_the_walk()
    ensures { (limit : ℕ) (h : History) → IsLegal limit h → AreJobs h.catalogue
        → (x n : ℕ) (step : List ℕ) → (of : IsPartitioned h x step n) → (shown : StepExecution)
        → step_in h x step ≡ Some shown → ((p : ℕ) → p < n → IsThrough h of.owner step p)
        → HasResult h of.owner step n shown }
{}
