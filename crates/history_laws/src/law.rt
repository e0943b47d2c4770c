ghost use Rattle.std.specs.Prelude.{ℕ, ◌≡◌, ◌≢◌, Option, ◌++◌, ◌∷◌, List, None, Some, Ok, true, false, is_some, reverse};
ghost use Rattle.batch_ids.specs.Parameters.{Pair};
ghost use Rattle.jsl_model.specs.Names.{has_twice};
ghost use Rattle.batch_history.specs.declared.call.Call.TheVariants.{Restart, Purge};
ghost use Rattle.batch_history.specs.declared.call.Entry.{Entry};
ghost use Rattle.batch_history.specs.declared.call.Reply.TheVariants.{Work, Execution as IsExecution};
ghost use Rattle.batch_history.specs.declared.call.WorkItem.{WorkItem};
ghost use Rattle.batch_history.specs.declared.call.WorkTask.TheVariants.{Chunk};
ghost use Rattle.batch_history.specs.declared.query.Query.TheVariants.{JobNames};
ghost use Rattle.batch_history.specs.declared.query.Answer.TheVariants.{JobNames as AreNames};
ghost use Rattle.batch_history.specs.declared.rows.ExecutionRow.{ExecutionRow};
ghost use Rattle.batch_history.specs.declared.rows.WorkRow.{WorkRow};
ghost use Rattle.batch_history.specs.Answers.{answer};
ghost use Rattle.batch_history.specs.Legal.{IsLegal, grown};
ghost use Rattle.batch_history.specs.Operations.{purged_by};
ghost use Rattle.batch_history.specs.Purges.{is_purged};
ghost use Rattle.batch_history.specs.Replies.{row_status};
ghost use Rattle.batch_history.specs.Walks.{job_named};
ghost use Rattle.batch_history.specs.Works.{work_key};
ghost use Rattle.batch_history.specs.Rows.{History};
ghost use Rattle.batch_history.specs.Statuses.{is_finished};
ghost use Rattle.history_laws.specs.Laws.{beginning, row_in, work_in, instances_in, instances_but, names_of, names_in, StaysFinished, EndedAt, BelongsTo, WasReady, IsOfOpenStep, GoesOnFrom, RestartsFollow, HasOneUnfinishedEach, FollowsFrom, KeepsPlan, HasInstance, with_name};

/// A finished job execution stays finished. Whatever is accepted later, its row stays as it was,
/// with its exit status, start and end. Only whether it is abandoned and the moment of the last
/// operation on it may change.
///
/// The function does nothing: its contract is the law, of every legal history and each of its
/// beginnings.
#[tactic(auto, using(crate::proofs::Laws::finished_stays))]
pub fn finished_job_executions_stay_finished()
    ensures { (limit : ℕ) (h : History) → IsLegal limit h → (before after : List Entry)
        → h.log ≡ before ++ after → (x : ℕ) (row : ExecutionRow)
        → row_in (beginning h before) x ≡ Some row → is_finished (row_status row) ≡ true
        → StaysFinished h x row }
{}

/// A job execution has an end exactly if it is finished. The end is the moment of the operation
/// after which it was finished for the first time.
///
/// The function only cites the law that it rests on: its contract is the law.
pub fn ends_are_moments_of_operations()
    ensures there { (limit : ℕ) (h : History) → IsLegal limit h → (x : ℕ) (row : ExecutionRow)
        → row_in h x ≡ Some row → is_some row.end ≡ is_finished row.bare }
    ensures moment { (limit : ℕ) (h : History) → IsLegal limit h → (x t : ℕ) (row : ExecutionRow)
        → row_in h x ≡ Some row → row.end ≡ Some t → EndedAt h x t }
{
    finished_job_executions_stay_finished();
}

/// Each work item belongs to a job execution that was taken up, and that is unfinished while the
/// work item is busy. The work item is of a step or a decision of its job. It names a partition
/// exactly if that step is partitioned.
///
/// No work key of a job execution has two work items. So no decision has two, no step that is not
/// partitioned, and no partition of a step.
///
/// The function does nothing: its contract is the law, of every legal history.
#[tactic(auto, using(crate::proofs::Laws::belongs, crate::proofs::Laws::once_each))]
pub fn work_belongs_to_unfinished_job_executions()
    ensures belongs { (limit : ℕ) (h : History) → IsLegal limit h → (w : ℕ) (work : WorkRow)
        → work_in h w ≡ Some work → BelongsTo h work }
    ensures once { (limit : ℕ) (h : History) → IsLegal limit h → (v w : ℕ) (one other : WorkRow)
        → work_in h v ≡ Some one → work_in h w ≡ Some other → v ≢ w
        → one.execution ≡ other.execution → work_key one ≢ work_key other }
{}

/// A work item that is handed out was ready. The reply has the next number, and the first ready
/// work key of the least job execution with something to do, by the operations before it. The walk
/// begins at the element at which the job execution begins. A chunk goes on from the checkpoint of
/// its step or partition. A partition is named exactly if the step is partitioned.
///
/// The function does nothing: its contract is the law, of every entry of a legal history.
#[tactic(auto, using(crate::proofs::Handing::handed_ready))]
pub fn what_is_handed_out_was_ready()
    ensures { (limit : ℕ) (h : History) → IsLegal limit h
        → (before : List Entry) (e : Entry) (after : List Entry) → h.log ≡ before ++ e ∷ after
        → (item : WorkItem) → e.reply ≡ Work item → WasReady (beginning h before) item }
{}

/// No work is handed out of a step that the job execution carries from an earlier one, or that has
/// reached its start limit. Nor is work handed out of a partition kept from an earlier job
/// execution (Jakarta Batch 2.1, "Job Restart Processing").
///
/// The function does nothing: its contract is the law, of every entry of a legal history.
#[tactic(auto, using(crate::proofs::Handing::handed_open))]
pub fn no_work_is_of_a_carried_or_barred_step()
    ensures { (limit : ℕ) (h : History) → IsLegal limit h
        → (before : List Entry) (e : Entry) (after : List Entry) → h.log ≡ before ++ e ∷ after
        → (item : WorkItem) → e.reply ≡ Work item → IsOfOpenStep (beginning h before) item }
{}

/// Each chunk goes on from the checkpoint of its step or partition. It is the one that the
/// operations before it left in the job instance (Jakarta Batch 2.1, "Checkpoint Algorithm").
///
/// The function does nothing: its contract is the law, of every entry of a legal history.
#[tactic(auto, using(crate::proofs::Handing::handed_from))]
pub fn chunks_go_on_from_their_checkpoints()
    ensures { (limit : ℕ) (h : History) → IsLegal limit h
        → (before : List Entry) (e : Entry) (after : List Entry) → h.log ≡ before ++ e ∷ after
        → (item : WorkItem) → e.reply ≡ Work item
        → (reader writer : List ℕ) (processor : Option (List ℕ)) (count : ℕ)
        → (mark : Option (List ℕ)) → item.task ≡ Chunk reader processor writer count mark
        → GoesOnFrom (beginning h before) item mark }
{}

/// Each restart follows the most recent job execution of its job instance, which is STOPPED or
/// FAILED (Jakarta Batch 2.1, "JobOperator", restart).
///
/// The function does nothing: its contract is the law, of every entry of a legal history.
#[tactic(auto, using(crate::proofs::Restarts::restart_follows))]
pub fn restarts_follow_the_most_recent_job_execution()
    ensures { (limit : ℕ) (h : History) → IsLegal limit h → RestartsFollow h }
{}

/// At every moment a job instance has at most one unfinished job execution.
///
/// The function does nothing: its contract is the law, of every legal history and each of its
/// beginnings.
#[tactic(auto, using(crate::proofs::Restarts::one_unfinished))]
pub fn job_instances_have_at_most_one_unfinished_job_execution()
    ensures { (limit : ℕ) (h : History) → IsLegal limit h → HasOneUnfinishedEach h }
{}

/// A job execution follows the plan that its restart gave it. The plan comes from the job execution
/// that the restart names, and from the work of its job instance so far. Whatever is accepted
/// later, the element at which it begins, its carried steps, its kept partitions and its barred
/// steps stay.
///
/// The function does nothing: its contract is the law, of every legal history and each of its
/// beginnings.
#[tactic(auto, using(crate::proofs::Restarts::restart_gives, crate::proofs::Restarts::plan_stays))]
pub fn job_executions_go_by_the_plan_of_their_restart()
    ensures given { (limit : ℕ) (h : History) → IsLegal limit h
        → (before : List Entry) (e : Entry) (after : List Entry) → h.log ≡ before ++ e ∷ after
        → (y x : ℕ) (parameters : List Pair) → e.call ≡ Restart y parameters
        → e.reply ≡ IsExecution x → FollowsFrom (beginning h before) e y x }
    ensures kept { (limit : ℕ) (h : History) → IsLegal limit h → (before after : List Entry)
        → h.log ≡ before ++ after → (x : ℕ) (row : ExecutionRow)
        → row_in (beginning h before) x ≡ Some row → KeepsPlan h x row }
{}

/// Each job execution of a purged job instance is finished.
///
/// The function does nothing: its contract is the law, of every legal history.
pub fn purged_job_executions_are_finished()
    ensures { (limit : ℕ) (h : History) → IsLegal limit h → (x : ℕ) (row : ExecutionRow)
        → row_in h x ≡ Some row → is_purged (reverse h.log) row.instance ≡ true
        → is_finished (row_status row) ≡ true }
{}

/// Each job execution is of a job instance that was begun, and of its job.
///
/// The function does nothing: its contract is the law, of every legal history.
#[tactic(auto, using(crate::proofs::Laws::has_instance))]
pub fn job_executions_have_job_instances()
    ensures { (limit : ℕ) (h : History) → IsLegal limit h → (x : ℕ) (row : ExecutionRow)
        → row_in h x ≡ Some row → HasInstance h row }
{}

/// The job of each job execution is in the catalogue, so that its walk is that of its job.
///
/// The function does nothing: its contract is the law, of every legal history.
pub fn jobs_of_job_executions_are_in_the_catalogue()
    ensures { (limit : ℕ) (h : History) → IsLegal limit h → (x : ℕ) (row : ExecutionRow)
        → row_in h x ≡ Some row → is_some (job_named h.catalogue row.job) ≡ true }
{}

/// The list of job names has each name once, in the order of the least job instance of each. A
/// start of a job that is not in the list appends its name. A purge leaves the names of the other
/// job instances, in their order. Nothing else changes the list. It is the answer of the query of
/// job names.
///
/// The function does nothing. Its contract is the law, of every legal history. Two of its parts
/// hold for every history.
#[tactic(auto, using(crate::proofs::Names::names_once))]
pub fn job_names_stand_once_in_order_of_least_job_instance()
    ensures once { (h : History) → has_twice (names_in h) ≡ false }
    ensures order { (limit : ℕ) (h : History) (e : Entry) → IsLegal limit (grown h e)
        → purged_by e.call ≡ None → names_in (grown h e) ≡ with_name (names_in h) e.call }
    ensures purged { (limit : ℕ) (h : History) (e : Entry) (i : ℕ) → IsLegal limit (grown h e)
        → e.call ≡ Purge i → names_in (grown h e) ≡ names_of (instances_but i (instances_in h)) }
    ensures answered { (h : History) → answer h JobNames ≡ Ok (AreNames (names_in h)) }
{}
