ghost use Rattle.std.specs.Prelude.{ℕ, List, All, Contains, true, find, Some, ◌≡◌, ◌≢◌};
ghost use Rattle.std.specs.Str.{bytes_eq};
ghost use Rattle.batch_ids.specs.declared.status.BatchStatus.{BatchStatus};
ghost use Rattle.jsl_model.specs.Jobs.{JobTree};
ghost use Rattle.jsl_model.specs.Faults.{IsChecked};
ghost use Rattle.jsl_model.specs.Targets.{named_in};
ghost use Rattle.walk_rules.specs.declared.facts.Fact.{Fact};
ghost use Rattle.walk_rules.specs.declared.facts.Known.{Known};
ghost use Rattle.job_plans.specs.declared.plan.Plan.{Plan};
ghost use Rattle.walk_rules.specs.Keys.{has_key};
ghost use Rattle.job_plans.specs.Cursors.{CursorState, known_keys, fact_at_first, resumed, value_in, with_fact, IsCursor};
ghost use Rattle.walk_rules.specs.Shown.{ready_of, busy_of, is_shown};
ghost use Rattle.walk_rules.specs.declared.work_key.WorkKey.{WorkKey};
ghost use Rattle.job_plans.specs.Lists.{has_element, value_from, Agree, StandsIn};
ghost use Rattle.job_plans.specs.Runnables.{leaves, all_leaves, all_keys, keys_of};
ghost use Rattle.walk_rules.specs.Walk.{fact_of, value_of, walked_element};

use jsl_model::Element;
use walk_rules::Value;

/// A work key's fact is the last one that a walk was given. The facts of other work keys stay.
///
/// The function does nothing: its contract is the law. Each ready or busy work key has a fact. So a
/// partition is busy after `take` and over after `report`, whatever its fact was before.
pub fn the_newest_fact_counts()
    ensures known { (cursor : CursorState) → IsCursor cursor → (key : WorkKey)
        → is_shown (value_in cursor) key ≡ true → has_key (known_keys cursor.facts) key ≡ true }
    ensures one { (cursor : CursorState) (key : WorkKey) (fact : Fact)
        → has_key (known_keys cursor.facts) key ≡ true
        → fact_of (with_fact cursor key fact).facts key ≡ fact }
    ensures others { (cursor : CursorState) (key : WorkKey) (fact : Fact) (other : WorkKey)
        → key ≢ other
        → fact_of (with_fact cursor key fact).facts other ≡ fact_of cursor.facts other }
{}

/// A restart begins at an element of the job's own list. The restart point with which a checked
/// job's walk ends is the id of such an element, whatever the facts and the walk's beginning.
///
/// The function does nothing: its contract is the law. See Jakarta Batch 2.1, "Job Restart
/// Processing".
pub fn a_restart_begins_at_a_job_level_element()
    ensures { (job : JobTree) → IsChecked job → (facts : WorkKey → Fact) (from : List ℕ)
        (status : BatchStatus) (exit point : List ℕ)
        → value_of facts job.elements from ≡ Value.Ended status exit (Some point)
        → has_element job.elements point ≡ true }
{}

/// A list goes on from element to element. Its value from an element is that element's own result,
/// carried on by the list's value from the element that follows. The following element is in the
/// list. So no walk over a list of a checked job, at any depth, runs out of elements or leaves the
/// list.
///
/// The function does nothing: its contract is the law. See Jakarta Batch 2.1, "Job Specification
/// Language".
pub fn a_list_goes_on_from_element_to_element()
    ensures value { (job : JobTree) → IsChecked job
        → (list : List Element) → StandsIn list job.elements
        → (facts : WorkKey → Fact) (id : List ℕ) (element : Element)
        → find (λ (e : Element). bytes_eq e.id id) list ≡ Some element
        → value_of facts list id ≡ value_from facts list element }
    ensures targets { (job : JobTree) → IsChecked job
        → (list : List Element) → StandsIn list job.elements
        → (element : Element) → Contains list element
        → (to : List ℕ) → Contains (named_in element.next element.transitions) to
        → has_element list to ≡ true }
{}

/// A walk depends only on the facts of the job's work keys. Equal facts of a list's work keys give
/// the list the same value. Equal facts of an element's work keys give the element the same own
/// result.
///
/// The function does nothing: its contract is the law.
pub fn steps_and_decisions_decide_a_walk()
    ensures value { (facts later : WorkKey → Fact) (elements : List Element)
        → Agree facts later (all_leaves elements)
        → (from : List ℕ) → value_of facts elements from ≡ value_of later elements from }
    ensures element { (facts later : WorkKey → Fact) (element : Element)
        → Agree facts later (leaves element)
        → walked_element facts element ≡ walked_element later element }
{}

/// Each ready or busy work key that a walk shows is of a step or a decision of its list, at any
/// depth.
///
/// The function does nothing: its contract is the law.
pub fn what_is_shown_is_a_step_or_decision()
    ensures ready { (facts : WorkKey → Fact) (elements : List Element) (from : List ℕ)
        (key : WorkKey) → has_key (ready_of (value_of facts elements from)) key ≡ true
        → has_key (all_keys (all_leaves elements)) key ≡ true }
    ensures busy { (facts : WorkKey → Fact) (elements : List Element) (from : List ℕ)
        (key : WorkKey) → has_key (busy_of (value_of facts elements from)) key ≡ true
        → has_key (all_keys (all_leaves elements)) key ≡ true }
{}

/// The first facts decide a walk. If `facts` has the first fact of each work key of the job, the
/// walk's value is the job's value by `facts`.
///
/// The function does nothing: its contract is the law.
pub fn what_is_known_at_first_decides_a_walk()
    ensures { (job : JobTree) (plan : Plan) (known : List Known) (facts : WorkKey → Fact)
        → All (λ leaf. All (λ key.
        facts key ≡ fact_at_first plan known leaf.partitions key leaf.runs)
        (keys_of leaf)) (all_leaves job.elements)
        → value_in (resumed job plan known) ≡ value_of facts job.elements plan.from }
{}
