//! What a job execution may run by its plan: the plan of a walk, the steps and decisions of a job with
//! their work keys, and the laws of a job's lists and of the facts about them.
#![tactic(auto)]

mod law;
mod plan;
mod runnable;

pub use law::{
    a_list_goes_on_from_element_to_element, a_restart_begins_at_a_job_level_element,
    steps_and_decisions_decide_a_walk, the_newest_fact_counts,
    what_is_known_at_first_decides_a_walk, what_is_shown_is_a_step_or_decision,
};
pub use plan::Plan;
pub use runnable::{Runnable, find_partitions, find_runnable, find_task};
