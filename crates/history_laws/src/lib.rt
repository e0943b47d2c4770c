#![tactic(auto)]
//! Laws of every legal history, above the definitions of rows, replies and answers. Each function
//! does nothing: its contract is a law.

mod growth;
mod law;
mod partitions;
mod same_rows;

pub use growth::legal_histories_stay_legal_over_more_jobs;
pub use law::{
    chunks_go_on_from_their_checkpoints, ends_are_moments_of_operations,
    finished_job_executions_stay_finished, job_executions_go_by_the_plan_of_their_restart,
    job_executions_have_job_instances, job_instances_have_at_most_one_unfinished_job_execution,
    job_names_stand_once_in_order_of_least_job_instance,
    jobs_of_job_executions_are_in_the_catalogue, no_work_is_of_a_carried_or_barred_step,
    purged_job_executions_are_finished, restarts_follow_the_most_recent_job_execution,
    what_is_handed_out_was_ready, work_belongs_to_unfinished_job_executions,
};
pub use partitions::{
    partitioned_steps_end_once_they_are_not_started,
    partitioned_steps_have_the_outcome_of_the_walk,
    partitions_are_kept_until_a_job_execution_is_done,
};
pub use same_rows::histories_with_the_same_rows_are_answered_alike;
