//! Restarts of job executions (Jakarta Batch 2.1, "Job Restart Processing"): which of them may be
//! restarted, and the plan of the next job execution.
#![tactic(auto)]

mod law;
mod partitions;
mod plan;
mod restart;
mod steps;
mod walks;

pub use law::restarts_are_due_what_the_history_says;
pub use plan::first_plan;
pub use restart::{restart_plan, restart_refusal};
pub use walks::{known_of, state_fact, walk_of, walk_value};
