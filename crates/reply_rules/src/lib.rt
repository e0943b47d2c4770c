//! The replies to calls, from the rows of a repository (Jakarta Batch 2.1, "JobOperator" and
//! "JobRepository"). Also the statuses of a job execution, from its walk, and whether there is
//! something to do for it.
#![tactic(auto)]

mod replies;
mod search;
mod standing;
mod status;

pub use replies::accept;
pub use standing::Standing;
pub use status::{
    batch_status, earliest, exit_or_name, exit_status, first_ready, has_something, is_finished,
};
