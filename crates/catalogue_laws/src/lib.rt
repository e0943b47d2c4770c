#![tactic(auto)]
//! Laws of what becomes of a history if its catalogue changes. Each function does nothing: its
//! contract is a law.

mod hidden;
mod leaving;
mod renamed;

pub use hidden::hidden_jobs_change_no_reply;
pub use leaving::jobs_that_no_row_names_may_leave_a_catalogue;
pub use renamed::legal_histories_stay_legal_with_jobs_renamed;
