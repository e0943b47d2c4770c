//! Single calls of values: texts, parameters, jobs, catalogues, rows, restarts and walks.
#![tactic(auto)]

mod catalogues;
mod jobs;
mod parameters;
mod restarts;
mod rows;
mod texts;
mod walks;

pub use catalogues::run_catalogue;
pub use jobs::run_job;
pub use parameters::run_parameters;
pub use restarts::run_restart;
pub use rows::run_row;
pub use texts::run_text;
pub use walks::run_walk;
