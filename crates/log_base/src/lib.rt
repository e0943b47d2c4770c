//! The base of a log: the rows of a job repository, one a line, and the repository that is restored
//! from them.
#![tactic(auto)]

mod adding;
mod fault;
mod head;
mod restored;
mod writing;

pub use fault::BaseFault;
pub use restored::restored_base;
pub use writing::{RebuiltLog, rebuilt_log};
