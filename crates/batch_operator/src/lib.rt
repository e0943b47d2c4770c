//! The operator of a batch service. Many threads start, stop, restart, abandon and inspect jobs,
//! and claim, report and finish work, over one job repository. Each reply is the one that a
//! single-threaded repository gives after the first operations of one growing history.
#![tactic(auto)]

mod calls;
mod copy_count;
mod operator;
mod queries;
mod states;

pub use copy_count::CopyCount;
pub use operator::Operator;
