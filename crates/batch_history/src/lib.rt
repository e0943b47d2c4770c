//! Calls, replies, queries and answers of the job repository, and the rows of a history of accepted
//! operations: job instances, job executions and work items.
#![tactic(auto)]

mod call;
mod law;
mod query;
mod rows;

pub use call::{Call, Entry, Reply, WorkItem, WorkKind, WorkTask};
pub use law::legal_histories_grow;
pub use query::{Answer, CountsByStatus, JobExecution, Query, StepExecution};
pub use rows::{CheckpointRow, ExecutionRow, JobInstance, LastNumbers, WorkRow, WorkState};
