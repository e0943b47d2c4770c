//! The sequential job repository: the reply to each call, and the answer to each query, after a
//! history of accepted operations. It stores the history as rows.
#![tactic(auto)]

mod adding;
mod after;
mod agenda;
mod answers;
mod bound;
mod bound_rows;
mod cursors;
mod entering;
mod replies;
mod repository;
mod restored;
mod restoring;
mod rows;
mod search;
mod steps;

pub use batch_history::{
    Answer, Call, CountsByStatus, Entry, JobExecution, JobInstance, Query, Reply, StepExecution,
    WorkItem, WorkKind, WorkTask,
};
pub use repository::Repository;
pub use restored::Restored;
pub use row_repository::RowFault;
