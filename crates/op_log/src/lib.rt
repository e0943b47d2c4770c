//! A job repository, with the log of the operations that it accepted.
#![tactic(auto)]

mod book;

pub use book::Book;
pub use job_repository::{
    Answer, Call, CountsByStatus, Entry, JobExecution, JobInstance, JobRepository, Query, Reply,
    StepExecution, WorkItem, WorkKind, WorkTask,
};
