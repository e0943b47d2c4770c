//! What a job repository for one caller is. It stands above the histories, and below everything
//! that uses a repository.
#![tactic(auto)]

mod repository;

pub use batch_history::{
    Answer, Call, CountsByStatus, Entry, JobExecution, JobInstance, Query, Reply, StepExecution,
    WorkItem, WorkKind, WorkTask,
};
pub use repository::JobRepository;
