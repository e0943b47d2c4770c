//! The rows of a job repository: job instances, job executions, work items and checkpoints.
#![tactic(auto)]

mod index_rows;
mod number_lists;
mod readers;
mod records;
mod row_list;
mod running;
mod running_names;
mod step_lists;

pub use readers::{ExecutionsOf, InstancesOf, Names, WorksOf};
pub use record_lists::NameLists;
pub use records::Records;
pub use row_list::RowsLeft;
