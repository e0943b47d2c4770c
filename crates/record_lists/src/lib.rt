//! The lists that the rows of a job repository are kept in and found by: numbers by name, and
//! checkpoints by job instance.
#![tactic(auto)]

mod checkpoint_lists;
mod name_lists;

pub use checkpoint_lists::CheckpointLists;
pub use name_lists::{NameLists, remove_number};
