//! Catalogues of jobs, read from JSON (Jakarta Batch 2.1, "Job Specification Language").
#![tactic(auto)]

mod catalogue;
mod element;
mod fault;
mod member_fault;
mod members;
mod task;
mod text;
mod transition;

pub use catalogue::read_catalogue;
pub use fault::ReadFault;
