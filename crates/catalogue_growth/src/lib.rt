//! A check of whether a catalogue begins with all jobs of another one, each equal.
#![tactic(auto)]

mod growth;
mod sameness;

pub use growth::first_other_job;
pub use sameness::is_same_job;
