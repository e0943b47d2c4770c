//! How deep the elements of a job are.
#![tactic(auto)]

mod levels;

pub use levels::steps_left;
