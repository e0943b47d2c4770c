//! The elements of a job by their numbers.
#![tactic(auto)]

mod numbering;

pub use numbering::{Found, Numbered, element_of_number, elements_of};
