//! The texts and lists of a job that break a rule of the job as a whole.
#![tactic(auto)]

mod hits;
mod rules;
mod texts;

pub use hits::{Hit, hit_of};
pub use texts::Part;
