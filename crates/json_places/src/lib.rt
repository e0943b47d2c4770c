//! The bytes at which the values of a JSON text begin, by their paths.
#![tactic(auto)]

mod byte;
mod path;
mod scan;
mod walk;

pub use byte::byte_of;
pub use path::Step;
