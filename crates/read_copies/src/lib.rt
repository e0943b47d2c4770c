//! Read copies: the state of the log up to some operation. Each copy has a lock of its own, so that
//! readers don't wait for writers. A session reads a copy only if the copy has absorbed all that
//! the session has seen.
#![tactic(auto)]

mod absorb;
mod copied;
mod copies;
mod states;
mod status_counts;

pub use absorb::Absorb;
pub use copied::Copied;
pub use copies::Copies;
pub use states::RepositoryState;
pub use status_counts::StatusCounts;
