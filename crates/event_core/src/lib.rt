//! The core of a job repository that several sessions share, without threads or locks: it computes
//! the outcomes of a list of events. Sessions make calls and queries, copies lag behind the
//! history, and sessions exchange the operations that they have seen.
#![tactic(auto)]

mod copies;
mod event;
mod sessions;
mod world;

pub use event::{Event, Outcome};
pub use world::{World, run};
