//! Single calls of objects that stand for a history, over any job repository: books, repositories,
//! desks, read copies, operators and lists of events.
#![tactic(auto)]

mod books;
mod copies;
mod desks;
mod operators;
mod worlds;

pub use books::{run_book, run_repository};
pub use copies::run_copies;
pub use desks::run_desk;
pub use operators::run_operator;
pub use worlds::{run_events, run_world};
