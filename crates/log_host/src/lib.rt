//! A file and a listener, as a program sees them that may crash at any moment.
#![tactic(auto)]

mod host;
mod synced;
mod tape;

pub use host::{Host, HostFault};
pub use synced::write_and_sync;
pub use tape::{Asked, Making, Tape};
