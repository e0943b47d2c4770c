//! Sessions, which threads own, and the desk, which a lock guards. The operations that a session
//! has seen are always a prefix of the desk's log.
#![tactic(auto)]

mod book;
mod desk;
mod meeting;
mod session;

pub use desk::Desk;
pub use meeting::meet;
pub use session::Session;
