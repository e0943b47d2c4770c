//! The agenda: the job executions that have something to do.
pub(crate) use agendas::{put, remove_if};
