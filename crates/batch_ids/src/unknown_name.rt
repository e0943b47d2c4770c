use thiserror::Error;

/// The error for a text that is not one of the printed names.
#[derive(Clone, Copy, PartialEq, Eq, Debug, Error)]
#[error("not a printed name")]
pub struct UnknownName;
