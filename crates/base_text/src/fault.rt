use std::alloc::{AllocError, AllocFailed};
use thiserror::Error;

/// The reason why a line of a base isn't read.
#[derive(Clone, Copy, Debug, PartialEq, Eq, Error)]
pub enum BaseLineFault {
    /// The line is no JSON, or none of the four kinds of lines. A member is missing, not listed, of
    /// another kind or out of its range.
    #[error("the line is no line of a base")]
    NotABaseLine,
    /// Memory was refused.
    #[error("out of memory")]
    OutOfMemory,
}

/// The reason why a row isn't written.
#[derive(Clone, Copy, Debug, PartialEq, Eq, Error)]
pub enum BaseTextFault {
    /// The written line isn't read back as the row. That is a fault of this crate, or the row is a
    /// work item that no history has: one that is over without its end, or busy with an end.
    #[error("the written line isn't read back as the row")]
    NotReadBack,
    /// Memory was refused.
    #[error("out of memory")]
    OutOfMemory,
}

impl From<AllocError> for BaseLineFault {
    ghost use Rattle.std.specs.Prelude.{◌≡◌};
    ghost use Rattle.base_text.specs.declared.fault.BaseLineFault.TheVariants.{OutOfMemory};

    ghost from_gives = { λ _ fault. fault ≡ OutOfMemory };

    fn from(_error: AllocError) -> BaseLineFault {
        BaseLineFault::OutOfMemory
    }
}

impl<T: Drop> From<AllocFailed<T>> for BaseLineFault {
    ghost use Rattle.std.specs.Prelude.{◌≡◌};
    ghost use Rattle.base_text.specs.declared.fault.BaseLineFault.TheVariants.{OutOfMemory};

    ghost from_gives = { λ _ fault. fault ≡ OutOfMemory };

    fn from(_error: AllocFailed<T>) -> BaseLineFault {
        BaseLineFault::OutOfMemory
    }
}

impl From<AllocError> for BaseTextFault {
    ghost use Rattle.std.specs.Prelude.{◌≡◌};
    ghost use Rattle.base_text.specs.declared.fault.BaseTextFault.TheVariants.{OutOfMemory};

    ghost from_gives = { λ _ fault. fault ≡ OutOfMemory };

    fn from(_error: AllocError) -> BaseTextFault {
        BaseTextFault::OutOfMemory
    }
}
