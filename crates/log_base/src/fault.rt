use std::alloc::{AllocError, AllocFailed};
use thiserror::Error;

/// The reason why no repository is restored from a base.
#[derive(Clone, Copy, Debug, PartialEq, Eq, Error)]
pub enum BaseFault {
    /// A line may not stand where it stands.
    #[error("line {place} of the base can't stand there")]
    BadLine {
        /// The place of the first such line, counted from 0. It is 0 too if the base has more or
        /// fewer rows than its first line says, or a row shows what no history gives it.
        place: usize,
    },
    /// Memory was refused.
    #[error("out of memory")]
    OutOfMemory,
}

/// The reason why a line of a base isn't taken.
#[derive(Clone, Copy, Debug, PartialEq, Eq)]
pub enum LineFault {
    /// It is no line that may stand there.
    Bad,
    /// Memory was refused.
    OutOfMemory,
}

impl From<AllocError> for LineFault {
    ghost use Rattle.std.specs.Prelude.{◌≡◌};
    ghost use Rattle.log_base.specs.declared.fault.LineFault.TheVariants.{OutOfMemory};

    ghost from_gives = { λ _ fault. fault ≡ OutOfMemory };

    fn from(_error: AllocError) -> LineFault {
        LineFault::OutOfMemory
    }
}
