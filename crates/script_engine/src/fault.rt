ghost use Rattle.std.specs.Prelude.{◌≡◌};
ghost use Rattle.script_engine.specs.declared.fault.EngineFault.TheVariants.{Write, OutOfMemory};
ghost use Rattle.script_engine.specs.Faults.{engine_fault, is_of_writer};

use jsl_json::ReadFault;
use script_lines::{DeviceFault, LineFault};
use std::alloc::AllocError;
use thiserror::Error;

/// The reason why a script was not run to its end.
#[derive(Clone, Copy, Debug, PartialEq, Eq, Error)]
pub enum EngineFault {
    /// The first line is no catalogue. Only the line of this fault was written.
    #[error("the catalogue is refused: {0}")]
    Catalogue(ReadFault),
    /// The reader failed, or was called [`MAX_READS`](crate::MAX_READS) times. The replies to the
    /// complete lines were written.
    #[error("the reader failed")]
    Read,
    /// The writer failed.
    #[error("the writer failed")]
    Write,
    /// Memory was refused. The replies to the lines before were written.
    #[error("out of memory")]
    OutOfMemory,
}

impl EngineFault {
    /// Checks whether the writer failed.
    pub(crate) fn is_of_writer(self) -> bool
        ensures { result ≡ is_of_writer self }
    {
        match self {
            EngineFault::Catalogue(_) => false,
            EngineFault::Read => false,
            EngineFault::Write => true,
            EngineFault::OutOfMemory => false,
        }
    }
}

impl From<AllocError> for EngineFault {
    ghost from_gives = { λ _ fault. fault ≡ OutOfMemory };

    fn from(_error: AllocError) -> EngineFault {
        EngineFault::OutOfMemory
    }
}

impl From<DeviceFault> for EngineFault {
    ghost from_gives = { λ _ fault. fault ≡ Write };

    fn from(_error: DeviceFault) -> EngineFault {
        EngineFault::Write
    }
}

impl From<LineFault> for EngineFault {
    ghost from_gives = { λ error fault. fault ≡ engine_fault error };

    fn from(error: LineFault) -> EngineFault {
        match error {
            LineFault::Read => EngineFault::Read,
            LineFault::Write => EngineFault::Write,
            LineFault::OutOfMemory => EngineFault::OutOfMemory,
        }
    }
}
