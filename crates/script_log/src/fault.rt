// The reasons why a run ended early.
ghost use Rattle.std.specs.Prelude.{◌≡◌};
ghost use Rattle.script_log.specs.declared.fault.RunFault.TheVariants.{OutOfMemory};
ghost use Rattle.script_log.specs.Faults.{run_fault, is_broken};

use durable_log::CommitFault;
use script_lines::LineFault;
use std::alloc::AllocError;
use std::error::Error;
use std::fmt;

/// The reason why a run ended before the end of its lines.
#[derive(Clone, Copy, Debug, PartialEq, Eq)]
pub enum RunFault {
    /// The reader failed, or may not be called again. The replies to all complete lines were sent.
    Read,
    /// The listener failed. It has heard a beginning of the replies to lines that are on the disk.
    Write,
    /// The file failed or is full. No reply to an uncommitted record was sent.
    Log(CommitFault),
    /// Memory was refused. The replies to the lines before were sent.
    OutOfMemory,
}

impl RunFault {
    /// Checks whether the file or the listener failed, so that the log is of no more use.
    pub fn is_broken(self) -> bool
        ensures { result ≡ is_broken self }
    {
        match self {
            RunFault::Read => false,
            RunFault::Write => true,
            RunFault::Log(_) => true,
            RunFault::OutOfMemory => false,
        }
    }
}

impl fmt::Display for RunFault {
    fn fmt<W: fmt::Write>(&self, f: &mut fmt::Formatter<W>) -> fmt::Result {
        f.write_str(match self {
            RunFault::Read => "the reader failed",
            RunFault::Write => "the listener failed",
            RunFault::Log(CommitFault::Failed) => "the log failed",
            RunFault::Log(CommitFault::Full) => "the log is full",
            RunFault::OutOfMemory => "out of memory",
        })
    }
}

impl Error for RunFault {}

impl From<AllocError> for RunFault {
    ghost from_gives = { λ _ fault. fault ≡ OutOfMemory };

    fn from(_error: AllocError) -> RunFault {
        RunFault::OutOfMemory
    }
}

impl From<LineFault> for RunFault {
    ghost from_gives = { λ error fault. fault ≡ run_fault error };

    fn from(error: LineFault) -> RunFault {
        match error {
            LineFault::Read => RunFault::Read,
            LineFault::Write => RunFault::Write,
            LineFault::OutOfMemory => RunFault::OutOfMemory,
        }
    }
}
