// The faults of a script over a log.
ghost use Rattle.std.specs.Prelude.{◌≡◌};
ghost use Rattle.batch_commands.specs.declared.logged_fault.OverLogFault.TheVariants.{OutOfMemory};
ghost use Rattle.batch_commands.specs.Logging.{over_log_status, fault_of_engine, fault_of_run};

use crate::main_program::{
    DEVICE_FAILED, FAULTY_CATALOGUE, LOG_FAILED, LOG_REFUSED, OUT_OF_MEMORY, tell,
};
use script_engine::EngineFault;
use script_log::RunFault;
use std::alloc::AllocError;
use std::io::Write;

/// The fault that ended a script over a log early.
#[derive(Clone, Copy, Debug, PartialEq, Eq)]
pub(crate) enum OverLogFault {
    /// The first line is no catalogue. The line of its fault was written.
    Catalogue,
    /// The log is refused. The line of its fault was written.
    Refused,
    /// The reader failed.
    Read,
    /// The writer failed.
    Write,
    /// The file of the log failed, or can't be opened or created.
    Log,
    /// Memory was refused.
    OutOfMemory,
}

impl From<AllocError> for OverLogFault {
    ghost from_gives = { λ _ fault. fault ≡ OutOfMemory };

    fn from(_error: AllocError) -> OverLogFault {
        OverLogFault::OutOfMemory
    }
}

impl OverLogFault {
    /// Converts the fault of a script without a log.
    pub(crate) fn of_engine(fault: EngineFault) -> OverLogFault
        ensures { result ≡ fault_of_engine fault }
    {
        match fault {
            EngineFault::Catalogue(_) => OverLogFault::Catalogue,
            EngineFault::Read => OverLogFault::Read,
            EngineFault::Write => OverLogFault::Write,
            EngineFault::OutOfMemory => OverLogFault::OutOfMemory,
        }
    }

    /// Converts the fault of a script over a log.
    pub(crate) fn of_run(fault: RunFault) -> OverLogFault
        ensures { result ≡ fault_of_run fault }
    {
        match fault {
            RunFault::Read => OverLogFault::Read,
            RunFault::Write => OverLogFault::Write,
            RunFault::Log(_) => OverLogFault::Log,
            RunFault::OutOfMemory => OverLogFault::OutOfMemory,
        }
    }

    /// Writes the fault to standard error, unless a line of output has it, and returns the exit
    /// status.
    pub(crate) fn end<F: Write>(self, faults: &mut F) -> u8
        ensures { result ≡ over_log_status self }
    {
        match self {
            OverLogFault::Catalogue => FAULTY_CATALOGUE,
            OverLogFault::Refused => LOG_REFUSED,
            OverLogFault::Read => {
                tell(faults, "batchctl: read fault");
                DEVICE_FAILED
            }
            OverLogFault::Write => {
                tell(faults, "batchctl: write fault");
                DEVICE_FAILED
            }
            OverLogFault::Log => {
                tell(faults, "batchctl: log fault");
                LOG_FAILED
            }
            OverLogFault::OutOfMemory => {
                tell(faults, "batchctl: out of memory");
                OUT_OF_MEMORY
            }
        }
    }
}
