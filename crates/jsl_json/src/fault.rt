ghost use Rattle.std.specs.Prelude.{◌≡◌};
ghost use Rattle.jsl_json.specs.Catalogues.{is_out_of_memory};
ghost use Rattle.jsl_json.specs.Faults.{read_fault_name};

use jsl_model::JobFault;
use std::alloc::{AllocError, AllocFailed};
use thiserror::Error;

/// The reason why a line is no catalogue. Jobs, and the elements of a job, are counted from 0. It
/// prints as its name.
#[derive(Clone, Copy, Debug, PartialEq, Eq, Error)]
pub enum ReadFault {
    /// The line is not UTF-8, or not one JSON value.
    #[error("{}", self.name())]
    NotJson,
    /// It is no object with just `jobs`, a list.
    #[error("{}", self.name())]
    NotACatalogue,
    /// The members of a job or of an element are wrong: one is missing, not listed, or of another
    /// kind.
    #[error("{}", self.name())]
    BadElement {
        /// The number of the job.
        job: u64,
        /// The number of the element, or `None` if the job's own members are wrong.
        element: Option<u64>,
    },
    /// A job breaks a rule of the Job Specification Language, or the catalogue can't take it. Its
    /// name is that of the job's fault.
    #[error("{}", self.name())]
    InJob {
        /// The number of the job.
        job: u64,
        /// Its fault.
        fault: JobFault,
    },
    /// Memory was refused.
    #[error("{}", self.name())]
    OutOfMemory,
}

impl ReadFault {
    /// Returns the name that is printed.
    pub fn name(self) -> &'static str
        ensures { result.now ≡ read_fault_name self }
    {
        match self {
            ReadFault::NotJson => "NotJson",
            ReadFault::NotACatalogue => "NotACatalogue",
            ReadFault::BadElement { .. } => "BadElement",
            ReadFault::InJob { fault, .. } => fault.name(),
            ReadFault::OutOfMemory => "OutOfMemory",
        }
    }

    /// Checks whether memory was refused, which says nothing of the line.
    pub fn is_out_of_memory(self) -> bool
        ensures { result ≡ is_out_of_memory self }
    {
        match self {
            ReadFault::NotJson => false,
            ReadFault::NotACatalogue => false,
            ReadFault::BadElement { .. } => false,
            ReadFault::InJob { .. } => false,
            ReadFault::OutOfMemory => true,
        }
    }
}

impl From<AllocError> for ReadFault {
    ghost use Rattle.std.specs.Prelude.{◌≡◌};
    ghost use Rattle.jsl_json.specs.declared.fault.ReadFault.TheVariants.{OutOfMemory};

    ghost from_gives = { λ _ fault. fault ≡ OutOfMemory };

    fn from(_error: AllocError) -> ReadFault {
        ReadFault::OutOfMemory
    }
}

impl<T: Drop> From<AllocFailed<T>> for ReadFault {
    ghost use Rattle.std.specs.Prelude.{◌≡◌};
    ghost use Rattle.jsl_json.specs.declared.fault.ReadFault.TheVariants.{OutOfMemory};

    ghost from_gives = { λ _ fault. fault ≡ OutOfMemory };

    fn from(_error: AllocFailed<T>) -> ReadFault {
        ReadFault::OutOfMemory
    }
}
