ghost use Rattle.std.specs.Prelude.{◌≡◌};
ghost use Rattle.file_host.specs.declared.file_fault.FileFault.TheVariants.{OutOfMemory, Unavailable};

use crate::disk::CallFault;
use std::alloc::AllocError;
use std::error::Error;
use std::fmt;

/// The reason why a file was not opened or made.
#[derive(Clone, Copy, Debug, PartialEq, Eq)]
pub enum FileFault {
    /// There is no such file.
    Missing,
    /// It cannot be opened or made.
    Unavailable,
    /// Another program has it.
    InUse,
    /// Memory for its name was refused.
    OutOfMemory,
}

impl fmt::Display for FileFault {
    fn fmt<W: fmt::Write>(&self, f: &mut fmt::Formatter<W>) -> fmt::Result {
        f.write_str(match self {
            FileFault::Missing => "there is no such file",
            FileFault::Unavailable => "the file cannot be opened or made",
            FileFault::InUse => "another program has the file",
            FileFault::OutOfMemory => "out of memory",
        })
    }
}

impl Error for FileFault {}

impl From<AllocError> for FileFault {
    ghost from_gives = { λ _ e. e ≡ OutOfMemory };

    fn from(_: AllocError) -> FileFault {
        FileFault::OutOfMemory
    }
}

impl From<CallFault> for FileFault {
    ghost from_gives = { λ _ e. e ≡ Unavailable };

    fn from(_: CallFault) -> FileFault {
        FileFault::Unavailable
    }
}
