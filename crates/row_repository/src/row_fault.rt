use std::alloc::{AllocError, AllocFailed};

/// Why a row cannot be among those from which a repository is restored.
#[derive(Clone, Copy, PartialEq, Eq, Debug)]
pub enum RowFault {
    /// Its number is not above that of the row before it, or it was never given.
    NotNext,
    /// Its job is not in the catalogue, or its walk does not begin at an element of the job's own
    /// list.
    NotPlaced,
    /// Its job instance or its job execution has no row.
    NoOwner,
    /// Another work item of its job execution has its work key, or its step has a checkpoint
    /// already.
    Taken,
    /// With it, a count of the metrics would be greater than so many operations can report.
    TooGreat,
    /// It shows another batch status or exit status than its walk comes to, or no end although it
    /// is finished.
    NotSettled,
    /// Memory was refused.
    OutOfMemory,
}

impl From<AllocError> for RowFault {
    ghost use Rattle.std.specs.Prelude.{◌≡◌};
    ghost use Rattle.row_repository.specs.declared.row_fault.RowFault.TheVariants.{OutOfMemory};

    ghost from_gives = { λ _ fault. fault ≡ OutOfMemory };

    fn from(_error: AllocError) -> RowFault {
        RowFault::OutOfMemory
    }
}

impl<T: Drop> From<AllocFailed<T>> for RowFault {
    ghost use Rattle.std.specs.Prelude.{◌≡◌};
    ghost use Rattle.row_repository.specs.declared.row_fault.RowFault.TheVariants.{OutOfMemory};

    ghost from_gives = { λ _ fault. fault ≡ OutOfMemory };

    fn from(_error: AllocFailed<T>) -> RowFault {
        RowFault::OutOfMemory
    }
}
