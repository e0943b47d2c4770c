use std::alloc::{AllocError, AllocFailed};

/// The reason why the members of an object were not read.
#[derive(Clone, Copy, Debug, PartialEq, Eq)]
pub enum MemberFault {
    /// A member is missing, not listed, or of another kind.
    Wrong,
    /// Memory was refused.
    OutOfMemory,
}

impl From<AllocError> for MemberFault {
    ghost use Rattle.std.specs.Prelude.{◌≡◌};
    ghost use Rattle.jsl_json.specs.declared.member_fault.MemberFault.TheVariants.{OutOfMemory};

    ghost from_gives = { λ _ fault. fault ≡ OutOfMemory };

    fn from(_error: AllocError) -> MemberFault {
        MemberFault::OutOfMemory
    }
}

impl<T: Drop> From<AllocFailed<T>> for MemberFault {
    ghost use Rattle.std.specs.Prelude.{◌≡◌};
    ghost use Rattle.jsl_json.specs.declared.member_fault.MemberFault.TheVariants.{OutOfMemory};

    ghost from_gives = { λ _ fault. fault ≡ OutOfMemory };

    fn from(_error: AllocFailed<T>) -> MemberFault {
        MemberFault::OutOfMemory
    }
}
