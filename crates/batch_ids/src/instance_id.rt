ghost use Rattle.std.specs.Prelude.{◌≡◌};

use std::marker::Model;

/// A job instance's number. Contracts see the number.
///
/// Job instances are numbered from 1 upwards, without gaps, in the order of their starts. No job
/// instance has the number 0. See Jakarta Batch 2.1, "JobInstance" (`getInstanceId`).
#[derive(Clone, Copy, PartialEq, Eq, PartialOrd, Ord, Hash, Debug)]
pub struct InstanceId {
    number: u64,
}

impl Model for InstanceId {
    ghost use Rattle.std.specs.Prelude.{ℕ};

    ghost Value = { ℕ };

    ghost view = { λ id. id.number };

    ghost inverse = { λ n. record { number = n } };
}

impl InstanceId {
    /// Returns the identifier with this number.
    pub fn new(number: u64) -> InstanceId
        ensures { result ≡ number }
    {
        InstanceId { number }
    }

    /// Returns the number.
    pub fn value(self) -> u64
        ensures { result ≡ self }
    {
        self.number
    }
}
