ghost use Rattle.std.specs.Prelude.{◌≡◌};

use std::marker::Model;

/// A job execution's number. Contracts see the number.
///
/// Job executions are numbered from 1 upwards, without gaps, in the order of their starts and
/// restarts, over all job instances. No job execution has the number 0. See Jakarta Batch 2.1,
/// "JobExecution" (`getExecutionId`).
#[derive(Clone, Copy, PartialEq, Eq, PartialOrd, Ord, Hash, Debug)]
pub struct ExecutionId {
    number: u64,
}

impl Model for ExecutionId {
    ghost use Rattle.std.specs.Prelude.{ℕ};

    ghost Value = { ℕ };

    ghost view = { λ id. id.number };

    ghost inverse = { λ n. record { number = n } };
}

impl ExecutionId {
    /// Returns the identifier with this number.
    pub fn new(number: u64) -> ExecutionId
        ensures { result ≡ number }
    {
        ExecutionId { number }
    }

    /// Returns the number.
    pub fn value(self) -> u64
        ensures { result ≡ self }
    {
        self.number
    }
}
