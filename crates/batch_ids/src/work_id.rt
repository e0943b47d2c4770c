ghost use Rattle.std.specs.Prelude.{◌≡◌};

use std::marker::Model;

/// A work item's number. A work item is one run of a step, of a step's partition, or of a decision.
/// Contracts see the number.
///
/// Work items are numbered from 1 upwards, without gaps, in the order in which they are claimed. A
/// step execution's id is the number of its work item, or of its first work item if the step is
/// partitioned. No work item has the number 0. See Jakarta Batch 2.1, "StepExecution"
/// (`getStepExecutionId`).
#[derive(Clone, Copy, PartialEq, Eq, PartialOrd, Ord, Hash, Debug)]
pub struct WorkId {
    number: u64,
}

impl Model for WorkId {
    ghost use Rattle.std.specs.Prelude.{ℕ};

    ghost Value = { ℕ };

    ghost view = { λ id. id.number };

    ghost inverse = { λ n. record { number = n } };
}

impl WorkId {
    /// Returns the identifier with this number.
    pub fn new(number: u64) -> WorkId
        ensures { result ≡ number }
    {
        WorkId { number }
    }

    /// Returns the number.
    pub fn value(self) -> u64
        ensures { result ≡ self }
    {
        self.number
    }
}
