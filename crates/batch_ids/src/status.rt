ghost use Rattle.std.specs.Prelude.{◌≡◌, ◌≤◌, Some, length};
ghost use Rattle.std.specs.Fmt.{padded};
ghost use Rattle.batch_ids.specs.Names.{IsRead};
ghost use Rattle.batch_ids.specs.Statuses.{status_name, status_named, is_unfinished, outcome_status, outcome_name, outcome_named};

use crate::UnknownName;
use std::fmt;
use std::str::FromStr;

/// A moment, in whole milliseconds. Callers pass a moment with each call, and nothing compares
/// moments.
pub type Moment = u64;

/// The batch status of a job execution or of a step execution (Jakarta Batch 2.1, "Batch and Exit
/// Status"). It prints as its name, and can be parsed from it.
#[derive(Clone, Copy, PartialEq, Eq, Hash, Debug)]
pub enum BatchStatus {
    /// Started or restarted, and none of its work has been claimed yet.
    Starting,
    /// Running.
    Started,
    /// A stop was accepted, and some of its work has not ended yet.
    Stopping,
    /// Ended by a stop.
    Stopped,
    /// Ended by a failure.
    Failed,
    /// Ended successfully.
    Completed,
    /// Abandoned by the operator, so it can never be restarted.
    Abandoned,
}

/// The outcome of a work item. If its step is not partitioned, the step execution then has the
/// batch status of this name (Jakarta Batch 2.1, "Batch and Exit Status"). An outcome prints as its
/// name, and can be parsed from it.
#[derive(Clone, Copy, PartialEq, Eq, Hash, Debug)]
pub enum WorkOutcome {
    /// It ended successfully.
    Completed,
    /// It failed.
    Failed,
    /// It stopped because a stop of its job execution had been requested.
    Stopped,
}

impl BatchStatus {
    /// Returns the printed name, which is also the default exit status.
    pub fn name(self) -> &'static str
        ensures name { result.now ≡ status_name self }
        ensures short { length result.now ≤ 16 }
    {
        match self {
            BatchStatus::Starting => "STARTING",
            BatchStatus::Started => "STARTED",
            BatchStatus::Stopping => "STOPPING",
            BatchStatus::Stopped => "STOPPED",
            BatchStatus::Failed => "FAILED",
            BatchStatus::Completed => "COMPLETED",
            BatchStatus::Abandoned => "ABANDONED",
        }
    }

    /// Checks whether a job execution with this batch status is unfinished: STARTING, STARTED or
    /// STOPPING.
    pub fn is_unfinished(self) -> bool
        ensures { result ≡ is_unfinished self }
    {
        match self {
            BatchStatus::Starting => true,
            BatchStatus::Started => true,
            BatchStatus::Stopping => true,
            BatchStatus::Stopped => false,
            BatchStatus::Failed => false,
            BatchStatus::Completed => false,
            BatchStatus::Abandoned => false,
        }
    }
}

impl WorkOutcome {
    /// Returns the printed name, that of its batch status. It is also the default exit status.
    pub fn name(self) -> &'static str
        ensures name { result.now ≡ outcome_name self }
        ensures short { length result.now ≤ 16 }
    {
        self.status().name()
    }

    /// Returns the batch status of a step execution whose one work item has this outcome.
    pub fn status(self) -> BatchStatus
        ensures { result ≡ outcome_status self }
    {
        match self {
            WorkOutcome::Completed => BatchStatus::Completed,
            WorkOutcome::Failed => BatchStatus::Failed,
            WorkOutcome::Stopped => BatchStatus::Stopped,
        }
    }
}

impl fmt::Display for BatchStatus {
    ghost output = { λ status. Some (status_name status) };

    ghost styled_output = { λ status spec. Some (padded spec (status_name status)) };

    fn fmt<W: fmt::Write>(&self, f: &mut fmt::Formatter<W>) -> fmt::Result {
        f.pad(self.name())
    }
}

impl fmt::Display for WorkOutcome {
    ghost output = { λ outcome. Some (outcome_name outcome) };

    ghost styled_output = { λ outcome spec. Some (padded spec (outcome_name outcome)) };

    fn fmt<W: fmt::Write>(&self, f: &mut fmt::Formatter<W>) -> fmt::Result {
        f.pad(self.name())
    }
}

/// Parses a batch status's printed name. All bytes have to agree.
///
/// # Errors
///
/// Returns `UnknownName` for any other text.
impl FromStr for BatchStatus {
    type Err = UnknownName;

    ghost from_str_gives = { λ text read. IsRead (status_named text) read };

    fn from_str(text: &str) -> Result<BatchStatus, UnknownName> {
        let statuses = [
            BatchStatus::Starting,
            BatchStatus::Started,
            BatchStatus::Stopping,
            BatchStatus::Stopped,
            BatchStatus::Failed,
            BatchStatus::Completed,
            BatchStatus::Abandoned,
        ];
        for status in statuses {
            if status.name() == text {
                return Ok(status);
            }
        }
        Err(UnknownName)
    }
}

/// Parses an outcome's printed name. All bytes have to agree.
///
/// # Errors
///
/// Returns `UnknownName` for any other text.
impl FromStr for WorkOutcome {
    type Err = UnknownName;

    ghost from_str_gives = { λ text read. IsRead (outcome_named text) read };

    fn from_str(text: &str) -> Result<WorkOutcome, UnknownName> {
        let outcomes = [
            WorkOutcome::Completed,
            WorkOutcome::Failed,
            WorkOutcome::Stopped,
        ];
        for outcome in outcomes {
            if outcome.name() == text {
                return Ok(outcome);
            }
        }
        Err(UnknownName)
    }
}
