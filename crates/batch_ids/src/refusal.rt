ghost use Rattle.std.specs.Prelude.{◌≡◌, ◌≤◌, length};
ghost use Rattle.batch_ids.specs.Refusals.{refusal_name, refusal_number};

use std::alloc::{AllocError, AllocFailed};
use thiserror::Error;

/// Memory was refused. The call that returns this error has changed nothing.
pub type OutOfMemory = AllocError;

/// The reason why a call was refused. A refused call changes nothing.
///
/// The first nine are exceptions of the `JobOperator` (Jakarta Batch 2.1, "JobOperator"). The
/// others are this service's own. A refusal prints as its name.
#[derive(Clone, Copy, PartialEq, Eq, Debug, Error)]
pub enum Refusal {
    /// The job is not in the catalogue (start).
    #[error("{}", self.name())]
    JobStartException,
    /// No job instance has this job name (a query by job name).
    #[error("{}", self.name())]
    NoSuchJobException,
    /// No job instance has this number (purge, and queries by job instance).
    #[error("{}", self.name())]
    NoSuchJobInstanceException,
    /// No job execution has this number (restart, stop, abandon, and queries by job execution).
    #[error("{}", self.name())]
    NoSuchJobExecutionException,
    /// The job execution is finished (stop).
    #[error("{}", self.name())]
    JobExecutionNotRunningException,
    /// The job execution, or another one of its job instance, is unfinished (abandon). A job
    /// execution of the job instance is unfinished (purge).
    #[error("{}", self.name())]
    JobExecutionIsRunningException,
    /// The job execution is COMPLETED (restart).
    #[error("{}", self.name())]
    JobExecutionAlreadyCompleteException,
    /// The job execution is not the most recent one of its job instance (restart).
    #[error("{}", self.name())]
    JobExecutionNotMostRecentException,
    /// The job execution is unfinished or ABANDONED, or its job is not restartable (restart).
    #[error("{}", self.name())]
    JobRestartException,
    /// No work item has this number (checkpoint, finish and lose).
    #[error("{}", self.name())]
    NoSuchWork,
    /// The work item has ended already (checkpoint, finish and lose).
    #[error("{}", self.name())]
    WorkNotRunning,
    /// Another session claimed the work item (checkpoint and finish).
    #[error("{}", self.name())]
    NotClaimer,
    /// The outcome is STOPPED, but no stop of the job execution was accepted (finish).
    #[error("{}", self.name())]
    NotStopping,
    /// The call does not fit the kind of work: a checkpoint of a work item that is no chunk, or a
    /// decision that is finished as STOPPED.
    #[error("{}", self.name())]
    WrongOutcome,
    /// A text exceeds its limit, or there are too many parameters (every call with a text).
    #[error("{}", self.name())]
    TextTooLong,
    /// The history is full. Every call that would add an operation to it returns this refusal,
    /// after the call's own refusals.
    #[error("{}", self.name())]
    RepositoryFull,
    /// Memory was refused (every call that takes memory). Nothing has changed.
    #[error("{}", self.name())]
    OutOfMemory,
}

impl Refusal {
    /// Returns the refusal's number: 1 to 16, or 18.
    pub fn number(self) -> u8
        ensures { result ≡ refusal_number self }
    {
        match self {
            Refusal::JobStartException => 1,
            Refusal::NoSuchJobException => 2,
            Refusal::NoSuchJobInstanceException => 3,
            Refusal::NoSuchJobExecutionException => 4,
            Refusal::JobExecutionNotRunningException => 5,
            Refusal::JobExecutionIsRunningException => 6,
            Refusal::JobExecutionAlreadyCompleteException => 7,
            Refusal::JobExecutionNotMostRecentException => 8,
            Refusal::JobRestartException => 9,
            Refusal::NoSuchWork => 10,
            Refusal::WorkNotRunning => 11,
            Refusal::NotClaimer => 12,
            Refusal::NotStopping => 13,
            Refusal::WrongOutcome => 14,
            Refusal::TextTooLong => 15,
            Refusal::RepositoryFull => 16,
            Refusal::OutOfMemory => 18,
        }
    }

    /// Returns the printed name.
    pub fn name(self) -> &'static str
        ensures name { result.now ≡ refusal_name self }
        ensures short { length result.now ≤ 36 }
    {
        match self {
            Refusal::JobStartException => "JobStartException",
            Refusal::NoSuchJobException => "NoSuchJobException",
            Refusal::NoSuchJobInstanceException => "NoSuchJobInstanceException",
            Refusal::NoSuchJobExecutionException => "NoSuchJobExecutionException",
            Refusal::JobExecutionNotRunningException => "JobExecutionNotRunningException",
            Refusal::JobExecutionIsRunningException => "JobExecutionIsRunningException",
            Refusal::JobExecutionAlreadyCompleteException => "JobExecutionAlreadyCompleteException",
            Refusal::JobExecutionNotMostRecentException => "JobExecutionNotMostRecentException",
            Refusal::JobRestartException => "JobRestartException",
            Refusal::NoSuchWork => "NoSuchWork",
            Refusal::WorkNotRunning => "WorkNotRunning",
            Refusal::NotClaimer => "NotClaimer",
            Refusal::NotStopping => "NotStopping",
            Refusal::WrongOutcome => "WrongOutcome",
            Refusal::TextTooLong => "TextTooLong",
            Refusal::RepositoryFull => "RepositoryFull",
            Refusal::OutOfMemory => "OutOfMemory",
        }
    }
}

impl From<AllocError> for Refusal {
    ghost use Rattle.std.specs.Prelude.{◌≡◌};
    ghost use Rattle.batch_ids.specs.declared.refusal.Refusal.TheVariants.{OutOfMemory};

    ghost from_gives = { λ _ refusal. refusal ≡ OutOfMemory };

    fn from(_error: AllocError) -> Refusal {
        Refusal::OutOfMemory
    }
}

impl<T: Drop> From<AllocFailed<T>> for Refusal {
    ghost use Rattle.std.specs.Prelude.{◌≡◌};
    ghost use Rattle.batch_ids.specs.declared.refusal.Refusal.TheVariants.{OutOfMemory};

    ghost from_gives = { λ _ refusal. refusal ≡ OutOfMemory };

    fn from(_error: AllocFailed<T>) -> Refusal {
        Refusal::OutOfMemory
    }
}
