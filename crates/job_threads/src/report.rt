use batch_ids::{MetricStep, Moment, T256, Text, WorkId, WorkOutcome};

/// The reply to a checkpoint.
#[derive(Clone, Copy, PartialEq, Eq, Debug)]
pub enum Onward {
    /// The chunk continues.
    Go,
    /// The job execution was asked to stop.
    StopAsked,
}

/// An accepted report of a worker, with its reply.
#[derive(PartialEq, Eq, Debug, Drop)]
pub enum Report {
    /// A group of a chunk is done.
    Checkpoint {
        /// The work item.
        work: WorkId,
        /// The reader's checkpoint, from which it resumes after a restart.
        mark: Text<65536>,
        /// The metrics that the group adds.
        step: MetricStep,
        /// The moment of the report, as its caller gave it.
        at: Moment,
        /// The reply.
        reply: Onward,
    },
    /// A work item has ended.
    Finish {
        /// The work item.
        work: WorkId,
        /// The outcome.
        outcome: WorkOutcome,
        /// The exit status, if one was given.
        exit: Option<T256>,
        /// The metrics that the end adds.
        step: MetricStep,
        /// The moment of the report, as its caller gave it.
        at: Moment,
    },
}
