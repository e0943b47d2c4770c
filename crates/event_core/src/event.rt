use batch_ids::{Moment, Refusal};
use job_repository::{Answer, Call, Query, Reply};

/// An event in a world. Sessions are numbered from 1, copies from 0.
#[derive(PartialEq, Eq, Debug, Drop)]
pub enum Event {
    /// A session makes a call.
    Call {
        /// The session's number.
        who: u64,
        /// The call.
        call: Call,
        /// The moment of the call, as its caller gives it.
        at: Moment,
    },
    /// A copy takes in operations that it lacks.
    Publish {
        /// The copy's number.
        copy: u64,
        /// The number of operations that the copy has afterwards, if the history has as many.
        upto: u64,
    },
    /// A session queries a copy. If the session has seen more than the copy has, the book answers.
    Read {
        /// The session's number.
        who: u64,
        /// The copy's number.
        copy: u64,
        /// The query.
        query: Query,
    },
    /// A session queries the book.
    Ask {
        /// The session's number.
        who: u64,
        /// The query.
        query: Query,
    },
    /// Two sessions exchange the operations that they have seen.
    Meet {
        /// The number of one session.
        one: u64,
        /// The number of the other session.
        other: u64,
    },
    /// A session reads the number of operations.
    Glance {
        /// The session's number.
        who: u64,
    },
}

/// The outcome of an event.
#[derive(Debug, Drop)]
pub enum Outcome {
    /// The reply to a call, or its refusal.
    Replied(Result<Reply, Refusal>),
    /// The answer to a query, or its refusal.
    Answered(Result<Answer, Refusal>),
    /// A copy took in operations that it lacked.
    Published {
        /// The number of operations that the copy has now.
        length: u64,
    },
    /// Two sessions met.
    Met,
    /// A session read the number of operations.
    Count {
        /// The number of operations.
        n: u64,
    },
    /// The event names a session or a copy that doesn't exist, or a session meets itself. Nothing
    /// changes.
    Skipped,
}
