use batch_history::Entry;
use batch_ids::ExecutionId;
use std::collections::LinkedList;

/// The view that contracts have of a session. No value of this type is ever made.
pub struct SessionView {
    /// The session's number, which no other session has.
    pub number: u64,
    /// The operations that the session has seen: a prefix of the log.
    pub seen: LinkedList<Entry>,
    /// The session's own accepted operations, in their order.
    pub mine: LinkedList<Entry>,
    /// The greatest count of operations that the session was shown.
    pub least: u64,
    /// The job executions whose stop the session had found before it was last shown a count.
    pub stops: LinkedList<ExecutionId>,
    /// The job executions whose stop the session has found since then.
    pub fresh: LinkedList<ExecutionId>,
}

/// The view that contracts have of the desk's log. No value of this type is ever made.
pub struct BookView {
    /// The log.
    pub log: LinkedList<Entry>,
    /// The number of the session that was opened last.
    pub last: u64,
}

/// The view that contracts have of a seat. No value of this type is ever made.
pub struct SeatView {
    /// The log, if this is the desk's seat. One seat of a table at most has it.
    pub books: LinkedList<BookView>,
    /// The sessions on this seat.
    pub sessions: LinkedList<SessionView>,
    /// The operations that each read copy on this seat has absorbed.
    pub copies: LinkedList<LinkedList<Entry>>,
}
