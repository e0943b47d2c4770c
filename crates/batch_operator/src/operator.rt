ghost use Rattle.std.specs.Prelude.{◌≡◌, ◌<◌, ◌≤◌, ◌%◌, ◌∷◌, ◌++◌, [], IsTrue, IfOk, IfErr, length};
ghost use Rattle.batch_history.specs.Legal.{most_operations};
ghost use Rattle.seat_rules.specs.Places.{IsLegalLog};
ghost use Rattle.seat_rules.specs.Views.{glanced_at, new_session};
ghost use Rattle.batch_operator.specs.Calls.{IsAnswered, IsReplied};

use crate::copy_count::CopyCount;
use crate::states::{seated, states_of_nothing};
use batch_ids::{ExecutionId, Moment, OutOfMemory, Refusal};
use jsl_model::Catalogue;
use op_log::{Answer, Call, JobRepository, Query, Reply};
use read_copies::{Copies, RepositoryState, StatusCounts};
use seat_rules::{BookSeat, SeatTable, Site};
use sessions::{Desk, Session};
use std::alloc::Global;
use std::sync::{Mutex, Wait};
use stop_signals::{look, stop};

/// A desk that hosts no read copy, as the operator's lock guards it.
#[derive(Drop)]
pub(crate) struct Kept<N: Site, J: JobRepository> {
    pub(crate) desk: Desk<N, J>,
    ghost alone: { desk.hosted ≡ [] },
}

/// A job repository that many threads use at once, each by a session of its own. Threads borrow it,
/// and it stores at most 1,000,000 operations.
///
/// Each mutation waits for the lock of the book. A query waits for the lock of a read copy. If its
/// session has seen more than that copy has absorbed, it waits for the book's lock, too.
/// `operations_at_least` and `stop_seen` take no lock.
///
/// The storage grows by doubling. For that, an operation costs constant time on average, and at
/// worst time proportional to the length of the log or of the rows. A row is found at the position
/// that its number suggests, which takes constant time: a purge moves no row.
///
/// The walk of a job execution is stored from its first operation to its end. If memory for it was
/// refused, a call rebuilds it. That costs time proportional to the number of the job's elements
/// and partitions, multiplied by the number of the plan's entries and the work items of the job
/// execution. Each call's own comment states its further costs.
#[derive(Drop)]
pub struct Operator<N: Site, J: JobRepository> {
    pub(crate) desk: Mutex<Kept<N, J>>,
    pub(crate) table: SeatTable,
    pub(crate) repositories: Copies<RepositoryState<J>, N>,
    pub(crate) counts: Copies<StatusCounts<J>, N>,
    ghost full: { J.limit ≡ most_operations },
    ghost named: { table ≡ N.place },
    ghost some: { 0 < repositories },
    ghost both: { counts ≡ repositories },
}

impl<N: Site, J: JobRepository> Operator<N, J> {
    /// Returns an operator with an empty history over this catalogue, on the new table that `N`
    /// names.
    ///
    /// # Errors
    ///
    /// Returns `OutOfMemory` if memory is refused.
    pub fn new(
        alloc: Global,
        table: SeatTable,
        seat: BookSeat,
        catalogue: Catalogue,
        copies: CopyCount,
    ) -> Result<Operator<N, J>, OutOfMemory>
        requires limit { J.limit ≡ most_operations }
        requires table { table ≡ N.place }
        requires seat { seat ≡ N.place.table }
        requires catalogue { catalogue ≡ N.place.catalogue }
        ensures { IfOk result (λ operator. operator.repositories ≡ copies.count) }
    {
        let repositories = states_of_nothing(alloc, &catalogue, copies)?;
        let counts = states_of_nothing(alloc, &catalogue, copies)?;
        let mut desk = Desk::new(alloc, seat, catalogue)?;
        match seated(alloc, repositories, counts, &mut desk, &table) {
            Ok(copies) => Ok(Operator {
                desk: Mutex::new(Kept { desk }),
                table,
                repositories: copies.repositories,
                counts: copies.counts,
            }),
            Err(refused) => {
                drop(desk);
                Err(refused)
            }
        }
    }

    /// Drops the operator, and frees the memory of its history and its read copies. Letting it go
    /// out of scope does the same, but takes longer to prove.
    pub fn close(self) {
        drop(self);
    }

    /// Returns the table of all its sessions, for `sessions::meet`.
    pub fn table(&self) -> &SeatTable
        ensures { result.now ≡ N.place }
    {
        &self.table
    }

    /// Returns the number of read copies of each kind.
    pub fn copies(&self) -> usize
        ensures count { result ≡ self.now.repositories }
        ensures some { 0 < result }
    {
        self.repositories.len()
    }

    /// Brings read copy `j` of each kind up to date with the history. These copies answer the
    /// queries of the sessions whose number modulo `copies` is `j`.
    ///
    /// Costs the time to enter each operation that the copies lack. It waits for the lock of the
    /// book, and holds that while it waits for the locks of the copies. So a query that reads copy
    /// `j` delays every call until it is answered.
    ///
    /// # Errors
    ///
    /// Returns `OutOfMemory` if memory is refused. The copies then have the operations that they
    /// absorbed before.
    pub fn publish(&self, rt: &impl Wait, j: usize) -> Result<(), OutOfMemory>
        requires { j < self.now.repositories }
    {
        let mut kept = self.desk.lock(rt);
        self.repositories
            .publish(rt, j, &mut kept.desk, &self.table)?;
        self.counts.publish(rt, j, &mut kept.desk, &self.table)
    }

    /// Opens a session that has called nothing, and has seen the history so far. A thread needs
    /// nothing else beside the operator. Allocates nothing.
    ///
    /// # Errors
    ///
    /// Returns `RepositoryFull` if all session numbers of a `u64` are used.
    pub fn open_session(&self, rt: &impl Wait) -> Result<Session<N>, Refusal>
        ensures opened { IfOk result (λ s. (s ≡ new_session s.number s.seen) × IsLegalLog N.place.catalogue s.seen) }
        ensures refused { IfErr result (λ refusal. refusal ≡ Refusal.RepositoryFull) }
    {
        self.desk.lock(rt).desk.open(&self.table)
    }

    pub(crate) fn act(
        &self,
        rt: &impl Wait,
        session: &mut Session<N>,
        call: Call,
        at: Moment,
    ) -> Result<Reply, Refusal>
        ensures { IsReplied N.place.catalogue session.old session.new call at result }
    {
        self.desk.lock(rt).desk.act(session, call, at, &self.table)
    }

    pub(crate) fn act_on_stop(
        &self,
        rt: &impl Wait,
        session: &mut Session<N>,
        execution: ExecutionId,
        at: Moment,
    ) -> Result<Reply, Refusal>
        ensures { IsReplied N.place.catalogue session.old session.new (Call.Stop execution) at result }
    {
        let mut kept = self.desk.lock(rt);
        stop(&mut kept.desk, session, execution, at, &self.table)
    }

    pub(crate) fn ask(
        &self,
        rt: &impl Wait,
        session: &mut Session<N>,
        query: &Query,
    ) -> Result<Answer, Refusal>
        ensures { IsAnswered N.place.catalogue session.old session.new query.now result }
    {
        let j = self.copy_for(session);
        match self.repositories.read(rt, j, session, query, &self.table) {
            Some(answer) => answer,
            None => self.ask_book(rt, session, query),
        }
    }

    pub(crate) fn ask_book(
        &self,
        rt: &impl Wait,
        session: &mut Session<N>,
        query: &Query,
    ) -> Result<Answer, Refusal>
        ensures { IsAnswered N.place.catalogue session.old session.new query.now result }
    {
        self.desk.lock(rt).desk.ask(session, query, &self.table)
    }

    /// Returns the index of the read copy for a session: its number modulo the number of copies.
    pub(crate) fn copy_for(&self, session: &Session<N>) -> usize
        ensures number { result ≡ session.now.number % self.now.repositories }
        ensures within { result < self.now.repositories }
    {
        (session.number() % self.repositories.len() as u64) as usize
    }

    /// Returns the number of operations that were accepted so far. It is at least the number that
    /// the session has seen, and at least any count that it was shown. Allocates nothing, and takes
    /// no lock.
    pub fn operations_at_least(&self, session: &mut Session<N>) -> u64
        ensures shown { session.new ≡ glanced_at result session.old }
        ensures least { session.old.least ≤ result }
        ensures front { length session.old.seen ≤ result }
    {
        session.operations_at_least(&self.table)
    }

    /// Checks whether a job execution was asked to stop, as far as the session can see. If this
    /// returns true, the history has an accepted stop, and every later call of this session sees
    /// it. False proves nothing. Allocates nothing, and takes no lock.
    pub fn stop_seen(&self, session: &mut Session<N>, execution: ExecutionId) -> bool
        ensures found { IsTrue result → (rest : _) × (session.new.stops ≡ execution ∷ rest) }
        ensures kept { (rest : _) × (session.new.stops ≡ rest ++ session.old.stops) }
        ensures least { session.old.least ≤ session.new.least }
        ensures front { length session.old.seen ≤ session.new.least }
        ensures same { (session.new.number ≡ session.old.number) × (session.new.seen ≡ session.old.seen) × (session.new.mine ≡ session.old.mine) }
    {
        look(session, execution, &self.table)
    }
}
