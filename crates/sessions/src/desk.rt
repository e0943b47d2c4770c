ghost use Rattle.std.specs.Prelude.{◌≡◌, ◌⊎◌, ◌+◌, ◌-◌, ◌<◌, ◌≤◌, [], ◌∷◌, ◌++◌, take, length, slice_get, IfOk, IfErr, Ok, None};
ghost use mathlib.Core.List.{IsPrefix};
ghost use Rattle.std.specs.Option.{option_copied};
ghost use Rattle.batch_history.specs.Answers.{answer};
ghost use Rattle.batch_history.specs.Due.{IsDue};
ghost use Rattle.batch_history.specs.Replies.{reply};
ghost use Rattle.seat_rules.specs.Places.{IsLegalLog};
ghost use Rattle.batch_history.specs.Legal.{entries_by};
ghost use Rattle.seat_rules.specs.Views.{Each, HasStop, informed, new_session};
ghost use Rattle.batch_history.specs.Rows.{history};
ghost use Rattle.sessions.specs.Answered.{entered, moved_on};
ghost use Rattle.sessions.specs.Sessions.{desk_state};

use crate::book::{append_last, length_of};
use crate::session::Session;
use batch_ids::{ExecutionId, Moment, OutOfMemory, Refusal};
use jsl_model::Catalogue;
use op_log::{Answer, Book, Call, Entry, JobRepository, Query, Reply};
use seat_rules::{BookSeat, CopySeat, DeskSeat, SeatTable, Site};
use std::alloc::Global;
use std::marker::Model;

/// The book of a job repository, with the seat of its log. A lock guards it, and each call is made
/// on it.
///
/// Contracts see the log, the number of the session that was opened last, and the read copy that
/// the desk hosts, if any. The book's log is the log of the table's rule.
#[derive(Drop)]
pub struct Desk<N: Site, J: JobRepository> {
    book: Book<J>,
    seat: DeskSeat<N>,
    last: u64,
}

impl<N: Site, J: JobRepository> Model for Desk<N, J> {
    ghost use Rattle.sessions.specs.Sessions.{DeskState, IsDesk};

    ghost Value = { DeskState };

    ghost view = { λ d. record { log = d.book.log; last = d.last; hosted = d.seat.copies } };

    ghost invariant = { λ d. IsDesk J.limit N.place.catalogue d.book d.seat d.last };
}

impl<N: Site, J: JobRepository> Desk<N, J> {
    /// Returns a desk with an empty log, over the first seat of the table that `N` names.
    ///
    /// The repository's limit is at most 1,000,000. The desk allocates all later memory from
    /// `alloc`.
    ///
    /// # Errors
    ///
    /// Returns `OutOfMemory` if memory is refused.
    pub fn new(
        alloc: Global,
        seat: BookSeat,
        catalogue: Catalogue,
    ) -> Result<Desk<N, J>, OutOfMemory>
        requires limit { J.limit ≤ 1000000 }
        requires seat { seat ≡ N.place.table }
        requires catalogue { catalogue ≡ N.place.catalogue }
        ensures { IfOk result (λ desk. desk ≡ desk_state [] 0 []) }
    {
        let book = Book::new(alloc, catalogue)?;
        Ok(Desk {
            book,
            seat: seat.named::<N>(),
            last: 0,
        })
    }

    /// Returns the number of accepted operations. Allocates nothing.
    pub fn len(&self) -> usize
        ensures length { result ≡ length self.now.log }
        ensures legal { IsLegalLog N.place.catalogue self.now.log }
    {
        length_of(&self.book) as usize
    }

    /// Returns the entry with this number, counted from 1, if there is one. Allocates nothing.
    pub fn entry(&self, k: usize) -> Option<&Entry>
        ensures none { k ≡ 0 → option_copied result ≡ None }
        ensures some { 0 < k → option_copied result ≡ slice_get self.now.log (k - 1) }
    {
        self.book.entry(k)
    }

    /// Opens a session. Its number is one above the last, it has called nothing, and it has seen
    /// the whole log. Allocates nothing.
    ///
    /// # Errors
    ///
    /// Returns `RepositoryFull`, with nothing changed, if all numbers of a `u64` are used.
    pub fn open(&mut self, table: &SeatTable) -> Result<Session<N>, Refusal>
        requires table { table.now ≡ N.place }
        requires alone { self.old.hosted ≡ [] }
        ensures opened { IfOk result (λ s. (s ≡ new_session (self.old.last + 1) self.old.log) × (self.new ≡ desk_state self.old.log (self.old.last + 1) [])) }
        ensures refused { IfErr result (λ refusal. (refusal ≡ Refusal.RepositoryFull) × (self.old.last ≡ 18446744073709551615) × (self.new ≡ self.old)) }
        ensures legal { IsLegalLog N.place.catalogue self.new.log }
    {
        let front = length_of(&self.book);
        if self.last == u64::MAX {
            return Err(Refusal::RepositoryFull);
        }
        self.last += 1;
        let seat = self.seat.open(table);
        Ok(Session {
            number: self.last,
            front,
            least: 0,
            accepted: 0,
            seat,
        })
    }

    /// Replies to a session's call at this moment, as a single-threaded book does at the end of the
    /// log. Enters the call if it is accepted. The session then has seen the whole log.
    ///
    /// # Errors
    ///
    /// Returns the call's first refusal that applies, then `RepositoryFull` if the log has as many
    /// entries as the repository's limit says. Returns `OutOfMemory` instead of any reply if memory
    /// is refused. A refused call enters nothing.
    pub fn act(
        &mut self,
        session: &mut Session<N>,
        call: Call,
        at: Moment,
        table: &SeatTable,
    ) -> Result<Reply, Refusal>
        requires table { table.now ≡ N.place }
        requires alone { self.old.hosted ≡ [] }
        ensures reply { IsDue result (reply J.limit (history N.place.catalogue self.old.log) session.old.number call) }
        ensures log { self.new.log ≡ entered self.old.log session.old.number call at result }
        ensures session { session.new ≡ moved_on session.old self.new.log (entered session.old.mine session.old.number call at result) }
        ensures grows { IsPrefix session.old.seen self.old.log }
        ensures own { entries_by session.new.number session.new.seen ≡ session.new.mine }
        ensures legal { IsLegalLog N.place.catalogue self.new.log }
        ensures least { session.old.least ≤ length self.old.log }
        ensures stops { Each (HasStop session.new.seen session.old.least) session.old.stops }
        ensures last { (self.new.last ≡ self.old.last) × (self.new.hosted ≡ []) }
    {
        self.seat.host(&mut session.seat, table);
        let result = self.book.act(session.number, call, at);
        let front = length_of(&self.book);
        match &result {
            Ok(reply) => {
                if reply.is_nothing() {
                    self.seat.part(&mut session.seat, table);
                    session.front = front;
                } else {
                    append_last(&mut self.seat, &self.book, table);
                    self.seat.part(&mut session.seat, table);
                    session.accepted += 1;
                    session.front = front;
                }
            }
            Err(_) => {
                self.seat.part(&mut session.seat, table);
                session.front = front;
            }
        }
        result
    }

    /// Answers a session's query, as a single-threaded book does at the end of the log. The session
    /// then has seen the whole log.
    ///
    /// # Errors
    ///
    /// Returns the query's refusal if it applies, or `OutOfMemory` instead of any answer if memory
    /// is refused.
    pub fn ask(
        &mut self,
        session: &mut Session<N>,
        query: &Query,
        table: &SeatTable,
    ) -> Result<Answer, Refusal>
        requires table { table.now ≡ N.place }
        requires alone { self.old.hosted ≡ [] }
        ensures answer { IsDue result (answer (history N.place.catalogue self.old.log) query.now) }
        ensures desk { self.new ≡ self.old }
        ensures session { session.new ≡ informed self.old.log session.old }
        ensures grows { IsPrefix session.old.seen session.new.seen }
        ensures own { entries_by session.new.number session.new.seen ≡ session.new.mine }
        ensures legal { IsLegalLog N.place.catalogue session.new.seen }
        ensures least { session.old.least ≤ length session.new.seen }
        ensures stops { Each (HasStop session.new.seen session.old.least) session.old.stops }
    {
        self.seat.host(&mut session.seat, table);
        self.seat.part(&mut session.seat, table);
        session.front = length_of(&self.book);
        self.book.ask(query)
    }

    /// Stores a job execution's number in its stop word, for sessions to find. The log must have a
    /// stop of this job execution. Allocates nothing.
    pub fn raise(&mut self, execution: ExecutionId, table: &SeatTable)
        requires table { table.now ≡ N.place }
        requires stopped { HasStop self.old.log (length self.old.log) execution }
        ensures { self.new ≡ self.old }
    {
        self.seat.raise(execution, table);
    }
}

impl<N: Site, J: JobRepository> Desk<N, J> {
    /// Returns the seat of a read copy that has absorbed nothing. Allocates nothing.
    pub fn copy_seat(&mut self, table: &SeatTable) -> CopySeat<N>
        requires table { table.now ≡ N.place }
        requires alone { self.old.hosted ≡ [] }
        ensures desk { self.new ≡ self.old }
        ensures copy { result ≡ [] ∷ [] }
    {
        self.seat.copy_seat(table)
    }

    /// Hosts a read copy. Ensures that the operations that it has absorbed are a prefix of the log.
    /// Allocates nothing.
    pub fn host_copy(&mut self, copy: CopySeat<N>, table: &SeatTable)
        requires table { table.now ≡ N.place }
        requires alone { self.old.hosted ≡ [] }
        requires one { 0 < length copy }
        ensures desk { self.new ≡ desk_state self.old.log self.old.last copy }
        ensures learnt { Each (λ l. IsPrefix l self.old.log) copy }
    {
        self.seat.host_copy(copy, table);
    }

    /// Returns the seat of the hosted read copy, as having absorbed this many operations. Allocates
    /// nothing.
    pub fn part_copy(&mut self, absorbed: u64, table: &SeatTable) -> CopySeat<N>
        requires table { table.now ≡ N.place }
        requires long { (l : _) × (self.old.hosted ≡ l ∷ []) × (length l ≤ absorbed) }
        requires short { absorbed ≤ length self.old.log }
        ensures desk { self.new ≡ desk_state self.old.log self.old.last [] }
        ensures copy { result ≡ take absorbed self.old.log ∷ [] }
    {
        self.seat.part_copy(absorbed, table)
    }
}
