ghost use Rattle.std.specs.Prelude.{◌≡◌, ◌<◌, ◌≤◌, [], length, vec_len, IfOk, IfSome, IfNone};
ghost use Rattle.std.specs.List.{All};
ghost use mathlib.Core.List.{IsPrefix};
ghost use Rattle.batch_history.specs.Due.{IsDue};
ghost use Rattle.seat_rules.specs.Places.{IsLegalLog};
ghost use Rattle.batch_history.specs.Legal.{entries_by};
ghost use Rattle.seat_rules.specs.Views.{Each, HasStop, informed};

use crate::absorb::Absorb;
use crate::copied::Copied;
use batch_ids::{OutOfMemory, Refusal};
use op_log::JobRepository;
use seat_rules::{SeatTable, Site};
use sessions::{Desk, Session};
use std::alloc::Global;
use std::marker::Model;
use std::sync::{Mutex, Wait};

/// Read copies of one kind, each with a lock of its own. Contracts see their number.
#[derive(Drop)]
pub struct Copies<S: Absorb, N: Site> {
    copies: Vec<Mutex<Copied<S, N>>>,
}

impl<S: Absorb, N: Site> Model for Copies<S, N> {
    ghost use Rattle.std.specs.Prelude.{ℕ, vec_len};

    ghost Value = { ℕ };

    ghost view = { λ c. vec_len c.copies };
}

impl<S: Absorb, N: Site> Copies<S, N> {
    /// Returns a copy for each state. Each state must represent the empty log.
    ///
    /// # Errors
    ///
    /// Returns `OutOfMemory` if memory is refused.
    pub fn new<J: JobRepository>(
        alloc: Global,
        states: Vec<S>,
        desk: &mut Desk<N, J>,
        table: &SeatTable,
    ) -> Result<Copies<S, N>, OutOfMemory>
        requires table { table.now ≡ N.place }
        requires alone { desk.old.hosted ≡ [] }
        requires empty { All (λ s. S.stands s N.place.catalogue []) states.items }
        ensures desk { desk.new ≡ desk.old }
        ensures count { IfOk result (λ c. c ≡ vec_len states) }
    {
        let mut states = states;
        let mut copies = Vec::new(alloc);
        for number in 0..states.len() {
            let Some(state) = states.pop() else {
                unreachable!()
            };
            copies.push(Mutex::new(Copied::new(state, desk, table)))?;
        }
        Ok(Copies { copies })
    }

    /// Returns the number of copies.
    pub fn len(&self) -> usize
        ensures { result ≡ self.now }
    {
        self.copies.len()
    }

    /// Answers a question after the operations that copy `j` has absorbed. The session has seen
    /// these then.
    ///
    /// Returns `None`, with the session unchanged, if the copy has absorbed fewer operations than
    /// the session has seen or was shown.
    ///
    /// # Errors
    ///
    /// Returns the question's refusal if it applies, or `OutOfMemory` instead of any answer if
    /// memory is refused.
    pub fn read(
        &self,
        rt: &impl Wait,
        j: usize,
        session: &mut Session<N>,
        ask: &S::Ask,
        table: &SeatTable,
    ) -> Option<Result<S::Said, Refusal>>
        requires table { table.now ≡ N.place }
        requires there { j < self.now }
        ensures none { IfNone result (session.new ≡ session.old) }
        ensures session { IfSome result (λ _. session.new ≡ informed session.new.seen session.old) }
        ensures grows { IfSome result (λ _. IsPrefix session.old.seen session.new.seen) }
        ensures own { IfSome result (λ _. entries_by session.new.number session.new.seen ≡ session.new.mine) }
        ensures legal { IsLegalLog N.place.catalogue session.new.seen }
        ensures least { IfSome result (λ _. session.old.least ≤ length session.new.seen) }
        ensures stops { IfSome result (λ _. Each (HasStop session.new.seen session.old.least) session.old.stops) }
        ensures answer { IfSome result (λ said. IsDue said (S.answer N.place.catalogue session.new.seen ask.now)) }
    {
        self.copies[j].lock(rt).read(session, ask, table)
    }

    /// Lets copy `j` absorb the rest of the desk's log.
    ///
    /// # Errors
    ///
    /// Returns `OutOfMemory` if memory is refused. The copy then has the operations that it
    /// absorbed before.
    pub fn publish<J: JobRepository>(
        &self,
        rt: &impl Wait,
        j: usize,
        desk: &mut Desk<N, J>,
        table: &SeatTable,
    ) -> Result<(), OutOfMemory>
        requires table { table.now ≡ N.place }
        requires there { j < self.now }
        requires alone { desk.old.hosted ≡ [] }
        ensures desk { desk.new ≡ desk.old }
    {
        self.copies[j].lock(rt).bring(desk, table)
    }
}
