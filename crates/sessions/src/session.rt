ghost use Rattle.std.specs.Prelude.{◌≡◌, ◌≤◌, [], ◌∷◌, length};
ghost use mathlib.Core.List.{IsPrefix};
ghost use Rattle.seat_rules.specs.Places.{IsLegalLog};
ghost use Rattle.batch_history.specs.Legal.{entries_by};
ghost use Rattle.seat_rules.specs.Views.{Each, HasStop, glanced_at, informed, list_of, stopped_at};

use batch_ids::ExecutionId;
use seat_rules::{CopySeat, SeatTable, SessionSeat, Site};
use std::marker::Model;

/// A session of one caller or worker. It moves from thread to thread with its owner, and makes one
/// call at a time.
///
/// Contracts see its number and the operations that it has seen, which are a legal prefix of the
/// log. They also see its own accepted operations, the greatest count that it was shown, and the
/// job executions whose stop it has found. None of the functions here allocates memory or waits.
#[derive(Drop)]
pub struct Session<N: Site> {
    pub(crate) number: u64,
    pub(crate) front: u64,
    pub(crate) least: u64,
    pub(crate) accepted: u64,
    pub(crate) seat: SessionSeat<N>,
}

impl<N: Site> Model for Session<N> {
    ghost use Rattle.seat_rules.specs.declared.view.SessionView.{SessionView};
    ghost use Rattle.sessions.specs.Sessions.{one_of, IsSession};

    ghost Value = { SessionView };

    ghost view = { λ s. one_of s.seat };

    ghost invariant = { λ s. IsSession N.place.catalogue s.number s.front s.least s.accepted s.seat };
}

impl<N: Site> Session<N> {
    /// Returns the session's number. Sessions are numbered from 1, in the order in which they are
    /// opened.
    pub fn number(&self) -> u64
        ensures { result ≡ self.now.number }
    {
        self.number
    }

    /// Returns the number of operations that the session has seen.
    pub fn front(&self) -> u64
        ensures front { result ≡ length self.now.seen }
        ensures legal { IsLegalLog N.place.catalogue self.now.seen }
    {
        self.front
    }

    /// Returns the greatest count of operations that the session was shown.
    pub fn least(&self) -> u64
        ensures { result ≡ self.now.least }
    {
        self.least
    }

    /// Returns the number of this session's accepted calls. A refused call and a claim with the
    /// reply Nothing don't count.
    pub fn accepted(&self) -> u64
        ensures { result ≡ length self.now.mine }
    {
        self.accepted
    }

    /// Returns the number of accepted operations. It is at least the number that the session has
    /// seen, and at least any count that it was shown.
    pub fn operations_at_least(&mut self, table: &SeatTable) -> u64
        requires { table.now ≡ N.place }
        ensures shown { self.new ≡ glanced_at result self.old }
        ensures least { self.old.least ≤ result }
        ensures front { length self.old.seen ≤ result }
    {
        self.least = self.seat.glance(table);
        self.least
    }

    /// Returns the stop word of a job execution: 0, or the number of a job execution whose stop was
    /// accepted.
    pub fn read_stop(&mut self, execution: ExecutionId, table: &SeatTable) -> u64
        requires { table.now ≡ N.place }
        ensures { self.new ≡ stopped_at result self.old }
    {
        self.seat.read_stop(execution, table)
    }

    /// Takes over the operations that a read copy has absorbed, of which there are `entries`. That
    /// must be at least the number that the session has seen, and at least any count that it was
    /// shown.
    pub fn read(&mut self, copy: &mut CopySeat<N>, entries: u64, table: &SeatTable)
        requires table { table.now ≡ N.place }
        requires copy { (l : _) × (copy.old ≡ l ∷ []) × (entries ≡ length l) × IsLegalLog N.place.catalogue l }
        requires front { length self.old.seen ≤ entries }
        requires least { self.old.least ≤ entries }
        ensures copy { copy.new ≡ copy.old }
        ensures session { self.new ≡ informed (list_of copy.old) self.old }
        ensures grows { IsPrefix self.old.seen self.new.seen }
        ensures own { entries_by self.new.number self.new.seen ≡ self.new.mine }
        ensures stops { Each (HasStop self.new.seen self.old.least) self.old.stops }
    {
        self.seat.read(copy, table);
        self.front = entries;
    }
}
