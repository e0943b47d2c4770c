ghost use Rattle.std.specs.Prelude.{◌≡◌, ◌+◌, ◌<◌, ◌≤◌, [], ◌∷◌, ◌++◌, map, take, length};
ghost use mathlib.Core.List.{IsPrefix};
ghost use Rattle.seat_rules.specs.Places.{IsLegalLog, known};
ghost use Rattle.seat_rules.specs.Rule.{IsSessionOf};
ghost use Rattle.seat_rules.specs.Views.{Each, HasStop, first_view, informed, new_session, with_entry};

use crate::copy_seat::CopySeat;
use crate::place::{SeatTable, Site};
use crate::rule::{
    Absorbed, Append, Hosts, Leaves, Look, NewCopy, Newcomer, Pending, Raise, Releases,
};
use crate::session_seat::SessionSeat;
use crate::stop_word::stop_word;
use crate::view::SeatView;
use atomic_table::Seat;
use batch_history::Entry;
use batch_ids::ExecutionId;
use std::marker::{Brand, Model, PhantomData};

/// The seat of the desk, which has the whole log and the session or copy that it hosts. Contracts
/// see both. No call allocates memory.
#[derive(Drop)]
pub struct DeskSeat<N: Site> {
    seat: Seat<u8, SeatView>,
    of: PhantomData<N>,
}

impl<N: Site> Model for DeskSeat<N> {
    ghost use Rattle.std.specs.Prelude.{◌≡◌, []};
    ghost use Rattle.seat_rules.specs.Places.{Known};
    ghost use Rattle.seat_rules.specs.Views.{known_in, desk_view};

    ghost Value = { Known };

    ghost view = { λ s. known_in s.seat.me.0 };

    ghost invariant = { λ s. (s.seat.table_id ≡ N.place.table) × (s.seat.me ≡ (desk_view (known_in s.seat.me.0), [])) };
}

impl<N: Site> DeskSeat<N> {
    pub(crate) fn of(seat: Seat<u8, SeatView>) -> DeskSeat<N>
        requires { (seat.table_id ≡ N.place.table) × (seat.me ≡ (first_view, [])) }
        ensures { result ≡ known [] 0 [] [] }
    {
        DeskSeat {
            seat,
            of: PhantomData,
        }
    }

    /// Opens a session. Its number is one above the last session's, and it has seen the whole log.
    pub fn open(&mut self, table: &SeatTable) -> SessionSeat<N>
        requires table { table.now ≡ N.place }
        requires alone { self.old.sessions ≡ [] }
        ensures book { self.new ≡ known self.old.log (self.old.last + 1) [] self.old.copies }
        ensures session { result ≡ new_session (self.old.last + 1) self.old.log ∷ [] }
    {
        SessionSeat::of(table.table.shared.split_seat::<Newcomer>(&mut self.seat))
    }

    /// Hosts a session. Ensures that the operations that it has seen are a prefix of the log.
    pub fn host(&mut self, other: &mut SessionSeat<N>, table: &SeatTable)
        requires table { table.now ≡ N.place }
        requires alone { (self.old.sessions ≡ []) × (self.old.copies ≡ []) }
        requires one { 0 < length other.old }
        ensures book { self.new ≡ known self.old.log self.old.last other.old [] }
        ensures away { other.new ≡ [] }
        ensures learnt { Each (IsSessionOf self.old.log self.old.last) other.old }
    {
        table
            .table
            .shared
            .join_seat::<Hosts>(&mut self.seat, other.take());
        table.table.shared.load::<Look>(&mut self.seat, 0);
    }

    /// Appends an operation of the hosted session to the log, and counts it in word 0.
    pub fn append(&mut self, entry: &Entry, table: &SeatTable)
        requires table { table.now ≡ N.place }
        requires session { (s : _) × (self.old.sessions ≡ s ∷ []) × (s.number ≡ entry.now.who) }
        requires legal { IsLegalLog N.place.catalogue (self.old.log ++ entry.now ∷ []) }
        ensures { self.new ≡ known (self.old.log ++ entry.now ∷ []) self.old.last (map (with_entry (self.old.log ++ entry.now ∷ []) entry.now) self.old.sessions) self.old.copies }
    {
        self.append_as::<Brand>(entry, table);
    }

    fn append_as<E: Pending>(&mut self, entry: &Entry, table: &SeatTable)
        requires entry { entry.now ≡ E.entry }
        requires table { table.now ≡ N.place }
        requires session { (s : _) × (self.old.sessions ≡ s ∷ []) × (s.number ≡ entry.now.who) }
        requires legal { IsLegalLog N.place.catalogue (self.old.log ++ entry.now ∷ []) }
        ensures { self.new ≡ known (self.old.log ++ entry.now ∷ []) self.old.last (map (with_entry (self.old.log ++ entry.now ∷ []) entry.now) self.old.sessions) self.old.copies }
    {
        table
            .table
            .shared
            .fetch_add::<Append<E>>(&mut self.seat, 0, 1);
    }

    /// Stores a job execution's number in its stop word. The log must have a stop of this job
    /// execution.
    pub fn raise(&mut self, execution: ExecutionId, table: &SeatTable)
        requires table { table.now ≡ N.place }
        requires stopped { HasStop self.old.log (length self.old.log) execution }
        ensures { self.new ≡ self.old }
    {
        table
            .table
            .shared
            .store::<Raise>(&mut self.seat, stop_word(execution), execution.value());
    }

    /// Returns the hosted session to its seat, as having seen the whole log.
    pub fn part(&mut self, other: &mut SessionSeat<N>, table: &SeatTable)
        requires table { table.now ≡ N.place }
        ensures book { self.new ≡ known self.old.log self.old.last [] self.old.copies }
        ensures session { other.new ≡ map (informed self.old.log) self.old.sessions }
    {
        other.put(table.table.shared.split_seat::<Leaves>(&mut self.seat));
    }

    /// Returns the seat of a new copy, which has absorbed nothing.
    pub fn copy_seat(&mut self, table: &SeatTable) -> CopySeat<N>
        requires table { table.now ≡ N.place }
        ensures book { self.new ≡ self.old }
        ensures copy { result ≡ [] ∷ [] }
    {
        CopySeat::of(table.table.shared.split_seat::<NewCopy>(&mut self.seat))
    }

    /// Hosts a copy. Ensures that the operations that it has absorbed are a prefix of the log.
    pub fn host_copy(&mut self, copy: CopySeat<N>, table: &SeatTable)
        requires table { table.now ≡ N.place }
        requires alone { (self.old.sessions ≡ []) × (self.old.copies ≡ []) }
        requires one { 0 < length copy }
        ensures book { self.new ≡ known self.old.log self.old.last [] copy }
        ensures learnt { Each (λ l. IsPrefix l self.old.log) copy }
    {
        table
            .table
            .shared
            .join_seat::<Hosts>(&mut self.seat, copy.into_seat());
        table.table.shared.load::<Look>(&mut self.seat, 0);
    }

    /// Returns the hosted copy's seat, as having absorbed this many operations of the log.
    pub fn part_copy(&mut self, absorbed: u64, table: &SeatTable) -> CopySeat<N>
        requires table { table.now ≡ N.place }
        requires long { (l : _) × (self.old.copies ≡ l ∷ []) × (length l ≤ absorbed) }
        requires short { absorbed ≤ length self.old.log }
        ensures book { self.new ≡ known self.old.log self.old.last self.old.sessions [] }
        ensures copy { result ≡ take absorbed self.old.log ∷ [] }
    {
        self.part_copy_as::<Brand>(absorbed, table)
    }

    fn part_copy_as<A: Absorbed>(&mut self, absorbed: u64, table: &SeatTable) -> CopySeat<N>
        requires absorbed { absorbed ≡ A.absorbed }
        requires table { table.now ≡ N.place }
        requires one { (l : _) × (self.old.copies ≡ l ∷ []) }
        ensures book { self.new ≡ known self.old.log self.old.last self.old.sessions [] }
        ensures copy { result ≡ take absorbed self.old.log ∷ [] }
    {
        CopySeat::of(table.table.shared.split_seat::<Releases<A>>(&mut self.seat))
    }
}
