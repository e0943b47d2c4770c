ghost use Rattle.std.specs.Prelude.{◌≡◌, ◌<◌, ◌≤◌, [], ◌∷◌, ◌++◌, map, length};
ghost use mathlib.Core.List.{IsPrefix};
ghost use Rattle.seat_rules.specs.Rule.{IsSessionOf};
ghost use Rattle.seat_rules.specs.Steps.{met_one, met_other};
ghost use Rattle.seat_rules.specs.Views.{Each, glanced_at, informed, list_of, stopped_at, times, view_of};

use crate::copy_seat::CopySeat;
use crate::place::{SeatTable, Site};
use crate::rule::{Glance, Hosts, Look, Parts, ReadStop, Reads};
use crate::stop_word::stop_word;
use crate::view::SeatView;
use atomic_table::{Badge, Seat};
use batch_ids::ExecutionId;
use std::marker::{Model, PhantomData};
use std::mem;

/// The seat of one session or of two that meet. Contracts see the views of these sessions. They see
/// none while a desk or another session has the seat. No call allocates memory.
#[derive(Drop)]
pub struct SessionSeat<N: Site> {
    badge: Badge<SeatView>,
    of: PhantomData<N>,
}

impl<N: Site> Model for SessionSeat<N> {
    ghost use Rattle.std.specs.Prelude.{List};
    ghost use Rattle.seat_rules.specs.declared.view.SessionView.{SessionView};
    ghost use Rattle.seat_rules.specs.Views.{sessions_in, Sits};

    ghost Value = { List SessionView };

    ghost view = { λ s. sessions_in s.badge.views };

    ghost invariant = { λ s. Sits N.place.table s.badge.table_id s.badge.views };
}

impl<N: Site> SessionSeat<N> {
    pub(crate) fn of(seat: Seat<u8, SeatView>) -> SessionSeat<N>
        requires { (seat.table_id ≡ N.place.table) × (seat.me.1 ≡ []) × (seat.me.0.books ≡ []) × (seat.me.0.copies ≡ []) }
        ensures { result ≡ seat.me.0.sessions }
    {
        SessionSeat {
            badge: seat.into_badge(),
            of: PhantomData,
        }
    }

    pub(crate) fn take(&mut self) -> Seat<u8, SeatView>
        requires { 0 < length self.old }
        ensures away { self.new ≡ [] }
        ensures seat { (result.table_id ≡ N.place.table) × (result.me ≡ (view_of [] self.old [], [])) }
    {
        mem::replace(&mut self.badge, Badge::blank()).into_seat()
    }

    pub(crate) fn put(&mut self, seat: Seat<u8, SeatView>)
        requires { (seat.table_id ≡ N.place.table) × (seat.me.1 ≡ []) × (seat.me.0.books ≡ []) × (seat.me.0.copies ≡ []) }
        ensures { self.new ≡ seat.me.0.sessions }
    {
        self.badge = seat.into_badge();
    }

    /// Hosts another session. Ensures that both have seen prefixes of one log, and that their
    /// numbers differ.
    pub fn host(&mut self, other: &mut SessionSeat<N>, table: &SeatTable)
        requires table { table.now ≡ N.place }
        requires some { 0 < length self.old }
        requires one { 0 < length other.old }
        ensures both { self.new ≡ self.old ++ other.old }
        ensures away { other.new ≡ [] }
        ensures learnt { (log : _) × (last : _) × Each (IsSessionOf log last) (self.old ++ other.old) }
        ensures apart { (n : _) → times n (self.old ++ other.old) ≤ 1 }
    {
        let mut seat = self.take();
        table
            .table
            .shared
            .join_seat::<Hosts>(&mut seat, other.take());
        table.table.shared.load::<Look>(&mut seat, 0);
        self.put(seat);
    }

    /// Parts two sessions that have met. Both have the longer list of seen operations and the
    /// greater count then.
    pub fn part(&mut self, other: &mut SessionSeat<N>, table: &SeatTable)
        requires table { table.now ≡ N.place }
        requires two { (one : _) × (two : _) × (self.old ≡ one ∷ two ∷ []) }
        ensures one { self.new ≡ met_one self.old }
        ensures other { other.new ≡ met_other self.old }
    {
        let mut seat = self.take();
        let leaver = table.table.shared.split_seat::<Parts>(&mut seat);
        self.put(seat);
        other.put(leaver);
    }

    /// Takes over the operations that a copy has absorbed, which are at least as many as the
    /// session has seen. Ensures that both lists are prefixes of one log.
    pub fn read(&mut self, copy: &mut CopySeat<N>, table: &SeatTable)
        requires table { table.now ≡ N.place }
        requires two { (s : _) × (l : _) × (self.old ≡ s ∷ []) × (copy.old ≡ l ∷ []) × (length s.seen ≤ length l) }
        ensures session { self.new ≡ map (informed (list_of copy.old)) self.old }
        ensures copy { copy.new ≡ copy.old }
        ensures learnt { (log : _) × (last : _) × Each (IsSessionOf log last) self.old × Each (λ l. IsPrefix l log) copy.old }
    {
        let mut seat = self.take();
        table
            .table
            .shared
            .join_seat::<Hosts>(&mut seat, copy.take().into_seat());
        table.table.shared.load::<Look>(&mut seat, 0);
        let left = table.table.shared.split_seat::<Reads>(&mut seat);
        self.put(seat);
        *copy = CopySeat::of(left);
    }

    /// Returns the stop word of this job execution.
    pub fn read_stop(&mut self, execution: ExecutionId, table: &SeatTable) -> u64
        requires table { table.now ≡ N.place }
        requires one { 0 < length self.old }
        ensures { self.new ≡ map (stopped_at result) self.old }
    {
        let mut seat = self.take();
        let found = table
            .table
            .shared
            .load::<ReadStop>(&mut seat, stop_word(execution));
        self.put(seat);
        found
    }

    /// Returns the number of operations. It is at least the number that the session has seen, and
    /// at least any count that it was shown.
    pub fn glance(&mut self, table: &SeatTable) -> u64
        requires table { table.now ≡ N.place }
        requires one { 0 < length self.old }
        ensures shown { self.new ≡ map (glanced_at result) self.old }
        ensures learnt { (log : _) × (last : _) × (result ≡ length log) × Each (IsSessionOf log last) self.old }
    {
        let mut seat = self.take();
        let count = table.table.shared.load::<Glance>(&mut seat, 0);
        self.put(seat);
        count
    }
}
