ghost use Rattle.std.specs.Prelude.{◌≡◌, ◌<◌, [], length};
ghost use Rattle.seat_rules.specs.Views.{view_of};

use crate::place::Site;
use crate::view::SeatView;
use atomic_table::{Badge, Seat};
use std::marker::{Model, PhantomData};
use std::mem;

/// The seat of a read copy. Contracts see a list with one entry, the operations that the copy has
/// absorbed. The list is empty while a desk or a session has the seat. No call allocates memory.
#[derive(Drop)]
pub struct CopySeat<N: Site> {
    badge: Badge<SeatView>,
    of: PhantomData<N>,
}

impl<N: Site> Model for CopySeat<N> {
    ghost use Rattle.std.specs.Prelude.{List};
    ghost use Rattle.batch_history.specs.declared.call.Entry.{Entry};
    ghost use Rattle.seat_rules.specs.Views.{copies_in, SitsCopy};

    ghost Value = { List (List Entry) };

    ghost view = { λ s. copies_in s.badge.views };

    ghost invariant = { λ s. SitsCopy N.place.table s.badge.table_id s.badge.views };
}

impl<N: Site> CopySeat<N> {
    /// Returns a placeholder for a seat that a desk or a session has.
    pub fn away() -> CopySeat<N>
        ensures { result ≡ [] }
    {
        CopySeat {
            badge: Badge::blank(),
            of: PhantomData,
        }
    }

    /// Takes the seat and leaves a placeholder.
    pub fn take(&mut self) -> CopySeat<N>
        ensures away { self.new ≡ [] }
        ensures seat { result ≡ self.old }
    {
        mem::replace(self, CopySeat::away())
    }

    pub(crate) fn of(seat: Seat<u8, SeatView>) -> CopySeat<N>
        requires { (seat.table_id ≡ N.place.table) × (seat.me.1 ≡ []) × (seat.me.0.books ≡ []) × (seat.me.0.sessions ≡ []) }
        ensures { result ≡ seat.me.0.copies }
    {
        CopySeat {
            badge: seat.into_badge(),
            of: PhantomData,
        }
    }

    pub(crate) fn into_seat(self) -> Seat<u8, SeatView>
        requires { 0 < length self }
        ensures { (result.table_id ≡ N.place.table) × (result.me ≡ (view_of [] [] self, [])) }
    {
        self.badge.into_seat()
    }
}
