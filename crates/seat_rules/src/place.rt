ghost use Rattle.std.specs.Prelude.{◌≡◌, [], IfOk};
ghost use Rattle.seat_rules.specs.Places.{known};

use crate::desk_seat::DeskSeat;
use crate::rule::SeatRule;
use crate::view::SeatView;
use atomic_table::{Seat, Table};
use batch_ids::OutOfMemory;
use jsl_model::Catalogue;
use std::alloc::Global;
use std::marker::{Brand, Model};

/// A name of one table. Desks and sessions with the same name belong to the same table.
///
/// A function that uses desks and sessions is generic in `N: Site` and receives a new table. Its
/// caller passes a name of that table alone for `N`: `std`'s `Brand`, or another type that is as
/// unique.
pub trait Site {
    ghost use Rattle.seat_rules.specs.Places.{Place};

    ghost place: { Place };
}

impl Site for Brand {
    ghost use Rattle.seat_rules.specs.Places.{no_place};

    ghost place = { no_place };
}

/// The words that all threads share: the number of operations, and 64 stop words. Contracts see the
/// table's identity and the catalogue of its log.
#[derive(Drop)]
pub struct SeatTable {
    pub(crate) table: Table<u8, SeatView, Catalogue, SeatRule, Global>,
}

impl Model for SeatTable {
    ghost use Rattle.std.specs.Prelude.{◌≡◌};
    ghost use Rattle.jsl_model.specs.contracts.element.Body as body;
    ghost use Rattle.seat_rules.specs.Places.{Place};
    ghost use Rattle.std.specs.Coded.{codes};

    ghost Value = { Place };

    ghost coded = { Prim.hlevel (codes, body.the_row.coded) };

    ghost view = { λ s. record { table = s.table.shared.table_id; catalogue = s.table.shared.key } };

    ghost invariant = { λ s. s.table.shared.table_id.words ≡ 65 };
}

/// The first seat of a table, over an empty log. Contracts see the table.
#[derive(Drop)]
pub struct BookSeat {
    pub(crate) seat: Seat<u8, SeatView>,
}

impl Model for BookSeat {
    ghost use Rattle.std.specs.Prelude.{◌≡◌, []};
    ghost use Rattle.atomic_table.specs.Seated.{TableId};
    ghost use Rattle.seat_rules.specs.Views.{first_view};

    ghost Value = { TableId };

    ghost view = { λ s. s.seat.table_id };

    ghost invariant = { λ s. s.seat.me ≡ (first_view, []) };
}

impl SeatTable {
    /// Returns a table for an empty log over this catalogue, with its first seat.
    ///
    /// # Errors
    ///
    /// Returns `OutOfMemory` if memory is refused.
    pub fn new(alloc: Global, catalogue: &Catalogue) -> Result<(SeatTable, BookSeat), OutOfMemory>
        ensures { IfOk result (λ made. (made.0.catalogue ≡ catalogue.now) × (made.1 ≡ made.0.table)) }
    {
        let (table, seat) = Table::of_words(alloc, &[0; 65], catalogue)?;
        Ok((SeatTable { table }, BookSeat { seat }))
    }
}

impl BookSeat {
    /// Returns this seat as the desk of the table that `N` names. Allocates nothing.
    pub fn named<N: Site>(self) -> DeskSeat<N>
        requires { self ≡ N.place.table }
        ensures { result ≡ known [] 0 [] [] }
    {
        DeskSeat::of(self.seat)
    }
}
