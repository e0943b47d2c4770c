ghost use Rattle.std.specs.Prelude.{◌≡◌, ◌≤◌, [], ◌∷◌, ◌++◌, length, map};
ghost use Rattle.seat_rules.specs.Places.{IsLegalLog, known};
ghost use Rattle.seat_rules.specs.Views.{with_entry};

use op_log::{Book, JobRepository};
use seat_rules::{DeskSeat, SeatTable, Site};

/// Appends the book's last entry to the seat's log. Allocates nothing.
pub fn append_last<N: Site, J: JobRepository>(
    seat: &mut DeskSeat<N>,
    book: &Book<J>,
    table: &SeatTable,
)
    requires table { table.now ≡ N.place }
    requires last { (e : _) × (s : _) × (book.now.log ≡ seat.old.log ++ e ∷ []) × (seat.old.sessions ≡ s ∷ []) × (s.number ≡ e.who) }
    requires legal { IsLegalLog N.place.catalogue book.now.log }
    ensures { (e : _) → book.now.log ≡ seat.old.log ++ e ∷ [] → seat.new ≡ known (seat.old.log ++ e ∷ []) seat.old.last (map (with_entry (seat.old.log ++ e ∷ []) e) seat.old.sessions) seat.old.copies }
{
    match book.entry(book.len()) {
        Some(entry) => seat.append(entry, table),
        None => unreachable!(),
    }
}

/// Returns the number of operations that the book has accepted. Allocates nothing.
pub fn length_of<J: JobRepository>(book: &Book<J>) -> u64
    requires { J.limit ≤ 1000000 }
    ensures length { result ≡ length book.now.log }
    ensures legal { IsLegalLog book.now.catalogue book.now.log }
{
    book.len() as u64
}
