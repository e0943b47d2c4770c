ghost use Rattle.std.specs.Prelude.{◌≡◌, ◌≢◌};
ghost use Rattle.seat_rules.specs.Places.{IsLegalLog};
ghost use Rattle.sessions.specs.Sessions.{Meets};

use crate::session::Session;
use seat_rules::{SeatTable, Site};

/// Lets two sessions exchange the operations that they have seen. Afterwards, both have seen all
/// that either had, and both were shown the greater count. Allocates nothing, and takes no lock.
pub fn meet<N: Site>(one: &mut Session<N>, other: &mut Session<N>, table: &SeatTable)
    requires { table.now ≡ N.place }
    ensures one { Meets one.old other.old one.new }
    ensures other { Meets other.old one.old other.new }
    ensures same { one.new.seen ≡ other.new.seen }
    ensures legal { IsLegalLog N.place.catalogue one.new.seen }
    ensures apart { one.old.number ≢ other.old.number }
{
    one.seat.host(&mut other.seat, table);
    one.seat.part(&mut other.seat, table);
    let front = one.front.max(other.front);
    let least = one.least.max(other.least);
    one.front = front;
    other.front = front;
    one.least = least;
    other.least = least;
}
