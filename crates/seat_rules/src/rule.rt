use crate::view::SeatView;
use atomic_table::{Join, Play, Split, TableRule};
use jsl_model::Catalogue;
use std::marker::{Brand, PhantomData};

/// The invariant of the words and of all seats between any two atomic actions.
pub struct SeatRule;

impl TableRule<u8, SeatView, Catalogue> for SeatRule {
    ghost use Rattle.seat_rules.specs.Rule.{Kept};
    ghost use Rattle.seat_rules.specs.Views.{first_view};

    ghost holds = { Kept };

    ghost first = { λ _. first_view };
}

/// The action of reading the count without showing it to a session. It proves that all views of the
/// seat are of one log.
pub struct Look;

impl Play<u8, SeatView> for Look {
    ghost use Rattle.seat_rules.specs.Steps.{Looked};

    ghost then = { Looked };
}

/// The action of a session that reads the count.
pub struct Glance;

impl Play<u8, SeatView> for Glance {
    ghost use Rattle.seat_rules.specs.Steps.{Glanced};

    ghost then = { Glanced };
}

/// The action of the desk that stores a stop word.
pub struct Raise;

impl Play<u8, SeatView> for Raise {
    ghost use Rattle.seat_rules.specs.Steps.{Raised};

    ghost then = { Raised };
}

/// The action of a session that reads a stop word.
pub struct ReadStop;

impl Play<u8, SeatView> for ReadStop {
    ghost use Rattle.seat_rules.specs.Steps.{Stopped};

    ghost then = { Stopped };
}

/// The operation that an action appends. Each call chooses its own.
pub trait Pending {
    ghost use Rattle.batch_history.specs.declared.call.Entry.{Entry};

    ghost entry: { Entry };
}

impl Pending for Brand {
    ghost use Rattle.batch_history.specs.declared.call.Call.TheVariants.{Claim};
    ghost use Rattle.batch_history.specs.declared.call.Reply.TheVariants.{Nothing};

    ghost entry = { record { who = 0; call = Claim; at = 0; reply = Nothing } };
}

/// The action of the desk that counts an operation, by which the log grows.
pub struct Append<E> {
    of: PhantomData<E>,
}

impl<E: Pending> Play<u8, SeatView> for Append<E> {
    ghost use Rattle.seat_rules.specs.Steps.{Appended};

    ghost then = { Appended E.entry };
}

/// The union of two seats.
pub struct Hosts;

impl Join<SeatView> for Hosts {
    ghost use Rattle.seat_rules.specs.Steps.{hosting};
    ghost use Rattle.seat_rules.specs.Views.{nobody};

    ghost both = { hosting };

    ghost spent = { nobody };
}

/// The opening of a session.
pub struct Newcomer;

impl Split<SeatView> for Newcomer {
    ghost use Rattle.seat_rules.specs.Steps.{opened, newcomer};

    ghost left = { opened };

    ghost right = { newcomer };
}

/// The leaving of the session that the desk hosts.
pub struct Leaves;

impl Split<SeatView> for Leaves {
    ghost use Rattle.seat_rules.specs.Steps.{emptied, leaver};

    ghost left = { emptied };

    ghost right = { leaver };
}

/// The parting of two sessions that have met.
pub struct Parts;

impl Split<SeatView> for Parts {
    ghost use Rattle.seat_rules.specs.Steps.{one_met, other_met};

    ghost left = { one_met };

    ghost right = { other_met };
}

/// The making of a copy.
pub struct NewCopy;

impl Split<SeatView> for NewCopy {
    ghost use Rattle.seat_rules.specs.Steps.{same_view, new_copy};

    ghost left = { same_view };

    ghost right = { new_copy };
}

/// The number of operations that a copy leaves with. Each call chooses its own.
pub trait Absorbed {
    ghost use Rattle.std.specs.Prelude.{ℕ};

    ghost absorbed: { ℕ };
}

impl Absorbed for Brand {
    ghost absorbed = { 0 };
}

/// The leaving of the copy that the desk hosts.
pub struct Releases<A> {
    of: PhantomData<A>,
}

impl<A: Absorbed> Split<SeatView> for Releases<A> {
    ghost use Rattle.seat_rules.specs.Steps.{without_copy, released};

    ghost left = { without_copy };

    ghost right = { released A.absorbed };
}

/// The parting of a session from a copy that it has read.
pub struct Reads;

impl Split<SeatView> for Reads {
    ghost use Rattle.seat_rules.specs.Steps.{caught_up, copy_read};

    ghost left = { caught_up };

    ghost right = { copy_read };
}
