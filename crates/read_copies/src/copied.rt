ghost use Rattle.std.specs.Prelude.{◌≡◌, ◌<◌, ◌≤◌, ◌⊎◌, [], take, length, OnOk, IfSome, IfNone};
ghost use mathlib.Core.List.{IsPrefix};
ghost use Rattle.batch_history.specs.Due.{IsDue};
ghost use Rattle.seat_rules.specs.Places.{IsLegalLog};
ghost use Rattle.batch_history.specs.Legal.{entries_by};
ghost use Rattle.seat_rules.specs.Views.{Each, HasStop, informed};

use crate::absorb::Absorb;
use batch_ids::{OutOfMemory, Refusal};
use op_log::JobRepository;
use seat_rules::{CopySeat, SeatTable, Site};
use sessions::{Desk, Session};
use std::marker::Model;

/// A read copy, which a lock guards. Contracts see the operations that it has absorbed: a prefix of
/// the log, which its state represents.
#[derive(Drop)]
pub struct Copied<S: Absorb, N: Site> {
    state: S,
    entries: u64,
    seat: CopySeat<N>,
}

impl<S: Absorb, N: Site> Model for Copied<S, N> {
    ghost use Rattle.std.specs.Prelude.{List};
    ghost use Rattle.batch_history.specs.declared.call.Entry.{Entry};
    ghost use Rattle.seat_rules.specs.Views.{list_of};
    ghost use Rattle.read_copies.specs.Copies.{IsCopied};

    ghost Value = { List Entry };

    ghost view = { λ c. list_of c.seat };

    ghost invariant = { λ c. IsCopied (S.stands c.state) N.place.catalogue c.entries c.seat };
}

impl<S: Absorb, N: Site> Copied<S, N> {
    /// Returns a copy that has absorbed nothing, and whose state represents the empty log.
    /// Allocates nothing.
    pub fn new<J: JobRepository>(state: S, desk: &mut Desk<N, J>, table: &SeatTable) -> Copied<S, N>
        requires table { table.now ≡ N.place }
        requires alone { desk.old.hosted ≡ [] }
        requires empty { S.stands state N.place.catalogue [] }
        ensures copy { result ≡ [] }
        ensures desk { desk.new ≡ desk.old }
    {
        Copied {
            state,
            entries: 0,
            seat: desk.copy_seat(table),
        }
    }

    /// Returns the number of operations that the copy has absorbed.
    pub fn len(&self) -> u64
        ensures { result ≡ length self.now }
    {
        self.entries
    }

    /// Answers a question after the operations that the copy has absorbed. The session has seen
    /// these then.
    ///
    /// Returns `None`, with nothing changed, if the copy has absorbed fewer operations than the
    /// session has seen or was shown.
    ///
    /// # Errors
    ///
    /// Returns the question's refusal if it applies, or `OutOfMemory` instead of any answer if
    /// memory is refused.
    pub fn read(
        &mut self,
        session: &mut Session<N>,
        ask: &S::Ask,
        table: &SeatTable,
    ) -> Option<Result<S::Said, Refusal>>
        requires table { table.now ≡ N.place }
        ensures copy { self.new ≡ self.old }
        ensures none { IfNone result ((session.new ≡ session.old) × ((length self.old < length session.old.seen) ⊎ (length self.old < session.old.least))) }
        ensures long { IfSome result (λ _. (length session.old.seen ≤ length self.old) × (session.old.least ≤ length self.old)) }
        ensures session { IfSome result (λ _. session.new ≡ informed self.old session.old) }
        ensures grows { IfSome result (λ _. IsPrefix session.old.seen session.new.seen) }
        ensures own { IfSome result (λ _. entries_by session.new.number session.new.seen ≡ session.new.mine) }
        ensures legal { IsLegalLog N.place.catalogue session.new.seen }
        ensures least { IfSome result (λ _. session.old.least ≤ length session.new.seen) }
        ensures stops { IfSome result (λ _. Each (HasStop session.new.seen session.old.least) session.old.stops) }
        ensures answer { IfSome result (λ said. IsDue said (S.answer N.place.catalogue session.new.seen ask.now)) }
    {
        if self.entries < session.front() || self.entries < session.least() {
            return None;
        }
        session.read(&mut self.seat, self.entries, table);
        Some(self.state.tell(ask))
    }

    /// Absorbs the rest of the desk's log.
    ///
    /// # Errors
    ///
    /// Returns `OutOfMemory` if memory is refused. The copy then has the operations that it
    /// absorbed before.
    pub fn bring<J: JobRepository>(
        &mut self,
        desk: &mut Desk<N, J>,
        table: &SeatTable,
    ) -> Result<(), OutOfMemory>
        requires table { table.now ≡ N.place }
        requires alone { desk.old.hosted ≡ [] }
        ensures desk { desk.new ≡ desk.old }
        ensures whole { OnOk result (self.new ≡ desk.old.log) }
        ensures kept { IsPrefix self.old self.new × IsPrefix self.new desk.old.log }
    {
        desk.host_copy(self.seat.take(), table);
        let result = absorb_rest(&mut self.state, &mut self.entries, desk);
        self.seat = desk.part_copy(self.entries, table);
        result
    }
}

fn absorb_rest<S: Absorb, N: Site, J: JobRepository>(
    state: &mut S,
    entries: &mut u64,
    desk: &Desk<N, J>,
) -> Result<(), OutOfMemory>
    requires stands { S.stands state.old N.place.catalogue (take entries.old desk.now.log) }
    requires short { entries.old ≤ length desk.now.log }
    ensures stands { S.stands state.new N.place.catalogue (take entries.new desk.now.log) }
    ensures more { entries.old ≤ entries.new }
    ensures short { entries.new ≤ length desk.now.log }
    ensures whole { OnOk result (entries.new ≡ length desk.now.log) }
    ensures legal { IsLegalLog N.place.catalogue desk.now.log }
{
    let end = desk.len() as u64;
    for number in *entries..end {
        let Some(entry) = desk.entry(number as usize + 1) else {
            unreachable!()
        };
        state.absorb(entry)?;
        *entries = number + 1;
    }
    Ok(())
}
