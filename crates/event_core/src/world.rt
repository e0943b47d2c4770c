ghost use Rattle.std.specs.Prelude.{◌≡◌, Err, IfOk, OnErr, Result};
ghost use Rattle.batch_history.specs.Due.{IsDue};
ghost use Rattle.batch_history.specs.Legal.{history_after, most_operations};
ghost use Rattle.batch_history.specs.Replies.{reply};
ghost use Rattle.event_core.specs.Headline.{FollowOneHistory};
ghost use Rattle.event_core.specs.Worlds.{empty_world, IsCutShort, outcomes, step};

use crate::copies::{LaggingCopy, copy_at, empty_copies};
use crate::event::{Event, Outcome};
use crate::sessions::{Seen, Sessions};
use batch_ids::{Moment, OutOfMemory, Refusal};
use jsl_model::Catalogue;
use op_log::{Book, Call, JobRepository, Query, Reply};
use std::alloc::{AllocError, Global};
use std::marker::Model;

/// A job repository of at most 1,000,000 operations, with sessions that make calls and queries, and
/// copies that lag behind it. Contracts see its history, the part that each session has seen, and
/// the number of operations that each copy has.
///
/// Its invariant says that the repository's limit is 1,000,000, that the history is legal, and that
/// no session has seen more operations than there are. Each copy represents the first operations of
/// the history, as many as the copy has.
#[derive(Debug, Drop)]
pub struct World<J: JobRepository> {
    book: Book<J>,
    sessions: Sessions,
    copies: Vec<LaggingCopy<J>>,
}

impl<J: JobRepository> Model for World<J> {
    ghost use Rattle.std.specs.Prelude.{◌≡◌};
    ghost use Rattle.batch_history.specs.Legal.{most_operations};
    ghost use Rattle.event_core.specs.Copies.{AreCopies, state_of};
    ghost use Rattle.event_core.specs.Worlds.{IsSound, State};
    ghost use Rattle.jsl_model.specs.contracts.element.Body as body;
    ghost use Rattle.std.specs.Coded.{codes};

    ghost Value = { State };

    ghost coded = { Prim.hlevel (codes, body.the_row.coded) };

    ghost view = { λ w. state_of w.book w.sessions w.copies.items };

    ghost invariant = { λ w. IsSound (state_of w.book w.sessions w.copies.items) × AreCopies J.stands w.book w.copies.items × (J.limit ≡ most_operations) };
}

impl<J: JobRepository> World<J> {
    /// Returns a world before the first event. It has an empty history over this catalogue,
    /// `sessions` sessions that have seen nothing, and `copies` copies without operations.
    ///
    /// The catalogue is copied once for each copy. The world allocates all later memory from
    /// `alloc`.
    ///
    /// # Errors
    ///
    /// Returns only `OutOfMemory`, if memory is refused.
    pub fn new(
        alloc: Global,
        catalogue: Catalogue,
        sessions: u64,
        copies: u64,
    ) -> Result<World<J>, OutOfMemory>
        requires limit { J.limit ≡ most_operations }
        ensures { IfOk result (λ world. world ≡ empty_world catalogue sessions copies) }
    {
        let copies = empty_copies(alloc, &catalogue, copies)?;
        let sessions = Sessions::new(alloc, sessions)?;
        Ok(World {
            book: Book::new(alloc, catalogue)?,
            sessions,
            copies,
        })
    }

    /// Lets an event happen, and returns its outcome.
    ///
    /// A call costs as much as it costs the book. A query costs as much as it costs the book or
    /// copy that answers it. A Publish enters each operation that its copy lacks. A meeting and a
    /// glance cost the same for any number of operations.
    ///
    /// # Errors
    ///
    /// Returns only `OutOfMemory`, instead of any outcome, if memory is refused. The history, the
    /// sessions and the copies are then unchanged. There is one exception: the copy of a Publish
    /// has the operations that were entered before.
    pub fn step(&mut self, event: &Event) -> Result<Outcome, OutOfMemory>
        ensures step { IfOk result (λ outcome. step self.old event.now
            ≡ record { outcome = outcome; after = self.new }) }
        ensures refused { OnErr result (IsCutShort self.old event.now self.new) }
    {
        match event {
            Event::Call { who, call, at } => self.call(*who, call, *at),
            Event::Publish { copy, upto } => self.publish(*copy, *upto),
            Event::Read { who, copy, query } => self.read(*who, *copy, query),
            Event::Ask { who, query } => self.ask(*who, query),
            Event::Meet { one, other } => Ok(self.meet(*one, *other)),
            Event::Glance { who } => Ok(self.glance(*who)),
        }
    }

    /// Lets a session make a call.
    fn call(&mut self, who: u64, call: &Call, at: Moment) -> Result<Outcome, OutOfMemory>
        ensures step { IfOk result (λ outcome. step self.old (Event.Call who call.now at)
            ≡ record { outcome = outcome; after = self.new }) }
        ensures refused { OnErr result (self.new ≡ self.old) }
    {
        let Some(seen) = self.sessions.seen_by(who) else {
            return Ok(Outcome::Skipped);
        };
        let replied = act(&mut self.book, who, call, at)?;
        let front = self.book.len() as u64;
        self.sessions.set(who, Seen { front, ..seen });
        Ok(Outcome::Replied(replied))
    }

    /// Lets a copy take in operations that it lacks.
    fn publish(&mut self, copy: u64, upto: u64) -> Result<Outcome, OutOfMemory>
        ensures step { IfOk result (λ outcome. step self.old (Event.Publish copy upto)
            ≡ record { outcome = outcome; after = self.new }) }
        ensures refused { OnErr result (IsCutShort self.old (Event.Publish copy upto) self.new) }
    {
        if copy >= self.copies.len() as u64 {
            return Ok(Outcome::Skipped);
        }
        let taker = &mut self.copies[copy as usize];
        taker.take_in(&self.book, upto)?;
        Ok(Outcome::Published {
            length: taker.len(),
        })
    }

    /// Lets a session query a copy, or the book if the session has seen more than the copy has.
    fn read(&mut self, who: u64, copy: u64, query: &Query) -> Result<Outcome, OutOfMemory>
        ensures step { IfOk result (λ outcome. step self.old (Event.Read who copy query.now)
            ≡ record { outcome = outcome; after = self.new }) }
        ensures refused { OnErr result (self.new ≡ self.old) }
    {
        let Some(seen) = self.sessions.seen_by(who) else {
            return Ok(Outcome::Skipped);
        };
        let Some(asked) = copy_at(&self.copies, copy) else {
            return Ok(Outcome::Skipped);
        };
        let front = asked.len();
        if !seen.has_seen_no_more(front) {
            return self.ask(who, query);
        }
        let answered = told(asked.ask(query))?;
        self.sessions.set(who, Seen { front, ..seen });
        Ok(Outcome::Answered(answered))
    }

    /// Lets a session query the book.
    fn ask(&mut self, who: u64, query: &Query) -> Result<Outcome, OutOfMemory>
        ensures step { IfOk result (λ outcome. step self.old (Event.Ask who query.now)
            ≡ record { outcome = outcome; after = self.new }) }
        ensures refused { OnErr result (self.new ≡ self.old) }
    {
        let Some(seen) = self.sessions.seen_by(who) else {
            return Ok(Outcome::Skipped);
        };
        let answered = told(self.book.ask(query))?;
        let front = self.book.len() as u64;
        self.sessions.set(who, Seen { front, ..seen });
        Ok(Outcome::Answered(answered))
    }

    /// Lets two sessions exchange the operations that they have seen.
    fn meet(&mut self, one: u64, other: u64) -> Outcome
        ensures { step self.old (Event.Meet one other) ≡ record { outcome = result; after = self.new } }
    {
        if one == other {
            return Outcome::Skipped;
        }
        let Some(a) = self.sessions.seen_by(one) else {
            return Outcome::Skipped;
        };
        let Some(b) = self.sessions.seen_by(other) else {
            return Outcome::Skipped;
        };
        let joined = a.joined(b);
        self.sessions.set(one, joined);
        self.sessions.set(other, joined);
        Outcome::Met
    }

    /// Lets a session read the number of operations.
    fn glance(&mut self, who: u64) -> Outcome
        ensures { step self.old (Event.Glance who) ≡ record { outcome = result; after = self.new } }
    {
        let Some(seen) = self.sessions.seen_by(who) else {
            return Outcome::Skipped;
        };
        let n = self.book.len() as u64;
        self.sessions.set(who, Seen { least: n, ..seen });
        Outcome::Count { n }
    }
}

/// Returns the book's reply to a call, or its refusal.
///
/// Returns `OutOfMemory` as an error of its own if memory is refused.
fn act<J: JobRepository>(
    book: &mut Book<J>,
    who: u64,
    call: &Call,
    at: Moment,
) -> Result<Result<Reply, Refusal>, OutOfMemory>
    requires limit { J.limit ≡ most_operations }
    ensures reply { IfOk result (λ given. given ≡ reply most_operations book.old who call.now) }
    ensures after { IfOk result (λ given. book.new
        ≡ history_after book.old who call.now at given) }
    ensures refused { OnErr result (book.new ≡ book.old) }
{
    told(book.act(who, call.try_clone()?, at))
}

/// Separates the refusal `OutOfMemory`, as an error of its own, from all other results.
fn told<R>(given: Result<R, Refusal>) -> Result<Result<R, Refusal>, OutOfMemory>
    ensures due { (due : Result R Refusal) → IsDue given due → IfOk result (λ told. told ≡ due) }
    ensures given { IfOk result (λ told. told ≡ given) }
    ensures refused { OnErr result (given ≡ Err Refusal.OutOfMemory) }
{
    match given {
        Ok(answer) => Ok(Ok(answer)),
        Err(Refusal::OutOfMemory) => Err(AllocError),
        Err(refusal) => Ok(Err(refusal)),
    }
}

/// Returns the outcomes of these events, from a world before the first event. It has an empty
/// history over this catalogue, `sessions` sessions (numbered from 1) and `copies` copies (numbered
/// from 0).
///
/// The outcomes follow one growing history. Each reply follows from the whole history so far. Each
/// answer follows from some first operations of it, at least as many as the session had seen. Each
/// session's accepted calls are in the history in their order. The cost is the sum of the events'
/// costs.
///
/// # Errors
///
/// Returns only `OutOfMemory`, instead of all outcomes, if memory is refused.
#[tactic(auto, using(crate::proofs::Following::follow_one_history))]
pub fn run<J: JobRepository>(
    alloc: Global,
    catalogue: Catalogue,
    sessions: u64,
    copies: u64,
    events: &[Event],
) -> Result<Vec<Outcome>, OutOfMemory>
    requires limit { J.limit ≡ most_operations }
    ensures outcomes { IfOk result (λ told. told.items
        ≡ outcomes (empty_world catalogue sessions copies) events.now) }
    ensures one_history { FollowOneHistory (empty_world catalogue sessions copies) events.now }
{
    let mut world = World::<J>::new(alloc, catalogue, sessions, copies)?;
    let outcomes = outcomes_of(alloc, &mut world, events);
    drop(world);
    outcomes
}

/// Returns the outcomes of these events in this world.
fn outcomes_of<J: JobRepository>(
    alloc: Global,
    world: &mut World<J>,
    events: &[Event],
) -> Result<Vec<Outcome>, OutOfMemory>
    ensures { IfOk result (λ told. told.items ≡ outcomes world.old events.now) }
{
    let mut told = Vec::new(alloc);
    for event in events {
        told.push(world.step(event)?)?;
    }
    Ok(told)
}
