//! Read copies of a desk: alone, and with their locks.
ghost use Rattle.std.specs.Prelude.{◌≡◌, ◌<◌, ◌∷◌, [], IfOk, vec_len};
ghost use Rattle.std.specs.List.{All};
ghost use Rattle.batch_history.specs.Legal.{most_operations};

use crate::desks::show_session;
use anyhow::{Result, bail};
use batch_ids::Moment;
use call_lines::{
    Answered, Answers, Line, Made, Replied, Script, Tried, answer_lines, query_in, tell,
    tell_answer, tell_refused, told,
};
use job_repository::JobRepository;
use jsl_json::read_catalogue;
use jsl_model::Catalogue;
use op_log::{Call, Query};
use read_copies::{Absorb, Copied, Copies, RepositoryState, StatusCounts};
use seat_rules::{BookSeat, SeatTable, Site};
use sessions::{Desk, Session, meet};
use std::alloc::Global;
use std::marker::Brand;
use std::sync::Wait;

/// Sessions of a desk: one makes calls, and the others read copies only.
#[derive(Drop)]
struct Readers<N: Site> {
    caller: Session<N>,
    of_alone: Session<N>,
    of_repositories: Session<N>,
    of_counts: Session<N>,
}

/// Read copies of a desk: one of a repository alone, and one of each kind with a lock.
#[derive(Drop)]
struct Held<N: Site, J: JobRepository> {
    alone: Copied<RepositoryState<J>, N>,
    repositories: Copies<RepositoryState<J>, N>,
    counts: Copies<StatusCounts<J>, N>,
    ghost one_repository: { 0 < repositories },
    ghost one_of_counts: { 0 < counts },
}

/// A desk with its sessions and copies.
#[derive(Drop)]
struct Shelf<N: Site, J: JobRepository> {
    desk: Desk<N, J>,
    table: SeatTable,
    readers: Readers<N>,
    held: Held<N, J>,
    ghost free: { desk.hosted ≡ [] },
    ghost named: { table ≡ N.place },
}

/// Prints the answer of a copy, if it has all that the session has seen.
fn tell_read(rt: &(impl Print + AllocGlobal), read: Option<Answered>) -> Result<()> {
    match read {
        Some(answer) => tell_answer(rt, answer),
        None => {
            println!(rt; "the copy lacks operations")?;
            Ok(())
        }
    }
}

impl<N: Site, J: JobRepository> Shelf<N, J> {
    /// Asks the copy alone.
    fn read_alone<R: Print + AllocGlobal>(&mut self, rt: &R, line: Line<'_>) -> Result<()> {
        let query = query_in(rt.alloc(), line.parted().1)?;
        let session = &mut self.readers.of_alone;
        line.mark(rt.alloc());
        let read = self.held.alone.read(session, &query, &self.table);
        line.mark(rt.alloc());
        drop(query);
        tell_read(rt, read)
    }

    /// Asks the copy of a repository with a lock.
    fn read_shared<R: Wait + Print + AllocGlobal>(&mut self, rt: &R, line: Line<'_>) -> Result<()> {
        let query = query_in(rt.alloc(), line.parted().1)?;
        let session = &mut self.readers.of_repositories;
        line.mark(rt.alloc());
        let read = self
            .held
            .repositories
            .read(rt, 0, session, &query, &self.table);
        line.mark(rt.alloc());
        drop(query);
        tell_read(rt, read)
    }

    /// Reads the counts of the other copy.
    fn read_counts<R: Wait + Print>(&mut self, rt: &R) -> Result<()> {
        let session = &mut self.readers.of_counts;
        tell(rt, self.held.counts.read(rt, 0, session, &(), &self.table))
    }

    /// Prints the number of operations, and the sessions.
    fn show<R: Print>(&mut self, rt: &R) -> Result<()> {
        let operations = self.desk.len();
        println!(rt;
            "{operations} operations, of them {}",
            self.held.alone.len()
        )?;
        show_session(rt, &self.readers.of_alone)?;
        show_session(rt, &self.readers.of_repositories)?;
        show_session(rt, &self.readers.of_counts)
    }
}

impl<N: Site, J: JobRepository> Answers for Shelf<N, J> {
    fn act<R: Wait>(&mut self, _rt: &R, _by: u64, call: Call, at: Moment) -> Result<Replied> {
        let session = &mut self.readers.caller;
        Ok(self.desk.act(session, call, at, &self.table))
    }

    fn ask<R: Wait>(&mut self, _rt: &R, query: Query) -> Result<Answered> {
        let session = &mut self.readers.caller;
        Ok(self.desk.ask(session, &query, &self.table))
    }

    /// `alone` and `shared` with a query ask a copy. `bring` updates the copy alone, `publish` the
    /// one of a repository, `publish_counts` the one of the counts. At `meet` the session that asks
    /// the copy of a repository is shown what the caller has seen.
    fn other<R: Wait + Print + AllocGlobal>(&mut self, rt: &R, line: Line<'_>) -> Result<()> {
        match line.parted().0 {
            "alone" => self.read_alone(rt, line),
            "shared" => self.read_shared(rt, line),
            "counts" => self.read_counts(rt),
            "bring" => told!(rt, line, self.held.alone.bring(&mut self.desk, &self.table)),
            "publish" => told!(
                rt,
                line,
                self.held
                    .repositories
                    .publish(rt, 0, &mut self.desk, &self.table)
            ),
            "publish_counts" => told!(
                rt,
                line,
                self.held.counts.publish(rt, 0, &mut self.desk, &self.table)
            ),
            "meet" => {
                let readers = &mut self.readers;
                meet(
                    &mut readers.caller,
                    &mut readers.of_repositories,
                    &self.table,
                );
                Ok(())
            }
            "show" => self.show(rt),
            _ => bail!("{}: no line of a copy", line.text),
        }
    }
}

/// Returns a list of one state.
fn one_of<S: Drop>(alloc: Global, state: S) -> Made<Vec<S>>
    ensures { IfOk result (λ states. states.items ≡ state ∷ []) }
{
    let mut states = Vec::new(alloc);
    states.push(state)?;
    Ok(states)
}

/// Returns the state after no operation, for one copy.
fn states_of<S: Absorb>(alloc: Global, catalogue: &Catalogue) -> Made<Vec<S>>
    requires { S.can_begin }
    ensures empty { IfOk result (λ states. All (λ s. S.stands s catalogue.now []) states.items) }
    ensures one { IfOk result (λ states. vec_len states ≡ 1) }
{
    let state = S::begin(alloc, catalogue.try_clone()?)?;
    one_of(alloc, state)
}

/// Returns the copy of a repository with a lock. To make it is the call, if the script's first line
/// is marked.
fn shared_of<N: Site, J: JobRepository>(
    alloc: Global,
    first: Line<'_>,
    desk: &mut Desk<N, J>,
    table: &SeatTable,
    catalogue: &Catalogue,
) -> Made<Copies<RepositoryState<J>, N>>
    requires limit { J.limit ≡ most_operations }
    requires table { table.now ≡ N.place }
    requires alone { desk.old.hosted ≡ [] }
    requires catalogue { catalogue.now ≡ N.place.catalogue }
    ensures desk { desk.new ≡ desk.old }
    ensures one { IfOk result (λ copies. copies ≡ 1) }
{
    let states = states_of(alloc, catalogue)?;
    first.mark(alloc);
    let made = Copies::new(alloc, states, desk, table);
    first.mark(alloc);
    made
}

/// Returns the copy of the counts.
fn counted_of<N: Site, J: JobRepository>(
    alloc: Global,
    desk: &mut Desk<N, J>,
    table: &SeatTable,
    catalogue: &Catalogue,
) -> Made<Copies<StatusCounts<J>, N>>
    requires limit { J.limit ≡ most_operations }
    requires table { table.now ≡ N.place }
    requires alone { desk.old.hosted ≡ [] }
    requires catalogue { catalogue.now ≡ N.place.catalogue }
    ensures desk { desk.new ≡ desk.old }
    ensures one { IfOk result (λ copies. copies ≡ 1) }
{
    let states = states_of(alloc, catalogue)?;
    Copies::new(alloc, states, desk, table)
}

/// Returns the copy alone.
fn alone_of<N: Site, J: JobRepository>(
    alloc: Global,
    desk: &mut Desk<N, J>,
    table: &SeatTable,
    catalogue: &Catalogue,
) -> Made<Copied<RepositoryState<J>, N>>
    requires limit { J.limit ≡ most_operations }
    requires table { table.now ≡ N.place }
    requires alone { desk.old.hosted ≡ [] }
    requires catalogue { catalogue.now ≡ N.place.catalogue }
    ensures desk { desk.new ≡ desk.old }
{
    let state = RepositoryState::<J>::begin(alloc, catalogue.try_clone()?)?;
    Ok(Copied::new(state, desk, table))
}

/// Makes the copies of a desk.
fn held_of<N: Site, J: JobRepository>(
    alloc: Global,
    first: Line<'_>,
    desk: &mut Desk<N, J>,
    table: &SeatTable,
    catalogue: &Catalogue,
) -> Made<Held<N, J>>
    requires limit { J.limit ≡ most_operations }
    requires table { table.now ≡ N.place }
    requires alone { desk.old.hosted ≡ [] }
    requires catalogue { catalogue.now ≡ N.place.catalogue }
    ensures desk { desk.new ≡ desk.old }
{
    Ok(Held {
        repositories: shared_of(alloc, first, desk, table, catalogue)?,
        counts: counted_of(alloc, desk, table, catalogue)?,
        alone: alone_of(alloc, desk, table, catalogue)?,
    })
}

/// Opens the sessions.
fn readers_of<N: Site, J: JobRepository>(
    desk: &mut Desk<N, J>,
    table: &SeatTable,
) -> Tried<Readers<N>>
    requires table { table.now ≡ N.place }
    requires alone { desk.old.hosted ≡ [] }
    ensures alone { desk.new.hosted ≡ [] }
{
    Ok(Readers {
        caller: desk.open(table)?,
        of_alone: desk.open(table)?,
        of_repositories: desk.open(table)?,
        of_counts: desk.open(table)?,
    })
}

/// Answers the lines of a script by a desk with these sessions and copies.
fn answer_with<N: Site, J: JobRepository, R: Wait + Print + AllocGlobal>(
    rt: &R,
    lines: &str,
    desk: Desk<N, J>,
    table: SeatTable,
    readers: Readers<N>,
    held: Held<N, J>,
) -> Result<bool>
    requires table { table ≡ N.place }
    requires alone { desk.hosted ≡ [] }
{
    let mut shelf = Shelf {
        desk,
        table,
        readers,
        held,
    };
    let answered = answer_lines(rt, &mut shelf, lines);
    drop(shelf);
    answered?;
    Ok(true)
}

fn answer_by<N: Site, J: JobRepository, R: Wait + Print + AllocGlobal>(
    rt: &R,
    script: Script<'_>,
    desk: Desk<N, J>,
    table: SeatTable,
    catalogue: &Catalogue,
) -> Result<bool>
    requires limit { J.limit ≡ most_operations }
    requires table { table ≡ N.place }
    requires alone { desk.hosted ≡ [] }
    requires catalogue { catalogue.now ≡ N.place.catalogue }
{
    let mut desk = desk;
    let held = held_of(rt.alloc(), script.first, &mut desk, &table, catalogue);
    let readers = readers_of(&mut desk, &table);
    match (held, readers) {
        (Ok(held), Ok(readers)) => answer_with(rt, script.lines, desk, table, readers, held),
        _ => tell_refused(rt),
    }
}

fn answer_at<N: Site, J: JobRepository, R: Wait + Print + AllocGlobal>(
    rt: &R,
    script: Script<'_>,
    table: SeatTable,
    seat: BookSeat,
    catalogue: &Catalogue,
) -> Result<bool>
    requires limit { J.limit ≡ most_operations }
    requires table { table ≡ N.place }
    requires seat { seat ≡ N.place.table }
    requires catalogue { catalogue.now ≡ N.place.catalogue }
{
    let desk = Desk::<N, J>::new(rt.alloc(), seat, catalogue.try_clone()?)?;
    answer_by(rt, script, desk, table, catalogue)
}

/// Runs a script by read copies.
pub fn run_copies<J: JobRepository, R: Wait + Print + AllocGlobal>(
    rt: &R,
    script: Script<'_>,
) -> Result<bool>
    requires { J.limit ≡ most_operations }
{
    let catalogue = read_catalogue(rt.alloc(), script.first.text.as_bytes())?;
    let (table, seat) = SeatTable::new(rt.alloc(), &catalogue)?;
    answer_at::<Brand, J, _>(rt, script, table, seat, &catalogue)
}
