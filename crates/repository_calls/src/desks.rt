//! Desks with the table of seats and sessions.
ghost use Rattle.std.specs.Prelude.{◌≡◌, ◌≤◌, []};

use anyhow::{Result, bail};
use batch_ids::Moment;
use call_lines::{
    Answered, Answers, Line, Replied, Script, Tried, answer_lines, query_in, tell_answer,
    tell_refused,
};
use job_repository::JobRepository;
use jsl_json::read_catalogue;
use jsl_model::Catalogue;
use op_log::{Call, Query};
use seat_rules::{BookSeat, SeatTable, Site};
use sessions::{Desk, Session};
use std::marker::Brand;
use std::sync::Wait;

/// Two sessions that make calls, and one that watches.
#[derive(Drop)]
struct Readers<N: Site> {
    one: Session<N>,
    other: Session<N>,
    watcher: Session<N>,
}

/// A desk with its sessions.
#[derive(Drop)]
struct Held<N: Site, J: JobRepository> {
    desk: Desk<N, J>,
    table: SeatTable,
    readers: Readers<N>,
    ghost alone: { desk.hosted ≡ [] },
    ghost named: { table ≡ N.place },
}

/// Prints what a session has seen.
pub(crate) fn show_session<N: Site>(rt: &impl Print, session: &Session<N>) -> Result<()> {
    println!(rt;
        "session {}, seen {}, shown {}, own {}",
        session.number(),
        session.front(),
        session.least(),
        session.accepted()
    )?;
    Ok(())
}

impl<N: Site, J: JobRepository> Held<N, J> {
    /// Prints the sessions and the entries.
    fn show<R: Print + AllocGlobal>(&mut self, rt: &R) -> Result<()> {
        show_session(rt, &self.readers.one)?;
        show_session(rt, &self.readers.other)?;
        for k in 0..self.desk.len() {
            println!(rt; "{:?}", self.desk.entry(k.saturating_add(1)))?;
        }
        Ok(())
    }
}

impl<N: Site, J: JobRepository> Answers for Held<N, J> {
    fn act<R: Wait>(&mut self, _rt: &R, by: u64, call: Call, at: Moment) -> Result<Replied> {
        let reply = if by == 1 {
            self.desk.act(&mut self.readers.one, call, at, &self.table)
        } else {
            self.desk
                .act(&mut self.readers.other, call, at, &self.table)
        };
        Ok(reply)
    }

    fn ask<R: Wait>(&mut self, _rt: &R, query: Query) -> Result<Answered> {
        Ok(self.desk.ask(&mut self.readers.one, &query, &self.table))
    }

    /// `show`, or `look` and a query, which the watcher asks.
    fn other<R: Wait + Print + AllocGlobal>(&mut self, rt: &R, line: Line<'_>) -> Result<()> {
        let (word, rest) = line.parted();
        match word {
            "show" => self.show(rt),
            "look" => {
                let query = query_in(rt.alloc(), rest)?;
                let answer = self
                    .desk
                    .ask(&mut self.readers.watcher, &query, &self.table);
                drop(query);
                tell_answer(rt, answer)
            }
            _ => bail!("{}: no line of a desk", line.text),
        }
    }
}

/// Opens the sessions.
fn readers_of<N: Site, J: JobRepository>(
    desk: &mut Desk<N, J>,
    table: &SeatTable,
) -> Tried<Readers<N>>
    requires table { table.now ≡ N.place }
    requires alone { desk.old.hosted ≡ [] }
    ensures alone { desk.new.hosted ≡ [] }
{
    Ok(Readers {
        one: desk.open(table)?,
        other: desk.open(table)?,
        watcher: desk.open(table)?,
    })
}

fn answer_by<N: Site, J: JobRepository, R: Wait + Print + AllocGlobal>(
    rt: &R,
    lines: &str,
    desk: Desk<N, J>,
    table: SeatTable,
    readers: Readers<N>,
) -> Result<bool>
    requires table { table ≡ N.place }
    requires alone { desk.hosted ≡ [] }
{
    let mut held = Held {
        desk,
        table,
        readers,
    };
    let answered = answer_lines(rt, &mut held, lines);
    drop(held);
    answered?;
    Ok(true)
}

fn answer_with<N: Site, J: JobRepository, R: Wait + Print + AllocGlobal>(
    rt: &R,
    script: Script<'_>,
    desk: Desk<N, J>,
    table: SeatTable,
) -> Result<bool>
    requires table { table ≡ N.place }
    requires alone { desk.hosted ≡ [] }
{
    let mut desk = desk;
    match readers_of(&mut desk, &table) {
        Ok(readers) => answer_by(rt, script.lines, desk, table, readers),
        Err(_) => tell_refused(rt),
    }
}

fn answer_on<N: Site, J: JobRepository, R: Wait + Print + AllocGlobal>(
    rt: &R,
    script: Script<'_>,
    table: SeatTable,
    seat: BookSeat,
    catalogue: Catalogue,
) -> Result<bool>
    requires limit { J.limit ≤ 1000000 }
    requires table { table ≡ N.place }
    requires seat { seat ≡ N.place.table }
    requires catalogue { catalogue ≡ N.place.catalogue }
{
    script.first.mark(rt.alloc());
    let made = Desk::<N, J>::new(rt.alloc(), seat, catalogue);
    script.first.mark(rt.alloc());
    match made {
        Ok(desk) => answer_with(rt, script, desk, table),
        Err(_) => tell_refused(rt),
    }
}

/// Runs a script by a desk.
pub fn run_desk<J: JobRepository, R: Wait + Print + AllocGlobal>(
    rt: &R,
    script: Script<'_>,
) -> Result<bool>
    requires { J.limit ≤ 1000000 }
{
    let catalogue = read_catalogue(rt.alloc(), script.first.text.as_bytes())?;
    let (table, seat) = SeatTable::new(rt.alloc(), &catalogue)?;
    answer_on::<Brand, J, _>(rt, script, table, seat, catalogue)
}
