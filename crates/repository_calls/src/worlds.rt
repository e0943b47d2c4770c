//! Worlds, whose events are the lines of a script.
ghost use Rattle.std.specs.Prelude.{◌≡◌};
ghost use Rattle.batch_history.specs.Legal.{most_operations};

use anyhow::{Result, bail};
use call_lines::{Line, Script, echoed, query_in, tell, tell_refused, told};
use event_core::{Event, World, run};
use job_repository::JobRepository;
use jsl_json::read_catalogue;
use script_text::{Command, read_command};
use std::alloc::Global;
use std::fmt::Debug;

/// The number of sessions in a world.
const SESSIONS: u64 = 2;

/// The number of read copies in a world.
const COPIES: u64 = 1;

/// Returns the event on a line that is neither a call nor a query: `meet`, `glance`, `publish`, or
/// a query of a session at a copy.
fn other_event(alloc: Global, line: &str) -> Result<Event> {
    let (word, rest) = line.split_once(' ').unwrap_or((line, ""));
    let (first, second) = rest.split_once(' ').unwrap_or((rest, "0"));
    let number = first.parse::<u64>()?;
    match word {
        "meet" => Ok(Event::Meet {
            one: number,
            other: second.parse::<u64>()?,
        }),
        "publish" => Ok(Event::Publish {
            copy: 0,
            upto: number,
        }),
        "glance" => Ok(Event::Glance { who: number }),
        "read" => Ok(Event::Read {
            who: number,
            copy: 0,
            query: query_in(alloc, second)?,
        }),
        _ => bail!("no event is called {word}"),
    }
}

/// Returns the event on a line. Session 1 makes queries, of the book.
fn event_in(alloc: Global, line: &str) -> Result<Event> {
    match read_command(alloc, line.as_bytes())? {
        Command::Act { by, at, call } => Ok(Event::Call { who: by, call, at }),
        Command::Ask(query) => Ok(Event::Ask { who: 1, query }),
        Command::BadLine => other_event(alloc, line),
        Command::TextTooLong => bail!("a text is too long"),
    }
}

fn run_line<J: JobRepository + Debug, R: Print + AllocGlobal>(
    rt: &R,
    line: Line<'_>,
    world: &mut World<J>,
) -> Result<()> {
    if line.text == "show" {
        return tell(rt, &*world);
    }
    let event = event_in(rt.alloc(), line.text)?;
    told!(rt, line, world.step(&event))
}

fn run_steps<J: JobRepository + Debug, R: Print + AllocGlobal>(
    rt: &R,
    lines: &str,
    world: &mut World<J>,
) -> Result<()> {
    for text in lines.lines() {
        let line = echoed(rt, text)?;
        run_line(rt, line, world)?;
    }
    Ok(())
}

/// Takes the event of each line in a world of two sessions and a copy.
pub fn run_world<J: JobRepository + Debug, R: Print + AllocGlobal>(
    rt: &R,
    script: Script<'_>,
) -> Result<bool>
    requires { J.limit ≡ most_operations }
{
    let alloc = rt.alloc();
    let catalogue = read_catalogue(alloc, script.first.text.as_bytes())?;
    script.first.mark(alloc);
    let made = World::<J>::new(alloc, catalogue, SESSIONS, COPIES);
    script.first.mark(alloc);
    match made {
        Ok(mut world) => {
            let ran = run_steps(rt, script.lines, &mut world);
            drop(world);
            ran?;
            Ok(true)
        }
        Err(_) => tell_refused(rt),
    }
}

/// Adds the event of each line.
fn add_events(alloc: Global, lines: &str, events: &mut Vec<Event>) -> Result<()> {
    for line in lines.lines() {
        let event = event_in(alloc, line)?;
        events.push(event)?;
    }
    Ok(())
}

/// Takes these events by one call.
fn run_all<J: JobRepository, R: Print + AllocGlobal>(
    rt: &R,
    first: Line<'_>,
    events: &[Event],
) -> Result<bool>
    requires { J.limit ≡ most_operations }
{
    let alloc = rt.alloc();
    let catalogue = read_catalogue(alloc, first.text.as_bytes())?;
    first.mark(alloc);
    let outcomes = run::<J>(alloc, catalogue, SESSIONS, COPIES, events);
    first.mark(alloc);
    let ran = outcomes.is_ok();
    tell(rt, outcomes)?;
    Ok(ran)
}

/// Takes the events of all lines by one call.
pub fn run_events<J: JobRepository, R: Print + AllocGlobal>(
    rt: &R,
    script: Script<'_>,
) -> Result<bool>
    requires { J.limit ≡ most_operations }
{
    let mut events = Vec::new(rt.alloc());
    let ran = match add_events(rt.alloc(), script.lines, &mut events) {
        Ok(()) => run_all::<J, _>(rt, script.first, events.as_slice()),
        Err(error) => Err(error),
    };
    drop(events);
    ran
}
