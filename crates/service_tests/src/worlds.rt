//! A list of events over two sessions and a copy, with the outcome of each.
use crate::copies::catalogue;
use batch_history::{Call, Query};
use batch_ids::{OutOfMemory, Parameters, T256};
use batch_service::Repository;
use event_core::{Event, Outcome, run};
use script_text::{answer_text, reply_text};
use std::alloc::Global;
use std::test::Fail;

// The outcomes of the events below.
const LINES: &[u8] = br#"{"execution":1}
{"names":[]}
{"names":["a"]}
met
{"names":["a"]}
published 1
count 1
skipped
"#;

// Session 1 starts a job. Session 2 learns of it from session 1, and not from the copy, which is
// still empty.
fn events(alloc: Global) -> Result<Vec<Event>, Fail> {
    let job = T256::new(alloc, "a")?;
    let parameters = Parameters::none();
    let start = Event::Call {
        who: 1,
        call: Call::Start { job, parameters },
        at: 0,
    };
    Ok(vec![in alloc;
        start,
        names_read_by(2),
        names_read_by(1),
        Event::Meet { one: 1, other: 2 },
        names_read_by(2),
        Event::Publish { copy: 0, upto: 1 },
        Event::Glance { who: 2 },
        names_read_by(3),
    ]?)
}

// Returns the event that a session asks the copy for the names of jobs.
fn names_read_by(who: u64) -> Event {
    Event::Read {
        who,
        copy: 0,
        query: Query::JobNames,
    }
}

// Returns an outcome as a line.
fn line(alloc: Global, outcome: &Outcome) -> Result<Vec<u8>, OutOfMemory> {
    let text = match outcome {
        Outcome::Replied(replied) => return reply_text(alloc, replied),
        Outcome::Answered(answered) => return answer_text(alloc, answered),
        Outcome::Published { length } => format!(in alloc; "published {length}\n")?,
        Outcome::Met => format!(in alloc; "met\n")?,
        Outcome::Count { n } => format!(in alloc; "count {n}\n")?,
        Outcome::Skipped => format!(in alloc; "skipped\n")?,
    };
    Ok(text.into_bytes())
}

// Returns outcomes as lines.
fn lines(alloc: Global, outcomes: &[Outcome]) -> Result<Vec<u8>, Fail> {
    let mut lines = Vec::new(alloc);
    for outcome in outcomes {
        lines.extend_from_slice(&line(alloc, outcome)?)?;
    }
    Ok(lines)
}

// Returns the outcomes of the events over two sessions and a copy.
fn outcomes(alloc: Global) -> Result<Vec<Outcome>, Fail> {
    let events = events(alloc)?;
    let catalogue = catalogue(alloc)?;
    Ok(run::<Repository<1_000_000>>(alloc, catalogue, 2, 1, &events)?)
}

#[test]
fn a_session_learns_what_another_has_seen(rt: HostRuntime) -> Result<(), Fail> {
    let outcomes = outcomes(rt.alloc())?;
    let lines = lines(rt.alloc(), outcomes.as_slice())?;
    assert_eq!(rt; lines.as_slice(), LINES);
    Ok(())
}
