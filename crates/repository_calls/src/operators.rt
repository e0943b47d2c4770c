//! Operators, by their own methods. Beside calls and queries they answer these lines, in which a
//! session is named by its place among the open ones, from 1 on:
//!
//! - `open` and `close`: one more session is opened, and the last one is closed.
//! - `ask 2 QUERY`: this session asks the query. By itself a query is asked by session 1.
//! - `meet 1 2`, `operations_at_least 2`, `stop_seen 2 65`: these calls of sessions; `show 2` prints one.
//! - `publish 0`: the read copies with this index are updated.
ghost use Rattle.std.specs.Prelude.{◌≡◌};
ghost use Rattle.batch_history.specs.Legal.{most_operations};
ghost use Rattle.batch_operator.specs.Calls.{IsAnswered, IsReplied};

use crate::desks::show_session;
use anyhow::{Result, anyhow, bail};
use batch_ids::{ExecutionId, Moment};
use batch_operator::{CopyCount, Operator};
use call_lines::{
    Answered, Answers, Line, Replied, Script, answer_lines, query_in, tell, tell_answer,
    tell_refused,
};
use job_repository::JobRepository;
use jsl_json::read_catalogue;
use jsl_model::Catalogue;
use op_log::{Call, Query};
use seat_rules::{BookSeat, SeatTable, Site};
use sessions::{Session, meet};
use std::alloc::Global;
use std::marker::Brand;
use std::sync::Wait;

/// The number of sessions that are open when the first line comes.
const SESSIONS: u64 = 5;

/// An operator with its open sessions. Lines name these by their places, from 1 on.
#[derive(Drop)]
struct Stage<'a, N: Site, J: JobRepository> {
    operator: &'a Operator<N, J>,
    sessions: Vec<Session<N>>,
}

/// Returns the session at a place.
fn session_of<N: Site>(sessions: &mut [Session<N>], place: u64) -> Result<&mut Session<N>> {
    let before = place
        .checked_sub(1)
        .ok_or_else(|| anyhow!("there is no session 0"))?;
    sessions
        .get_mut(before as usize)
        .ok_or_else(|| anyhow!("there is no session {place}"))
}

/// Returns the sessions at two places, of which the first is the lower.
fn two_of<N: Site>(
    sessions: &mut [Session<N>],
    one: u64,
    other: u64,
) -> Result<(&mut Session<N>, &mut Session<N>)> {
    if other > sessions.len() as u64 || one == other {
        bail!("sessions {one} and {other} do not meet");
    }
    let (before, behind) = sessions.split_at_mut(other.saturating_sub(1) as usize);
    Ok((session_of(before, one)?, session_of(behind, 1)?))
}

/// Lets the sessions at two places meet.
fn meet_of<N: Site>(
    sessions: &mut [Session<N>],
    one: u64,
    other: u64,
    table: &SeatTable,
) -> Result<()>
    requires table { table.now ≡ N.place }
{
    let (first, second) = two_of(sessions, one.min(other), one.max(other))?;
    if one < other {
        meet(first, second, table);
    } else {
        meet(second, first, table);
    }
    Ok(())
}

/// Makes a call by the operator's method for it.
fn make_call<N: Site, J: JobRepository>(
    rt: &impl Wait,
    operator: &Operator<N, J>,
    session: &mut Session<N>,
    call: Call,
    at: Moment,
) -> Replied {
    match call {
        Call::Start { job, parameters } => operator.start(rt, session, job, parameters, at),
        Call::Restart {
            execution,
            parameters,
        } => operator.restart(rt, session, execution, parameters, at),
        Call::Stop { execution } => operator.stop(rt, session, execution, at),
        Call::Abandon { execution } => operator.abandon(rt, session, execution, at),
        Call::Claim => operator.claim(rt, session, at),
        Call::Checkpoint { work, mark, step } => {
            operator.checkpoint(rt, session, work, mark, step, at)
        }
        Call::Finish {
            work,
            outcome,
            exit,
            step,
        } => operator.finish(rt, session, work, outcome, exit, step, at),
        Call::Lose { work } => operator.lose(rt, session, work, at),
        Call::Purge { instance } => operator.purge(rt, session, instance, at),
    }
}

/// Asks a query by the operator's method for it.
fn ask_query<N: Site, J: JobRepository>(
    rt: &impl Wait,
    operator: &Operator<N, J>,
    session: &mut Session<N>,
    query: Query,
) -> Answered {
    match query {
        Query::JobNames => operator.get_job_names(rt, session),
        Query::JobInstanceCount { job } => operator.get_job_instance_count(rt, session, job),
        Query::JobInstances { job, start, count } => {
            operator.get_job_instances(rt, session, job, start, count)
        }
        Query::RunningExecutions { job } => operator.get_running_executions(rt, session, job),
        Query::Parameters { execution } => operator.get_parameters(rt, session, execution),
        Query::JobInstance { execution } => operator.get_job_instance(rt, session, execution),
        Query::JobExecutions { instance } => operator.get_job_executions(rt, session, instance),
        Query::JobExecution { execution } => operator.get_job_execution(rt, session, execution),
        Query::StepExecutions { execution } => operator.get_step_executions(rt, session, execution),
        Query::StatusCounts => operator.status_counts(rt, session),
    }
}

impl<N: Site, J: JobRepository> Stage<'_, N, J> {
    /// Opens one more session, and prints its number.
    fn open<R: Wait + Print + AllocGlobal>(&mut self, rt: &R, line: Line<'_>) -> Result<()> {
        line.mark(rt.alloc());
        let opened = self.operator.open_session(rt);
        line.mark(rt.alloc());
        let session = opened?;
        println!(rt; "session {}", session.number())?;
        self.sessions.push(session)?;
        Ok(())
    }

    /// Asks a query by the session at a place.
    fn ask_by<R: Wait + Print + AllocGlobal>(
        &mut self,
        rt: &R,
        line: Line<'_>,
        place: u64,
        query: &str,
    ) -> Result<()> {
        let session = session_of(&mut self.sessions, place)?;
        let query = query_in(rt.alloc(), query)?;
        line.mark(rt.alloc());
        let answer = ask_query(rt, self.operator, session, query);
        line.mark(rt.alloc());
        tell_answer(rt, answer)
    }

    /// Updates the read copies with an index.
    fn publish<R: Wait + Print + AllocGlobal>(
        &mut self,
        rt: &R,
        line: Line<'_>,
        copy: u64,
    ) -> Result<()> {
        let place = copy as usize;
        if place >= self.operator.copies() {
            bail!("there is no copy {copy}");
        }
        line.mark(rt.alloc());
        let published = self.operator.publish(rt, place);
        line.mark(rt.alloc());
        tell(rt, published)
    }

    /// Prints whether a session sees that a job execution was asked to stop.
    fn stop_seen(&mut self, rt: &impl Print, place: u64, execution: &str) -> Result<()> {
        let execution = ExecutionId::new(execution.parse::<u64>()?);
        let session = session_of(&mut self.sessions, place)?;
        println!(rt; "{}", self.operator.stop_seen(session, execution))?;
        Ok(())
    }

    /// Prints the number of operations that a session is shown.
    fn operations_at_least(&mut self, rt: &impl Print, place: u64) -> Result<()> {
        let session = session_of(&mut self.sessions, place)?;
        println!(rt; "{} operations", self.operator.operations_at_least(session))?;
        Ok(())
    }

    /// Prints a session.
    fn show(&mut self, rt: &impl Print, place: u64) -> Result<()> {
        show_session(rt, session_of(&mut self.sessions, place)?)
    }

    /// Lets two sessions meet.
    fn meet(&mut self, one: u64, other: &str) -> Result<()> {
        let other = other.parse::<u64>()?;
        meet_of(&mut self.sessions, one, other, self.operator.table())
    }

    /// Answers a line whose first number is the place of a session, or the index of read copies.
    fn answer_at<R: Wait + Print + AllocGlobal>(
        &mut self,
        rt: &R,
        line: Line<'_>,
        number: &str,
        rest: &str,
    ) -> Result<()> {
        let number = number.parse::<u64>()?;
        match line.parted().0 {
            "ask" => self.ask_by(rt, line, number, rest),
            "meet" => self.meet(number, rest),
            "operations_at_least" => self.operations_at_least(rt, number),
            "publish" => self.publish(rt, line, number),
            "show" => self.show(rt, number),
            "stop_seen" => self.stop_seen(rt, number, rest),
            _ => bail!("{}: no line of an operator", line.text),
        }
    }
}

impl<N: Site, J: JobRepository> Answers for Stage<'_, N, J> {
    fn act<R: Wait>(&mut self, rt: &R, by: u64, call: Call, at: Moment) -> Result<Replied> {
        match session_of(&mut self.sessions, by) {
            Ok(session) => Ok(make_call(rt, self.operator, session, call, at)),
            Err(error) => {
                drop(call);
                Err(error)
            }
        }
    }

    /// Asks the query by the first session.
    fn ask<R: Wait>(&mut self, rt: &R, query: Query) -> Result<Answered> {
        match session_of(&mut self.sessions, 1) {
            Ok(session) => Ok(ask_query(rt, self.operator, session, query)),
            Err(error) => {
                drop(query);
                Err(error)
            }
        }
    }

    fn other<R: Wait + Print + AllocGlobal>(&mut self, rt: &R, line: Line<'_>) -> Result<()> {
        let (word, rest) = line.parted();
        match word {
            "close" => {
                drop(self.sessions.pop());
                Ok(())
            }
            "open" => self.open(rt, line),
            _ => {
                let (number, rest) = rest.split_once(' ').unwrap_or((rest, ""));
                self.answer_at(rt, line, number, rest)
            }
        }
    }
}

/// Opens the sessions of an operator.
fn stage_of<'a, N: Site, J: JobRepository>(
    rt: &impl Wait,
    alloc: Global,
    operator: &'a Operator<N, J>,
) -> Result<Stage<'a, N, J>> {
    let mut sessions = Vec::new(alloc);
    for _ in 0..SESSIONS {
        sessions.push(operator.open_session(rt)?)?;
    }
    Ok(Stage { operator, sessions })
}

fn answer_by<N: Site, J: JobRepository, R: Wait + Print + AllocGlobal>(
    rt: &R,
    script: Script<'_>,
    operator: &Operator<N, J>,
) -> Result<()> {
    let mut stage = stage_of(rt, rt.alloc(), operator)?;
    let answered = answer_lines(rt, &mut stage, script.lines);
    drop(stage);
    answered
}

fn answer_and_close<N: Site, J: JobRepository, R: Wait + Print + AllocGlobal>(
    rt: &R,
    script: Script<'_>,
    operator: Operator<N, J>,
) -> Result<bool> {
    let answered = answer_by(rt, script, &operator);
    operator.close();
    answered?;
    Ok(true)
}

fn answer_at<N: Site, J: JobRepository, R: Wait + Print + AllocGlobal>(
    rt: &R,
    script: Script<'_>,
    table: SeatTable,
    seat: BookSeat,
    catalogue: Catalogue,
) -> Result<bool>
    requires limit { J.limit ≡ most_operations }
    requires table { table ≡ N.place }
    requires seat { seat ≡ N.place.table }
    requires catalogue { catalogue ≡ N.place.catalogue }
{
    let Some(copies) = CopyCount::new(script.copies) else {
        bail!("no such number of read copies");
    };
    script.first.mark(rt.alloc());
    let made = Operator::<N, J>::new(rt.alloc(), table, seat, catalogue, copies);
    script.first.mark(rt.alloc());
    match made {
        Ok(operator) => answer_and_close(rt, script, operator),
        Err(_) => tell_refused(rt),
    }
}

/// Runs a script by an operator.
pub fn run_operator<J: JobRepository, R: Wait + Print + AllocGlobal>(
    rt: &R,
    script: Script<'_>,
) -> Result<bool>
    requires { J.limit ≡ most_operations }
{
    let catalogue = read_catalogue(rt.alloc(), script.first.text.as_bytes())?;
    let (table, seat) = SeatTable::new(rt.alloc(), &catalogue)?;
    answer_at::<Brand, J, _>(rt, script, table, seat, catalogue)
}
