//! Four threads share one job repository. Two start jobs, one claims work and finishes it, and one
//! observes and asks a job execution to stop. Each opens a session of its own, and ends after a
//! number of turns. The output doesn't depend on the order of the threads. This file stands alone,
//! as an example of a program with an operator.
ghost use Rattle.std.specs.Prelude.{◌≡◌};

use anyhow::{Result, bail};
use batch_ids::{ExecutionId, MetricStep, Parameters, Refusal, T256, WorkId, WorkOutcome};
use batch_service::{CopyCount, Operator};
use jsl_json::read_catalogue;
use jsl_model::Catalogue;
use op_log::{Answer, Reply};
use seat_rules::{BookSeat, SeatTable, Site};
use sessions::Session;
use std::marker::Brand;
use std::sync::Wait;
use std::thread;
use std::thread::Threads;

const CATALOGUE: &[u8] =
    b"{\"jobs\":[{\"id\":\"report\",\"elements\":[{\"kind\":\"step\",\"id\":\"print\",\"batchlet\":{\"ref\":\"printer\"}}]}]}";

/// The number of job executions that each of two threads starts.
const STARTS: u64 = 100;

/// The number of claims, and of looks at the repository.
const TURNS: u64 = 100;

/// The numbers of the job executions that a thread has started, or the refusal of its last call.
type Started = Result<Vec<u64>, Refusal>;

/// The number of accepted operations of a thread's session, or the refusal of its last call.
type Ended = Result<u64, Refusal>;

/// Starts job executions.
fn start_jobs<N: Site>(rt: &(impl Wait + AllocGlobal), operator: &Operator<N>) -> Started {
    let mut session = operator.open_session(rt)?;
    let mut started = Vec::new(rt.alloc());
    for turn in 0..STARTS {
        if let Some(execution) = start(rt, operator, &mut session, turn)? {
            started.push(execution.value())?;
        }
    }
    Ok(started)
}

/// Starts a job execution, and returns its number.
fn start<N: Site>(
    rt: &(impl Wait + AllocGlobal),
    operator: &Operator<N>,
    session: &mut Session<N>,
    turn: u64,
) -> Result<Option<ExecutionId>, Refusal> {
    let job = T256::new(rt.alloc(), "report")?;
    let reply = operator.start(rt, session, job, Parameters::none(), turn)?;
    let started = match &reply {
        Reply::Execution(execution) => Some(*execution),
        _ => None,
    };
    drop(reply);
    Ok(started)
}

/// Claims work and finishes it.
fn work<N: Site>(rt: &impl Wait, operator: &Operator<N>) -> Ended {
    let mut session = operator.open_session(rt)?;
    for turn in 0..TURNS {
        if let Some(work) = claim(rt, operator, &mut session, turn)? {
            finish(rt, operator, &mut session, work, turn)?;
        }
    }
    Ok(session.accepted())
}

/// Claims a work item. Returns `None` if there is no work.
fn claim<N: Site>(
    rt: &impl Wait,
    operator: &Operator<N>,
    session: &mut Session<N>,
    turn: u64,
) -> Result<Option<WorkId>, Refusal> {
    let reply = operator.claim(rt, session, turn)?;
    let claimed = match &reply {
        Reply::Work(item) => Some(item.work),
        _ => None,
    };
    drop(reply);
    Ok(claimed)
}

/// Reports that a work item is completed.
fn finish<N: Site>(
    rt: &impl Wait,
    operator: &Operator<N>,
    session: &mut Session<N>,
    work: WorkId,
    turn: u64,
) -> Result<(), Refusal> {
    let (outcome, step) = (WorkOutcome::Completed, MetricStep::zero());
    drop(operator.finish(rt, session, work, outcome, None, step, turn)?);
    Ok(())
}

/// Observes the repository, and asks the first job execution to stop, unless it is finished by
/// then.
fn look_on<N: Site>(rt: &impl Wait, operator: &Operator<N>) -> Ended {
    let mut session = operator.open_session(rt)?;
    for turn in 0..TURNS {
        look(rt, operator, &mut session)?;
        stop_first(rt, operator, &mut session, turn);
    }
    Ok(session.accepted())
}

/// Brings the read copy up to date with the history, and queries it.
fn look<N: Site>(
    rt: &impl Wait,
    operator: &Operator<N>,
    session: &mut Session<N>,
) -> Result<(), Refusal> {
    if operator.copies() > 0 {
        operator.publish(rt, 0)?;
    }
    drop(operator.status_counts(rt, session)?);
    let _operations = operator.operations_at_least(session);
    Ok(())
}

/// Asks the first job execution to stop, unless the session finds that it was asked.
fn stop_first<N: Site>(
    rt: &impl Wait,
    operator: &Operator<N>,
    session: &mut Session<N>,
    turn: u64,
) {
    let first = ExecutionId::new(1);
    if !operator.stop_seen(session, first) {
        drop(operator.stop(rt, session, first, turn));
    }
}

/// Lets two threads start job executions, and returns the numbers of all of them, in ascending
/// order.
fn two_start<N: Site + Send + Sync, R: Threads + Wait + AllocGlobal + Sync>(
    rt: &R,
    operator: &Operator<N>,
) -> Started {
    let each = || start_jobs(rt, operator);
    let (of_one, of_other) = thread::join(rt, each, each);
    rising(of_one?, of_other?)
}

/// Returns the numbers of both lists, in ascending order.
fn rising(numbers: Vec<u64>, others: Vec<u64>) -> Started {
    let mut all = numbers;
    all.extend_from_slice(others.as_slice())?;
    all.sort()?;
    Ok(all)
}

/// Lets one thread work and another observe. Returns the number of accepted operations of their
/// sessions.
fn one_works<N: Site + Send + Sync, R: Threads + Wait + Sync>(
    rt: &R,
    operator: &Operator<N>,
) -> Ended {
    let (of_one, of_other) = thread::join(rt, || work(rt, operator), || look_on(rt, operator));
    Ok(of_one?.saturating_add(of_other?))
}

/// Runs four threads to their end. Returns the number of accepted operations of their sessions.
fn run_threads<N: Site + Send + Sync, R: Threads + Wait + Print + AllocGlobal + Sync>(
    rt: &R,
    operator: &Operator<N>,
) -> Result<u64> {
    let (started, accepted) = thread::join(
        rt,
        || two_start(rt, operator),
        || one_works(rt, operator),
    );
    let count = print_started(rt, started?)?;
    Ok(count.saturating_add(accepted?))
}

/// Prints how many job executions were started, and whether their numbers are those from 1 on, each
/// once.
fn print_started(rt: &impl Print, started: Vec<u64>) -> Result<u64> {
    let count = started.len() as u64;
    let are_from_one = started.iter().copied().eq(1..=count);
    drop(started);
    println!(rt;
        "{count} job executions, each with a number of its own from 1 on: {are_from_one}"
    )?;
    Ok(count)
}

/// Creates the operator, and lends it to all its users.
fn run<N: Site + Send + Sync, R: Threads + Wait + Print + AllocGlobal + Sync>(
    rt: &R,
    table: SeatTable,
    seat: BookSeat,
    catalogue: Catalogue,
) -> Result<()>
    requires table { table ≡ N.place }
    requires seat { seat ≡ N.place.table }
    requires catalogue { catalogue ≡ N.place.catalogue }
{
    let Some(copies) = CopyCount::new(1) else {
        bail!("one copy is too many");
    };
    let operator = Operator::<N>::new(rt.alloc(), table, seat, catalogue, copies)?;
    let shown = show(rt, &operator);
    operator.close();
    shown
}

/// Runs the threads, and prints the counts that a session opened after them sees.
fn show<N: Site + Send + Sync, R: Threads + Wait + Print + AllocGlobal + Sync>(
    rt: &R,
    operator: &Operator<N>,
) -> Result<()> {
    let accepted = run_threads(rt, operator)?;
    let mut session = operator.open_session(rt)?;
    print_shown(rt, operator, &mut session, accepted)?;
    let count = job_instances(rt, operator, &mut session)?;
    println!(rt; "{count} job instances")?;
    Ok(())
}

/// Prints whether a session is shown all accepted operations.
fn print_shown<N: Site>(
    rt: &impl Print,
    operator: &Operator<N>,
    session: &mut Session<N>,
    accepted: u64,
) -> Result<()> {
    let shown = operator.operations_at_least(session);
    println!(rt;
        "session {} is shown all accepted operations: {}",
        session.number(),
        shown == accepted
    )?;
    Ok(())
}

/// Returns the number of job instances of the job.
fn job_instances<N: Site>(
    rt: &(impl Wait + AllocGlobal),
    operator: &Operator<N>,
    session: &mut Session<N>,
) -> Result<u64> {
    let job = T256::new(rt.alloc(), "report")?;
    let answer = operator.get_job_instance_count(rt, session, job)?;
    let count = match &answer {
        Answer::JobInstanceCount(count) => Some(*count),
        _ => None,
    };
    drop(answer);
    match count {
        Some(count) => Ok(count),
        None => bail!("the number of job instances is of another kind"),
    }
}

/// Creates the table, names it, and lets four threads share the operator over it.
pub(crate) fn print_four_threads<R: Threads + Wait + Print + AllocGlobal + Sync>(
    rt: &R,
) -> Result<()> {
    let catalogue = read_catalogue(rt.alloc(), CATALOGUE)?;
    let (table, seat) = SeatTable::new(rt.alloc(), &catalogue)?;
    run::<Brand, _>(rt, table, seat, catalogue)
}
