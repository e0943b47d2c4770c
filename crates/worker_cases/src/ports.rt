ghost use Rattle.std.specs.Prelude.{◌≡◌};
ghost use Rattle.batch_history.specs.Legal.{most_operations};

use crate::hosting::operator_of;
use anyhow::Result;
use batch_ids::{ExecutionId, MetricStep, Parameters, Refusal, T256, WorkId, WorkOutcome};
use batch_operator::Operator;
use job_repository::JobRepository;
use job_threads::{Port, SessionPort};
use jsl_json::read_catalogue;
use jsl_model::Catalogue;
use seat_rules::{BookSeat, SeatTable, Site};
use std::marker::Brand;
use std::sync::Wait;

/// A job of one step.
const STEP: &[u8] =
    b"{\"jobs\":[{\"id\":\"a\",\"elements\":[{\"kind\":\"step\",\"id\":\"s\",\"batchlet\":{\"ref\":\"ok\"}}]}]}";

/// Checks whether the port of a new session finds an unfinished job execution.
fn finds_unfinished<N: Site, J: JobRepository>(
    rt: &impl Wait,
    operator: &Operator<N, J>,
) -> std::result::Result<bool, Refusal> {
    let session = operator.open_session(rt)?;
    let mut port = SessionPort::new(rt, operator, session);
    port.unfinished()
}

/// Prints whether a port finds an unfinished job execution: before a start, and while one is
/// STARTING, STARTED, STOPPING and STOPPED.
fn print_unfinished_ones<N: Site, J: JobRepository>(
    rt: &(impl Wait + Print + AllocGlobal),
    operator: &Operator<N, J>,
) -> Result<()> {
    let mut session = operator.open_session(rt)?;
    println!(rt;
        "unfinished before a start: {}",
        finds_unfinished(rt, operator)?
    )?;
    let job = T256::new(rt.alloc(), "a")?;
    drop(operator.start(rt, &mut session, job, Parameters::none(), 0)?);
    println!(rt;
        "unfinished if STARTING: {}",
        finds_unfinished(rt, operator)?
    )?;
    drop(operator.claim(rt, &mut session, 0)?);
    println!(rt;
        "unfinished if STARTED: {}",
        finds_unfinished(rt, operator)?
    )?;
    drop(operator.stop(rt, &mut session, ExecutionId::new(1), 0)?);
    println!(rt;
        "unfinished if STOPPING: {}",
        finds_unfinished(rt, operator)?
    )?;
    drop(operator.finish(
        rt,
        &mut session,
        WorkId::new(1),
        WorkOutcome::Stopped,
        None,
        MetricStep::zero(),
        0,
    )?);
    println!(rt;
        "unfinished if STOPPED: {}",
        finds_unfinished(rt, operator)?
    )?;
    Ok(())
}

/// Prints these lines for an operator.
fn run_unfinished<N: Site, J: JobRepository>(
    rt: &(impl Wait + Print + AllocGlobal),
    table: SeatTable,
    seat: BookSeat,
    catalogue: Catalogue,
) -> Result<()>
    requires limit { J.limit ≡ most_operations }
    requires table { table ≡ N.place }
    requires seat { seat ≡ N.place.table }
    requires catalogue { catalogue ≡ N.place.catalogue }
{
    let operator = operator_of::<N, J>(rt.alloc(), table, seat, catalogue)?;
    let printed = print_unfinished_ones(rt, &operator);
    operator.close();
    printed
}

/// Prints whether the port of a session finds a job execution of each unfinished status.
pub(crate) fn print_unfinished<J: JobRepository, R: Wait + Print + AllocGlobal>(
    rt: &R,
) -> Result<()>
    requires limit { J.limit ≡ most_operations }
{
    let catalogue = read_catalogue(rt.alloc(), STEP)?;
    let (table, seat) = SeatTable::new(rt.alloc(), &catalogue)?;
    run_unfinished::<Brand, J>(rt, table, seat, catalogue)
}
