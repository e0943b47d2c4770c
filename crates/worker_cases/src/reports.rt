ghost use Rattle.std.specs.Prelude.{◌≡◌};
ghost use Rattle.batch_history.specs.Legal.{most_operations};

use crate::hosting::{operator_of, start_job};
use crate::refusing::Open;
use anyhow::Result;
use batch_operator::Operator;
use built_in_artifacts::{BuiltIn, BuiltInArtifact, pool_with_built_ins};
use job_repository::JobRepository;
use job_threads::{Kit, SessionPort, WorkerReport, worker};
use jsl_json::read_catalogue;
use jsl_model::Catalogue;
use seat_rules::{BookSeat, SeatTable, Site};
use std::alloc::Global;
use std::marker::Brand;
use std::sync::Wait;
use std::thread::Threads;

/// A job of one chunk, with built-in artifacts.
const CHUNK: &[u8] =
    b"{\"jobs\":[{\"id\":\"c\",\"elements\":[{\"kind\":\"step\",\"id\":\"s\",\"chunk\":{\"item-count\":2,\"reader\":{\"ref\":\"count:5\"},\"processor\":{\"ref\":\"odd\"},\"writer\":{\"ref\":\"sink\"}}}]}]}";

/// The names of these artifacts.
const NAMES: [&str; 3] = ["count:5", "odd", "sink"];

/// Returns the catalogue of that job.
fn catalogue_of(alloc: Global) -> Result<Catalogue> {
    Ok(read_catalogue(alloc, CHUNK)?)
}

/// Runs the chunk by one worker, and prints its report.
fn run_by_a_worker<N: Site, J: JobRepository, R: Wait + Print + AllocGlobal>(
    rt: &R,
    table: SeatTable,
    seat: BookSeat,
    catalogue: Catalogue,
) -> Result<()>
    requires limit { J.limit ≡ most_operations }
    requires table { table ≡ N.place }
    requires seat { seat ≡ N.place.table }
    requires catalogue { catalogue ≡ N.place.catalogue }
{
    let operator = operator_of::<N, J>(rt.alloc(), table, seat, catalogue)?;
    let ran = print_worker(rt, &operator);
    operator.close();
    ran
}

/// Runs the chunk by one worker on an operator, and prints its report.
fn print_worker<N: Site, J: JobRepository, R: Wait + Print + AllocGlobal>(
    rt: &R,
    operator: &Operator<N, J>,
) -> Result<()> {
    start_job(rt, operator, "c")?;
    let report = work_alone(rt, operator)?;
    println!(rt;
        "one worker: {} work items, gave up: {}",
        report.items, report.gave_up
    )?;
    Ok(())
}

/// Runs one worker that has the built-in artifacts of the chunk, and returns its report.
fn work_alone<N: Site, J: JobRepository, R: Wait + AllocGlobal>(
    rt: &R,
    operator: &Operator<N, J>,
) -> Result<WorkerReport> {
    let alloc = rt.alloc();
    let mut kit = Kit::new(alloc);
    for name in ["count:5", "odd", "sink"] {
        if let Some(built_in) = BuiltIn::of(alloc, name)? {
            let artifact = Box::new(alloc, BuiltInArtifact::new(alloc, built_in))?;
            kit.add(name, artifact)?;
        }
    }
    let session = operator.open_session(rt)?;
    let mut port = SessionPort::new(rt, operator, session);
    Ok(worker(alloc, &mut port, &mut kit, &Open, 0, 3)?)
}

/// Runs the chunk by a pool of one worker, and prints its report.
fn run_by_a_pool<
    N: Site + Send + Sync,
    J: JobRepository + Send,
    R: Threads + Wait + Print + AllocGlobal + Sync,
>(rt: &R, table: SeatTable, seat: BookSeat, catalogue: Catalogue) -> Result<()>
    requires limit { J.limit ≡ most_operations }
    requires table { table ≡ N.place }
    requires seat { seat ≡ N.place.table }
    requires catalogue { catalogue ≡ N.place.catalogue }
{
    let operator = operator_of::<N, J>(rt.alloc(), table, seat, catalogue)?;
    let ran = print_pool(rt, &operator);
    operator.close();
    ran
}

/// Runs the chunk by a pool of one worker on an operator, and prints its report.
fn print_pool<
    N: Site + Send + Sync,
    J: JobRepository + Send,
    R: Threads + Wait + Print + AllocGlobal + Sync,
>(rt: &R, operator: &Operator<N, J>) -> Result<()> {
    start_job(rt, operator, "c")?;
    let report = pool_with_built_ins(rt, rt.alloc(), operator, &NAMES, 1, &Open)?;
    println!(rt;
        "a pool of one: {} work items, {} gave up",
        report.items, report.gave_up
    )?;
    Ok(())
}

/// Prints the report of a worker for a chunk, and that of a pool.
pub(crate) fn print_reports<
    J: JobRepository + Send,
    R: Threads + Wait + Print + AllocGlobal + Sync,
>(rt: &R) -> Result<()>
    requires limit { J.limit ≡ most_operations }
{
    let catalogue = catalogue_of(rt.alloc())?;
    let (table, seat) = SeatTable::new(rt.alloc(), &catalogue)?;
    run_by_a_worker::<Brand, J, _>(rt, table, seat, catalogue)?;
    let catalogue = catalogue_of(rt.alloc())?;
    let (table, seat) = SeatTable::new(rt.alloc(), &catalogue)?;
    run_by_a_pool::<Brand, J, _>(rt, table, seat, catalogue)
}
