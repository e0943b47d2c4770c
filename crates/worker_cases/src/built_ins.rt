ghost use Rattle.std.specs.Prelude.{◌≡◌};
ghost use Rattle.batch_history.specs.Legal.{most_operations};

use crate::hosting::{operator_of, start_job};
use crate::refusing::Open;
use anyhow::{Result, bail};
use batch_ids::{ExecutionId, Metric};
use batch_operator::Operator;
use built_in_artifacts::pool_with_built_ins;
use job_repository::JobRepository;
use job_threads::PoolReport;
use jsl_json::read_catalogue;
use jsl_model::Catalogue;
use op_log::{Answer, StepExecution};
use seat_rules::{BookSeat, SeatTable, Site};
use std::alloc::Global;
use std::marker::Brand;
use std::sync::Wait;
use std::thread::Threads;

/// A job of built-in artifacts: a chunk that filters five items, then a batchlet with an exit
/// status, and then a batchlet with an unknown name.
const NAMED: &[u8] =
    b"{\"jobs\":[{\"id\":\"a\",\"elements\":[{\"kind\":\"step\",\"id\":\"s\",\"next\":\"t\",\"chunk\":{\"item-count\":2,\"reader\":{\"ref\":\"count:5\"},\"processor\":{\"ref\":\"odd\"},\"writer\":{\"ref\":\"sink\"}}},{\"kind\":\"step\",\"id\":\"t\",\"next\":\"u\",\"batchlet\":{\"ref\":\"exit:T\"}},{\"kind\":\"step\",\"id\":\"u\",\"batchlet\":{\"ref\":\"other\"}}]}]}";

/// Returns the exit status of a step.
fn exit_in(step: &StepExecution) -> &str {
    match &step.exit {
        None => "no exit status",
        Some(exit) => exit.as_str(),
    }
}

/// Prints the status and the metrics of a step.
fn print_step(rt: &impl Print, step: &StepExecution) -> Result<()> {
    println!(rt;
        "built in: {} {}, {}: {} read, {} filtered, {} written, {} committed",
        step.step.as_str(),
        step.status,
        exit_in(step),
        step.metrics.count(Metric::ReadCount),
        step.metrics.count(Metric::FilterCount),
        step.metrics.count(Metric::WriteCount),
        step.metrics.count(Metric::CommitCount)
    )?;
    Ok(())
}

/// Returns the catalogue of that job.
fn catalogue_of(alloc: Global) -> Result<Catalogue> {
    Ok(read_catalogue(alloc, NAMED)?)
}

/// Prints the result of each step of the first job execution.
fn print_steps<N: Site, J: JobRepository, R: Wait + Print + AllocGlobal>(
    rt: &R,
    operator: &Operator<N, J>,
) -> Result<()> {
    let mut session = operator.open_session(rt)?;
    let answer = operator.get_step_executions(rt, &mut session, ExecutionId::new(1));
    drop(session);
    let answer = answer?;
    let printed = print_answer(rt, &answer);
    drop(answer);
    printed
}

/// Prints the result of each of these step executions.
fn print_answer(rt: &impl Print, answer: &Answer) -> Result<()> {
    let Answer::StepExecutions(steps) = answer else {
        bail!("the step executions are of another kind");
    };
    for step in steps.as_slice() {
        print_step(rt, step)?;
    }
    Ok(())
}

/// Starts the job `a`, and runs it by two workers that have built-in artifacts with the names in
/// it.
fn run_by_two<
    N: Site + Send + Sync,
    J: JobRepository + Send,
    R: Threads + Wait + AllocGlobal + Sync,
>(rt: &R, operator: &Operator<N, J>) -> Result<PoolReport> {
    start_job(rt, operator, "a")?;
    let names = ["count:5", "odd", "sink", "exit:T", "other"];
    Ok(pool_with_built_ins(rt, rt.alloc(), operator, &names, 2, &Open)?)
}

/// Runs the job `a` of a catalogue, and prints its result.
fn run_named<
    N: Site + Send + Sync,
    J: JobRepository + Send,
    R: Threads + Wait + Print + AllocGlobal + Sync,
>(rt: &R, table: SeatTable, seat: BookSeat, catalogue: Catalogue) -> Result<()>
    requires limit { J.limit ≡ most_operations }
    requires table { table ≡ N.place }
    requires seat { seat ≡ N.place.table }
    requires catalogue { catalogue ≡ N.place.catalogue }
{
    let operator = operator_of::<N, J>(rt.alloc(), table, seat, catalogue)?;
    let ran = run_on(rt, &operator);
    operator.close();
    ran
}

/// Runs the job `a` on an operator, and prints its result.
fn run_on<
    N: Site + Send + Sync,
    J: JobRepository + Send,
    R: Threads + Wait + Print + AllocGlobal + Sync,
>(rt: &R, operator: &Operator<N, J>) -> Result<()> {
    let report = run_by_two(rt, operator)?;
    print_pool(rt, report)?;
    print_steps(rt, operator)
}

/// Prints the report of two workers.
fn print_pool(rt: &impl Print, report: PoolReport) -> Result<()> {
    println!(rt;
        "built in: {} work items, {} gave up",
        report.items, report.gave_up
    )?;
    Ok(())
}

/// Runs a job of built-in artifacts by two workers.
pub(crate) fn print_built_ins<
    J: JobRepository + Send,
    R: Threads + Wait + Print + AllocGlobal + Sync,
>(rt: &R) -> Result<()>
    requires limit { J.limit ≡ most_operations }
{
    let catalogue = catalogue_of(rt.alloc())?;
    let (table, seat) = SeatTable::new(rt.alloc(), &catalogue)?;
    run_named::<Brand, J, _>(rt, table, seat, catalogue)
}
