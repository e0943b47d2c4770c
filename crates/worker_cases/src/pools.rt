ghost use Rattle.std.specs.Prelude.{◌≡◌};
ghost use Rattle.batch_history.specs.Legal.{most_operations};

use crate::hosting::{operator_of, start_job};
use crate::quiet::Quiet;
use anyhow::{Result, bail};
use batch_history::WorkItem;
use batch_ids::Moment;
use batch_operator::Operator;
use job_repository::JobRepository;
use job_threads::{Gate, Kit, PoolReport, pool};
use jsl_json::read_catalogue;
use jsl_model::Catalogue;
use op_log::Answer;
use seat_rules::{BookSeat, SeatTable, Site};
use std::hint::spin_loop;
use std::marker::Brand;
use std::sync::Wait;
use std::sync::atomic::{AtomicU64, Ordering};
use std::thread;
use std::thread::Threads;

/// A job of a split with a step in each of two flows.
const SPLIT: &[u8] =
    b"{\"jobs\":[{\"id\":\"a\",\"elements\":[{\"kind\":\"split\",\"id\":\"p\",\"flows\":[{\"kind\":\"flow\",\"id\":\"f\",\"elements\":[{\"kind\":\"step\",\"id\":\"s\",\"batchlet\":{\"ref\":\"ok\"}}]},{\"kind\":\"flow\",\"id\":\"g\",\"elements\":[{\"kind\":\"step\",\"id\":\"t\",\"batchlet\":{\"ref\":\"ok\"}}]}]}]}]}";

/// A job of a step in five partitions.
const PARTITIONS: &[u8] =
    b"{\"jobs\":[{\"id\":\"a\",\"elements\":[{\"kind\":\"step\",\"id\":\"s\",\"partitions\":5,\"batchlet\":{\"ref\":\"ok\"}}]}]}";

/// The number of workers of a pool.
const WORKERS: u64 = 2;

/// A job of a step, followed by a split with a step in each of two flows.
const AHEAD: &[u8] =
    b"{\"jobs\":[{\"id\":\"a\",\"elements\":[{\"kind\":\"step\",\"id\":\"r\",\"next\":\"p\",\"batchlet\":{\"ref\":\"ok\"}},{\"kind\":\"split\",\"id\":\"p\",\"flows\":[{\"kind\":\"flow\",\"id\":\"f\",\"elements\":[{\"kind\":\"step\",\"id\":\"s\",\"batchlet\":{\"ref\":\"ok\"}}]},{\"kind\":\"flow\",\"id\":\"g\",\"elements\":[{\"kind\":\"step\",\"id\":\"t\",\"batchlet\":{\"ref\":\"ok\"}}]}]}]}]}";

/// The maximum number of looks for a condition that a worker waits for.
const LOOKS: u64 = 100_000;

/// The length of the pause after a look without success, in turns of an empty loop.
const PAUSES: u64 = 10_000;

/// A gate that delays work items. The first `ahead` of them wait until a worker is idle, and each
/// other one until `wanted` have begun. It counts those that saw their condition.
#[derive(Drop)]
struct Together {
    ahead: u64,
    wanted: u64,
    begun: AtomicU64,
    idle: AtomicU64,
    seen: AtomicU64,
}

impl Together {
    /// Checks whether the work item that began after this many others may continue.
    fn may_go(&self, others: u64) -> bool {
        if others < self.ahead {
            self.idle.load(Ordering::SeqCst) > 0
        } else {
            self.begun.load(Ordering::SeqCst) >= self.wanted
        }
    }
}

/// Lets other threads run.
pub(crate) fn pause() {
    for _turn in 0..PAUSES {
        spin_loop();
    }
    thread::yield_now();
}

impl Gate for Together {
    fn before(&self, _worker: u64, _item: &WorkItem) {
        let others = self.begun.fetch_add(1, Ordering::SeqCst);
        for _look in 0..LOOKS {
            if self.may_go(others) {
                self.seen.fetch_add(1, Ordering::SeqCst);
                return;
            }
            pause();
        }
    }

    fn idle(&self, _worker: u64) {
        self.idle.fetch_add(1, Ordering::SeqCst);
        thread::yield_now();
    }

    fn now(&self) -> Moment {
        0
    }
}

fn gate_of(ahead: u64, wanted: u64) -> Together {
    Together {
        ahead,
        wanted,
        begun: AtomicU64::new(0),
        idle: AtomicU64::new(0),
        seen: AtomicU64::new(0),
    }
}

/// The result of two workers with a job execution.
#[derive(Clone, Copy)]
struct Ran {
    report: PoolReport,
    completed: u64,
}

/// Starts the job `a` of a catalogue, runs it by two workers, and then counts the job executions
/// that are COMPLETED.
fn run_by_two<
    N: Site + Send + Sync,
    J: JobRepository + Send,
    R: Threads + Wait + AllocGlobal + Sync,
>(rt: &R, gate: &Together, table: SeatTable, seat: BookSeat, catalogue: Catalogue) -> Result<Ran>
    requires limit { J.limit ≡ most_operations }
    requires table { table ≡ N.place }
    requires seat { seat ≡ N.place.table }
    requires catalogue { catalogue ≡ N.place.catalogue }
{
    let operator = operator_of::<N, J>(rt.alloc(), table, seat, catalogue)?;
    let ran = run_on(rt, gate, &operator);
    operator.close();
    ran
}

/// Runs the job `a` on an operator, and counts the job executions that are COMPLETED.
fn run_on<N: Site + Send + Sync, J: JobRepository + Send, R: Threads + Wait + AllocGlobal + Sync>(
    rt: &R,
    gate: &Together,
    operator: &Operator<N, J>,
) -> Result<Ran> {
    start_job(rt, operator, "a")?;
    let report = work_together(rt, gate, operator)?;
    let completed = completed(rt, operator)?;
    Ok(Ran { report, completed })
}

/// Runs a pool of two workers whose kits have the batchlet `ok`, and returns its report.
fn work_together<
    N: Site + Send + Sync,
    J: JobRepository + Send,
    R: Threads + Wait + AllocGlobal + Sync,
>(rt: &R, gate: &Together, operator: &Operator<N, J>) -> Result<PoolReport> {
    let alloc = rt.alloc();
    let mut kits = Vec::new(alloc);
    for _worker in 0..WORKERS {
        let mut kit = Kit::new(alloc);
        kit.add("ok", Box::new(alloc, Quiet { alloc })?)?;
        kits.push(kit)?;
    }
    Ok(pool(rt, alloc, operator, kits, gate)?)
}

/// Returns the number of job executions that are COMPLETED.
fn completed<N: Site, J: JobRepository, R: Wait>(rt: &R, operator: &Operator<N, J>) -> Result<u64> {
    let mut session = operator.open_session(rt)?;
    let answer = operator.status_counts(rt, &mut session);
    drop(session);
    let answer = answer?;
    let completed = completed_in(&answer);
    drop(answer);
    completed
}

/// Returns the number of COMPLETED job executions in an answer.
fn completed_in(answer: &Answer) -> Result<u64> {
    match answer {
        Answer::StatusCounts(counts) => Ok(counts.completed),
        _ => bail!("the counts are of another kind"),
    }
}

/// Prints the report of the workers, and how many of them saw the wanted number of work items
/// begin.
fn print_ran(rt: &impl Print, name: &str, gate: &Together, ran: Ran) -> Result<()> {
    let seen = gate.seen.load(Ordering::SeqCst);
    println!(rt;
        "{name}: {} work items, {} gave up, {seen} saw {} begun",
        ran.report.items, ran.report.gave_up, gate.wanted
    )?;
    println!(rt; "{name}: {} COMPLETED", ran.completed)?;
    Ok(())
}

/// Lets two workers run the two steps of a split at the same time.
pub(crate) fn print_together<
    J: JobRepository + Send,
    R: Threads + Wait + Print + AllocGlobal + Sync,
>(rt: &R) -> Result<()>
    requires limit { J.limit ≡ most_operations }
{
    let catalogue = read_catalogue(rt.alloc(), SPLIT)?;
    let (table, seat) = SeatTable::new(rt.alloc(), &catalogue)?;
    let gate = gate_of(0, 2);
    let ran = run_by_two::<Brand, J, _>(rt, &gate, table, seat, catalogue)?;
    print_ran(rt, "together", &gate, ran)
}

/// Lets two workers run a step, while one of them is idle, and then the two steps of a split at the
/// same time.
pub(crate) fn print_ahead<J: JobRepository + Send, R: Threads + Wait + Print + AllocGlobal + Sync>(
    rt: &R,
) -> Result<()>
    requires limit { J.limit ≡ most_operations }
{
    let catalogue = read_catalogue(rt.alloc(), AHEAD)?;
    let (table, seat) = SeatTable::new(rt.alloc(), &catalogue)?;
    let gate = gate_of(1, 3);
    let ran = run_by_two::<Brand, J, _>(rt, &gate, table, seat, catalogue)?;
    print_ran(rt, "ahead", &gate, ran)
}

/// Lets two workers run a step in five partitions.
pub(crate) fn print_partitions<
    J: JobRepository + Send,
    R: Threads + Wait + Print + AllocGlobal + Sync,
>(rt: &R) -> Result<()>
    requires limit { J.limit ≡ most_operations }
{
    let catalogue = read_catalogue(rt.alloc(), PARTITIONS)?;
    let (table, seat) = SeatTable::new(rt.alloc(), &catalogue)?;
    let gate = gate_of(0, 1);
    let ran = run_by_two::<Brand, J, _>(rt, &gate, table, seat, catalogue)?;
    print_ran(rt, "partitions", &gate, ran)
}
