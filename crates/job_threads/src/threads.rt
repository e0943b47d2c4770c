ghost use Rattle.std.specs.Prelude.{◌≡◌, ◌≤◌, ◌+◌, cond, length};
ghost use Rattle.job_threads.specs.Pools.{ComesTo, within_u64};

use crate::kit::Kit;
use crate::session_port::SessionPort;
use crate::working::{Gate, WorkerReport, worker};
use batch_ids::Refusal;
use batch_operator::Operator;
use job_repository::JobRepository;
use seat_rules::Site;
use std::alloc::Global;
use std::sync::Wait;
use std::thread;
use std::thread::Threads;

/// The number of claims without work after which a worker of a pool gives up.
const TURNS: u64 = 1_000_000;

/// The result of a pool's workers.
#[derive(Clone, Copy, PartialEq, Eq, Debug)]
pub struct PoolReport {
    /// The number of work items that were run to their end.
    pub items: u64,
    /// The number of workers that gave up.
    pub gave_up: u64,
}

impl PoolReport {
    /// Adds the report of one more worker.
    fn with(self, report: WorkerReport) -> PoolReport
        ensures items { result.items ≡ within_u64 (self.items + report.items) }
        ensures gave_up { result.gave_up ≡ within_u64 (self.gave_up + cond report.gave_up 1 0) }
    {
        PoolReport {
            items: self.items.saturating_add(report.items),
            gave_up: self.gave_up.saturating_add(u64::from(report.gave_up)),
        }
    }
}

/// A kit with the number of its worker, and the allocator of that worker.
#[derive(Drop)]
struct Numbered {
    number: u64,
    alloc: Global,
    kit: Kit,
}

/// Returns the kits with the numbers of their workers, from 0.
fn with_numbers(alloc: Global, kits: Vec<Kit>) -> Result<Vec<Numbered>, Refusal> {
    let mut workers = Vec::new(alloc);
    let mut number: u64 = 0;
    for kit in kits {
        workers.push(Numbered { number, alloc, kit })?;
        number = number.saturating_add(1);
    }
    Ok(workers)
}

/// Runs one worker, with a session of its own.
fn work_alone<N: Site, J: JobRepository, R: Wait, G: Gate>(
    rt: &R,
    operator: &Operator<N, J>,
    gate: &G,
    one: Numbered,
) -> Result<WorkerReport, Refusal> {
    let Numbered { number, alloc, kit } = one;
    let mut kit = kit;
    let session = operator.open_session(rt)?;
    let mut port = SessionPort::new(rt, operator, session);
    worker(alloc, &mut port, &mut kit, gate, number, TURNS)
}

/// Returns the sum of the workers' reports, or the first refusal among them.
fn total(reports: &[Result<WorkerReport, Refusal>]) -> Result<PoolReport, Refusal>
    ensures { ComesTo reports.now result }
{
    let mut total = PoolReport {
        items: 0,
        gave_up: 0,
    };
    for report in reports {
        match report {
            Ok(report) => total = total.with(*report),
            Err(refusal) => return Err(*refusal),
        }
    }
    Ok(total)
}

/// Runs a worker for each of 1 to 16 kits, each in a thread and with a session of its own. A worker
/// ends after nothing is left to do, or after 1,000,000 claims without work. The worker of the
/// first kit has number 0.
///
/// # Errors
///
/// Waits for all workers first. Then returns the refusal of the lowest-numbered worker that has
/// one, or `OutOfMemory` if memory is refused.
pub fn pool<
    N: Site + Send + Sync,
    J: JobRepository + Send,
    R: Threads + Wait + Sync,
    G: Gate + Sync,
>(
    rt: &R,
    alloc: Global,
    operator: &Operator<N, J>,
    kits: Vec<Kit>,
    gate: &G,
) -> Result<PoolReport, Refusal>
    requires some { 1 ≤ length kits.items }
    requires few { length kits.items ≤ 16 }
{
    let workers = with_numbers(alloc, kits)?;
    let reports = thread::map_vec(
        rt,
        workers,
        &|one: Numbered| { work_alone(rt, operator, gate, one) },
    )?;
    total(reports.as_slice())
}
