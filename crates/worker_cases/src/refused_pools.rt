ghost use Rattle.std.specs.Prelude.{◌≡◌};
ghost use Rattle.batch_history.specs.Legal.{most_operations};

use crate::hosting::{operator_of, start_job};
use crate::pools::pause;
use anyhow::Result;
use batch_history::WorkItem;
use batch_ids::{InstanceId, Moment};
use batch_operator::Operator;
use built_in_artifacts::pool_with_built_ins;
use job_repository::JobRepository;
use job_threads::Gate;
use jsl_json::read_catalogue;
use jsl_model::Catalogue;
use seat_rules::{BookSeat, SeatTable, Site};
use std::marker::Brand;
use std::sync::Wait;
use std::sync::atomic::{AtomicU64, Ordering};
use std::thread;
use std::thread::Threads;

/// A job of one step.
const STEP: &[u8] =
    b"{\"jobs\":[{\"id\":\"a\",\"elements\":[{\"kind\":\"step\",\"id\":\"s\",\"batchlet\":{\"ref\":\"ok\"}}]}]}";

/// The maximum number of looks by a worker whether the other has begun.
const LOOKS: u64 = 10_000;

/// A gate that takes the work item away from each of two workers, after both have one. It gives the
/// work item up, and purges that of one worker.
#[derive(Drop)]
struct Taking<'a, R: Wait, N: Site, J: JobRepository> {
    rt: &'a R,
    operator: &'a Operator<N, J>,
    purged: u64,
    begun: AtomicU64,
}

impl<R: Wait, N: Site, J: JobRepository> Taking<'_, R, N, J> {
    /// Waits until both workers have a work item.
    fn wait_for_both(&self) {
        self.begun.fetch_add(1, Ordering::SeqCst);
        for _look in 0..LOOKS {
            if self.begun.load(Ordering::SeqCst) >= 2 {
                return;
            }
            pause();
        }
    }

    /// Takes the work item of a worker away. Each job instance has one job execution, with the same
    /// number.
    fn take(&self, worker: u64, item: &WorkItem) {
        let Ok(mut session) = self.operator.open_session(self.rt) else {
            return;
        };
        drop(self.operator.lose(self.rt, &mut session, item.work, 0));
        if worker == self.purged {
            let instance = InstanceId::new(item.execution.value());
            drop(self.operator.purge(self.rt, &mut session, instance, 0));
        }
    }
}

impl<R: Wait, N: Site, J: JobRepository> Gate for Taking<'_, R, N, J> {
    fn before(&self, worker: u64, item: &WorkItem) {
        self.wait_for_both();
        self.take(worker, item);
    }

    fn idle(&self, _worker: u64) {
        thread::yield_now();
    }

    fn now(&self) -> Moment {
        0
    }
}

/// Runs two job executions by a pool of two workers, and prints its result.
fn print_pool<
    N: Site + Send + Sync,
    J: JobRepository + Send,
    R: Threads + Wait + Print + AllocGlobal + Sync,
>(rt: &R, operator: &Operator<N, J>, purged: u64) -> Result<()> {
    start_job(rt, operator, "a")?;
    start_job(rt, operator, "a")?;
    let gate = Taking {
        rt,
        operator,
        purged,
        begun: AtomicU64::new(0),
    };
    match pool_with_built_ins(rt, rt.alloc(), operator, &["ok"], 2, &gate) {
        Ok(report) => println!(rt; "worker {purged} purged: {} work items", report.items)?,
        Err(refusal) => println!(rt; "worker {purged} purged: {refusal}")?,
    }
    Ok(())
}

/// Creates the operator.
fn run_pool<
    N: Site + Send + Sync,
    J: JobRepository + Send,
    R: Threads + Wait + Print + AllocGlobal + Sync,
>(rt: &R, table: SeatTable, seat: BookSeat, catalogue: Catalogue, purged: u64) -> Result<()>
    requires limit { J.limit ≡ most_operations }
    requires table { table ≡ N.place }
    requires seat { seat ≡ N.place.table }
    requires catalogue { catalogue ≡ N.place.catalogue }
{
    let operator = operator_of::<N, J>(rt.alloc(), table, seat, catalogue)?;
    let printed = print_pool(rt, &operator, purged);
    operator.close();
    printed
}

/// Runs pools of two workers with different refusals. The result is the refusal of the
/// lowest-numbered worker.
pub(crate) fn print_refused_pools<
    J: JobRepository + Send,
    R: Threads + Wait + Print + AllocGlobal + Sync,
>(rt: &R) -> Result<()>
    requires limit { J.limit ≡ most_operations }
{
    for purged in &[0, 1] {
        let catalogue = read_catalogue(rt.alloc(), STEP)?;
        let (table, seat) = SeatTable::new(rt.alloc(), &catalogue)?;
        run_pool::<Brand, J, _>(rt, table, seat, catalogue, *purged)?;
    }
    Ok(())
}
