use crate::memory::{Answers, Memory, ROOMY, item_of};
use crate::quiet::Quiet;
use anyhow::Result;
use batch_history::{WorkItem, WorkTask};
use batch_ids::{Moment, Refusal, T256};
use job_threads::{Gate, Kit, WorkerReport, worker};
use std::alloc::Global;
use std::sync::atomic::{AtomicU64, Ordering};

/// The number of each worker.
const NUMBER: u64 = 7;

/// A gate that counts a worker's calls, and adds up the worker numbers in them.
#[derive(Drop)]
struct Counting {
    before: AtomicU64,
    idle: AtomicU64,
    numbers: AtomicU64,
}

impl Gate for Counting {
    fn before(&self, worker: u64, _item: &WorkItem) {
        self.before.fetch_add(1, Ordering::SeqCst);
        self.numbers.fetch_add(worker, Ordering::SeqCst);
    }

    fn idle(&self, worker: u64) {
        self.idle.fetch_add(1, Ordering::SeqCst);
        self.numbers.fetch_add(worker, Ordering::SeqCst);
    }

    fn now(&self) -> Moment {
        0
    }
}

/// Returns a work item of one batchlet that completes.
fn batchlet(alloc: Global) -> Result<WorkItem> {
    let artifact = T256::new(alloc, "ok")?;
    Ok(item_of(alloc, WorkTask::Batchlet { artifact })?)
}

/// Runs a worker with the batchlet `ok` that gives up after `turns` turns, and returns its report.
fn work(
    alloc: Global,
    port: &mut Memory,
    gate: &Counting,
    turns: u64,
) -> Result<std::result::Result<WorkerReport, Refusal>> {
    let mut kit = Kit::new(alloc);
    kit.add("ok", Box::new(alloc, Quiet { alloc })?)?;
    let reported = worker(alloc, port, &mut kit, gate, NUMBER, turns);
    drop(kit);
    Ok(reported)
}

/// Prints the report of a worker, and how often it called its port and its gate.
fn print_worker(
    rt: &(impl Print + AllocGlobal),
    name: &str,
    port: &mut Memory,
    turns: u64,
) -> Result<()> {
    let gate = Counting {
        before: AtomicU64::new(0),
        idle: AtomicU64::new(0),
        numbers: AtomicU64::new(0),
    };
    let report = work(rt.alloc(), port, &gate, turns)??;
    println!(rt;
        "{name} of {turns}: {} work items, gave up: {}, {} claims, {} queries",
        report.items, report.gave_up, port.claims, port.queries
    )?;
    println!(rt;
        "{name} of {turns}: {} before a work item, {} idle, numbers {}",
        gate.before.load(Ordering::SeqCst),
        gate.idle.load(Ordering::SeqCst),
        gate.numbers.load(Ordering::SeqCst)
    )?;
    Ok(())
}

/// Runs a worker whose port hands out this work item, if there is one, and then nothing.
fn print_turns(
    rt: &(impl Print + AllocGlobal),
    name: &str,
    item: Option<WorkItem>,
    answers: Answers,
    turns: u64,
) -> Result<()> {
    let mut port = Memory::new(rt.alloc(), item, answers);
    let printed = print_worker(rt, name, &mut port, turns);
    drop(port);
    printed
}

/// Runs workers that find no work while a job execution is unfinished, and then one that finds that
/// none is.
pub(crate) fn print_all_turns(rt: &(impl Print + AllocGlobal)) -> Result<()> {
    let mut answers = ROOMY;
    answers.unfinished = true;
    for turns in &[0, 1, 3, 4] {
        print_turns(rt, "turns", None, answers, *turns)?;
    }
    let item = batchlet(rt.alloc())?;
    print_turns(rt, "turns after work", Some(item), answers, 3)?;
    let item = batchlet(rt.alloc())?;
    print_turns(rt, "turns left", Some(item), ROOMY, 3)
}
