//! Kits, work items and workers.
use crate::memory::{Memory, Open, Quiet};
use anyhow::{Result, bail};
use batch_history::{WorkItem, WorkTask};
use batch_ids::{ExecutionId, T256, WorkId, WorkOutcome};
use built_in_artifacts::{BuiltIn, BuiltInArtifact};
use call_lines::{Line, Tried, tell, told};
use job_threads::{Kit, WorkerReport, run_item, worker};
use std::alloc::Global;

/// The built-in artifacts of the chunk.
const NAMES: [&str; 3] = ["count:5", "odd", "sink"];

/// Returns a chunk of these artifacts, in groups of two items.
fn chunk(alloc: Global, reader: &str, processor: &str, writer: &str) -> Tried<WorkTask> {
    Ok(WorkTask::Chunk {
        reader: T256::new(alloc, reader)?,
        processor: Some(T256::new(alloc, processor)?),
        writer: T256::new(alloc, writer)?,
        item_count: 2,
        checkpoint: None,
    })
}

/// Returns the task of this name: a chunk of built-in artifacts, a chunk or a decision of an artifact
/// that takes no memory, or a batchlet with the artifact of this name.
fn task(alloc: Global, name: &str) -> Tried<WorkTask> {
    match name {
        "chunk" => chunk(alloc, "count:5", "odd", "sink"),
        "own_chunk" => chunk(alloc, "quiet", "quiet", "quiet"),
        "decision" => Ok(WorkTask::Decision {
            artifact: T256::new(alloc, "quiet")?,
        }),
        _ => Ok(WorkTask::Batchlet {
            artifact: T256::new(alloc, name)?,
        }),
    }
}

fn item(alloc: Global, name: &str, partition: Option<u32>) -> Tried<WorkItem> {
    Ok(WorkItem {
        work: WorkId::new(1),
        execution: ExecutionId::new(1),
        element: T256::new(alloc, "s")?,
        partition,
        task: task(alloc, name)?,
    })
}

/// Runs a work item with a new kit. The function that runs it makes the kit, since no other one may
/// hand out its artifacts.
fn run_with_kit(
    alloc: Global,
    line: Line<'_>,
    port: &mut Memory,
    item: &WorkItem,
) -> Tried<Tried<WorkOutcome>> {
    let mut kit = Kit::new(alloc);
    for name in &NAMES {
        let built_in = BuiltIn::of(alloc, name)?.unwrap_or(BuiltIn::Fail);
        kit.add(
            name,
            Box::new(alloc, BuiltInArtifact::new(alloc, built_in))?,
        )?;
    }
    kit.add("quiet", Box::new(alloc, Quiet::new(alloc))?)?;
    line.mark(alloc);
    let outcome = run_item(alloc, port, &mut kit, item, 0);
    line.mark(alloc);
    drop(kit);
    Ok(outcome)
}

/// Runs the one work item of a port by a worker.
fn work_with_kit(alloc: Global, line: Line<'_>, port: &mut Memory) -> Tried<Tried<WorkerReport>> {
    let mut kit = Kit::new(alloc);
    kit.add("quiet", Box::new(alloc, Quiet::new(alloc))?)?;
    line.mark(alloc);
    let report = worker(alloc, port, &mut kit, &Open, 0, 3);
    line.mark(alloc);
    drop(kit);
    Ok(report)
}

/// Prints the reports.
fn show_port(rt: &impl Print, port: &Memory) -> Result<()> {
    println!(rt; "{} losses", port.losses)?;
    for report in port.reports.as_slice() {
        tell(rt, report)?;
    }
    Ok(())
}

/// Runs a work item with a new port and a new kit.
fn run_one<R: Print + AllocGlobal>(rt: &R, line: Line<'_>, item: &WorkItem) -> Result<()> {
    let mut port = Memory::new(rt.alloc(), None);
    tell(rt, run_with_kit(rt.alloc(), line, &mut port, item)?)?;
    show_port(rt, &port)
}

/// Runs a worker with a new port, which has this work item, and a new kit.
fn run_worker<R: Print + AllocGlobal>(rt: &R, line: Line<'_>, item: WorkItem) -> Result<()> {
    let mut port = Memory::new(rt.alloc(), Some(item));
    tell(rt, work_with_kit(rt.alloc(), line, &mut port)?)?;
    show_port(rt, &port)
}

/// Adds an artifact to a kit, again if it is refused memory, and lets the kit run it.
fn add_and_run(
    alloc: Global,
    line: Line<'_>,
    port: &mut Memory,
) -> Tried<(bool, Tried<WorkOutcome>)> {
    let item = item(alloc, "quiet", None)?;
    let mut kit = Kit::new(alloc);
    let given = Box::new(alloc, Quiet::new(alloc))?;
    line.mark(alloc);
    let added = kit.add("quiet", given);
    line.mark(alloc);
    if added.is_err() {
        kit.add("quiet", Box::new(alloc, Quiet::new(alloc))?)?;
    }
    let outcome = run_item(alloc, port, &mut kit, &item, 0);
    drop(kit);
    Ok((added.is_ok(), outcome))
}

fn run_add<R: Print + AllocGlobal>(rt: &R, line: Line<'_>) -> Result<()> {
    let mut port = Memory::new(rt.alloc(), None);
    let (added, outcome) = add_and_run(rt.alloc(), line, &mut port)?;
    if !added {
        println!(rt; "Err(OutOfMemory)")?;
    }
    tell(rt, outcome)
}

/// Makes the call that a line names. The name of a task may follow it.
pub fn run_work<R: Print + AllocGlobal>(rt: &R, line: Line<'_>) -> Result<()> {
    let alloc = rt.alloc();
    let (word, name) = line.parted();
    let partition = if word == "run_partition" {
        Some(1)
    } else {
        None
    };
    let item = item(alloc, name, partition)?;
    match word {
        "run_item" | "run_partition" => run_one(rt, line, &item),
        "worker" => run_worker(rt, line, item),
        "kit.add" => run_add(rt, line),
        "work_item.try_clone" => told!(rt, line, item.try_clone()),
        "work_task.try_clone" => told!(rt, line, item.task.try_clone()),
        _ => bail!("no call of a worker is named {word}"),
    }
}
