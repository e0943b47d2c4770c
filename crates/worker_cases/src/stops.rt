use crate::chunks::staged;
use crate::memory::{Answers, Memory, ROOMY, item_of};
use crate::staged::{Place, Written, nothing_written};
use anyhow::Result;
use batch_history::{WorkItem, WorkTask};
use batch_ids::{Refusal, T256, WorkOutcome};
use built_in_artifacts::{BuiltIn, BuiltInArtifact};
use job_threads::{Kit, Report, run_item};
use std::alloc::{AllocError, Global};
use std::sync::Arc;
use std::sync::atomic::Ordering;

/// A stop that never comes.
const NEVER: u64 = 99;

/// The cases: a name, a reader, the number of reports after which a stop is seen, and the report
/// whose reply asks for a stop.
const STOPS: [(&str, &str, u64, u64); 12] = [
    ("no stop", "count:5", NEVER, NEVER),
    ("seen before the first read", "count:5", 0, NEVER),
    ("seen after the first group", "count:5", 1, NEVER),
    ("seen after the second group", "count:5", 2, NEVER),
    ("seen after the last group", "count:5", 3, NEVER),
    ("no stop of full groups", "count:4", NEVER, NEVER),
    ("seen after a full last group", "count:4", 2, NEVER),
    ("seen before the end", "count:0", 0, NEVER),
    ("told of the first group", "count:5", NEVER, 1),
    ("told of the second group", "count:5", NEVER, 2),
    ("told of the last group", "count:5", NEVER, 3),
    ("told of a full last group", "count:4", NEVER, 2),
];

/// Returns a chunk in groups of two items with this reader, a processor if one is named, and the
/// writer `w`.
fn chunk_of(alloc: Global, reader: &str, processor: Option<&str>) -> Result<WorkTask, Refusal> {
    let processor = match processor {
        None => None,
        Some(name) => Some(T256::new(alloc, name)?),
    };
    Ok(WorkTask::Chunk {
        reader: T256::new(alloc, reader)?,
        processor,
        writer: T256::new(alloc, "w")?,
        item_count: 2,
        checkpoint: None,
    })
}

/// Runs a work item with built-in artifacts with these names, and a writer that counts its groups
/// and items.
fn run_with(
    alloc: Global,
    port: &mut Memory,
    names: &[&str],
    item: &WorkItem,
    written: &Arc<Written>,
) -> Result<WorkOutcome> {
    let mut kit = Kit::new(alloc);
    for name in names {
        let built_in = BuiltIn::of(alloc, name)?.unwrap_or(BuiltIn::Fail);
        kit.add(
            name,
            Box::new(alloc, BuiltInArtifact::new(alloc, built_in))?,
        )?;
    }
    let writer = staged(alloc, Place::Nowhere, Vec::new(alloc), written)?;
    kit.add("w", writer)?;
    let outcome = run_item(alloc, port, &mut kit, item, 0);
    drop(kit);
    Ok(outcome?)
}

/// Appends the text of a report.
fn tell(told: &mut String, report: &Report) -> Result<(), AllocError> {
    match report {
        Report::Checkpoint { mark, step, .. } => write!(
            told,
            "{}: {} {} {} {}, ",
            mark.as_str(),
            step.read_count,
            step.filter_count,
            step.write_count,
            step.commit_count
        ),
        Report::Finish { outcome, step, .. } => write!(told, "{outcome} {}", step.rollback_count),
    }
}

/// Returns the text of reports. A group has its checkpoint, and the number of items read, filtered
/// and written, and of commits. The end has the outcome, and the number of rollbacks.
fn told(alloc: Global, reports: &[Report]) -> Result<String, AllocError> {
    let mut told = String::new(alloc);
    for report in reports {
        tell(&mut told, report)?;
    }
    Ok(told)
}

/// Prints the reports, how often the port looked for a stop, and the items that were written.
fn print_told(
    rt: &(impl Print + AllocGlobal),
    name: &str,
    port: &Memory,
    written: &Written,
) -> Result<()> {
    let told = told(rt.alloc(), port.reports.as_slice())?;
    println!(rt; "{name}: {told}")?;
    println!(rt;
        "{name}: {} looks, written {}",
        port.looks,
        written.digits.load(Ordering::SeqCst)
    )?;
    Ok(())
}

/// Runs a chunk with this reader and processor, and prints the result.
fn print_item(
    rt: &(impl Print + AllocGlobal),
    name: &str,
    reader: &str,
    processor: Option<&str>,
    answers: Answers,
) -> Result<()> {
    let alloc = rt.alloc();
    let written = nothing_written(alloc)?;
    let item = item_of(alloc, chunk_of(alloc, reader, processor)?)?;
    let mut port = Memory::new(alloc, None, answers);
    let ran = run_with(alloc, &mut port, &[reader, "odd"], &item, &written);
    drop(item);
    let printed = print_told(rt, name, &port, &written);
    drop(port);
    ran?;
    printed
}

/// Runs chunks whose job execution is asked to stop. The port sees it at a look, or the reply to a
/// report asks for it. Then runs chunks that filter out the even items.
pub(crate) fn print_stops(rt: &(impl Print + AllocGlobal)) -> Result<()> {
    for (name, reader, seen_after, told_at) in &STOPS {
        let mut answers = ROOMY;
        answers.stop_after = Some(*seen_after);
        answers.told_at = Some(*told_at);
        print_item(rt, name, reader, None, answers)?;
    }
    print_item(rt, "odd items", "count:5", Some("odd"), ROOMY)?;
    print_item(rt, "odd items of four", "count:4", Some("odd"), ROOMY)
}
