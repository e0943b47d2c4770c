use crate::memory::{Answers, Memory, ROOMY, chunk, item_of};
use crate::refusing::Open;
use crate::staged::{Place, Staged, Written, nothing_written};
use anyhow::Result;
use batch_history::WorkTask;
use batch_ids::{MetricStep, Metrics, Refusal, T256};
use job_threads::{Kit, Report, Tape, WorkerReport, worker};
use std::alloc::Global;
use std::sync::Arc;
use std::sync::atomic::Ordering;

/// The place at which each artifact of a chunk faults, and whether the checkpoint of the fourth
/// item is too long.
#[derive(Clone, Copy)]
struct Faults {
    reader: Place,
    processor: Place,
    writer: Place,
    long_mark: bool,
}

/// No artifact faults.
const CALM: Faults = Faults {
    reader: Place::Nowhere,
    processor: Place::Nowhere,
    writer: Place::Nowhere,
    long_mark: false,
};

/// Returns a text of 65,537 bytes, which is one too many for a checkpoint.
fn long_text(alloc: Global) -> Result<String> {
    let mut text = String::new(alloc);
    for _byte in 0..65_537 {
        text.push('x')?;
    }
    Ok(text)
}

/// Returns five items, the fourth of which may be too long for a checkpoint.
fn five_items(alloc: Global, long_mark: bool) -> Result<Vec<String>> {
    let mut items = Vec::new(alloc);
    for number in 1..6 {
        if long_mark && number == 4 {
            items.push(long_text(alloc)?)?;
        } else {
            items.push(String::from_str(alloc, "item")?)?;
        }
    }
    Ok(items)
}

/// Returns an artifact that faults at this place.
pub(crate) fn staged(
    alloc: Global,
    place: Place,
    items: Vec<String>,
    written: &Arc<Written>,
) -> Result<Box<Staged>> {
    let written = Arc::clone(written)?;
    let staged = Staged {
        alloc,
        place,
        items,
        at: 0,
        calls: 0,
        written,
        tape: Tape::new(),
    };
    Ok(Box::new(alloc, staged)?)
}

/// Runs the chunk by one worker.
fn run_chunk(
    alloc: Global,
    port: &mut Memory,
    faults: Faults,
    written: &Arc<Written>,
) -> Result<std::result::Result<WorkerReport, Refusal>> {
    let items = five_items(alloc, faults.long_mark)?;
    let reader = staged(alloc, faults.reader, items, written)?;
    let mut kit = Kit::new(alloc);
    kit.add("r", reader)?;
    let processor = staged(alloc, faults.processor, Vec::new(alloc), written)?;
    kit.add("p", processor)?;
    let writer = staged(alloc, faults.writer, Vec::new(alloc), written)?;
    kit.add("w", writer)?;
    let reported = worker(alloc, port, &mut kit, &Open, 0, 3);
    drop(kit);
    Ok(reported)
}

/// Adds the counts of a report.
fn add_step(metrics: &mut Metrics, step: &MetricStep) {
    metrics.read_count = metrics
        .read_count
        .saturating_add(u64::from(step.read_count));
    metrics.write_count = metrics
        .write_count
        .saturating_add(u64::from(step.write_count));
    metrics.commit_count = metrics
        .commit_count
        .saturating_add(u64::from(step.commit_count));
    metrics.rollback_count = metrics
        .rollback_count
        .saturating_add(u64::from(step.rollback_count));
}

/// Prints the reports of the work item: the sum of its counts, and its end.
fn print_reports(rt: &impl Print, name: &str, reports: &[Report]) -> Result<()> {
    let mut metrics = Metrics::zero();
    for report in reports {
        match report {
            Report::Checkpoint { step, .. } => add_step(&mut metrics, step),
            Report::Finish { step, outcome, .. } => {
                add_step(&mut metrics, step);
                println!(rt; "{name}: {outcome}")?;
            }
        }
    }
    println!(rt;
        "{name}: READ_COUNT {}, WRITE_COUNT {}, COMMIT_COUNT {}, ROLLBACK_COUNT {}",
        metrics.read_count, metrics.write_count, metrics.commit_count, metrics.rollback_count
    )?;
    Ok(())
}

/// Runs this work item by a worker whose kit has `r`, `p` and `w`, and prints the result.
fn print_task(
    rt: &(impl Print + AllocGlobal),
    name: &str,
    task: WorkTask,
    faults: Faults,
    answers: Answers,
) -> Result<()> {
    let alloc = rt.alloc();
    let written = nothing_written(alloc)?;
    let mut port = Memory::new(alloc, Some(item_of(alloc, task)?), answers);
    let printed = print_run(rt, name, &mut port, faults, &written);
    drop(port);
    printed
}

/// Runs the work item of the port, and prints the result.
fn print_run(
    rt: &(impl Print + AllocGlobal),
    name: &str,
    port: &mut Memory,
    faults: Faults,
    written: &Arc<Written>,
) -> Result<()> {
    match run_chunk(rt.alloc(), port, faults, written)? {
        Ok(report) => println!(rt; "{name}: {} work items", report.items)?,
        Err(refusal) => println!(rt; "{name}: {refusal}, {} losses", port.losses)?,
    }
    print_written(rt, name, written)?;
    print_reports(rt, name, port.reports.as_slice())
}

/// Prints the number of groups and items that were written.
fn print_written(rt: &impl Print, name: &str, written: &Written) -> Result<()> {
    println!(rt;
        "{name}: {} groups of {} items written",
        written.groups.load(Ordering::SeqCst),
        written.items.load(Ordering::SeqCst)
    )?;
    Ok(())
}

/// Runs the chunk, and prints the result.
fn print_chunk(
    rt: &(impl Print + AllocGlobal),
    name: &str,
    faults: Faults,
    answers: Answers,
) -> Result<()> {
    let task = chunk(rt.alloc(), "r", "w")?;
    print_task(rt, name, task, faults, answers)
}

/// Runs a chunk of five items, in groups of two. Each of its artifacts faults at each of its
/// places.
pub(crate) fn print_faults(rt: &(impl Print + AllocGlobal)) -> Result<()> {
    print_chunk(rt, "no fault", CALM, ROOMY)?;
    let mut faults = CALM;
    faults.reader = Place::Begin;
    print_chunk(rt, "begin", faults, ROOMY)?;
    faults.reader = Place::Open;
    print_chunk(rt, "open of the reader", faults, ROOMY)?;
    faults.reader = Place::ThirdItem;
    print_chunk(rt, "read", faults, ROOMY)?;
    faults.reader = Place::SecondMark;
    print_chunk(rt, "mark", faults, ROOMY)?;
    faults.reader = Place::Nowhere;
    faults.processor = Place::ThirdResult;
    print_chunk(rt, "process", faults, ROOMY)?;
    faults.processor = Place::Nowhere;
    faults.writer = Place::Open;
    print_chunk(rt, "open of the writer", faults, ROOMY)?;
    faults.writer = Place::SecondGroup;
    print_chunk(rt, "write", faults, ROOMY)?;
    faults.writer = Place::Nowhere;
    faults.long_mark = true;
    print_chunk(rt, "long mark", faults, ROOMY)
}

/// Runs a chunk whose stop is seen before the second group. Then runs one whose second checkpoint
/// is refused, first with an accepted loss and then with a refused one.
pub(crate) fn print_ended_early(rt: &(impl Print + AllocGlobal)) -> Result<()> {
    let mut answers = ROOMY;
    answers.stop_after = Some(1);
    print_chunk(rt, "stopped", CALM, answers)?;
    answers.stop_after = None;
    answers.refused_checkpoint = Some(2);
    print_chunk(rt, "refused", CALM, answers)?;
    answers.refuses_loss = true;
    print_chunk(rt, "refused twice", CALM, answers)
}

/// Runs work items that name an artifact that the kit lacks.
pub(crate) fn print_unknown_names(rt: &(impl Print + AllocGlobal)) -> Result<()> {
    let alloc = rt.alloc();
    let reader = chunk(alloc, "other", "w")?;
    print_task(rt, "unknown reader", reader, CALM, ROOMY)?;
    let writer = chunk(alloc, "r", "other")?;
    print_task(rt, "unknown writer", writer, CALM, ROOMY)?;
    let artifact = T256::new(alloc, "other")?;
    let batchlet = WorkTask::Batchlet { artifact };
    print_task(rt, "unknown batchlet", batchlet, CALM, ROOMY)?;
    let artifact = T256::new(alloc, "other")?;
    let decision = WorkTask::Decision { artifact };
    print_task(rt, "unknown decider", decision, CALM, ROOMY)
}
