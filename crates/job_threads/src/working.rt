ghost use Rattle.std.specs.Prelude.{◌≡◌, ◌+◌, IfOk};
ghost use Rattle.job_threads.specs.Ports.{finishes, IsRefusal};

use crate::item::run_item;
use crate::kit::Artifacts;
use crate::port::{Claimed, Port};
use batch_history::WorkItem;
use batch_ids::{Moment, Refusal, WorkOutcome};
use std::alloc::Global;

/// The host of workers: it observes them, and gives them the time.
pub trait Gate {
    /// Is called before each work item of this worker.
    fn before(&self, worker: u64, item: &WorkItem);

    /// Is called after a claim of this worker found nothing to run, while a job execution is
    /// unfinished. A host lets time pass here.
    fn idle(&self, worker: u64);

    /// Returns the moment for the next call.
    fn now(&self) -> Moment;
}

/// The result of a worker.
#[derive(Clone, Copy, PartialEq, Eq, Debug)]
pub struct WorkerReport {
    /// The number of work items that it ran to their end.
    pub items: u64,
    /// Whether it ended because too many claims found no work, rather than because nothing was left
    /// to do.
    pub gave_up: bool,
}

/// Runs a work item. If a report is refused, gives the work item up, so that it isn't running
/// forever. The result of that is ignored.
fn run_or_lose<P: Port, K: Artifacts, G: Gate>(
    alloc: Global,
    port: &mut P,
    kit: &mut K,
    gate: &G,
    item: &WorkItem,
) -> Result<WorkOutcome, Refusal>
    ensures finished { IfOk result (λ _. finishes (P.reports port.new) ≡ finishes (P.reports port.old) + 1) }
    ensures refused { IsRefusal result (P.refused port.old) (P.refused port.new) }
{
    match run_item(alloc, port, kit, item, gate.now()) {
        Ok(outcome) => Ok(outcome),
        Err(refusal) => {
            let _answered = port.lose(item.work, gate.now());
            Err(refusal)
        }
    }
}

/// Claims work items and runs them. It ends after a claim finds nothing while no job execution is
/// unfinished. It gives up after `turns` claims found nothing. The gate's calls receive `number`.
///
/// The port has one more accepted finish for each work item that was run.
///
/// # Errors
///
/// Returns the first refusal of a claim, a report or a query, or `OutOfMemory` if memory is
/// refused. That refusal is the port's last one, apart from that of a loss. One `lose` then gives
/// up the work item that was running.
pub fn worker<P: Port, K: Artifacts, G: Gate>(
    alloc: Global,
    port: &mut P,
    kit: &mut K,
    gate: &G,
    number: u64,
    turns: u64,
) -> Result<WorkerReport, Refusal>
    ensures finished { IfOk result (λ report. finishes (P.reports port.new)
        ≡ finishes (P.reports port.old) + report.items) }
    ensures refused { IsRefusal result (P.refused port.old) (P.refused port.new) }
{
    let mut items: u64 = 0;
    let mut idle: u64 = 0;
    for _turn in 0..u64::MAX {
        match port.claim(gate.now())? {
            Claimed::Work(item) => {
                gate.before(number, &item);
                let ran = run_or_lose(alloc, port, kit, gate, &item);
                drop(item);
                ran?;
                items += 1;
            }
            Claimed::Closed => {}
            Claimed::Nothing => {
                if !port.unfinished()? {
                    return Ok(WorkerReport {
                        items,
                        gave_up: false,
                    });
                }
                idle += 1;
                if turns <= idle {
                    return Ok(WorkerReport {
                        items,
                        gave_up: true,
                    });
                }
                gate.idle(number);
            }
        }
    }
    Ok(WorkerReport {
        items,
        gave_up: true,
    })
}
