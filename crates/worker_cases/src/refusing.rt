use crate::quiet::Quiet;
use anyhow::Result;
use batch_history::{WorkItem, WorkTask};
use batch_ids::{
    ExecutionId, MetricStep, Moment, OutOfMemory, Refusal, T256, Text, WorkId, WorkOutcome,
};
use job_threads::{Claimed, Gate, Kit, Onward, Port, WorkerReport, worker};
use std::alloc::Global;

/// A port that hands out one batchlet, and refuses its reports.
#[derive(Drop)]
struct Refusing {
    alloc: Global,
    given_up: u64,
    claims: u64,
    refused: Option<Refusal>,
    refused_loss: Option<Refusal>,
}

fn batchlet(alloc: Global) -> std::result::Result<WorkItem, OutOfMemory> {
    Ok(WorkItem {
        work: WorkId::new(1),
        execution: ExecutionId::new(1),
        element: T256::empty(),
        partition: None,
        task: WorkTask::Batchlet {
            artifact: T256::empty(),
        },
    })
}

impl Port for Refusing {
    ghost use Rattle.std.specs.Prelude.{[], false};
    ghost use Rattle.job_threads.specs.Ports.{stops_of};

    ghost reports = { λ _. [] };

    ghost stops = { λ _. stops_of [] false 0 };

    ghost refused = { λ p. p.refused };

    ghost refused_loss = { λ p. p.refused_loss };

    fn claim(&mut self, _at: Moment) -> std::result::Result<Claimed, Refusal> {
        self.claims = self.claims.saturating_add(1);
        match batchlet(self.alloc) {
            Ok(item) => Ok(Claimed::Work(item)),
            Err(_) => {
                self.refused = Some(Refusal::OutOfMemory);
                Err(Refusal::OutOfMemory)
            }
        }
    }

    fn checkpoint(
        &mut self,
        _work: WorkId,
        _mark: Text<65536>,
        _step: MetricStep,
        _at: Moment,
    ) -> std::result::Result<Onward, Refusal> {
        self.refused = Some(Refusal::WorkNotRunning);
        Err(Refusal::WorkNotRunning)
    }

    fn finish(
        &mut self,
        _work: WorkId,
        _outcome: WorkOutcome,
        _exit: Option<T256>,
        _step: MetricStep,
        _at: Moment,
    ) -> std::result::Result<(), Refusal> {
        self.refused = Some(Refusal::WorkNotRunning);
        Err(Refusal::WorkNotRunning)
    }

    fn lose(&mut self, _work: WorkId, _at: Moment) -> std::result::Result<(), Refusal> {
        self.given_up = self.given_up.saturating_add(1);
        self.refused_loss = Some(Refusal::RepositoryFull);
        Err(Refusal::RepositoryFull)
    }

    fn stop_seen(&mut self, _execution: ExecutionId) -> bool {
        false
    }

    fn unfinished(&mut self) -> std::result::Result<bool, Refusal> {
        Ok(true)
    }
}

/// A gate that does nothing.
#[derive(Drop)]
pub(crate) struct Open;

impl Gate for Open {
    fn before(&self, _worker: u64, _item: &WorkItem) {}

    fn idle(&self, _worker: u64) {}

    fn now(&self) -> Moment {
        0
    }
}

/// Runs a worker whose finish is refused. It gives its work item up once, and returns the first
/// refusal.
pub(crate) fn print_given_up(rt: &(impl Print + AllocGlobal)) -> Result<()> {
    let alloc = rt.alloc();
    let mut kit = Kit::new(alloc);
    kit.add("", Box::new(alloc, Quiet { alloc })?)?;
    let mut port = Refusing {
        alloc,
        given_up: 0,
        claims: 0,
        refused: None,
        refused_loss: None,
    };
    let ended = worker(alloc, &mut port, &mut kit, &Open, 0, 3);
    drop(kit);
    print_ended(rt, &ended)?;
    print_port(rt, &port)
}

/// Prints how a worker ended.
fn print_ended(rt: &impl Print, ended: &std::result::Result<WorkerReport, Refusal>) -> Result<()> {
    match ended {
        Ok(report) => println!(rt; "given up: {} work items", report.items)?,
        Err(refusal) => println!(rt; "given up: {refusal}")?,
    }
    Ok(())
}

/// Prints how often the port was called.
fn print_port(rt: &impl Print, port: &Refusing) -> Result<()> {
    println!(rt;
        "given up: {} claims, {} losses",
        port.claims, port.given_up
    )?;
    Ok(())
}
