//! A port in memory, and artifacts that take no memory.
ghost use Rattle.std.specs.Prelude.{◌≡◌};
ghost use Rattle.program_calls.specs.Quiet.{items_in};

use batch_history::WorkItem;
use batch_ids::{ExecutionId, MetricStep, Moment, Refusal, T256, Text, WorkId, WorkOutcome};
use job_threads::{Artifact, ArtifactFault, Claimed, Gate, Onward, Port, Report};
use std::alloc::Global;

/// A port with at most one work item, which stores the reports.
#[derive(Drop)]
pub(crate) struct Memory {
    pub(crate) item: Option<WorkItem>,
    pub(crate) losses: u64,
    pub(crate) reports: Vec<Report>,
    pub(crate) refused: Option<Refusal>,
}

impl Memory {
    pub(crate) fn new(alloc: Global, item: Option<WorkItem>) -> Memory {
        Memory {
            item,
            losses: 0,
            reports: Vec::new(alloc),
            refused: None,
        }
    }
}

impl Port for Memory {
    ghost use Rattle.std.specs.Prelude.{[], false, None};
    ghost use Rattle.job_threads.specs.Ports.{stops_of};

    ghost reports = { λ p. p.reports.items };

    ghost stops = { λ _. stops_of [] false 0 };

    ghost refused = { λ p. p.refused };

    ghost refused_loss = { λ _. None };

    fn claim(&mut self, _at: Moment) -> Result<Claimed, Refusal> {
        match self.item.take() {
            None => Ok(Claimed::Nothing),
            Some(item) => Ok(Claimed::Work(item)),
        }
    }

    fn checkpoint(
        &mut self,
        work: WorkId,
        mark: Text<65536>,
        step: MetricStep,
        at: Moment,
    ) -> Result<Onward, Refusal> {
        let reply = Onward::Go;
        match self.reports.push(Report::Checkpoint {
            work,
            mark,
            step,
            at,
            reply,
        }) {
            Ok(()) => Ok(reply),
            Err(_) => {
                self.refused = Some(Refusal::OutOfMemory);
                Err(Refusal::OutOfMemory)
            }
        }
    }

    fn finish(
        &mut self,
        work: WorkId,
        outcome: WorkOutcome,
        exit: Option<T256>,
        step: MetricStep,
        at: Moment,
    ) -> Result<(), Refusal> {
        match self.reports.push(Report::Finish {
            work,
            outcome,
            exit,
            step,
            at,
        }) {
            Ok(()) => Ok(()),
            Err(_) => {
                self.refused = Some(Refusal::OutOfMemory);
                Err(Refusal::OutOfMemory)
            }
        }
    }

    fn lose(&mut self, _work: WorkId, _at: Moment) -> Result<(), Refusal> {
        self.losses = self.losses.saturating_add(1);
        Ok(())
    }

    fn stop_seen(&mut self, _execution: ExecutionId) -> bool {
        false
    }

    fn unfinished(&mut self) -> Result<bool, Refusal> {
        Ok(false)
    }
}

/// An artifact of each role that takes no memory. A batchlet and decider completes. A reader has five
/// items in a partition, and none without one. Items and checkpoints are empty texts.
#[derive(Drop)]
pub(crate) struct Quiet {
    alloc: Global,
    items: u32,
    left: u32,
}

/// Returns the number of items of a reader in a partition, or without one.
fn items_in(partition: Option<u32>) -> u32
    ensures { result ≡ items_in partition }
{
    match partition {
        None => 0,
        Some(_) => 5,
    }
}

impl Quiet {
    pub(crate) fn new(alloc: Global) -> Quiet {
        Quiet {
            alloc,
            items: 0,
            left: 0,
        }
    }
}

impl Artifact for Quiet {
    ghost use Rattle.program_calls.specs.Quiet.{quiet};

    ghost meaning = { λ a. quiet a.items a.left };

    fn begin(&mut self, partition: Option<u32>) -> Result<(), ArtifactFault> {
        self.items = items_in(partition);
        Ok(())
    }

    fn run(&mut self) -> Result<Option<T256>, ArtifactFault> {
        Ok(None)
    }

    fn open(&mut self, _checkpoint: Option<&str>) -> Result<(), ArtifactFault> {
        self.left = self.items;
        Ok(())
    }

    fn read(&mut self) -> Result<Option<String>, ArtifactFault> {
        if self.left == 0 {
            return Ok(None);
        }
        self.left -= 1;
        Ok(Some(String::new(self.alloc)))
    }

    fn process(&mut self, _item: &str) -> Result<Option<String>, ArtifactFault> {
        Ok(Some(String::new(self.alloc)))
    }

    fn write(&mut self, _items: &[String]) -> Result<(), ArtifactFault> {
        Ok(())
    }

    fn checkpoint(&mut self) -> Result<String, ArtifactFault> {
        Ok(String::new(self.alloc))
    }
}

/// A gate that does nothing.
#[derive(Drop)]
pub(crate) struct Open;

impl Gate for Open {
    fn before(&self, _worker: u64, _item: &WorkItem) {}

    fn idle(&self, _worker: u64) {}

    fn now(&self) -> Moment {
        0
    }
}
