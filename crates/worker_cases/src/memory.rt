use batch_history::{WorkItem, WorkTask};
use batch_ids::{ExecutionId, MetricStep, Moment, Refusal, T256, Text, WorkId, WorkOutcome};
use job_threads::{Claimed, Onward, Port, Report};
use std::alloc::Global;

/// The differences between a port in memory and a repository with room.
#[derive(Clone, Copy)]
pub(crate) struct Answers {
    /// The checkpoint, counted from 1, at which memory is refused.
    pub(crate) refused_checkpoint: Option<u64>,
    /// Whether a loss is refused.
    pub(crate) refuses_loss: bool,
    /// The number of checkpoints after which a stop is seen.
    pub(crate) stop_after: Option<u64>,
    /// The checkpoint, counted from 1, whose reply asks for a stop.
    pub(crate) told_at: Option<u64>,
    /// Whether a job execution is unfinished.
    pub(crate) unfinished: bool,
}

/// A port that behaves like a repository with room, and sees no stop.
pub(crate) const ROOMY: Answers = Answers {
    refused_checkpoint: None,
    refuses_loss: false,
    stop_after: None,
    told_at: None,
    unfinished: false,
};

/// A port that hands out one work item at most, stores its reports, and counts its calls.
#[derive(Drop)]
pub(crate) struct Memory {
    answers: Answers,
    item: Option<WorkItem>,
    pub(crate) claims: u64,
    pub(crate) checkpoints: u64,
    pub(crate) losses: u64,
    pub(crate) looks: u64,
    pub(crate) queries: u64,
    pub(crate) reports: Vec<Report>,
    stops: Vec<ExecutionId>,
    found_stop: bool,
    finds: u64,
    refused: Option<Refusal>,
    refused_loss: Option<Refusal>,
}

/// Returns a work item with this task.
pub(crate) fn item_of(alloc: Global, task: WorkTask) -> Result<WorkItem, Refusal> {
    Ok(WorkItem {
        work: WorkId::new(1),
        execution: ExecutionId::new(1),
        element: T256::new(alloc, "s")?,
        partition: None,
        task,
    })
}

/// Returns a chunk in groups of two items, with these names for its reader and its writer.
pub(crate) fn chunk(alloc: Global, reader: &str, writer: &str) -> Result<WorkTask, Refusal> {
    Ok(WorkTask::Chunk {
        reader: T256::new(alloc, reader)?,
        processor: Some(T256::new(alloc, "p")?),
        writer: T256::new(alloc, writer)?,
        item_count: 2,
        checkpoint: None,
    })
}

impl Memory {
    pub(crate) fn new(alloc: Global, item: Option<WorkItem>, answers: Answers) -> Memory {
        Memory {
            answers,
            item,
            claims: 0,
            checkpoints: 0,
            losses: 0,
            looks: 0,
            queries: 0,
            reports: Vec::new(alloc),
            stops: Vec::new(alloc),
            found_stop: false,
            finds: 0,
            refused: None,
            refused_loss: None,
        }
    }

    /// Checks whether a stop is seen by now.
    fn is_stopped(&self) -> bool {
        match self.answers.stop_after {
            None => false,
            Some(after) => self.checkpoints >= after,
        }
    }

    /// Returns the reply to this checkpoint.
    fn reply(&self) -> Onward {
        if self.answers.told_at == Some(self.checkpoints) {
            Onward::StopAsked
        } else {
            Onward::Go
        }
    }
}

impl Port for Memory {
    ghost use Rattle.job_threads.specs.Ports.{stops_of};

    ghost reports = { λ p. p.reports.items };

    ghost stops = { λ p. stops_of p.stops.items p.found_stop p.finds };

    ghost refused = { λ p. p.refused };

    ghost refused_loss = { λ p. p.refused_loss };

    fn claim(&mut self, _at: Moment) -> Result<Claimed, Refusal> {
        self.claims = self.claims.saturating_add(1);
        match self.item.take() {
            None => Ok(Claimed::Nothing),
            Some(item) => Ok(Claimed::Work(item)),
        }
    }

    fn checkpoint(
        &mut self,
        work: WorkId,
        mark: Text<65536>,
        step: MetricStep,
        at: Moment,
    ) -> Result<Onward, Refusal> {
        self.checkpoints = self.checkpoints.saturating_add(1);
        if self.answers.refused_checkpoint == Some(self.checkpoints) {
            self.refused = Some(Refusal::OutOfMemory);
            return Err(Refusal::OutOfMemory);
        }
        let reply = self.reply();
        match self.reports.push(Report::Checkpoint {
            work,
            mark,
            step,
            at,
            reply,
        }) {
            Ok(()) => Ok(reply),
            Err(_) => {
                self.refused = Some(Refusal::OutOfMemory);
                Err(Refusal::OutOfMemory)
            }
        }
    }

    fn finish(
        &mut self,
        work: WorkId,
        outcome: WorkOutcome,
        exit: Option<T256>,
        step: MetricStep,
        at: Moment,
    ) -> Result<(), Refusal> {
        match self.reports.push(Report::Finish {
            work,
            outcome,
            exit,
            step,
            at,
        }) {
            Ok(()) => Ok(()),
            Err(_) => {
                self.refused = Some(Refusal::OutOfMemory);
                Err(Refusal::OutOfMemory)
            }
        }
    }

    fn lose(&mut self, _work: WorkId, _at: Moment) -> Result<(), Refusal> {
        self.losses = self.losses.saturating_add(1);
        if self.answers.refuses_loss {
            self.refused_loss = Some(Refusal::WorkNotRunning);
            return Err(Refusal::WorkNotRunning);
        }
        Ok(())
    }

    fn stop_seen(&mut self, execution: ExecutionId) -> bool {
        self.looks = self.looks.saturating_add(1);
        self.found_stop = self.is_stopped() && self.stops.push(execution).is_ok();
        if self.found_stop {
            self.finds = self.finds.wrapping_add(1);
        }
        self.found_stop
    }

    fn unfinished(&mut self) -> Result<bool, Refusal> {
        self.queries = self.queries.saturating_add(1);
        Ok(self.answers.unfinished)
    }
}
