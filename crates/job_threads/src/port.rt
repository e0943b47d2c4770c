ghost use Rattle.std.specs.Prelude.{◌≡◌, ◌++◌, List, Option};
ghost use Rattle.batch_ids.specs.declared.refusal.Refusal.{Refusal};
ghost use Rattle.job_threads.specs.declared.report.Report.{Report};
ghost use Rattle.job_threads.specs.declared.report.Report.TheVariants.{Checkpoint, Finish};
ghost use Rattle.job_threads.specs.Ports.{accepted, refused_by, HasLooked, HasNotLooked, Stops};

use crate::report::Onward;
use batch_history::WorkItem;
use batch_ids::{ExecutionId, MetricStep, Moment, Refusal, T256, Text, WorkId, WorkOutcome};

/// The result of a claim.
#[derive(Drop)]
pub enum Claimed {
    /// A work item to run.
    Work(WorkItem),
    /// A job execution was taken up, and had nothing to run.
    Closed,
    /// There is no work.
    Nothing,
}

/// A worker's access to the job repository. Contracts see its accepted reports, the stops that it
/// has seen, and its last refusals.
pub trait Port {
    /// The accepted checkpoints and finishes, with their replies.
    ghost reports: { Self → List Report };

    /// The job executions whose stop was seen, whether the last look for a stop found one, and how
    /// many looks did.
    ghost stops: { Self → Stops };

    /// The last refusal of any call except `lose`, if there was one.
    ghost refused: { Self → Option Refusal };

    /// The last refusal of `lose`, if there was one.
    ghost refused_loss: { Self → Option Refusal };

    /// Claims a work item.
    ///
    /// # Errors
    ///
    /// Returns the refusal of the claim.
    fn claim(&mut self, at: Moment) -> Result<Claimed, Refusal>
        ensures reports { reports self.new ≡ reports self.old }
        ensures refused { refused self.new ≡ refused_by (refused self.old) result }
        ensures loss { refused_loss self.new ≡ refused_loss self.old };

    /// Reports that a group of a chunk is done.
    ///
    /// # Errors
    ///
    /// Returns the refusal of the checkpoint.
    fn checkpoint(
        &mut self,
        work: WorkId,
        mark: Text<65536>,
        step: MetricStep,
        at: Moment,
    ) -> Result<Onward, Refusal>
        ensures reports { reports self.new ≡ reports self.old
            ++ accepted (λ reply. Checkpoint work mark step at reply) result }
        ensures stops { HasNotLooked (stops self.old) (stops self.new) }
        ensures refused { refused self.new ≡ refused_by (refused self.old) result }
        ensures loss { refused_loss self.new ≡ refused_loss self.old };

    /// Ends a work item.
    ///
    /// # Errors
    ///
    /// Returns the refusal of the finish.
    fn finish(
        &mut self,
        work: WorkId,
        outcome: WorkOutcome,
        exit: Option<T256>,
        step: MetricStep,
        at: Moment,
    ) -> Result<(), Refusal>
        ensures reports { reports self.new ≡ reports self.old
            ++ accepted (λ _. Finish work outcome exit step at) result }
        ensures stops { HasNotLooked (stops self.old) (stops self.new) }
        ensures refused { refused self.new ≡ refused_by (refused self.old) result }
        ensures loss { refused_loss self.new ≡ refused_loss self.old };

    /// Gives a work item up, as lost.
    ///
    /// # Errors
    ///
    /// Returns the refusal of the loss.
    fn lose(&mut self, work: WorkId, at: Moment) -> Result<(), Refusal>
        ensures reports { reports self.new ≡ reports self.old }
        ensures refused { refused self.new ≡ refused self.old }
        ensures loss { refused_loss self.new ≡ refused_by (refused_loss self.old) result };

    /// Checks whether a stop of this job execution is seen. False proves nothing.
    fn stop_seen(&mut self, execution: ExecutionId) -> bool
        ensures reports { reports self.new ≡ reports self.old }
        ensures stops { HasLooked execution result (stops self.old) (stops self.new) }
        ensures refused { refused self.new ≡ refused self.old }
        ensures loss { refused_loss self.new ≡ refused_loss self.old };

    /// Checks whether any job execution is unfinished.
    ///
    /// # Errors
    ///
    /// Returns the refusal of the query.
    fn unfinished(&mut self) -> Result<bool, Refusal>
        ensures reports { reports self.new ≡ reports self.old }
        ensures refused { refused self.new ≡ refused_by (refused self.old) result }
        ensures loss { refused_loss self.new ≡ refused_loss self.old };
}
