ghost use Rattle.std.specs.Prelude.{◌≡◌, ◌≢◌, ◌≤◌, ◌↔◌, IsSome, IfSome, IfOk, OnOk, OnErr, MatchResult};
ghost use Rattle.batch_history.specs.Legal.{most_numbered};
ghost use Rattle.batch_history.specs.Rows.{Rows};
ghost use Rattle.row_repository.specs.Restoring.{AreCounted, IsTaken, checkpoint_fault, execution_fault, with_checkpoint, with_execution, with_work, without_rows, work_fault};
ghost use Rattle.row_repository.specs.Settled.{AreSettled};

use crate::repository::RowRepository;
use crate::row_fault::RowFault;
use batch_history::{CheckpointRow, ExecutionRow, LastNumbers, WorkRow};
use jsl_model::Catalogue;
use std::alloc::Global;

/// Rows from which a job repository of type `J` is restored, as contracts see them.
///
/// Job executions and work items are each added by rising number. A work item comes after its job
/// execution, and a checkpoint after its job instance. `finish` makes the repository. It goes on as
/// the one that had these rows.
///
/// A row that cannot be among them is refused. Then nothing has changed.
pub trait RowRestoration<J: RowRepository>: Drop {
    /// The rows so far.
    ghost rows: { Self → Rows };

    /// Creates a restoration without rows: over this catalogue, after `count` operations that gave
    /// the last numbers. The repository's limit is at most 4,294,967,296. All memory that it takes
    /// later comes from `alloc`.
    ///
    /// Returns `None` if `count` is above the limit, or a last number above `count`.
    fn new(alloc: Global, catalogue: Catalogue, count: u64, last: LastNumbers) -> Option<Self>
        requires { J.limit ≤ most_numbered }
        ensures made { IfSome result (λ made. rows made ≡ without_rows catalogue count last) }
        ensures counted { IsSome result ↔ AreCounted J.limit count last };

    /// Adds a job execution behind the others, and its job instance if that has none yet.
    ///
    /// # Errors
    ///
    /// The first of these that applies, or `OutOfMemory`:
    /// - `NotNext`: its number, or that of a job instance which is new, is not above that of the row
    ///   before, or is above the last that was given;
    /// - `NotPlaced`: its job is not in the catalogue, or its plan does not begin at an element of
    ///   the job's own list.
    fn add_execution(&mut self, row: ExecutionRow) -> Result<(), RowFault>
        ensures taken { IsTaken result (execution_fault (rows self.old) row) }
        ensures added { OnOk result (rows self.new ≡ with_execution (rows self.old) row) }
        ensures unchanged { OnErr result (self.new ≡ self.old) };

    /// Adds a work item behind the others.
    ///
    /// # Errors
    ///
    /// The first of these that applies, or `OutOfMemory`:
    /// - `NotNext`: its number is not above that of the row before, or is above the last that was
    ///   given;
    /// - `NoOwner`: its job execution has no row;
    /// - `Taken`: another work item of its job execution has its work key;
    /// - `TooGreat`: with it, a count of the metrics would be greater than `count` operations can
    ///   report.
    fn add_work(&mut self, row: WorkRow) -> Result<(), RowFault>
        ensures taken { IsTaken result (work_fault (rows self.old) row) }
        ensures added { OnOk result (rows self.new ≡ with_work (rows self.old) row) }
        ensures unchanged { OnErr result (self.new ≡ self.old) };

    /// Adds the checkpoint of a step, or of a partition of it.
    ///
    /// # Errors
    ///
    /// The first of these that applies, or `OutOfMemory`:
    /// - `NoOwner`: its job instance has no row;
    /// - `Taken`: the step, or the partition, has a checkpoint already.
    fn add_checkpoint(&mut self, row: CheckpointRow) -> Result<(), RowFault>
        ensures taken { IsTaken result (checkpoint_fault (rows self.old) row) }
        ensures added { OnOk result (rows self.new ≡ with_checkpoint (rows self.old) row) }
        ensures unchanged { OnErr result (self.new ≡ self.old) };

    /// Returns the repository that has these rows.
    ///
    /// # Errors
    ///
    /// `NotSettled` if a job execution shows another batch status or exit status than its walk comes
    /// to, or no end although it is finished. Or `OutOfMemory`.
    fn finish(self) -> Result<J, RowFault>
        ensures restored { IfOk result (λ made. J.rows made ≡ rows self) }
        ensures settled { MatchResult result
            (λ _. AreSettled (rows self).catalogue (rows self).works (rows self).executions)
            (λ fault. fault ≢ RowFault.OutOfMemory
            → AreSettled (rows self).catalogue (rows self).works (rows self).executions → ⊥) };
}
