ghost use Rattle.std.specs.Prelude.{◌≡◌, ◌≤◌, [], List, ℕ, IfOk, IsOk, IsTrue, OnErr, OnOk};
ghost use Rattle.batch_history.specs.Answers.{answer_by};
ghost use Rattle.batch_history.specs.Due.{IsDue};
ghost use Rattle.batch_history.specs.Legal.{most_numbered};
ghost use Rattle.batch_history.specs.Replies.{reply_by};
ghost use Rattle.batch_history.specs.declared.rows.CheckpointRow.{CheckpointRow};
ghost use Rattle.batch_history.specs.Rows.{Rows, history, rows as rows_of_history};
ghost use Rattle.row_repository.specs.Calls.{rows_after_reply};
ghost use Rattle.row_repository.specs.Shown.{Shown, mark_in, with_shown_rows};

use crate::sink::{NotTaken, RowSink};
use batch_history::{Answer, Call, LastNumbers, Query, Reply};
use batch_ids::{Moment, OutOfMemory, Refusal};
use jsl_model::Catalogue;
use std::alloc::Global;

/// A job repository for one caller, as contracts see it by its rows. See Jakarta Batch 2.1,
/// "JobRepository" and "JobOperator".
///
/// No call and no query tells two histories with equal rows apart. So what holds of the rows holds
/// of each history that has them.
pub trait RowRepository: Drop {
    /// The rows of a repository.
    ghost rows: { Self → Rows };

    /// The most operations that it accepts.
    ghost limit: { ℕ };

    /// Creates a repository without operations over this catalogue. The limit is at most
    /// 4,294,967,296. All memory that the repository takes later comes from `alloc`.
    ///
    /// # Errors
    ///
    /// None: an empty repository takes no memory.
    fn new(alloc: Global, catalogue: Catalogue) -> Result<Self, OutOfMemory>
        requires { limit ≤ most_numbered }
        ensures begun { IfOk result (λ made. rows made ≡ rows_of_history (history catalogue [])) }
        ensures made { IsOk result };

    /// Returns the number of accepted operations. It takes no memory.
    fn len(&self) -> u64
        ensures { result ≡ (rows self.now).count };

    /// Returns the reply to a call of the session `who` at this moment, and enters the call if it
    /// is accepted. A call with the reply Nothing is not entered.
    ///
    /// # Errors
    ///
    /// The first refusal of the call that applies. After the call's own refusals, `RepositoryFull`
    /// if as many operations were accepted as the limit says. It may return `OutOfMemory` instead
    /// of any of these results. A refused call changes nothing.
    fn apply(&mut self, who: u64, call: &Call, at: Moment) -> Result<Reply, Refusal>
        ensures due { IsDue result (reply_by limit (rows self.old) who call.now) }
        ensures after { IfOk result (λ reply. rows self.new
            ≡ rows_after_reply (rows self.old) who call.now at reply) }
        ensures refused { OnErr result (self.new ≡ self.old) };

    /// Returns the answer to a query.
    ///
    /// # Errors
    ///
    /// The query's refusal if it applies. It may return `OutOfMemory` instead of any result.
    fn ask(&self, query: &Query) -> Result<Answer, Refusal>
        ensures { IsDue result (answer_by (rows self.now) query.now) };

    /// Returns the last numbers that were given. It takes no memory.
    fn last(&self) -> LastNumbers
        ensures { result ≡ (rows self.now).last };

    /// Shows all job executions, work items and checkpoints, the former two by rising number.
    ///
    /// # Errors
    ///
    /// `NotTaken` if one wasn't taken, or if memory was refused.
    fn show_rows<S: RowSink>(&self, sink: &mut S) -> Result<(), NotTaken>
        ensures { OnOk result ((marks : List CheckpointRow) × ((rows self.now).checkpoint ≡ mark_in marks)
            × ((earlier : S) (s : Shown) → S.taken earlier s sink.old
            → S.taken earlier (with_shown_rows s (rows self.now) marks) sink.new)) };

    /// Checks whether another repository has the same job instances. It takes no memory.
    fn has_instances_of(&self, other: &Self) -> bool
        ensures { IsTrue result → (rows self.now).instances ≡ (rows other.now).instances };
}
