ghost use Rattle.std.specs.Prelude.{◌≡◌, ◌≤◌, [], ℕ, List, IfOk, IsOk, OnErr, OnOk, Ok, length};
ghost use Rattle.batch_history.specs.Answers.{answer};
ghost use Rattle.batch_history.specs.Due.{IsDue};
ghost use Rattle.batch_history.specs.Legal.{IsLegal, after_call, grown, most_numbered};
ghost use Rattle.batch_history.specs.Replies.{reply};
ghost use Rattle.batch_history.specs.Rows.{History, history};
ghost use Rattle.jsl_model.specs.Jobs.{JobTree};

use batch_history::{Answer, Call, CountsByStatus, Entry, Query, Reply};
use batch_ids::{Moment, OutOfMemory, Refusal};
use jsl_model::Catalogue;
use std::alloc::Global;

/// A job repository for one caller. It represents histories: a catalogue and the operations that
/// were accepted over it. See Jakarta Batch 2.1, "JobRepository" and "JobOperator".
pub trait JobRepository: Drop {
    /// Relates a repository to the histories that it represents.
    ghost stands: { Self → History → Type 0 };

    /// The jobs of its catalogue.
    ghost jobs: { Self → List JobTree };

    /// The most operations that it accepts.
    ghost limit: { ℕ };

    /// Creates a repository without operations over this catalogue. The limit is at most
    /// 4,294,967,296. All memory that the repository takes later comes from `alloc`.
    ///
    /// # Errors
    ///
    /// None: an empty repository takes no memory.
    fn new(alloc: Global, catalogue: Catalogue) -> Result<Self, OutOfMemory>
        requires { limit ≤ most_numbered }
        ensures stands { IfOk result (λ made. stands made (history catalogue [])) }
        ensures made { IsOk result };

    /// Returns the number of accepted operations. It takes no memory.
    fn len(&self) -> u64
        ensures { (h : History) → stands self.now h → result ≡ length h.log };

    /// Returns the reply that `apply` would return to a call of the session `who`. Nothing changes.
    ///
    /// # Errors
    ///
    /// The first refusal of the call that applies. After the call's own refusals, `RepositoryFull`
    /// if as many operations were accepted as the limit says. It may return `OutOfMemory` instead
    /// of any of these results.
    fn preview(&self, who: u64, call: &Call) -> Result<Reply, Refusal>
        ensures { (h : History) → stands self.now h → IsDue result (reply limit h who call.now) };

    /// Returns the reply to a call of the session `who` at this moment, and enters the call if it
    /// is accepted. A call with the reply Nothing is not entered.
    ///
    /// # Errors
    ///
    /// As those of `preview`. A refused call changes nothing.
    fn apply(&mut self, who: u64, call: &Call, at: Moment) -> Result<Reply, Refusal>
        ensures reply { (h : History) → stands self.old h
            → IsDue result (reply limit h who call.now) }
        ensures after { (h : History) → IsLegal limit h → stands self.old h
            → IfOk result (λ reply. stands self.new (after_call h who call.now at reply)) }
        ensures refused { OnErr result (self.new ≡ self.old) };

    /// Enters an operation that was accepted after the operations before it. It decides nothing
    /// anew. The entry must be legal after some legal history that the repository represents.
    ///
    /// # Errors
    ///
    /// Only `OutOfMemory`, and then nothing has changed.
    fn enter(&mut self, entry: &Entry) -> Result<(), OutOfMemory>
        requires { (h : History) × stands self.old h × IsLegal limit (grown h entry.now) }
        ensures stands { (h : History) → IsLegal limit h → stands self.old h
            → OnOk result (stands self.new (grown h entry.now)) }
        ensures unchanged { OnErr result (self.new ≡ self.old) };

    /// Returns the answer to a query.
    ///
    /// # Errors
    ///
    /// The query's refusal if it applies. It may return `OutOfMemory` instead of any result.
    fn ask(&self, query: &Query) -> Result<Answer, Refusal>
        ensures { (h : History) → stands self.now h → IsDue result (answer h query.now) };

    /// Returns how many job executions have each batch status. It takes no memory and constant
    /// time.
    fn status_counts(&self) -> CountsByStatus
        ensures { (h : History) → stands self.now h
            → answer h Query.StatusCounts ≡ Ok (Answer.StatusCounts result) };

    /// The histories that a repository represents are over its catalogue.
    ghost over: { (r : Self) (h : History) → stands r h → jobs r ≡ h.catalogue };
}
