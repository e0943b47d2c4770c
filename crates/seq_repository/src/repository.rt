ghost use Rattle.std.specs.Prelude.{◌≡◌, ◌≤◌, [], IfOk, IsOk, OnErr, OnOk, Ok, if◌then◌else◌};
ghost use Rattle.batch_history.specs.Answers.{answer, answer_by};
ghost use Rattle.batch_history.specs.Due.{IsDue};
ghost use Rattle.batch_history.specs.Legal.{IsLegal, after_call, grown, most_numbered};
ghost use Rattle.batch_history.specs.NextRows.{rows_after};
ghost use Rattle.batch_history.specs.Replies.{is_nothing, reply, reply_by};
ghost use Rattle.batch_history.specs.Rows.{History};
ghost use Rattle.seq_repository.specs.Kept.{IsNext, StandsFor, rows_in};

use crate::answers;
use crate::cursors::{KeptCursors, Slot};
use batch_history::{Answer, Call, CountsByStatus, Entry, LastNumbers, Query, Reply};
use batch_ids::{Moment, OutOfMemory, Refusal};
use jsl_model::Catalogue;
use records::Records;
use std::alloc::Global;
use std::collections::{BTreeMap, BTreeSet};
use std::fmt::{self, Debug, Formatter};
use std::marker::Model;

/// A job repository for one caller, of at most `LIMIT` accepted operations. Contracts see its rows.
///
/// It represents a history: a catalogue and the operations that were accepted over it. See Jakarta
/// Batch 2.1, "JobRepository" and "JobOperator".
#[derive(Drop)]
pub struct Repository<const LIMIT: u64> {
    /// The allocator for the rows, replies and answers.
    pub(crate) alloc: Global,
    pub(crate) catalogue: Catalogue,
    pub(crate) count: u64,
    pub(crate) last: LastNumbers,
    pub(crate) records: Records,
    /// The numbers of the job executions that have something to do.
    pub(crate) agenda: BTreeSet<u64>,
    /// The walks of unfinished job executions that were taken up, by their numbers.
    pub(crate) cursors: BTreeMap<u64, Slot>,
}

impl<const LIMIT: u64> Debug for Repository<LIMIT> {
    fn fmt<W: fmt::Write>(&self, f: &mut Formatter<W>) -> fmt::Result {
        f.debug_struct("Repository")
            .field("alloc", &self.alloc)
            .field("catalogue", &self.catalogue)
            .field("count", &self.count)
            .field("last", &self.last)
            .field("records", &self.records)
            .field("agenda", &self.agenda)
            .field(
                "cursors",
                &KeptCursors {
                    slots: &self.cursors,
                },
            )
            .finish()
    }
}

impl<const LIMIT: u64> Model for Repository<LIMIT> {
    ghost use Rattle.seq_repository.specs.Kept.{Kept, IsRepository};
    ghost use Rattle.jsl_model.specs.contracts.element.Body as body;
    ghost use Rattle.std.specs.Coded.{codes};

    ghost Value = { Kept };

    ghost coded = { Prim.hlevel (codes, body.the_row.coded) };

    ghost view = { λ r. record { catalogue = r.catalogue; count = r.count; last = r.last; records = r.records } };

    ghost invariant = { λ r. IsRepository LIMIT r.agenda.keys r.cursors record { catalogue = r.catalogue; count = r.count; last = r.last; records = r.records } };
}

impl<const LIMIT: u64> Repository<LIMIT> {
    /// Creates a repository without operations. It represents the empty history over its catalogue.
    ///
    /// `LIMIT` is at most 4,294,967,296. All memory that the repository takes later comes from
    /// `alloc`.
    ///
    /// # Errors
    ///
    /// None today: an empty repository takes no memory.
    pub fn new(alloc: Global, catalogue: Catalogue) -> Result<Repository<LIMIT>, OutOfMemory>
        requires { LIMIT ≤ most_numbered }
        ensures stands { IfOk result (λ made. StandsFor made
            record { catalogue = catalogue; log = [] }) }
        ensures made { IsOk result }
    {
        Ok(Repository {
            alloc,
            catalogue,
            count: 0,
            last: LastNumbers {
                instance: 0,
                execution: 0,
                work: 0,
            },
            records: Records::new(alloc),
            agenda: BTreeSet::new(alloc),
            cursors: BTreeMap::new(alloc),
        })
    }

    /// Returns the number of accepted operations.
    pub fn len(&self) -> u64
        ensures { result ≡ self.now.count }
    {
        self.count
    }

    /// Returns the reply that `apply` would return to a call of the session `who`. Nothing changes.
    ///
    /// # Errors
    ///
    /// The first refusal of the call that applies. After the call's own refusals, `RepositoryFull`
    /// if `LIMIT` operations were accepted. It may return `OutOfMemory` instead of any of these
    /// results.
    #[tactic(auto, using(crate::proofs::Standing::due_for))]
    pub fn preview(&self, who: u64, call: &Call) -> Result<Reply, Refusal>
        ensures { (h : History) → StandsFor self.now h → IsDue result (reply LIMIT h who call.now) }
    {
        self.reply(who, call)
    }

    /// Returns the reply to a call of the session `who` at this moment, and enters the call if it
    /// is accepted. A call with the reply Nothing is not entered.
    ///
    /// docs/PERFORMANCE.md, "Where the time goes now", says what each call walks over.
    ///
    /// # Errors
    ///
    /// The first refusal of the call that applies. After the call's own refusals, `RepositoryFull`
    /// if `LIMIT` operations were accepted. It may return `OutOfMemory` instead of any of these
    /// results. A refused call changes nothing.
    #[tactic(auto, using(crate::proofs::Standing::due_for, crate::proofs::Standing::stands_call))]
    pub fn apply(&mut self, who: u64, call: &Call, at: Moment) -> Result<Reply, Refusal>
        ensures reply { (h : History) → StandsFor self.old h
            → IsDue result (reply LIMIT h who call.now) }
        ensures after { (h : History) → IsLegal LIMIT h → StandsFor self.old h
            → IfOk result (λ reply. StandsFor self.new (after_call h who call.now at reply)) }
        ensures refused { OnErr result (self.new ≡ self.old) }
    {
        self.act_by_rows(who, call, at)
    }

    /// Returns the reply to a call of the session `who` at this moment, and enters the call if it
    /// is accepted, as `apply` does. Contracts say what that does to the rows, and not to a history
    /// that they come from.
    ///
    /// # Errors
    ///
    /// As those of `apply`. A refused call changes nothing.
    #[tactic(auto, using(crate::proofs::Replying::accepted_room))]
    pub fn act_by_rows(&mut self, who: u64, call: &Call, at: Moment) -> Result<Reply, Refusal>
        ensures due { IsDue result (reply_by LIMIT (rows_in self.old) who call.now) }
        ensures rows { IfOk result (λ reply. rows_in self.new
            ≡ (if is_nothing reply then rows_in self.old else rows_after (rows_in self.old) record {
              who = who;
              call = call.now;
              at = at;
              reply = reply;
            })) }
        ensures refused { OnErr result (self.new ≡ self.old) }
    {
        let reply = self.reply(who, call)?;
        if reply.is_nothing() {
            return Ok(reply);
        }
        match self.enter_call(who, call, at, &reply) {
            Ok(()) => Ok(reply),
            Err(error) => {
                drop(reply);
                Err(error.into())
            }
        }
    }

    /// Enters an operation that was accepted after the operations before it. It decides nothing
    /// anew. The entry must be legal after some legal history that the repository represents.
    ///
    /// # Errors
    ///
    /// Only `OutOfMemory`, and then nothing has changed.
    #[tactic(auto, using(crate::proofs::Standing::stands_after, crate::proofs::Replying::next_room, crate::proofs::Replying::next_due, crate::proofs::Replying::next_entered))]
    pub fn enter(&mut self, entry: &Entry) -> Result<(), OutOfMemory>
        requires { IsNext LIMIT self.old entry.now }
        ensures stands { (h : History) → IsLegal LIMIT h → StandsFor self.old h
            → OnOk result (StandsFor self.new (grown h entry.now)) }
        ensures unchanged { OnErr result (self.new ≡ self.old) }
    {
        self.enter_call(entry.who, &entry.call, entry.at, &entry.reply)
    }

    /// Returns the answer to a query.
    ///
    /// # Errors
    ///
    /// The query's refusal if it applies. It may return `OutOfMemory` instead of any result.
    #[tactic(auto, using(crate::proofs::Standing::answer_for))]
    pub fn ask(&self, query: &Query) -> Result<Answer, Refusal>
        ensures { (h : History) → StandsFor self.now h → IsDue result (answer h query.now) }
    {
        self.ask_by_rows(query)
    }

    /// Returns the answer to a query, as `ask` does. Contracts say what follows from the rows, and
    /// not from a history that they come from.
    ///
    /// # Errors
    ///
    /// As those of `ask`.
    #[tactic(auto, using(crate::proofs::Metering::within_limit))]
    pub fn ask_by_rows(&self, query: &Query) -> Result<Answer, Refusal>
        ensures { IsDue result (answer_by (rows_in self.now) query.now) }
    {
        answers::answer(self.alloc, &self.catalogue, &self.records, query)
    }

    /// Returns how many job executions have each batch status. It takes no memory and constant
    /// time.
    pub fn status_counts(&self) -> CountsByStatus
        ensures { (h : History) → StandsFor self.now h → answer h Query.StatusCounts ≡ Ok (Answer.StatusCounts result) }
    {
        self.records.counts()
    }
}
