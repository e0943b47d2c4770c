ghost use Rattle.std.specs.Prelude.{◌≡◌, ◌≤◌, ◌<◌, ◌-◌, [], length, slice_get, vec_len, vec_capacity, IfOk, OnOk, OnErr, None, Ok, true, false};
ghost use Rattle.std.specs.Option.{option_copied};
ghost use Rattle.batch_history.specs.Answers.{answer};
ghost use Rattle.batch_history.specs.Due.{IsDue};
ghost use Rattle.batch_history.specs.Legal.{after_call, grown, most_numbered, IsLegal};
ghost use Rattle.batch_history.specs.Replies.{is_nothing, reply};
ghost use Rattle.batch_history.specs.Rows.{History};
ghost use Rattle.op_log.specs.Replied.{replied};

use batch_ids::{Moment, OutOfMemory, Refusal};
use job_repository::{Answer, Call, Entry, JobRepository, Query, Reply};
use jsl_model::Catalogue;
use std::alloc::Global;
use std::marker::Model;
use std::mem::replace;

/// A job repository, with the log of the operations that it accepted. Contracts see the history:
/// the catalogue and the log, in the order of acceptance.
///
/// Its type guarantees that the log is legal: each entry has the reply that its call was due after
/// the entries before it. It also guarantees that the repository represents the history.
#[derive(Debug, Drop)]
pub struct Book<J: JobRepository> {
    repository: J,
    log: Vec<Entry>,
}

impl<J: JobRepository> Model for Book<J> {
    ghost use Rattle.batch_history.specs.Legal.{IsLegal};
    ghost use Rattle.batch_history.specs.Rows.{History};
    ghost use Rattle.jsl_model.specs.contracts.element.Body as body;
    ghost use Rattle.std.specs.Coded.{codes};

    ghost Value = { History };

    ghost coded = { Prim.hlevel (codes, body.the_row.coded) };

    ghost view = { λ b. record { catalogue = J.jobs b.repository; log = b.log.items } };

    ghost invariant = { λ b. J.stands b.repository record { catalogue = J.jobs b.repository; log = b.log.items } × IsLegal J.limit record { catalogue = J.jobs b.repository; log = b.log.items } };
}

impl<J: JobRepository> Book<J> {
    /// Creates a book with an empty log over this catalogue.
    ///
    /// The repository's limit is at most 4,294,967,296. All memory that the book takes later comes
    /// from `alloc`.
    ///
    /// # Errors
    ///
    /// None today: an empty book takes no memory.
    pub fn new(alloc: Global, catalogue: Catalogue) -> Result<Book<J>, OutOfMemory>
        requires { J.limit ≤ most_numbered }
        ensures { result ≡ Ok record { catalogue = catalogue; log = [] } }
    {
        let repository = J::new(alloc, catalogue)?;
        Ok(Book {
            repository,
            log: Vec::new(alloc),
        })
    }

    /// Returns the number of accepted operations. It takes no memory.
    pub fn len(&self) -> usize
        ensures length { result ≡ length self.now.log }
        ensures legal { IsLegal J.limit self.now }
    {
        self.log.len()
    }

    /// Returns the entry with this number, counted from 1, if there is one. It takes no memory.
    pub fn entry(&self, k: usize) -> Option<&Entry>
        ensures none { k ≡ 0 → option_copied result ≡ None }
        ensures some { 0 < k → option_copied result ≡ slice_get self.now.log (k - 1) }
    {
        if k == 0 { None } else { self.log.get(k - 1) }
    }

    /// Returns the reply to a call of the session `who` at this moment, and appends its entry if it
    /// is accepted. A call with the reply Nothing makes no entry. The reply is decided once, and
    /// all growths come before the first change.
    ///
    /// The log grows by doubling. So for the log, an accepted call takes constant time on average,
    /// and at worst time proportional to the length of the log. In addition, it takes the time and
    /// memory of `JobRepository::apply`.
    ///
    /// # Errors
    ///
    /// The first refusal of the call that applies. After the call's own refusals, `RepositoryFull`
    /// if the log has as many entries as the limit says. It may return `OutOfMemory` instead of any
    /// of these results. A refused call changes nothing.
    pub fn act(&mut self, who: u64, call: Call, at: Moment) -> Result<Reply, Refusal>
        ensures reply { IsDue result (reply J.limit self.old who call) }
        ensures after { IfOk result (λ reply. self.new ≡ after_call self.old who call at reply) }
        ensures refused { OnErr result (self.new ≡ self.old) }
    {
        let mut entry = Entry {
            who,
            call,
            at,
            reply: Reply::Nothing,
        };
        match enter_due(&mut self.repository, &mut self.log, &mut entry) {
            Ok(reply) => {
                if reply.is_nothing() {
                    drop(entry);
                } else {
                    self.log.push_reserved(entry);
                }
                Ok(reply)
            }
            Err(refusal) => {
                drop(entry);
                Err(refusal)
            }
        }
    }

    /// Returns the answer to a query about the log so far.
    ///
    /// # Errors
    ///
    /// The query's refusal if it applies. It may return `OutOfMemory` instead of any result.
    pub fn ask(&self, query: &Query) -> Result<Answer, Refusal>
        ensures { IsDue result (answer self.now query.now) }
    {
        self.repository.ask(query)
    }
}

/// Decides an entry's call. Enters it with its reply if the call is accepted and the reply is not
/// Nothing. The log then has room for one more entry, and doesn't change.
fn enter_due<J: JobRepository>(
    repository: &mut J,
    log: &mut Vec<Entry>,
    entry: &mut Entry,
) -> Result<Reply, Refusal>
    requires stands { (h : History) × J.stands repository.old h × IsLegal J.limit h }
    ensures due { (h : History) → J.stands repository.old h
        → IsDue result (reply J.limit h entry.old.who entry.old.call) }
    ensures log { log.new.items ≡ log.old.items }
    ensures room { OnOk result (vec_len log.new < vec_capacity log.new) }
    ensures replied { IfOk result (λ given. is_nothing given ≡ false
        → entry.new ≡ replied entry.old given) }
    ensures entered { IfOk result (λ given. is_nothing given ≡ false → (h : History)
        → IsLegal J.limit h → J.stands repository.old h
        → J.stands repository.new (grown h (replied entry.old given))) }
    ensures nothing { IfOk result (λ given. is_nothing given ≡ true
        → repository.new ≡ repository.old) }
    ensures refused { OnErr result (repository.new ≡ repository.old) }
{
    let reply = due_with_room(repository, log, entry)?;
    match enter_accepted(repository, entry, &reply) {
        Ok(()) => Ok(reply),
        Err(refused) => {
            drop(reply);
            Err(refused.into())
        }
    }
}

/// Returns the reply that an entry's call is due. The log then has room for one more entry, and
/// doesn't change.
fn due_with_room<J: JobRepository>(
    repository: &J,
    log: &mut Vec<Entry>,
    entry: &Entry,
) -> Result<Reply, Refusal>
    ensures due { (h : History) → J.stands repository.now h
        → IsDue result (reply J.limit h entry.now.who entry.now.call) }
    ensures log { log.new.items ≡ log.old.items }
    ensures room { OnOk result (vec_len log.new < vec_capacity log.new) }
{
    log.reserve(1)?;
    repository.preview(entry.who, &entry.call)
}

/// Enters an entry with the reply that its call is due, unless the reply is Nothing.
fn enter_accepted<J: JobRepository>(
    repository: &mut J,
    entry: &mut Entry,
    reply: &Reply,
) -> Result<(), OutOfMemory>
    requires next { is_nothing reply.now ≡ false
        → (h : History) × J.stands repository.old h × IsLegal J.limit (grown h (replied entry.old reply.now)) }
    ensures replied { OnOk result (is_nothing reply.now ≡ false
        → entry.new ≡ replied entry.old reply.now) }
    ensures entered { OnOk result (is_nothing reply.now ≡ false → (h : History)
        → IsLegal J.limit h → J.stands repository.old h
        → J.stands repository.new (grown h (replied entry.old reply.now))) }
    ensures nothing { OnOk result (is_nothing reply.now ≡ true
        → repository.new ≡ repository.old) }
    ensures refused { OnErr result (repository.new ≡ repository.old) }
{
    if reply.is_nothing() {
        return Ok(());
    }
    drop(replace(&mut entry.reply, reply.try_clone()?));
    repository.enter(entry)
}
