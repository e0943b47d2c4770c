ghost use Rattle.std.specs.Prelude.{◌≡◌, ◌≤◌, [], IfOk, OnOk, replicate, slice_get};
ghost use Rattle.std.specs.Option.{option_copied};
ghost use Rattle.batch_history.specs.Answers.{answer};
ghost use Rattle.batch_history.specs.Due.{IsDue};
ghost use Rattle.batch_history.specs.Legal.{most_operations};
ghost use Rattle.batch_history.specs.Rows.{History};
ghost use Rattle.event_core.specs.Copies.{AreCopies, IsCopy, lengths};
ghost use Rattle.event_core.specs.Worlds.{first, published};

use batch_ids::{OutOfMemory, Refusal};
use jsl_model::Catalogue;
use op_log::{Answer, Book, JobRepository, Query};
use std::alloc::Global;

/// A job repository that has only the first operations of a history, and the number of them.
#[derive(Debug, Drop)]
pub(crate) struct LaggingCopy<J: JobRepository> {
    repository: J,
    entries: u64,
}

impl<J: JobRepository> LaggingCopy<J> {
    /// Returns a copy without operations, over this catalogue.
    fn new(alloc: Global, catalogue: Catalogue) -> Result<LaggingCopy<J>, OutOfMemory>
        requires limit { J.limit ≡ most_operations }
        ensures copy { IfOk result (λ made. IsCopy J.stands record { catalogue = catalogue; log = [] } made) }
        ensures empty { IfOk result (λ made. made.entries ≡ 0) }
    {
        Ok(LaggingCopy {
            repository: J::new(alloc, catalogue)?,
            entries: 0,
        })
    }

    /// Returns the number of operations that the copy has.
    pub(crate) fn len(&self) -> u64
        ensures { result ≡ self.now.entries }
    {
        self.entries
    }

    /// Enters the book's operations that the copy lacks, until it has `upto` or all of them.
    ///
    /// # Errors
    ///
    /// Returns `OutOfMemory` if memory is refused. The copy then has the operations that were
    /// entered before.
    pub(crate) fn take_in(&mut self, book: &Book<J>, upto: u64) -> Result<(), OutOfMemory>
        requires { IsCopy J.stands book.now self.old }
        ensures copy { IsCopy J.stands book.now self.new }
        ensures whole { OnOk result (self.new.entries ≡ published book.now upto self.old.entries) }
        ensures from { self.old.entries ≤ self.new.entries }
        ensures to { self.new.entries ≤ published book.now upto self.old.entries }
    {
        let due = upto.min(book.len() as u64);
        for k in self.entries..due {
            match book.entry(k as usize + 1) {
                Some(entry) => self.repository.enter(entry)?,
                None => unreachable!(),
            }
            self.entries = k + 1;
        }
        Ok(())
    }

    /// Returns the answer to a query after the operations that the copy has.
    ///
    /// # Errors
    ///
    /// The query's refusal if it applies. It may return `OutOfMemory` instead of any result.
    pub(crate) fn ask(&self, query: &Query) -> Result<Answer, Refusal>
        ensures { (h : History) → IsCopy J.stands h self.now
            → IsDue result (answer (first self.now.entries h) query.now) }
    {
        self.repository.ask(query)
    }
}

/// Returns `count` copies without operations, over this catalogue.
pub(crate) fn empty_copies<J: JobRepository>(
    alloc: Global,
    catalogue: &Catalogue,
    count: u64,
) -> Result<Vec<LaggingCopy<J>>, OutOfMemory>
    requires limit { J.limit ≡ most_operations }
    ensures copies { IfOk result (λ made. AreCopies J.stands
        record { catalogue = catalogue.now; log = [] } made.items) }
    ensures lengths { IfOk result (λ made. lengths made.items ≡ replicate count 0) }
{
    let mut copies = Vec::new(alloc);
    for _ in 0..count {
        copies.push(LaggingCopy::new(alloc, catalogue.try_clone()?)?)?;
    }
    Ok(copies)
}

/// Returns the copy with this number, if there is one.
pub(crate) fn copy_at<J: JobRepository>(
    copies: &[LaggingCopy<J>],
    copy: u64,
) -> Option<&LaggingCopy<J>>
    ensures { option_copied result ≡ slice_get copies.now copy }
{
    copies.get(copy as usize)
}
