//! States of read copies by themselves, behind a book whose operations they absorb.
ghost use Rattle.std.specs.Prelude.{◌≡◌, slice_get, IfOk};
ghost use Rattle.batch_history.specs.Legal.{IsLegal, most_operations};

use anyhow::{Result, bail};
use batch_ids::Moment;
use batch_service::{Book, RepositoryState, StatusCounts};
use call_lines::{
    Answered, Answers, Line, Made, Replied, Script, answer_lines, tell, tell_refused, told,
};
use jsl_json::read_catalogue;
use op_log::{Call, Entry, Query};
use read_copies::Absorb;
use std::alloc::Global;
use std::marker::Model;
use std::sync::Wait;

/// A book, and two states that have the first of its operations. Contracts see the number of those
/// that the counts have.
#[derive(Drop)]
struct Behind {
    book: Book<1_000_000>,
    copy: RepositoryState,
    counts: StatusCounts,
    counted: u64,
}

impl Model for Behind {
    ghost use Rattle.std.specs.Prelude.{ℕ};
    ghost use Rattle.refused_calls.specs.Behind.{AreBehind};

    ghost Value = { ℕ };

    ghost view = { λ b. b.counted };

    ghost invariant = { λ b. AreBehind b.book b.copy.repository b.counts b.counted };
}

/// Returns the operation of a book with this number, from 0 on.
fn operation_of(book: &Book<1_000_000>, number: u64) -> Result<&Entry>
    ensures there { IfOk result (λ entry. slice_get book.now.log number ≡ Some entry.now) }
    ensures legal { IfOk result (λ _. IsLegal most_operations book.now) }
{
    if number >= book.len() as u64 {
        bail!("the book has no operation {number}");
    }
    match book.entry(number as usize + 1) {
        Some(entry) => Ok(entry),
        None => bail!("the book has no entry {number}"),
    }
}

impl Behind {
    /// Enters the next operation into the copy after a preview of its call.
    fn enter(&mut self, alloc: Global, line: Line<'_>) -> Result<Made<()>> {
        let entry = operation_of(&self.book, self.copy.repository.len())?;
        drop(self.copy.repository.preview(entry.who, &entry.call));
        line.mark(alloc);
        let entered = self.copy.repository.enter(entry);
        line.mark(alloc);
        Ok(entered)
    }

    /// Lets the copy absorb the next operation, as a state of a read copy.
    fn absorb(&mut self, alloc: Global, line: Line<'_>) -> Result<Made<()>> {
        let entry = operation_of(&self.book, self.copy.repository.len())?;
        line.mark(alloc);
        let absorbed = self.copy.absorb(entry);
        line.mark(alloc);
        Ok(absorbed)
    }

    /// Lets the counts absorb the next operation.
    fn count(&mut self, alloc: Global, line: Line<'_>) -> Result<Made<()>> {
        let entry = operation_of(&self.book, self.counted)?;
        line.mark(alloc);
        let absorbed = self.counts.absorb(entry);
        line.mark(alloc);
        match absorbed {
            Ok(()) => {
                self.counted += 1;
                Ok(Ok(()))
            }
            Err(error) => Ok(Err(error)),
        }
    }

    /// Prints how many operations were counted, and the counts.
    fn tell_counts<R: Print + AllocGlobal>(&mut self, rt: &R, line: Line<'_>) -> Result<()> {
        let operations = self.book.len();
        println!(rt; "{operations} operations, of them {} counted", self.counted)?;
        told!(rt, line, self.counts.tell(&()))
    }
}

impl Answers for Behind {
    /// Makes the call by the book.
    fn act<R: Wait>(&mut self, _rt: &R, by: u64, call: Call, at: Moment) -> Result<Replied> {
        Ok(self.book.act(by, call, at))
    }

    /// Asks the copy, which has to have all operations.
    fn ask<R: Wait>(&mut self, _rt: &R, query: Query) -> Result<Answered> {
        if self.copy.repository.len() < self.book.len() as u64 {
            drop(query);
            bail!("the copy lacks operations");
        }
        Ok(self.copy.tell(&query))
    }

    fn other<R: Wait + Print + AllocGlobal>(&mut self, rt: &R, line: Line<'_>) -> Result<()> {
        match line.text {
            "enter" => tell(rt, self.enter(rt.alloc(), line)?),
            "absorb" => tell(rt, self.absorb(rt.alloc(), line)?),
            "count" => tell(rt, self.count(rt.alloc(), line)?),
            "counts" => self.tell_counts(rt, line),
            "show" => tell(rt, &self.copy.repository),
            _ => bail!("{}: no line of a state", line.text),
        }
    }
}

/// Runs a script by a book and two states.
pub(crate) fn run_states<R: Wait + Print + AllocGlobal>(
    rt: &R,
    script: Script<'_>,
) -> Result<bool> {
    let alloc = rt.alloc();
    let catalogue = read_catalogue(alloc, script.first.text.as_bytes())?;
    let of_copy = catalogue.try_clone()?;
    let of_counts = catalogue.try_clone()?;
    let book = Book::new(alloc, catalogue);
    let copy = RepositoryState::begin(alloc, of_copy);
    script.first.mark(alloc);
    let counts = StatusCounts::begin(alloc, of_counts);
    script.first.mark(alloc);
    match (book, copy, counts) {
        (Ok(book), Ok(copy), Ok(counts)) => {
            let mut behind = Behind {
                book,
                copy,
                counts,
                counted: 0,
            };
            let answered = answer_lines(rt, &mut behind, script.lines);
            drop(behind);
            answered?;
            Ok(true)
        }
        _ => tell_refused(rt),
    }
}
