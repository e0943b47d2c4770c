//! Books and repositories.
ghost use Rattle.std.specs.Prelude.{◌≤◌};
ghost use Rattle.batch_history.specs.Legal.{most_numbered};

use anyhow::{Result, bail};
use batch_ids::Moment;
use call_lines::{
    Answered, Answers, Line, Replied, Script, answer_lines, query_in, tell, tell_refused,
    tell_reply, tell_text, told,
};
use job_repository::JobRepository;
use jsl_json::read_catalogue;
use op_log::{Book, Call, Query};
use script_text::{Command, answer_text, read_command, reply_text};
use std::fmt::Debug;
use std::sync::Wait;

/// A book that answers lines.
#[derive(Drop)]
struct AnsweringBook<J: JobRepository> {
    book: Book<J>,
}

/// A repository that answers lines.
#[derive(Drop)]
struct AnsweringRepository<J: JobRepository> {
    repository: J,
}

impl<J: JobRepository + Debug> Answers for AnsweringBook<J> {
    fn act<R: Wait>(&mut self, _rt: &R, by: u64, call: Call, at: Moment) -> Result<Replied> {
        Ok(self.book.act(by, call, at))
    }

    fn ask<R: Wait>(&mut self, _rt: &R, query: Query) -> Result<Answered> {
        Ok(self.book.ask(&query))
    }

    fn other<R: Wait + Print + AllocGlobal>(&mut self, rt: &R, _line: Line<'_>) -> Result<()> {
        tell(rt, &self.book)
    }
}

/// Copies a reply. A refusal is only printed.
fn tell_copy<R: Print + AllocGlobal>(rt: &R, line: Line<'_>, reply: &Replied) -> Result<()> {
    match reply {
        Ok(reply) => told!(rt, line, reply.try_clone()),
        Err(refusal) => tell(rt, *refusal),
    }
}

/// Prints a text, if there was the memory for it.
fn tell_made<R: Print, E: Drop>(rt: &R, text: std::result::Result<Vec<u8>, E>) -> Result<()> {
    match text {
        Ok(text) => tell_text(rt, text),
        Err(_) => {
            println!(rt; "Err(OutOfMemory)")?;
            Ok(())
        }
    }
}

/// Makes the call of a line that is about a reply: its copy or its text.
fn about_reply<R: Print + AllocGlobal>(rt: &R, line: Line<'_>, reply: &Replied) -> Result<()> {
    let alloc = rt.alloc();
    if line.parted().0 == "reply.try_clone" {
        return tell_copy(rt, line, reply);
    }
    line.mark(alloc);
    let text = reply_text(alloc, reply);
    line.mark(alloc);
    tell_made(rt, text)
}

/// Makes the call of a line that is about a call of a repository: its preview, its copy, or the
/// copy or the text of its reply. The repository stays as it is.
fn about_call<J: JobRepository, R: Print + AllocGlobal>(
    rt: &R,
    line: Line<'_>,
    repository: &mut J,
    by: u64,
    call: &Call,
) -> Result<()> {
    match line.parted().0 {
        "call.try_clone" => told!(rt, line, call.try_clone()),
        "preview" => {
            line.mark(rt.alloc());
            let reply = repository.preview(by, call);
            line.mark(rt.alloc());
            tell_reply(rt, reply)
        }
        _ => {
            let reply = repository.preview(by, call);
            let told = about_reply(rt, line, &reply);
            drop(reply);
            told
        }
    }
}

/// Writes the answer to a query.
fn about_query<J: JobRepository, R: Print + AllocGlobal>(
    rt: &R,
    line: Line<'_>,
    repository: &mut J,
    query: &Query,
) -> Result<()> {
    let alloc = rt.alloc();
    let answer = repository.ask(query);
    line.mark(alloc);
    let text = answer_text(alloc, &answer);
    line.mark(alloc);
    drop(answer);
    tell_made(rt, text)
}

/// Makes the call of a line that is about the call or the query of a command.
fn about_command<J: JobRepository, R: Print + AllocGlobal>(
    rt: &R,
    line: Line<'_>,
    repository: &mut J,
    command: &Command,
) -> Result<()> {
    match command {
        Command::Act { by, call, .. } => about_call(rt, line, repository, *by, call),
        Command::Ask(query) => about_query(rt, line, repository, query),
        _ => bail!("{}: no line of a repository", line.text),
    }
}

impl<J: JobRepository + Debug> Answers for AnsweringRepository<J> {
    fn act<R: Wait>(&mut self, _rt: &R, by: u64, call: Call, at: Moment) -> Result<Replied> {
        Ok(self.repository.apply(by, &call, at))
    }

    fn ask<R: Wait>(&mut self, _rt: &R, query: Query) -> Result<Answered> {
        Ok(self.repository.ask(&query))
    }

    /// `show`, or a word about a call or a query, which follows it.
    fn other<R: Wait + Print + AllocGlobal>(&mut self, rt: &R, line: Line<'_>) -> Result<()> {
        let (word, rest) = line.parted();
        if word == "show" {
            return tell(rt, &self.repository);
        }
        let command = read_command(rt.alloc(), rest.as_bytes())?;
        let told = about_command(rt, line, &mut self.repository, &command);
        drop(command);
        told
    }
}

/// Runs a script by a book.
pub fn run_book<J: JobRepository + Debug, R: Wait + Print + AllocGlobal>(
    rt: &R,
    script: Script<'_>,
) -> Result<bool>
    requires { J.limit ≤ most_numbered }
{
    let catalogue = read_catalogue(rt.alloc(), script.first.text.as_bytes())?;
    script.first.mark(rt.alloc());
    let made = Book::<J>::new(rt.alloc(), catalogue);
    script.first.mark(rt.alloc());
    match made {
        Ok(book) => {
            let mut answering = AnsweringBook { book };
            let answered = answer_lines(rt, &mut answering, script.lines);
            drop(answering);
            answered?;
            Ok(true)
        }
        Err(_) => tell_refused(rt),
    }
}

/// Runs a script by a repository.
pub fn run_repository<J: JobRepository + Debug, R: Wait + Print + AllocGlobal>(
    rt: &R,
    script: Script<'_>,
) -> Result<bool>
    requires { J.limit ≤ most_numbered }
{
    let catalogue = read_catalogue(rt.alloc(), script.first.text.as_bytes())?;
    script.first.mark(rt.alloc());
    let made = J::new(rt.alloc(), catalogue);
    script.first.mark(rt.alloc());
    match made {
        Ok(repository) => {
            let mut answering = AnsweringRepository { repository };
            let answered = answer_lines(rt, &mut answering, script.lines);
            drop(answering);
            answered?;
            Ok(true)
        }
        Err(_) => tell_refused(rt),
    }
}
