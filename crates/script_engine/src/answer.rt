ghost use Rattle.std.specs.Prelude.{◌≡◌, ◌≤◌, List, ℕ, Result, Err, IfOk, OnOk, length};
ghost use Rattle.batch_history.specs.Due.{IsDue};
ghost use Rattle.script_lines.specs.Lines.{Shows};
ghost use Rattle.script_lines.specs.declared.line.TheConstants.{MAX_LINE};
ghost use Rattle.script_text.specs.declared.command.Command.TheVariants.{Act, Ask};
ghost use Rattle.script_text.specs.Answers.{answer_text};
ghost use Rattle.script_text.specs.Replies.{bad_line_text, reply_text};
ghost use Rattle.script_engine.specs.ByRows.{kind_by, kind_of, line_kind_by, line_rows_by, line_text_by, rows_by, text_by};
ghost use Rattle.script_engine.specs.declared.summary.Kind.TheVariants.{Refused, Bad};

use crate::summary::Kind;
use batch_ids::{Moment, OutOfMemory, Refusal};
use row_repository::{Answer, Call, Query, Reply, RowRepository};
use script_lines::Line;
use script_text::{Command, CommandReader, answer_text, bad_line_text, reply_text};
use std::alloc::{AllocError, Global};

/// The reply to a line, with the line's kind.
#[derive(Drop)]
pub struct Answered {
    /// The text, with its line feed. It is empty for an empty line.
    pub text: Vec<u8>,
    /// The kind of the line.
    pub kind: Kind,
}

/// Replies to a line by the rows. After an `Err` the repository's rows are not determined.
#[tactic(auto, unfolding(crate::specs::ByRows::line_text_by, crate::specs::ByRows::line_rows_by, crate::specs::ByRows::line_kind_by))]
pub(crate) fn answer<J: RowRepository>(
    alloc: Global,
    commands: &mut CommandReader,
    repository: &mut J,
    line: &Line,
) -> Result<Answered, OutOfMemory>
    ensures text { IfOk result (λ answered. (bytes : List ℕ) → Shows line.now bytes
        → answered.text.items ≡ line_text_by J.limit (J.rows repository.old) bytes) }
    ensures kind { IfOk result (λ answered. (bytes : List ℕ) → Shows line.now bytes
        → answered.kind ≡ line_kind_by J.limit (J.rows repository.old) bytes) }
    ensures after { OnOk result ((bytes : List ℕ) → Shows line.now bytes
        → J.rows repository.new ≡ line_rows_by J.limit (J.rows repository.old) bytes) }
{
    match line {
        Line::Whole(bytes) => answer_whole(alloc, commands, repository, bytes),
        Line::TooLong => reply_bad_line(alloc),
    }
}

/// Replies to a whole line, without its line feed, by the rows of the operations before it. The line
/// has at most [`MAX_LINE`](crate::MAX_LINE) bytes. An empty line has an empty reply.
///
/// # Errors
///
/// Returns `OutOfMemory` if memory is refused. The repository's rows are not determined then.
#[tactic(auto, unfolding(crate::specs::ByRows::line_text_by, crate::specs::ByRows::line_rows_by, crate::specs::ByRows::line_kind_by))]
pub fn answer_whole<J: RowRepository>(
    alloc: Global,
    commands: &mut CommandReader,
    repository: &mut J,
    bytes: &[u8],
) -> Result<Answered, OutOfMemory>
    ensures text { length bytes.now ≤ MAX_LINE → IfOk result (λ answered. answered.text.items
        ≡ line_text_by J.limit (J.rows repository.old) bytes.now) }
    ensures kind { length bytes.now ≤ MAX_LINE → IfOk result (λ answered. answered.kind
        ≡ line_kind_by J.limit (J.rows repository.old) bytes.now) }
    ensures after { length bytes.now ≤ MAX_LINE → OnOk result (J.rows repository.new
        ≡ line_rows_by J.limit (J.rows repository.old) bytes.now) }
{
    if bytes.is_empty() {
        return Ok(Answered {
            text: Vec::new(alloc),
            kind: Kind::Empty,
        });
    }
    let command = commands.read(bytes)?;
    answer_command(alloc, repository, command)
}

/// Replies to a command.
fn answer_command<J: RowRepository>(
    alloc: Global,
    repository: &mut J,
    command: Command,
) -> Result<Answered, OutOfMemory>
    ensures text { IfOk result (λ answered. answered.text.items
        ≡ text_by J.limit (J.rows repository.old) command) }
    ensures kind { IfOk result (λ answered. answered.kind
        ≡ kind_by J.limit (J.rows repository.old) command) }
    ensures after { OnOk result (J.rows repository.new
        ≡ rows_by J.limit (J.rows repository.old) command) }
{
    match command {
        Command::BadLine => reply_bad_line(alloc),
        Command::TextTooLong => reply_refusal(alloc, Refusal::TextTooLong),
        Command::Act { by, at, call } => act(alloc, repository, by, at, call),
        Command::Ask(query) => ask(alloc, repository, &query),
    }
}

/// Returns the reply to a line that is no command.
fn reply_bad_line(alloc: Global) -> Result<Answered, OutOfMemory>
    ensures { IfOk result (λ answered. (answered.text.items ≡ bad_line_text) × (answered.kind ≡ Bad)) }
{
    Ok(Answered {
        text: bad_line_text(alloc)?,
        kind: Kind::Bad,
    })
}

/// Returns the reply to a call that is refused.
fn reply_refusal(alloc: Global, refusal: Refusal) -> Result<Answered, OutOfMemory>
    ensures { IfOk result (λ answered. (answered.text.items ≡ reply_text (Err refusal)) × (answered.kind ≡ Refused)) }
{
    let refused = Err(refusal);
    let answered = reply_line(alloc, &refused);
    drop(refused);
    answered
}

/// Returns the line of a reply.
fn reply_line(alloc: Global, reply: &Result<Reply, Refusal>) -> Result<Answered, OutOfMemory>
    ensures known { IfOk result (λ answered. (answered.text.items ≡ reply_text reply.now) × (answered.kind ≡ kind_of reply.now)) }
    ensures due { (due : Result Reply Refusal) → IsDue reply.now due → OnOk result (reply.now ≡ due) }
{
    Ok(Answered {
        kind: kind_of(reply)?,
        text: reply_text(alloc, reply)?,
    })
}

/// Returns the kind of a line with this reply. Returns `OutOfMemory` if the reply is that refusal.
fn kind_of<R>(reply: &Result<R, Refusal>) -> Result<Kind, OutOfMemory>
    ensures known { IfOk result (λ kind. kind ≡ kind_of reply.now) }
    ensures due { (due : Result R Refusal) → IsDue reply.now due → OnOk result (reply.now ≡ due) }
{
    match reply {
        Ok(_) => Ok(Kind::Accepted),
        Err(Refusal::OutOfMemory) => Err(AllocError),
        Err(_) => Ok(Kind::Refused),
    }
}

/// Replies to a call.
fn act<J: RowRepository>(
    alloc: Global,
    repository: &mut J,
    by: u64,
    at: Moment,
    call: Call,
) -> Result<Answered, OutOfMemory>
    ensures text { IfOk result (λ answered. answered.text.items
        ≡ text_by J.limit (J.rows repository.old) (Act by at call)) }
    ensures kind { IfOk result (λ answered. answered.kind
        ≡ kind_by J.limit (J.rows repository.old) (Act by at call)) }
    ensures after { OnOk result (J.rows repository.new
        ≡ rows_by J.limit (J.rows repository.old) (Act by at call)) }
{
    let reply = repository.apply(by, &call, at);
    let answered = reply_line(alloc, &reply);
    drop(reply);
    answered
}

/// Replies to a query.
fn ask<J: RowRepository>(
    alloc: Global,
    repository: &J,
    query: &Query,
) -> Result<Answered, OutOfMemory>
    ensures text { IfOk result (λ answered. answered.text.items
        ≡ text_by J.limit (J.rows repository.now) (Ask query.now)) }
    ensures kind { IfOk result (λ answered. answered.kind
        ≡ kind_by J.limit (J.rows repository.now) (Ask query.now)) }
{
    let answer = repository.ask(query);
    let answered = answer_line(alloc, &answer);
    drop(answer);
    answered
}

/// Returns the line of an answer.
fn answer_line(alloc: Global, answer: &Result<Answer, Refusal>) -> Result<Answered, OutOfMemory>
    ensures known { IfOk result (λ answered. (answered.text.items ≡ answer_text answer.now) × (answered.kind ≡ kind_of answer.now)) }
    ensures due { (due : Result Answer Refusal) → IsDue answer.now due → OnOk result (answer.now ≡ due) }
{
    Ok(Answered {
        kind: kind_of(answer)?,
        text: answer_text(alloc, answer)?,
    })
}
