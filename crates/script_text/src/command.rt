ghost use Rattle.std.specs.Prelude.{◌≡◌, IfOk};
ghost use Rattle.serde_json.specs.Read.{read};
ghost use Rattle.lent_json.specs.Looks.{shown};
ghost use Rattle.script_text.specs.Commands.{command_of, command_of_data, within_bounds};
ghost use Rattle.script_text.specs.RawCommands.{command_in, command_of_read};

use crate::bounds::{call_within, query_within};
use crate::raw::{RawCommand, raw_command_of};
use batch_history::{Call, Query};
use batch_ids::{Moment, OutOfMemory};
use json_members::read_text;
use lent_json::{Look, Scratch, Unread, read_flat};
use simdutf8::compat::from_utf8;
use std::alloc::{AllocError, Global};

/// The command of a script's line.
#[derive(Debug, PartialEq, Eq, Drop)]
pub enum Command {
    /// The line is no JSON, or no command of the table. Its word doesn't exist, or a member is
    /// missing, not listed, of another kind or out of its range. The reply is the refusal
    /// `BadLine`.
    BadLine,
    /// The line is a command of the table with a text above its bound. The reply is the refusal
    /// `TextTooLong`.
    TextTooLong,
    /// A call.
    Act {
        /// The number of the session that makes the call, from 1.
        by: u64,
        /// The moment that the line gives for it.
        at: Moment,
        /// The call.
        call: Call,
    },
    /// A query.
    Ask(Query),
}

/// Reads the command of a line, without its line feed.
///
/// Calls (Jakarta Batch 2.1, "JobOperator"; claim, checkpoint, finish, lose and purge are this
/// service's own) have the members `do`, `by` (the session's number, from 1), `at` (the moment, in
/// milliseconds) and:
/// - `"do":"start"`: `job`, a text of at most 256 bytes, and `parameters`.
/// - `"do":"restart"`: `execution`, a number, and `parameters`.
/// - `"do":"stop"`, `"do":"abandon"`: `execution`.
/// - `"do":"claim"`: nothing more.
/// - `"do":"checkpoint"`: `work`, a number, `data`, a text of at most 65,536 bytes, and `metrics`.
/// - `"do":"finish"`: `work`, `outcome`, which is `COMPLETED`, `FAILED` or `STOPPED`, `exit`, a
///   text of at most 256 bytes, which may be left out, and `metrics`.
/// - `"do":"lose"`: `work`.
/// - `"do":"purge"`: `instance`, a number.
///
/// `parameters` is an object of at most 64 texts, with keys of at most 256 bytes and values of at
/// most 4,096. `metrics` is an object of numbers up to 4,294,967,295 by the metrics' names. Both
/// may be left out. So may any metric, which is then 0.
///
/// Queries have the member `ask` and:
/// - `job_names`, `status_counts`: nothing more.
/// - `job_instance_count`, `running_executions`: `job`, a text of at most 256 bytes.
/// - `job_instances`: `job`, and the numbers `start` and `count`.
/// - `parameters`, `job_instance`, `job_execution`, `step_executions`: `execution`, a number.
/// - `job_executions`: `instance`, a number.
///
/// Numbers are whole, 0 to 2^64 - 1, without sign, point or exponent. A member that is null is not
/// left out. If a member comes twice, the last one counts.
///
/// Any other line is `BadLine`. That is decided over the whole line before any text's length. Only
/// then does a text above its bound, or too many parameters, make it `TextTooLong`.
///
/// The time is that of reading the JSON. A text is copied only if the line is a command.
///
/// # Errors
///
/// Returns `OutOfMemory` if memory is refused.
#[tactic(auto, unfolding(crate::specs::Commands::command_of))]
pub fn read_command(alloc: Global, line: &[u8]) -> Result<Command, OutOfMemory>
    ensures { IfOk result (λ command. command ≡ command_of line.now) }
{
    match from_utf8(line) {
        Ok(text) => command_of_tree(alloc, text),
        Err(_) => Ok(Command::BadLine),
    }
}

/// The longest line, in bytes, that is read with the reader's own memory. A longer line takes
/// memory for itself alone, so that the reader doesn't hold it afterwards.
const MAX_KEPT_LINE: usize = 65_536;

/// A reader of commands, one line after another, which reuses its memory from line to line.
#[derive(Drop)]
pub struct CommandReader {
    alloc: Global,
    scratch: Scratch,
}

impl CommandReader {
    /// Makes a new reader. It takes no memory.
    pub fn new(alloc: Global) -> CommandReader {
        CommandReader {
            alloc,
            scratch: Scratch::new(alloc),
        }
    }

    /// Reads the command of a line, by the rules of [`read_command`]. Some lines are read in one
    /// pass. Such a line has at most 65,536 bytes and no list. Its inner objects are of whole
    /// numbers or of texts. The line's object and each inner one have at most 64 members.
    ///
    /// # Errors
    ///
    /// Returns `OutOfMemory` if memory is refused.
    pub fn read(&mut self, line: &[u8]) -> Result<Command, OutOfMemory>
        ensures { IfOk result (λ command. command ≡ command_of line.now) }
    {
        if line.len() > MAX_KEPT_LINE {
            return read_command(self.alloc, line);
        }
        match from_utf8(line) {
            Ok(text) => command_of_text(self.alloc, text, &mut self.scratch),
            Err(_) => Ok(Command::BadLine),
        }
    }
}

/// Reads the command of a text with this memory, in one pass if possible.
fn command_of_text(alloc: Global, text: &str, scratch: &mut Scratch) -> Result<Command, OutOfMemory>
    ensures { IfOk result (λ command. command ≡ command_of_read (read text.now)) }
{
    let flat = read_flat(alloc, text, scratch);
    match &flat {
        Ok(object) => command_of_value(alloc, Look::Flat(object)),
        Err(Unread::Other) => command_of_tree(alloc, text),
        Err(Unread::NoJson) => Ok(Command::BadLine),
        Err(Unread::OutOfMemory) => Err(AllocError),
    }
}

/// Reads the command of a text, by way of a tree.
fn command_of_tree(alloc: Global, text: &str) -> Result<Command, OutOfMemory>
    ensures { IfOk result (λ command. command ≡ command_of_read (read text.now)) }
{
    let value = read_text(alloc, text)?;
    match &value {
        Some(value) => command_of_value(alloc, Look::Own(value)),
        None => Ok(Command::BadLine),
    }
}

#[tactic(auto, unfolding(crate::specs::Commands::command_of_data))]
fn command_of_value(alloc: Global, value: Look<'_, '_>) -> Result<Command, OutOfMemory>
    ensures { IfOk result (λ command. command ≡ command_of_data (shown value.entry)) }
{
    match raw_command_of(value) {
        Some(raw) => command_within(alloc, &raw),
        None => Ok(Command::BadLine),
    }
}

fn command_within(alloc: Global, raw: &RawCommand<'_, '_>) -> Result<Command, OutOfMemory>
    ensures { IfOk result (λ command. command ≡ within_bounds (command_in raw.now)) }
{
    match raw {
        RawCommand::Act { by, at, call } => match call_within(alloc, call)? {
            Some(call) => Ok(Command::Act {
                by: *by,
                at: *at,
                call,
            }),
            None => Ok(Command::TextTooLong),
        },
        RawCommand::Ask(query) => match query_within(alloc, query)? {
            Some(query) => Ok(Command::Ask(query)),
            None => Ok(Command::TextTooLong),
        },
    }
}
