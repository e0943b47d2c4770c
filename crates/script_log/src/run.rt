// The run of lines over a log.
ghost use Rattle.std.specs.Prelude.{◌≡◌, []};
ghost use Rattle.log_host.specs.Host.{LeavesOnly};
ghost use Rattle.durable_log.specs.Logs.{records_of, IsSettled, waiting_in};
ghost use Rattle.script_lines.specs.Lines.{lines_since};
ghost use Rattle.script_log.specs.Runs.{answering, history_of};
ghost use Rattle.script_log.specs.Hosts.{hosting, account};
ghost use Rattle.script_log.specs.Reading.{reading, MayReadInTurn};
ghost use Rattle.script_log.specs.Covered.{Covered};
ghost use Rattle.script_log.specs.Faults.{has_broken};
ghost use Rattle.script_log.specs.SoFar.{RanSoFar};
ghost use Rattle.script_log.specs.Ran.{Ran};

use crate::answer::answer_line;
use crate::engine::Engine;
use crate::fault::RunFault;
use crate::passing::{commit_and_tell, put_reply};
use crate::reader::Reader;
use crate::turn::next_line;
use durable_log::{Host, Log};
use script_lines::{InputBuffer, OutputBuffer};
use std::alloc::Global;

// Replies to all lines, and leaves the last records and replies waiting.
fn answer_all<R: Reader<H>, H: Host, E: Engine>(
    alloc: Global,
    input: &mut InputBuffer,
    source: &mut R,
    log: &mut Log<H>,
    engine: &mut E,
    output: &mut OutputBuffer,
) -> Result<(), RunFault>
    requires settled { IsSettled H.seen H.heard H.may_leave log.old }
    requires nothing_waits { waiting_in log.old ≡ [] }
    requires empty { output.old ≡ [] }
    requires stands { E.stands engine.old (history_of (records_of (H.seen log.old.host))) }
    requires in_turn { MayReadInTurn (answering E.keeps E.reply) (account (records_of (H.seen log.old.host)) (H.heard log.old.host)) (R.tape source.old) input.old R.may_read }
    ensures { RanSoFar (hosting H.seen H.heard H.may_leave H.moment H.left_since H.origin H.file_faults H.listener_faults)
        (answering E.keeps E.reply) (E.stands engine.new) (reading (R.tape source.old) (R.tape source.new) input.old input.new) log.old log.new output.new result }
{
    if input.has_ended() {
        return Ok(());
    }
    while let Some(line) = next_line(alloc, input, source, log, output)? {
        let text = answer_line(alloc, log, engine, &line)?;
        put_reply(log, output, &text)?;
    }
    Ok(())
}

fn has_broken(outcome: &Result<(), RunFault>) -> bool
    ensures { result ≡ has_broken outcome.now }
{
    match outcome {
        Ok(()) => false,
        Err(fault) => fault.is_broken(),
    }
}

/// Replies to the lines at hand in `input`, then to those that `source` delivers, up to its end. A
/// recorded line is a record of the log, with the check of its reply. Replies are collected, up to
/// 1,048,576 bytes, and records, until they have more than 2^24 bytes. Before the reader is asked for
/// more, and at the end, the waiting records are committed, all at once. Then the replies are sent.
/// Nothing is committed if no line was recorded.
///
/// # Errors
///
/// - `Read` if the reader failed, or may not be called again. The replies to all complete lines
///   were sent.
/// - `Write` if the listener failed. It has heard a beginning of the replies to lines that are on
///   the disk.
/// - `Log` if the file failed or is full. No reply to an uncommitted record was sent. Open the file
///   again.
/// - `OutOfMemory` if memory was refused. The replies to the lines before were sent. At most one line
///   was read that has no reply.
pub fn answer_lines<R: Reader<H>, H: Host, E: Engine>(
    alloc: Global,
    input: &mut InputBuffer,
    source: &mut R,
    log: &mut Log<H>,
    engine: &mut E,
) -> Result<(), RunFault>
    requires settled { IsSettled H.seen H.heard H.may_leave log.old }
    requires nothing_waits { waiting_in log.old ≡ [] }
    requires stands { E.stands engine.old (history_of (records_of (H.seen log.old.host))) }

    // The reader is called only after the listener has heard the replies to all lines that were
    // delivered whole.
    requires in_turn { MayReadInTurn (answering E.keeps E.reply) (account (records_of (H.seen log.old.host)) (H.heard log.old.host)) (R.tape source.old) input.old R.may_read }

    // A crash at any moment leaves the records from before, and those of a beginning of the lines,
    // each with the check of its reply. The listener has heard a beginning of the replies to those
    // lines.
    ensures any_moment { LeavesOnly H.moment H.left_since log.old.host log.new.host
        (Covered E.keeps E.reply (records_of (H.seen log.old.host)) (lines_since (R.tape source.old) (R.tape source.new) input.old) (H.heard log.old.host)) }

    ensures ran { Ran (hosting H.seen H.heard H.may_leave H.moment H.left_since H.origin H.file_faults H.listener_faults)
        (answering E.keeps E.reply) (E.stands engine.new) (reading (R.tape source.old) (R.tape source.new) input.old input.new) log.old log.new result }
{
    let mut output = OutputBuffer::new(alloc)?;
    let outcome = answer_all(alloc, input, source, log, engine, &mut output);
    if has_broken(&outcome) {
        return outcome;
    }
    commit_and_tell(log, &mut output)?;
    outcome
}
