// The run of a script over a log.
ghost use Rattle.std.specs.Prelude.{◌≡◌, ◌≤◌, []};
ghost use Rattle.log_host.specs.Host.{LeavesOnly};
ghost use Rattle.durable_log.specs.Logs.{records_of, IsSettled, waiting_in};
ghost use Rattle.script_lines.specs.Lines.{lines_since};
ghost use Rattle.script_log.specs.Runs.{answering, history_of};
ghost use Rattle.script_log.specs.Hosts.{hosting, state_of, account, GoesOn};
ghost use Rattle.script_log.specs.Reading.{reading, MayReadInTurn};
ghost use Rattle.script_log.specs.Covered.{Covered};
ghost use Rattle.logged_script.specs.Histories.{Answers, is_kept, reply_at};
ghost use Rattle.script_log.specs.Faults.{UnlessBroken};
ghost use Rattle.script_log.specs.Ran.{IsIdle};
ghost use Rattle.logged_script.specs.Logged.{Ends, IsAnsweredOver};

use crate::engine::ScriptEngine;
use durable_log::{Host, Log};
use row_repository::RowRepository;
use script_lines::InputBuffer;
use script_log::{Reader, RunFault, answer_lines};
use std::alloc::Global;

// Ends a log: seals it, unless the file or the listener failed.
fn end_log<H: Host>(outcome: &Result<(), RunFault>, log: Log<H>) -> H
    requires { UnlessBroken outcome.now (IsIdle (hosting H.seen H.heard H.may_leave H.moment H.left_since H.origin H.file_faults H.listener_faults) log) }
    ensures ends { Ends (hosting H.seen H.heard H.may_leave H.moment H.left_since H.origin H.file_faults H.listener_faults) outcome.now log.host result }
    ensures file { H.file_faults log.host ≤ H.file_faults result }
    ensures listener { H.listener_faults result ≡ H.listener_faults log.host }
    ensures origin { H.origin result ≡ H.origin log.host }
{
    match outcome {
        Err(fault) if fault.is_broken() => log.into_host(),
        _ => log.seal(),
    }
}

/// Runs a script over a log that was restored ([`restore`](crate::restore)). It replies to the
/// lines at hand in `input`, then to those of `source`, and sends the replies to the host's
/// listener. With `TAGS`, a line may have a tag ([`command_of`](crate::command_of)).
///
/// Each accepted call is a record of the log. It is on the disk before its reply is sent. Replies
/// are sent before the reader is asked for more. At the end the log is sealed, unless the file or the
/// listener failed.
///
/// # Errors
///
/// - `Read` if the reader failed, or may not be called again. The replies to all complete lines
///   were sent.
/// - `Write` if the listener failed.
/// - `Log` if the file failed (`Failed`) or is full (`Full`). No reply to a line that isn't on the
///   disk was sent.
/// - `OutOfMemory` if memory is refused. The replies to the lines before were sent. At most one line
///   was read that has no reply.
pub fn answer_restored<J: RowRepository, R: Reader<H>, H: Host, const TAGS: bool>(
    alloc: Global,
    input: &mut InputBuffer,
    source: &mut R,
    mut log: Log<H>,
    mut engine: ScriptEngine<J, TAGS>,
) -> (Result<(), RunFault>, H)
    requires settled { IsSettled H.seen H.heard H.may_leave log }
    requires nothing_waits { waiting_in log ≡ [] }
    requires answers { Answers TAGS J.limit J.rows engine (history_of (records_of (H.seen log.host))) }

    // The reader is called only after the listener has heard the replies to all lines that were
    // delivered whole.
    requires in_turn { MayReadInTurn (answering (is_kept TAGS) (reply_at TAGS)) (account (records_of (H.seen log.host)) (H.heard log.host)) (R.tape source.old) input.old R.may_read }

    // A crash at any moment leaves the records from before, and those of a beginning of the lines,
    // each with the check of its reply. The listener has heard a beginning of the replies to those
    // lines.
    ensures any_moment { LeavesOnly H.moment H.left_since log.host result.1
        (Covered (is_kept TAGS) (reply_at TAGS) (records_of (H.seen log.host)) (lines_since (R.tape source.old) (R.tape source.new) input.old) (H.heard log.host)) }

    ensures outcome { let d = hosting H.seen H.heard H.may_leave H.moment H.left_since H.origin H.file_faults H.listener_faults in
        IsAnsweredOver TAGS (state_of d log.host) (reading (R.tape source.old) (R.tape source.new) input.old input.new) (state_of d result.1) result.0 }

    // The file is sealed at no moment before its end, and then only after all its bytes are on the
    // disk.
    ensures sealing { let d = hosting H.seen H.heard H.may_leave H.moment H.left_since H.origin H.file_faults H.listener_faults in
        (last : H) × GoesOn d log.host last × Ends d result.0 last result.1 }

    ensures origin { H.origin result.1 ≡ H.origin log.host }
{
    let outcome = answer_lines(alloc, input, source, &mut log, &mut engine);
    drop(engine);
    let host = end_log(&outcome, log);
    (outcome, host)
}
