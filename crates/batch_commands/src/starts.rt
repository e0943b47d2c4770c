// The start lines of a run.
ghost use Rattle.std.specs.Prelude.{◌≡◌, ◌==◌, List, ℕ, length};
ghost use Rattle.script_lines.specs.Lines.{Shows};
ghost use Rattle.batch_history.specs.declared.call.Call.TheVariants.{Start};
ghost use Rattle.script_text.specs.Starts.{IsStart};
ghost use Rattle.script_text.specs.declared.command.Command.TheVariants.{Act};
ghost use Rattle.script_engine.specs.Script.{start_at};
ghost use Rattle.batch_commands.specs.Turns.{PutsFault, TurnsTo, TurnsToLine, Starts};

use crate::replies::{put, put_refusal, put_reply};
use batch_ids::Refusal;
use batch_service::Operator;
use script_engine::{
    EngineFault, Line, OutputBuffer, Sink, Source, StartFault, StartLine, bad_line_text, read_start,
};
use script_lines::InputBuffer;
use seat_rules::Site;
use sessions::Session;
use std::alloc::Global;
use std::sync::Wait;

/// Parses the start that a line asks for. A line that is too long starts nothing.
fn start_in(alloc: Global, line: &Line) -> Result<StartLine, StartFault>
    ensures { (bytes : List ℕ) → Shows line.now bytes → IsStart (start_at bytes) result }
{
    match line {
        Line::Whole(bytes) => read_start(alloc, bytes),
        Line::TooLong => Err(StartFault::BadLine),
    }
}

/// Adds the reply to a line that is no start line. Returns the fault `OutOfMemory` instead if
/// memory was refused, which ends the run.
fn refuse_line<W: Sink>(
    alloc: Global,
    fault: StartFault,
    output: &mut OutputBuffer,
    writer: &mut W,
) -> Result<(), EngineFault>
    ensures { PutsFault fault (W.tape writer.old) output.old (W.tape writer.new) output.new result }
{
    match fault {
        StartFault::BadLine => put(output, writer, &bad_line_text(alloc)?),
        StartFault::TextTooLong => put_refusal(alloc, Refusal::TextTooLong, output, writer),
        StartFault::OutOfMemory => Err(EngineFault::OutOfMemory),
    }
}

/// Starts the job that a line names, and adds the reply. Returns whether a job execution was
/// created. Ignores an empty line.
fn answer_line<N: Site, R: Wait + AllocGlobal, W: Sink>(
    rt: &R,
    operator: &Operator<N>,
    session: &mut Session<N>,
    line: &Line,
    output: &mut OutputBuffer,
    writer: &mut W,
) -> Result<bool, EngineFault>
    ensures { (bytes : List ℕ) → Shows line.now bytes → TurnsToLine N.place.catalogue session.old session.new bytes (W.tape writer.old) output.old (W.tape writer.new) output.new result }
{
    if is_empty(line) {
        return Ok(false);
    }
    match start_in(rt.alloc(), line) {
        Ok(start) => start_job(rt, operator, session, start, output, writer),
        Err(fault) => {
            refuse_line(rt.alloc(), fault, output, writer)?;
            Ok(false)
        }
    }
}

/// Starts a job, and adds the reply. Returns whether a job execution was created.
fn start_job<N: Site, R: Wait + AllocGlobal, W: Sink>(
    rt: &R,
    operator: &Operator<N>,
    session: &mut Session<N>,
    start: StartLine,
    output: &mut OutputBuffer,
    writer: &mut W,
) -> Result<bool, EngineFault>
    ensures { TurnsTo N.place.catalogue session.old session.new (Act session.old.number 0 (Start start.job start.parameters)) (W.tape writer.old) output.old (W.tape writer.new) output.new result }
{
    let reply = operator.start(rt, session, start.job, start.parameters, 0);
    let is_started = reply.is_ok();
    let put = put_reply(rt.alloc(), &reply, output, writer);
    drop(reply);
    put?;
    Ok(is_started)
}

/// Checks whether a line is empty.
fn is_empty(line: &Line) -> bool
    ensures { (bytes : List ℕ) → Shows line.now bytes → result ≡ (length bytes == 0) }
{
    match line {
        Line::Whole(bytes) => bytes.is_empty(),
        Line::TooLong => false,
    }
}

/// Starts the jobs that the lines name, up to their end. Returns the number of job executions
/// created.
pub(crate) fn answer_starts<N: Site, R: Wait + AllocGlobal, S: Source, W: Sink>(
    rt: &R,
    operator: &Operator<N>,
    session: &mut Session<N>,
    input: &mut InputBuffer,
    source: &mut S,
    output: &mut OutputBuffer,
    writer: &mut W,
) -> Result<u64, EngineFault>
    ensures { Starts N.place.catalogue session.old session.new (S.tape source.old) (S.tape source.new) input.old input.new (W.tape writer.old) output.old (W.tape writer.new) output.new result }
{
    let mut started: u64 = 0;
    while let Some(line) = input.line_alone(source)? {
        let answered = answer_line(rt, operator, session, &line, output, writer);
        drop(line);
        if answered? {
            started = started.saturating_add(1);
        }
    }
    Ok(started)
}
