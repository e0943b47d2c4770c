// The output about the job executions of a run.
ghost use Rattle.batch_commands.specs.Listing.{text_of};
ghost use Rattle.batch_commands.specs.Putting.{Puts};
ghost use Rattle.batch_commands.specs.Turns.{Lists, ListsAll, ListsWith};

use crate::replies::{put, put_refusal};
use batch_history::Answer;
use batch_ids::ExecutionId;
use batch_service::Operator;
use script_engine::{EngineFault, OutputBuffer, Sink, execution_text};
use seat_rules::Site;
use sessions::Session;
use std::alloc::Global;
use std::sync::Wait;

/// Adds the line of a job execution and its step executions. Adds nothing if an answer is of
/// another kind, which never happens.
fn put_line<W: Sink>(
    alloc: Global,
    execution: &Answer,
    steps: &Answer,
    output: &mut OutputBuffer,
    writer: &mut W,
) -> Result<(), EngineFault>
    ensures { Puts (W.tape writer.old) output.old (W.tape writer.new) output.new (text_of steps.now execution.now) result }
{
    let Answer::JobExecution(execution) = execution else {
        return Ok(());
    };
    let Answer::StepExecutions(steps) = steps else {
        return Ok(());
    };
    let line = execution_text(alloc, execution, steps.as_slice())?;
    put(output, writer, &line)
}

/// Adds the line of a job execution, which has these step executions.
fn put_with_steps<N: Site, R: Wait + AllocGlobal, W: Sink>(
    rt: &R,
    operator: &Operator<N>,
    session: &mut Session<N>,
    x: ExecutionId,
    steps: &Answer,
    output: &mut OutputBuffer,
    writer: &mut W,
) -> Result<(), EngineFault>
    ensures { ListsWith N.place.catalogue session.old session.new x steps.now (W.tape writer.old) output.old (W.tape writer.new) output.new result }
{
    match operator.get_job_execution(rt, session, x) {
        Ok(execution) => {
            let put = put_line(rt.alloc(), &execution, steps, output, writer);
            drop(execution);
            put
        }
        Err(refusal) => put_refusal(rt.alloc(), refusal, output, writer),
    }
}

/// Adds the line of a job execution.
fn put_execution<N: Site, R: Wait + AllocGlobal, W: Sink>(
    rt: &R,
    operator: &Operator<N>,
    session: &mut Session<N>,
    x: ExecutionId,
    output: &mut OutputBuffer,
    writer: &mut W,
) -> Result<(), EngineFault>
    ensures { Lists N.place.catalogue session.old session.new x (W.tape writer.old) output.old (W.tape writer.new) output.new result }
{
    match operator.get_step_executions(rt, session, x) {
        Ok(steps) => {
            let put = put_with_steps(rt, operator, session, x, &steps, output, writer);
            drop(steps);
            put
        }
        Err(refusal) => put_refusal(rt.alloc(), refusal, output, writer),
    }
}

/// Adds a line for each of the first `count` job executions, in ascending order of their numbers.
pub(crate) fn put_executions<N: Site, R: Wait + AllocGlobal, W: Sink>(
    rt: &R,
    operator: &Operator<N>,
    session: &mut Session<N>,
    count: u64,
    output: &mut OutputBuffer,
    writer: &mut W,
) -> Result<(), EngineFault>
    ensures { ListsAll N.place.catalogue session.old session.new count (W.tape writer.old) output.old (W.tape writer.new) output.new result }
{
    for place in 0..count {
        put_execution(
            rt,
            operator,
            session,
            ExecutionId::new(place + 1),
            output,
            writer,
        )?;
    }
    Ok(())
}
