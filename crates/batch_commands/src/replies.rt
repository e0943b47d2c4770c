// The output lines. They wait in a buffer until it is full or flushed.
ghost use Rattle.std.specs.Prelude.{◌≡◌, Err};
ghost use Rattle.batch_commands.specs.Putting.{Flushes, Puts};
ghost use Rattle.batch_commands.specs.Turns.{PutsReply, pool_text, wants_memory};

use batch_history::Reply;
use batch_ids::Refusal;
use script_engine::{EngineFault, OutputBuffer, Sink, reply_text};
use std::alloc::Global;

/// Adds a line.
pub(crate) fn put<W: Sink>(
    output: &mut OutputBuffer,
    writer: &mut W,
    line: &[u8],
) -> Result<(), EngineFault>
    ensures { Puts (W.tape writer.old) output.old (W.tape writer.new) output.new line.now result }
{
    output.put(writer, line)?;
    Ok(())
}

/// Writes the waiting lines.
pub(crate) fn flush<W: Sink>(output: &mut OutputBuffer, writer: &mut W) -> Result<(), EngineFault>
    ensures { Flushes (W.tape writer.old) output.old (W.tape writer.new) output.new result }
{
    output.flush(writer)?;
    Ok(())
}

/// Checks whether a reply is the refusal `OutOfMemory`.
fn wants_memory(reply: &Result<Reply, Refusal>) -> bool
    ensures { result ≡ wants_memory reply.now }
{
    match reply {
        Ok(_) => false,
        Err(Refusal::OutOfMemory) => true,
        Err(_) => false,
    }
}

/// Adds the line of a reply. Returns the fault `OutOfMemory` instead if the reply is that refusal,
/// which ends the run.
pub(crate) fn put_reply<W: Sink>(
    alloc: Global,
    reply: &Result<Reply, Refusal>,
    output: &mut OutputBuffer,
    writer: &mut W,
) -> Result<(), EngineFault>
    ensures { PutsReply reply.now (W.tape writer.old) output.old (W.tape writer.new) output.new result }
{
    if wants_memory(reply) {
        return Err(EngineFault::OutOfMemory);
    }
    let line = reply_text(alloc, reply)?;
    put(output, writer, &line)
}

/// Adds the line of a refusal, as `put_reply` does.
pub(crate) fn put_refusal<W: Sink>(
    alloc: Global,
    refusal: Refusal,
    output: &mut OutputBuffer,
    writer: &mut W,
) -> Result<(), EngineFault>
    ensures { PutsReply (Err refusal) (W.tape writer.old) output.old (W.tape writer.new) output.new result }
{
    let refused = Err(refusal);
    let put = put_reply(alloc, &refused, output, writer);
    drop(refused);
    put
}

/// Adds the line of a pool's refusal, if it has one.
pub(crate) fn put_pool<P: Drop, W: Sink>(
    alloc: Global,
    ran: Result<P, Refusal>,
    output: &mut OutputBuffer,
    writer: &mut W,
) -> Result<(), EngineFault>
    ensures { Puts (W.tape writer.old) output.old (W.tape writer.new) output.new (pool_text ran) result }
{
    match ran {
        Ok(_) => Ok(()),
        Err(refusal) => put_refusal(alloc, refusal, output, writer),
    }
}
