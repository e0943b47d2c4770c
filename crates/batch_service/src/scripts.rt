ghost use Rattle.std.specs.Prelude.{◌≡◌, ◌≤◌, length, Err};
ghost use Rattle.script_lines.specs.declared.input_buffer.TheConstants.{MAX_READS};
ghost use Rattle.script_engine.specs.declared.fault.EngineFault.TheVariants.{Read};
ghost use Rattle.script_engine.specs.InTurn.{MayReadInTurn};
ghost use Rattle.script_engine.specs.Ran.{Ran, RanInMemory, HoldsReplies};

use script_engine as engine;
use script_engine::{EngineFault, Sink, SourceInTurn, Summary};
use seq_repository::Repository;
use std::alloc::Global;

/// Runs the script of `reader` to its end, and writes the replies to `writer`, as
/// [`run_script`](script_engine::run_script) does over any job repository.
///
/// # Errors
///
/// Those of [`run_script`](script_engine::run_script).
pub fn run_script<R: SourceInTurn<W>, W: Sink>(
    alloc: Global,
    reader: &mut R,
    writer: &mut W,
) -> Result<Summary, EngineFault>
    // The reader is called only after the writer has taken the replies to all lines that were
    // delivered whole.
    requires in_turn { MayReadInTurn (R.tape reader.old) (W.tape writer.old) R.may_read }

    ensures { Ran (R.tape reader.old) (R.tape reader.new) (W.tape writer.old) (W.tape writer.new) result }
{
    engine::run_script::<Repository<1_000_000>, R, W>(alloc, reader, writer)
}

/// Runs a script in memory, as [`answer_script`](script_engine::answer_script) does over any job
/// repository. Returns the text that was written, and how the run ended.
pub fn answer_script(alloc: Global, script: &[u8]) -> (Vec<u8>, Result<Summary, EngineFault>)
    ensures replies { HoldsReplies script.now result.0.items result.1 }
    ensures ran { RanInMemory script.now result.0.items result.1 }
    ensures long { result.1 ≡ Err Read → MAX_READS ≤ length script.now }
{
    engine::answer_script::<Repository<1_000_000>>(alloc, script)
}
