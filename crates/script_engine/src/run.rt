ghost use Rattle.std.specs.Prelude.{◌≡◌, ◌≤◌, [], length, Err, IfOk, box_value};
ghost use Rattle.script_lines.specs.declared.input_buffer.TheConstants.{MAX_READS};
ghost use Rattle.script_engine.specs.declared.fault.EngineFault.TheVariants.{Read};
ghost use Rattle.batch_history.specs.Legal.{most_numbered, most_operations};
ghost use Rattle.batch_history.specs.Rows.{rows};
ghost use Rattle.script_engine.specs.Script.{begin};
ghost use Rattle.script_engine.specs.InTurn.{MayReadInTurn};
ghost use Rattle.script_engine.specs.Ran.{Ran, RanInMemory, RanSoFar, HoldsReplies, has_writer_failed};

use crate::answer::answer;
use crate::catalogue::{catalogue_in, tell_fault};
use crate::fault::EngineFault;
use crate::summary::Summary;
use batch_ids::OutOfMemory;
use jsl_model::Catalogue;
use row_repository::RowRepository;
use script_lines::{Counted, InputBuffer, OutputBuffer, Sink, SliceSource, SourceInTurn};
use script_text::CommandReader;
use std::alloc::{AllocError, Global};

/// Makes a repository over this catalogue, without operations, on the heap.
///
/// # Errors
///
/// Returns `OutOfMemory` if memory is refused. The catalogue is dropped.
pub fn boxed_repository<J: RowRepository>(
    alloc: Global,
    catalogue: Catalogue,
) -> Result<Box<J>, OutOfMemory>
    requires { J.limit ≤ most_numbered }
    ensures { IfOk result (λ repository. J.rows (box_value repository) ≡ rows (begin catalogue)) }
{
    match Box::new(alloc, J::new(alloc, catalogue)?) {
        Ok(repository) => Ok(repository),
        Err(refused) => {
            drop(refused);
            Err(AllocError)
        }
    }
}

/// Runs a script, and leaves the last replies in the output.
fn run<J: RowRepository, R: SourceInTurn<W>, W: Sink>(
    alloc: Global,
    reader: &mut R,
    output: &mut OutputBuffer,
    writer: &mut W,
) -> Result<Summary, EngineFault>
    requires limit { J.limit ≡ most_operations }
    requires empty { output.old ≡ [] }
    requires in_turn { MayReadInTurn (R.tape reader.old) (W.tape writer.old) R.may_read }
    ensures { RanSoFar (R.tape reader.old) (R.tape reader.new) (W.tape writer.old) (W.tape writer.new) output.new result }
{
    let mut input = InputBuffer::new(alloc)?;
    let first = input.next_line(reader, output, writer)?;
    let catalogue = match catalogue_in(alloc, &first) {
        Ok(catalogue) => catalogue,
        Err(fault) => return Err(tell_fault(alloc, output, writer, fault)),
    };
    let mut boxed = boxed_repository::<J>(alloc, catalogue)?;
    let repository: &mut J = &mut boxed;
    let mut commands = CommandReader::new(alloc);
    let mut summary = Summary::default();
    while let Some(line) = input.next_line(reader, output, writer)? {
        let answered = answer(alloc, &mut commands, repository, &line)?;
        output.put(writer, &answered.text)?;
        summary.count(answered.kind);
    }
    summary.entries = repository.len();
    Ok(summary)
}

fn has_writer_failed(outcome: &Result<Summary, EngineFault>) -> bool
    ensures { result ≡ has_writer_failed outcome.now }
{
    match outcome {
        Ok(_) => false,
        Err(fault) => fault.is_of_writer(),
    }
}

/// Runs the script of `reader` to its end, and writes the replies to `writer`.
///
/// A script is lines, each ended by a line feed, which the last may lack. The first line is the
/// catalogue of jobs. If there is no input at all, it counts as an empty first line. Every other
/// line is a command or a query.
///
/// An empty line has no reply. Every other line has one, which is a line, and the replies are in
/// the order of the lines. A line of more than [`MAX_LINE`](crate::MAX_LINE) bytes is no command
/// and no catalogue.
///
/// At most 1,000,000 operations are accepted. They are entered into the rows of a repository, and
/// none is stored as an entry. Replies are collected, 1,048,576 bytes at most. They are written before
/// the reader is called again, and at the end. So the reader may wait for the replies to all lines
/// before the next.
///
/// # Errors
///
/// - `Catalogue` if the first line is no catalogue. Only its fault's line is written, and no
///   further line has a reply.
/// - `Read` if the reader failed, or was called [`MAX_READS`](crate::MAX_READS) times. The replies
///   to the complete lines were written.
/// - `Write` if the writer failed. It has a beginning of the replies to the lines read.
/// - `OutOfMemory` if memory is refused. The replies to the lines before were written.
pub fn run_script<J: RowRepository, R: SourceInTurn<W>, W: Sink>(
    alloc: Global,
    reader: &mut R,
    writer: &mut W,
) -> Result<Summary, EngineFault>
    requires limit { J.limit ≡ most_operations }
    // The reader is called only after the writer has taken the replies to all lines that were
    // delivered whole.
    requires in_turn { MayReadInTurn (R.tape reader.old) (W.tape writer.old) R.may_read }

    ensures { Ran (R.tape reader.old) (R.tape reader.new) (W.tape writer.old) (W.tape writer.new) result }
{
    let mut output = OutputBuffer::new(alloc)?;
    let outcome = run::<J, R, W>(alloc, reader, &mut output, writer);
    if has_writer_failed(&outcome) {
        return outcome;
    }
    output.flush(writer)?;
    outcome
}

/// Runs a script in memory, as [`run_script`] does. Returns the text that was written, and how the
/// run ended. The text has the replies to all lines, or the line of the catalogue's fault.
///
/// After `OutOfMemory` the text has the replies to the lines before. After `Write`, which means
/// that memory for the text was refused, it has a beginning of them. No read fails. `Read` is
/// returned only for a script of at least [`MAX_READS`](crate::MAX_READS) bytes.
pub fn answer_script<J: RowRepository>(
    alloc: Global,
    script: &[u8],
) -> (Vec<u8>, Result<Summary, EngineFault>)
    requires { J.limit ≡ most_operations }
    ensures replies { HoldsReplies script.now result.0.items result.1 }
    ensures ran { RanInMemory script.now result.0.items result.1 }
    ensures long { result.1 ≡ Err Read → MAX_READS ≤ length script.now }
{
    let mut reader = SliceSource::new(script);
    let mut writer = Counted::new(Vec::new(alloc));
    let outcome = run_script::<J, _, _>(alloc, &mut reader, &mut writer);
    (writer.into_inner(), outcome)
}
