ghost use Rattle.std.specs.Prelude.{◌≡◌, List, ℕ, [], false, Ok, Err, IfOk, IfErr};
ghost use Rattle.script_lines.specs.Lines.{ShowsFirst};
ghost use Rattle.jsl_json.specs.Catalogues.{is_out_of_memory};
ghost use Rattle.script_engine.specs.Script.{catalogue_at};
ghost use Rattle.script_engine.specs.Ran.{TellsFault};

use crate::fault::EngineFault;
use jsl_json::{ReadFault, read_catalogue};
use jsl_model::Catalogue;
use script_lines::{Line, OutputBuffer, Sink};
use script_text::fault_text;
use std::alloc::Global;

/// Reads the catalogue of an input's first line. If there is no line, it counts as an empty one. A
/// line above [`MAX_LINE`](crate::MAX_LINE) bytes is no catalogue.
///
/// # Errors
///
/// Returns the first fault of the catalogue. Returns `OutOfMemory` instead of any result if memory
/// is refused.
pub fn catalogue_in(alloc: Global, first: &Option<Line>) -> Result<Catalogue, ReadFault>
    ensures read { IfOk result (λ catalogue. (line : List ℕ) → ShowsFirst first.now line → catalogue_at line ≡ Ok catalogue) }
    ensures fault { IfErr result (λ fault. is_out_of_memory fault ≡ false → (line : List ℕ) → ShowsFirst first.now line → catalogue_at line ≡ Err fault) }
{
    match first {
        None => read_catalogue(alloc, &[]),
        Some(Line::Whole(bytes)) => read_catalogue(alloc, bytes),
        Some(Line::TooLong) => Err(ReadFault::NotACatalogue),
    }
}

/// Puts the line of a catalogue's fault into the output, and returns the fault with which the run
/// ends:
/// - `Catalogue` with this fault.
/// - `Write` if the writer failed.
/// - `OutOfMemory` if memory is refused, or if `fault` says that it was refused for the catalogue.
pub fn tell_fault<W: Sink>(
    alloc: Global,
    output: &mut OutputBuffer,
    writer: &mut W,
    fault: ReadFault,
) -> EngineFault
    ensures { TellsFault fault (W.tape writer.old) output.old (W.tape writer.new) output.new result }
{
    if fault.is_out_of_memory() {
        return EngineFault::OutOfMemory;
    }
    match fault_text(alloc, &fault) {
        Ok(text) => match output.put(writer, &text) {
            Ok(()) => EngineFault::Catalogue(fault),
            Err(_) => EngineFault::Write,
        },
        Err(_) => EngineFault::OutOfMemory,
    }
}
