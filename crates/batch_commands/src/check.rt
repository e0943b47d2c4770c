// The check of a catalogue.
ghost use Rattle.std.specs.Prelude.{◌≡◌, List, ℕ};
ghost use Rattle.script_lines.specs.Lines.{ShowsFirst};
ghost use Rattle.script_lines.specs.Unread.{nothing_read};
ghost use Rattle.batch_commands.specs.Checks.{HasChecked, TellsVerdict, checked_outcome, ended};
ghost use Rattle.batch_commands.specs.Logging.{PutsLine};

use crate::logged::put_line;
use catalogue_checks::{Checked, check_line};
use script_engine::{EngineFault, Line, ReadFault, Sink, Source};
use script_lines::InputBuffer;
use std::alloc::Global;

fn outcome_of(outcome: Result<(), ReadFault>) -> Result<(), EngineFault>
    ensures { result ≡ checked_outcome outcome }
{
    match outcome {
        Ok(()) => Ok(()),
        Err(fault) => Err(EngineFault::Catalogue(fault)),
    }
}

/// Returns how a check ends that told of a catalogue, or failed to.
fn ended(told: Result<(), EngineFault>, outcome: Result<(), ReadFault>) -> Result<(), EngineFault>
    ensures { result ≡ ended told outcome }
{
    match told {
        Ok(()) => outcome_of(outcome),
        Err(fault) => Err(fault),
    }
}

fn tell_text<W: Sink>(alloc: Global, checked: &Checked, sink: &mut W) -> Result<(), EngineFault>
    ensures { PutsLine (W.tape sink.old) (W.tape sink.new) checked.now.text.items result }
{
    put_line(alloc, &checked.text, sink)
}

/// Checks the catalogue of a first line, and writes the line about it.
fn tell_checked<W: Sink>(
    alloc: Global,
    first: &Option<Line>,
    sink: &mut W,
) -> Result<(), EngineFault>
    ensures { (line : List ℕ) → ShowsFirst first.now line
        → TellsVerdict line (W.tape sink.old) (W.tape sink.new) result }
{
    let checked = check_line(alloc, first)?;
    let told = tell_text(alloc, &checked, sink);
    let outcome = checked.outcome;
    drop(checked);
    ended(told, outcome)
}

/// Checks the first line of a reader, of which nothing was read.
fn check_in<S: Source, W: Sink>(
    alloc: Global,
    input: &mut InputBuffer,
    source: &mut S,
    sink: &mut W,
) -> Result<(), EngineFault>
    requires unread { input.old ≡ nothing_read }
    ensures { HasChecked (S.tape source.old) (S.tape source.new) (W.tape sink.old) (W.tape sink.new) result }
{
    let first = input.line_alone(source)?;
    let told = tell_checked(alloc, &first, sink);
    drop(first);
    told
}

/// Checks the catalogue that is the first line of a reader, and writes the line about it. The lines
/// after it are not looked at.
///
/// # Errors
///
/// - `Catalogue` if the first line is no catalogue. The line about it was written.
/// - `Read` if the reader failed, and `Write` if the writer failed.
/// - `OutOfMemory` if memory was refused.
pub(crate) fn check_first<S: Source, W: Sink>(
    alloc: Global,
    source: &mut S,
    sink: &mut W,
) -> Result<(), EngineFault>
    ensures { HasChecked (S.tape source.old) (S.tape source.new) (W.tape sink.old) (W.tape sink.new) result }
{
    let mut input = InputBuffer::new(alloc)?;
    let told = check_in(alloc, &mut input, source, sink);
    drop(input);
    told
}
