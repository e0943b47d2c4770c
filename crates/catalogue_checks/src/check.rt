ghost use Rattle.std.specs.Prelude.{◌≡◌, ◌<◌, ◌≤◌, List, ℕ, [], length, Ok, Err, IfOk};
ghost use Rattle.jsl_json.specs.Catalogues.{catalogue_of};
ghost use Rattle.script_lines.specs.Lines.{Shows, ShowsFirst};
ghost use Rattle.script_lines.specs.declared.line.TheConstants.{MAX_LINE};
ghost use Rattle.catalogue_checks.specs.Verdicts.{HasPlace, IsVerdict};

use crate::verdict::{Checked, faulty, good};
use batch_ids::OutOfMemory;
use fault_places::{Place, place_of};
use jsl_json::{ReadFault, read_catalogue};
use jsl_model::Catalogue;
use script_lines::{Line, MAX_LINE};
use simdutf8::compat::from_utf8;
use std::alloc::{AllocError, Global};

/// Finds the place of a fault in a line.
fn place_in(alloc: Global, line: &[u8], fault: ReadFault) -> Result<Option<Place>, OutOfMemory>
    requires short { length line.now ≤ MAX_LINE }
    requires fault { catalogue_of line.now ≡ Err fault }
    ensures { IfOk result (HasPlace line.now fault) }
{
    match from_utf8(line) {
        Ok(text) => {
            let place = place_of(alloc, text, fault)?;
            Ok(place)
        }
        Err(_) => Ok(None),
    }
}

/// Tells of a line that is a catalogue.
fn tell_good(alloc: Global, line: &[u8], catalogue: &Catalogue) -> Result<Checked, OutOfMemory>
    requires short { length line.now ≤ MAX_LINE }
    requires read { catalogue_of line.now ≡ Ok catalogue.now }
    ensures { IfOk result (λ checked. IsVerdict line.now checked.text.items checked.outcome) }
{
    let checked = good(alloc, catalogue.len() as u64)?;
    Ok(checked)
}

/// Tells of a line that is no catalogue.
fn tell_faulty(alloc: Global, line: &[u8], fault: ReadFault) -> Result<Checked, OutOfMemory>
    requires short { length line.now ≤ MAX_LINE }
    requires fault { catalogue_of line.now ≡ Err fault }
    ensures { IfOk result (λ checked. IsVerdict line.now checked.text.items checked.outcome) }
{
    let place = place_in(alloc, line, fault)?;
    let checked = faulty(alloc, fault, &place)?;
    Ok(checked)
}

/// Tells of a line that is too long.
fn tell_too_long(alloc: Global) -> Result<Checked, OutOfMemory>
    ensures { IfOk result (λ checked. (line : List ℕ) → MAX_LINE < length line
        → IsVerdict line checked.text.items checked.outcome) }
{
    let checked = faulty(alloc, ReadFault::NotACatalogue, &None)?;
    Ok(checked)
}

/// Checks the bytes of a line.
fn check_bytes(alloc: Global, line: &[u8]) -> Result<Checked, OutOfMemory>
    ensures { IfOk result (λ checked. IsVerdict line.now checked.text.items checked.outcome) }
{
    if line.len() > MAX_LINE {
        let checked = tell_too_long(alloc)?;
        return Ok(checked);
    }
    match read_catalogue(alloc, line) {
        Ok(catalogue) => tell_good(alloc, line, &catalogue),
        Err(fault) => {
            if fault.is_out_of_memory() {
                return Err(AllocError);
            }
            tell_faulty(alloc, line, fault)
        }
    }
}

/// Checks an empty line.
fn check_nothing(alloc: Global) -> Result<Checked, OutOfMemory>
    ensures { IfOk result (λ checked. (line : List ℕ) → line ≡ []
        → IsVerdict line checked.text.items checked.outcome) }
{
    let checked = check_bytes(alloc, &[])?;
    Ok(checked)
}

fn check_whole(alloc: Global, bytes: &Vec<u8>) -> Result<Checked, OutOfMemory>
    ensures { IfOk result (λ checked. (line : List ℕ)
        → (bytes.now.items ≡ line) × (length line ≤ MAX_LINE)
        → IsVerdict line checked.text.items checked.outcome) }
{
    let checked = check_bytes(alloc, bytes.as_slice())?;
    Ok(checked)
}

fn check_shown(alloc: Global, line: &Line) -> Result<Checked, OutOfMemory>
    ensures { IfOk result (λ checked. (bytes : List ℕ) → Shows line.now bytes
        → IsVerdict bytes checked.text.items checked.outcome) }
{
    match line {
        Line::Whole(bytes) => check_whole(alloc, bytes),
        Line::TooLong => tell_too_long(alloc),
    }
}

/// Checks the catalogue of an input's first line, and writes a line about it. If there is no line, it
/// counts as an empty one. A line above [`MAX_LINE`](script_lines::MAX_LINE) bytes is no catalogue.
///
/// - `{"jobs":N}` for a catalogue of N jobs.
/// - The line of its fault, as `fault_text` of `script_text` writes it, with two more members if the
///   fault has a place: `byte`, from 0, at which the value begins that is wrong or that lacks a member,
///   and `member`, the way to it from the root, as `jobs[2].elements[0].next`. The root is an empty
///   text.
///
/// The time and memory are those of `read_catalogue` and of `place_of` of `fault_places`.
///
/// # Errors
///
/// Returns `OutOfMemory` if memory is refused.
pub fn check_line(alloc: Global, first: &Option<Line>) -> Result<Checked, OutOfMemory>
    ensures { IfOk result (λ checked. (line : List ℕ) → ShowsFirst first.now line
        → IsVerdict line checked.text.items checked.outcome) }
{
    match first {
        None => check_nothing(alloc),
        Some(line) => check_shown(alloc, line),
    }
}
