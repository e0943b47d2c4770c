// The catalogue of a log, and the given catalogue.
ghost use Rattle.std.specs.Prelude.{◌≡◌, ◌∷◌, [], false, List, map, Ok, Err, IfOk, IfErr};
ghost use Rattle.jsl_model.specs.Jobs.{JobTree};
ghost use Rattle.jsl_json.specs.Catalogues.{is_out_of_memory};
ghost use Rattle.durable_log.specs.Files.{StandsFor};
ghost use Rattle.durable_log.specs.Logs.{IsRest};
ghost use Rattle.durable_log.specs.Shown.{record_shown};
ghost use Rattle.script_engine.specs.Script.{catalogue_at};
ghost use Rattle.script_log.specs.Runs.{catalogue_record};
ghost use Rattle.logged_script.specs.Openings.{fault_of_catalogue};
ghost use Rattle.logged_script.specs.Faults.{HasCatalogue, IsCatalogueFault, IsGrowthFault, HasGrown};

use crate::fault::LogFault;
use crate::opening::OpeningFault;
use catalogue_growth::first_other_job;
use durable_log::{LogFile, Record, new_log as log_of};
use jsl_json::{ReadFault, read_catalogue};
use jsl_model::Catalogue;
use script_lines::MAX_LINE;
use script_log::{CATALOGUE_MARK, find_catalogues};
use std::alloc::{AllocError, Global};

/// Reads the catalogue of a line, without its line feed. A line above [`MAX_LINE`] bytes is none.
///
/// # Errors
///
/// Returns the first fault of the catalogue. Returns `OutOfMemory` instead of any result if memory
/// is refused.
pub fn catalogue_at(alloc: Global, line: &[u8]) -> Result<Catalogue, ReadFault>
    ensures read { IfOk result (λ catalogue. catalogue_at line.now ≡ Ok catalogue) }
    ensures fault { IfErr result (λ fault. is_out_of_memory fault ≡ false → catalogue_at line.now ≡ Err fault) }
{
    if line.len() > MAX_LINE {
        return Err(ReadFault::NotACatalogue);
    }
    read_catalogue(alloc, line)
}

/// Returns a new log over the catalogue of a line.
///
/// # Errors
///
/// Returns `OutOfMemory` if memory is refused.
#[tactic(auto, using(crate::proofs::Growing::catalogue_is_short))]
pub fn new_log(alloc: Global, line: &[u8]) -> Result<LogFile, AllocError>
    requires { (catalogue : List JobTree) × (catalogue_at line.now ≡ Ok catalogue) }
    ensures records { IfOk result (λ file. StandsFor (catalogue_record line.now ∷ []) file.bytes.items) }
    ensures rest { IfOk result (λ file. IsRest file.bytes.items file.rest) }
{
    let first = Record {
        mark: CATALOGUE_MARK,
        line,
        reply_check: 0,
    };
    log_of(alloc, first)
}

// Returns the fault of a log whose last catalogue was not read.
fn unreadable(fault: ReadFault) -> OpeningFault
    ensures { result ≡ fault_of_catalogue fault }
{
    match fault {
        ReadFault::OutOfMemory => OpeningFault::OutOfMemory,
        _ => OpeningFault::Refused(LogFault::Foreign),
    }
}

// Reads the last catalogue of a log.
fn last_catalogue(alloc: Global, records: &[Record<'_>]) -> Result<Catalogue, OpeningFault>
    ensures has { IfOk result (HasCatalogue (map record_shown records.now)) }
    ensures fault { IfErr result (IsCatalogueFault (map record_shown records.now)) }
{
    let found = find_catalogues(records);
    if !found.begins {
        return Err(OpeningFault::Refused(LogFault::Foreign));
    }
    let Some((_, text)) = found.last else {
        return Err(OpeningFault::Refused(LogFault::Foreign));
    };
    match catalogue_at(alloc, text) {
        Ok(kept) => Ok(kept),
        Err(fault) => Err(unreadable(fault)),
    }
}

// Checks whether the given catalogue has more jobs than the log's. Returns `Refused` with
// `OtherCatalogue` if it doesn't begin with all of the log's jobs.
pub(crate) fn has_grown(
    alloc: Global,
    records: &[Record<'_>],
    catalogue: &Catalogue,
) -> Result<bool, OpeningFault>
    ensures grown { IfOk result (λ grown. (kept : List JobTree) × HasCatalogue (map record_shown records.now) kept × HasGrown kept catalogue.now grown) }
    ensures fault { IfErr result (IsGrowthFault (map record_shown records.now) catalogue.now) }
{
    let kept = last_catalogue(alloc, records)?;
    let other = first_other_job(&kept, catalogue);
    let grown = kept.len() < catalogue.len();
    drop(kept);
    match other {
        Some(job) => Err(OpeningFault::Refused(LogFault::OtherCatalogue { job })),
        None => Ok(grown),
    }
}
