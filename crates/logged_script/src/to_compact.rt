// A log that is compacted over another catalogue than it goes on with.
ghost use Rattle.std.specs.Prelude.{◌≡◌, [], false, box_value, List, ℕ, map, Ok, IfOk, IfErr, IfSome, IsTrue, MatchOption};
ghost use Rattle.batch_history.specs.Legal.{most_numbered};
ghost use Rattle.catalogue_laws.specs.Leaving.{AreNamed, KeepsJobs};
ghost use Rattle.durable_log.specs.Logs.{records_of, IsRest, Reopens};
ghost use Rattle.durable_log.specs.Shown.{IsEnd};
ghost use Rattle.jsl_model.specs.Jobs.{JobTree};
ghost use Rattle.script_engine.specs.Script.{catalogue_at};
ghost use Rattle.script_log.specs.Runs.{history_of, last_catalogue};
ghost use Rattle.logged_script.specs.Compactions.{IsCompactedOver, IsCompactingFault, IsFirstLeft, IsMadeAnew, fault_of_compaction, fault_over_own, other_job};
ghost use Rattle.logged_script.specs.Faults.{HasOtherCatalogue, IsOpeningFault};
ghost use Rattle.logged_script.specs.Histories.{Answers, jobs_at, jobs_read};
ghost use Rattle.logged_script.specs.Openings.{IsBegun, IsCutOff};

use crate::catalogue::catalogue_at;
use crate::compaction::{CompactionFault, compacted};
use crate::engine::ScriptEngine;
use crate::fault::LogFault;
use crate::jobs_left::first_job_left;
use crate::opening::{OpeningFault, Replayed, RestoredLog, gone_on, new_file, replay_file};
use batch_ids::OutOfMemory;
use durable_log::{End, read_log};
use jsl_model::Catalogue;
use row_repository::{RowRepository, RowRestoration};
use script_log::find_catalogues;
use std::alloc::{AllocError, Global};

/// A log that was restored to be compacted.
#[derive(Drop)]
pub struct LogToCompact<J: RowRepository, const TAGS: bool> {
    /// The log.
    pub log: RestoredLog<J, TAGS>,
    /// Whether it is compacted already.
    pub is_compacted: bool,
}

// A log that was restored over its own last catalogue.
#[derive(Drop)]
struct OwnLog<J: RowRepository, const TAGS: bool> {
    end: End,
    kept: Catalogue,
    engine: ScriptEngine<J, TAGS>,
}

// Returns the number in the fault of another catalogue.
fn other_job(fault: OpeningFault) -> Option<usize>
    ensures { result ≡ other_job fault }
{
    match fault {
        OpeningFault::Refused(LogFault::OtherCatalogue { job }) => Some(job),
        _ => None,
    }
}

// Returns the fault of a log that isn't restored over its own last catalogue either. `job` is the first that
// differs.
fn fault_over_own(fault: OpeningFault, job: usize) -> OpeningFault
    ensures { result ≡ fault_over_own job fault }
{
    match fault {
        OpeningFault::Refused(_) => OpeningFault::Refused(LogFault::OtherCatalogue { job }),
        OpeningFault::OutOfMemory => OpeningFault::OutOfMemory,
    }
}

// Returns the fault of a log that isn't compacted over the given catalogue. `job` is the first that differs.
fn fault_of_compaction(fault: CompactionFault, job: usize) -> OpeningFault
    ensures { result ≡ fault_of_compaction job fault }
{
    match fault {
        CompactionFault::NotAlike => OpeningFault::Refused(LogFault::OtherCatalogue { job }),
        CompactionFault::OutOfMemory => OpeningFault::OutOfMemory,
    }
}

// Returns the line of a log's last catalogue, if its file can be read and has one.
fn own_line<'a>(alloc: Global, file: &'a [u8]) -> Option<&'a [u8]>
    ensures { IfSome result (λ line. last_catalogue [] (records_of file.now) ≡ line.now) }
{
    let Ok(contents) = read_log(alloc, file) else {
        return None;
    };
    let found = find_catalogues(&contents.records);
    match found.last {
        Some((_, line)) => Some(line),
        None => None,
    }
}

// Restores a log over its own last catalogue.
fn over_own<J: RowRepository, B: RowRestoration<J>, const TAGS: bool>(
    alloc: Global,
    file: &[u8],
) -> Result<OwnLog<J, TAGS>, OpeningFault>
    requires limit { J.limit ≡ most_numbered }
    ensures begun { IfOk result (λ _. (kept : List ℕ) × IsBegun TAGS file.now kept (records_of file.now)) }
    ensures end { IfOk result (λ own. IsEnd file.now own.end) }
    ensures jobs { IfOk result (λ own. jobs_at (history_of (records_of file.now)) ≡ own.kept) }
    ensures answers { IfOk result (λ own. Answers TAGS J.limit J.rows own.engine (history_of (records_of file.now))) }
    ensures fault { IfErr result (IsOpeningFault TAGS file.now (last_catalogue [] (records_of file.now))) }
{
    // The file was read before, so memory is all that may be wanted.
    let Some(line) = own_line(alloc, file) else {
        return Err(OpeningFault::OutOfMemory);
    };
    let kept = match catalogue_at(alloc, line) {
        Ok(kept) => kept,
        Err(_) => return Err(OpeningFault::OutOfMemory),
    };
    let catalogue = kept.try_clone()?;
    match replay_file::<J, B, TAGS>(alloc, file, line, catalogue) {
        Ok(ran) => {
            let Replayed { end, engine, .. } = ran;
            Ok(OwnLog { end, kept, engine })
        }
        Err(fault) => Err(fault),
    }
}

// Returns the number of the first job of a log's own catalogue that may not leave for that of the line.
fn job_left<J: RowRepository, const TAGS: bool>(
    alloc: Global,
    line: &[u8],
    own: &OwnLog<J, TAGS>,
) -> Result<Option<usize>, OutOfMemory>
    requires catalogue { (catalogue : List JobTree) × (catalogue_at line.now ≡ Ok catalogue) }
    requires kept { (J.rows (box_value own.now.engine.repository)).catalogue ≡ own.now.kept }
    requires named { AreNamed (J.rows (box_value own.now.engine.repository)) }
    ensures { IfOk result (λ found. MatchOption found
        (KeepsJobs (J.rows (box_value own.now.engine.repository)) (jobs_read (catalogue_at line.now)))
        (IsFirstLeft (J.rows (box_value own.now.engine.repository)) own.now.kept (jobs_read (catalogue_at line.now)))) }
{
    match catalogue_at(alloc, line) {
        Ok(given) => first_job_left(own.engine.repository(), &own.kept, &given),
        Err(_) => Err(AllocError),
    }
}

// Compacts a restored log over the catalogue of the line.
fn compacted_own<J: RowRepository, B: RowRestoration<J>, const TAGS: bool>(
    alloc: Global,
    file: Vec<u8>,
    line: &[u8],
    own: OwnLog<J, TAGS>,
) -> Result<RestoredLog<J, TAGS>, CompactionFault>
    requires limit { J.limit ≡ most_numbered }
    requires catalogue { (catalogue : List JobTree) × (catalogue_at line.now ≡ Ok catalogue) }
    requires end { IsEnd file.items own.end }
    requires answers { Answers TAGS J.limit J.rows own.engine (history_of (records_of file.items)) }
    requires keeps { KeepsJobs (J.rows (box_value own.engine.repository)) (jobs_read (catalogue_at line.now)) }
    ensures compacted { IfOk result (λ log. IsCompactedOver TAGS (history_of (records_of file.items)) line.now (history_of (records_of log.file.bytes.items))) }
    ensures rest { IfOk result (λ log. IsRest log.file.bytes.items log.file.rest) }
    ensures cut { IfOk result (λ log. IsCutOff file.items log.cut.items) }
    ensures reopens { IfOk result (λ log. log.reopens ≡ false) }
    ensures answers { IfOk result (λ log. Answers TAGS J.limit J.rows log.engine (history_of (records_of log.file.bytes.items))) }
{
    let OwnLog { end, kept, engine } = own;
    drop(kept);
    let made = compacted::<J, B, TAGS>(alloc, line, &engine)?;
    drop(engine);
    match new_file(alloc, file, end, line, false) {
        Ok(clean) => Ok(RestoredLog {
            file: made.file,
            cut: clean.cut,
            reopens: false,
            engine: made.engine,
        }),
        Err(_) => Err(CompactionFault::OutOfMemory),
    }
}

// Makes a log anew over the catalogue of the line, with which it doesn't go on: `job` is the first that
// differs.
fn made_anew<J: RowRepository, B: RowRestoration<J>, const TAGS: bool>(
    alloc: Global,
    file: Vec<u8>,
    line: &[u8],
    job: usize,
) -> Result<RestoredLog<J, TAGS>, OpeningFault>
    requires limit { J.limit ≡ most_numbered }
    requires catalogue { (catalogue : List JobTree) × (catalogue_at line.now ≡ Ok catalogue) }
    requires other { HasOtherCatalogue file.items line.now job }
    ensures anew { IfOk result (λ log. IsMadeAnew TAGS file.items line.now (records_of log.file.bytes.items)) }
    ensures rest { IfOk result (λ log. IsRest log.file.bytes.items log.file.rest) }
    ensures cut { IfOk result (λ log. IsCutOff file.items log.cut.items) }
    ensures reopens { IfOk result (λ log. log.reopens ≡ false) }
    ensures answers { IfOk result (λ log. Answers TAGS J.limit J.rows log.engine (history_of (records_of log.file.bytes.items))) }
    ensures fault { IfErr result (IsCompactingFault TAGS file.items line.now) }
{
    let own = match over_own::<J, B, TAGS>(alloc, &file) {
        Ok(own) => own,
        Err(fault) => return Err(fault_over_own(fault, job)),
    };
    let left = match job_left(alloc, line, &own) {
        Ok(left) => left,
        Err(error) => return Err(OpeningFault::from(error)),
    };
    match left {
        None => {}
        Some(left) => return Err(OpeningFault::Refused(LogFault::OtherCatalogue { job: left })),
    }
    match compacted_own::<J, B, TAGS>(alloc, file, line, own) {
        Ok(log) => Ok(log),
        Err(fault) => Err(fault_of_compaction(fault, job)),
    }
}

// Makes a log anew over the catalogue of the line, if that is another one, and all else is without a fault.
fn anew_unless_refused<J: RowRepository, B: RowRestoration<J>, const TAGS: bool>(
    alloc: Global,
    file: Vec<u8>,
    line: &[u8],
    fault: OpeningFault,
) -> Result<RestoredLog<J, TAGS>, OpeningFault>
    requires limit { J.limit ≡ most_numbered }
    requires catalogue { (catalogue : List JobTree) × (catalogue_at line.now ≡ Ok catalogue) }
    requires fault { IsOpeningFault TAGS file.items line.now fault }
    ensures anew { IfOk result (λ log. IsMadeAnew TAGS file.items line.now (records_of log.file.bytes.items)) }
    ensures rest { IfOk result (λ log. IsRest log.file.bytes.items log.file.rest) }
    ensures cut { IfOk result (λ log. IsCutOff file.items log.cut.items) }
    ensures reopens { IfOk result (λ log. log.reopens ≡ false) }
    ensures answers { IfOk result (λ log. Answers TAGS J.limit J.rows log.engine (history_of (records_of log.file.bytes.items))) }
    ensures fault { IfErr result (IsCompactingFault TAGS file.items line.now) }
{
    match other_job(fault) {
        Some(job) => made_anew::<J, B, TAGS>(alloc, file, line, job),
        None => Err(fault),
    }
}

/// Restores the log of a script, as [`restore`](crate::restore) does, to compact it. If it doesn't go on
/// with this catalogue, it is made anew over that: its jobs that the given catalogue doesn't have as they
/// were leave, or are others from now on, if no job execution is of them. `line` is the line of the
/// catalogue. There is no host here: a log that is refused is not touched.
///
/// # Errors
///
/// - `Refused`, with the faults of [`restore`](crate::restore) in their order. But `OtherCatalogue` names
///   the first job of the log's catalogue that the given one doesn't have as it was, wherever that stands,
///   and of which there is a job execution. It names the first job that differs if the log can't be
///   restored over its own catalogue, or if what was made isn't restored with the same rows.
/// - `OutOfMemory` if memory is refused, instead of any result.
pub fn restore_to_compact<J: RowRepository, B: RowRestoration<J>, const TAGS: bool>(
    alloc: Global,
    file: Vec<u8>,
    line: &[u8],
    catalogue: Catalogue,
) -> Result<LogToCompact<J, TAGS>, OpeningFault>
    requires limit { J.limit ≡ most_numbered }
    requires catalogue { catalogue_at line.now ≡ Ok catalogue }
    ensures begun { IfOk result (λ made. made.is_compacted ≡ false → IsBegun TAGS file.items line.now (records_of made.log.file.bytes.items)) }
    ensures anew { IfOk result (λ made. IsTrue made.is_compacted → IsMadeAnew TAGS file.items line.now (records_of made.log.file.bytes.items)) }

    // Its last catalogue has the given jobs.
    ensures jobs { IfOk result (λ made. jobs_at (history_of (records_of made.log.file.bytes.items)) ≡ catalogue) }

    ensures rest { IfOk result (λ made. IsRest made.log.file.bytes.items made.log.file.rest) }
    ensures cut { IfOk result (λ made. IsCutOff file.items made.log.cut.items) }
    ensures reopens { IfOk result (λ made. IsTrue made.log.reopens → Reopens file.items made.log.file.bytes.items made.log.file.rest.end) }
    ensures compacted { IfOk result (λ made. IsTrue made.is_compacted → made.log.reopens ≡ false) }
    ensures answers { IfOk result (λ made. Answers TAGS J.limit J.rows made.log.engine (history_of (records_of made.log.file.bytes.items))) }
    ensures fault { IfErr result (IsCompactingFault TAGS file.items line.now) }
{
    let ran = match replay_file::<J, B, TAGS>(alloc, &file, line, catalogue) {
        Ok(ran) => ran,
        Err(fault) => {
            return match anew_unless_refused::<J, B, TAGS>(alloc, file, line, fault) {
                Ok(log) => Ok(LogToCompact {
                    log,
                    is_compacted: true,
                }),
                Err(fault) => Err(fault),
            };
        }
    };
    match gone_on(alloc, file, line, ran) {
        Ok(log) => Ok(LogToCompact {
            log,
            is_compacted: false,
        }),
        Err(error) => Err(OpeningFault::from(error)),
    }
}
