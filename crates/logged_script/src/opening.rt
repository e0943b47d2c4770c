// Restoring the log of a script: pure functions over the bytes of its file.
ghost use Rattle.std.specs.Prelude.{◌≡◌, ◌≤◌, ◌^◌, List, length, map, false, Ok, IfOk, IfErr, IsTrue};
ghost use Rattle.batch_history.specs.Legal.{most_numbered};
ghost use Rattle.durable_log.specs.Files.{StandsFor};
ghost use Rattle.durable_log.specs.Logs.{records_of, IsRest, Reopens};
ghost use Rattle.durable_log.specs.Shown.{record_shown, IsEnd};
ghost use Rattle.jsl_model.specs.Jobs.{JobTree};
ghost use Rattle.script_engine.specs.Script.{catalogue_at};
ghost use Rattle.script_log.specs.Runs.{history_of};
ghost use Rattle.script_log.specs.Replays.{AreAlike, begun, replayed, IsReplayFault};
ghost use Rattle.script_log.specs.declared.replays.ReplayFault.{ReplayFault as WhyNot};
ghost use Rattle.logged_script.specs.declared.opening.OpeningFault.TheVariants.{OutOfMemory};
ghost use Rattle.logged_script.specs.Histories.{Answers, is_kept, jobs_at, reply_at};
ghost use Rattle.logged_script.specs.Faults.{GoesOnFrom, HasBase, HasCatalogue, IsOpeningFault};
ghost use Rattle.logged_script.specs.Openings.{IsBegun, KeepsBase, KeepsHistories, IsCutOff, records_begun, fault_of_read, fault_of_replay};

use crate::base::engine_of_base;
use crate::catalogue::has_grown;
use crate::engine::ScriptEngine;
use crate::fault::LogFault;
use durable_log::{CleanLog, End, LogFile, ReadFault, Record, read_log, restored, with_record};
use jsl_model::Catalogue;
use row_repository::{RowRepository, RowRestoration};
use script_log::{CATALOGUE_MARK, ReplayFault, replay};
use std::alloc::{AllocError, Global};
use std::error::Error;
use std::fmt;

/// The reason why the log of a script is not restored.
#[derive(Clone, Copy, Debug, PartialEq, Eq)]
pub enum OpeningFault {
    /// The log is refused.
    Refused(LogFault),
    /// Memory was refused.
    OutOfMemory,
}

impl fmt::Display for OpeningFault {
    fn fmt<W: fmt::Write>(&self, f: &mut fmt::Formatter<W>) -> fmt::Result {
        f.write_str(match self {
            OpeningFault::Refused(fault) => fault.name(),
            OpeningFault::OutOfMemory => "out of memory",
        })
    }
}

impl Error for OpeningFault {}

impl From<AllocError> for OpeningFault {
    ghost from_gives = { λ _ fault. fault ≡ OutOfMemory };

    fn from(_error: AllocError) -> OpeningFault {
        OpeningFault::OutOfMemory
    }
}

/// The restored log of a script, and the engine that represents the history of its records.
#[derive(Drop)]
pub struct RestoredLog<J: RowRepository, const TAGS: bool> {
    /// The bytes of the new file, and the place at which its log goes on.
    pub file: LogFile,
    /// The bytes after the records of the old file, if its end was neither clean nor sealed.
    pub cut: Vec<u8>,
    /// Whether the old file was sealed, and a shut gate over its seal makes it the new one.
    pub reopens: bool,
    /// The engine.
    pub engine: ScriptEngine<J, TAGS>,
}

/// A log whose lines were run again.
#[derive(Drop)]
pub(crate) struct Replayed<J: RowRepository, const TAGS: bool> {
    /// What stands at the end of its file.
    pub(crate) end: End,
    /// Whether the given catalogue has more jobs than its own.
    pub(crate) grown: bool,
    /// The engine.
    pub(crate) engine: ScriptEngine<J, TAGS>,
}

// Returns the fault of a log whose file can't be read as one.
fn unreadable(fault: ReadFault) -> OpeningFault
    ensures { result ≡ fault_of_read fault }
{
    match fault {
        ReadFault::Foreign => OpeningFault::Refused(LogFault::Foreign),
        ReadFault::Later => OpeningFault::Refused(LogFault::Later),
        ReadFault::Damaged { number, byte } => {
            OpeningFault::Refused(LogFault::Damaged { number, byte })
        }
        ReadFault::OutOfMemory => OpeningFault::OutOfMemory,
    }
}

// Returns the fault of a log whose lines can't be run again.
fn unanswered(fault: ReplayFault) -> OpeningFault
    ensures { result ≡ fault_of_replay fault }
{
    match fault {
        ReplayFault::OtherReply { number } => {
            OpeningFault::Refused(LogFault::OtherReply { number })
        }
        ReplayFault::OutOfMemory => OpeningFault::OutOfMemory,
    }
}

// Runs the lines of records again, over the engine of their base.
fn replay_records<J: RowRepository, const TAGS: bool>(
    alloc: Global,
    records: &[Record<'_>],
    mut engine: ScriptEngine<J, TAGS>,
    line: &[u8],
) -> Result<ScriptEngine<J, TAGS>, OpeningFault>
    requires { Answers TAGS J.limit J.rows engine (begun line.now (map record_shown records.now)) }
    ensures alike { IfOk result (λ _. AreAlike (is_kept TAGS) (reply_at TAGS) (begun line.now (map record_shown records.now)) (map record_shown records.now)) }
    ensures answers { IfOk result (λ ran. Answers TAGS J.limit J.rows ran (replayed line.now (map record_shown records.now))) }
    ensures fault { IfErr result (λ fault. (why : WhyNot) × (fault ≡ fault_of_replay why)
        × IsReplayFault (is_kept TAGS) (reply_at TAGS) line.now (map record_shown records.now) why) }
{
    match replay(alloc, &mut engine, line, records) {
        Ok(()) => Ok(engine),
        Err(fault) => Err(unanswered(fault)),
    }
}

/// Reads a log, restores its base, and runs its lines again.
pub(crate) fn replay_file<J: RowRepository, B: RowRestoration<J>, const TAGS: bool>(
    alloc: Global,
    file: &[u8],
    line: &[u8],
    catalogue: Catalogue,
) -> Result<Replayed<J, TAGS>, OpeningFault>
    requires limit { J.limit ≡ most_numbered }
    requires catalogue { catalogue_at line.now ≡ Ok catalogue }
    ensures whole { IfOk result (λ _. StandsFor (records_of file.now) file.now) }
    ensures end { IfOk result (λ ran. IsEnd file.now ran.end) }
    ensures goes_on { IfOk result (λ ran. GoesOnFrom (records_of file.now) line.now ran.grown) }
    ensures base { IfOk result (λ _. HasBase (records_of file.now) catalogue) }
    ensures alike { IfOk result (λ _. AreAlike (is_kept TAGS) (reply_at TAGS) (begun line.now (records_of file.now)) (records_of file.now)) }
    ensures answers { IfOk result (λ ran. Answers TAGS J.limit J.rows ran.engine (replayed line.now (records_of file.now))) }
    ensures fault { IfErr result (IsOpeningFault TAGS file.now line.now) }
{
    let contents = match read_log(alloc, file) {
        Ok(contents) => contents,
        Err(fault) => return Err(unreadable(fault)),
    };
    let grown = match has_grown(alloc, &contents.records, &catalogue) {
        Ok(grown) => grown,
        Err(fault) => return Err(fault),
    };
    let engine = match engine_of_base::<J, B, TAGS>(alloc, &contents.records, catalogue) {
        Ok(engine) => engine,
        Err(fault) => return Err(fault),
    };
    match replay_records(alloc, &contents.records, engine, line) {
        Ok(engine) => Ok(Replayed {
            end: contents.end,
            grown,
            engine,
        }),
        Err(fault) => Err(fault),
    }
}

/// Returns the bytes of the new file: a clean end, and one more record if the catalogue has grown.
pub(crate) fn new_file(
    alloc: Global,
    file: Vec<u8>,
    end: End,
    line: &[u8],
    grown: bool,
) -> Result<CleanLog, AllocError>
    requires end { IsEnd file.items end }
    requires short { length line.now ≤ 2 ^ 24 }
    ensures records { IfOk result (λ made. records_of made.file.bytes.items ≡ records_begun (records_of file.items) line.now grown) }
    ensures rest { IfOk result (λ made. IsRest made.file.bytes.items made.file.rest) }
    ensures cut { IfOk result (λ made. IsCutOff file.items made.cut.items) }
    ensures reopens { IfOk result (λ made. IsTrue end.is_sealed → grown ≡ false → Reopens file.items made.file.bytes.items made.file.rest.end) }
{
    let clean = restored(alloc, file, end)?;
    if !grown {
        return Ok(clean);
    }
    let CleanLog { file, cut } = clean;
    let entry = Record {
        mark: CATALOGUE_MARK,
        line,
        reply_check: 0,
    };
    let file = with_record(alloc, file, entry)?;
    Ok(CleanLog { file, cut })
}

/// Returns a log whose lines were run again, and which goes on in its new file.
pub(crate) fn gone_on<J: RowRepository, const TAGS: bool>(
    alloc: Global,
    file: Vec<u8>,
    line: &[u8],
    ran: Replayed<J, TAGS>,
) -> Result<RestoredLog<J, TAGS>, AllocError>
    requires end { IsEnd file.items ran.end }
    requires short { length line.now ≤ 2 ^ 24 }
    requires goes_on { GoesOnFrom (records_of file.items) line.now ran.grown }
    requires answers { Answers TAGS J.limit J.rows ran.engine (replayed line.now (records_of file.items)) }
    ensures records { IfOk result (λ log. records_of log.file.bytes.items ≡ records_begun (records_of file.items) line.now ran.grown) }
    ensures rest { IfOk result (λ log. IsRest log.file.bytes.items log.file.rest) }
    ensures cut { IfOk result (λ log. IsCutOff file.items log.cut.items) }
    ensures reopens { IfOk result (λ log. IsTrue log.reopens → Reopens file.items log.file.bytes.items log.file.rest.end) }
    ensures answers { IfOk result (λ log. Answers TAGS J.limit J.rows log.engine (history_of (records_of log.file.bytes.items))) }
{
    let Replayed { end, grown, engine } = ran;
    let reopens = end.is_sealed && !grown;
    let made = new_file(alloc, file, end, line, grown)?;
    Ok(RestoredLog {
        file: made.file,
        cut: made.cut,
        reopens,
        engine,
    })
}

/// Restores the log of a script with this catalogue: reads its file, restores the repository of its
/// base by `B`, runs each line of the log again, and returns the bytes of a new file with the same
/// records and a clean end. If the catalogue has more jobs than the log's, it is one more record.
/// `line` is the line of the catalogue. With `TAGS`, the log's lines may have tags ([`command_of`](crate::command_of)). There is
/// no host here: a log that is refused is not touched.
///
/// # Errors
///
/// - `Refused`, with the first fault in this order: `Foreign`, `Later`, `Damaged`; `Foreign` if
///   record 0 is no catalogue or the last catalogue can't be read; `OtherCatalogue`; `BadBase`;
///   `OtherReply`.
/// - `OutOfMemory` if memory is refused, instead of any result.
pub fn restore<J: RowRepository, B: RowRestoration<J>, const TAGS: bool>(
    alloc: Global,
    file: Vec<u8>,
    line: &[u8],
    catalogue: Catalogue,
) -> Result<RestoredLog<J, TAGS>, OpeningFault>
    requires limit { J.limit ≡ most_numbered }
    requires catalogue { catalogue_at line.now ≡ Ok catalogue }
    ensures begun { IfOk result (λ log. IsBegun TAGS file.items line.now (records_of log.file.bytes.items)) }

    // Each legal history over the log's catalogue is legal over the given one, with equal rows. One
    // with the rows of the log's base has those of the base over the given one, if the same jobs are
    // hidden behind that.
    ensures histories { IfOk result (λ _. (kept : List JobTree) → HasCatalogue (records_of file.items) kept → KeepsHistories kept catalogue) }
    ensures base { IfOk result (λ log. KeepsBase catalogue (history_of (records_of file.items)) (history_of (records_of log.file.bytes.items))) }

    // Its last catalogue has the given jobs.
    ensures jobs { IfOk result (λ log. jobs_at (history_of (records_of log.file.bytes.items)) ≡ catalogue) }

    ensures rest { IfOk result (λ log. IsRest log.file.bytes.items log.file.rest) }
    ensures cut { IfOk result (λ log. IsCutOff file.items log.cut.items) }
    ensures reopens { IfOk result (λ log. IsTrue log.reopens → Reopens file.items log.file.bytes.items log.file.rest.end) }
    ensures answers { IfOk result (λ log. Answers TAGS J.limit J.rows log.engine (history_of (records_of log.file.bytes.items))) }
    ensures fault { IfErr result (IsOpeningFault TAGS file.items line.now) }
{
    let ran = match replay_file::<J, B, TAGS>(alloc, &file, line, catalogue) {
        Ok(ran) => ran,
        Err(fault) => return Err(fault),
    };
    match gone_on(alloc, file, line, ran) {
        Ok(log) => Ok(log),
        Err(error) => Err(OpeningFault::from(error)),
    }
}
