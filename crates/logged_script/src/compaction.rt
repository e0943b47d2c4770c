// The log of a repository's rows, with no operation behind them.
ghost use Rattle.std.specs.Prelude.{◌≡◌, [], false, List, Ok, IfOk};
ghost use Rattle.batch_history.specs.Legal.{most_numbered};
ghost use Rattle.durable_log.specs.Logs.{records_of, IsRest};
ghost use Rattle.jsl_model.specs.Jobs.{JobTree};
ghost use Rattle.script_engine.specs.Script.{catalogue_at};
ghost use Rattle.script_log.specs.Runs.{History as LogHistory, history_of};
ghost use Rattle.catalogue_laws.specs.Leaving.{KeepsJobs};
ghost use Rattle.logged_script.specs.Compactions.{IsCompacted, IsCompactedOver};
ghost use Rattle.logged_script.specs.Histories.{Answers, jobs_at, jobs_read, rows_at};

use crate::catalogue::catalogue_at;
use crate::engine::ScriptEngine;
use crate::opening::RestoredLog;
use base_text::BaseTextFault;
use log_base::rebuilt_log;
use row_repository::{RowRepository, RowRestoration};
use std::alloc::Global;
use std::error::Error;
use std::fmt;

/// The reason why a log is not compacted.
#[derive(Clone, Copy, Debug, PartialEq, Eq)]
pub enum CompactionFault {
    /// The log that was made isn't restored with the same rows.
    NotAlike,
    /// Memory was refused.
    OutOfMemory,
}

impl fmt::Display for CompactionFault {
    fn fmt<W: fmt::Write>(&self, f: &mut fmt::Formatter<W>) -> fmt::Result {
        f.write_str(match self {
            CompactionFault::NotAlike => "the compacted log isn't restored with the same rows",
            CompactionFault::OutOfMemory => "out of memory",
        })
    }
}

impl Error for CompactionFault {}

impl From<BaseTextFault> for CompactionFault {
    fn from(fault: BaseTextFault) -> CompactionFault {
        match fault {
            BaseTextFault::NotReadBack => CompactionFault::NotAlike,
            BaseTextFault::OutOfMemory => CompactionFault::OutOfMemory,
        }
    }
}

/// Makes the log of a restored one anew: its catalogue, whose line is `line`, and as its base the rows
/// of its engine, which is left as it is. There is no host here: no file changes.
///
/// Each line of the base is read back as it is written, and compared with its row. The engine of the
/// new log is restored, by `B`, from what was read, so a wrong base can't pass. It takes the time of
/// an opening of the new log and of writing it, and the memory of a further engine.
///
/// # Errors
///
/// - `NotAlike` if the new log isn't restored, or not with the same rows.
/// - `OutOfMemory` if memory is refused.
pub fn compacted<J: RowRepository, B: RowRestoration<J>, const TAGS: bool>(
    alloc: Global,
    line: &[u8],
    engine: &ScriptEngine<J, TAGS>,
) -> Result<RestoredLog<J, TAGS>, CompactionFault>
    requires limit { J.limit ≡ most_numbered }
    requires catalogue { (catalogue : List JobTree) × (catalogue_at line.now ≡ Ok catalogue) }

    // The new log has this catalogue, no line, and the rows of any history of the same jobs that the
    // engine represents.
    ensures compacted { IfOk result (λ log. (h : LogHistory) → Answers TAGS J.limit J.rows engine.now h → jobs_at h ≡ jobs_read (catalogue_at line.now)
        → IsCompacted TAGS h line.now (history_of (records_of log.file.bytes.items))) }

    // So it is over other jobs, if that has the jobs of all job executions as they were.
    ensures over { IfOk result (λ log. (h : LogHistory) → Answers TAGS J.limit J.rows engine.now h → KeepsJobs (rows_at TAGS h) (jobs_read (catalogue_at line.now))
        → IsCompactedOver TAGS h line.now (history_of (records_of log.file.bytes.items))) }

    ensures answers { IfOk result (λ log. Answers TAGS J.limit J.rows log.engine (history_of (records_of log.file.bytes.items))) }
    ensures rest { IfOk result (λ log. IsRest log.file.bytes.items log.file.rest) }
    ensures cut { IfOk result (λ log. log.cut.items ≡ []) }
    ensures reopens { IfOk result (λ log. log.reopens ≡ false) }
{
    let catalogue = match catalogue_at(alloc, line) {
        Ok(catalogue) => catalogue,
        Err(_) => return Err(CompactionFault::OutOfMemory),
    };
    let made = rebuilt_log::<J, B>(alloc, line, catalogue, engine.repository())?;
    match ScriptEngine::over(alloc, made.repository) {
        Ok(engine) => Ok(RestoredLog {
            file: made.file,
            cut: Vec::new(alloc),
            reopens: false,
            engine,
        }),
        Err(_) => Err(CompactionFault::OutOfMemory),
    }
}
