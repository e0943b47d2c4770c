// Replying to the lines of a log again.
ghost use Rattle.std.specs.Prelude.{◌≡◌, map, IfOk, IfErr, OnOk};
ghost use Rattle.durable_log.specs.Shown.{record_shown};
ghost use Rattle.script_log.specs.Runs.{History, has_no_reply};
ghost use Rattle.script_log.specs.Replays.{AnswersAlike, AreAlike, begun, replayed, IsReplayFault};
ghost use Rattle.script_log.specs.declared.replays.ReplayFault.TheVariants.{OutOfMemory};

use crate::engine::Engine;
use crate::mark::{BASE_MARK, CATALOGUE_MARK};
use durable_log::{Record, check_of};
use std::alloc::{AllocError, Global};
use std::error::Error;
use std::fmt;

/// The reason why the lines of a log were not all replied to again.
#[derive(Clone, Copy, Debug, PartialEq, Eq)]
pub enum ReplayFault {
    /// The line of this record would not be recorded any more, or its reply has another check.
    OtherReply {
        /// The number of the record, counted from 0.
        number: usize,
    },
    /// Memory was refused.
    OutOfMemory,
}

impl fmt::Display for ReplayFault {
    fn fmt<W: fmt::Write>(&self, f: &mut fmt::Formatter<W>) -> fmt::Result {
        match self {
            ReplayFault::OtherReply { number } => write!(f, "record {number} has another reply"),
            ReplayFault::OutOfMemory => f.write_str("out of memory"),
        }
    }
}

impl Error for ReplayFault {}

impl From<AllocError> for ReplayFault {
    ghost from_gives = { λ _ fault. fault ≡ OutOfMemory };

    fn from(_error: AllocError) -> ReplayFault {
        ReplayFault::OutOfMemory
    }
}

// Checks whether a record has no reply: whether it is a catalogue, or one of the base.
fn has_no_reply(asked: Record<'_>) -> bool
    ensures { result ≡ has_no_reply (record_shown asked.entry) }
{
    asked.mark == CATALOGUE_MARK || asked.mark == BASE_MARK
}

// Replies to the line of a record again, and returns whether the record matches: the line is
// recorded again, and the reply has the same check. A catalogue and a record of the base always
// match, and no reply is made.
fn is_alike<E: Engine>(alloc: Global, engine: &mut E, asked: Record<'_>) -> Result<bool, AllocError>
    ensures { IfOk result (λ alike. (h : History) → E.stands engine.old h
        → AnswersAlike E.keeps E.reply h (record_shown asked.entry) (E.stands engine.new) alike) }
{
    if has_no_reply(asked) {
        return Ok(true);
    }
    let answered = engine.answer(alloc, asked.line)?;
    Ok(answered.kept && check_of(&answered.text) == asked.reply_check)
}

/// Replies to the lines of records again, and brings a fresh engine to their history. The engine was
/// made from `catalogue`, the last one among the records or one that grew, and from the base of the
/// records. It takes no host: no file changes, whatever it returns.
///
/// # Errors
///
/// - `OtherReply` if a line is not recorded any more, or its reply has another check: the first such
///   record.
/// - `OutOfMemory` if memory was refused, instead of any result.
pub fn replay<E: Engine>(
    alloc: Global,
    engine: &mut E,
    _catalogue: &[u8],
    records: &[Record<'_>],
) -> Result<(), ReplayFault>
    requires fresh { E.stands engine.old (begun _catalogue.now (map record_shown records.now)) }
    ensures alike { OnOk result (AreAlike E.keeps E.reply (begun _catalogue.now (map record_shown records.now)) (map record_shown records.now)) }
    ensures stands { OnOk result (E.stands engine.new (replayed _catalogue.now (map record_shown records.now))) }
    ensures fault { IfErr result (IsReplayFault E.keeps E.reply _catalogue.now (map record_shown records.now)) }
{
    let mut rest = records;
    while let [entry, later @ ..] = rest {
        if !is_alike(alloc, engine, *entry)? {
            let number = records.len() - rest.len();
            return Err(ReplayFault::OtherReply { number });
        }
        rest = later;
    }
    Ok(())
}
