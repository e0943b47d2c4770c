// The start lines of a run.
ghost use Rattle.std.specs.Prelude.{◌≡◌, IfOk, option_map};
ghost use Rattle.serde_json.specs.View.{view};
ghost use Rattle.script_text.specs.RawCommands.{pairs_in};
ghost use Rattle.script_text.specs.Starts.{start_at, start_within, bounded_start, start_of_line, IsStart};
ghost use Rattle.script_text.specs.declared.start.StartFault.TheVariants.{OutOfMemory};

use crate::bounds::text_within;
use crate::parameters::{parameters_at, parameters_within};
use batch_ids::{Parameters, T256};
use json_members::{has_only, read_value, text_at};
use lent_json::{Look, Texts};
use serde_json::Value;
use std::alloc::{AllocError, Global};
use thiserror::Error;

/// A job to start.
#[derive(Debug, PartialEq, Eq, Drop)]
pub struct StartLine {
    /// The name of the job.
    pub job: T256,
    /// The parameters of the job execution.
    pub parameters: Parameters,
}

/// The reason why a line starts no job.
#[derive(Clone, Copy, Debug, PartialEq, Eq, Error)]
pub enum StartFault {
    /// The line is no JSON, or no start of a job: a member is missing, not listed or of another
    /// kind.
    #[error("the line is no start of a job")]
    BadLine,
    /// The line is a start of a job with a text above its bound, or too many parameters.
    #[error("a text is too long")]
    TextTooLong,
    /// Memory was refused.
    #[error("out of memory")]
    OutOfMemory,
}

impl From<AllocError> for StartFault {
    ghost from_gives = { λ _ fault. fault ≡ OutOfMemory };

    fn from(_error: AllocError) -> StartFault {
        StartFault::OutOfMemory
    }
}

/// A start as its line spells it. Its texts may be of any length.
#[derive(Clone, Copy)]
struct RawStart<'a> {
    job: &'a str,
    parameters: Option<Texts<'a, 'a>>,
}

/// Reads the start of a job from a line, without its line feed. The line is an object with the
/// member `job`, a text of at most 256 bytes, and `parameters`, which may be left out. `parameters`
/// is an object of at most 64 texts, with keys of at most 256 bytes and values of at most 4,096.
///
/// # Errors
///
/// - `BadLine` if the line is anything else. This is decided over the whole line before any text's
///   length.
/// - `TextTooLong` if a text is above its bound, or there are too many parameters.
/// - `OutOfMemory` if memory is refused.
#[tactic(auto, unfolding(crate::specs::Starts::start_of_line))]
pub fn read_start(alloc: Global, line: &[u8]) -> Result<StartLine, StartFault>
    ensures { IsStart (start_of_line line.now) result }
{
    let value = read_value(alloc, line)?;
    match value.as_ref().and_then(start_at) {
        None => Err(StartFault::BadLine),
        Some(raw) => start_within(alloc, raw),
    }
}

#[tactic(auto, unfolding(crate::specs::Starts::start_at))]
fn start_at(value: &Value) -> Option<RawStart<'_>>
    ensures { option_map (λ raw. (raw.job.now, pairs_in raw.parameters)) result ≡ start_at (view value.now) }
{
    if !has_only(value, &["job", "parameters"]) {
        return None;
    }
    let job = text_at(value, "job")?;
    let parameters = parameters_at(Look::Own(value))?;
    Some(RawStart { job, parameters })
}

fn start_within(alloc: Global, raw: RawStart<'_>) -> Result<StartLine, StartFault>
    ensures { IsStart (bounded_start (Some (raw.entry.job.now, pairs_in raw.entry.parameters))) result }
{
    let Some(job) = text_within(alloc, raw.job)? else {
        return Err(StartFault::TextTooLong);
    };
    let Some(parameters) = parameters_within(alloc, raw.parameters)? else {
        return Err(StartFault::TextTooLong);
    };
    Ok(StartLine { job, parameters })
}
