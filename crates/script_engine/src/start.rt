ghost use Rattle.std.specs.Prelude.{◌≡◌};
ghost use Rattle.script_text.specs.Starts.{IsStart};
ghost use Rattle.script_engine.specs.Script.{start_at};

use script_lines::MAX_LINE;
use script_text::{StartFault, StartLine};
use std::alloc::Global;

/// Reads the start of a job from a line of a run, without its line feed: `{"job":T}` or
/// `{"job":T,"parameters":{..}}`, with the bounds of a script's `start`. The time is that of
/// reading the JSON.
///
/// # Errors
///
/// - `BadLine` if the line is anything else, or has more than [`MAX_LINE`] bytes. This is decided
///   over the whole line before any text's length.
/// - `TextTooLong` if a text is above its bound, or there are more than 64 parameters.
/// - `OutOfMemory` if memory is refused.
pub fn read_start(alloc: Global, line: &[u8]) -> Result<StartLine, StartFault>
    ensures bound { MAX_LINE ≡ 16777216 }
    ensures start { IsStart (start_at line.now) result }
{
    if line.len() > MAX_LINE {
        return Err(StartFault::BadLine);
    }
    script_text::read_start(alloc, line)
}
