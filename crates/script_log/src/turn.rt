// The next line, read in turn: no reply and no record waits while the reader is asked for more.
ghost use Rattle.std.specs.Prelude.{◌<◌, ◌++◌, IsSome, IfOk};
ghost use Rattle.durable_log.specs.Logs.{IsSettled};
ghost use Rattle.script_lines.specs.Device.{Told};
ghost use Rattle.script_lines.specs.Unread.{weight};
ghost use Rattle.script_lines.specs.Lines.{IsPartRead};
ghost use Rattle.script_log.specs.Hosts.{hosting};
ghost use Rattle.script_log.specs.Reading.{reading};
ghost use Rattle.script_log.specs.InTurn.{LineInTurn};

use crate::fault::RunFault;
use crate::passing::commit_and_tell;
use crate::reader::Reader;
use durable_log::{Host, Log};
use script_lines::{AtHand, InputBuffer, Line, OutputBuffer};
use std::alloc::Global;

// Returns the next line. Before each read, the waiting records and replies are passed on.
pub(crate) fn next_line<R: Reader<H>, H: Host>(
    alloc: Global,
    input: &mut InputBuffer,
    source: &mut R,
    log: &mut Log<H>,
    output: &mut OutputBuffer,
) -> Result<Option<Line>, RunFault>
    requires settled { IsSettled H.seen H.heard H.may_leave log.old }
    requires in_turn { (to : Told) → IsPartRead (R.tape source.old) to input.old → R.may_read to (H.heard log.old.host ++ output.old) }
    ensures line { LineInTurn (hosting H.seen H.heard H.may_leave H.moment H.left_since H.origin H.file_faults H.listener_faults)
        (reading (R.tape source.old) (R.tape source.new) input.old input.new) log.old log.new output.old output.new result }
    ensures smaller { IfOk result (λ line. IsSome line → weight input.new < weight input.old) }
{
    let mut part = Line::Whole(Vec::new(alloc));
    'reads: loop {
        part = match input.line_at_hand(part)? {
            AtHand::Line(line) => return Ok(Some(line)),
            AtHand::End(last) => return Ok(last),
            AtHand::Part(longer) => longer,
        };
        commit_and_tell(log, output)?;
        source.fill(input, log)?;
    }
}
