// The reply to a line.
ghost use Rattle.std.specs.Prelude.{◌≡◌, ◌++◌, List, ℕ, IfOk, OnErr};
ghost use Rattle.durable_log.specs.Logs.{IsSettled, waiting_in};
ghost use Rattle.script_lines.specs.Lines.{Shows};
ghost use Rattle.script_log.specs.Runs.{History, after, records_of_line};
ghost use Rattle.script_log.specs.InTurn.{HasRoom};

use crate::engine::Engine;
use crate::mark::OPERATION_MARK;
use durable_log::{Host, Log, Record, check_of};
use script_lines::Line;
use std::alloc::{AllocError, Global};

// Returns the reply to a line. If the line is to be recorded, its record then waits in the log.
pub(crate) fn answer_line<H: Host, E: Engine>(
    alloc: Global,
    log: &mut Log<H>,
    engine: &mut E,
    line: &Line,
) -> Result<Vec<u8>, AllocError>
    requires settled { IsSettled H.seen H.heard H.may_leave log.old }
    requires room { HasRoom log.old }
    requires shown { (bytes : List ℕ) × Shows line.now bytes }
    ensures due { IfOk result (λ text. (h : History) (bytes : List ℕ) → Shows line.now bytes → E.stands engine.old h
        → (text.items ≡ E.reply h bytes) × (waiting_in log.new ≡ waiting_in log.old ++ records_of_line E.keeps E.reply h bytes)
        × E.stands engine.new (after E.keeps h bytes)) }
    ensures err { OnErr result (waiting_in log.new ≡ waiting_in log.old) }
    ensures settled { IsSettled H.seen H.heard H.may_leave log.new }
    ensures host { log.new.host ≡ log.old.host }
{
    match line {
        Line::Whole(bytes) => {
            let answered = engine.answer(alloc, bytes)?;
            if answered.kept {
                let reply_check = check_of(&answered.text);
                let entry = Record {
                    mark: OPERATION_MARK,
                    line: bytes,
                    reply_check,
                };
                log.append(alloc, entry)?;
            }
            Ok(answered.text)
        }
        Line::TooLong => engine.answer_too_long(alloc),
    }
}
