ghost use Rattle.std.specs.Prelude.{◌≡◌, true, false, Err, length, map, OnOk, IfErr, Some};
ghost use Rattle.durable_log.specs.Shown.{record_shown};
ghost use Rattle.script_log.specs.Bases.{lines_of_records};
ghost use Rattle.log_base.specs.Bases.{AreNextLines, IsFirstBadFault, IsPlacedBelow, is_next_line, is_next_row, with_line, with_row, with_rows_of};

use crate::fault::{BaseFault, LineFault};
use base_text::{BaseLine, BaseLineFault, read_base_line};
use durable_log::Record;
use row_repository::{RowFault, RowRepository, RowRestoration};
use std::alloc::Global;

/// Adds the row of a line.
pub(crate) fn add_row<J: RowRepository, B: RowRestoration<J>>(
    rows: &mut B,
    line: BaseLine,
) -> Result<(), LineFault>
    ensures next { OnOk result (is_next_row (B.rows rows.old) (Some line) ≡ true) }
    ensures added { OnOk result (B.rows rows.new ≡ with_row (B.rows rows.old) (Some line)) }
    ensures bad { result ≡ Err LineFault.Bad → is_next_row (B.rows rows.old) (Some line) ≡ false }
{
    let added = match line {
        BaseLine::Head(_) => return Err(LineFault::Bad),
        BaseLine::Execution(row) => rows.add_execution(row),
        BaseLine::Work(row) => rows.add_work(row),
        BaseLine::Checkpoint(row) => rows.add_checkpoint(row),
    };
    match added {
        Ok(()) => Ok(()),
        Err(RowFault::OutOfMemory) => Err(LineFault::OutOfMemory),
        Err(_) => Err(LineFault::Bad),
    }
}

/// Adds the row that a line has.
fn add_line<J: RowRepository, B: RowRestoration<J>>(
    alloc: Global,
    rows: &mut B,
    line: &[u8],
) -> Result<(), LineFault>
    ensures next { OnOk result (is_next_line (B.rows rows.old) line.now ≡ true) }
    ensures added { OnOk result (B.rows rows.new ≡ with_line (B.rows rows.old) line.now) }
    ensures bad { result ≡ Err LineFault.Bad → is_next_line (B.rows rows.old) line.now ≡ false }
{
    match read_base_line(alloc, line) {
        Ok(row) => add_row(rows, row),
        Err(BaseLineFault::NotABaseLine) => Err(LineFault::Bad),
        Err(BaseLineFault::OutOfMemory) => Err(LineFault::OutOfMemory),
    }
}

/// Adds the rows of lines, one after another. A place counts the lines before it.
pub(crate) fn add_lines<J: RowRepository, B: RowRestoration<J>>(
    alloc: Global,
    rows: &mut B,
    lines: &[Record<'_>],
) -> Result<(), BaseFault>
    ensures next { OnOk result (AreNextLines (B.rows rows.old) (lines_of_records (map record_shown lines.now))) }
    ensures added { OnOk result (B.rows rows.new ≡ with_rows_of (B.rows rows.old) (lines_of_records (map record_shown lines.now))) }
    ensures bad { IfErr result (IsFirstBadFault (B.rows rows.old) (lines_of_records (map record_shown lines.now))) }
    ensures within { IfErr result (IsPlacedBelow (length lines.now)) }
{
    let mut rest = lines;
    while let [entry, later @ ..] = rest {
        match add_line(alloc, rows, entry.line) {
            Ok(()) => {}
            Err(LineFault::Bad) => {
                let place = lines.len() - rest.len();
                return Err(BaseFault::BadLine { place });
            }
            Err(LineFault::OutOfMemory) => return Err(BaseFault::OutOfMemory),
        }
        rest = later;
    }
    Ok(())
}
