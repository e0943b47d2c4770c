// Rows as lines. Each line is read back by the reader of bases before it is handed out, so that it
// has the row.
ghost use Rattle.std.specs.Prelude.{◌≡◌, Some, IfOk};
ghost use Rattle.base_text.specs.Lines.{base_line_of};

use crate::fault::{BaseLineFault, BaseTextFault};
use crate::head::BaseHead;
use crate::line::{BaseLine, read_base_line};
use crate::sameness::{is_checkpoint, is_execution, is_head, is_work};
use crate::written::{write_checkpoint, write_execution, write_head, write_work};
use batch_history::{CheckpointRow, ExecutionRow, WorkRow};
use batch_ids::OutOfMemory;
use json::Writer;
use std::alloc::Global;

/// The line of a row, without a line feed, and the row that was read back from it.
#[derive(Debug, Drop)]
pub struct WrittenLine {
    /// The bytes of the line.
    pub text: Vec<u8>,
    /// The row.
    pub row: BaseLine,
}

/// Writes the first line of a base, without a line feed, by the format of `read_base_line`.
///
/// # Errors
///
/// - `NotReadBack` if the line isn't read back as this head, which is a fault of this crate.
/// - `OutOfMemory` if memory is refused.
pub fn head_text(alloc: Global, head: &BaseHead) -> Result<Vec<u8>, BaseTextFault>
    ensures { IfOk result (λ text. base_line_of text.items ≡ Some (BaseLine.Head head.now)) }
{
    let mut out = new_line(alloc)?;
    write_head(&mut out, head)?;
    let line = read_back(alloc, out.into_inner())?;
    if is_head(&line.row, head) {
        Ok(line.text)
    } else {
        Err(BaseTextFault::NotReadBack)
    }
}

/// Writes the row of a job execution, without a line feed, by the format of `read_base_line`.
///
/// # Errors
///
/// - `NotReadBack` if the line isn't read back as this row, which is a fault of this crate.
/// - `OutOfMemory` if memory is refused.
pub fn execution_line(alloc: Global, row: &ExecutionRow) -> Result<WrittenLine, BaseTextFault>
    ensures line { IfOk result (λ line. base_line_of line.text.items ≡ Some line.row) }
    ensures row { IfOk result (λ line. line.row ≡ BaseLine.Execution row.now) }
{
    let mut out = new_line(alloc)?;
    write_execution(&mut out, row)?;
    let line = read_back(alloc, out.into_inner())?;
    if is_execution(&line.row, row) {
        Ok(line)
    } else {
        Err(BaseTextFault::NotReadBack)
    }
}

/// Writes the row of a work item, without a line feed, by the format of `read_base_line`.
///
/// # Errors
///
/// - `NotReadBack` if the line isn't read back as this row: the moment or the number of its end is
///   there though it is busy, or missing though it is over. No history has such a row. In any other
///   case it is a fault of this crate.
/// - `OutOfMemory` if memory is refused.
pub fn work_line(alloc: Global, row: &WorkRow) -> Result<WrittenLine, BaseTextFault>
    ensures line { IfOk result (λ line. base_line_of line.text.items ≡ Some line.row) }
    ensures row { IfOk result (λ line. line.row ≡ BaseLine.Work row.now) }
{
    let mut out = new_line(alloc)?;
    write_work(&mut out, row)?;
    let line = read_back(alloc, out.into_inner())?;
    if is_work(&line.row, row) {
        Ok(line)
    } else {
        Err(BaseTextFault::NotReadBack)
    }
}

/// Writes the row of a checkpoint, without a line feed, by the format of `read_base_line`.
///
/// # Errors
///
/// - `NotReadBack` if the line isn't read back as this row, which is a fault of this crate.
/// - `OutOfMemory` if memory is refused.
pub fn checkpoint_line(alloc: Global, row: &CheckpointRow) -> Result<WrittenLine, BaseTextFault>
    ensures line { IfOk result (λ line. base_line_of line.text.items ≡ Some line.row) }
    ensures row { IfOk result (λ line. line.row ≡ BaseLine.Checkpoint row.now) }
{
    let mut out = new_line(alloc)?;
    write_checkpoint(&mut out, row)?;
    let line = read_back(alloc, out.into_inner())?;
    if is_checkpoint(&line.row, row) {
        Ok(line)
    } else {
        Err(BaseTextFault::NotReadBack)
    }
}

/// Makes the writer of a line.
fn new_line(alloc: Global) -> Result<Writer, OutOfMemory> {
    Ok(Writer::new(Vec::with_capacity(alloc, 256)?))
}

/// Reads a written line.
fn read_back(alloc: Global, text: Vec<u8>) -> Result<WrittenLine, BaseTextFault>
    ensures { IfOk result (λ line. base_line_of line.text.items ≡ Some line.row) }
{
    match read_base_line(alloc, text.as_slice()) {
        Ok(row) => Ok(WrittenLine { text, row }),
        Err(BaseLineFault::NotABaseLine) => Err(BaseTextFault::NotReadBack),
        Err(BaseLineFault::OutOfMemory) => Err(BaseTextFault::OutOfMemory),
    }
}
