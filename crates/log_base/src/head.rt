ghost use Rattle.std.specs.Prelude.{◌≡◌, Some, None, Err, IfOk, OnOk};
ghost use Rattle.batch_history.specs.Legal.{most_numbered};
ghost use Rattle.base_text.specs.Lines.{base_line_of};
ghost use Rattle.log_base.specs.Bases.{IsHead, head_in, rows_at_head};

use crate::fault::LineFault;
use base_text::{BaseHead, BaseLine, BaseLineFault, read_base_line};
use jsl_model::Catalogue;
use row_repository::{RowRepository, RowRestoration};
use std::alloc::Global;

/// Returns the head in a line, if that is one.
fn head_in(line: BaseLine) -> Option<BaseHead>
    ensures { result ≡ head_in (Some line) }
{
    match line {
        BaseLine::Head(head) => Some(head),
        BaseLine::Execution(row) => {
            drop(row);
            None
        }
        BaseLine::Work(row) => {
            drop(row);
            None
        }
        BaseLine::Checkpoint(row) => {
            drop(row);
            None
        }
    }
}

/// Reads the head of a base.
fn read_head(alloc: Global, line: &[u8]) -> Result<BaseHead, LineFault>
    ensures head { IfOk result (λ head. head_in (base_line_of line.now) ≡ Some head) }
    ensures bad { result ≡ Err LineFault.Bad → head_in (base_line_of line.now) ≡ None }
{
    let read = match read_base_line(alloc, line) {
        Ok(read) => read,
        Err(BaseLineFault::NotABaseLine) => return Err(LineFault::Bad),
        Err(BaseLineFault::OutOfMemory) => return Err(LineFault::OutOfMemory),
    };
    match head_in(read) {
        Some(head) => Ok(head),
        None => Err(LineFault::Bad),
    }
}

/// Begins to restore the rows behind a head, which has to count so many lines.
pub(crate) fn begin<J: RowRepository, B: RowRestoration<J>>(
    alloc: Global,
    catalogue: Catalogue,
    line: &[u8],
    lines: usize,
) -> Result<B, LineFault>
    requires { J.limit ≡ most_numbered }
    ensures head { OnOk result (IsHead J.limit line.now lines) }
    ensures begun { IfOk result (λ rows. B.rows rows ≡ rows_at_head catalogue (head_in (base_line_of line.now))) }
    ensures bad { result ≡ Err LineFault.Bad → IsHead J.limit line.now lines → ⊥ }
{
    let head = match read_head(alloc, line) {
        Ok(head) => head,
        Err(fault) => {
            drop(catalogue);
            return Err(fault);
        }
    };
    if head.rows != lines as u64 {
        drop(catalogue);
        return Err(LineFault::Bad);
    }
    match B::new(alloc, catalogue, head.count, head.last) {
        Some(rows) => Ok(rows),
        None => Err(LineFault::Bad),
    }
}
