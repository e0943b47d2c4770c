ghost use Rattle.std.specs.Prelude.{◌≡◌, ◌+◌, length, map, IfOk, IfErr, OnOk, ◌∷◌};
ghost use Rattle.batch_history.specs.Legal.{most_numbered};
ghost use Rattle.durable_log.specs.Shown.{record_shown};
ghost use Rattle.script_log.specs.Bases.{lines_of_records};
ghost use Rattle.log_base.specs.Bases.{HasHeadAndRows, IsBase, IsBaseFault, IsPlacedBelow, rows_of_base};

use crate::adding::add_lines;
use crate::fault::{BaseFault, LineFault};
use crate::head::begin;
use durable_log::Record;
use jsl_model::Catalogue;
use row_repository::{RowFault, RowRepository, RowRestoration};
use std::alloc::Global;

/// Restores the repository of a base that has lines.
fn restored<J: RowRepository, B: RowRestoration<J>>(
    alloc: Global,
    catalogue: Catalogue,
    first: &[u8],
    others: &[Record<'_>],
) -> Result<J, BaseFault>
    requires { J.limit ≡ most_numbered }
    ensures base { OnOk result (HasHeadAndRows J.limit catalogue first.now (lines_of_records (map record_shown others.now))) }
    ensures rows { IfOk result (λ made. J.rows made
        ≡ rows_of_base catalogue (first.now ∷ lines_of_records (map record_shown others.now))) }
    ensures bad { IfErr result (IsBaseFault J.limit catalogue (first.now ∷ lines_of_records (map record_shown others.now))) }
    ensures within { IfErr result (IsPlacedBelow (length others.now + 1)) }
{
    let mut rows: B = match begin(alloc, catalogue, first, others.len()) {
        Ok(rows) => rows,
        Err(LineFault::Bad) => return Err(BaseFault::BadLine { place: 0 }),
        Err(LineFault::OutOfMemory) => return Err(BaseFault::OutOfMemory),
    };
    match add_lines(alloc, &mut rows, others) {
        Ok(()) => {}
        Err(BaseFault::BadLine { place }) => return Err(BaseFault::BadLine { place: place + 1 }),
        Err(BaseFault::OutOfMemory) => return Err(BaseFault::OutOfMemory),
    }
    match rows.finish() {
        Ok(made) => Ok(made),
        Err(RowFault::OutOfMemory) => Err(BaseFault::OutOfMemory),
        Err(_) => Err(BaseFault::BadLine { place: 0 }),
    }
}

/// Restores the repository of a base, whose lines are those of these records: a head, and behind it
/// a row each. Without records it is a repository without operations. `B` is the type that restores
/// a `J`.
///
/// # Errors
///
/// - `BadLine` with the place of the first line, counted from 0, that is no row which may stand
///   there. It is 0 if that is no head, or if the base has more or fewer rows than its head says,
///   or at last if a job execution shows another batch status or exit status than its work items
///   give it.
/// - `OutOfMemory` if memory is refused, instead of any result.
pub fn restored_base<J: RowRepository, B: RowRestoration<J>>(
    alloc: Global,
    catalogue: Catalogue,
    base: &[Record<'_>],
) -> Result<J, BaseFault>
    requires { J.limit ≡ most_numbered }
    ensures base { OnOk result (IsBase J.limit catalogue (lines_of_records (map record_shown base.now))) }
    ensures rows { IfOk result (λ made. J.rows made
        ≡ rows_of_base catalogue (lines_of_records (map record_shown base.now))) }
    ensures bad { IfErr result (IsBaseFault J.limit catalogue (lines_of_records (map record_shown base.now))) }
    ensures within { IfErr result (IsPlacedBelow (length base.now)) }
{
    match base {
        [first, others @ ..] => restored::<J, B>(alloc, catalogue, first.line, others),
        [] => match J::new(alloc, catalogue) {
            Ok(made) => Ok(made),
            Err(_) => Err(BaseFault::OutOfMemory),
        },
    }
}
