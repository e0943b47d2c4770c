//! The walks of job executions. A cursor stores each of them, from the first claim of the job
//! execution to its end.
ghost use Rattle.std.specs.Prelude.{ℕ, ◌≡◌, ◌++◌, ◌∷◌, [], true, false, None, Some, List, find, option_copied, IfOk, IfSome, if◌then◌else◌};
ghost use Rattle.std.specs.BTreeMap.{get, keys};
ghost use Rattle.std.specs.Ordering.{nat_cmp, is_eq};
ghost use Rattle.batch_ids.specs.declared.metric_step.MetricStep.{MetricStep as Counts};
ghost use Rattle.batch_history.specs.NextRows.{over_as};
ghost use Rattle.batch_history.specs.Walks.{known_elements};
ghost use Rattle.batch_history.specs.Lists.{change_first};
ghost use Rattle.batch_history.specs.Works.{is_work, busy_work, AllApart};
ghost use Rattle.batch_history.specs.declared.rows.ExecutionRow.{ExecutionRow};
ghost use Rattle.batch_history.specs.declared.rows.WorkRow.{WorkRow as Work};
ghost use Rattle.jsl_model.specs.Jobs.{JobTree};
ghost use Rattle.restart_rules.specs.Placed.{is_placed};
ghost use Rattle.seq_repository.specs.Following.{Follows, IsFirst, IsSlotOf, Walks, kept_at};

use crate::search;
use batch_history::{ExecutionRow, WorkItem, WorkRow};
use batch_ids::{ExecutionId, OutOfMemory, T256, WorkId, WorkOutcome};
use job_walk::Cursor;
use jsl_model::Catalogue;
use records::Records;
use restart_rules::known_of;
use std::alloc::Global;
use std::collections::BTreeMap;
use std::fmt::{self, Debug, Formatter};
use walk_rules::Known;

/// The slot for the walk of a job execution. It is empty while an operation has the walk, and after
/// an operation that was refused memory.
#[derive(Drop)]
pub(crate) struct Slot {
    pub(crate) cursor: Option<Cursor>,
}

/// The stored walks, for printing: by the numbers of their job executions, without the empty slots.
#[derive(Drop)]
pub(crate) struct KeptCursors<'a> {
    pub(crate) slots: &'a BTreeMap<u64, Slot>,
}

impl<'a> Debug for KeptCursors<'a> {
    fn fmt<W: fmt::Write>(&self, f: &mut Formatter<W>) -> fmt::Result {
        let mut map = f.debug_map();
        for (number, slot) in self.slots.iter() {
            if let Some(cursor) = &slot.cursor {
                map.entry(number, cursor);
            }
        }
        map.finish()
    }
}

/// Makes the walk of a job execution from the facts about its work keys.
fn resumed(
    alloc: Global,
    catalogue: &Catalogue,
    known: &[Known],
    row: &ExecutionRow,
) -> Result<Cursor, OutOfMemory>
    requires { is_placed catalogue.now row.now ≡ true }
    ensures { (works : List Work) → known.now ≡ known_elements row.now.execution works
        → IfOk result (λ cursor. Follows catalogue.now works row.now cursor) }
{
    match catalogue.job(row.job.as_str()) {
        Some(job) => Cursor::resume(alloc, job, row.plan.get(), known),
        None => unreachable!(),
    }
}

fn current_of(
    kept: Option<Cursor>,
    alloc: Global,
    catalogue: &Catalogue,
    records: &Records,
    row: &ExecutionRow,
) -> Result<Cursor, OutOfMemory>
    requires placed { is_placed catalogue.now row.now ≡ true }
    requires kept { IfSome kept (λ cursor. Follows catalogue.now records.now.works row.now cursor) }
    ensures { IfOk result (λ cursor. Follows catalogue.now records.now.works row.now cursor) }
{
    match kept {
        Some(cursor) => Ok(cursor),
        None => {
            let known = known_of(alloc, records, row.execution)?;
            resumed(alloc, catalogue, known.as_slice(), row)
        }
    }
}

/// Returns the current walk of the job execution with this row, if it exists: the stored walk, or
/// else one that is made anew.
pub(crate) fn current(
    kept: Option<Cursor>,
    alloc: Global,
    catalogue: &Catalogue,
    records: &Records,
    owner: Option<&ExecutionRow>,
) -> Result<Option<Cursor>, OutOfMemory>
    requires placed { IfSome (option_copied owner) (λ row. is_placed catalogue.now row ≡ true) }
    requires kept { IfSome kept (λ cursor. Walks catalogue.now records.now.works
        (option_copied owner) (Some cursor)) }
    ensures { IfOk result (λ cursor. Walks catalogue.now records.now.works
        (option_copied owner.entry) cursor) }
{
    match owner {
        None => Ok(None),
        Some(row) => {
            let cursor = current_of(kept, alloc, catalogue, records, row)?;
            Ok(Some(cursor))
        }
    }
}

/// Returns the walk of a job execution, if this exists, after this work item of its first ready
/// work key is handed out. `owner` is its row.
pub(crate) fn claimed(
    kept: Option<Cursor>,
    alloc: Global,
    catalogue: &Catalogue,
    records: &Records,
    owner: Option<&ExecutionRow>,
    item: &WorkItem,
) -> Result<Option<Cursor>, OutOfMemory>
    requires placed { IfSome (option_copied owner) (λ row. is_placed catalogue.now row ≡ true) }
    requires kept { IfSome kept (λ cursor. Walks catalogue.now records.now.works
        (option_copied owner) (Some cursor)) }
    requires own { IfSome (option_copied owner) (λ row. row.execution ≡ item.now.execution) }
    requires first { IsFirst catalogue.now records.now.works (option_copied owner) item.now }
    ensures { (who at : ℕ) → IfOk result (λ cursor. Walks catalogue.now
        (records.now.works ++ busy_work who at item.now ∷ []) (option_copied owner.entry) cursor) }
{
    let key = item.key()?;
    match owner {
        None => Ok(None),
        Some(row) => {
            let mut cursor = current_of(kept, alloc, catalogue, records, row)?;
            match cursor.take(&key) {
                Ok(()) => Ok(Some(cursor)),
                Err(error) => {
                    drop(cursor);
                    Err(error)
                }
            }
        }
    }
}

/// Reports the end of a work item to a stored walk, if the walk shows the work item as being run.
/// Returns whether it does.
fn tell_end(
    cursor: &mut Cursor,
    work: &WorkRow,
    outcome: WorkOutcome,
    exit: &T256,
) -> Result<bool, OutOfMemory>
    ensures { (catalogue : List JobTree) (works : List Work) (row : ExecutionRow) (w : ℕ)
        → Follows catalogue works row cursor.old → AllApart works
        → find (is_work w) works ≡ Some work.now → work.now.execution ≡ row.execution
        → (step : Counts) (at number : ℕ) → IfOk result (λ told. told ≡ true
        → Follows catalogue
        (change_first (is_work w) (over_as outcome exit.now step at number) works) row cursor.new) }
{
    let key = work.key()?;
    if cursor.is_busy(&key) {
        cursor.report(&key, outcome, exit)?;
        return Ok(true);
    }
    Ok(false)
}

/// Makes the walk of a job execution anew, as it is after this work item of it is over.
fn remade(
    alloc: Global,
    catalogue: &Catalogue,
    records: &Records,
    row: &ExecutionRow,
    w: WorkId,
    outcome: WorkOutcome,
    exit: &T256,
) -> Result<Cursor, OutOfMemory>
    requires placed { is_placed catalogue.now row.now ≡ true }
    requires there { IfSome (find (is_work w) records.now.works)
        (λ work. work.execution ≡ row.now.execution) }
    ensures { (step : Counts) (at number : ℕ) → IfOk result (λ cursor. Follows catalogue.now
        (change_first (is_work w) (over_as outcome exit.now step at number) records.now.works)
        row.now cursor) }
{
    let known = search::known_once_finished(alloc, records, row.execution, w, outcome, exit)?;
    resumed(alloc, catalogue, known.as_slice(), row)
}

/// Returns the walk of a job execution after this work item of it is over. The stored walk goes on,
/// if it shows the work item as being run. Else the walk is made anew.
fn finished_of(
    kept: Option<Cursor>,
    alloc: Global,
    catalogue: &Catalogue,
    records: &Records,
    row: &ExecutionRow,
    work: &WorkRow,
    w: WorkId,
    outcome: WorkOutcome,
    exit: &T256,
) -> Result<Cursor, OutOfMemory>
    requires placed { is_placed catalogue.now row.now ≡ true }
    requires kept { IfSome kept (λ cursor. Follows catalogue.now records.now.works row.now cursor) }
    requires apart { AllApart records.now.works }
    requires there { find (is_work w) records.now.works ≡ Some work.now }
    requires own { work.now.execution ≡ row.now.execution }
    ensures { (step : Counts) (at number : ℕ) → IfOk result (λ cursor. Follows catalogue.now
        (change_first (is_work w) (over_as outcome exit.now step at number) records.now.works)
        row.now cursor) }
{
    let Some(mut cursor) = kept else {
        return remade(alloc, catalogue, records, row, w, outcome, exit);
    };
    match tell_end(&mut cursor, work, outcome, exit) {
        Ok(true) => Ok(cursor),
        Ok(false) => {
            drop(cursor);
            remade(alloc, catalogue, records, row, w, outcome, exit)
        }
        Err(error) => {
            drop(cursor);
            Err(error)
        }
    }
}

/// Returns the walk of the job execution of a work item, if this exists, after the work item is
/// over. `owner` is the row of the job execution.
pub(crate) fn finished(
    kept: Option<Cursor>,
    alloc: Global,
    catalogue: &Catalogue,
    records: &Records,
    owner: Option<&ExecutionRow>,
    work: &WorkRow,
    w: WorkId,
    outcome: WorkOutcome,
    exit: &T256,
) -> Result<Option<Cursor>, OutOfMemory>
    requires placed { IfSome (option_copied owner) (λ row. is_placed catalogue.now row ≡ true) }
    requires kept { IfSome kept (λ cursor. Walks catalogue.now records.now.works
        (option_copied owner) (Some cursor)) }
    requires apart { AllApart records.now.works }
    requires there { find (is_work w) records.now.works ≡ Some work.now }
    requires own { IfSome (option_copied owner) (λ row. row.execution ≡ work.now.execution) }
    ensures { (step : Counts) (at number : ℕ) → IfOk result (λ cursor. Walks catalogue.now
        (change_first (is_work w) (over_as outcome exit.now step at number) records.now.works)
        (option_copied owner.entry) cursor) }
{
    match owner {
        None => Ok(None),
        Some(row) => {
            let cursor = finished_of(kept, alloc, catalogue, records, row, work, w, outcome, exit)?;
            Ok(Some(cursor))
        }
    }
}

/// Returns the stored walk of a job execution, if there is one.
pub(crate) fn kept(cursors: &BTreeMap<u64, Slot>, x: ExecutionId) -> Option<&Cursor>
    ensures { option_copied result ≡ kept_at cursors.now x }
{
    match cursors.get(&x.value()) {
        Some(slot) => slot.cursor.as_ref(),
        None => None,
    }
}

/// Takes the walk of a job execution out of its slot. The slot stays.
pub(crate) fn take(cursors: &mut BTreeMap<u64, Slot>, x: ExecutionId) -> Option<Cursor>
    ensures taken { result ≡ kept_at cursors.old x }
    ensures left { (q : ℕ) → kept_at cursors.new q
        ≡ (if is_eq (nat_cmp x q) then None else kept_at cursors.old q) }
    ensures slots { keys cursors.new ≡ keys cursors.old }
{
    match cursors.get_mut(&x.value()) {
        Some(slot) => slot.cursor.take(),
        None => None,
    }
}

/// Puts the walk of a job execution into its slot, or into a new slot. If memory is refused, the
/// walk isn't stored.
fn put(cursors: &mut BTreeMap<u64, Slot>, x: ExecutionId, cursor: Cursor)
    ensures others { (q : ℕ) → is_eq (nat_cmp x q) ≡ false
        → get nat_cmp cursors.new q ≡ get nat_cmp cursors.old q }
    ensures own { IfSome (get nat_cmp cursors.new x) (λ slot. slot.cursor ≡ Some cursor) }
{
    if let Some(slot) = cursors.get_mut(&x.value()) {
        slot.cursor = Some(cursor);
        return;
    }
    let slot = Slot {
        cursor: Some(cursor),
    };
    match cursors.insert(x.value(), slot) {
        Ok(_) => {}
        Err(_) => {}
    }
}

/// Stores the walk of a job execution that is still unfinished, and else removes its slot. If
/// memory is refused, the walk isn't stored, and is made anew when it is needed.
pub(crate) fn keep(
    cursors: &mut BTreeMap<u64, Slot>,
    x: ExecutionId,
    row: &Option<ExecutionRow>,
    cursor: Option<Cursor>,
)
    ensures others { (q : ℕ) → is_eq (nat_cmp x q) ≡ false
        → get nat_cmp cursors.new q ≡ get nat_cmp cursors.old q }
    ensures own { IfSome (get nat_cmp cursors.new x) (IsSlotOf row.now cursor) }
{
    match (row, cursor) {
        (Some(row), Some(cursor)) if row.status().is_unfinished() => put(cursors, x, cursor),
        _ => {
            cursors.remove(&x.value());
        }
    }
}
