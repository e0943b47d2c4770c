//! The unfinished job executions of each job and of each job instance.
ghost use Rattle.std.specs.Prelude.{◌≡◌, ◌==◌, ◌++◌, ◌∷◌, [], ℕ, true, false, Some, None, List, bytes_eq, find, IfOk, if◌then◌else◌};
ghost use Rattle.std.specs.Bool.{OnTrue};
ghost use Rattle.batch_ids.specs.Statuses.{is_unfinished};
ghost use Rattle.batch_history.specs.Answers.{is_running_of, running_executions};
ghost use Rattle.batch_history.specs.Lists.{change_first};
ghost use Rattle.batch_history.specs.Replies.{is_execution, row_status};
ghost use Rattle.batch_history.specs.declared.rows.ExecutionRow.{ExecutionRow as Row};
ghost use Rattle.records.specs.Indexes.{AreRunning, numbers_running, numbers_under, without_number};

use crate::number_lists::NumberLists;
use crate::row_list::RowList;
use crate::running_names::RunningNames;
use batch_history::ExecutionRow;
use batch_ids::{ExecutionId, OutOfMemory};
use std::alloc::Global;

/// The numbers of the unfinished job executions, by the name of their job and by their job
/// instance.
#[derive(Debug, Drop)]
pub struct RunningLists {
    by_name: RunningNames,
    by_instance: NumberLists,
}

impl RunningLists {
    /// Returns lists without any job execution. Allocates nothing.
    pub(crate) fn new(alloc: Global) -> RunningLists
        ensures { AreRunning (Some result) [] }
    {
        RunningLists {
            by_name: RunningNames::new(alloc),
            by_instance: NumberLists::new(alloc),
        }
    }

    /// Returns the unfinished job executions of a job.
    ///
    /// Returns `OutOfMemory` if memory is refused.
    pub(crate) fn of_job(&self, name: &str) -> Result<Vec<ExecutionId>, OutOfMemory>
        ensures { IfOk result (λ found. found.items ≡ numbers_running self.now.by_name name.now) }
    {
        self.by_name.executions(name)
    }

    /// Returns the numbers of the unfinished job executions of a job instance.
    pub(crate) fn of_instance(&self, i: u64) -> &[u64]
        ensures { result.now ≡ numbers_under self.now.by_instance i }
    {
        self.by_instance.under(i)
    }

    /// Appends a job execution, and returns whether that succeeded.
    fn push(&mut self, row: &ExecutionRow) -> bool
        ensures named { OnTrue result ((q : List ℕ) → numbers_running self.new.by_name q
            ≡ (if bytes_eq row.now.job q then numbers_running self.old.by_name q ++ row.now.execution ∷ [] else numbers_running self.old.by_name q)) }
        ensures owned { OnTrue result ((q : ℕ) → numbers_under self.new.by_instance q
            ≡ (if row.now.instance == q then numbers_under self.old.by_instance q ++ row.now.execution ∷ [] else numbers_under self.old.by_instance q)) }
    {
        let x = row.execution.value();
        self.by_name.push(row.job.as_str(), x)
            && self.by_instance.push(row.instance.value(), x).is_ok()
    }

    /// Removes a job execution. Allocates nothing.
    fn remove(&mut self, row: &ExecutionRow)
        ensures named { (q : List ℕ) → numbers_running self.new.by_name q
            ≡ (if bytes_eq row.now.job q then without_number row.now.execution (numbers_running self.old.by_name q) else numbers_running self.old.by_name q) }
        ensures owned { (q : ℕ) → numbers_under self.new.by_instance q
            ≡ (if row.now.instance == q then without_number row.now.execution (numbers_under self.old.by_instance q) else numbers_under self.old.by_instance q) }
    {
        let x = row.execution.value();
        self.by_name.remove(row.job.as_str(), x);
        self.by_instance.leave_out(row.instance.value(), x);
    }
}

/// Adds a new job execution to the index, if it is unfinished. Drops the index if memory is
/// refused.
pub(crate) fn add_running(running: &mut Option<RunningLists>, row: &ExecutionRow)
    ensures { (rows : List Row) → AreRunning running.old rows
        → AreRunning running.new (rows ++ row.now ∷ []) }
{
    if !row.status().is_unfinished() {
        return;
    }
    let added = match running.as_mut() {
        Some(lists) => lists.push(row),
        None => true,
    };
    if !added {
        forget(running);
    }
}

/// Removes a job execution from the index if its new row is finished and its old one wasn't. Drops
/// the index if the new row is unfinished and the old one was finished, which no operation does.
pub(crate) fn change_running(
    running: &mut Option<RunningLists>,
    was_unfinished: bool,
    row: &ExecutionRow,
)
    ensures { (rows : List Row) (old : Row) → find (is_execution row.now.execution) rows ≡ Some old
        → old.job ≡ row.now.job → old.instance ≡ row.now.instance → was_unfinished ≡ is_unfinished (row_status old)
        → AreRunning running.old rows → AreRunning running.new
        (change_first (is_execution row.now.execution) (λ gone. row.now) rows) }
{
    let is_unfinished = row.status().is_unfinished();
    if is_unfinished == was_unfinished {
        return;
    }
    if is_unfinished {
        forget(running);
    } else {
        leave_out(running, row);
    }
}

/// Removes a job execution from the index, now that this row of it is finished.
fn leave_out(running: &mut Option<RunningLists>, row: &ExecutionRow)
    ensures { (rows : List Row) (old : Row) → find (is_execution row.now.execution) rows ≡ Some old
        → old.job ≡ row.now.job → old.instance ≡ row.now.instance → is_unfinished (row_status old) ≡ true
        → is_unfinished (row_status row.now) ≡ false → AreRunning running.old rows → AreRunning running.new
        (change_first (is_execution row.now.execution) (λ gone. row.now) rows) }
{
    if let Some(lists) = running.as_mut() {
        lists.remove(row);
    }
}

/// Drops the index if `goes`.
pub(crate) fn forget_if(running: &mut Option<RunningLists>, goes: bool)
    ensures { running.new ≡ (if goes then None else running.old) }
{
    if goes {
        forget(running);
    }
}

/// Drops the index.
fn forget(running: &mut Option<RunningLists>)
    ensures { running.new ≡ None }
{
    drop(running.take());
}

/// Returns the unfinished job executions of a job by a look at every row.
///
/// Returns `OutOfMemory` if memory is refused.
pub(crate) fn running_searched(
    rows: &RowList<ExecutionRow>,
    name: &str,
) -> Result<Vec<ExecutionId>, OutOfMemory>
    ensures { IfOk result (λ found. found.items ≡ running_executions name.now rows.now.rows) }
{
    let mut found = Vec::new(rows.alloc());
    for row in rows.rows() {
        if is_running_of(name, row) {
            found.push(row.execution)?;
        }
    }
    Ok(found)
}

fn is_running_of(name: &str, row: &ExecutionRow) -> bool
    ensures { result ≡ is_running_of name.now row.now }
{
    row.job.as_str() == name && row.status().is_unfinished()
}
