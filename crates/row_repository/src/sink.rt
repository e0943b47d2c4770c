ghost use Rattle.std.specs.Prelude.{OnOk};
ghost use Rattle.row_repository.specs.Shown.{Shown, with_shown_checkpoint, with_shown_execution, with_shown_work};

use batch_history::{CheckpointRow, ExecutionRow, WorkRow};
use std::error::Error;
use std::fmt;

/// A row was not taken, so no further row is shown. Who was to take it knows why.
#[derive(Clone, Copy, Debug, PartialEq, Eq)]
pub struct NotTaken;

impl fmt::Display for NotTaken {
    fn fmt<W: fmt::Write>(&self, f: &mut fmt::Formatter<W>) -> fmt::Result {
        f.write_str("a row was not taken")
    }
}

impl Error for NotTaken {}

/// What takes the rows of a job repository, one after another.
pub trait RowSink {
    /// Whether these rows were taken since an earlier state: `taken earlier rows now`.
    ghost taken: { Self → Shown → Self → Type 0 };

    /// Takes the row of a job execution.
    ///
    /// # Errors
    ///
    /// `NotTaken` if it doesn't take the row.
    fn take_execution(&mut self, row: &ExecutionRow) -> Result<(), NotTaken>
        ensures { OnOk result ((earlier : Self) (s : Shown) → taken earlier s self.old
            → taken earlier (with_shown_execution s row.now) self.new) };

    /// Takes the row of a work item.
    ///
    /// # Errors
    ///
    /// `NotTaken` if it doesn't take the row.
    fn take_work(&mut self, row: &WorkRow) -> Result<(), NotTaken>
        ensures { OnOk result ((earlier : Self) (s : Shown) → taken earlier s self.old
            → taken earlier (with_shown_work s row.now) self.new) };

    /// Takes the row of a checkpoint.
    ///
    /// # Errors
    ///
    /// `NotTaken` if it doesn't take the row.
    fn take_checkpoint(&mut self, row: &CheckpointRow) -> Result<(), NotTaken>
        ensures { OnOk result ((earlier : Self) (s : Shown) → taken earlier s self.old
            → taken earlier (with_shown_checkpoint s row.now) self.new) };
}
