ghost use Rattle.std.specs.Prelude.{◌≡◌, ◌≤◌, ◌^◌, ◌∷◌, ◌++◌, ◌+◌, [], true, List, length, Some, IfOk, IsOkAnd, OnOk, ⊤};
ghost use Rattle.batch_history.specs.Legal.{most_numbered};
ghost use Rattle.durable_log.specs.Logs.{IsRest};
ghost use Rattle.script_log.specs.Runs.{base_record};
ghost use Rattle.log_base.specs.Bases.{is_next_row, with_row};
ghost use Rattle.log_base.specs.Writing.{HasBegun, IsLogOfRows, IsWritten, IsWrittenBase};

use crate::adding::add_row;
use crate::fault::LineFault;
use base_text::{
    BaseHead, BaseTextFault, WrittenLine, checkpoint_line, execution_line, head_text, work_line,
};
use batch_history::{CheckpointRow, ExecutionRow, WorkRow};
use durable_log::{LogFile, Record, new_log};
use jsl_model::Catalogue;
use row_repository::{NotTaken, RowFault, RowRepository, RowRestoration, RowSink};
use script_lines::MAX_LINE;
use script_log::{BASE_MARK, CATALOGUE_MARK};
use std::alloc::Global;
use std::marker::{Model, PhantomData};

/// A log to which the lines of a base are added. Contracts see its records.
#[derive(Drop)]
struct BaseFile {
    alloc: Global,
    file: LogFile,
}

impl Model for BaseFile {
    ghost use Rattle.durable_log.specs.Files.{StandsFor};
    ghost use Rattle.durable_log.specs.Format.{LogRecord};
    ghost use Rattle.durable_log.specs.Logs.{records_of, IsRest};
    ghost use Rattle.std.specs.Prelude.{List};

    ghost Value = { List LogRecord };

    ghost view = { λ w. records_of w.file.bytes.items };

    ghost invariant = { λ w. IsRest w.file.bytes.items w.file.rest × StandsFor (records_of w.file.bytes.items) w.file.bytes.items };
}

impl BaseFile {
    /// Adds a line.
    fn put(&mut self, line: &[u8]) -> Result<(), BaseTextFault>
        ensures { OnOk result (self.new ≡ self.old ++ base_record line.now ∷ []) }
    {
        if line.len() > MAX_LINE {
            return Err(BaseTextFault::NotReadBack);
        }
        let added = Record {
            mark: BASE_MARK,
            line,
            reply_check: 0,
        };
        match self.file.push(self.alloc, added) {
            Ok(()) => Ok(()),
            Err(_) => Err(BaseTextFault::OutOfMemory),
        }
    }
}

/// A base that is written, and the restoration to which the rows are added that are read back from
/// its lines.
#[derive(Drop)]
struct BaseCopy<J: RowRepository, B: RowRestoration<J>> {
    base: BaseFile,
    rows: B,
    /// How many rows were taken.
    count: u64,
    /// Why a row was not taken.
    fault: BaseTextFault,
    of: PhantomData<J>,
}

impl<J: RowRepository, B: RowRestoration<J>> BaseCopy<J, B> {
    /// Adds a row and its line.
    fn add(&mut self, line: WrittenLine) -> Result<(), BaseTextFault>
        ensures line { OnOk result (self.new.base ≡ self.old.base ++ base_record line.text.items ∷ []) }
        ensures next { OnOk result (is_next_row (B.rows self.old.rows) (Some line.row) ≡ true) }
        ensures added { OnOk result (B.rows self.new.rows ≡ with_row (B.rows self.old.rows) (Some line.row)) }
        ensures counted { OnOk result (self.new.count ≡ self.old.count + 1) }
    {
        let WrittenLine { text, row } = line;
        let Some(count) = self.count.checked_add(1) else {
            return Err(BaseTextFault::OutOfMemory);
        };
        self.base.put(&text)?;
        match add_row::<J, B>(&mut self.rows, row) {
            Ok(()) => {
                self.count = count;
                Ok(())
            }
            Err(LineFault::Bad) => Err(BaseTextFault::NotReadBack),
            Err(LineFault::OutOfMemory) => Err(BaseTextFault::OutOfMemory),
        }
    }

    /// Takes a row, if its line was written.
    fn take(&mut self, line: Result<WrittenLine, BaseTextFault>) -> Result<(), NotTaken>
        ensures line { OnOk result (IsOkAnd line (λ line. self.new.base ≡ self.old.base ++ base_record line.text.items ∷ [])) }
        ensures next { OnOk result (IsOkAnd line (λ line. is_next_row (B.rows self.old.rows) (Some line.row) ≡ true)) }
        ensures added { OnOk result (IsOkAnd line (λ line. B.rows self.new.rows ≡ with_row (B.rows self.old.rows) (Some line.row))) }
        ensures counted { OnOk result (self.new.count ≡ self.old.count + 1) }
    {
        let added = match line {
            Ok(line) => self.add(line),
            Err(fault) => Err(fault),
        };
        match added {
            Ok(()) => Ok(()),
            Err(fault) => {
                self.fault = fault;
                Err(NotTaken)
            }
        }
    }
}

impl<J: RowRepository, B: RowRestoration<J>> RowSink for BaseCopy<J, B> {
    ghost taken = { λ earlier s now. IsWritten earlier.base (B.rows earlier.rows) earlier.count s now.base (B.rows now.rows) now.count };

    fn take_execution(&mut self, row: &ExecutionRow) -> Result<(), NotTaken> {
        let line = execution_line(self.base.alloc, row);
        self.take(line)
    }

    fn take_work(&mut self, row: &WorkRow) -> Result<(), NotTaken> {
        let line = work_line(self.base.alloc, row);
        self.take(line)
    }

    fn take_checkpoint(&mut self, row: &CheckpointRow) -> Result<(), NotTaken> {
        let line = checkpoint_line(self.base.alloc, row);
        self.take(line)
    }
}

/// Counts rows.
#[derive(Drop)]
struct RowCount {
    rows: u64,
}

impl RowCount {
    fn add(&mut self) -> Result<(), NotTaken> {
        match self.rows.checked_add(1) {
            Some(rows) => {
                self.rows = rows;
                Ok(())
            }
            None => Err(NotTaken),
        }
    }
}

impl RowSink for RowCount {
    // Whether the count is right is found when the rows are written.
    ghost taken = { λ earlier s now. ⊤ };

    fn take_execution(&mut self, _row: &ExecutionRow) -> Result<(), NotTaken> {
        self.add()
    }

    fn take_work(&mut self, _row: &WorkRow) -> Result<(), NotTaken> {
        self.add()
    }

    fn take_checkpoint(&mut self, _row: &CheckpointRow) -> Result<(), NotTaken> {
        self.add()
    }
}

/// Returns how many rows a repository shows.
fn count_of<J: RowRepository>(repository: &J) -> Result<u64, BaseTextFault> {
    let mut count = RowCount { rows: 0 };
    match repository.show_rows(&mut count) {
        Ok(()) => Ok(count.rows),
        Err(NotTaken) => Err(BaseTextFault::OutOfMemory),
    }
}

/// Begins the base of a repository of so many rows: the catalogue, and behind it the head.
fn begin<J: RowRepository, B: RowRestoration<J>>(
    alloc: Global,
    line: &[u8],
    catalogue: Catalogue,
    repository: &J,
    rows: u64,
) -> Result<BaseCopy<J, B>, BaseTextFault>
    requires limit { J.limit ≡ most_numbered }
    requires short { length line.now ≤ 2 ^ 24 }
    ensures { IfOk result (λ begun. HasBegun J.limit catalogue (J.rows repository.now) line.now rows begun.base (B.rows begun.rows) begun.count) }
{
    let head = BaseHead {
        count: repository.len(),
        last: repository.last(),
        rows,
    };
    let Some(restoration) = B::new(alloc, catalogue, head.count, head.last) else {
        return Err(BaseTextFault::NotReadBack);
    };
    let first = Record {
        mark: CATALOGUE_MARK,
        line,
        reply_check: 0,
    };
    let mut base = BaseFile {
        alloc,
        file: new_log(alloc, first)?,
    };
    let text = head_text(alloc, &head)?;
    base.put(&text)?;
    Ok(BaseCopy {
        base,
        rows: restoration,
        count: 0,
        fault: BaseTextFault::OutOfMemory,
        of: PhantomData,
    })
}

/// Writes the base of a repository. Each row that is read back goes into a restoration.
fn written<J: RowRepository, B: RowRestoration<J>>(
    alloc: Global,
    line: &[u8],
    catalogue: Catalogue,
    repository: &J,
) -> Result<(LogFile, B), BaseTextFault>
    requires limit { J.limit ≡ most_numbered }
    requires short { length line.now ≤ 2 ^ 24 }
    ensures base { IfOk result (λ (file, rows). IsWrittenBase J.limit catalogue (J.rows repository.now) line.now file.bytes.items (B.rows rows)) }
    ensures rest { IfOk result (λ (file, _). IsRest file.bytes.items file.rest) }
{
    let count = count_of(repository)?;
    let mut copy: BaseCopy<J, B> = begin(alloc, line, catalogue, repository, count)?;
    match repository.show_rows(&mut copy) {
        Ok(()) => {}
        Err(NotTaken) => return Err(copy.fault),
    }
    if copy.count != count {
        return Err(BaseTextFault::NotReadBack);
    }
    let BaseCopy { base, rows, .. } = copy;
    Ok((base.file, rows))
}

/// The log of a repository's rows, and the repository that was restored from its base.
#[derive(Drop)]
pub struct RebuiltLog<J: RowRepository> {
    /// The bytes of the log, and the place at which it goes on.
    pub file: LogFile,
    /// The repository.
    pub repository: J,
}

/// Makes the log of a repository that has this catalogue, whose line is `line`, and as its base the
/// repository's rows. No operation stands behind them. `B` is the type that restores a `J`: each
/// line is read back as it is written, and the repository of the new log is restored from the rows
/// that were read.
///
/// # Errors
///
/// - `NotReadBack` if a row's line isn't read back as that row, or if the new repository isn't
///   restored, or has other job instances.
/// - `OutOfMemory` if memory is refused.
pub fn rebuilt_log<J: RowRepository, B: RowRestoration<J>>(
    alloc: Global,
    line: &[u8],
    catalogue: Catalogue,
    repository: &J,
) -> Result<RebuiltLog<J>, BaseTextFault>
    requires limit { J.limit ≡ most_numbered }
    requires short { length line.now ≤ 2 ^ 24 }
    ensures log { IfOk result (λ made. IsLogOfRows J.limit catalogue (J.rows repository.now) line.now made.file.bytes.items) }
    ensures rows { IfOk result (λ made. J.rows made.repository ≡ record (J.rows repository.now) { catalogue = catalogue }) }
    ensures rest { IfOk result (λ made. IsRest made.file.bytes.items made.file.rest) }
{
    let (file, rows) = written::<J, B>(alloc, line, catalogue, repository)?;
    let made = match rows.finish() {
        Ok(made) => made,
        Err(RowFault::OutOfMemory) => return Err(BaseTextFault::OutOfMemory),
        Err(_) => return Err(BaseTextFault::NotReadBack),
    };
    if !made.has_instances_of(repository) {
        return Err(BaseTextFault::NotReadBack);
    }
    Ok(RebuiltLog {
        file,
        repository: made,
    })
}
