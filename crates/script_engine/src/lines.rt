ghost use Rattle.std.specs.Prelude.{◌≡◌, ◌<◌, true, false, IfOk, IsSome, OnOk, OnErr};
ghost use Rattle.script_lines.specs.Unread.{nothing_read, weight};
ghost use Rattle.script_engine.specs.Reading.{NextLine};

use crate::fault::EngineFault;
use batch_ids::OutOfMemory;
use script_lines::{InputBuffer, Line, MAX_LINE, MAX_READS, Source};
use std::alloc::Global;

/// The lines of a reader, one after another. Each ends with a line feed, which is removed. The last
/// line may lack it. Nothing is written before the next line is read.
#[derive(Drop)]
pub struct Lines<S: Source + Drop> {
    source: S,
    input: InputBuffer,
    failed: bool,
}

impl<S: Source + Drop> Lines<S> {
    /// Makes the lines of a reader, none of which has been read yet.
    ///
    /// # Errors
    ///
    /// Returns `OutOfMemory` if memory for 1,048,576 bytes is refused. The reader is dropped.
    pub fn new(alloc: Global, source: S) -> Result<Lines<S>, OutOfMemory>
        ensures reader { IfOk result (λ lines. S.tape lines.source ≡ S.tape source) }
        ensures begun { IfOk result (λ lines. (lines.input ≡ nothing_read) × (lines.failed ≡ false)) }
    {
        Ok(Lines {
            source,
            input: InputBuffer::new(alloc)?,
            failed: false,
        })
    }

    /// Checks whether a call of [`Lines::next_line`] returned an `Err`. No line follows after that.
    pub fn has_failed(&self) -> bool
        ensures { result ≡ self.now.failed }
    {
        self.failed
    }

    /// Returns the next line. `None` means that the reader reported its end and nothing is left. No
    /// earlier call may have returned an `Err`, which [`Lines::has_failed`] checks. A line is
    /// stored up to [`MAX_LINE`] bytes. The time is that of the reads.
    ///
    /// # Errors
    ///
    /// - `Read` if the reader failed in this call, or was called [`MAX_READS`] times in all.
    /// - `OutOfMemory` if memory for the line is refused.
    pub fn next_line(&mut self) -> Result<Option<Line>, EngineFault>
        requires { self.old.failed ≡ false }
        ensures bounds { (MAX_LINE ≡ 16777216) × (MAX_READS ≡ 1099511627776) }
        ensures line { NextLine (S.tape self.old.source) (S.tape self.new.source) self.old.input self.new.input result }
        ensures going { OnOk result (self.new.failed ≡ false) }
        ensures failed { OnErr result (self.new.failed ≡ true) }
        ensures smaller { IfOk result (λ line. IsSome line → weight self.new.input < weight self.old.input) }
    {
        match self.input.line_alone(&mut self.source) {
            Ok(line) => Ok(line),
            Err(fault) => {
                self.failed = true;
                Err(EngineFault::from(fault))
            }
        }
    }
}
