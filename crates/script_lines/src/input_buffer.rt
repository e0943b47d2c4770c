ghost use Rattle.std.specs.Prelude.{◌≡◌, ◌≢◌, ◌<◌, ◌≤◌, ◌++◌, List, ℕ, [], true, false, length, IfOk, IsSome, Err, OnErr};

use crate::at_hand::AtHand;
use crate::buffer::new_buffer;
use crate::device::{Sink, Source};
use crate::line::{Line, feed_at};
use crate::line_fault::LineFault;
use crate::output_buffer::OutputBuffer;
use crate::source_in_turn::SourceInTurn;
use std::alloc::{AllocError, Global};
use std::marker::Model;

// The number of bytes in a read.
const CHUNK: usize = 1_048_576;

/// The most calls of a reader by one [`InputBuffer`].
pub const MAX_READS: u64 = 1 << 40;

/// The bytes that were read from a reader and haven't been used yet. It belongs to one reader,
/// which must be the same at each call. It has a buffer of 1,048,576 bytes, which is allocated once.
#[derive(Drop)]
pub struct InputBuffer {
    alloc: Global,
    chunk: Vec<u8>,
    start: usize,
    end: usize,
    ended: bool,
    reads_left: u64,
}

impl Model for InputBuffer {
    ghost use Rattle.script_lines.specs.Unread.{Unread};

    ghost Value = { Unread };

    ghost use Rattle.std.specs.Prelude.{◌≡◌, ◌-◌, ◌≤◌, true, length, take, drop};
    ghost use Rattle.script_lines.specs.declared.input_buffer.TheConstants.{CHUNK};

    ghost view = { λ p. record { bytes = take (p.end - p.start) (drop p.start p.chunk.items); ended = p.ended; reads_left = p.reads_left } };

    ghost invariant = { λ p. (length p.chunk.items ≡ CHUNK) × (p.end ≤ CHUNK) × (p.start ≤ p.end) × (p.ended ≡ true → p.start ≡ p.end) };
}

impl InputBuffer {
    ghost use Rattle.script_lines.specs.Unread.{nothing_read, skipped, emptied, weight};
    ghost use Rattle.script_lines.specs.AtHand.{IsAtHand, Filled};
    ghost use Rattle.script_lines.specs.Device.{Told, Takes};
    ghost use Rattle.script_lines.specs.Lines.{LineRead, IsPartRead, PassedOn, IsPrompt};
    ghost use Rattle.script_lines.specs.declared.line.TheConstants.{MAX_LINE};

    /// Creates an empty buffer, for a reader that may be called [`MAX_READS`] times.
    ///
    /// # Errors
    ///
    /// `AllocError` if memory for the buffer is refused.
    pub fn new(alloc: Global) -> Result<InputBuffer, AllocError>
        ensures { IfOk result (λ input. input ≡ nothing_read) }
    {
        Ok(InputBuffer {
            alloc,
            chunk: new_buffer(alloc, CHUNK)?,
            start: 0,
            end: 0,
            ended: false,
            reads_left: MAX_READS,
        })
    }

    fn unread(&self) -> &[u8]
        ensures { result.now ≡ self.now.bytes }
    {
        &self.chunk[self.start..self.end]
    }

    /// Returns `true` if the reader has reported its end. No byte is at hand then.
    pub fn has_ended(&self) -> bool
        ensures value { result ≡ self.now.ended }
        ensures nothing_left { self.now.ended ≡ true → self.now.bytes ≡ [] }
    {
        self.ended
    }

    // Marks `count` bytes as used.
    fn skip(&mut self, count: usize)
        requires { count ≤ length self.old.bytes }
        ensures { self.new ≡ skipped count self.old }
    {
        self.start += count;
    }

    // Marks all bytes as used.
    fn skip_all(&mut self)
        ensures { self.new ≡ emptied self.old }
    {
        self.start = self.end;
    }

    /// Returns the next line, if the bytes at hand complete it. `part` is the beginning of that
    /// line. It is an empty line at first, and later the part that the last call returned as
    /// [`AtHand::Part`]. It calls no reader. So a caller can pass on its waiting output before it
    /// asks for more by [`InputBuffer::fill`].
    ///
    /// # Errors
    ///
    /// `AllocError` if memory for the line is refused. The part is dropped, and the bytes at hand
    /// stay.
    pub fn line_at_hand(&mut self, part: Line) -> Result<AtHand, AllocError>
        ensures ok { IfOk result (λ given. IsAtHand part self.old self.new given) }
        ensures err { OnErr result ((self.new ≡ self.old) × (self.old.ended ≡ false)) }
    {
        if self.has_ended() {
            return Ok(AtHand::End(part.unless_empty()));
        }
        let bytes = self.unread();
        if let Some(at) = feed_at(bytes) {
            let line = part.add(&bytes[..at])?;
            self.skip(at + 1);
            Ok(AtHand::Line(line))
        } else {
            let longer = part.add(bytes)?;
            self.skip_all();
            Ok(AtHand::Part(longer))
        }
    }

    /// Calls the reader once, for at most 1,048,576 bytes. All bytes at hand must be used:
    /// [`InputBuffer::line_at_hand`] has returned an [`AtHand::Part`].
    ///
    /// # Errors
    ///
    /// `Read` if the reader failed in this call, or may not be called again. The reader has
    /// delivered no byte then.
    pub fn fill<S: Source>(&mut self, source: &mut S) -> Result<(), LineFault>
        requires used { self.old.bytes ≡ [] }
        ensures { Filled (S.tape source.old) (S.tape source.new) self.old self.new result }
    {
        if self.reads_left == 0 {
            return Err(LineFault::Read);
        }
        self.reads_left -= 1;
        self.start = 0;
        self.end = 0;
        match source.read(&mut self.chunk) {
            Ok(n) => {
                self.end = n;
                self.ended = n == 0;
                Ok(())
            }
            Err(_) => Err(LineFault::Read),
        }
    }

    /// Returns the next line, if nobody waits for a reply to the lines before it. Like
    /// [`InputBuffer::next_line`], but writes nothing.
    ///
    /// # Errors
    ///
    /// - `Read` if the reader failed in this call, or may not be called again.
    /// - `OutOfMemory` if memory for the line is refused.
    pub fn line_alone<S: Source>(&mut self, source: &mut S) -> Result<Option<Line>, LineFault>
        ensures bounds { (MAX_LINE ≡ 16777216) × (MAX_READS ≡ 1099511627776) }
        ensures line { LineRead (S.tape source.old) (S.tape source.new) self.old self.new result }
        ensures nothing_written { result ≢ Err LineFault.Write }
        ensures smaller { IfOk result (λ line. IsSome line → weight self.new < weight self.old) }
    {
        let mut part = Line::Whole(Vec::new(self.alloc));
        'reads: loop {
            part = match self.line_at_hand(part)? {
                AtHand::Line(line) => return Ok(Some(line)),
                AtHand::End(last) => return Ok(last),
                AtHand::Part(longer) => longer,
            };
            self.fill(source)?;
        }
    }

    /// Returns the next line. It ends with a line feed, which is removed. The last line may lack
    /// one. `None` means that the reader has reported its end and nothing is left. A line of more
    /// than 16,777,216 bytes is returned as [`Line::TooLong`]. The reader is called at most 2^40
    /// times.
    ///
    /// Before each call of the reader, all waiting output in `output` is written. So the other end
    /// of a pipe has every reply before the script goes on, and the reader may forbid all calls
    /// before that.
    ///
    /// # Errors
    ///
    /// - `Read` if the reader failed in this call, or may not be called again.
    /// - `Write` if the waiting output could not be written. The writer has taken a front of it.
    /// - `OutOfMemory` if memory for the line is refused.
    pub fn next_line<S: SourceInTurn<W>, W: Sink>(
        &mut self,
        source: &mut S,
        output: &mut OutputBuffer,
        writer: &mut W,
    ) -> Result<Option<Line>, LineFault>
        requires in_turn { (to : Told) → IsPartRead (S.tape source.old) to self.old → S.may_read to ((W.tape writer.old).bytes ++ output.old) }
        ensures bounds { (MAX_LINE ≡ 16777216) × (MAX_READS ≡ 1099511627776) }
        ensures line { LineRead (S.tape source.old) (S.tape source.new) self.old self.new result }
        ensures passed_on { PassedOn (W.tape writer.old) (W.tape writer.new) output.old output.new result }
        ensures grown { (sent : List ℕ) × Takes (W.tape writer.old) (W.tape writer.new) sent }
        ensures prompt { IsPrompt (S.tape source.old) (S.tape source.new) output.new result }
        ensures smaller { IfOk result (λ line. IsSome line → weight self.new < weight self.old) }
    {
        let mut part = Line::Whole(Vec::new(self.alloc));
        'reads: loop {
            part = match self.line_at_hand(part)? {
                AtHand::Line(line) => return Ok(Some(line)),
                AtHand::End(last) => return Ok(last),
                AtHand::Part(longer) => longer,
            };
            output.flush(writer).map_err(|_| LineFault::Write)?;
            source.fill(self, writer)?;
        }
    }
}
