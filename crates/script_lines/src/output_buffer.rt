ghost use Rattle.std.specs.Prelude.{◌≡◌, ◌<◌, ◌≤◌, ◌+◌, ◌↔◌, ◌++◌, ℕ, List, [], Ok, length, take, IsTrue, IfOk, OnOk, OnErr};
ghost use Rattle.script_lines.specs.Device.{Takes};

use crate::buffer::new_buffer;
use crate::device::{DeviceFault, Sink, write_all};
use std::alloc::{AllocError, Global};
use std::marker::Model;

/// The most bytes that may wait in an [`OutputBuffer`].
pub const OUTPUT_BUFFER_SIZE: usize = 1_048_576;

/// Output that waits to be written, in a buffer of [`OUTPUT_BUFFER_SIZE`] bytes that never grows.
/// Contracts see the waiting bytes.
#[derive(Drop)]
pub struct OutputBuffer {
    buffer: Vec<u8>,
    used: usize,
}

impl Model for OutputBuffer {
    ghost use Rattle.std.specs.Prelude.{◌≡◌, ◌≤◌, ℕ, List, length, take};
    ghost use Rattle.script_lines.specs.declared.output_buffer.TheConstants.{OUTPUT_BUFFER_SIZE};

    ghost Value = { List ℕ };

    ghost view = { λ o. take o.used o.buffer.items };

    ghost invariant = { λ o. (length o.buffer.items ≡ OUTPUT_BUFFER_SIZE) × (o.used ≤ OUTPUT_BUFFER_SIZE) };
}

impl OutputBuffer {
    /// Creates an output buffer in which nothing waits.
    ///
    /// # Errors
    ///
    /// `AllocError` if memory for the buffer is refused. No later call takes memory.
    pub fn new(alloc: Global) -> Result<OutputBuffer, AllocError>
        ensures { IfOk result (λ output. output ≡ []) }
    {
        Ok(OutputBuffer {
            buffer: new_buffer(alloc, OUTPUT_BUFFER_SIZE)?,
            used: 0,
        })
    }

    /// Returns `true` if nothing waits.
    pub fn is_empty(&self) -> bool
        ensures { IsTrue result ↔ (self.now ≡ []) }
    {
        self.used == 0
    }

    /// Returns the waiting bytes.
    pub fn waiting(&self) -> &[u8]
        ensures { result.now ≡ self.now }
    {
        &self.buffer[..self.used]
    }

    /// Returns how many more bytes may wait.
    pub fn room(&self) -> usize
        ensures { result + length self.now ≡ OUTPUT_BUFFER_SIZE }
    {
        OUTPUT_BUFFER_SIZE - self.used
    }

    /// Appends a part for which there is room. It writes nothing and takes no memory.
    pub fn append(&mut self, part: &[u8])
        requires { length self.old + length part.now ≤ OUTPUT_BUFFER_SIZE }
        ensures { self.new ≡ self.old ++ part.now }
    {
        let end = self.used + part.len();
        self.buffer[self.used..end].copy_from_slice(part);
        self.used = end;
    }

    /// Drops all waiting bytes, after a caller passed them on by itself.
    pub fn clear(&mut self)
        ensures { self.new ≡ [] }
    {
        self.used = 0;
    }

    /// Appends `text` to the waiting bytes. Writes the buffer each time that it is full and more is
    /// to come.
    ///
    /// # Errors
    ///
    /// `DeviceFault` if the writer failed. It has then taken a front of the waiting bytes and
    /// `text`. The waiting bytes from then on are not specified: the output is of no more use.
    pub fn put<W: Sink>(&mut self, writer: &mut W, text: &[u8]) -> Result<(), DeviceFault>
        ensures size { OUTPUT_BUFFER_SIZE ≡ 1048576 }
        ensures ok { OnOk result ((W.tape writer.new).bytes ++ self.new ≡ ((W.tape writer.old).bytes ++ self.old) ++ text.now) }
        ensures ok_grown { OnOk result ((sent : List ℕ) × Takes (W.tape writer.old) (W.tape writer.new) sent) }
        ensures ok_failures { OnOk result ((W.tape writer.new).failures ≡ (W.tape writer.old).failures) }
        ensures err { OnErr result ((n : ℕ) × Takes (W.tape writer.old) (W.tape writer.new) (take n (self.old ++ text.now))) }
        ensures err_failures { OnErr result ((W.tape writer.old).failures < (W.tape writer.new).failures) }
    {
        let mut rest = text;
        while rest.len() > self.room() {
            let room = self.room();
            self.append(&rest[..room]);
            rest = &rest[room..];
            self.flush(writer)?;
        }
        self.append(rest);
        Ok(())
    }

    /// Writes all waiting bytes.
    ///
    /// # Errors
    ///
    /// `DeviceFault` if the writer failed. It has then taken a front of the waiting bytes, and the
    /// buffer doesn't change.
    pub fn flush<W: Sink>(&mut self, writer: &mut W) -> Result<(), DeviceFault>
        ensures ok { OnOk result (Takes (W.tape writer.old) (W.tape writer.new) self.old) }
        ensures emptied { OnOk result (self.new ≡ []) }
        ensures ok_failures { OnOk result ((W.tape writer.new).failures ≡ (W.tape writer.old).failures) }
        ensures err { OnErr result ((n : ℕ) × Takes (W.tape writer.old) (W.tape writer.new) (take n self.old)) }
        ensures err_failures { OnErr result ((W.tape writer.old).failures < (W.tape writer.new).failures) }
        ensures kept { OnErr result (self.new ≡ self.old) }
        ensures idle { self.old ≡ [] → (result ≡ Ok tt) × (W.tape writer.new ≡ W.tape writer.old) }
    {
        if self.is_empty() {
            return Ok(());
        }
        write_all(writer, &self.buffer[..self.used])?;
        self.used = 0;
        Ok(())
    }
}
