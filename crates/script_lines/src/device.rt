ghost use Rattle.std.specs.Prelude.{◌≡◌, ◌<◌, ◌≤◌, ◌++◌, List, ℕ, length, take, IfOk, OnOk, OnErr};
ghost use Rattle.std.specs.Io.KnownBytes.{ReadConsumes, WriteAppends};
ghost use Rattle.script_lines.specs.Device.{Told, after_read, Held, after_write, Takes};

use std::error::Error;
use std::fmt;

/// A reader or a writer failed. The cause isn't recorded, since no result depends on it.
#[derive(Clone, Copy, Debug, PartialEq, Eq)]
pub struct DeviceFault;

impl fmt::Display for DeviceFault {
    fn fmt<W: fmt::Write>(&self, f: &mut fmt::Formatter<W>) -> fmt::Result {
        f.write_str("a reader or a writer failed")
    }
}

impl Error for DeviceFault {}

/// A reader of bytes. Contracts see all bytes that it has delivered so far, and the bytes that it
/// has left, if they are determined.
pub trait Source {
    /// The past of the reader's calls, and the bytes that it has left, if they are determined.
    ghost tape: { Self → Told };

    /// Reads bytes into the front of `buffer`, and returns how many. 0 bytes for a buffer that
    /// isn't empty mean the end.
    ///
    /// # Errors
    ///
    /// `DeviceFault` if the reader failed. It has delivered nothing then.
    fn read(&mut self, buffer: &mut [u8]) -> Result<usize, DeviceFault>
        ensures bound { IfOk result (λ n. n ≤ length buffer.new) }
        ensures tape { tape self.new ≡ after_read (tape self.old) result buffer.new (tape self.new).left }
        ensures lost { ReadConsumes (tape self.old).left (tape self.new).left result buffer.new };
}

/// A writer of bytes. Contracts see all bytes that it has taken so far, and its contents, if they
/// are determined.
pub trait Sink {
    /// The past of the writer's calls, and its contents, if they are determined.
    ghost tape: { Self → Held };

    /// Writes a front of `piece`, and returns how many bytes that is. If the writer takes no byte
    /// of a piece that isn't empty, this counts as a failure.
    ///
    /// # Errors
    ///
    /// `DeviceFault` if the writer failed. It has taken nothing then.
    fn write(&mut self, piece: &[u8]) -> Result<usize, DeviceFault>
        ensures bound { IfOk result (λ n. n ≤ length piece.now) }
        ensures tape { tape self.new ≡ after_write (tape self.old) result piece.now (tape self.new).contents }
        ensures gained { WriteAppends (tape self.old).contents (tape self.new).contents result piece.now };
}

// Writes all of `bytes`. After an `Err` the writer has failed, and has taken a front of them.
pub(crate) fn write_all<W: Sink>(writer: &mut W, bytes: &[u8]) -> Result<(), DeviceFault>
    ensures ok { OnOk result (Takes (W.tape writer.old) (W.tape writer.new) bytes.now) }
    ensures ok_failures { OnOk result ((W.tape writer.new).failures ≡ (W.tape writer.old).failures) }
    ensures err { OnErr result ((n : ℕ) × Takes (W.tape writer.old) (W.tape writer.new) (take n bytes.now)) }
    ensures err_failures { OnErr result ((W.tape writer.old).failures < (W.tape writer.new).failures) }
{
    let mut at = 0;
    while at < bytes.len() {
        let n = writer.write(&bytes[at..])?;
        if n == 0 {
            return Err(DeviceFault);
        }
        at += n;
    }
    Ok(())
}
