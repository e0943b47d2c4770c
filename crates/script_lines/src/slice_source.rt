ghost use Rattle.std.specs.Prelude.{◌≡◌, ◌≤◌, ◌+◌, length, Some};
ghost use Rattle.script_lines.specs.Tape.{nothing_past, told_in_memory};

use crate::device::{DeviceFault, Source};
use crate::tape::{Answer, Tape};

/// A reader of bytes in memory. It never fails: its tape has no failures, whatever calls were made.
#[derive(Drop)]
pub struct SliceSource<'a> {
    rest: &'a [u8],
    tape: Tape,
    ghost few: { tape.past.calls ≤ length tape.past.bytes + tape.past.ends + tape.past.narrow },
}

impl<'a> SliceSource<'a> {
    /// Creates a reader that has these bytes left, and has delivered nothing yet.
    pub fn new(bytes: &'a [u8]) -> SliceSource<'a>
        ensures rest { result.rest.now ≡ bytes.now }
        ensures past { result.tape.past ≡ nothing_past }
    {
        SliceSource {
            rest: bytes,
            tape: Tape::new(),
        }
    }
}

impl<'a> Source for SliceSource<'a> {
    ghost tape = { λ s. told_in_memory s.tape.past s.rest.now };

    fn read(&mut self, buffer: &mut [u8]) -> Result<usize, DeviceFault> {
        let room = buffer.len();
        let n = room.min(self.rest.len());
        buffer[..n].copy_from_slice(&self.rest[..n]);
        self.tape = if n == 0 && room > 0 {
            self.tape.then(Answer::End, room)
        } else {
            self.tape.then(Answer::Bytes(&self.rest[..n]), room)
        };
        self.rest = &self.rest[n..];
        Ok(n)
    }
}
