ghost use Rattle.std.specs.Prelude.{◌≡◌};
ghost use Rattle.script_lines.specs.Tape.{nothing_past, told_by, held_by};

use crate::device::{DeviceFault, Sink, Source};
use crate::tape::{Answer, Tape};
use std::io::{Read, Write};

/// Makes a [`Source`] from a reader of std, and a [`Sink`] from a writer of std. It records the
/// device's past for proofs only, which takes no memory.
#[derive(Drop)]
pub struct Counted<D: Drop> {
    inner: D,
    tape: Tape,
}

impl<D: Drop> Counted<D> {
    /// Creates a device whose past begins here.
    pub fn new(inner: D) -> Counted<D>
        ensures device { result.inner ≡ inner }
        ensures past { result.tape.past ≡ nothing_past }
    {
        Counted {
            inner,
            tape: Tape::new(),
        }
    }

    /// Returns the reader or writer, as the calls left it.
    pub fn into_inner(self) -> D
        ensures { result ≡ self.inner }
    {
        self.inner
    }
}

impl<D: Read + Drop> Source for Counted<D> {
    ghost tape = { λ c. told_by c.tape.past (D.remaining c.inner) };

    fn read(&mut self, buffer: &mut [u8]) -> Result<usize, DeviceFault> {
        let room = buffer.len();
        match self.inner.read(buffer) {
            Ok(n) => {
                self.tape = if n == 0 && room > 0 {
                    self.tape.then(Answer::End, room)
                } else {
                    self.tape.then(Answer::Bytes(&buffer[..n]), room)
                };
                Ok(n)
            }
            Err(_) => {
                self.tape = self.tape.then(Answer::Failure, room);
                Err(DeviceFault)
            }
        }
    }
}

impl<D: Write + Drop> Sink for Counted<D> {
    ghost tape = { λ c. held_by c.tape.past (D.contents c.inner) };

    fn write(&mut self, piece: &[u8]) -> Result<usize, DeviceFault> {
        let room = piece.len();
        match self.inner.write(piece) {
            Ok(n) => {
                self.tape = if n == 0 && room > 0 {
                    self.tape.then(Answer::Failure, room)
                } else {
                    self.tape.then(Answer::Bytes(&piece[..n]), room)
                };
                Ok(n)
            }
            Err(_) => {
                self.tape = self.tape.then(Answer::Failure, room);
                Err(DeviceFault)
            }
        }
    }
}
