//! A reader and a writer that fail once, at a call of the test's choice, and then work again.
ghost use Rattle.std.specs.Prelude.{◌≡◌, IfOk};

use std::io;
use std::io::{Error, ErrorKind, Read, Write};

/// A reader that returns one byte a call, and fails once after some calls.
#[derive(Drop)]
pub(crate) struct FlakyReader<'a> {
    rest: &'a [u8],
    good_calls: usize,
    has_failed: bool,
}

impl<'a> FlakyReader<'a> {
    pub(crate) fn new(rest: &'a [u8], good_calls: usize) -> FlakyReader<'a> {
        FlakyReader {
            rest,
            good_calls,
            has_failed: false,
        }
    }
}

impl Read for FlakyReader<'_> {
    fn read(&mut self, buffer: &mut [u8]) -> io::Result<usize> {
        if self.good_calls == 0 && !self.has_failed {
            self.has_failed = true;
            return Err(Error::from(ErrorKind::Other));
        }
        self.good_calls = self.good_calls.saturating_sub(1);
        match (self.rest.split_first(), buffer.first_mut()) {
            (Some((byte, rest)), Some(place)) => {
                *place = *byte;
                self.rest = rest;
                Ok(1)
            }
            _ => Ok(0),
        }
    }
}

/// A writer that takes pieces of limited size, and fails once after some calls: with an error, or
/// by taking no byte.
#[derive(Drop)]
pub(crate) struct FlakyWriter {
    pub(crate) taken: Vec<u8>,
    pub(crate) most: usize,
    pub(crate) good_calls: usize,
    pub(crate) is_silent: bool,
    pub(crate) has_failed: bool,
}

impl FlakyWriter {
    fn fail(&mut self) -> io::Result<usize>
        ensures { IfOk result (λ count. count ≡ 0) }
    {
        self.has_failed = true;
        if self.is_silent {
            Ok(0)
        } else {
            Err(Error::from(ErrorKind::Other))
        }
    }
}

impl Write for FlakyWriter {
    fn write(&mut self, piece: &[u8]) -> io::Result<usize> {
        if self.good_calls == 0 && !self.has_failed {
            return self.fail();
        }
        self.good_calls = self.good_calls.saturating_sub(1);
        let part = piece.get(..self.most).unwrap_or(piece);
        self.taken.extend_from_slice(part)?;
        Ok(part.len())
    }

    fn flush(&mut self) -> io::Result<()> {
        Ok(())
    }
}
