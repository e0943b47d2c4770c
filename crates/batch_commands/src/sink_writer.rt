// A writer of std over a sink.
use script_engine::Sink;
use std::io;
use std::io::{ErrorKind, Write};

/// A writer of std that writes to a sink.
#[derive(Drop)]
pub(crate) struct SinkWriter<'s, W: Sink> {
    pub(crate) sink: &'s mut W,
}

impl<W: Sink> Write for SinkWriter<'_, W> {
    fn write(&mut self, piece: &[u8]) -> io::Result<usize> {
        match self.sink.write(piece) {
            Ok(count) => Ok(count),
            Err(_) => Err(io::Error::from(ErrorKind::Other)),
        }
    }

    fn flush(&mut self) -> io::Result<()> {
        Ok(())
    }
}
