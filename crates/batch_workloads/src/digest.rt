// A digest of bytes (FNV-1a, 64 bits).
use std::io;
use std::io::Write;

/// How many bytes were written, and their digest.
#[derive(Drop)]
pub(crate) struct Digest {
    bytes: u64,
    value: u64,
}

impl Digest {
    /// The digest of nothing.
    pub(crate) fn new() -> Digest {
        Digest {
            bytes: 0,
            value: 0xcbf2_9ce4_8422_2325,
        }
    }

    pub(crate) fn bytes(&self) -> u64 {
        self.bytes
    }

    pub(crate) fn value(&self) -> u64 {
        self.value
    }

    pub(crate) fn writer(&mut self) -> DigestWriter<'_> {
        DigestWriter { digest: self }
    }
}

/// A writer that keeps the digest of what it takes.
#[derive(Drop)]
pub(crate) struct DigestWriter<'d> {
    digest: &'d mut Digest,
}

impl Write for DigestWriter<'_> {
    fn write(&mut self, piece: &[u8]) -> io::Result<usize> {
        let mut value = self.digest.value;
        for byte in piece {
            value = (value ^ u64::from(*byte)).wrapping_mul(0x0100_0000_01b3);
        }
        self.digest.value = value;
        self.digest.bytes = self.digest.bytes.wrapping_add(piece.len() as u64);
        Ok(piece.len())
    }

    fn flush(&mut self) -> io::Result<()> {
        Ok(())
    }
}
