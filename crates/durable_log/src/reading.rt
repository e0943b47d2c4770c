// Reading the bytes of a file.
ghost use Rattle.std.specs.Prelude.{◌≡◌, ◌↔◌, ◌∷◌, List, [], length, map, drop, IsTrue, IfOk, IfErr};
ghost use Rattle.durable_log.specs.Files.{opening, Ours, is_known, first_link, link_behind, StandsFor};
ghost use Rattle.durable_log.specs.Parts.{IsPart};
ghost use Rattle.durable_log.specs.declared.reading.ReadFault.TheVariants.{OutOfMemory};
ghost use Rattle.durable_log.specs.Shown.{record_shown, IsEnd, HasFault, HasPartFault};

use crate::link::Link;
use crate::place::{Place, next};
use crate::record::Record;
use crc32c::check_of;
use std::alloc::{AllocError, AllocFailed, Global};
use std::error::Error;
use std::fmt;

/// A fault of a file.
#[derive(Clone, Copy, Debug, PartialEq, Eq)]
pub enum ReadFault {
    /// It is no log: another file, or an empty one.
    Foreign,
    /// It is a log of another version.
    Later,
    /// A record is damaged, or more bytes follow the end than a crash can leave.
    Damaged {
        /// The number of the record, counted from 0.
        number: usize,
        /// The byte at which its gate begins, counted from 0.
        byte: usize,
    },
    /// Memory was refused.
    OutOfMemory,
}

impl fmt::Display for ReadFault {
    fn fmt<W: fmt::Write>(&self, f: &mut fmt::Formatter<W>) -> fmt::Result {
        match self {
            ReadFault::Foreign => f.write_str("the file is no log"),
            ReadFault::Later => f.write_str("the log is of another version"),
            ReadFault::Damaged { number, byte } => {
                write!(f, "record {number} is damaged, at byte {byte}")
            }
            ReadFault::OutOfMemory => f.write_str("out of memory"),
        }
    }
}

impl Error for ReadFault {}

impl From<AllocError> for ReadFault {
    ghost from_gives = { λ _ e. e ≡ OutOfMemory };

    fn from(_: AllocError) -> Self {
        ReadFault::OutOfMemory
    }
}

impl<T: Drop> From<AllocFailed<T>> for ReadFault {
    ghost from_gives = { λ _ e. e ≡ OutOfMemory };

    fn from(_: AllocFailed<T>) -> Self {
        ReadFault::OutOfMemory
    }
}

/// The end of the records of a file.
#[derive(Clone, Copy, Debug, PartialEq, Eq)]
pub struct End {
    /// The byte at which the gate after the last record begins, or would begin.
    pub byte: usize,
    /// The link of the records to the next.
    pub link: Link,
    /// Whether the gate is shut, and the file ends right after it.
    pub is_clean: bool,
    /// Whether the gate is the seal, and the file ends right after it. Then the run that wrote the
    /// file ended well, and all bytes before the seal are on the disk.
    pub is_sealed: bool,
}

/// The records of a file, and their end.
#[derive(Drop)]
pub struct Contents<'a> {
    /// The records, in their order.
    pub records: Vec<Record<'a>>,
    /// The end of the records.
    pub end: End,
}

// The records of a part of a file, their link to the next, and the bytes after them.
#[derive(Drop)]
pub struct Part<'a> {
    records: Vec<Record<'a>>,
    link: Link,
    rest: &'a [u8],
}

// Returns the link of a header to the first record.
pub(crate) fn first_link() -> Link
    ensures { result ≡ first_link }
{
    Link {
        number: 0,
        check: check_of(b"bctlog2\n"),
    }
}

// Reads records up to the end.
fn read_records(alloc: Global, bytes: &[u8]) -> Result<Part<'_>, ReadFault>
    ensures records { IfOk result (λ found. IsPart bytes.now (map record_shown found.records.items) found.rest.now) }
    ensures link { IfOk result (λ found. found.link ≡ link_behind (map record_shown found.records.items)) }
    ensures fault { IfErr result (HasPartFault bytes.now) }
{
    let mut records = Vec::new(alloc);
    let mut link = first_link();
    let mut rest = bytes;
    'records: loop {
        match next(link, rest) {
            Place::Found(entry, behind, after) => {
                records.push(entry)?;
                link = behind;
                rest = after;
            }
            Place::End => {
                return Ok(Part {
                    records,
                    link,
                    rest,
                });
            }
            Place::Damaged => {
                let number = records.len();
                let byte = bytes.len() - rest.len() + 8;
                return Err(ReadFault::Damaged { number, byte });
            }
        }
    }
}

fn is_header(a: u8, b: u8, c: u8, d: u8, e: u8, f: u8, h: u8) -> bool
    ensures { result ≡ is_known a b c d e f h }
{
    a == b'b'
        && (b == b'c' && (c == b't' && (d == b'l' && (e == b'o' && (f == b'g' && h == b'\n')))))
}

// Returns the bytes after the header.
fn behind_header(file: &[u8]) -> Result<&[u8], ReadFault>
    ensures ours { IfOk result (λ rest. (opening file.now ≡ Ours rest.now) × (rest.now ≡ drop 8 file.now)) }
    ensures fault { IfErr result (HasFault file.now) }
{
    match file {
        [a, b, c, d, e, f, g, h, rest @ ..] => {
            if !is_header(*a, *b, *c, *d, *e, *f, *h) {
                return Err(ReadFault::Foreign);
            }
            match *g {
                b'2' => Ok(rest),
                b'1' => Err(ReadFault::Foreign),
                _ => Err(ReadFault::Later),
            }
        }
        _ => Err(ReadFault::Foreign),
    }
}

// Checks whether the bytes are a gate of this byte, three times.
fn is_gate(bytes: &[u8], byte: u8) -> bool
    ensures { IsTrue result ↔ (bytes.now ≡ byte ∷ byte ∷ byte ∷ []) }
{
    match bytes {
        [a, b, c] => *a == byte && *b == byte && *c == byte,
        _ => false,
    }
}

/// Reads a file that a crash may have left. It makes no call of a host, so a file that is refused
/// doesn't change. The records borrow their lines from `file`.
///
/// # Errors
///
/// - `Foreign` if the file is no log: its first 8 bytes are no header, or it is shorter, or its
///   version is 1, which had no release.
/// - `Later` if its header has another version digit.
/// - `Damaged` if the bytes after an open gate are no record, or if more than `MAX_BATCH` bytes
///   follow a gate that isn't open. All records before it are whole.
/// - `OutOfMemory` if memory is refused, instead of any result.
pub fn read_log(alloc: Global, file: &[u8]) -> Result<Contents<'_>, ReadFault>
    ensures records { IfOk result (λ found. StandsFor (map record_shown found.records.items) file.now) }
    ensures end { IfOk result (λ found. IsEnd file.now found.end) }
    ensures fault { IfErr result (HasFault file.now) }
{
    let rest = behind_header(file)?;
    let found = match read_records(alloc, rest) {
        Ok(found) => found,
        Err(fault) => return Err(fault),
    };
    let end = End {
        byte: file.len() - found.rest.len(),
        link: found.link,
        is_clean: is_gate(found.rest, b'0'),
        is_sealed: is_gate(found.rest, b's'),
    };
    Ok(Contents {
        records: found.records,
        end,
    })
}
