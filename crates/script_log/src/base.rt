// The base among the records of a log.
ghost use Rattle.std.specs.Prelude.{◌≡◌, ◌≤◌, ◌↔◌, length, map, IsOk, IfOk, IfErr};
ghost use Rattle.durable_log.specs.Shown.{record_shown};
ghost use Rattle.script_log.specs.Runs.{base_lines};
ghost use Rattle.script_log.specs.Bases.{lines_of_records, IsBaseOf, HasBaseInPlace, IsOutOfPlace, IsFirstOfBase, IsBaseLength};

use crate::catalogue::begins_with_catalogue;
use crate::mark::BASE_MARK;
use durable_log::Record;
use std::error::Error;
use std::fmt;

/// A fault of a log: a record of its base stands elsewhere than right behind the first catalogue.
#[derive(Clone, Copy, Debug, PartialEq, Eq)]
pub struct OutOfPlace {
    /// The number of the first such record, counted from 0.
    pub number: usize,
}

impl fmt::Display for OutOfPlace {
    fn fmt<W: fmt::Write>(&self, f: &mut fmt::Formatter<W>) -> fmt::Result {
        let number = self.number;
        write!(f, "record {number} is of the base, and out of place")
    }
}

impl Error for OutOfPlace {}

// Returns how many records of the base stand at the front.
fn base_length(records: &[Record<'_>]) -> usize
    ensures bound { result ≤ length records.now }
    ensures length { IsBaseLength (map record_shown records.now) result }
{
    let mut rest = records;
    while let [entry, later @ ..] = rest {
        if entry.mark != BASE_MARK {
            return records.len() - rest.len();
        }
        rest = later;
    }
    records.len()
}

// Returns the number of the first record of the base.
fn first_of_base(records: &[Record<'_>]) -> Option<usize>
    ensures { IsFirstOfBase (map record_shown records.now) result }
{
    let mut rest = records;
    while let [entry, later @ ..] = rest {
        if entry.mark == BASE_MARK {
            return Some(records.len() - rest.len());
        }
        rest = later;
    }
    None
}

/// Returns the base of a log: the records of mark [`BASE_MARK`] right behind the first catalogue,
/// which is record 0. A log without them has an empty base.
///
/// # Errors
///
/// `OutOfPlace` if a record of the base stands elsewhere: behind an operation, behind a further
/// catalogue, or where record 0 is no catalogue. It has the number of the first such record.
pub fn find_base<'a>(records: &'a [Record<'a>]) -> Result<&'a [Record<'a>], OutOfPlace>
    ensures base { IfOk result (λ base. IsBaseOf (map record_shown records.now) (map record_shown base.now)) }
    ensures lines { IfOk result (λ base. base_lines (map record_shown records.now) ≡ lines_of_records (map record_shown base.now)) }
    ensures in_place { IsOk result ↔ HasBaseInPlace (map record_shown records.now) }
    ensures fault { IfErr result (λ fault. IsOutOfPlace (map record_shown records.now) fault.number) }
{
    if !begins_with_catalogue(records) {
        return match first_of_base(records) {
            Some(number) => Err(OutOfPlace { number }),
            None => Ok(&records[..0]),
        };
    }
    let behind = &records[1..];
    let size = base_length(behind);
    match first_of_base(&behind[size..]) {
        Some(at) => Err(OutOfPlace {
            number: 1 + size + at,
        }),
        None => Ok(&behind[..size]),
    }
}
