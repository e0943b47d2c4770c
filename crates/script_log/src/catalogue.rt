// The catalogues among the records of a log.
ghost use Rattle.std.specs.Prelude.{◌↔◌, map, IsTrue};
ghost use Rattle.durable_log.specs.Shown.{record_shown};
ghost use Rattle.script_log.specs.Catalogues.{BeginsWithCatalogue, IsLastCatalogue, last_shown};

use crate::mark::CATALOGUE_MARK;
use durable_log::Record;

/// The catalogues of a log. It borrows the text of the last one.
#[derive(Clone, Copy, Debug, PartialEq, Eq)]
pub struct LogCatalogues<'a> {
    /// Whether record 0 is a catalogue.
    pub begins: bool,
    /// The number of the last catalogue among the records, counted from 0, and its text.
    pub last: Option<(usize, &'a [u8])>,
}

// Checks whether record 0 is a catalogue.
pub(crate) fn begins_with_catalogue(records: &[Record<'_>]) -> bool
    ensures { IsTrue result ↔ BeginsWithCatalogue (map record_shown records.now) }
{
    match records {
        [first, ..] => first.mark == CATALOGUE_MARK,
        [] => false,
    }
}

/// Finds the catalogues among the records of a log, in one walk over them.
pub fn find_catalogues<'a>(records: &[Record<'a>]) -> LogCatalogues<'a>
    ensures begins { IsTrue result.begins ↔ BeginsWithCatalogue (map record_shown records.now) }
    ensures last { IsLastCatalogue (map record_shown records.now) (last_shown result.last) }
{
    let mut last = None;
    let mut rest = records;
    while let [entry, later @ ..] = rest {
        if entry.mark == CATALOGUE_MARK {
            last = Some((records.len() - rest.len(), entry.line));
        }
        rest = later;
    }
    let begins = begins_with_catalogue(records);
    LogCatalogues { begins, last }
}
