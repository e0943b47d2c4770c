// The link of a record to those before it.
ghost use Rattle.std.specs.Prelude.{◌≡◌};
ghost use Rattle.durable_log.specs.Format.{record_check, link_after};
ghost use Rattle.durable_log.specs.Shown.{record_shown};

use crate::columns::digits;
use crate::record::Record;
use crc32c::check_after;

/// The link of a record to those before it. By it a record that was left out, doubled or moved is
/// found.
#[derive(Clone, Copy, Debug, PartialEq, Eq)]
pub struct Link {
    /// The number of the record, counted from 0, modulo 2^32.
    pub number: u32,
    /// The check of the record before it. That of the first record is the check of the header.
    pub check: u32,
}

// Returns the check of a record.
fn check_of_record(link: Link, given: Record<'_>) -> u32
    ensures { result ≡ record_check link (record_shown given.entry) }
{
    let head = check_after(link.check, &[given.mark]);
    let reply = check_after(head, &digits(given.reply_check));
    check_after(reply, given.line)
}

// Returns the link of a record to the next.
pub(crate) fn link_after(link: Link, given: Record<'_>) -> Link
    ensures { result ≡ link_after link (record_shown given.entry) }
{
    Link {
        number: link.number.wrapping_add(1),
        check: check_of_record(link, given),
    }
}
