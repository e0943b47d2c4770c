// The contents of a place in a file.
ghost use Rattle.std.specs.Prelude.{◌≡◌, length};
ghost use Rattle.durable_log.specs.Format.{is_open, next, after_front, with_length, with_again, with_number, with_check, with_reply_check, record_in, column_of};
ghost use Rattle.durable_log.specs.Shown.{next_shown};

use crate::columns::{ColumnRead, column};
use crate::link::{Link, link_after};
use crate::record::Record;

/// The most bytes that are written at once after the gate at the end of a file.
pub const MAX_BATCH: usize = (1 << 25) + 128;

// The end; or damage, as bytes after an open gate that are no record; or a record, its link to the
// next, and the bytes after it.
#[derive(Clone, Copy)]
pub enum Place<'a> {
    End,
    Damaged,
    Found(Record<'a>, Link, &'a [u8]),
}

fn is_open(a: u8, b: u8, c: u8) -> bool
    ensures { result ≡ is_open a b c }
{
    if a == b'1' {
        b == b'1' || c == b'1'
    } else {
        b == b'1' && c == b'1'
    }
}

fn record_in(link: Link, mark: u8, n: u32, check: u32, reply_check: u32, body: &[u8]) -> Place<'_>
    ensures { next_shown result ≡ record_in link mark n check reply_check body.now }
{
    let size = n as usize;
    if size >= body.len() || body[size] != b'\n' {
        return Place::Damaged;
    }
    let entry = Record {
        mark,
        line: &body[..size],
        reply_check,
    };
    let next = link_after(link, entry);
    if next.check == check {
        Place::Found(entry, next, &body[size + 1..])
    } else {
        Place::Damaged
    }
}

fn at_reply_check(link: Link, mark: u8, n: u32, check: u32, bytes: &[u8]) -> Place<'_>
    ensures { next_shown result ≡ with_reply_check link mark n check (column_of bytes.now) }
{
    match column(bytes) {
        ColumnRead::Number(reply_check, body) => record_in(link, mark, n, check, reply_check, body),
        ColumnRead::Absent => Place::Damaged,
    }
}

fn at_check(link: Link, mark: u8, n: u32, bytes: &[u8]) -> Place<'_>
    ensures { next_shown result ≡ with_check link mark n (column_of bytes.now) }
{
    match column(bytes) {
        ColumnRead::Number(check, rest) => at_reply_check(link, mark, n, check, rest),
        ColumnRead::Absent => Place::Damaged,
    }
}

fn at_number(link: Link, mark: u8, n: u32, bytes: &[u8]) -> Place<'_>
    ensures { next_shown result ≡ with_number link mark n (column_of bytes.now) }
{
    match column(bytes) {
        ColumnRead::Number(number, rest) => {
            if number == link.number {
                at_check(link, mark, n, rest)
            } else {
                Place::Damaged
            }
        }
        ColumnRead::Absent => Place::Damaged,
    }
}

fn at_again(link: Link, mark: u8, n: u32, bytes: &[u8]) -> Place<'_>
    ensures { next_shown result ≡ with_again link mark n (column_of bytes.now) }
{
    match column(bytes) {
        ColumnRead::Number(again, rest) => {
            if again == n {
                at_number(link, mark, n, rest)
            } else {
                Place::Damaged
            }
        }
        ColumnRead::Absent => Place::Damaged,
    }
}

fn at_length(link: Link, mark: u8, bytes: &[u8]) -> Place<'_>
    ensures { next_shown result ≡ with_length link mark (column_of bytes.now) }
{
    match column(bytes) {
        ColumnRead::Number(n, rest) => at_again(link, mark, n, rest),
        ColumnRead::Absent => Place::Damaged,
    }
}

fn behind_gate(link: Link, bytes: &[u8]) -> Place<'_>
    ensures { next_shown result ≡ after_front link bytes.now }
{
    match bytes {
        [] => Place::End,
        [space, mark, also, rest @ ..] => {
            if *space == b' ' && *also == b' ' {
                at_length(link, *mark, rest)
            } else {
                Place::Damaged
            }
        }
        _ => Place::Damaged,
    }
}

// Reads the place at the front of the bytes.
#[tactic(auto, unfolding(crate::specs::Format::next))]
pub(crate) fn next(link: Link, bytes: &[u8]) -> Place<'_>
    ensures { next_shown result ≡ next link bytes.now }
{
    match bytes {
        [a, b, c, rest @ ..] => {
            if is_open(*a, *b, *c) {
                behind_gate(link, rest)
            } else if rest.len() > MAX_BATCH {
                Place::Damaged
            } else {
                Place::End
            }
        }
        _ => Place::End,
    }
}
