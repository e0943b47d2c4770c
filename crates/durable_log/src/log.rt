// An open log.
ghost use Rattle.std.specs.Prelude.{◌≡◌, ◌<◌, ◌≤◌, ◌^◌, ◌+◌, ◌-◌, ◌++◌, ◌∷◌, ◌↔◌, [], length, take, OnOk, OnErr, IfOk, IsErrOf, IsTrue};
ghost use Rattle.log_host.specs.Host.{Each, Only, LeavesOnly};
ghost use Rattle.durable_log.specs.Logs.{records_of, link_of, IsAtRest, IsRest, IsSealed, IsBatch, IsSettled, waiting_in, batch_records, BeforeOrAfter, ButForGate, Same, Told, Unsealed};
ghost use Rattle.durable_log.specs.Shown.{record_shown};
ghost use Rattle.durable_log.specs.declared.log.CommitFault.TheVariants.{Failed};

use crate::frame::push_record;
use crate::link::{Link, link_after};
use crate::record::Record;
use crate::rest::Rest;
use log_host::{Host, HostFault, write_and_sync};
use std::alloc::{AllocError, Global};
use std::error::Error;
use std::fmt;

/// A shut gate, with which a file at rest ends.
pub const SHUT: [u8; 3] = *b"000";

// An open gate.
const OPEN: [u8; 3] = *b"111";

// The gate of a sealed log.
const SEAL: [u8; 3] = *b"sss";

// The most bytes that a file may have.
const MAX_FILE: usize = 1 << 62;

/// The reason why a commit failed. The log is of no more use then: open the file again.
#[derive(Clone, Copy, Debug, PartialEq, Eq)]
pub enum CommitFault {
    /// The host failed.
    Failed,
    /// The file would be larger than 2^62 bytes.
    Full,
}

impl fmt::Display for CommitFault {
    fn fmt<W: fmt::Write>(&self, f: &mut fmt::Formatter<W>) -> fmt::Result {
        f.write_str(match self {
            CommitFault::Failed => "the file of the log failed",
            CommitFault::Full => "the log is full",
        })
    }
}

impl Error for CommitFault {}

impl From<HostFault> for CommitFault {
    ghost from_gives = { λ _ e. e ≡ Failed };

    fn from(_: HostFault) -> Self {
        CommitFault::Failed
    }
}

/// A file of records, all of them on the disk, and records that wait to be written.
#[derive(Drop)]
pub struct Log<H: Host> {
    pub(crate) host: H,
    pub(crate) end: usize,
    // The link of the records of the file to the next.
    pub(crate) link: Link,
    // The link of the last waiting record to the next.
    pub(crate) last: Link,
    // The bytes to be written after the gate at the end, as they are.
    pub(crate) waiting: Vec<u8>,
}

// Writes a batch after the gate at the end, and opens that gate after the batch is on the disk.
fn put_batch<H: Host>(host: &mut H, end: usize, batch: &[u8]) -> Result<(), HostFault>
    requires rest { IsAtRest (H.seen host.old) end }
    requires batch { IsBatch (link_of (H.seen host.old)) batch.now }
    requires room { end + length batch.now < 2 ^ 63 }
    requires durable { Only (H.seen host.old) (H.heard host.old) (H.may_leave host.old) }
    ensures rest { OnOk result (IsAtRest (H.seen host.new) (end + length batch.now)) }
    ensures records { OnOk result (records_of (H.seen host.new)
        ≡ records_of (H.seen host.old) ++ batch_records (link_of (H.seen host.old)) batch.now) }
    ensures durable { OnOk result (Only (H.seen host.new) (H.heard host.new) (H.may_leave host.new)) }
    ensures heard { H.heard host.new ≡ H.heard host.old }
    ensures any_moment { LeavesOnly H.moment H.left_since host.old host.new
        (BeforeOrAfter (records_of (H.seen host.old))
        (batch_records (link_of (H.seen host.old)) batch.now) (H.heard host.old)) }
    ensures later { H.file_faults host.old ≤ H.file_faults host.new }
    ensures failed { OnErr result (H.file_faults host.old < H.file_faults host.new) }
    ensures unsealed { LeavesOnly H.moment H.left_since host.old host.new Unsealed }
    ensures listener { H.listener_faults host.new ≡ H.listener_faults host.old }
    ensures origin { H.origin host.new ≡ H.origin host.old }
{
    write_and_sync(host, end + 3, batch)?;
    // The batch must be on the disk first. Otherwise a crash could leave an open gate before a part
    // of it.
    write_and_sync(host, end, &OPEN)?;
    Ok(())
}

impl<H: Host> Log<H> {
    /// Returns a log over a host whose file is at rest, and on the disk. No record waits.
    pub fn new(alloc: Global, host: H, rest: Rest) -> Log<H>
        requires rest { IsRest (H.seen host) rest }
        requires durable { Only (H.seen host) (H.heard host) (H.may_leave host) }
        ensures settled { IsSettled H.seen H.heard H.may_leave result }
        ensures nothing_waits { waiting_in result ≡ [] }
        ensures host { result.host ≡ host }
    {
        Log {
            host,
            end: rest.end,
            link: rest.link,
            last: rest.link,
            waiting: Vec::new(alloc),
        }
    }

    /// Checks whether more than 2^24 bytes wait. The caller commits then, before the next record.
    pub fn is_long(&self) -> bool
        ensures { IsTrue result ↔ (2 ^ 24 < length self.now.waiting.items) }
    {
        self.waiting.len() > 1 << 24
    }

    /// Adds a record to the waiting records. It makes no call of the host. It takes all memory that
    /// a commit needs.
    ///
    /// # Errors
    ///
    /// `AllocError` if memory is refused. Nothing is added then, and the waiting records can still
    /// be committed.
    pub fn append(&mut self, alloc: Global, added: Record<'_>) -> Result<(), AllocError>
        requires settled { IsSettled H.seen H.heard H.may_leave self.old }
        requires room { length self.old.waiting.items ≤ 2 ^ 24 }
        requires small { length added.line.now ≤ 2 ^ 24 }
        ensures ok { OnOk result (waiting_in self.new ≡ waiting_in self.old ++ record_shown added.entry ∷ []) }
        ensures err { OnErr result (waiting_in self.new ≡ waiting_in self.old) }
        ensures settled { IsSettled H.seen H.heard H.may_leave self.new }
        ensures host { self.new.host ≡ self.old.host }
    {
        let next = link_after(self.last, added);
        push_record(alloc, &mut self.waiting, self.last, next, added)?;
        self.last = next;
        Ok(())
    }

    /// Puts all waiting records on the disk. If none waits, it makes no call of the host. It takes
    /// no memory.
    ///
    /// # Errors
    ///
    /// `Failed` if the host failed, and `Full` if the file would be larger than 2^62 bytes. The log
    /// is of no more use then: open the file again.
    pub fn commit(&mut self) -> Result<(), CommitFault>
        requires { IsSettled H.seen H.heard H.may_leave self.old }

        ensures acknowledged { OnOk result (IsSettled H.seen H.heard H.may_leave self.new
            × (records_of (H.seen self.new.host) ≡ records_of (H.seen self.old.host) ++ waiting_in self.old)) }
        ensures nothing_waits { OnOk result (waiting_in self.new ≡ []) }
        ensures idle { waiting_in self.old ≡ [] → self.new.host ≡ self.old.host }
        ensures heard { H.heard self.new.host ≡ H.heard self.old.host }

        // A crash at any moment of the call leaves the records from before it, with all waiting
        // records or with none of them.
        ensures any_moment { LeavesOnly H.moment H.left_since self.old.host self.new.host
            (BeforeOrAfter (records_of (H.seen self.old.host)) (waiting_in self.old) (H.heard self.old.host)) }

        // Nor is the file sealed at any moment.
        ensures unsealed { LeavesOnly H.moment H.left_since self.old.host self.new.host Unsealed }

        ensures later { H.file_faults self.old.host ≤ H.file_faults self.new.host }
        ensures failed { IsErrOf result CommitFault.Failed → H.file_faults self.old.host < H.file_faults self.new.host }
        ensures listener { H.listener_faults self.new.host ≡ H.listener_faults self.old.host }
        ensures origin { H.origin self.new.host ≡ H.origin self.old.host }
        ensures full { IsErrOf result CommitFault.Full → (self.new ≡ self.old) × (2 ^ 62 ≤ self.old.end + length self.old.waiting.items) }
    {
        if self.waiting.is_empty() {
            return Ok(());
        }
        if self.waiting.len() >= MAX_FILE || self.end >= MAX_FILE - self.waiting.len() {
            return Err(CommitFault::Full);
        }
        put_batch(&mut self.host, self.end, &self.waiting)?;
        self.end += self.waiting.len();
        self.link = self.last;
        self.waiting.clear();
        Ok(())
    }

    /// Sends the listener a front of a piece, and returns its number of bytes. No record may wait,
    /// so that a reply is sent only after its record is on the disk.
    ///
    /// # Errors
    ///
    /// `HostFault` if the listener failed. The log is of no more use then.
    pub fn tell(&mut self, piece: &[u8]) -> Result<usize, HostFault>
        requires settled { IsSettled H.seen H.heard H.may_leave self.old }
        requires nothing_waits { waiting_in self.old ≡ [] }
        ensures bound { IfOk result (λ n. n ≤ length piece.now) }
        ensures told { IfOk result (λ n. H.heard self.new.host ≡ H.heard self.old.host ++ take n piece.now) }
        ensures nothing { IfOk result (λ n. n ≡ 0 → 0 < length piece.now → H.listener_faults self.old.host < H.listener_faults self.new.host) }
        ensures settled { OnOk result (IsSettled H.seen H.heard H.may_leave self.new) }
        ensures seen { H.seen self.new.host ≡ H.seen self.old.host }
        ensures nothing_waits { waiting_in self.new ≡ [] }

        // A crash at any moment of the call leaves the same records, and the listener has heard a
        // front of the piece.
        ensures any_moment { LeavesOnly H.moment H.left_since self.old.host self.new.host
            (Told (records_of (H.seen self.old.host)) (H.heard self.old.host) piece.now) }

        ensures unsealed { LeavesOnly H.moment H.left_since self.old.host self.new.host Unsealed }
        ensures later { H.listener_faults self.old.host ≤ H.listener_faults self.new.host }
        ensures failed { OnErr result (H.listener_faults self.old.host < H.listener_faults self.new.host) }
        ensures file { H.file_faults self.new.host ≡ H.file_faults self.old.host }
        ensures origin { H.origin self.new.host ≡ H.origin self.old.host }
    {
        self.host.tell(piece)
    }

    /// Seals the log, and returns the host. A sealed log needs not be made anew when it is opened:
    /// all of its bytes were on the disk before it was sealed. The seal itself isn't synced, and it
    /// is no loss if it fails: the log is opened as one that a crash left.
    pub fn seal(mut self) -> H
        requires settled { IsSettled H.seen H.heard H.may_leave self }
        requires nothing_waits { waiting_in self ≡ [] }
        ensures any_moment { LeavesOnly H.moment H.left_since self.host result (Same (records_of (H.seen self.host)) (H.heard self.host)) }
        ensures sealed { H.file_faults result ≡ H.file_faults self.host → IsSealed (H.seen result) self.end }
        ensures but_for_gate { Each (H.may_leave result) (ButForGate (H.seen self.host) self.end (H.heard self.host)) }
        ensures heard { H.heard result ≡ H.heard self.host }
        ensures file { H.file_faults self.host ≤ H.file_faults result }
        ensures listener { H.listener_faults result ≡ H.listener_faults self.host }
        ensures origin { H.origin result ≡ H.origin self.host }
    {
        let _ = self.host.write_at(self.end, &SEAL);
        self.host
    }

    /// Returns the host, as the calls left it.
    pub fn into_host(self) -> H
        ensures { result ≡ self.host }
    {
        self.host
    }
}
