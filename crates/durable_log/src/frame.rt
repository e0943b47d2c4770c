// The written form of records.
ghost use Rattle.std.specs.Prelude.{◌≡◌, ◌⊎◌, ◌<◌, ◌≤◌, ◌+◌, ◌^◌, ◌∷◌, ◌++◌, List, ℕ, [], length, take, drop, IfOk, OnOk, OnErr};
ghost use Rattle.durable_log.specs.Format.{link_after, frame, shut};
ghost use Rattle.durable_log.specs.Shown.{record_shown};

use crate::columns::push_column;
use crate::link::Link;
use crate::record::Record;
use std::alloc::{AllocError, Global};

const OPEN: [u8; 3] = *b"111";

// The bytes of the mark and of the five columns, with the spaces around them.
const COLUMNS: usize = 48;

// The line feed of a record, and a shut gate.
const ENDING: [u8; 4] = *b"\n000";

// Returns the bytes of a record, and of a shut gate after it. Its link to the next record is `next`.
pub(crate) fn frame(
    alloc: Global,
    link: Link,
    next: Link,
    added: Record<'_>,
) -> Result<Vec<u8>, AllocError>
    requires small { length added.line.now < 2 ^ 32 }
    requires next { next ≡ link_after link (record_shown added) }
    ensures { IfOk result (λ bytes. bytes.items ≡ frame link (record_shown added.entry) ++ shut) }
{
    let size = added.line.len() as u32;
    let mut bytes = Vec::with_capacity(alloc, COLUMNS + added.line.len() + ENDING.len())?;
    bytes.extend_from_slice(&[b' ', added.mark, b' '])?;
    push_column(&mut bytes, size)?;
    push_column(&mut bytes, size)?;
    push_column(&mut bytes, link.number)?;
    push_column(&mut bytes, next.check)?;
    push_column(&mut bytes, added.reply_check)?;
    bytes.extend_from_slice(added.line)?;
    bytes.extend_from_slice(&ENDING)?;
    Ok(bytes)
}

// Opens the gate at a place.
fn open_gate(bytes: &mut Vec<u8>, at: usize)
    requires { at + 3 ≤ length bytes.old.items }
    ensures { bytes.new.items ≡ take at bytes.old.items ++ (49 ∷ 49 ∷ 49 ∷ drop (at + 3) bytes.old.items) }
{
    bytes[at..at + 3].copy_from_slice(&OPEN);
}

// Adds a record to the bytes after a gate. These are none, or they are records that end with a shut
// gate, which is then opened.
pub(crate) fn push_record(
    alloc: Global,
    bytes: &mut Vec<u8>,
    link: Link,
    next: Link,
    added: Record<'_>,
) -> Result<(), AllocError>
    requires next { next ≡ link_after link (record_shown added) }
    requires small { length added.line.now < 2 ^ 32 }
    requires ends { (bytes.old.items ≡ []) ⊎ ((front : List ℕ) × (bytes.old.items ≡ front ++ shut)) }
    ensures first { OnOk result (bytes.old.items ≡ [] → bytes.new.items ≡ frame link (record_shown added.entry) ++ shut) }
    ensures later { OnOk result ((front : List ℕ) → bytes.old.items ≡ front ++ shut
        → bytes.new.items ≡ front ++ (49 ∷ 49 ∷ 49 ∷ (frame link (record_shown added.entry) ++ shut))) }
    ensures err { OnErr result (bytes.new.items ≡ bytes.old.items) }
{
    let end = bytes.len();
    let more = frame(alloc, link, next, added)?;
    bytes.extend_from_slice(&more)?;
    if end < 3 {
        return Ok(());
    }
    open_gate(bytes, end - 3);
    Ok(())
}
