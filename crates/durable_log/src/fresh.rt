// The bytes of a new log, of a log that was read, and of a log with more records.
ghost use Rattle.std.specs.Prelude.{◌≡◌, ◌≤◌, ◌<◌, ◌^◌, ◌∷◌, ◌++◌, ◌||◌, [], List, length, drop, IfOk, OnOk, OnErr, IsTrue, if◌then◌else◌};
ghost use Rattle.durable_log.specs.Format.{LogRecord};
ghost use Rattle.durable_log.specs.Files.{log_of, StandsFor};
ghost use Rattle.durable_log.specs.Logs.{records_of, IsRest, Reopens};
ghost use Rattle.durable_log.specs.Shown.{record_shown, IsEnd};

use crate::frame::{frame, push_record};
use crate::link::link_after;
use crate::reading::{End, first_link};
use crate::record::Record;
use crate::rest::{LogFile, Rest};
use std::alloc::{AllocError, Global};

// The header, and an open gate after it.
const BEGINNING: [u8; 11] = *b"bctlog2\n111";

/// A log that was read, with a clean end.
#[derive(Drop)]
pub struct CleanLog {
    /// The log, with all its records.
    pub file: LogFile,
    /// The bytes after its records, if the end was neither clean nor sealed.
    pub cut: Vec<u8>,
}

/// Returns the bytes of a new log with one record.
///
/// # Errors
///
/// `AllocError` if memory is refused.
pub fn new_log(alloc: Global, added: Record<'_>) -> Result<LogFile, AllocError>
    requires { length added.line.now ≤ 2 ^ 24 }
    ensures bytes { IfOk result (λ file. file.bytes.items ≡ log_of (record_shown added.entry ∷ [])) }
    ensures records { IfOk result (λ file. StandsFor (record_shown added.entry ∷ []) file.bytes.items) }
    ensures rest { IfOk result (λ file. IsRest file.bytes.items file.rest) }
{
    let mut bytes = BEGINNING.to_vec(alloc)?;
    let link = first_link();
    let next = link_after(link, added);
    let first = frame(alloc, link, next, added)?;
    bytes.extend_from_slice(&first)?;
    let rest = Rest {
        end: bytes.len() - 3,
        link: next,
    };
    Ok(LogFile { bytes, rest })
}

/// Returns the bytes of a log that was read, with a clean end, and the bytes that were cut off.
///
/// # Errors
///
/// `AllocError` if memory is refused.
pub fn restored(alloc: Global, mut bytes: Vec<u8>, end: End) -> Result<CleanLog, AllocError>
    requires { IsEnd bytes.items end }
    ensures records { IfOk result (λ r. records_of r.file.bytes.items ≡ records_of bytes.items) }
    ensures rest { IfOk result (λ r. IsRest r.file.bytes.items r.file.rest) }
    ensures cut { IfOk result (λ r. r.cut.items ≡ (if end.is_clean || end.is_sealed then [] else drop end.byte bytes.items)) }
    ensures reopens { IfOk result (λ r. IsTrue end.is_sealed → Reopens bytes.items r.file.bytes.items r.file.rest.end) }
{
    let rest = Rest {
        end: end.byte,
        link: end.link,
    };
    if end.is_clean {
        let file = LogFile { bytes, rest };
        let cut = Vec::new(alloc);
        return Ok(CleanLog { file, cut });
    }
    let cut = if end.is_sealed {
        Vec::new(alloc)
    } else {
        bytes[end.byte..].to_vec(alloc)?
    };
    bytes.truncate(end.byte);
    bytes.extend_from_slice(b"000")?;
    let file = LogFile { bytes, rest };
    Ok(CleanLog { file, cut })
}

/// Returns a log with one record more.
///
/// # Errors
///
/// `AllocError` if memory is refused.
pub fn with_record(
    alloc: Global,
    mut file: LogFile,
    added: Record<'_>,
) -> Result<LogFile, AllocError>
    requires rest { IsRest file.bytes.items file.rest }
    requires small { length added.line.now ≤ 2 ^ 24 }
    ensures records { IfOk result (λ more.
        records_of more.bytes.items ≡ records_of file.bytes.items ++ record_shown added.entry ∷ []) }
    ensures rest { IfOk result (λ more. IsRest more.bytes.items more.rest) }
{
    file.push(alloc, added)?;
    Ok(file)
}

impl LogFile {
    /// Adds a record behind the others. It takes time for the bytes of that record alone, so a log
    /// of many records is made by [`new_log`] and a `push` for each further one. After each of them
    /// it is a whole log.
    ///
    /// # Errors
    ///
    /// `AllocError` if memory is refused. The log is as it was then.
    pub fn push(&mut self, alloc: Global, added: Record<'_>) -> Result<(), AllocError>
        requires rest { IsRest self.old.bytes.items self.old.rest }
        requires small { length added.line.now < 2 ^ 32 }
        ensures records { OnOk result (records_of self.new.bytes.items
            ≡ records_of self.old.bytes.items ++ record_shown added.entry ∷ []) }
        ensures stands { OnOk result ((records : List LogRecord) → StandsFor records self.old.bytes.items
            → StandsFor (records ++ record_shown added.entry ∷ []) self.new.bytes.items) }
        ensures rest { IsRest self.new.bytes.items self.new.rest }
        ensures err { OnErr result (self.new.bytes.items ≡ self.old.bytes.items) }
    {
        let link = self.rest.link;
        let next = link_after(link, added);
        push_record(alloc, &mut self.bytes, link, next, added)?;
        self.rest = Rest {
            end: self.bytes.len() - 3,
            link: next,
        };
        Ok(())
    }
}
