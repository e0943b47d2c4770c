// The calls of the disk for one file.
ghost use Rattle.std.specs.Prelude.{◌≡◌, ◌∷◌, List, IfOk, OnErr};
ghost use Rattle.log_host.specs.Past.{Call};
ghost use Rattle.file_host.specs.Calls.{take_call, read_call, keep_call, draft_call, write_call, sync_call, rename_call, folder_call};

use crate::file_fault::FileFault;
use log_host::Tape;
use std::alloc::Global;
use std::error::Error;
use std::fmt;

/// A call of the disk failed.
#[derive(Clone, Copy, Debug, PartialEq, Eq)]
pub struct CallFault;

impl fmt::Display for CallFault {
    fn fmt<W: fmt::Write>(&self, f: &mut fmt::Formatter<W>) -> fmt::Result {
        f.write_str("a call of the disk failed")
    }
}

impl Error for CallFault {}

/// The calls of the disk for one file of a name, in order. Contracts see each call with its answer.
pub trait Disk {
    /// The calls so far, the newest first.
    ghost past: { Self → List Call };

    /// Opens the file of this name, and takes its lock. It follows a link.
    ///
    /// # Errors
    ///
    /// - `Missing` if there is no such file.
    /// - `Unavailable` if it cannot be opened, or its file system has no locks.
    /// - `InUse` if another program has it.
    fn take(&mut self, name: &str) -> Result<(), FileFault>
        ensures { past self.new ≡ take_call name.now result ∷ past self.old };

    /// Reads all bytes of the file that was taken.
    ///
    /// # Errors
    ///
    /// `Unavailable` if it cannot be read, and `OutOfMemory` if memory for its bytes is refused.
    fn read(&mut self, alloc: Global) -> Result<Vec<u8>, FileFault>
        ensures read { IfOk result (λ bytes. past self.new ≡ read_call bytes.items ∷ past self.old) }
        ensures unread { OnErr result (past self.new ≡ past self.old) };

    /// Keeps bytes in the file `NAME.cut`, in place of what it held, and waits until they are on the
    /// disk.
    ///
    /// # Errors
    ///
    /// `Unavailable` if that file cannot be made, written or synced, and `OutOfMemory` if memory for
    /// its name is refused.
    fn keep(&mut self, name: &str, bytes: &[u8]) -> Result<(), FileFault>
        ensures { past self.new ≡ keep_call bytes.now result ∷ past self.old };

    /// Makes an empty draft of the file of this name, and takes its lock. It has the permissions of
    /// the file that was taken, or is readable by its owner alone. A draft that a crash left is
    /// emptied.
    ///
    /// # Errors
    ///
    /// - `Unavailable` if it cannot be made or emptied.
    /// - `InUse` if another program makes it, or has made the file meanwhile.
    /// - `OutOfMemory` if memory for its name is refused.
    fn draft(&mut self, name: &str) -> Result<(), FileFault>
        ensures { past self.new ≡ draft_call name.now result ∷ past self.old };

    /// Writes all of the bytes at a place of the draft; or of the file that was taken, as long as no
    /// draft was made.
    ///
    /// # Errors
    ///
    /// `CallFault` if the write failed. Some of the bytes may have been written then. It fails too,
    /// and writes nothing, if the place is behind the end, since another program has cut the file.
    fn write_at(&mut self, at: usize, bytes: &[u8]) -> Result<(), CallFault>
        ensures { past self.new ≡ write_call at bytes.now result ∷ past self.old };

    /// Waits until all bytes of the draft are on the disk; or of the file that was taken, as long as
    /// no draft was made.
    ///
    /// # Errors
    ///
    /// `CallFault` if the sync failed.
    fn sync(&mut self) -> Result<(), CallFault>
        ensures { past self.new ≡ sync_call result ∷ past self.old };

    /// Gives the draft the name of the file.
    ///
    /// # Errors
    ///
    /// `CallFault` if the file kept its name, or may have.
    fn rename(&mut self, name: &str) -> Result<(), CallFault>
        ensures { past self.new ≡ rename_call name.now result ∷ past self.old };

    /// Waits until the names in the folder of the file are on the disk.
    ///
    /// # Errors
    ///
    /// `CallFault` if the sync failed.
    fn sync_folder(&mut self, name: &str) -> Result<(), CallFault>
        ensures { past self.new ≡ folder_call name.now result ∷ past self.old };

    /// Returns the calls so far, for proofs.
    fn tape(&self) -> Tape
        ensures { result.past.calls ≡ past self.now };
}
