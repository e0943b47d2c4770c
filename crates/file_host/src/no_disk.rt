// A disk without files.
ghost use Rattle.std.specs.Prelude.{◌≡◌, []};

use crate::disk::{CallFault, Disk};
use crate::file_fault::FileFault;
use log_host::{Asked, Making, Tape};
use std::alloc::Global;

/// A disk without files, for programs that are given none. Each call fails, and changes nothing.
#[derive(Drop)]
pub struct NoDisk {
    tape: Tape,
}

impl NoDisk {
    /// Creates a disk that has made no call.
    pub fn new() -> NoDisk
        ensures { result.tape.past.calls ≡ [] }
    {
        NoDisk {
            tape: Tape::begin(&[]),
        }
    }
}

impl Disk for NoDisk {
    ghost past = { λ d. d.tape.past.calls };

    fn take(&mut self, name: &str) -> Result<(), FileFault> {
        self.tape = self
            .tape
            .then(Asked::Made(Making::Take(name.as_bytes(), false)));
        Err(FileFault::Unavailable)
    }

    fn read(&mut self, _alloc: Global) -> Result<Vec<u8>, FileFault> {
        Err(FileFault::Unavailable)
    }

    fn keep(&mut self, _name: &str, bytes: &[u8]) -> Result<(), FileFault> {
        self.tape = self.tape.then(Asked::Made(Making::Keep(bytes, false)));
        Err(FileFault::Unavailable)
    }

    fn draft(&mut self, name: &str) -> Result<(), FileFault> {
        self.tape = self
            .tape
            .then(Asked::Made(Making::Draft(name.as_bytes(), false)));
        Err(FileFault::Unavailable)
    }

    fn write_at(&mut self, at: usize, bytes: &[u8]) -> Result<(), CallFault> {
        self.tape = self.tape.then(Asked::Write(at, bytes, false));
        Err(CallFault)
    }

    fn sync(&mut self) -> Result<(), CallFault> {
        self.tape = self.tape.then(Asked::Sync(false));
        Err(CallFault)
    }

    fn rename(&mut self, name: &str) -> Result<(), CallFault> {
        self.tape = self
            .tape
            .then(Asked::Made(Making::Rename(name.as_bytes(), false)));
        Err(CallFault)
    }

    fn sync_folder(&mut self, name: &str) -> Result<(), CallFault> {
        self.tape = self
            .tape
            .then(Asked::Made(Making::SyncFolder(name.as_bytes(), false)));
        Err(CallFault)
    }

    fn tape(&self) -> Tape {
        self.tape.copied()
    }
}
