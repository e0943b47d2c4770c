//! A log whose file keeps nothing of what is written, and whose listener has room for all.
ghost use Rattle.std.specs.Prelude.{◌≡◌, []};

use anyhow::{Result, bail};
use call_lines::{Line, tell};
use durable_log::{Log, Record, new_log};
use file_host::{CallFault, Disk, FileFault, FileHost, make_anew};
use log_host::{Asked, Making, Tape};
use script_lines::Counted;
use std::alloc::Global;

/// The capacity of the listener, so that it makes no requests of its own.
const ROOM: usize = 65_536;

/// A disk that does as if it read, wrote and renamed.
#[derive(Drop)]
struct Still {
    tape: Tape,
}

impl Still {
    fn new() -> Still
        ensures { result.tape.past.calls ≡ [] }
    {
        Still {
            tape: Tape::begin(&[]),
        }
    }
}

impl Disk for Still {
    ghost past = { λ d. d.tape.past.calls };

    fn take(&mut self, name: &str) -> std::result::Result<(), FileFault> {
        self.tape = self
            .tape
            .then(Asked::Made(Making::Take(name.as_bytes(), true)));
        Ok(())
    }

    fn read(&mut self, alloc: Global) -> std::result::Result<Vec<u8>, FileFault> {
        self.tape = self.tape.then(Asked::Made(Making::Read(&[])));
        Ok(Vec::new(alloc))
    }

    fn keep(&mut self, _name: &str, bytes: &[u8]) -> std::result::Result<(), FileFault> {
        self.tape = self.tape.then(Asked::Made(Making::Keep(bytes, true)));
        Ok(())
    }

    fn draft(&mut self, name: &str) -> std::result::Result<(), FileFault> {
        self.tape = self
            .tape
            .then(Asked::Made(Making::Draft(name.as_bytes(), true)));
        Ok(())
    }

    fn write_at(&mut self, at: usize, bytes: &[u8]) -> std::result::Result<(), CallFault> {
        self.tape = self.tape.then(Asked::Write(at, bytes, true));
        Ok(())
    }

    fn sync(&mut self) -> std::result::Result<(), CallFault> {
        self.tape = self.tape.then(Asked::Sync(true));
        Ok(())
    }

    fn rename(&mut self, name: &str) -> std::result::Result<(), CallFault> {
        self.tape = self
            .tape
            .then(Asked::Made(Making::Rename(name.as_bytes(), true)));
        Ok(())
    }

    fn sync_folder(&mut self, name: &str) -> std::result::Result<(), CallFault> {
        self.tape = self
            .tape
            .then(Asked::Made(Making::SyncFolder(name.as_bytes(), true)));
        Ok(())
    }

    fn tape(&self) -> Tape {
        self.tape.copied()
    }
}

/// Makes a log of one record, and tells its listener what follows the line's first word.
pub fn run_log<R: Print + AllocGlobal>(rt: &R, line: Line<'_>) -> Result<()> {
    let alloc = rt.alloc();
    let record = Record {
        mark: b'c',
        line: b"the first record",
        reply_check: 0,
    };
    let file = new_log(alloc, record)?;
    let mut disk = Still::new();
    if make_anew(&mut disk, "log", &[], &file.bytes).is_err() {
        bail!("the file is not made");
    }
    let heard = Counted::new(Vec::<u8>::with_capacity(alloc, ROOM)?);
    let host = FileHost::new(disk, heard, &file.bytes);
    let mut log = Log::new(alloc, host, file.rest);
    let piece = line.parted().1.as_bytes();
    line.mark(alloc);
    let told = log.tell(piece);
    line.mark(alloc);
    drop(log);
    tell(rt, told)
}
