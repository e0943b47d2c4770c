// The disk of the system, over the calls of std.
ghost use Rattle.std.specs.Prelude.{◌≡◌, [], ◌∷◌, IfSome, OnOk, true};
ghost use Rattle.std.specs.Option.{is_some};
ghost use Rattle.file_host.specs.Calls.{sync_call, write_call};
ghost use Rattle.file_host.specs.Steps.{IsLocked, calls_of, is_drafted, is_kept, is_taken, is_written, was_drafted, was_taken};
ghost use Rattle.file_host.specs.declared.steps.Part.TheVariants.{Log, Draft, Folder};

use crate::disk::{CallFault, Disk};
use crate::file_fault::FileFault;
use crate::names::Names;
use crate::steps::Part;
use crate::system_files::{OWNER_ALONE, Opened, SystemFiles};
use log_host::{Asked, Making, Tape};
use std::alloc::{AllocError, Global};
use std::fs::{File, Files, Permissions, TryLockError};
use std::io::ErrorKind;
use std::os::unix::fs::PermissionsExt;

// The log that was taken.
#[derive(Drop)]
struct TakenLog {
    opened: Opened,
    ghost is_log: { opened.part ≡ Log },
}

// The draft that was made.
#[derive(Drop)]
struct MadeDraft {
    opened: Opened,
    ghost is_draft: { opened.part ≡ Draft },
}

/// The disk of the system, for one file of a name.
#[derive(Drop)]
pub struct SystemDisk<'r, R: Files<File = File>> {
    files: SystemFiles<'r, R>,
    alloc: Global,
    names: Option<Names>,
    taken: Option<TakenLog>,
    draft: Option<MadeDraft>,
    tape: Tape,
    ghost borne_out: { tape.past.calls ≡ calls_of files.steps.past },
    ghost is_taken: { is_some taken ≡ true → was_taken tape.past.calls ≡ true },
    ghost is_drafted: { was_drafted tape.past.calls ≡ is_some draft },
}

// Takes the lock on a part, for which its name has to stand still.
fn lock<R: Files<File = File>>(
    files: &mut SystemFiles<'_, R>,
    names: &Names,
    opened: &Opened,
) -> Result<(), FileFault>
    ensures quiet { calls_of files.new.steps.past ≡ calls_of files.old.steps.past }
    ensures locked { OnOk result (IsLocked opened.now.part files.old.steps.past files.new.steps.past) }
{
    match files.try_lock(opened) {
        Ok(()) => {}
        Err(TryLockError::WouldBlock) => return Err(FileFault::InUse),
        Err(TryLockError::Error(_)) => return Err(FileFault::Unavailable),
    }
    let (Ok(own), Ok(named)) = (files.id(opened), files.named_id(names, opened.part)) else {
        return Err(FileFault::InUse);
    };
    // A pipe or a device is no file.
    if !own.is_file {
        return Err(FileFault::Unavailable);
    }
    // Another program may have given the name to a file that it made anew.
    if own == named {
        Ok(())
    } else {
        Err(FileFault::InUse)
    }
}

// Opens the log of a name, and takes its lock.
fn open_locked<R: Files<File = File>>(
    files: &mut SystemFiles<'_, R>,
    alloc: Global,
    name: &str,
) -> Result<(Names, TakenLog), FileFault>
    ensures quiet { calls_of files.new.steps.past ≡ calls_of files.old.steps.past }
    ensures taken { OnOk result (is_taken files.new.steps.past ≡ true) }
{
    let place = match files.canonicalize(alloc, name) {
        Ok(place) => place.into_string(),
        Err(error) if error.kind() == ErrorKind::NotFound => return Err(FileFault::Missing),
        Err(error) if error.kind() == ErrorKind::OutOfMemory => return Err(FileFault::OutOfMemory),
        Err(_) => return Err(FileFault::Unavailable),
    };
    let names = Names::new(alloc, place)?;
    let Ok(opened) = files.open(&names, Part::Log) else {
        return Err(FileFault::Unavailable);
    };
    lock(files, &names, &opened)?;
    Ok((names, TakenLog { opened }))
}

// Gives the draft the owner of the log that was taken, as far as the system lets it, and returns
// its permissions.
fn permissions_of<R: Files<File = File>>(
    files: &SystemFiles<'_, R>,
    names: &Names,
    taken: &TakenLog,
) -> Result<Permissions, FileFault> {
    let Ok(found) = files.metadata(&taken.opened) else {
        return Err(FileFault::Unavailable);
    };
    let _ = files.set_owner(names, Part::Draft, &found);
    Ok(found.permissions())
}

// Makes the draft of a log, empty, with the permissions of the log that was taken.
fn make_draft<R: Files<File = File>>(
    files: &mut SystemFiles<'_, R>,
    names: &Names,
    name: &str,
    taken: Option<&TakenLog>,
) -> Result<MadeDraft, FileFault>
    ensures quiet { calls_of files.new.steps.past ≡ calls_of files.old.steps.past }
    ensures drafted { OnOk result (is_drafted files.new.steps.past ≡ true) }
{
    let Ok(opened) = files.make(names, Part::Draft) else {
        return Err(FileFault::Unavailable);
    };
    lock(files, names, &opened)?;
    let permissions = match taken {
        Some(taken) => permissions_of(files, names, taken)?,
        // The program that makes the log has the lock of the draft. So a log that is there now was
        // made before.
        None if files.is_there(name) => return Err(FileFault::InUse),
        None => Permissions::from_mode(OWNER_ALONE),
    };
    if files.set_permissions(&opened, permissions).is_err() {
        return Err(FileFault::Unavailable);
    }
    match files.empty(&opened) {
        Ok(()) => Ok(MadeDraft { opened }),
        Err(_) => Err(FileFault::Unavailable),
    }
}

// Returns whether a place of a part is not behind its end.
fn reaches<R: Files<File = File>>(files: &SystemFiles<'_, R>, opened: &Opened, at: usize) -> bool {
    match files.metadata(opened) {
        Ok(found) => found.len() >= at as u64,
        Err(_) => false,
    }
}

// Writes bytes beside the log, in place of those that were there.
fn keep_beside<R: Files<File = File>>(
    files: &mut SystemFiles<'_, R>,
    names: &Names,
    bytes: &[u8],
) -> Result<(), FileFault>
    ensures quiet { calls_of files.new.steps.past ≡ calls_of files.old.steps.past }
    ensures kept { OnOk result (is_kept bytes.now files.new.steps.past ≡ true) }
{
    let Ok(cut) = files.make(names, Part::Cut) else {
        return Err(FileFault::Unavailable);
    };
    let permissions = Permissions::from_mode(OWNER_ALONE);
    if files.set_permissions(&cut, permissions).is_err() || files.empty(&cut).is_err() {
        return Err(FileFault::Unavailable);
    }
    if files.write(&cut, 0, bytes).is_err() {
        return Err(FileFault::Unavailable);
    }
    match files.sync_all(&cut) {
        Ok(()) => Ok(()),
        Err(_) => Err(FileFault::Unavailable),
    }
}

// Writes bytes at a place of a part, unless that is behind its end.
fn write_within<R: Files<File = File>>(
    files: &mut SystemFiles<'_, R>,
    opened: &Opened,
    at: usize,
    bytes: &[u8],
) -> Result<(), CallFault>
    requires written { is_written opened.now.part (calls_of files.old.steps.past) ≡ true }
    ensures { calls_of files.new.steps.past ≡ write_call at bytes.now result ∷ calls_of files.old.steps.past }
{
    if !reaches(files, opened, at) {
        return write_nothing(files, at, bytes);
    }
    match files.write(opened, at, bytes) {
        Ok(()) => Ok(()),
        Err(_) => Err(CallFault),
    }
}

// Notes a write that is not made.
fn write_nothing<R: Files<File = File>>(
    files: &mut SystemFiles<'_, R>,
    at: usize,
    bytes: &[u8],
) -> Result<(), CallFault>
    ensures noted { calls_of files.new.steps.past ≡ write_call at bytes.now result ∷ calls_of files.old.steps.past }
{
    files.end(Asked::Write(at, bytes, false));
    Err(CallFault)
}

// Waits until a part is on the disk.
fn sync_part<R: Files<File = File>>(
    files: &mut SystemFiles<'_, R>,
    opened: &Opened,
) -> Result<(), CallFault>
    requires written { is_written opened.now.part (calls_of files.old.steps.past) ≡ true }
    ensures { calls_of files.new.steps.past ≡ sync_call result ∷ calls_of files.old.steps.past }
{
    match files.sync_data(opened) {
        Ok(()) => Ok(()),
        Err(_) => Err(CallFault),
    }
}

// Notes a sync that is not made.
fn sync_nothing<R: Files<File = File>>(files: &mut SystemFiles<'_, R>) -> Result<(), CallFault>
    ensures noted { calls_of files.new.steps.past ≡ sync_call result ∷ calls_of files.old.steps.past }
{
    files.end(Asked::Sync(false));
    Err(CallFault)
}

// Returns the names that are known, or makes those that belong to a name.
fn names_of(names: Option<Names>, alloc: Global, name: &str) -> Result<Names, AllocError> {
    match names {
        Some(names) => Ok(names),
        None => Names::new(alloc, format!(in alloc; "{name}")?),
    }
}

// Opens the folder.
fn open_folder<R: Files<File = File>>(
    files: &SystemFiles<'_, R>,
    names: Option<&Names>,
) -> Option<Opened>
    ensures { IfSome result (λ opened. opened.part ≡ Folder) }
{
    files.open_folder(names?).ok()
}

impl<'r, R: Files<File = File>> SystemDisk<'r, R> {
    ghost use Rattle.std.specs.Prelude.{◌≡◌, [], ◌∷◌};
    ghost use Rattle.file_host.specs.Calls.{flag_of};
    ghost use Rattle.log_host.specs.Noted.{call_of};

    /// Creates a disk that has made no call.
    pub fn new(files: &'r R, alloc: Global) -> SystemDisk<'r, R>
        ensures { result.tape.past.calls ≡ [] }
    {
        SystemDisk {
            files: SystemFiles::new(files),
            alloc,
            names: None,
            taken: None,
            draft: None,
            tape: Tape::begin(&[]),
        }
    }

    // Notes a call that failed before its step.
    fn give_up(&mut self, call: Asked<'_>) -> Result<(), CallFault>
        requires failed { (call_of call).1.1.1 ≡ 0 }
        ensures noted { self.new.tape.past.calls ≡ call_of call.entry ∷ self.old.tape.past.calls }
        ensures failed { flag_of result ≡ 0 }
    {
        self.files.end(call);
        self.tape = self.tape.then(call);
        Err(CallFault)
    }
}

impl<R: Files<File = File>> Disk for SystemDisk<'_, R> {
    ghost past = { λ d. d.tape.past.calls };

    fn take(&mut self, name: &str) -> Result<(), FileFault> {
        let taken = open_locked(&mut self.files, self.alloc, name);
        let call = Asked::Made(Making::Take(name.as_bytes(), taken.is_ok()));
        self.files.end(call);
        self.tape = self.tape.then(call);
        let (names, taken) = taken?;
        self.names = Some(names);
        self.taken = Some(taken);
        Ok(())
    }

    fn read(&mut self, alloc: Global) -> Result<Vec<u8>, FileFault> {
        let Some(taken) = &self.taken else {
            return Err(FileFault::Unavailable);
        };
        match self.files.read(&taken.opened, alloc) {
            Ok(bytes) => {
                self.tape = self.tape.then(Asked::Made(Making::Read(&bytes)));
                Ok(bytes)
            }
            Err(error) if error.kind() == ErrorKind::OutOfMemory => Err(FileFault::OutOfMemory),
            Err(_) => Err(FileFault::Unavailable),
        }
    }

    fn keep(&mut self, name: &str, bytes: &[u8]) -> Result<(), FileFault> {
        let done = match names_of(self.names.take(), self.alloc, name) {
            Ok(names) => {
                let done = keep_beside(&mut self.files, &names, bytes);
                self.names = Some(names);
                done
            }
            Err(error) => Err(FileFault::from(error)),
        };
        let call = Asked::Made(Making::Keep(bytes, done.is_ok()));
        self.files.end(call);
        self.tape = self.tape.then(call);
        done
    }

    fn draft(&mut self, name: &str) -> Result<(), FileFault> {
        let made = match names_of(self.names.take(), self.alloc, name) {
            Ok(names) => {
                let made = make_draft(&mut self.files, &names, name, self.taken.as_ref());
                self.names = Some(names);
                made
            }
            Err(error) => Err(FileFault::from(error)),
        };
        let call = Asked::Made(Making::Draft(name.as_bytes(), made.is_ok()));
        self.files.end(call);
        self.tape = self.tape.then(call);
        self.draft = Some(made?);
        Ok(())
    }

    fn write_at(&mut self, at: usize, bytes: &[u8]) -> Result<(), CallFault> {
        let done = match (&self.draft, &self.taken) {
            (Some(draft), _) => write_within(&mut self.files, &draft.opened, at, bytes),
            (None, Some(taken)) => write_within(&mut self.files, &taken.opened, at, bytes),
            (None, None) => write_nothing(&mut self.files, at, bytes),
        };
        self.tape = self.tape.then(Asked::Write(at, bytes, done.is_ok()));
        done
    }

    fn sync(&mut self) -> Result<(), CallFault> {
        let done = match (&self.draft, &self.taken) {
            (Some(draft), _) => sync_part(&mut self.files, &draft.opened),
            (None, Some(taken)) => sync_part(&mut self.files, &taken.opened),
            (None, None) => sync_nothing(&mut self.files),
        };
        self.tape = self.tape.then(Asked::Sync(done.is_ok()));
        done
    }

    fn rename(&mut self, name: &str) -> Result<(), CallFault> {
        match (&self.draft, &self.names) {
            (Some(_), Some(names)) => {
                let done = self.files.rename(names, name);
                let call = Making::Rename(name.as_bytes(), done.is_ok());
                self.tape = self.tape.then(Asked::Made(call));
                done.map_err(|_| CallFault)
            }
            _ => self.give_up(Asked::Made(Making::Rename(name.as_bytes(), false))),
        }
    }

    fn sync_folder(&mut self, name: &str) -> Result<(), CallFault> {
        match open_folder(&self.files, self.names.as_ref()) {
            Some(folder) => {
                let done = self.files.sync_folder(&folder, name);
                let call = Making::SyncFolder(name.as_bytes(), done.is_ok());
                self.tape = self.tape.then(Asked::Made(call));
                done.map_err(|_| CallFault)
            }
            None => self.give_up(Asked::Made(Making::SyncFolder(name.as_bytes(), false))),
        }
    }

    fn tape(&self) -> Tape {
        self.tape.copied()
    }
}
