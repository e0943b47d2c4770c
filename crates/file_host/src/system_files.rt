// The calls of std that a disk makes, each with its note. No contract describes what std's calls do.
// So the bodies of these functions are trusted: that each makes the call of its note.
ghost use Rattle.std.specs.Prelude.{◌≡◌, [], ◌∷◌, IfOk, IfErr};

use crate::names::Names;
use crate::steps::{Answered, Deed, Part, Steps};
use log_host::{Asked, Making};
use std::alloc::Global;
use std::fs::{File, Files, Metadata, OpenOptions, Permissions, TryLockError};
use std::io::{Read, Seek, SeekFrom, Write};
use std::os::unix::fs::{MetadataExt, OpenOptionsExt, chown};
use std::path::PathBuf;
use std::{fs, io};

// A new file is readable by its owner alone: parameters may be secrets.
pub(crate) const OWNER_ALONE: u32 = 0o600;

/// An open part of a log's files.
#[derive(Drop)]
pub(crate) struct Opened {
    file: File,
    pub(crate) part: Part,
}

/// Which file of the system it is: its device and inode, and whether it is a regular file.
#[derive(Clone, Copy, PartialEq, Eq)]
pub(crate) struct FileId {
    pub(crate) device: u64,
    pub(crate) inode: u64,
    pub(crate) is_file: bool,
}

impl FileId {
    fn of(found: &Metadata) -> FileId {
        FileId {
            device: found.dev(),
            inode: found.ino(),
            is_file: found.is_file(),
        }
    }
}

/// The files of the system, and the steps that were taken on them.
#[derive(Drop)]
pub(crate) struct SystemFiles<'r, R: Files<File = File>> {
    files: &'r R,
    pub(crate) steps: Steps,
}

impl<'r, R: Files<File = File>> SystemFiles<'r, R> {
    ghost use Rattle.std.specs.Prelude.{◌≡◌, [], ◌∷◌, IfOk, IfErr};
    ghost use Rattle.std.specs.Result.{is_ok};
    ghost use Rattle.file_host.specs.Steps.{Did, Is, Stands, Wrote, Made, Ended};
    ghost use Rattle.file_host.specs.Answers.{step_of};
    ghost use Rattle.file_host.specs.Calls.{folder_call, read_call, rename_call};
    ghost use Rattle.file_host.specs.declared.steps.Deed.TheVariants.{Open, Make, Lock, Empty, Sync};
    ghost use Rattle.file_host.specs.declared.steps.Part.TheVariants.{Folder, Log};
    ghost use Rattle.log_host.specs.Noted.{call_of};

    /// Makes no call.
    pub(crate) fn new(files: &'r R) -> SystemFiles<'r, R>
        ensures { result.steps.past ≡ [] }
    {
        let steps = Steps::none();
        SystemFiles { files, steps }
    }

    // Notes a step.
    fn note(&mut self, answered: Answered<'_>)
        ensures { self.new.steps.past ≡ step_of answered.entry ∷ self.old.steps.past }
    {
        self.steps = self.steps.then(answered);
    }

    /// Returns the name of a file without links.
    pub(crate) fn canonicalize(&self, alloc: Global, name: &str) -> io::Result<PathBuf> {
        self.files.canonicalize(alloc, name)
    }

    /// Returns whether the name stands for anything, also for a link to nothing.
    pub(crate) fn is_there(&self, name: &str) -> bool {
        self.files.symlink_metadata(name).is_ok()
    }

    /// Opens a part for reading and writing.
    pub(crate) fn open(&mut self, names: &Names, part: Part) -> io::Result<Opened>
        ensures step { self.new.steps.past ≡ Did Open part (is_ok result) ∷ self.old.steps.past }
        ensures part { IfOk result (λ opened. opened.part ≡ part) }
    {
        let mut how = OpenOptions::new();
        let opened = how.read(true).write(true).open(self.files, names.of(part));
        self.note(Answered::Did(Deed::Open, part, opened.is_ok()));
        let file = opened?;
        Ok(Opened { file, part })
    }

    /// Opens a part for reading and writing, and makes it if it isn't there.
    pub(crate) fn make(&mut self, names: &Names, part: Part) -> io::Result<Opened>
        ensures step { self.new.steps.past ≡ Did Make part (is_ok result) ∷ self.old.steps.past }
        ensures part { IfOk result (λ opened. opened.part ≡ part) }
    {
        let mut how = OpenOptions::new();
        how.read(true).write(true).create(true).mode(OWNER_ALONE);
        let opened = how.open(self.files, names.of(part));
        self.note(Answered::Did(Deed::Make, part, opened.is_ok()));
        let file = opened?;
        Ok(Opened { file, part })
    }

    /// Opens the folder.
    pub(crate) fn open_folder(&self, names: &Names) -> io::Result<Opened>
        ensures { IfOk result (λ opened. opened.part ≡ Folder) }
    {
        let part = Part::Folder;
        let file = File::open(self.files, names.of(part))?;
        Ok(Opened { file, part })
    }

    /// Tries to take the lock of a part. The lock lasts as long as the part is open.
    pub(crate) fn try_lock(&mut self, opened: &Opened) -> Result<(), TryLockError>
        ensures { self.new.steps.past ≡ Did Lock opened.now.part (is_ok result) ∷ self.old.steps.past }
    {
        let done = opened.file.try_lock();
        self.note(Answered::Did(Deed::Lock, opened.part, done.is_ok()));
        done
    }

    /// Returns which file an open part is.
    pub(crate) fn id(&mut self, opened: &Opened) -> io::Result<FileId>
        ensures found { IfOk result (λ id. self.new.steps.past ≡ Is opened.now.part (id.device, (id.inode, id.is_file)) ∷ self.old.steps.past) }
        ensures unfound { IfErr result (λ _. self.new.steps.past ≡ self.old.steps.past) }
    {
        let id = FileId::of(&opened.file.metadata()?);
        self.note(Answered::Is(opened.part, id.device, id.inode, id.is_file));
        Ok(id)
    }

    /// Returns for which file the name of a part stands.
    pub(crate) fn named_id(&mut self, names: &Names, part: Part) -> io::Result<FileId>
        ensures found { IfOk result (λ id. self.new.steps.past ≡ Stands part (id.device, (id.inode, id.is_file)) ∷ self.old.steps.past) }
        ensures unfound { IfErr result (λ _. self.new.steps.past ≡ self.old.steps.past) }
    {
        let id = FileId::of(&self.files.metadata(names.of(part))?);
        self.note(Answered::Stands(part, id.device, id.inode, id.is_file));
        Ok(id)
    }

    /// Returns what else is known of an open part.
    pub(crate) fn metadata(&self, opened: &Opened) -> io::Result<Metadata> {
        opened.file.metadata()
    }

    /// Gives a part the owner of a file.
    pub(crate) fn set_owner(&self, names: &Names, part: Part, of: &Metadata) -> io::Result<()> {
        chown(self.files, names.of(part), Some(of.uid()), Some(of.gid()))
    }

    /// Gives a part these permissions.
    pub(crate) fn set_permissions(&self, opened: &Opened, to: Permissions) -> io::Result<()> {
        opened.file.set_permissions(to)
    }

    /// Cuts a part to no bytes.
    pub(crate) fn empty(&mut self, opened: &Opened) -> io::Result<()>
        ensures { self.new.steps.past ≡ Did Empty opened.now.part (is_ok result) ∷ self.old.steps.past }
    {
        let done = opened.file.set_len(0);
        self.note(Answered::Did(Deed::Empty, opened.part, done.is_ok()));
        done
    }

    /// Reads all bytes of the log.
    pub(crate) fn read(&mut self, log: &Opened, alloc: Global) -> io::Result<Vec<u8>>
        requires { log.now.part ≡ Log }
        ensures read { IfOk result (λ bytes. self.new.steps.past ≡ Made (read_call bytes.items) ∷ self.old.steps.past) }
        ensures unread { IfErr result (λ _. self.new.steps.past ≡ self.old.steps.past) }
    {
        let mut bytes = Vec::new(alloc);
        (&log.file).read_to_end(&mut bytes)?;
        self.note(Answered::Made(Asked::Made(Making::Read(&bytes))));
        Ok(bytes)
    }

    /// Writes all of the bytes at a place of a part.
    pub(crate) fn write(&mut self, opened: &Opened, at: usize, bytes: &[u8]) -> io::Result<()>
        ensures { self.new.steps.past ≡ Wrote opened.now.part at bytes.now (is_ok result) ∷ self.old.steps.past }
    {
        let mut file = &opened.file;
        let sought = file.seek(SeekFrom::Start(at as u64));
        let done = sought.and_then(|_| file.write_all(bytes));
        self.note(Answered::Wrote(opened.part, at, bytes, done.is_ok()));
        done
    }

    /// Waits until the bytes of a part are on the disk.
    pub(crate) fn sync_data(&mut self, opened: &Opened) -> io::Result<()>
        ensures { self.new.steps.past ≡ Did Sync opened.now.part (is_ok result) ∷ self.old.steps.past }
    {
        let done = opened.file.sync_data();
        self.note(Answered::Did(Deed::Sync, opened.part, done.is_ok()));
        done
    }

    /// Waits until a part is on the disk, also what is known of it.
    pub(crate) fn sync_all(&mut self, opened: &Opened) -> io::Result<()>
        ensures { self.new.steps.past ≡ Did Sync opened.now.part (is_ok result) ∷ self.old.steps.past }
    {
        let done = opened.file.sync_all();
        self.note(Answered::Did(Deed::Sync, opened.part, done.is_ok()));
        done
    }

    /// Waits until the names in the folder are on the disk. The disk was given this name.
    pub(crate) fn sync_folder(&mut self, folder: &Opened, name: &str) -> io::Result<()>
        requires { folder.now.part ≡ Folder }
        ensures { self.new.steps.past ≡ Made (folder_call name.now result) ∷ self.old.steps.past }
    {
        let done = folder.file.sync_all();
        let call = Making::SyncFolder(name.as_bytes(), done.is_ok());
        self.note(Answered::Made(Asked::Made(call)));
        done
    }

    /// Gives the draft the name of the log. The disk was given this name.
    pub(crate) fn rename(&mut self, names: &Names, name: &str) -> io::Result<()>
        ensures { self.new.steps.past ≡ Made (rename_call name.now result) ∷ self.old.steps.past }
    {
        let done = fs::rename(self.files, names.of(Part::Draft), names.of(Part::Log));
        let call = Making::Rename(name.as_bytes(), done.is_ok());
        self.note(Answered::Made(Asked::Made(call)));
        done
    }

    /// Ends a call of the disk. The steps before it tell whether it succeeded.
    pub(crate) fn end(&mut self, call: Asked<'_>)
        ensures { self.new.steps.past ≡ Ended (call_of call.entry) ∷ self.old.steps.past }
    {
        self.note(Answered::Ended(call));
    }
}
