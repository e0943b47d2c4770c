// A host made from the disk and a sink.
ghost use Rattle.std.specs.Prelude.{◌≡◌, ◌<◌, ◌++◌, List, ℕ, [], length, nat_lt, true, false};
ghost use Rattle.log_host.specs.Past.{seen_after, heard_after, leaves_after, left_after, is_sound, file_faults_after, listener_faults_after};
ghost use Rattle.log_host.specs.Laws.{now_left, counts, only};
ghost use Rattle.file_host.specs.Calls.{file_calls};
ghost use Rattle.file_host.specs.Causes.{are_caused};

use crate::disk::Disk;
use log_host::{Asked, Host, HostFault, Tape};
use script_lines::Sink;

/// A file that was made anew or goes on, and a sink that hears the replies. After a call of the file has
/// failed, no further call of it is made, since a sync after a failed one proves nothing. The same
/// holds for the sink.
#[derive(Drop)]
pub struct FileHost<D: Disk + Drop, S: Sink + Drop> {
    disk: D,
    listener: S,
    tape: Tape,
    made: Tape,
    broken: bool,
    silent: bool,
    ghost calls_are: { D.past disk ≡ file_calls tape.past.calls ++ made.past.calls },
    ghost heard_is: { (S.tape listener).bytes ≡ heard_after tape.past.calls },
    ghost sound_is: { broken ≡ false → is_sound tape.past.calls ≡ true },
    ghost broken_is: { broken ≡ true → nat_lt 0 (file_faults_after tape.past.calls) ≡ true },
    ghost silent_is: { silent ≡ true → nat_lt 0 (listener_faults_after tape.past.calls) ≡ true },
    ghost caused: { are_caused tape.past.calls ≡ true },
}

impl<D: Disk + Drop, S: Sink + Drop> FileHost<D, S> {
    ghost use Rattle.std.specs.Prelude.{◌≡◌, ◌++◌, List, ℕ, []};
    ghost use Rattle.log_host.specs.Past.{seen_after, heard_after, leaves_after, file_faults_after, listener_faults_after};
    ghost use Rattle.log_host.specs.Host.{Only};
    ghost use Rattle.file_host.specs.Calls.{file_calls};
    ghost use Rattle.file_host.specs.Making.{IsReady};

    /// Creates a host over a file that was made with these bytes, or goes on with them, and a sink
    /// that has taken nothing yet. All bytes of the file are on the disk: of a file that goes on, that
    /// is what the caller knows of the bytes that were read.
    pub fn new(disk: D, listener: S, bytes: &[u8]) -> FileHost<D, S>
        requires ready { (name : List ℕ) × IsReady (D.past disk) name bytes.now }
        requires fresh { (S.tape listener).bytes ≡ [] }
        ensures seen { seen_after result.tape.past.start result.tape.past.calls ≡ bytes.now }
        ensures heard { heard_after result.tape.past.calls ≡ [] }
        ensures durable { Only bytes.now [] (leaves_after result.tape.past.start result.tape.past.calls) }
        ensures sound { (file_faults_after result.tape.past.calls ≡ 0) × (listener_faults_after result.tape.past.calls ≡ 0) }
        ensures origin { result.made.past.calls ≡ D.past disk }
    {
        let made = disk.tape();
        FileHost {
            disk,
            listener,
            tape: Tape::begin(bytes),
            made,
            broken: false,
            silent: false,
        }
    }

    /// Returns the disk and the sink, as the calls left them.
    pub fn into_parts(self) -> (D, S)
        ensures disk { D.past result.0 ≡ file_calls self.tape.past.calls ++ self.made.past.calls }
        ensures listener { (S.tape result.1).bytes ≡ heard_after self.tape.past.calls }
    {
        (self.disk, self.listener)
    }
}

impl<D: Disk + Drop, S: Sink + Drop> Host for FileHost<D, S> {
    ghost seen = { λ h. seen_after h.tape.past.start h.tape.past.calls };

    ghost heard = { λ h. heard_after h.tape.past.calls };

    ghost may_leave = { λ h c o. leaves_after h.tape.past.start h.tape.past.calls c o };

    ghost moment = { λ h. length h.tape.past.calls };

    ghost left_since = { λ h t c o. left_after h.tape.past.start h.tape.past.calls t c o };

    ghost origin = { λ h. h.made.past };

    ghost file_faults = { λ h. file_faults_after h.tape.past.calls };

    ghost listener_faults = { λ h. listener_faults_after h.tape.past.calls };

    ghost leaves_now = { λ h. now_left h.tape.past.start h.tape.past.calls };

    ghost counts_now = { λ h t c o le now. counts h.tape.past.start h.tape.past.calls t c o now };

    ghost only_now = { λ h c o left. only h.tape.past.start h.tape.past.calls c o left };

    fn write_at(&mut self, at: usize, bytes: &[u8]) -> Result<(), HostFault> {
        if self.broken {
            self.tape = self.tape.then(Asked::Refused);
            return Err(HostFault);
        }
        match self.disk.write_at(at, bytes) {
            Ok(()) => {
                self.tape = self.tape.then(Asked::Write(at, bytes, true));
                Ok(())
            }
            Err(_) => {
                self.tape = self.tape.then(Asked::Write(at, bytes, false));
                self.broken = true;
                Err(HostFault)
            }
        }
    }

    fn sync(&mut self) -> Result<(), HostFault> {
        if self.broken {
            self.tape = self.tape.then(Asked::Refused);
            return Err(HostFault);
        }
        match self.disk.sync() {
            Ok(()) => {
                self.tape = self.tape.then(Asked::Sync(true));
                Ok(())
            }
            Err(_) => {
                self.tape = self.tape.then(Asked::Sync(false));
                self.broken = true;
                Err(HostFault)
            }
        }
    }

    fn tell(&mut self, piece: &[u8]) -> Result<usize, HostFault> {
        if self.silent {
            self.tape = self.tape.then(Asked::Silent);
            return Err(HostFault);
        }
        match self.listener.write(piece) {
            Ok(n) if n > 0 || piece.is_empty() => {
                self.tape = self.tape.then(Asked::Tell(piece, n, true));
                Ok(n)
            }
            _ => {
                self.tape = self.tape.then(Asked::Tell(piece, 0, false));
                self.silent = true;
                Err(HostFault)
            }
        }
    }
}
