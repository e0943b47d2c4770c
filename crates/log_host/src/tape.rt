// The past calls of a host.
ghost use Rattle.std.specs.Prelude.{◌≡◌, [], ◌∷◌};
ghost use Rattle.std.specs.Borrow.{ftrue};
ghost use Rattle.log_host.specs.Past.{Past, past_code};

use std::marker::Model;

/// The past calls of a host, for hosts that have no contract of their own. It exists only in
/// proofs: it takes no memory and no time in a program.
#[derive(Drop)]
pub struct Tape {
    pub ghost past: { Past } by { past_code },
}

impl Model for Tape {
    ghost also_owns = { λ _. ftrue };
}

/// A call of a disk by which a file is opened or made, and whether it succeeded.
#[derive(Clone, Copy, Drop)]
pub enum Making<'a> {
    /// The file of this name was opened and locked.
    Take(&'a [u8], bool),
    /// All bytes of the file were read.
    Read(&'a [u8]),
    /// Bytes were kept beside the file.
    Keep(&'a [u8], bool),
    /// An empty draft of the file of this name was made and locked.
    Draft(&'a [u8], bool),
    /// The draft was given the name of the file.
    Rename(&'a [u8], bool),
    /// The names in the folder of the file of this name were synced.
    SyncFolder(&'a [u8], bool),
}

/// A call of a host or of its disk, and whether it succeeded.
#[derive(Clone, Copy, Drop)]
pub enum Asked<'a> {
    /// A write at a place.
    Write(usize, &'a [u8], bool),
    /// A sync.
    Sync(bool),
    /// A piece for the listener, and how many bytes of it were sent.
    Tell(&'a [u8], usize, bool),
    /// A call of the file that was not made, since an earlier one failed.
    Refused,
    /// A piece that was not sent, since the listener failed before.
    Silent,
    /// A call by which the file was opened or made.
    Made(Making<'a>),
}

// All past calls.
#[derive(Clone, Copy, Drop)]
enum History<'a> {
    Begun(&'a [u8]),
    Same(&'a Tape),
    Then(&'a Tape, Asked<'a>),
}

impl Tape {
    ghost use Rattle.log_host.specs.Noted.{call_of, past_in};

    /// Creates the tape of a file with these bytes, without calls.
    pub fn begin(start: &[u8]) -> Tape
        ensures { result.past ≡ record { start = start.now; calls = [] } }
    {
        Tape::of(&History::Begun(start))
    }

    /// Returns the same tape.
    pub fn copied(&self) -> Tape
        ensures { result.past ≡ self.now.past }
    {
        Tape::of(&History::Same(self))
    }

    /// Returns the tape with one more call.
    pub fn then(&self, asked: Asked<'_>) -> Tape
        ensures { result.past ≡ record { start = self.now.past.start; calls = call_of asked.entry ∷ self.now.past.calls } }
    {
        Tape::of(&History::Then(self, asked))
    }

    fn of(_history: &History<'_>) -> Tape
        ensures { result.past ≡ past_in _history.now }
    {
        Tape {}
    }
}
