// The steps of a disk: the calls of std, and what they answered.
ghost use Rattle.std.specs.Prelude.{◌≡◌, List, [], ◌∷◌};
ghost use Rattle.std.specs.Borrow.{ftrue};
ghost use Rattle.std.specs.Coded.{coded_list};
ghost use Rattle.file_host.specs.Steps.{Step};
ghost use Rattle.file_host.specs.Stored.{step_code};

use log_host::Asked;
use std::marker::Model;

/// A file beside others of a log, or their folder.
#[derive(Clone, Copy, Drop)]
pub(crate) enum Part {
    /// The log.
    Log,
    /// The draft of the log.
    Draft,
    /// The bytes that were cut off from the log.
    Cut,
    /// The folder of these.
    Folder,
}

/// A call of std that succeeds or fails, and answers nothing else.
#[derive(Clone, Copy, Drop)]
pub(crate) enum Deed {
    /// The part was opened.
    Open,
    /// It was opened, and made if it wasn't there.
    Make,
    /// Its lock was taken.
    Lock,
    /// It was cut to no bytes.
    Empty,
    /// It was synced.
    Sync,
}

/// A step of a disk.
#[derive(Clone, Copy, Drop)]
pub(crate) enum Answered<'a> {
    /// A call of std, and whether it succeeded.
    Did(Deed, Part, bool),
    /// The device and the inode of an open part, and whether it is a regular file.
    Is(Part, u64, u64, bool),
    /// The same of the file for which the name of a part stands.
    Stands(Part, u64, u64, bool),
    /// A write at a place of a part, and whether it succeeded.
    Wrote(Part, usize, &'a [u8], bool),
    /// A call of std that answers a call of the disk.
    Made(Asked<'a>),
    /// A call of the disk came to its end. Whether it succeeded is told by the steps before.
    Ended(Asked<'a>),
}

/// The steps so far. It exists only in proofs: it takes no memory and no time in a program.
#[derive(Drop)]
pub(crate) struct Steps {
    pub(crate) ghost past: { List Step } by { coded_list step_code },
}

impl Model for Steps {
    ghost also_owns = { λ _. ftrue };
}

// All steps.
#[derive(Clone, Copy, Drop)]
enum History<'a> {
    None,
    Then(&'a Steps, Answered<'a>),
}

impl Steps {
    ghost use Rattle.file_host.specs.Answers.{step_of, steps_in};

    /// Creates the steps of a disk that has made none.
    pub(crate) fn none() -> Steps
        ensures { result.past ≡ [] }
    {
        Steps::of(&History::None)
    }

    /// Returns the steps with one more.
    pub(crate) fn then(&self, answered: Answered<'_>) -> Steps
        ensures { result.past ≡ step_of answered.entry ∷ self.now.past }
    {
        Steps::of(&History::Then(self, answered))
    }

    fn of(_history: &History<'_>) -> Steps
        ensures { result.past ≡ steps_in _history.now }
    {
        Steps {}
    }
}
