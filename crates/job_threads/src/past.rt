ghost use Rattle.std.specs.Prelude.{◌≡◌};
ghost use Rattle.std.specs.Borrow.{ftrue};
ghost use Rattle.job_threads.specs.Past.{Past, past_code, nothing_past};

use std::marker::Model;

/// The past of an artifact, for its meaning: the groups that it took, and the number of its faults.
/// It exists only in proofs, so that no count overflows. It costs a program neither memory nor
/// time.
#[derive(Drop)]
pub struct Tape {
    ghost told: { Past } by { past_code },
}

impl Model for Tape {
    ghost also_owns = { λ _. ftrue };
}

/// The result of a call, as the past counts it.
#[derive(Clone, Copy, Drop)]
pub enum Happening<'a> {
    /// The writer took this group.
    Took(&'a [String]),
    /// A begin or an open faulted.
    OpenFault,
    /// Another call faulted.
    Fault,
}

/// All calls so far.
#[derive(Clone, Copy, Drop)]
enum History<'a> {
    Nothing,
    Then(&'a Tape, Happening<'a>),
}

impl Tape {
    ghost use Rattle.job_threads.specs.Noted.{noted, past_in};

    /// Returns the past of an artifact before its first call.
    pub fn new() -> Tape
        ensures { result.told ≡ nothing_past }
    {
        Tape::of(&History::Nothing)
    }

    /// Returns this past with one more call.
    pub fn then(&self, happening: Happening<'_>) -> Tape
        ensures { result.told ≡ noted self.now.told happening.entry }
    {
        Tape::of(&History::Then(self, happening))
    }

    fn of(_history: &History<'_>) -> Tape
        ensures { result.told ≡ past_in _history.now }
    {
        Tape {}
    }
}
