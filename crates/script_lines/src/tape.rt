// The past of a device. It exists only in proofs: it takes no memory and no time in a program.
ghost use Rattle.std.specs.Prelude.{◌≡◌};
ghost use Rattle.std.specs.Borrow.{ftrue};
ghost use Rattle.script_lines.specs.Tape.{Past, past_code, nothing_past};

use std::marker::Model;

#[derive(Drop)]
pub(crate) struct Tape {
    ghost past: { Past } by { past_code },
}

impl Model for Tape {
    ghost also_owns = { λ _. ftrue };
}

// One response of a device.
#[derive(Clone, Copy, Drop)]
pub(crate) enum Answer<'a> {
    // It delivered or took these bytes.
    Bytes(&'a [u8]),
    // It reported its end.
    End,
    // It failed.
    Failure,
}

// The whole past of a device.
#[derive(Clone, Copy, Drop)]
enum History<'a> {
    Nothing,
    Then(&'a Tape, Answer<'a>, usize),
}

impl Tape {
    ghost use Rattle.script_lines.specs.Noted.{noted, past_in};

    pub(crate) fn new() -> Tape
        ensures { result.past ≡ nothing_past }
    {
        Tape::of(&History::Nothing)
    }

    // Returns the tape with one more response, to a call with this much room.
    pub(crate) fn then(&self, answer: Answer<'_>, room: usize) -> Tape
        ensures { result.past ≡ noted self.now.past answer.entry room }
    {
        Tape::of(&History::Then(self, answer, room))
    }

    fn of(_history: &History<'_>) -> Tape
        ensures { result.past ≡ past_in _history.now }
    {
        Tape {}
    }
}
