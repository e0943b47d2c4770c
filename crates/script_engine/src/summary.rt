ghost use Rattle.std.specs.Prelude.{◌≡◌};
ghost use Rattle.script_engine.specs.Summaries.{counted};

/// The counts of a script's lines and operations.
#[derive(Clone, Copy, Debug, Default, PartialEq, Eq)]
pub struct Summary {
    /// The number of lines after the catalogue that had a reply, at most 2^64 - 1.
    pub lines: u64,
    /// The number of operations in the history.
    pub entries: u64,
    /// The number of calls and queries that were refused, with those that had a text above its
    /// bound, at most 2^64 - 1.
    pub refusals: u64,
    /// The number of lines that were no command, at most 2^64 - 1.
    pub bad: u64,
}

/// The kind of a line, by its reply.
#[derive(Clone, Copy, Debug, PartialEq, Eq)]
pub enum Kind {
    /// The line is empty, and has no reply.
    Empty,
    /// The line is a call that was accepted, or a query that has an answer.
    Accepted,
    /// The line is a call or a query that was refused.
    Refused,
    /// The line is no command.
    Bad,
}

impl Summary {
    /// Counts a line.
    pub(crate) fn count(&mut self, kind: Kind)
        ensures { self.new ≡ counted kind self.old }
    {
        match kind {
            Kind::Empty => return,
            Kind::Accepted => {}
            Kind::Refused => self.refusals = self.refusals.saturating_add(1),
            Kind::Bad => self.bad = self.bad.saturating_add(1),
        }
        self.lines = self.lines.saturating_add(1);
    }
}
