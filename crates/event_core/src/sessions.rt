ghost use Rattle.std.specs.Prelude.{◌≡◌, IfOk, IsSome, replicate};
ghost use Rattle.event_core.specs.Seeing.{has_seen_no_more, joined, nothing_seen, seen_by, with_seen};

use batch_ids::OutOfMemory;
use std::alloc::Global;
use std::marker::Model;

/// The part of the history that a session has seen.
#[derive(Clone, Copy, PartialEq, Eq, Debug)]
pub struct Seen {
    /// The number of operations up to the session's last reply or answer, or up to that of a
    /// session that it met.
    pub front: u64,
    /// The greatest count of operations that the session was shown, by its own glances or by a
    /// meeting.
    pub least: u64,
}

impl Seen {
    /// Returns the part that either of two sessions has seen, which both have seen after a meeting.
    pub(crate) fn joined(self, other: Seen) -> Seen
        ensures { result ≡ joined self other }
    {
        Seen {
            front: self.front.max(other.front),
            least: self.least.max(other.least),
        }
    }

    /// Checks whether the session has seen and was shown at most `n` operations.
    pub(crate) fn has_seen_no_more(self, n: u64) -> bool
        ensures { result ≡ has_seen_no_more self n }
    {
        self.front <= n && self.least <= n
    }
}

/// The part of the history that each session has seen. Contracts see the list, from session 1 on.
#[derive(Debug, Drop)]
pub(crate) struct Sessions {
    seen: Vec<Seen>,
}

impl Model for Sessions {
    ghost use Rattle.std.specs.Prelude.{List};
    ghost use Rattle.event_core.specs.declared.sessions.Seen.{Seen};

    ghost Value = { List Seen };

    ghost view = { λ s. s.seen.items };
}

impl Sessions {
    /// Returns `count` sessions that have seen nothing.
    pub(crate) fn new(alloc: Global, count: u64) -> Result<Sessions, OutOfMemory>
        ensures { IfOk result (λ made. made ≡ replicate count nothing_seen) }
    {
        let none = Seen { front: 0, least: 0 };
        let seen = vec![in alloc; none; count as usize]?;
        Ok(Sessions { seen })
    }

    /// Returns the part that the session with this number has seen, if there is such a session.
    pub(crate) fn seen_by(&self, who: u64) -> Option<Seen>
        ensures { result ≡ seen_by self.now who }
    {
        if who == 0 {
            return None;
        }
        self.seen.get((who - 1) as usize).copied()
    }

    /// Sets the part that a session has seen.
    pub(crate) fn set(&mut self, who: u64, seen: Seen)
        requires { IsSome (seen_by self.old who) }
        ensures { self.new ≡ with_seen self.old who seen }
    {
        self.seen[(who - 1) as usize] = seen;
    }
}
