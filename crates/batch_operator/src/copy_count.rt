ghost use Rattle.std.specs.Prelude.{◌≡◌, ◌<◌, ◌≤◌, ◌⊎◌, IfSome, IfNone};

/// The number of read copies of each kind that an operator has: 1 to 8.
#[derive(Clone, Copy, PartialEq, Eq, Debug)]
pub struct CopyCount {
    count: u64,
    ghost some: { 0 < count },
    ghost few: { count ≤ 8 },
}

impl CopyCount {
    /// Returns this count, or `None` if it isn't between 1 and 8.
    pub fn new(count: u64) -> Option<CopyCount>
        ensures some { IfSome result (λ made. made.count ≡ count) }
        ensures none { IfNone result ((count ≡ 0) ⊎ (8 < count)) }
    {
        if count == 0 || count > 8 {
            return None;
        }
        Some(CopyCount { count })
    }

    /// Returns the number, from 1 to 8.
    pub fn value(self) -> u64
        ensures count { result ≡ self.count }
        ensures some { 0 < result }
        ensures few { result ≤ 8 }
    {
        self.count
    }
}
