ghost use Rattle.std.specs.Prelude.{◌≡◌, ◌<◌, ◌+◌, ◌∷◌, ◌++◌, List, ℕ, [], false, length, take, drop, IfOk, MatchOption};
ghost use Rattle.script_lines.specs.Cut.{has_feed};

use std::alloc::AllocError;

/// The most bytes that a line may have, without its line feed.
pub const MAX_LINE: usize = 16_777_216;

/// A line of a script, without its line feed.
#[derive(Debug, Drop)]
pub enum Line {
    /// All bytes of a line of at most [`MAX_LINE`] bytes.
    Whole(Vec<u8>),
    /// A longer line, whose bytes are dropped.
    TooLong,
}

impl Line {
    ghost use Rattle.script_lines.specs.Lines.{Shows};

    // Appends a part to the line.
    pub(crate) fn add(self, part: &[u8]) -> Result<Line, AllocError>
        ensures { IfOk result (λ grown. (line : List ℕ) → Shows self line → Shows grown (line ++ part.now)) }
    {
        match self {
            Line::Whole(mut bytes) => {
                if part.len() > MAX_LINE || bytes.len() > MAX_LINE - part.len() {
                    return Ok(Line::TooLong);
                }
                bytes.extend_from_slice(part)?;
                Ok(Line::Whole(bytes))
            }
            Line::TooLong => Ok(Line::TooLong),
        }
    }

    // Returns the last line, if it isn't empty.
    pub(crate) fn unless_empty(self) -> Option<Line>
        ensures { (line : List ℕ) → Shows self line → MatchOption result (line ≡ []) (λ last. Shows last line × (0 < length line)) }
    {
        match self {
            Line::Whole(bytes) => {
                if bytes.is_empty() {
                    None
                } else {
                    Some(Line::Whole(bytes))
                }
            }
            Line::TooLong => Some(Line::TooLong),
        }
    }
}

// Returns the index of the first line feed.
pub(crate) fn feed_at(bytes: &[u8]) -> Option<usize>
    ensures { MatchOption result (has_feed bytes.now ≡ false) (λ i. (i < length bytes.now)
        × (has_feed (take i bytes.now) ≡ false) × (drop i bytes.now ≡ 10 ∷ drop (i + 1) bytes.now)) }
{
    for (i, byte) in bytes.iter().enumerate() {
        if *byte == b'\n' {
            return Some(i);
        }
    }
    None
}
