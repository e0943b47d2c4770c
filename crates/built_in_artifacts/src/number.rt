ghost use Rattle.std.specs.Prelude.{ℕ, MatchOption};
ghost use Rattle.built_in_artifacts.specs.Names.{IsNumber};

/// The maximum number of digits in a number of a name or of a checkpoint.
const MOST_DIGITS: usize = 9;

/// Parses a number of 1 to 9 decimal digits. Returns `None` for any other text.
pub(crate) fn number_of(text: &str) -> Option<u32>
    ensures { MatchOption result ((n : ℕ) → ¬ IsNumber text.now n) (λ n. IsNumber text.now n) }
{
    if text.len() > MOST_DIGITS || text.starts_with('+') {
        return None;
    }
    text.parse::<u32>().ok()
}
