ghost use Rattle.std.specs.Prelude.{◌≡◌, ◌↔◌, [], ◌∷◌, IsTrue, MatchOption};
ghost use Rattle.std.specs.Str.{chars};
ghost use Rattle.transitions.specs.Patterns.{Matches, is_match};

/// The pattern character that matches zero or more characters.
pub const ANY_TEXT: char = '*';

/// The pattern character that matches exactly one character.
pub const ANY_CHARACTER: char = '?';

// Returns the first character of a text, and the rest of the text.
fn split_first_char(s: &str) -> Option<(char, &str)>
    ensures { MatchOption result (chars s.now ≡ [])
        (λ parts. chars s.now ≡ parts.0 ∷ chars parts.1.now) }
{
    let mut characters = s.chars();
    let first = characters.next()?;
    Some((first, characters.as_str()))
}

// Makes one pass over the text, with a place to go back to. A star first matches no character of
// the text. If the pattern after the star then fails to match, the star matches one character more.
// Only the last star that was seen is ever tried again.
fn is_cut_by(pattern: &str, text: &str) -> bool
    ensures { IsTrue result ↔ Matches (chars pattern.now) (chars text.now) }
{
    let mut pattern_left = pattern;
    let mut text_left = text;
    // The pattern after the last star, and the text at which it was last tried.
    let mut retry: Option<(&str, &str)> = None;
    loop {
        if let Some((wanted, pattern_rest)) = split_first_char(pattern_left) {
            if wanted == ANY_TEXT {
                pattern_left = pattern_rest;
                retry = Some((pattern_rest, text_left));
                continue;
            }
            if let Some((found, text_rest)) = split_first_char(text_left)
                && (wanted == ANY_CHARACTER || wanted == found)
            {
                pattern_left = pattern_rest;
                text_left = text_rest;
                continue;
            }
        } else if text_left.is_empty() {
            return true;
        }
        let Some((after_star, tried)) = retry else {
            return false;
        };
        let Some((_, text_rest)) = split_first_char(tried) else {
            return false;
        };
        pattern_left = after_star;
        text_left = text_rest;
        retry = Some((after_star, text_rest));
    }
}

/// Checks whether a text matches a pattern. `*` matches zero or more characters, `?` exactly one,
/// and any other character itself. See Jakarta Batch 2.1, "Transition Elements", the attribute
/// `on`.
///
/// A character is a Unicode scalar value. It takes no memory, and time at most proportional to the
/// pattern's length times the text's length.
pub fn matches(pattern: &str, text: &str) -> bool
    ensures cut { IsTrue result ↔ Matches (chars pattern.now) (chars text.now) }
    ensures same { result ≡ is_match (chars pattern.now) (chars text.now) }
{
    is_cut_by(pattern, text)
}
