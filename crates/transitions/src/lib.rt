//! Finds the transition element that an exit status matches.
#![tactic(auto)]

mod matching;
mod pattern;

pub use matching::{find_match, first_match};
pub use pattern::{ANY_CHARACTER, ANY_TEXT, matches};
