//! The check of a catalogue: the number of its jobs, or its fault with the byte and the member.
#![tactic(auto)]

mod check;
mod member_text;
mod verdict;

pub use check::check_line;
pub use verdict::Checked;
