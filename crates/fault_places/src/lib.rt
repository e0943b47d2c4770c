//! The place of a fault in the text of a catalogue: the byte and the member.
#![tactic(auto)]

mod deep;
mod hits;
mod place;
mod site;

pub use place::{Place, place_of};
