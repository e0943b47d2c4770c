//! The place of a fault in the text of a catalogue.
#![tactic(auto)]

mod elements;
mod flaws;
mod member;
mod objects;
mod place;
mod readings;
mod search;

pub use elements::element_spot;
pub use flaws::{Flaw, Inside, Spot};
pub use member::Member;
pub use objects::{catalogue_flaw, job_flaw, split_flow_flaw};
pub use place::byte_in;
pub use search::{ElementFlaw, flaw_of_elements};
