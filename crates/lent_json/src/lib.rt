//! A reader of flat JSON objects, in one pass and with little memory: the members are scalars, or
//! objects of scalars. The data are those that `serde_json` reads from the same text.
#![tactic(auto)]

mod flat;
mod look;
mod member;
mod numbers;
mod reading;
mod texts;

pub use flat::Scalar;
pub use json::Scratch;
pub use look::Look;
pub use member::{CountMembers, FlatObject, Member, TextMembers};
pub use reading::{Unread, read_flat};
pub use texts::Texts;
