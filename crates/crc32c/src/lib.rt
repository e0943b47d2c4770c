//! The check CRC-32C of bytes, which may be given in parts.
#![tactic(auto)]

mod check;
mod law;
mod table;

pub use check::{check_after, check_of};
pub use law::{checks_stay_apart, one_byte_is_seen, parts_are_one, the_known_check};
