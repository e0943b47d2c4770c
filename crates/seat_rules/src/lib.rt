//! The rule that relates sessions, read copies and a desk to one growing log of operations. They
//! share a table of atomic words: word 0 is the log's length, and words 1 to 64 are stop words.
//! Only this crate names the table's atomic actions.
#![tactic(auto)]

mod copy_seat;
mod desk_seat;
mod place;
mod rule;
mod session_seat;
mod stop_word;
mod view;

pub use copy_seat::CopySeat;
pub use desk_seat::DeskSeat;
pub use place::{BookSeat, SeatTable, Site};
pub use session_seat::SessionSeat;
pub use view::{BookView, SeatView, SessionView};
