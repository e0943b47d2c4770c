//! Replies to the lines of a reader, over a log on the disk. A reply is sent after the record of
//! its line is on the disk.
#![tactic(auto)]

mod answer;
mod base;
mod catalogue;
mod engine;
mod fault;
mod law;
mod mark;
mod passing;
mod reader;
mod replays;
mod run;
mod turn;

pub use base::{OutOfPlace, find_base};
pub use catalogue::{LogCatalogues, find_catalogues};
pub use durable_log::{CommitFault, Contents, End, Host, HostFault, Log, Record, check_of};
pub use engine::{Answered, Engine};
pub use fault::RunFault;
pub use law::{a_catalogue_and_a_base_begin_a_history, the_base_stays_in_its_place};
pub use mark::{BASE_MARK, CATALOGUE_MARK, OPERATION_MARK};
pub use reader::Reader;
pub use replays::{ReplayFault, replay};
pub use run::answer_lines;
