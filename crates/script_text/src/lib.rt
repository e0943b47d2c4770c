//! The text of a script: how each line is read as a command, and how each reply and answer is
//! written.
#![tactic(auto)]

mod answer;
mod bounds;
mod calls;
mod command;
mod fault;
mod metrics;
mod objects;
mod parameters;
mod queries;
mod raw;
mod records;
mod reply;
mod run;
mod start;
mod telling;
mod written;

pub use answer::answer_text;
pub use command::{Command, CommandReader, read_command};
pub use fault::fault_text;
pub use metrics::metrics_value;
pub use reply::{bad_line_text, reply_text};
pub use run::execution_text;
pub use start::{StartFault, StartLine, read_start};
