//! Single calls of what programs are made of: readers of lines, logs on a disk, workers, and pools over
//! any job repository.
#![tactic(auto)]

mod logs;
mod memory;
mod pools;
mod readings;
mod workers;

pub use logs::run_log;
pub use pools::run_pools;
pub use readings::{answer_whole, run_commands, run_lines, run_reading, run_whole};
pub use workers::run_work;
