//! Runs a script over a log on the disk: an engine that is a job repository, the restoring of a log
//! from its base and its lines, with its faults, the run, and the compaction of a log.
#![tactic(auto)]

mod base;
mod catalogue;
mod compaction;
mod engine;
mod fault;
mod jobs_left;
mod law;
mod opening;
mod run;
mod tags;
mod text;
mod to_compact;

pub use catalogue::{catalogue_at, new_log};
pub use compaction::{CompactionFault, compacted};
pub use engine::ScriptEngine;
pub use fault::LogFault;
pub use law::{compacted_logs_stand_for_the_same_operations, logs_stand_for_legal_histories};
pub use opening::{OpeningFault, RestoredLog, restore};
pub use run::answer_restored;
pub use tags::{MAX_TAG, command_of};
pub use text::log_fault_text;
pub use to_compact::{LogToCompact, restore_to_compact};
