//! Runs a script: reads its bytes from any reader, and writes the replies to its lines to any
//! writer. It also has parts for other programs over the same lines: the lines of a reader, its
//! catalogue, and the texts of replies and faults.
#![tactic(auto)]

mod answer;
mod catalogue;
mod fault;
mod lines;
mod run;
mod start;
mod summary;

pub use answer::{Answered, answer_whole};
pub use catalogue::{catalogue_in, tell_fault};
pub use fault::EngineFault;
pub use jsl_json::ReadFault;
pub use lines::Lines;
pub use run::{answer_script, boxed_repository, run_script};
pub use script_lines::{
    Counted, DeviceFault, Line, MAX_LINE, MAX_READS, OutputBuffer, Sink, Source, SourceInTurn,
};
pub use script_text::{
    StartFault, StartLine, bad_line_text, execution_text, fault_text, metrics_value, reply_text,
};
pub use start::read_start;
pub use summary::{Kind, Summary};
