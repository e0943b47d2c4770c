//! The commands of `batchctl`'s command line, and their output.
#![tactic(auto)]

mod asked;
mod check;
mod command_line;
mod executions;
mod help;
mod logged;
mod logged_fault;
mod main_program;
mod replies;
mod run;
mod sink_writer;
mod starts;

pub use asked::Arguments;
pub use command_line::arguments;
pub use main_program::{
    DEVICE_FAILED, DONE, FAULTY_CATALOGUE, LOG_FAILED, LOG_REFUSED, OUT_OF_MEMORY, REFUSED,
    program, program_with_files, refuse_words,
};
