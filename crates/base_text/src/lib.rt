//! The rows of a job repository as lines of JSON: job executions, work items and checkpoints, behind
//! a first line of counts.
#![tactic(auto)]

mod bounded;
mod checkpoint;
mod execution;
mod fault;
mod head;
mod line;
mod metrics;
mod parameters;
mod plan;
mod sameness;
mod texts;
mod work;
mod written;

pub use fault::{BaseLineFault, BaseTextFault};
pub use head::BaseHead;
pub use line::{BaseLine, read_base_line};
pub use texts::{WrittenLine, checkpoint_line, execution_line, head_text, work_line};
