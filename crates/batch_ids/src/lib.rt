//! Identifiers, texts, parameters, metrics, statuses and refusals: the values that all other crates
//! of the job service use.
#![tactic(auto)]

mod execution_id;
mod instance_id;
mod law;
mod metric;
mod metric_step;
mod metrics;
mod parameters;
mod refusal;
mod shared;
mod status;
mod text;
mod unknown_name;
mod work_id;

pub use execution_id::ExecutionId;
pub use instance_id::InstanceId;
pub use law::the_value_given_last_counts;
pub use metric::Metric;
pub use metric_step::MetricStep;
pub use metrics::Metrics;
pub use parameters::{Parameter, Parameters};
pub use refusal::{OutOfMemory, Refusal};
pub use shared::Shared;
pub use sqlite_items::Items as Listed;
pub use status::{BatchStatus, Moment, WorkOutcome};
pub use text::{T256, Text, try_clone_option};
pub use unknown_name::UnknownName;
pub use work_id::WorkId;
