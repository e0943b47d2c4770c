// The metrics of a step execution: an object of counts by the metrics' names.
ghost use Rattle.std.specs.Prelude.{◌≡◌, map, IfOk};
ghost use Rattle.serde_json.specs.View.{view};
ghost use Rattle.lent_json.specs.Looks.{shown};
ghost use Rattle.script_text.specs.Metrics.{metric_at, metric_names, step_of, metrics_at, metrics_data};

use crate::written::counts_value;
use batch_ids::{Metric, MetricStep, Metrics, OutOfMemory};
use lent_json::Look;
use serde_json::Value;
use std::alloc::Global;

/// Reads the metric step of the member `metrics`, which may be left out. Returns `None` if it is
/// there and no object of counts.
pub fn metrics_at(value: Look<'_, '_>) -> Option<MetricStep>
    ensures { result ≡ metrics_at (shown value.entry) }
{
    match value.optional_object("metrics")? {
        None => Some(MetricStep::zero()),
        Some(object) => step_of(object),
    }
}

#[tactic(auto, unfolding(crate::specs::Metrics::step_of))]
fn step_of(object: Look<'_, '_>) -> Option<MetricStep>
    ensures { result ≡ step_of (shown object.entry) }
{
    if !object.has_only(&metric_names()) {
        return None;
    }
    Some(MetricStep {
        read_count: metric_at(Metric::ReadCount, object)?,
        write_count: metric_at(Metric::WriteCount, object)?,
        commit_count: metric_at(Metric::CommitCount, object)?,
        rollback_count: metric_at(Metric::RollbackCount, object)?,
        read_skip_count: metric_at(Metric::ReadSkipCount, object)?,
        process_skip_count: metric_at(Metric::ProcessSkipCount, object)?,
        filter_count: metric_at(Metric::FilterCount, object)?,
        write_skip_count: metric_at(Metric::WriteSkipCount, object)?,
    })
}

fn metric_names() -> [&'static str; 8]
    ensures { map (λ name. name.now) result ≡ metric_names }
{
    [
        Metric::ReadCount.name(),
        Metric::WriteCount.name(),
        Metric::CommitCount.name(),
        Metric::RollbackCount.name(),
        Metric::ReadSkipCount.name(),
        Metric::ProcessSkipCount.name(),
        Metric::FilterCount.name(),
        Metric::WriteSkipCount.name(),
    ]
}

/// Reads the count of this metric, which may be left out. Returns `None` if it is there and no
/// number from 0 to 4,294,967,295.
fn metric_at(metric: Metric, object: Look<'_, '_>) -> Option<u32>
    ensures { result ≡ metric_at metric (shown object.entry) }
{
    match object.optional_number(metric.name())? {
        None => Some(0),
        Some(count) => u32::try_from(count).ok(),
    }
}

/// Returns a step execution's metrics as they are written: an object of counts by the names of the
/// metrics. A count of 0 is left out (Jakarta Batch 2.1, "Metric").
///
/// # Errors
///
/// Returns `OutOfMemory` if memory is refused.
pub fn metrics_value(alloc: Global, metrics: &Metrics) -> Result<Value, OutOfMemory>
    ensures { IfOk result (λ value. view value ≡ metrics_data metrics.now) }
{
    let counts = [
        (Metric::ReadCount.name(), metrics.read_count),
        (Metric::WriteCount.name(), metrics.write_count),
        (Metric::CommitCount.name(), metrics.commit_count),
        (Metric::RollbackCount.name(), metrics.rollback_count),
        (Metric::ReadSkipCount.name(), metrics.read_skip_count),
        (Metric::ProcessSkipCount.name(), metrics.process_skip_count),
        (Metric::FilterCount.name(), metrics.filter_count),
        (Metric::WriteSkipCount.name(), metrics.write_skip_count),
    ];
    counts_value(alloc, &counts)
}
