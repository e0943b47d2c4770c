// The metrics of a work item: an object of counts by the metrics' names.
ghost use Rattle.std.specs.Prelude.{◌≡◌, map};
ghost use Rattle.lent_json.specs.Looks.{shown};
ghost use Rattle.script_text.specs.Metrics.{metric_names};
ghost use Rattle.base_text.specs.Works.{metric_at, metrics_of, metrics_at};

use batch_ids::{Metric, Metrics};
use lent_json::Look;

/// Reads the metrics, which may be left out. Returns `None` if they are there and no object of
/// counts, 0 to 2^64 - 1.
pub fn metrics_at(value: Look<'_, '_>) -> Option<Metrics>
    ensures { result ≡ metrics_at (shown value.entry) }
{
    match value.optional_object("metrics")? {
        None => Some(Metrics::zero()),
        Some(counts) => metrics_of(counts),
    }
}

#[tactic(auto, unfolding(crate::specs::Works::metrics_of))]
fn metrics_of(counts: Look<'_, '_>) -> Option<Metrics>
    ensures { result ≡ metrics_of (shown counts.entry) }
{
    if !counts.has_only(&metric_names()) {
        return None;
    }
    Some(Metrics {
        read_count: metric_at(Metric::ReadCount, counts)?,
        write_count: metric_at(Metric::WriteCount, counts)?,
        commit_count: metric_at(Metric::CommitCount, counts)?,
        rollback_count: metric_at(Metric::RollbackCount, counts)?,
        read_skip_count: metric_at(Metric::ReadSkipCount, counts)?,
        process_skip_count: metric_at(Metric::ProcessSkipCount, counts)?,
        filter_count: metric_at(Metric::FilterCount, counts)?,
        write_skip_count: metric_at(Metric::WriteSkipCount, counts)?,
    })
}

fn metric_names() -> [&'static str; 8]
    ensures { map (λ name. name.now) result ≡ metric_names }
{
    [
        Metric::ReadCount.name(),
        Metric::WriteCount.name(),
        Metric::CommitCount.name(),
        Metric::RollbackCount.name(),
        Metric::ReadSkipCount.name(),
        Metric::ProcessSkipCount.name(),
        Metric::FilterCount.name(),
        Metric::WriteSkipCount.name(),
    ]
}

/// Reads the count of this metric, 0 if it is left out. Returns `None` if it is there and no count.
fn metric_at(metric: Metric, counts: Look<'_, '_>) -> Option<u64>
    ensures { result ≡ metric_at metric (shown counts.entry) }
{
    Some(counts.optional_number(metric.name())?.unwrap_or(0))
}
