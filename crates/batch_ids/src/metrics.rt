ghost use Rattle.std.specs.Prelude.{◌≡◌};
ghost use Rattle.batch_ids.specs.Metrics.{zero_metrics, added, both_metrics, metric_count, HasRoom, HaveRoom};

use crate::{Metric, MetricStep};

/// A step execution's counts, one for each `Metric` (Jakarta Batch 2.1, "Metric").
#[derive(Clone, Copy, PartialEq, Eq, Debug)]
pub struct Metrics {
    /// Items read.
    pub read_count: u64,
    /// Items written.
    pub write_count: u64,
    /// Transactions committed.
    pub commit_count: u64,
    /// Transactions rolled back.
    pub rollback_count: u64,
    /// Items skipped while they were read.
    pub read_skip_count: u64,
    /// Items skipped while they were processed.
    pub process_skip_count: u64,
    /// Items that the processor filtered out.
    pub filter_count: u64,
    /// Items skipped while they were written.
    pub write_skip_count: u64,
}

impl Metrics {
    /// Returns the metrics of a step execution that begins: each count is 0.
    pub fn zero() -> Metrics
        ensures { result ≡ zero_metrics }
    {
        Metrics {
            read_count: 0,
            write_count: 0,
            commit_count: 0,
            rollback_count: 0,
            read_skip_count: 0,
            process_skip_count: 0,
            filter_count: 0,
            write_skip_count: 0,
        }
    }

    /// Adds a metric step to the counts. The caller guarantees that no sum exceeds `u64::MAX`.
    pub fn add(&mut self, step: &MetricStep)
        requires { HasRoom self.old step.now }
        ensures { self.new ≡ added self.old step.now }
    {
        self.read_count += u64::from(step.read_count);
        self.write_count += u64::from(step.write_count);
        self.commit_count += u64::from(step.commit_count);
        self.rollback_count += u64::from(step.rollback_count);
        self.read_skip_count += u64::from(step.read_skip_count);
        self.process_skip_count += u64::from(step.process_skip_count);
        self.filter_count += u64::from(step.filter_count);
        self.write_skip_count += u64::from(step.write_skip_count);
    }

    /// Adds other metrics to the counts. The caller guarantees that no sum exceeds `u64::MAX`.
    pub fn join(&mut self, other: &Metrics)
        requires { HaveRoom self.old other.now }
        ensures { self.new ≡ both_metrics self.old other.now }
    {
        self.read_count += other.read_count;
        self.write_count += other.write_count;
        self.commit_count += other.commit_count;
        self.rollback_count += other.rollback_count;
        self.read_skip_count += other.read_skip_count;
        self.process_skip_count += other.process_skip_count;
        self.filter_count += other.filter_count;
        self.write_skip_count += other.write_skip_count;
    }

    /// Returns the count of one metric.
    pub fn count(&self, metric: Metric) -> u64
        ensures { result ≡ metric_count self.now metric }
    {
        match metric {
            Metric::ReadCount => self.read_count,
            Metric::WriteCount => self.write_count,
            Metric::CommitCount => self.commit_count,
            Metric::RollbackCount => self.rollback_count,
            Metric::ReadSkipCount => self.read_skip_count,
            Metric::ProcessSkipCount => self.process_skip_count,
            Metric::FilterCount => self.filter_count,
            Metric::WriteSkipCount => self.write_skip_count,
        }
    }
}

impl Default for Metrics {
    ghost is_default = { λ metrics. metrics ≡ zero_metrics };

    fn default() -> Metrics {
        Metrics::zero()
    }
}
