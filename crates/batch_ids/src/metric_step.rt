ghost use Rattle.std.specs.Prelude.{◌≡◌};
ghost use Rattle.batch_ids.specs.Metrics.{zero_step, step_with};

use crate::Metric;

/// A metric step: numbers that are added to a step execution's counts together, one for each
/// `Metric` (Jakarta Batch 2.1, "Metric").
#[derive(Clone, Copy, PartialEq, Eq, Debug)]
pub struct MetricStep {
    /// Items read.
    pub read_count: u32,
    /// Items written.
    pub write_count: u32,
    /// Transactions committed.
    pub commit_count: u32,
    /// Transactions rolled back.
    pub rollback_count: u32,
    /// Items skipped while they were read.
    pub read_skip_count: u32,
    /// Items skipped while they were processed.
    pub process_skip_count: u32,
    /// Items that the processor filtered out.
    pub filter_count: u32,
    /// Items skipped while they were written.
    pub write_skip_count: u32,
}

impl MetricStep {
    /// Returns the metric step that adds 0 to each count.
    pub fn zero() -> MetricStep
        ensures { result ≡ zero_step }
    {
        MetricStep {
            read_count: 0,
            write_count: 0,
            commit_count: 0,
            rollback_count: 0,
            read_skip_count: 0,
            process_skip_count: 0,
            filter_count: 0,
            write_skip_count: 0,
        }
    }

    /// Returns this metric step with another number for one metric.
    pub fn with(self, metric: Metric, count: u32) -> MetricStep
        ensures { result ≡ step_with self metric count }
    {
        let mut step = self;
        match metric {
            Metric::ReadCount => step.read_count = count,
            Metric::WriteCount => step.write_count = count,
            Metric::CommitCount => step.commit_count = count,
            Metric::RollbackCount => step.rollback_count = count,
            Metric::ReadSkipCount => step.read_skip_count = count,
            Metric::ProcessSkipCount => step.process_skip_count = count,
            Metric::FilterCount => step.filter_count = count,
            Metric::WriteSkipCount => step.write_skip_count = count,
        }
        step
    }
}

impl Default for MetricStep {
    ghost is_default = { λ step. step ≡ zero_step };

    fn default() -> MetricStep {
        MetricStep::zero()
    }
}
