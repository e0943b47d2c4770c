ghost use Rattle.std.specs.Prelude.{◌≡◌, ◌≤◌, Some, length};
ghost use Rattle.std.specs.Fmt.{padded};
ghost use Rattle.batch_ids.specs.Metrics.{metric_name, metric_named};
ghost use Rattle.batch_ids.specs.Names.{IsRead};

use crate::UnknownName;
use std::fmt;
use std::str::FromStr;

/// One of a step execution's counts (Jakarta Batch 2.1, "Metric"). It prints as its name, and can
/// be parsed from it.
#[derive(Clone, Copy, PartialEq, Eq, Hash, Debug)]
pub enum Metric {
    /// Items read.
    ReadCount,
    /// Items written.
    WriteCount,
    /// Transactions committed.
    CommitCount,
    /// Transactions rolled back.
    RollbackCount,
    /// Items skipped while they were read.
    ReadSkipCount,
    /// Items skipped while they were processed.
    ProcessSkipCount,
    /// Items that the processor filtered out.
    FilterCount,
    /// Items skipped while they were written.
    WriteSkipCount,
}

impl Metric {
    /// Returns the printed name: the constant of `Metric.MetricType`.
    pub fn name(self) -> &'static str
        ensures name { result.now ≡ metric_name self }
        ensures short { length result.now ≤ 18 }
    {
        match self {
            Metric::ReadCount => "READ_COUNT",
            Metric::WriteCount => "WRITE_COUNT",
            Metric::CommitCount => "COMMIT_COUNT",
            Metric::RollbackCount => "ROLLBACK_COUNT",
            Metric::ReadSkipCount => "READ_SKIP_COUNT",
            Metric::ProcessSkipCount => "PROCESS_SKIP_COUNT",
            Metric::FilterCount => "FILTER_COUNT",
            Metric::WriteSkipCount => "WRITE_SKIP_COUNT",
        }
    }
}

impl fmt::Display for Metric {
    ghost output = { λ metric. Some (metric_name metric) };

    ghost styled_output = { λ metric spec. Some (padded spec (metric_name metric)) };

    fn fmt<W: fmt::Write>(&self, f: &mut fmt::Formatter<W>) -> fmt::Result {
        f.pad(self.name())
    }
}

/// Parses a metric's printed name. All bytes have to agree.
///
/// # Errors
///
/// Returns `UnknownName` for any other text.
impl FromStr for Metric {
    type Err = UnknownName;

    ghost from_str_gives = { λ text read. IsRead (metric_named text) read };

    fn from_str(text: &str) -> Result<Metric, UnknownName> {
        let metrics = [
            Metric::ReadCount,
            Metric::WriteCount,
            Metric::CommitCount,
            Metric::RollbackCount,
            Metric::ReadSkipCount,
            Metric::ProcessSkipCount,
            Metric::FilterCount,
            Metric::WriteSkipCount,
        ];
        for metric in metrics {
            if metric.name() == text {
                return Ok(metric);
            }
        }
        Err(UnknownName)
    }
}
