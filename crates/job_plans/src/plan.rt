ghost use Rattle.std.specs.Prelude.{◌≡◌};
ghost use Rattle.job_plans.specs.Cursors.{begins_in};

use batch_ids::{Listed, T256};
use jsl_model::Job;
use walk_rules::WorkKey;

/// The element at which a job execution's walk begins, and the state left by earlier job executions
/// of its job instance.
///
/// A step that is both carried and barred is carried. A barred step without a fact fails the job,
/// even if each of its partitions is kept. A plan says nothing of decisions, which are run anew.
/// See Jakarta Batch 2.1, "Job Restart Processing" and "Step Partitioning".
#[derive(Debug, Drop)]
pub struct Plan {
    /// The id of the job-level element at which the walk begins.
    pub from: T256,
    /// The steps that an earlier job execution completed, each with its exit status.
    pub carried: Listed<(T256, T256)>,
    /// The partitions that earlier job executions completed, of steps that they did not complete. A
    /// work key of a step that isn't partitioned has no effect here.
    pub kept: Listed<WorkKey>,
    /// The steps that have reached their start limit.
    pub barred: Listed<T256>,
}

impl Plan {
    /// Checks whether the walk begins at an element of the job's own list, in time proportional to
    /// that list's elements.
    pub fn begins_in(&self, job: &Job) -> bool
        ensures { result ≡ begins_in self.now job.now }
    {
        for element in job.elements() {
            if element.id == self.from {
                return true;
            }
        }
        false
    }
}
