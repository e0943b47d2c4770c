// The jobs of a log's catalogue that may not leave it.
ghost use Rattle.std.specs.Prelude.{◌≡◌, ◌||◌, ◌↔◌, false, true, Some, IfOk, IsTrue, MatchOption};
ghost use Rattle.std.specs.List.{list_any};
ghost use Rattle.std.specs.Str.{bytes_eq};
ghost use Rattle.batch_history.specs.Lists.{Each};
ghost use Rattle.catalogue_laws.specs.Leaving.{AreNamed, KeepsJobs, is_used};
ghost use Rattle.logged_script.specs.Compactions.{HasJob, IsFirstLeft, MayLeave};

use batch_history::{CheckpointRow, ExecutionRow, WorkRow};
use batch_ids::OutOfMemory;
use catalogue_growth::is_same_job;
use jsl_model::{Catalogue, Job};
use row_repository::{NotTaken, RowRepository, RowSink};
use std::alloc::AllocError;

// Looks for a job execution of a job among rows.
#[derive(Drop)]
struct JobUse<'a> {
    job: &'a str,
    found: bool,
}

impl<'a> RowSink for JobUse<'a> {
    ghost taken = { λ earlier s now. (now.job.now ≡ earlier.job.now) × (now.found ≡ (earlier.found || list_any (λ row. bytes_eq row.job earlier.job.now) s.executions)) };

    fn take_execution(&mut self, row: &ExecutionRow) -> Result<(), NotTaken> {
        let is_of_job = row.job.as_str() == self.job;
        self.found = self.found || is_of_job;
        Ok(())
    }

    fn take_work(&mut self, _row: &WorkRow) -> Result<(), NotTaken> {
        Ok(())
    }

    fn take_checkpoint(&mut self, _row: &CheckpointRow) -> Result<(), NotTaken> {
        Ok(())
    }
}

// Checks whether there is a job execution of a job.
fn is_used<J: RowRepository>(repository: &J, job: &str) -> Result<bool, OutOfMemory>
    ensures { IfOk result (λ used. used ≡ is_used (J.rows repository.now) job.now) }
{
    let mut sink = JobUse { job, found: false };
    match repository.show_rows(&mut sink) {
        Ok(()) => Ok(sink.found),
        Err(NotTaken) => Err(AllocError),
    }
}

// Checks whether a catalogue has a job as it is, wherever that stands.
fn has_job(catalogue: &Catalogue, job: &Job) -> bool
    ensures { IsTrue result ↔ HasJob catalogue.now job.now }
{
    match catalogue.job(job.id().as_str()) {
        Some(other) => is_same_job(job, other),
        None => false,
    }
}

// Checks whether a job may leave for the given catalogue.
fn may_leave<J: RowRepository>(
    repository: &J,
    given: &Catalogue,
    job: &Job,
) -> Result<bool, OutOfMemory>
    ensures may { IfOk result (λ may. IsTrue may → MayLeave (J.rows repository.now) given.now job.now) }
    ensures differs { IfOk result (λ may. may ≡ false → HasJob given.now job.now → ⊥) }
    ensures used { IfOk result (λ may. may ≡ false → is_used (J.rows repository.now) job.now.id ≡ true) }
{
    if has_job(given, job) {
        return Ok(true);
    }
    let used = is_used(repository, job.id().as_str())?;
    Ok(!used)
}

fn first_left<J: RowRepository>(
    repository: &J,
    kept: &[Job],
    given: &Catalogue,
) -> Result<Option<usize>, OutOfMemory>
    ensures { IfOk result (λ found. MatchOption found
        (Each (MayLeave (J.rows repository.now) given.now) kept.now)
        (IsFirstLeft (J.rows repository.now) kept.now given.now)) }
{
    for (number, job) in kept.iter().enumerate() {
        let may = may_leave(repository, given, job)?;
        if !may {
            return Ok(Some(number));
        }
    }
    Ok(None)
}

/// Returns the number, from 0, of the first job of the repository's catalogue that `given` doesn't have
/// as it is, and of which there is a job execution. The catalogue is `kept`.
///
/// It looks at the rows once for each job that `given` doesn't have as it is.
pub(crate) fn first_job_left<J: RowRepository>(
    repository: &J,
    kept: &Catalogue,
    given: &Catalogue,
) -> Result<Option<usize>, OutOfMemory>
    requires catalogue { (J.rows repository.now).catalogue ≡ kept.now }
    requires named { AreNamed (J.rows repository.now) }
    ensures { IfOk result (λ found. MatchOption found
        (KeepsJobs (J.rows repository.now) given.now)
        (IsFirstLeft (J.rows repository.now) kept.now given.now)) }
{
    first_left(repository, kept.jobs(), given)
}
