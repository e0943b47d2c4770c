ghost use Rattle.std.specs.Prelude.{◌≡◌};
ghost use Rattle.batch_history.specs.Legal.{most_operations};

use crate::absorb::Absorb;
use batch_ids::{OutOfMemory, Refusal};
use jsl_model::Catalogue;
use op_log::{CountsByStatus, Entry, JobRepository};
use std::alloc::Global;

/// The number of job executions with each batch status, beside a repository of its own. Thus a
/// reader waits for no other query.
#[derive(Drop)]
pub struct StatusCounts<J: JobRepository> {
    repository: J,
    counts: CountsByStatus,
}

impl<J: JobRepository> Absorb for StatusCounts<J> {
    ghost use Rattle.read_copies.specs.States.{StandsForCounts, counts_after};

    type Ask = ();

    type Said = CountsByStatus;

    ghost can_begin = { J.limit ≡ most_operations };

    ghost stands = { λ state. StandsForCounts J.limit (J.stands state.repository) state.counts };

    ghost answer = { counts_after };

    fn begin(alloc: Global, catalogue: Catalogue) -> Result<StatusCounts<J>, OutOfMemory> {
        let repository = J::new(alloc, catalogue)?;
        let counts = repository.status_counts();
        Ok(StatusCounts { repository, counts })
    }

    fn absorb(&mut self, entry: &Entry) -> Result<(), OutOfMemory> {
        self.repository.enter(entry)?;
        self.counts = self.repository.status_counts();
        Ok(())
    }

    fn tell(&self, _ask: &()) -> Result<CountsByStatus, Refusal> {
        Ok(self.counts)
    }
}
