ghost use Rattle.std.specs.Prelude.{◌≡◌};
ghost use Rattle.batch_history.specs.Legal.{most_operations};

use crate::absorb::Absorb;
use batch_ids::{OutOfMemory, Refusal};
use jsl_model::Catalogue;
use op_log::{Answer, Entry, JobRepository, Query};
use std::alloc::Global;

/// A job repository, as the state of a read copy that answers every query.
#[derive(Drop)]
pub struct RepositoryState<J: JobRepository> {
    /// The repository.
    pub repository: J,
}

impl<J: JobRepository> Absorb for RepositoryState<J> {
    ghost use Rattle.read_copies.specs.States.{StandsForLog, answer_after};

    type Ask = Query;

    type Said = Answer;

    ghost can_begin = { J.limit ≡ most_operations };

    ghost stands = { λ state. StandsForLog J.limit (J.stands state.repository) };

    ghost answer = { answer_after };

    fn begin(alloc: Global, catalogue: Catalogue) -> Result<RepositoryState<J>, OutOfMemory> {
        Ok(RepositoryState {
            repository: J::new(alloc, catalogue)?,
        })
    }

    fn absorb(&mut self, entry: &Entry) -> Result<(), OutOfMemory> {
        self.repository.enter(entry)
    }

    fn tell(&self, ask: &Query) -> Result<Answer, Refusal> {
        self.repository.ask(ask)
    }
}
