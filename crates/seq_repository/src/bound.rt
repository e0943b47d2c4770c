//! The sequential repository as a job repository, for the layers that know only its contract.
ghost use Rattle.batch_history.specs.Rows.{History, Rows};
ghost use Rattle.seq_repository.specs.Kept.{StandsFor};
ghost use Rattle.std.proofs.Common.{ap};

use crate::repository::Repository;
use batch_ids::{Moment, OutOfMemory, Refusal};
use job_repository::{Answer, Call, CountsByStatus, Entry, JobRepository, Query, Reply};
use jsl_model::Catalogue;
use std::alloc::Global;

impl<const LIMIT: u64> JobRepository for Repository<LIMIT> {
    ghost stands = { StandsFor };

    ghost jobs = { λ kept. kept.catalogue };

    ghost limit = { LIMIT };

    ghost over = { λ kept h stands. ap (λ (rows : Rows). rows.catalogue) stands };

    fn new(alloc: Global, catalogue: Catalogue) -> Result<Repository<LIMIT>, OutOfMemory> {
        Repository::new(alloc, catalogue)
    }

    fn len(&self) -> u64 {
        self.len()
    }

    fn preview(&self, who: u64, call: &Call) -> Result<Reply, Refusal> {
        self.preview(who, call)
    }

    fn apply(&mut self, who: u64, call: &Call, at: Moment) -> Result<Reply, Refusal> {
        self.apply(who, call, at)
    }

    fn enter(&mut self, entry: &Entry) -> Result<(), OutOfMemory> {
        self.enter(entry)
    }

    fn ask(&self, query: &Query) -> Result<Answer, Refusal> {
        self.ask(query)
    }

    fn status_counts(&self) -> CountsByStatus {
        self.status_counts()
    }
}
