ghost use Rattle.std.specs.Prelude.{◌≡◌, [], vec_len, IfOk};
ghost use Rattle.std.specs.List.{All};

use crate::copy_count::CopyCount;
use batch_ids::OutOfMemory;
use jsl_model::Catalogue;
use op_log::JobRepository;
use read_copies::{Absorb, Copies, RepositoryState, StatusCounts};
use seat_rules::{SeatTable, Site};
use sessions::Desk;
use std::alloc::Global;

/// Returns `copies` states over the catalogue, each after no operation.
pub fn states_of_nothing<S: Absorb>(
    alloc: Global,
    catalogue: &Catalogue,
    copies: CopyCount,
) -> Result<Vec<S>, OutOfMemory>
    requires { S.can_begin }
    ensures empty { IfOk result (λ states. All (λ s. S.stands s catalogue.now []) states.items) }
    ensures count { IfOk result (λ states. vec_len states ≡ copies.count) }
{
    let mut states = Vec::new(alloc);
    for number in 0..copies.value() {
        states.push(S::begin(alloc, catalogue.try_clone()?)?)?;
    }
    Ok(states)
}

/// The read copies of an operator: as many of its repository as of its counts.
#[derive(Drop)]
pub struct ReadCopies<N: Site, J: JobRepository> {
    pub repositories: Copies<RepositoryState<J>, N>,
    pub counts: Copies<StatusCounts<J>, N>,
}

/// Returns read copies of these states, each with a seat at the desk's table.
pub fn seated<N: Site, J: JobRepository>(
    alloc: Global,
    repositories: Vec<RepositoryState<J>>,
    counts: Vec<StatusCounts<J>>,
    desk: &mut Desk<N, J>,
    table: &SeatTable,
) -> Result<ReadCopies<N, J>, OutOfMemory>
    requires table { table.now ≡ N.place }
    requires alone { desk.old.hosted ≡ [] }
    requires repositories { All (λ s. ⟦<RepositoryState<J> as Absorb>⟧.stands s N.place.catalogue []) repositories.items }
    requires counts { All (λ s. ⟦<StatusCounts<J> as Absorb>⟧.stands s N.place.catalogue []) counts.items }
    ensures desk { desk.new ≡ desk.old }
    ensures repositories { IfOk result (λ seated. seated.repositories ≡ vec_len repositories) }
    ensures counts { IfOk result (λ seated. seated.counts ≡ vec_len counts) }
{
    Ok(ReadCopies {
        repositories: Copies::new(alloc, repositories, desk, table)?,
        counts: Copies::new(alloc, counts, desk, table)?,
    })
}
