// The operators of the cases.
ghost use Rattle.std.specs.Prelude.{◌≡◌};
ghost use Rattle.batch_history.specs.Legal.{most_operations};

use anyhow::{Result, bail};
use batch_ids::{Parameters, T256};
use batch_operator::{CopyCount, Operator};
use job_repository::JobRepository;
use jsl_model::Catalogue;
use seat_rules::{BookSeat, SeatTable, Site};
use std::alloc::Global;
use std::sync::Wait;

/// Returns an operator with one read copy of each kind.
pub(crate) fn operator_of<N: Site, J: JobRepository>(
    alloc: Global,
    table: SeatTable,
    seat: BookSeat,
    catalogue: Catalogue,
) -> Result<Operator<N, J>>
    requires limit { J.limit ≡ most_operations }
    requires table { table ≡ N.place }
    requires seat { seat ≡ N.place.table }
    requires catalogue { catalogue ≡ N.place.catalogue }
{
    let Some(copies) = CopyCount::new(1) else {
        bail!("there is no read copy");
    };
    Ok(Operator::<N, J>::new(alloc, table, seat, catalogue, copies)?)
}

/// Starts the job with this name, by a session of its own.
pub(crate) fn start_job<N: Site, J: JobRepository>(
    rt: &(impl Wait + AllocGlobal),
    operator: &Operator<N, J>,
    name: &str,
) -> Result<()> {
    let job = T256::new(rt.alloc(), name)?;
    let mut session = operator.open_session(rt)?;
    let started = operator.start(rt, &mut session, job, Parameters::none(), 0);
    drop(session);
    drop(started?);
    Ok(())
}
