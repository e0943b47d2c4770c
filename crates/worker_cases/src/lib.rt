//! Cases of workers over any job repository, one after another. Each prints what it comes to.
//!
//! Workers with an operator, and with a port that refuses. Two workers run at once, then a step in
//! partitions, and a job of built-in artifacts. A worker and a pool report, and a work item is given
//! up. A chunk's artifacts fault at each of their places, and the kit lacks names. Stops are seen, or
//! asked for in a reply. Workers give up, and a session looks for unfinished job executions. A worker
//! is idle, and each worker of a pool is refused.
#![tactic(auto)]

ghost use Rattle.std.specs.Prelude.{◌≡◌};
ghost use Rattle.batch_history.specs.Legal.{most_operations};

mod built_ins;
mod chunks;
mod hosting;
mod memory;
mod pools;
mod ports;
mod quiet;
mod refused_pools;
mod refusing;
mod reports;
mod staged;
mod stops;
mod turns;

use anyhow::Result;
use built_ins::print_built_ins;
use chunks::{print_ended_early, print_faults, print_unknown_names};
use job_repository::JobRepository;
use pools::{print_ahead, print_partitions, print_together};
use ports::print_unfinished;
use refused_pools::print_refused_pools;
use refusing::print_given_up;
use reports::print_reports;
use std::sync::Wait;
use std::thread::Threads;
use stops::print_stops;
use turns::print_all_turns;

/// Runs the cases of workers.
pub fn print_workers<J: JobRepository + Send, R: Threads + Wait + Print + AllocGlobal + Sync>(
    rt: &R,
) -> Result<()>
    requires { J.limit ≡ most_operations }
{
    print_together::<J, _>(rt)?;
    print_partitions::<J, _>(rt)?;
    print_built_ins::<J, _>(rt)?;
    print_reports::<J, _>(rt)?;
    print_given_up(rt)?;
    print_faults(rt)?;
    print_unknown_names(rt)?;
    print_ended_early(rt)?;
    print_stops(rt)?;
    print_all_turns(rt)?;
    print_unfinished::<J, _>(rt)?;
    print_ahead::<J, _>(rt)?;
    print_refused_pools::<J, _>(rt)
}
