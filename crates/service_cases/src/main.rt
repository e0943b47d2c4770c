//! Runs threads and workers, one case after another. The file `stdout` has each line of output.
//!
//! Four threads work on one operator at once. Then come the cases of workers, over the same job
//! repository.
#![tactic(auto)]

mod four_threads;

use anyhow::Result;
use batch_service::Repository;
use four_threads::print_four_threads;
use worker_cases::print_workers;

fn main(rt: HostRuntime) -> Result<()> {
    print_four_threads(&rt)?;
    print_workers::<Repository<1_000_000>, _>(&rt)
}
