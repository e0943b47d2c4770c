ghost use Rattle.std.specs.Prelude.{◌≤◌};

use crate::built_in::BuiltIn;
use crate::built_in_artifact::BuiltInArtifact;
use batch_ids::Refusal;
use batch_operator::Operator;
use job_repository::JobRepository;
use job_threads::{Gate, Kit, PoolReport, pool};
use seat_rules::Site;
use std::alloc::Global;
use std::sync::Wait;
use std::thread::Threads;

/// Runs a pool of 1 to 16 workers, each with an artifact for each of these names: the built-in one,
/// or one that faults in every call, as `fail` does.
///
/// # Errors
///
/// Returns the errors of `pool`.
pub fn pool_with_built_ins<
    N: Site + Send + Sync,
    J: JobRepository + Send,
    R: Threads + Wait + Sync,
    G: Gate + Sync,
>(
    rt: &R,
    alloc: Global,
    operator: &Operator<N, J>,
    names: &[&str],
    workers: u64,
    gate: &G,
) -> Result<PoolReport, Refusal>
    requires some { 1 ≤ workers }
    requires few { workers ≤ 16 }
{
    let mut kits = Vec::new(alloc);
    for _worker in 0..workers {
        let mut kit = Kit::new(alloc);
        for name in names {
            let built_in = BuiltIn::of(alloc, name)?.unwrap_or(BuiltIn::Fail);
            let artifact = Box::new(alloc, BuiltInArtifact::new(alloc, built_in))?;
            kit.add(name, artifact)?;
        }
        kits.push(kit)?;
    }
    pool(rt, alloc, operator, kits, gate)
}
