//! Runs workloads: for each of its triples of words (the workload's name, a number that its input is made from, and its size)
//! it makes the input of a run of `batchctl`, runs that, and prints a digest of all that the run wrote.
//!
//! - `nights`: jobs of five steps, eight at a time, with checkpoints, failures, restarts and some queries.
//! - `consoles`: the same, but seven lines in ten are queries.
//! - `backlog`: a fifth of the lines are starts, all made before the first claim; reports come in any order.
//! - `deep`: jobs of about a thousand elements: long lists, flows in flows, wide splits, splits in splits.
//! - `pool`: a run of chunks, partitions and splits by two workers with built-in artifacts.
//!
//! The size is the number of lines, of `pool` the number of job executions.
#![tactic(auto)]

mod backlog;
mod deep;
mod deep_jobs;
mod dice;
mod digest;
mod nights;
mod pool;
mod script;

use anyhow::{Result, bail};
use backlog::backlog;
use batch_commands::program;
use deep::deep;
use dice::Dice;
use digest::Digest;
use nights::{consoles, nights};
use pool::pool;
use script::Script;
use std::alloc::Global;
use std::env;
use std::rt::Env;
use std::sync::Wait;
use std::thread::Threads;

/// The input of a workload.
fn input_of(alloc: Global, name: &str, seed: u64, size: u64) -> Result<Script> {
    let mut script = Script::new(alloc);
    let mut dice = Dice::new(seed);
    match name {
        "nights" => nights(&mut script, &mut dice, size)?,
        "consoles" => consoles(&mut script, &mut dice, size)?,
        "backlog" => backlog(alloc, &mut script, &mut dice, size)?,
        "deep" => deep(alloc, &mut script, &mut dice, size)?,
        "pool" => pool(&mut script, &mut dice, size)?,
        _ => bail!("no workload has this name"),
    }
    Ok(script)
}

/// The words that `batchctl` is called with.
fn words_of(name: &str) -> &[&str] {
    match name {
        "pool" => &["run", "--workers", "2"],
        _ => &["script"],
    }
}

/// Runs a workload, and prints its digest.
fn run<R: Threads + Wait + AllocGlobal + Print + Sync>(
    rt: &R,
    name: &str,
    seed: u64,
    size: u64,
) -> Result<()> {
    let script = input_of(rt.alloc(), name, seed, size)?;
    let mut written = Digest::new();
    let mut told = Digest::new();
    let status = program(
        rt,
        words_of(name),
        script.bytes(),
        written.writer(),
        &mut told.writer(),
    );
    let (bytes, digest) = (written.bytes(), written.value());
    println!(rt; "{name}: status {status}, {bytes} bytes, {digest:016x}")?;
    Ok(())
}

fn main(rt: HostRuntime) -> Result<()> {
    let mut words = env::args(&rt)?.skip(1);
    while let Some(name) = words.next() {
        let (Some(seed), Some(size)) = (words.next(), words.next()) else {
            bail!("each workload wants a name, a seed and a size");
        };
        run(&rt, name.as_str(), seed.parse()?, size.parse()?)?;
    }
    Ok(())
}
