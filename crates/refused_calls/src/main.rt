//! Runs a script whose lines are single calls of the library, and prints the result of each. The
//! first word names the script's file; without it, that is `example`, of which `stdout` has the
//! output.
//!
//! A line that begins with `! ` has a mark before and after its call: a request for memory of a
//! size that nothing else asks for. `tools/refuse_each_call.py` writes the scripts, refuses each
//! request between the marks in turn, and compares what the lines around it print.
//!
//! The first line of a script names its kind, and for an operator the number of its read copies, if
//! there is more than one. The second line is what its object is made of, as a rule a catalogue. If
//! that line is marked, making the object is the call, and if it is refused memory, the object is
//! made again without marks. The other lines are for the object.
#![tactic(auto)]

mod programs;
mod states;

use anyhow::{Result, bail};
use batch_service::Repository;
use call_lines::{Line, Script, echoed};
use std::rt::Env;
use std::sync::Wait;
use std::thread::Threads;
use std::{env, fs};

/// The script that runs if no other one is named.
const EXAMPLE: &str = "example";

/// Runs the lines of a script whose calls have no object.
fn run_values<R: Wait + Print + AllocGlobal>(rt: &R, kind: &str, lines: &str) -> Result<()> {
    for text in lines.lines() {
        let line = echoed(rt, text)?;
        match kind {
            "texts" => value_calls::run_text(rt, line)?,
            "parameters" => value_calls::run_parameters(rt, line)?,
            "jobs" => value_calls::run_job(rt, line)?,
            "rows" => value_calls::run_row(rt, line)?,
            "restarts" => value_calls::run_restart(rt, line)?,
            "readings" => program_calls::run_reading(rt, line)?,
            "logs" => program_calls::run_log(rt, line)?,
            "workers" => program_calls::run_work(rt, line)?,
            "arguments" => programs::run_arguments(rt, line)?,
            _ => bail!("no script is called {kind}"),
        }
    }
    Ok(())
}

/// Runs the lines of a script for an object that stands for a history. Returns whether there was
/// the memory for the object.
fn run_object<R: Wait + Print + AllocGlobal>(
    rt: &R,
    kind: &str,
    script: Script<'_>,
) -> Result<bool> {
    match kind {
        "book" => repository_calls::run_book::<Repository<1_000_000>, _>(rt, script),
        "full_book" => repository_calls::run_book::<Repository<2>, _>(rt, script),
        "repository" => repository_calls::run_repository::<Repository<1_000_000>, _>(rt, script),
        "full_repository" => repository_calls::run_repository::<Repository<2>, _>(rt, script),
        "desk" => repository_calls::run_desk::<Repository<1_000_000>, _>(rt, script),
        "full_desk" => repository_calls::run_desk::<Repository<2>, _>(rt, script),
        "copies" => repository_calls::run_copies::<Repository<1_000_000>, _>(rt, script),
        "states" => states::run_states(rt, script),
        "operator" => repository_calls::run_operator::<Repository<1_000_000>, _>(rt, script),
        "world" => repository_calls::run_world::<Repository<1_000_000>, _>(rt, script),
        _ => run_other(rt, kind, script),
    }
}

/// Runs the lines of a script for another object, or for none.
fn run_other<R: Wait + Print + AllocGlobal>(
    rt: &R,
    kind: &str,
    script: Script<'_>,
) -> Result<bool> {
    match kind {
        "events" => repository_calls::run_events::<Repository<1_000_000>, _>(rt, script),
        "catalogue" => value_calls::run_catalogue(rt, script),
        "walk" => value_calls::run_walk(rt, script),
        "commands" => program_calls::run_commands(rt, script.lines),
        "lines" => program_calls::run_lines(rt, script),
        "run_script" => program_calls::run_whole::<Repository<1_000_000>, _>(rt, script),
        "answer_script" => program_calls::answer_whole::<Repository<1_000_000>, _>(rt, script),
        _ => {
            run_values(rt, kind, script.lines)?;
            Ok(true)
        }
    }
}

fn run_kind<R: Threads + Wait + Print + AllocGlobal + Sync>(
    rt: &R,
    kind: &str,
    script: Script<'_>,
) -> Result<bool> {
    match kind {
        "pool" => program_calls::run_pools::<Repository<1_000_000>, _>(rt, script),
        "program" => programs::run_program(rt, script),
        _ => run_object(rt, kind, script),
    }
}

fn main(rt: HostRuntime) -> Result<()> {
    let word = env::args(&rt)?.nth(1);
    let name = word.as_ref().map_or(EXAMPLE, |word| word.as_str());
    let text = fs::read_to_string(&rt, name)?;
    let (head, rest) = text
        .as_str()
        .split_once('\n')
        .unwrap_or((text.as_str(), ""));
    let (kind, copies) = head.split_once(' ').unwrap_or((head, "1"));
    let (first, lines) = rest.split_once('\n').unwrap_or((rest, ""));
    let script = Script {
        first: Line::new(first),
        lines,
        copies: copies.parse::<u64>()?,
    };
    if !run_kind(&rt, kind, script)? {
        run_kind(&rt, kind, script.unmarked())?;
    }
    Ok(())
}
