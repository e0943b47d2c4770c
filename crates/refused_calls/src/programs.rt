//! The words of a command line, and the program.
use anyhow::Result;
use batch_commands::{arguments, program};
use call_lines::{Line, Made, Script, tell, tell_text};
use clap::Error;
use std::alloc::Global;
use std::sync::Wait;
use std::thread::Threads;

/// The capacity of a writer, so that it makes no requests of its own.
const ROOM: usize = 65_536;

/// Returns the words between the spaces of a line.
fn words_of<'a>(alloc: Global, line: &'a str) -> Made<Vec<&'a str>> {
    let mut words = Vec::new(alloc);
    for word in line.split(' ') {
        if !word.is_empty() {
            words.push(word)?;
        }
    }
    Ok(words)
}

/// Prints the kind of an error, its stream and its text.
fn tell_error<R: Print + AllocGlobal>(rt: &R, error: &Error) -> Result<()> {
    println!(rt;
        "{:?}, to standard error {}",
        error.kind(),
        error.use_stderr()
    )?;
    let text = format!(in rt.alloc(); "{error}")?;
    tell(rt, text)
}

/// Reads the words of a line as those of a command line.
pub(crate) fn run_arguments<R: Print + AllocGlobal>(rt: &R, line: Line<'_>) -> Result<()> {
    let words = words_of(rt.alloc(), line.text)?;
    line.mark(rt.alloc());
    let read = arguments(rt.alloc(), words.as_slice());
    line.mark(rt.alloc());
    match read {
        Ok(words) => tell(rt, words),
        Err(error) => {
            let told = tell_error(rt, &error);
            drop(error);
            told
        }
    }
}

/// Prints the exit status, and what a run wrote.
fn tell_run(rt: &impl Print, status: u8, faults: Vec<u8>, written: Vec<u8>) -> Result<()> {
    println!(rt; "status {status}")?;
    tell_text(rt, faults)?;
    tell_text(rt, written)
}

/// Runs the program on the lines of a script. Returns whether it had the memory for it.
pub(crate) fn run_program<R: Threads + Wait + Print + AllocGlobal + Sync>(
    rt: &R,
    script: Script<'_>,
) -> Result<bool> {
    let mut written = Vec::<u8>::with_capacity(rt.alloc(), ROOM)?;
    let mut faults = Vec::<u8>::with_capacity(rt.alloc(), ROOM)?;
    let bytes = script.lines.as_bytes();
    script.first.mark(rt.alloc());
    let status = program(rt, &["script"], bytes, &mut written, &mut faults);
    script.first.mark(rt.alloc());
    tell_run(rt, status, faults, written)?;
    Ok(status == 0)
}
