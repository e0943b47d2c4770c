//! The program `batchctl`: runs a job repository from the command line.
#![tactic(auto)]

use batch_commands::{program_with_files, refuse_words};
use std::fs::{File, Files};
use std::io::{Input, Write};
use std::process::ExitCode;
use std::rt::Env;
use std::sync::Wait;
use std::thread::Threads;
use std::{env, io};

/// Returns the words of the command line, without the program's name.
fn words_of(rt: &(impl Env + AllocGlobal)) -> io::Result<Vec<String>> {
    let mut words = Vec::new(rt.alloc());
    for word in env::args(rt)?.skip(1) {
        words.push(word)?;
    }
    Ok(words)
}

/// Opens the root folder, if possible. Reads and writes of it fail.
fn open_root<R: Files<File = File>>(rt: &R) -> Option<File> {
    File::open(rt, "/").ok()
}

/// Reads the words of the command line, and runs the program on them.
fn run_words<
    R: Threads + Wait + AllocGlobal + Env + Files<File = File> + Input + Print + Sync,
    F: Write,
>(rt: &R, faults: &mut F) -> io::Result<u8> {
    let owned = words_of(rt)?;
    let mut words = Vec::new(rt.alloc());
    for word in &owned {
        words.push(word.as_str())?;
    }
    // If a standard stream is closed, the next file that is opened takes its descriptor. A folder
    // there fails as the closed stream does, but replies would overwrite a log there.
    let (input, output, others) = (open_root(rt), open_root(rt), open_root(rt));
    let status = program_with_files(rt, words.as_slice(), rt.reader(), io::writer(rt), faults);
    drop((input, output, others));
    Ok(status)
}

fn main(rt: HostRuntime) -> ExitCode {
    let mut faults = rt.stderr();
    match run_words(&rt, &mut faults) {
        Ok(status) => ExitCode::from(status),
        Err(error) => ExitCode::from(refuse_words(&error, &mut faults)),
    }
}
