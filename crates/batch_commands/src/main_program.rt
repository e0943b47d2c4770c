ghost use Rattle.std.specs.Prelude.{◌≡◌, ◌≢◌, ◌≤◌, ◌⊎◌, [], map};
ghost use Rattle.std.specs.IoError.{error_kind};
ghost use Rattle.script_lines.specs.Tape.{nothing_past, told_by, held_by};
ghost use Rattle.script_engine.specs.Ran.{Ran};
ghost use Rattle.batch_commands.specs.Asked.{AsksForFile};
ghost use Rattle.batch_commands.specs.Commands.{IsShown};
ghost use Rattle.batch_commands.specs.Checks.{HasChecked};
ghost use Rattle.batch_commands.specs.Runs.{HasRun};
ghost use Rattle.batch_commands.specs.Devices.{Devices, devices};
ghost use Rattle.batch_commands.specs.Statuses.{exit_status, IsServed, IsServedWithFiles, IsFileCheck};

use crate::asked::Arguments;
use crate::check::check_first;
use crate::command_line::{arguments, file_to_check};
use crate::logged::serve_logged;
use crate::run::run_jobs;
use crate::sink_writer::SinkWriter;
use batch_service::run_script;
use clap::error::Error;
use file_host::{Disk, NoDisk, SystemDisk};
use script_engine::{Counted, EngineFault, Sink, Source};
use std::alloc::Global;
use std::fs::{File, Files};
use std::io;
use std::io::{ErrorKind, Read, Write};
use std::sync::Wait;
use std::thread::Threads;

/// The exit status of success, also of a request for help.
pub const DONE: u8 = 0;

/// The exit status if the command line is refused.
pub const REFUSED: u8 = 2;

/// The exit status if the catalogue is refused.
pub const FAULTY_CATALOGUE: u8 = 3;

/// The exit status if a read or a write failed.
pub const DEVICE_FAILED: u8 = 4;

/// The exit status if memory was refused.
pub const OUT_OF_MEMORY: u8 = 5;

/// The exit status if the file of a log failed.
pub const LOG_FAILED: u8 = 6;

/// The exit status if a log is refused.
pub const LOG_REFUSED: u8 = 7;

// A failure to write to standard error is ignored, because the exit status has the same
// information.
pub(crate) fn tell<F: Write>(faults: &mut F, text: &str) {
    let _ = writeln!(faults, "{text}");
}

/// Writes the reason why the words of the command line couldn't be read, and returns the exit
/// status. It is 5 if memory was refused, and otherwise 2, because a word isn't UTF-8.
pub fn refuse_words<F: Write>(error: &io::Error, faults: &mut F) -> u8
    ensures memory { error_kind error.now ≡ ErrorKind.OutOfMemory → result ≡ OUT_OF_MEMORY }
    ensures other { error_kind error.now ≢ ErrorKind.OutOfMemory → result ≡ REFUSED }
{
    if matches!(error.kind(), ErrorKind::OutOfMemory) {
        tell(faults, "batchctl: out of memory");
        OUT_OF_MEMORY
    } else {
        tell(faults, "batchctl: a word of the command line is not UTF-8");
        REFUSED
    }
}

/// Writes the fault that ended a script or a run early, if any, and returns the exit status.
fn end<T: Drop, F: Write>(outcome: Result<T, EngineFault>, faults: &mut F) -> u8
    ensures { result ≡ exit_status outcome }
{
    match outcome {
        Ok(_) => DONE,
        Err(EngineFault::Catalogue(_)) => FAULTY_CATALOGUE,
        Err(EngineFault::Read) => {
            tell(faults, "batchctl: read fault");
            DEVICE_FAILED
        }
        Err(EngineFault::Write) => {
            tell(faults, "batchctl: write fault");
            DEVICE_FAILED
        }
        Err(EngineFault::OutOfMemory) => {
            tell(faults, "batchctl: out of memory");
            OUT_OF_MEMORY
        }
    }
}

/// Runs the jobs of a catalogue by `workers` workers, and returns the exit status.
fn serve_run<R: Threads + Wait + AllocGlobal + Sync, S: Source, W: Sink, F: Write>(
    rt: &R,
    workers: u64,
    source: &mut S,
    sink: &mut W,
    faults: &mut F,
) -> u8
    requires some { 1 ≤ workers }
    requires few { workers ≤ 16 }
    ensures { (outcome : _) × HasRun (S.tape source.old) (S.tape source.new) (W.tape sink.old) (W.tape sink.new) outcome × (result ≡ exit_status outcome) }
{
    let outcome = run_jobs(rt, workers, source, sink);
    end(outcome, faults)
}

/// Runs a script, and returns the exit status.
fn serve_script<S: Source, W: Sink, F: Write>(
    alloc: Global,
    source: &mut S,
    sink: &mut W,
    faults: &mut F,
) -> u8
    ensures { (outcome : _) × Ran (S.tape source.old) (S.tape source.new) (W.tape sink.old) (W.tape sink.new) outcome × (result ≡ exit_status outcome) }
{
    let outcome = run_script(alloc, source, sink);
    end(outcome, faults)
}

/// Checks a catalogue, and returns the exit status.
fn serve_check<S: Source, W: Sink, F: Write>(
    alloc: Global,
    source: &mut S,
    sink: &mut W,
    faults: &mut F,
) -> u8
    ensures { (outcome : _) × HasChecked (S.tape source.old) (S.tape source.new) (W.tape sink.old) (W.tape sink.new) outcome × (result ≡ exit_status outcome) }
{
    let outcome = check_first(alloc, source, sink);
    end(outcome, faults)
}

/// Says that there is no file to read, and returns the exit status.
fn refuse_file<F: Write>(faults: &mut F) -> u8
    ensures { result ≡ DEVICE_FAILED }
{
    tell(faults, "batchctl: read fault");
    DEVICE_FAILED
}

/// Writes the text that the words asked for, and returns the exit status.
fn tell_text<W: Sink, F: Write>(error: &Error, sink: &mut W, faults: &mut F) -> u8
    ensures { (result ≡ DONE) ⊎ (result ≡ DEVICE_FAILED) }
{
    let mut writer = SinkWriter { sink };
    let told = write!(writer, "{error}");
    drop(writer);
    match told {
        Ok(()) => DONE,
        Err(_) => {
            tell(faults, "batchctl: write fault");
            DEVICE_FAILED
        }
    }
}

/// Writes the reason why the words were refused, or the text that they asked for, and returns the
/// exit status.
fn tell_words<W: Sink, F: Write>(error: &Error, sink: &mut W, faults: &mut F) -> u8
    ensures { ((result ≡ REFUSED) × (W.tape sink.new ≡ W.tape sink.old)) ⊎ (((result ≡ DONE) ⊎ (result ≡ DEVICE_FAILED)) × IsShown error.now) }
{
    if error.use_stderr() {
        let _ = write!(faults, "{error}");
        return REFUSED;
    }
    tell_text(error, sink, faults)
}

/// Runs the command that the words ask for, over a disk, a reader and a writer that have made no
/// call yet. Returns the exit status ([`program_with_files`]), and the disk and the writer as the calls left
/// them.
pub fn serve<
    R: Threads + Wait + AllocGlobal + Sync,
    D: Disk + Drop,
    S: Source,
    W: Sink + Drop,
    F: Write,
>(rt: &R, disk: D, words: &[&str], source: &mut S, sink: W, faults: &mut F) -> (u8, D, W)
    requires fresh_disk { D.past disk ≡ [] }
    requires fresh_sink { (W.tape sink).bytes ≡ [] }
    ensures { IsServed (map (λ word. word.now) words.now) (devices (S.tape source.old) (W.tape sink) (D.past disk))
        (devices (S.tape source.new) (W.tape result.2) (D.past result.1)) result.0 }
{
    let alloc = rt.alloc();
    let mut sink = sink;
    match arguments(alloc, words) {
        Ok(Arguments::Script) => {
            let status = serve_script(alloc, source, &mut sink, faults);
            (status, disk, sink)
        }
        Ok(Arguments::LoggedScript { log, tags, compact }) => {
            serve_logged(alloc, disk, log, tags, compact, source, sink, faults)
        }
        Ok(Arguments::Run { workers }) => {
            let status = serve_run(rt, workers, source, &mut sink, faults);
            (status, disk, sink)
        }
        Ok(Arguments::Check { file: None }) => {
            let status = serve_check(alloc, source, &mut sink, faults);
            (status, disk, sink)
        }
        Ok(Arguments::Check { file: Some(_) }) => {
            let status = refuse_file(faults);
            (status, disk, sink)
        }
        Err(error) => {
            let status = tell_words(&error, &mut sink, faults);
            drop(error);
            (status, disk, sink)
        }
    }
}

// Runs the program over a disk that has made no call yet.
fn program_over<
    R: Threads + Wait + AllocGlobal + Sync,
    K: Disk + Drop,
    D: Read + Drop,
    W: Write + Drop,
    F: Write,
>(rt: &R, disk: K, words: &[&str], reader: D, writer: W, faults: &mut F) -> u8
    requires fresh_disk { K.past disk ≡ [] }
    ensures { (after : Devices) × IsServed (map (λ word. word.now) words.now)
        (devices (told_by nothing_past (D.remaining reader)) (held_by nothing_past (W.contents writer)) []) after result }
{
    let mut source = Counted::new(reader);
    let sink = Counted::new(writer);
    let (status, disk, sink) = serve(rt, disk, words, &mut source, sink, faults);
    drop(source);
    drop(disk);
    drop(sink);
    status
}

/// Runs the program on the words that follow its name, and returns the exit status:
///
/// - 0: success, also after a request for help, whose text is written to `writer`
/// - 2: the command line was refused
/// - 3: the catalogue was refused, and the line of its fault is written to `writer`
/// - 4: a read or a write failed
/// - 5: memory was refused
/// - 6: the words ask for a log. It has no files: [`program_with_files`] opens logs
///
/// A file to check can't be read either: that is status 4.
///
/// The text for standard error is written to `faults`.
pub fn program<R: Threads + Wait + AllocGlobal + Sync, D: Read + Drop, W: Write + Drop, F: Write>(
    rt: &R,
    words: &[&str],
    reader: D,
    writer: W,
    faults: &mut F,
) -> u8
    ensures { (after : Devices) × IsServed (map (λ word. word.now) words.now)
        (devices (told_by nothing_past (D.remaining reader)) (held_by nothing_past (W.contents writer)) []) after result }
{
    program_over(rt, NoDisk::new(), words, reader, writer, faults)
}

// Checks a file, as if it were the standard input.
fn check_file<
    R: Threads + Wait + AllocGlobal + Files<File = File> + Sync,
    K: Disk + Drop,
    W: Write + Drop,
    F: Write,
>(rt: &R, disk: K, words: &[&str], file: &str, writer: W, faults: &mut F) -> u8
    requires fresh_disk { K.past disk ≡ [] }
    requires asked { AsksForFile file.now (map (λ word. word.now) words.now) }
    ensures { IsFileCheck (map (λ word. word.now) words.now) (held_by nothing_past (W.contents writer)) result }
{
    match File::open(rt, file) {
        Ok(opened) => program_over(rt, disk, &["check"], opened, writer, faults),
        Err(_) => refuse_file(faults),
    }
}

/// Runs the program with the files of the runtime, as [`program`] does without them, and returns
/// the exit status:
///
/// - 0 to 5: as [`program`]
/// - 6: the file of a log failed
/// - 7: a log was refused, and the line of its fault is written to `writer`
///
/// A file to check is read in place of `reader`. The status is 4 if it can't be opened.
///
/// The text for standard error is written to `faults`.
pub fn program_with_files<
    R: Threads + Wait + AllocGlobal + Files<File = File> + Sync,
    D: Read + Drop,
    W: Write + Drop,
    F: Write,
>(rt: &R, words: &[&str], reader: D, writer: W, faults: &mut F) -> u8
    ensures { IsServedWithFiles (map (λ word. word.now) words.now)
        (told_by nothing_past (D.remaining reader)) (held_by nothing_past (W.contents writer)) result }
{
    let disk = SystemDisk::new(rt, rt.alloc());
    match file_to_check(words) {
        Some(file) => check_file(rt, disk, words, file, writer, faults),
        None => program_over(rt, disk, words, reader, writer, faults),
    }
}
