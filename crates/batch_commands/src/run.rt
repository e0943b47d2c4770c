// The run of a catalogue's jobs by workers with built-in artifacts.
ghost use Rattle.std.specs.Prelude.{◌≡◌, ◌≤◌, List, ℕ, []};
ghost use Rattle.seat_rules.specs.Places.{IsLegalLog};
ghost use Rattle.script_lines.specs.Unread.{nothing_read};
ghost use Rattle.batch_commands.specs.Putting.{Puts, has_writer_failed};
ghost use Rattle.batch_commands.specs.Runs.{HasRun, IsPoolText};
ghost use Rattle.batch_commands.specs.Turns.{Runs, RunsSoFar};

use crate::executions::put_executions;
use crate::replies::{flush, put_pool, put_refusal};
use crate::starts::answer_starts;
use batch_history::WorkItem;
use batch_ids::Moment;
use batch_service::{CopyCount, Operator};
use built_in_artifacts::pool_with_built_ins;
use job_threads::Gate;
use jsl_model::Catalogue;
use script_engine::{EngineFault, OutputBuffer, Sink, Source, catalogue_in, tell_fault};
use script_lines::InputBuffer;
use seat_rules::{BookSeat, SeatTable, Site};
use sessions::Session;
use std::marker::Brand;
use std::sync::Wait;
use std::thread;
use std::thread::Threads;

/// A host that lets other threads run if a worker finds no work. Every moment is 0.
struct Host;

impl Gate for Host {
    fn before(&self, _worker: u64, _item: &WorkItem) {}

    fn idle(&self, _worker: u64) {
        thread::yield_now();
    }

    fn now(&self) -> Moment {
        0
    }
}

/// Starts the jobs that the lines name, runs them by a pool, and adds a line for each job
/// execution. `names` are the artifacts that the catalogue names.
fn run_over<N: Site + Send + Sync, R: Threads + Wait + AllocGlobal + Sync, S: Source, W: Sink>(
    rt: &R,
    workers: u64,
    input: &mut InputBuffer,
    source: &mut S,
    output: &mut OutputBuffer,
    writer: &mut W,
    names: &[&str],
    table: SeatTable,
    seat: BookSeat,
    catalogue: Catalogue,
) -> Result<(), EngineFault>
    requires some { 1 ≤ workers }
    requires few { workers ≤ 16 }
    requires table { table ≡ N.place }
    requires seat { seat ≡ N.place.table }
    requires catalogue { catalogue ≡ N.place.catalogue }
    ensures { Runs N.place.catalogue (S.tape source.old) (S.tape source.new) input.old input.new (W.tape writer.old) output.old (W.tape writer.new) output.new result }
{
    let Some(copies) = CopyCount::new(1) else {
        unreachable!();
    };
    let operator = Operator::<N>::new(rt.alloc(), table, seat, catalogue, copies)?;
    let ran = run_on(rt, workers, input, source, output, writer, &operator, names);
    operator.close();
    ran
}

/// Does the work of `run_over` on an operator.
fn run_on<N: Site + Send + Sync, R: Threads + Wait + AllocGlobal + Sync, S: Source, W: Sink>(
    rt: &R,
    workers: u64,
    input: &mut InputBuffer,
    source: &mut S,
    output: &mut OutputBuffer,
    writer: &mut W,
    operator: &Operator<N>,
    names: &[&str],
) -> Result<(), EngineFault>
    requires some { 1 ≤ workers }
    requires few { workers ≤ 16 }
    ensures { Runs N.place.catalogue (S.tape source.old) (S.tape source.new) input.old input.new (W.tape writer.old) output.old (W.tape writer.new) output.new result }
{
    match operator.open_session(rt) {
        Ok(session) => {
            let mut session = session;
            let ran = run_in(
                rt,
                workers,
                input,
                source,
                output,
                writer,
                operator,
                &mut session,
                names,
            );
            drop(session);
            ran
        }
        Err(refusal) => put_refusal(rt.alloc(), refusal, output, writer),
    }
}

/// Does the work of `run_over` in a session.
fn run_in<N: Site + Send + Sync, R: Threads + Wait + AllocGlobal + Sync, S: Source, W: Sink>(
    rt: &R,
    workers: u64,
    input: &mut InputBuffer,
    source: &mut S,
    output: &mut OutputBuffer,
    writer: &mut W,
    operator: &Operator<N>,
    session: &mut Session<N>,
    names: &[&str],
) -> Result<(), EngineFault>
    requires some { 1 ≤ workers }
    requires few { workers ≤ 16 }
    requires legal { IsLegalLog N.place.catalogue session.old.seen }
    ensures { Runs N.place.catalogue (S.tape source.old) (S.tape source.new) input.old input.new (W.tape writer.old) output.old (W.tape writer.new) output.new result }
{
    let started = answer_starts(rt, operator, session, input, source, output, writer)?;
    flush(output, writer)?;
    run_pool(rt, workers, output, writer, operator, names)?;
    put_executions(rt, operator, session, started, output, writer)
}

/// Runs the started jobs by a pool, and adds the line of its refusal, if it has one.
fn run_pool<N: Site + Send + Sync, R: Threads + Wait + AllocGlobal + Sync, W: Sink>(
    rt: &R,
    workers: u64,
    output: &mut OutputBuffer,
    writer: &mut W,
    operator: &Operator<N>,
    names: &[&str],
) -> Result<(), EngineFault>
    requires some { 1 ≤ workers }
    requires few { workers ≤ 16 }
    ensures { (text : List ℕ) × IsPoolText text × Puts (W.tape writer.old) output.old (W.tape writer.new) output.new text result }
{
    let ran = pool_with_built_ins(rt, rt.alloc(), operator, names, workers, &Host);
    put_pool(rt.alloc(), ran, output, writer)
}

/// Runs the jobs of a catalogue, with the names of its artifacts.
fn run_catalogue<R: Threads + Wait + AllocGlobal + Sync, S: Source, W: Sink>(
    rt: &R,
    workers: u64,
    input: &mut InputBuffer,
    source: &mut S,
    output: &mut OutputBuffer,
    writer: &mut W,
    names: &[&str],
    catalogue: Catalogue,
) -> Result<(), EngineFault>
    requires some { 1 ≤ workers }
    requires few { workers ≤ 16 }
    ensures { Runs catalogue (S.tape source.old) (S.tape source.new) input.old input.new (W.tape writer.old) output.old (W.tape writer.new) output.new result }
{
    let (table, seat) = SeatTable::new(rt.alloc(), &catalogue)?;
    run_over::<Brand, R, S, W>(
        rt, workers, input, source, output, writer, names, table, seat, catalogue,
    )
}

/// Runs the jobs of a catalogue.
fn run_jobs_of<R: Threads + Wait + AllocGlobal + Sync, S: Source, W: Sink>(
    rt: &R,
    workers: u64,
    input: &mut InputBuffer,
    source: &mut S,
    output: &mut OutputBuffer,
    writer: &mut W,
    catalogue: &Catalogue,
) -> Result<(), EngineFault>
    requires some { 1 ≤ workers }
    requires few { workers ≤ 16 }
    ensures { Runs catalogue.now (S.tape source.old) (S.tape source.new) input.old input.new (W.tape writer.old) output.old (W.tape writer.new) output.new result }
{
    let names = catalogue.artifacts()?;
    run_catalogue(
        rt,
        workers,
        input,
        source,
        output,
        writer,
        names.as_slice(),
        catalogue.try_clone()?,
    )
}

/// Runs the jobs that the lines ask for, of which the first is the catalogue. The last replies stay
/// in their buffer.
fn run_lines<R: Threads + Wait + AllocGlobal + Sync, S: Source, W: Sink>(
    rt: &R,
    workers: u64,
    input: &mut InputBuffer,
    source: &mut S,
    output: &mut OutputBuffer,
    writer: &mut W,
) -> Result<(), EngineFault>
    requires some { 1 ≤ workers }
    requires few { workers ≤ 16 }
    requires unread { input.old ≡ nothing_read }
    ensures { RunsSoFar (S.tape source.old) (S.tape source.new) (W.tape writer.old) output.old (W.tape writer.new) output.new result }
{
    let first = input.line_alone(source)?;
    let read = catalogue_in(rt.alloc(), &first);
    drop(first);
    match read {
        Ok(catalogue) => {
            let ran = run_jobs_of(rt, workers, input, source, output, writer, &catalogue);
            drop(catalogue);
            ran
        }
        Err(fault) => Err(tell_fault(rt.alloc(), output, writer, fault)),
    }
}

/// Runs the jobs that the lines of a reader ask for. The last replies stay in their buffer.
fn run_source<R: Threads + Wait + AllocGlobal + Sync, S: Source, W: Sink>(
    rt: &R,
    workers: u64,
    source: &mut S,
    output: &mut OutputBuffer,
    writer: &mut W,
) -> Result<(), EngineFault>
    requires some { 1 ≤ workers }
    requires few { workers ≤ 16 }
    ensures { RunsSoFar (S.tape source.old) (S.tape source.new) (W.tape writer.old) output.old (W.tape writer.new) output.new result }
{
    let mut input = InputBuffer::new(rt.alloc())?;
    let ran = run_lines(rt, workers, &mut input, source, output, writer);
    drop(input);
    ran
}

/// Checks whether a failure of the writer ended a run.
fn has_writer_failed(outcome: &Result<(), EngineFault>) -> bool
    ensures { result ≡ has_writer_failed outcome.now }
{
    match outcome {
        Ok(()) => false,
        Err(EngineFault::Write) => true,
        Err(_) => false,
    }
}

/// Runs the jobs that the lines of a reader ask for, and writes the last replies, unless the writer
/// has failed.
fn run_to_end<R: Threads + Wait + AllocGlobal + Sync, S: Source, W: Sink>(
    rt: &R,
    workers: u64,
    source: &mut S,
    output: &mut OutputBuffer,
    writer: &mut W,
) -> Result<(), EngineFault>
    requires some { 1 ≤ workers }
    requires few { workers ≤ 16 }
    requires nothing_waits { output.old ≡ [] }
    ensures { HasRun (S.tape source.old) (S.tape source.new) (W.tape writer.old) (W.tape writer.new) result }
{
    let outcome = run_source(rt, workers, source, output, writer);
    if has_writer_failed(&outcome) {
        return outcome;
    }
    flush(output, writer)?;
    outcome
}

/// Runs a catalogue's jobs by 1 to 16 workers with built-in artifacts.
///
/// The first line of `source` is the catalogue. Each later line that isn't empty starts a job, at
/// moment 0, and has one reply line. After the reader's end, the workers run the started jobs. Then
/// one line is written for each job execution, in ascending order of their numbers. If the pool
/// returns a refusal, its line precedes those.
///
/// # Errors
///
/// - `Catalogue` if the first line is no catalogue. The line of its fault is the only output.
/// - `Read` if the reader failed, or was called 2^40 times. The replies to the lines before were
///   written, and nothing is run.
/// - `Write` if the writer failed.
/// - `OutOfMemory` if memory was refused.
pub fn run_jobs<R: Threads + Wait + AllocGlobal + Sync, S: Source, W: Sink>(
    rt: &R,
    workers: u64,
    source: &mut S,
    writer: &mut W,
) -> Result<(), EngineFault>
    requires some { 1 ≤ workers }
    requires few { workers ≤ 16 }
    ensures { HasRun (S.tape source.old) (S.tape source.new) (W.tape writer.old) (W.tape writer.new) result }
{
    let mut output = OutputBuffer::new(rt.alloc())?;
    let outcome = run_to_end(rt, workers, source, &mut output, writer);
    drop(output);
    outcome
}
