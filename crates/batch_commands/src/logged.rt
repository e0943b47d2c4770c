// A script over a log.
ghost use Rattle.std.specs.Prelude.{true, ◌≡◌, ◌⊎◌, [], List, ℕ, false, None, Ok, IfOk, IfErr, IsErrAnd, IsTrue, OnOk};
ghost use Rattle.std.specs.Option.{option_map};
ghost use Rattle.durable_log.specs.Logs.{records_of, IsRest};
ghost use Rattle.file_host.specs.Making.{IsOpening, IsReady as IsFileReady};
ghost use Rattle.script_engine.specs.Script.{catalogue_at};
ghost use Rattle.script_log.specs.Reading.{reading};
ghost use Rattle.script_log.specs.Runs.{history_of};
ghost use Rattle.batch_service.specs.Answering.{Answers};
ghost use Rattle.jsl_model.specs.Jobs.{JobTree};
ghost use Rattle.logged_script.specs.Compactions.{IsCompacted};
ghost use Rattle.logged_script.specs.Histories.{jobs_at, jobs_read};
ghost use Rattle.logged_script.specs.Texts.{log_fault_text};
ghost use Rattle.logged_script.specs.declared.opening.OpeningFault.TheVariants.{OutOfMemory};
ghost use Rattle.batch_commands.specs.declared.logged_fault.OverLogFault.TheVariants.{Refused};
ghost use Rattle.batch_commands.specs.Devices.{devices};
ghost use Rattle.batch_commands.specs.Logging.{AnswersOver, FailsFirst, HasBegun, HasFirst, HasName, IsBegunFrom, IsCompactedFrom, IsCutFrom, IsFaultFrom, IsLogServed, IsReady, IsReopenedFrom, IsSafe, IsUnready, PutsLine, Tells, TellsFirst, TellsUnready, getting_ready, outcome_over, over_log_exit, unready_by_file, unready_by_log};

use crate::logged_fault::OverLogFault;
use crate::main_program::DONE;
use crate::replies::{flush, put};
use batch_service::{LogRows, LogToCompact, RestoredLog, ScriptEngine};
use durable_log::{Log, SHUT};
use file_host::{Disk, FileFault, FileHost, make_anew, read_file, resume};
use jsl_model::Catalogue;
use logged_script::{
    LogFault, OpeningFault, answer_restored, catalogue_at, compacted, log_fault_text, new_log,
    restore, restore_to_compact,
};
use script_engine::{EngineFault, Line, OutputBuffer, ReadFault, Sink, Source, fault_text};
use script_lines::InputBuffer;
use script_log::RunFault;
use std::alloc::Global;
use std::io::Write;

/// Writes a line.
pub(crate) fn put_line<W: Sink>(alloc: Global, line: &[u8], sink: &mut W) -> Result<(), EngineFault>
    ensures { PutsLine (W.tape sink.old) (W.tape sink.new) line.now result }
{
    let mut output = OutputBuffer::new(alloc)?;
    put(&mut output, sink, line)?;
    flush(&mut output, sink)
}

/// Writes a fault's line, and returns the fault. Returns the fault of the writer if that fails, or
/// `OutOfMemory` if memory is refused.
fn tell_end<W: Sink>(alloc: Global, line: &[u8], end: OverLogFault, sink: &mut W) -> OverLogFault
    ensures { Tells line.now end (W.tape sink.old) (W.tape sink.new) result }
{
    match put_line(alloc, line, sink) {
        Ok(()) => end,
        Err(fault) => OverLogFault::of_engine(fault),
    }
}

/// Writes the reason why a log is refused, and returns that fault.
fn refuse<W: Sink>(alloc: Global, fault: LogFault, sink: &mut W) -> Result<(), OverLogFault>
    ensures { IsErrAnd result (Tells (log_fault_text fault) Refused (W.tape sink.old) (W.tape sink.new)) }
{
    let line = log_fault_text(alloc, fault)?;
    Err(tell_end(alloc, &line, OverLogFault::Refused, sink))
}

/// Reads the first line, which is a catalogue.
fn read_first<S: Source>(
    alloc: Global,
    input: &mut InputBuffer,
    source: &mut S,
) -> Result<(Vec<u8>, Catalogue), EngineFault>
    ensures read { IfOk result (λ first. HasFirst (S.tape source.old) (S.tape source.new) input.old input.new first.0.items first.1) }
    ensures fault { IfErr result (FailsFirst (S.tape source.old) (S.tape source.new) input.old input.new) }
{
    let line = match input.line_alone(source)? {
        Some(Line::Whole(line)) => line,
        Some(Line::TooLong) => return Err(EngineFault::Catalogue(ReadFault::NotACatalogue)),
        None => Vec::new(alloc),
    };
    match catalogue_at(alloc, &line) {
        Ok(catalogue) => Ok((line, catalogue)),
        Err(ReadFault::OutOfMemory) => Err(EngineFault::OutOfMemory),
        Err(fault) => Err(EngineFault::Catalogue(fault)),
    }
}

/// Writes the reason why there is no catalogue, and returns that fault.
fn tell_first<W: Sink>(alloc: Global, fault: EngineFault, sink: &mut W) -> Result<(), OverLogFault>
    requires { HasName fault }
    ensures { IsErrAnd result (TellsFirst fault (W.tape sink.old) (W.tape sink.new)) }
{
    if let EngineFault::Catalogue(fault) = fault {
        let line = fault_text(alloc, &fault)?;
        return Err(tell_end(alloc, &line, OverLogFault::Catalogue, sink));
    }
    Err(OverLogFault::of_engine(fault))
}

/// The reason why there is no log over which lines could be answered.
#[derive(Clone, Copy, Debug, PartialEq, Eq)]
pub(crate) enum Unready {
    /// The log is refused.
    Refused(LogFault),
    /// The file can't be opened, read or made ready.
    Failed,
    /// Memory was refused.
    OutOfMemory,
}

impl From<FileFault> for Unready {
    ghost from_gives = { λ fault unready. unready ≡ unready_by_file fault };

    fn from(fault: FileFault) -> Unready {
        match fault {
            FileFault::InUse => Unready::Refused(LogFault::InUse),
            FileFault::OutOfMemory => Unready::OutOfMemory,
            FileFault::Missing => Unready::Failed,
            FileFault::Unavailable => Unready::Failed,
        }
    }
}

impl From<OpeningFault> for Unready {
    ghost from_gives = { λ fault unready. unready ≡ unready_by_log fault };

    fn from(fault: OpeningFault) -> Unready {
        match fault {
            OpeningFault::Refused(fault) => Unready::Refused(fault),
            OpeningFault::OutOfMemory => Unready::OutOfMemory,
        }
    }
}

/// Makes a log that has only this catalogue.
fn fresh_log<const TAGS: bool>(
    alloc: Global,
    line: &[u8],
    catalogue: Catalogue,
) -> Result<RestoredLog<TAGS>, OpeningFault>
    requires { catalogue_at line.now ≡ Ok catalogue }
    ensures begun { IfOk result (λ log. IsBegunFrom TAGS None line.now (records_of log.file.bytes.items)) }
    ensures rest { IfOk result (λ log. IsRest log.file.bytes.items log.file.rest) }
    ensures answers { IfOk result (λ log. Answers TAGS log.engine (history_of (records_of log.file.bytes.items))) }
    ensures jobs { IfOk result (λ log. jobs_at (history_of (records_of log.file.bytes.items)) ≡ catalogue) }
    ensures cut { IfOk result (λ log. log.cut.items ≡ []) }
    ensures reopens { IfOk result (λ log. log.reopens ≡ false) }
    ensures fault { IfErr result (λ fault. fault ≡ OutOfMemory) }
{
    let file = new_log(alloc, line)?;
    match ScriptEngine::new(alloc, catalogue) {
        Ok(engine) => Ok(RestoredLog {
            file,
            cut: Vec::new(alloc),
            reopens: false,
            engine,
        }),
        Err(error) => Err(OpeningFault::from(error)),
    }
}

/// Restores the log that was found, or makes one that has only this catalogue.
fn find_log<const TAGS: bool>(
    alloc: Global,
    found: Option<Vec<u8>>,
    line: &[u8],
    catalogue: Catalogue,
) -> Result<RestoredLog<TAGS>, OpeningFault>
    requires { catalogue_at line.now ≡ Ok catalogue }
    ensures begun { IfOk result (λ log. IsBegunFrom TAGS (option_map (λ file. file.items) found) line.now (records_of log.file.bytes.items)) }
    ensures rest { IfOk result (λ log. IsRest log.file.bytes.items log.file.rest) }
    ensures answers { IfOk result (λ log. Answers TAGS log.engine (history_of (records_of log.file.bytes.items))) }
    ensures jobs { IfOk result (λ log. jobs_at (history_of (records_of log.file.bytes.items)) ≡ catalogue) }
    ensures cut { IfOk result (λ log. IsCutFrom (option_map (λ file. file.items) found) log.cut.items) }
    ensures reopens { IfOk result (λ log. IsTrue log.reopens → IsReopenedFrom (option_map (λ file. file.items) found) log.file.bytes.items log.file.rest.end) }
    ensures fault { IfErr result (IsFaultFrom TAGS false (option_map (λ file. file.items) found) line.now) }
{
    match found {
        Some(file) => restore::<_, LogRows, TAGS>(alloc, file, line, catalogue),
        None => fresh_log(alloc, line, catalogue),
    }
}

/// Restores the log that was found, to compact it, or makes one that has only this catalogue.
fn find_to_compact<const TAGS: bool>(
    alloc: Global,
    found: Option<Vec<u8>>,
    line: &[u8],
    catalogue: Catalogue,
) -> Result<LogToCompact<TAGS>, OpeningFault>
    requires { catalogue_at line.now ≡ Ok catalogue }
    ensures begun { IfOk result (λ made. made.is_compacted ≡ false → IsBegunFrom TAGS (option_map (λ file. file.items) found) line.now (records_of made.log.file.bytes.items)) }
    ensures compacted { IfOk result (λ made. IsTrue made.is_compacted → IsCompactedFrom TAGS (option_map (λ file. file.items) found) line.now (records_of made.log.file.bytes.items)) }
    ensures rest { IfOk result (λ made. IsRest made.log.file.bytes.items made.log.file.rest) }
    ensures answers { IfOk result (λ made. Answers TAGS made.log.engine (history_of (records_of made.log.file.bytes.items))) }
    ensures jobs { IfOk result (λ made. jobs_at (history_of (records_of made.log.file.bytes.items)) ≡ catalogue) }
    ensures cut { IfOk result (λ made. IsCutFrom (option_map (λ file. file.items) found) made.log.cut.items) }
    ensures reopens { IfOk result (λ made. IsTrue made.log.reopens → IsReopenedFrom (option_map (λ file. file.items) found) made.log.file.bytes.items made.log.file.rest.end) }
    ensures fault { IfErr result (IsFaultFrom TAGS true (option_map (λ file. file.items) found) line.now) }
{
    match found {
        Some(file) => restore_to_compact::<_, LogRows, TAGS>(alloc, file, line, catalogue),
        None => match fresh_log(alloc, line, catalogue) {
            Ok(log) => Ok(LogToCompact {
                log,
                is_compacted: false,
            }),
            Err(fault) => Err(fault),
        },
    }
}

/// Compacts a restored log. If that fails, it says so on standard error, and returns the log as it was.
fn compact_log<F: Write, const TAGS: bool>(
    alloc: Global,
    line: &[u8],
    log: RestoredLog<TAGS>,
    faults: &mut F,
) -> RestoredLog<TAGS>
    requires catalogue { (catalogue : List JobTree) × (catalogue_at line.now ≡ Ok catalogue) }
    requires jobs { jobs_at (history_of (records_of log.file.bytes.items)) ≡ jobs_read (catalogue_at line.now) }
    requires rest { IsRest log.file.bytes.items log.file.rest }
    requires answers { Answers TAGS log.engine (history_of (records_of log.file.bytes.items)) }
    ensures compacted { (result ≡ log.entry) ⊎ IsCompacted TAGS (history_of (records_of log.entry.file.bytes.items)) line.now (history_of (records_of result.file.bytes.items)) }
    ensures rest { IsRest result.file.bytes.items result.file.rest }
    ensures answers { Answers TAGS result.engine (history_of (records_of result.file.bytes.items)) }
    ensures cut { result.cut.items ≡ log.entry.cut.items }
    ensures reopens { IsTrue result.reopens → result ≡ log.entry }
{
    match compacted::<_, LogRows, TAGS>(alloc, line, &log.engine) {
        Ok(made) => {
            let RestoredLog { cut, .. } = log;
            RestoredLog {
                file: made.file,
                cut,
                reopens: false,
                engine: made.engine,
            }
        }
        Err(fault) => {
            let _ = writeln!(faults, "batchctl: the log is not compacted: {fault}");
            log
        }
    }
}

/// Restores the log that was found, or makes one that has only this catalogue, and compacts it.
fn prepare_compacted<F: Write, const TAGS: bool>(
    alloc: Global,
    found: Option<Vec<u8>>,
    line: &[u8],
    catalogue: Catalogue,
    faults: &mut F,
) -> Result<RestoredLog<TAGS>, OpeningFault>
    requires { catalogue_at line.now ≡ Ok catalogue }
    ensures begun { IfOk result (λ log. HasBegun TAGS true (option_map (λ file. file.items) found) line.now (records_of log.file.bytes.items)) }
    ensures rest { IfOk result (λ log. IsRest log.file.bytes.items log.file.rest) }
    ensures answers { IfOk result (λ log. Answers TAGS log.engine (history_of (records_of log.file.bytes.items))) }
    ensures cut { IfOk result (λ log. IsCutFrom (option_map (λ file. file.items) found) log.cut.items) }
    ensures reopens { IfOk result (λ log. IsTrue log.reopens → IsReopenedFrom (option_map (λ file. file.items) found) log.file.bytes.items log.file.rest.end) }
    ensures fault { IfErr result (IsFaultFrom TAGS true (option_map (λ file. file.items) found) line.now) }
{
    let made = find_to_compact(alloc, found, line, catalogue)?;
    let LogToCompact { log, is_compacted } = made;
    if is_compacted {
        Ok(log)
    } else {
        Ok(compact_log(alloc, line, log, faults))
    }
}

/// Restores the log that was found, or makes one that has only this catalogue. Compacts it if that is
/// asked for.
fn prepare_log<F: Write, const TAGS: bool>(
    alloc: Global,
    found: Option<Vec<u8>>,
    line: &[u8],
    catalogue: Catalogue,
    compact: bool,
    faults: &mut F,
) -> Result<RestoredLog<TAGS>, OpeningFault>
    requires { catalogue_at line.now ≡ Ok catalogue }
    ensures begun { IfOk result (λ log. HasBegun TAGS compact (option_map (λ file. file.items) found) line.now (records_of log.file.bytes.items)) }
    ensures rest { IfOk result (λ log. IsRest log.file.bytes.items log.file.rest) }
    ensures answers { IfOk result (λ log. Answers TAGS log.engine (history_of (records_of log.file.bytes.items))) }
    ensures cut { IfOk result (λ log. IsCutFrom (option_map (λ file. file.items) found) log.cut.items) }
    ensures reopens { IfOk result (λ log. IsTrue log.reopens → IsReopenedFrom (option_map (λ file. file.items) found) log.file.bytes.items log.file.rest.end) }
    ensures fault { IfErr result (IsFaultFrom TAGS compact (option_map (λ file. file.items) found) line.now) }
{
    if compact {
        prepare_compacted(alloc, found, line, catalogue, faults)
    } else {
        find_log(alloc, found, line, catalogue)
    }
}

/// Makes the file of a log ready: writes a shut gate over the seal of one that goes on, or else makes it
/// anew.
fn write_ready<D: Disk, const TAGS: bool>(
    disk: &mut D,
    name: &str,
    log: &RestoredLog<TAGS>,
) -> Result<(), FileFault>
    requires opening { IsOpening (D.past disk.old) }
    ensures ready { OnOk result (D.past disk.new ≡ getting_ready log.now.reopens name.now log.now.file.rest.end log.now.cut.items log.now.file.bytes.items (D.past disk.old)) }
    ensures any_moment { IsSafe log.now.reopens log.now.file.rest.end log.now.file.bytes.items (D.past disk.new) }
{
    if log.reopens {
        resume(disk, name, log.file.rest.end, &SHUT)
    } else {
        make_anew(disk, name, &log.cut, &log.file.bytes)
    }
}

/// Reads the log of this name, restores it, compacts it if that is asked for, and makes its file ready.
fn make_ready<D: Disk, F: Write, const TAGS: bool>(
    alloc: Global,
    disk: &mut D,
    name: &str,
    line: &[u8],
    catalogue: Catalogue,
    compact: bool,
    faults: &mut F,
) -> Result<RestoredLog<TAGS>, Unready>
    requires opening { IsOpening (D.past disk.old) }
    requires catalogue { catalogue_at line.now ≡ Ok catalogue }
    ensures ready { IfOk result (λ log. IsReady TAGS compact name.now line.now (D.past disk.old) (D.past disk.new) log.file.bytes.items) }
    ensures file { IfOk result (λ log. (name : List ℕ) × IsFileReady (D.past disk.new) name log.file.bytes.items) }
    ensures rest { IfOk result (λ log. IsRest log.file.bytes.items log.file.rest) }
    ensures answers { IfOk result (λ log. Answers TAGS log.engine (history_of (records_of log.file.bytes.items))) }
    ensures unready { IfErr result (IsUnready TAGS compact name.now line.now (D.past disk.old) (D.past disk.new)) }
{
    let found = match read_file(disk, alloc, name) {
        Ok(found) => found,
        Err(fault) => return Err(Unready::from(fault)),
    };
    let log = match prepare_log(alloc, found, line, catalogue, compact, faults) {
        Ok(log) => log,
        Err(fault) => return Err(Unready::from(fault)),
    };
    match write_ready(disk, name, &log) {
        Ok(()) => Ok(log),
        Err(fault) => {
            drop(log);
            Err(Unready::from(fault))
        }
    }
}

/// Writes the reason why there is no log, if the log is refused, and returns that fault.
fn tell_unready<W: Sink>(alloc: Global, fault: Unready, sink: &mut W) -> Result<(), OverLogFault>
    ensures { IsErrAnd result (TellsUnready fault (W.tape sink.old) (W.tape sink.new)) }
{
    match fault {
        Unready::Refused(fault) => refuse(alloc, fault, sink),
        Unready::Failed => Err(OverLogFault::Log),
        Unready::OutOfMemory => Err(OverLogFault::OutOfMemory),
    }
}

fn outcome_of(outcome: Result<(), RunFault>) -> Result<(), OverLogFault>
    ensures { result ≡ outcome_over outcome }
{
    match outcome {
        Ok(()) => Ok(()),
        Err(fault) => Err(OverLogFault::of_run(fault)),
    }
}

/// Replies to the lines after the first, over a log whose file is ready.
fn answer_in<D: Disk + Drop, S: Source, W: Sink + Drop, const TAGS: bool>(
    alloc: Global,
    input: &mut InputBuffer,
    source: &mut S,
    disk: D,
    sink: W,
    log: RestoredLog<TAGS>,
) -> (Result<(), OverLogFault>, D, W)
    requires ready { (name : List ℕ) × IsFileReady (D.past disk) name log.file.bytes.items }
    requires fresh { (W.tape sink).bytes ≡ [] }
    requires rest { IsRest log.file.bytes.items log.file.rest }
    requires answers { Answers TAGS log.engine (history_of (records_of log.file.bytes.items)) }
    ensures { AnswersOver TAGS log.entry.file.bytes.items (reading (S.tape source.old) (S.tape source.new) input.old input.new)
        (D.past disk) (D.past result.1) (W.tape result.2) result.0 }
{
    let RestoredLog {
        file,
        cut,
        engine,
        ..
    } = log;
    drop(cut);
    let host = FileHost::new(disk, sink, &file.bytes);
    let log = Log::new(alloc, host, file.rest);
    drop(file);
    let (outcome, host) = answer_restored(alloc, input, source, log, engine);
    let (disk, sink) = host.into_parts();
    (outcome_of(outcome), disk, sink)
}

/// Says on standard error where the bytes are that a crash left behind the log's end.
fn tell_cut<F: Write, const TAGS: bool>(faults: &mut F, name: &str, log: &RestoredLog<TAGS>) {
    if !log.cut.is_empty() {
        let _ = writeln!(
            faults,
            "batchctl: the bytes behind the end of the log are in {name}.cut"
        );
    }
}

/// Runs a script over a log, which is compacted first if that is asked for. With `TAGS`, its lines may
/// have tags.
fn answer_over<D: Disk + Drop, S: Source, W: Sink + Drop, F: Write, const TAGS: bool>(
    alloc: Global,
    disk: D,
    name: &str,
    compact: bool,
    source: &mut S,
    sink: W,
    faults: &mut F,
) -> (Result<(), OverLogFault>, D, W)
    requires opening { IsOpening (D.past disk) }
    requires fresh { (W.tape sink).bytes ≡ [] }
    ensures { IsLogServed TAGS compact name.now (devices (S.tape source.old) (W.tape sink) (D.past disk))
        (devices (S.tape source.new) (W.tape result.2) (D.past result.1)) result.0 }
{
    let mut disk = disk;
    let mut sink = sink;
    let mut input = match InputBuffer::new(alloc) {
        Ok(input) => input,
        Err(error) => return (Err(OverLogFault::from(error)), disk, sink),
    };
    let (line, catalogue) = match read_first(alloc, &mut input, source) {
        Ok(first) => first,
        Err(fault) => {
            let end = tell_first(alloc, fault, &mut sink);
            return (end, disk, sink);
        }
    };
    let ready = make_ready::<D, F, TAGS>(alloc, &mut disk, name, &line, catalogue, compact, faults);
    match ready {
        Ok(log) => {
            tell_cut(faults, name, &log);
            answer_in(alloc, &mut input, source, disk, sink, log)
        }
        Err(fault) => {
            let end = tell_unready(alloc, fault, &mut sink);
            (end, disk, sink)
        }
    }
}

/// Runs a script over a log. Its lines may have tags, and it is compacted first, if that is asked for.
fn answer_logged<D: Disk + Drop, S: Source, W: Sink + Drop, F: Write>(
    alloc: Global,
    disk: D,
    name: &str,
    tags: bool,
    compact: bool,
    source: &mut S,
    sink: W,
    faults: &mut F,
) -> (Result<(), OverLogFault>, D, W)
    requires opening { IsOpening (D.past disk) }
    requires fresh { (W.tape sink).bytes ≡ [] }
    ensures { IsLogServed tags compact name.now (devices (S.tape source.old) (W.tape sink) (D.past disk))
        (devices (S.tape source.new) (W.tape result.2) (D.past result.1)) result.0 }
{
    if tags {
        answer_over::<D, S, W, F, true>(alloc, disk, name, compact, source, sink, faults)
    } else {
        answer_over::<D, S, W, F, false>(alloc, disk, name, compact, source, sink, faults)
    }
}

/// Runs a script over a log, and returns the exit status, the disk and the sink.
pub(crate) fn serve_logged<D: Disk + Drop, S: Source, W: Sink + Drop, F: Write>(
    alloc: Global,
    disk: D,
    name: &str,
    tags: bool,
    compact: bool,
    source: &mut S,
    sink: W,
    faults: &mut F,
) -> (u8, D, W)
    requires opening { IsOpening (D.past disk) }
    requires fresh { (W.tape sink).bytes ≡ [] }
    ensures { (outcome : _) × IsLogServed tags compact name.now (devices (S.tape source.old) (W.tape sink) (D.past disk))
        (devices (S.tape source.new) (W.tape result.2) (D.past result.1)) outcome × (result.0 ≡ over_log_exit outcome) }
{
    let (outcome, disk, sink) = answer_logged(
        alloc, disk, name, tags, compact, source, sink, faults,
    );
    let status = match outcome {
        Ok(()) => DONE,
        Err(fault) => fault.end(faults),
    };
    (status, disk, sink)
}
