ghost use Rattle.std.specs.Prelude.{◌≡◌, ◌<◌, ◌≤◌, ◌-◌, length};
ghost use Rattle.job_threads.specs.Meaning.{means_at};
ghost use Rattle.job_threads.specs.Kits.{AreWithin};
ghost use Rattle.job_threads.specs.Ports.{HasNotLooked, IsRefusal};
ghost use Rattle.job_threads.specs.Groups.{counts};
ghost use Rattle.job_threads.specs.Chunks.{Marks, StepsTo, RunsGroups, IsHeeded};

use crate::group::{Group, Trouble, read_group, write_kept};
use crate::kit::{Artifacts, Roles};
use crate::port::Port;
use crate::report::Onward;
use batch_ids::{ExecutionId, MetricStep, Moment, Refusal, Text, WorkId};
use std::alloc::Global;

/// The result of a group.
#[derive(Clone, Copy)]
pub(crate) enum Step {
    More,
    Stop,
    End,
    Fault,
}

/// The end of a chunk.
#[derive(Clone, Copy)]
pub(crate) enum Ending {
    Completed,
    Stopped,
    Failed,
    Unopened,
}

/// The chunk that runs: its work item, the number of items in a group, and the moment of its
/// reports.
#[derive(Clone, Copy)]
pub(crate) struct Chunk {
    pub(crate) work: WorkId,
    pub(crate) execution: ExecutionId,
    pub(crate) size: u32,
    pub(crate) at: Moment,
}

/// The counts of a group: items read, items left after filtering, and whether the reader ended.
#[derive(Clone, Copy)]
pub(crate) struct Tally {
    pub(crate) read: u32,
    pub(crate) kept: u32,
    pub(crate) ended: bool,
}

/// Returns the metric step of a group.
fn step_of(tally: Tally) -> MetricStep
    requires { tally.kept ≤ tally.read }
    ensures { result ≡ counts tally.read (tally.read - tally.kept) tally.kept 1 0 }
{
    let mut step = MetricStep::zero();
    step.read_count = tally.read;
    step.filter_count = tally.read - tally.kept;
    step.write_count = tally.kept;
    step.commit_count = 1;
    step
}

/// Asks the reader for its checkpoint, and reports the group.
pub(crate) fn report_group<P: Port, K: Artifacts>(
    alloc: Global,
    port: &mut P,
    kit: &mut K,
    reader: usize,
    chunk: &Chunk,
    tally: Tally,
) -> Result<Step, Refusal>
    requires within { reader < length (K.seen kit.old) }
    requires fewer { tally.kept ≤ tally.read }
    ensures marks { Marks reader chunk.now.work chunk.now.at tally.read tally.kept tally.ended
        result (K.seen kit.old) (K.seen kit.new) (P.reports port.old) (P.reports port.new) }
    ensures stops { HasNotLooked (P.stops port.old) (P.stops port.new) }
    ensures refused { IsRefusal result (P.refused port.old) (P.refused port.new) }
{
    match kit.checkpoint(reader) {
        Err(_) => Ok(Step::Fault),
        Ok(mark) => {
            if mark.len() > 65_536 {
                return Ok(Step::Fault);
            }
            match Text::within(alloc, mark.as_str()) {
                Err(refused) => Err(Refusal::from(refused)),
                Ok(mark) => match port.checkpoint(chunk.work, mark, step_of(tally), chunk.at) {
                    Err(refusal) => Err(refusal),
                    Ok(Onward::StopAsked) => Ok(Step::Stop),
                    Ok(Onward::Go) => {
                        if tally.ended {
                            Ok(Step::End)
                        } else {
                            Ok(Step::More)
                        }
                    }
                },
            }
        }
    }
}

/// Reads, processes, writes and reports a group.
pub(crate) fn run_group<P: Port, K: Artifacts>(
    alloc: Global,
    port: &mut P,
    kit: &mut K,
    roles: Roles,
    chunk: &Chunk,
) -> Result<Step, Refusal>
    requires within { AreWithin roles (K.seen kit.old) }
    requires size { 0 < chunk.now.size }
    ensures steps { StepsTo roles chunk.now.size chunk.now.work chunk.now.at result (K.seen
        kit.old) (K.seen kit.new) (P.reports port.old) (P.reports port.new) }
    ensures stops { HasNotLooked (P.stops port.old) (P.stops port.new) }
    ensures refused { IsRefusal result (P.refused port.old) (P.refused port.new) }
{
    match read_group(alloc, kit, roles, chunk.size) {
        Err(Trouble::Fault) => Ok(Step::Fault),
        Err(Trouble::Memory) => Err(Refusal::OutOfMemory),
        Ok(group) => {
            if group.read == 0 {
                return Ok(Step::End);
            }
            match write_kept(kit, roles.writer, group.kept.as_slice()) {
                Err(_) => Ok(Step::Fault),
                Ok(()) => {
                    let tally = Tally {
                        read: group.read,
                        kept: group.kept.len() as u32,
                        ended: group.ended,
                    };
                    report_group(alloc, port, kit, roles.reader, chunk, tally)
                }
            }
        }
    }
}

/// Runs the groups until the end, a stop or a fault.
pub(crate) fn run_groups<P: Port, K: Artifacts>(
    alloc: Global,
    port: &mut P,
    kit: &mut K,
    roles: Roles,
    chunk: &Chunk,
) -> Result<Ending, Refusal>
    requires within { AreWithin roles (K.seen kit.old) }
    requires size { 0 < chunk.now.size }
    ensures groups { RunsGroups roles chunk.now.size chunk.now.work chunk.now.execution
        chunk.now.at (means_at roles.reader (K.seen kit.old)).left result (K.seen kit.old) (K.seen
        kit.new) (P.reports port.old) (P.reports port.new) (P.stops port.new) }
    ensures refused { IsRefusal result (P.refused port.old) (P.refused port.new) }
    ensures heeded { IsHeeded result (P.stops port.old) (P.stops port.new) }
{
    'groups: loop {
        if port.stop_seen(chunk.execution) {
            return Ok(Ending::Stopped);
        }
        match run_group(alloc, port, kit, roles, chunk) {
            Err(refusal) => return Err(refusal),
            Ok(Step::Stop) => return Ok(Ending::Stopped),
            Ok(Step::End) => return Ok(Ending::Completed),
            Ok(Step::Fault) => return Ok(Ending::Failed),
            Ok(Step::More) => {}
        }
    }
}
