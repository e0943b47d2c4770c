ghost use Rattle.std.specs.Prelude.{◌≡◌, ◌<◌, length, max, option_map};
ghost use Rattle.job_threads.specs.Meaning.{place_of};
ghost use Rattle.job_threads.specs.Kits.{AreWithin, IsWithin, to_read};
ghost use Rattle.job_threads.specs.Ports.{IsRefusal};
ghost use Rattle.job_threads.specs.Chunks.{RunsGroups, IsHeeded};
ghost use Rattle.job_threads.specs.Endings.{outcome_of, counts_of};
ghost use Rattle.job_threads.specs.Items.{roles_of, FoundWithin, BeginsIn, BeginsRoles, OpensRoles, RunsBegun, RunsChunk, EndsChunk, IsHeededBy, RunsOnce, RunsItem};

use crate::artifact::ArtifactFault;
use crate::chunk::{Chunk, Ending, run_groups};
use crate::kit::{Artifacts, Roles};
use crate::port::Port;
use batch_history::{WorkItem, WorkTask};
use batch_ids::{MetricStep, Moment, Refusal, T256, Text, WorkId, WorkOutcome};
use std::alloc::Global;

fn outcome(ending: Ending) -> WorkOutcome
    ensures { result ≡ outcome_of ending }
{
    match ending {
        Ending::Completed => WorkOutcome::Completed,
        Ending::Stopped => WorkOutcome::Stopped,
        Ending::Failed => WorkOutcome::Failed,
        Ending::Unopened => WorkOutcome::Failed,
    }
}

/// Returns the metric step of a chunk's end.
fn counts(ending: Ending) -> MetricStep
    ensures { result ≡ counts_of ending }
{
    let mut step = MetricStep::zero();
    match ending {
        Ending::Completed => {}
        Ending::Stopped => {}
        Ending::Failed => step.rollback_count = 1,
        Ending::Unopened => {}
    }
    step
}

/// Returns the indexes of a chunk's artifacts, if the kit has them all.
fn find_roles<K: Artifacts>(
    kit: &K,
    reader: &T256,
    processor: &Option<T256>,
    writer: &T256,
) -> Option<Roles>
    ensures roles { result ≡ roles_of reader.now processor.now writer.now (K.seen kit.now) }
    ensures within { FoundWithin result (K.seen kit.now) }
{
    match kit.find(reader.as_str()) {
        None => None,
        Some(reader) => match processor {
            None => match kit.find(writer.as_str()) {
                None => None,
                Some(writer) => Some(Roles {
                    reader,
                    processor: None,
                    writer,
                }),
            },
            Some(processor) => match kit.find(processor.as_str()) {
                None => None,
                Some(processor) => match kit.find(writer.as_str()) {
                    None => None,
                    Some(writer) => Some(Roles {
                        reader,
                        processor: Some(processor),
                        writer,
                    }),
                },
            },
        },
    }
}

/// Sets the partition of an artifact, if there is one at `place`.
fn begin_in<K: Artifacts>(
    kit: &mut K,
    place: Option<usize>,
    partition: Option<u32>,
) -> Result<(), ArtifactFault>
    requires { IsWithin place (K.seen kit.old) }
    ensures { BeginsIn partition place result (K.seen kit.old) (K.seen kit.new) }
{
    match place {
        None => Ok(()),
        Some(at) => kit.begin(at, partition),
    }
}

/// Sets the partition of the chunk's artifacts: of the reader, then the processor, then the writer.
fn begin_roles<K: Artifacts>(
    kit: &mut K,
    roles: Roles,
    partition: Option<u32>,
) -> Result<(), ArtifactFault>
    requires { AreWithin roles (K.seen kit.old) }
    ensures { BeginsRoles partition roles result (K.seen kit.old) (K.seen kit.new) }
{
    match kit.begin(roles.reader, partition) {
        Err(fault) => Err(fault),
        Ok(()) => match begin_in(kit, roles.processor, partition) {
            Err(fault) => Err(fault),
            Ok(()) => kit.begin(roles.writer, partition),
        },
    }
}

/// Opens the reader with the checkpoint, and then the writer without one.
fn open_roles<K: Artifacts>(
    kit: &mut K,
    roles: Roles,
    checkpoint: Option<&str>,
) -> Result<(), ArtifactFault>
    requires { AreWithin roles (K.seen kit.old) }
    ensures { OpensRoles (option_map (λ s. s.now) checkpoint.entry) roles result (K.seen kit.old)
        (K.seen kit.new) }
{
    match kit.open(roles.reader, checkpoint) {
        Err(fault) => Err(fault),
        Ok(()) => kit.open(roles.writer, None),
    }
}

/// Opens a chunk's artifacts, and runs its groups.
fn run_opened<P: Port, K: Artifacts>(
    alloc: Global,
    port: &mut P,
    kit: &mut K,
    roles: Roles,
    checkpoint: Option<&str>,
    chunk: &Chunk,
) -> Result<Ending, Refusal>
    requires within { AreWithin roles (K.seen kit.old) }
    requires size { 0 < chunk.now.size }
    ensures groups { RunsGroups roles chunk.now.size chunk.now.work chunk.now.execution chunk.now.at
        (to_read (option_map (λ s. s.now) checkpoint.entry) roles (K.seen kit.old)) result (K.seen
        kit.old) (K.seen kit.new) (P.reports port.old) (P.reports port.new) (P.stops port.new) }
    ensures refused { IsRefusal result (P.refused port.old) (P.refused port.new) }
    ensures heeded { IsHeeded result (P.stops port.old) (P.stops port.new) }
{
    match open_roles(kit, roles, checkpoint) {
        Err(_) => Ok(Ending::Unopened),
        Ok(()) => run_groups(alloc, port, kit, roles, chunk),
    }
}

/// Runs a chunk without finishing it.
fn run_chunk<P: Port, K: Artifacts>(
    alloc: Global,
    port: &mut P,
    kit: &mut K,
    roles: Option<Roles>,
    partition: Option<u32>,
    checkpoint: Option<&str>,
    chunk: &Chunk,
) -> Result<Ending, Refusal>
    requires within { FoundWithin roles (K.seen kit.old) }
    requires size { 0 < chunk.now.size }
    ensures chunk { RunsChunk partition roles chunk.now.size chunk.now.work chunk.now.execution
        chunk.now.at (option_map (λ s. s.now) checkpoint.entry) result (K.seen kit.old) (K.seen
        kit.new) (P.reports port.old) (P.reports port.new) (P.stops port.new) }
    ensures refused { IsRefusal result (P.refused port.old) (P.refused port.new) }
    ensures heeded { IsHeeded result (P.stops port.old) (P.stops port.new) }
{
    match roles {
        None => Ok(Ending::Unopened),
        Some(roles) => match begin_roles(kit, roles, partition) {
            Err(_) => Ok(Ending::Unopened),
            Ok(()) => run_opened(alloc, port, kit, roles, checkpoint, chunk),
        },
    }
}

/// Runs a chunk, and finishes it.
fn end_chunk<P: Port, K: Artifacts>(
    alloc: Global,
    port: &mut P,
    kit: &mut K,
    roles: Option<Roles>,
    partition: Option<u32>,
    checkpoint: Option<&str>,
    chunk: &Chunk,
) -> Result<WorkOutcome, Refusal>
    requires within { FoundWithin roles (K.seen kit.old) }
    requires size { 0 < chunk.now.size }
    ensures chunk { EndsChunk partition roles chunk.now.size chunk.now.work chunk.now.execution
        chunk.now.at (option_map (λ s. s.now) checkpoint.entry) result (K.seen kit.old) (K.seen
        kit.new) (P.reports port.old) (P.reports port.new) (P.stops port.new) }
    ensures refused { IsRefusal result (P.refused port.old) (P.refused port.new) }
    ensures heeded { IsHeededBy result (P.stops port.old) (P.stops port.new) }
{
    match run_chunk(alloc, port, kit, roles, partition, checkpoint, chunk) {
        Err(refusal) => Err(refusal),
        Ok(ending) => match port.finish(
            chunk.work,
            outcome(ending),
            None,
            counts(ending),
            chunk.at,
        ) {
            Err(refusal) => Err(refusal),
            Ok(()) => Ok(outcome(ending)),
        },
    }
}

/// Sets the partition of a batchlet or decider, and runs it.
fn run_begun<K: Artifacts>(
    kit: &mut K,
    place: usize,
    partition: Option<u32>,
) -> Result<Option<T256>, ArtifactFault>
    requires { place < length (K.seen kit.old) }
    ensures { RunsBegun partition place result (K.seen kit.old) (K.seen kit.new) }
{
    match kit.begin(place, partition) {
        Err(fault) => Err(fault),
        Ok(()) => kit.run(place),
    }
}

/// Runs a batchlet or a decider, and finishes it.
fn run_once<P: Port, K: Artifacts>(
    port: &mut P,
    kit: &mut K,
    artifact: &T256,
    partition: Option<u32>,
    work: WorkId,
    at: Moment,
) -> Result<WorkOutcome, Refusal>
    ensures once { RunsOnce partition (place_of artifact.now (K.seen kit.old)) work at result (K.seen
        kit.old) (K.seen kit.new) (P.reports port.old) (P.reports port.new) }
    ensures refused { IsRefusal result (P.refused port.old) (P.refused port.new) }
    ensures heeded { IsHeededBy result (P.stops port.old) (P.stops port.new) }
{
    match kit.find(artifact.as_str()) {
        None => match port.finish(work, WorkOutcome::Failed, None, MetricStep::zero(), at) {
            Err(refusal) => Err(refusal),
            Ok(()) => Ok(WorkOutcome::Failed),
        },
        Some(place) => match run_begun(kit, place, partition) {
            Err(_) => match port.finish(work, WorkOutcome::Failed, None, MetricStep::zero(), at) {
                Err(refusal) => Err(refusal),
                Ok(()) => Ok(WorkOutcome::Failed),
            },
            Ok(exit) => match port.finish(
                work,
                WorkOutcome::Completed,
                exit,
                MetricStep::zero(),
                at,
            ) {
                Err(refusal) => Err(refusal),
                Ok(()) => Ok(WorkOutcome::Completed),
            },
        },
    }
}

/// Returns the text of a checkpoint.
fn text_of(checkpoint: &Option<Text<65536>>) -> Option<&str>
    ensures { option_map (λ s. s.now) result ≡ checkpoint.now }
{
    match checkpoint {
        None => None,
        Some(text) => Some(text.as_str()),
    }
}

/// Runs a work item with the artifacts of a kit, reports its groups at this moment, and finishes
/// it. See Jakarta Batch 2.1, "Chunk Processing" and "Batchlet".
///
/// A batchlet or decision is COMPLETED with the exit status of its artifact. It is FAILED if the
/// kit lacks the name or the artifact faults.
///
/// A chunk reads, processes, writes and reports group by group:
///
/// - It is COMPLETED at the reader's end.
/// - It is STOPPED if the reply to a report asks for a stop, or if the port sees one.
/// - It is FAILED with ROLLBACK_COUNT 1 after a fault or a checkpoint above 65,536 bytes.
/// - It is FAILED without a count after a fault of `begin` or `open`, or if the kit lacks a name.
///
/// # Errors
///
/// Returns the first refusal of a report, or `OutOfMemory` if memory is refused. Earlier reports
/// stay, and the work item is still running.
pub fn run_item<P: Port, K: Artifacts>(
    alloc: Global,
    port: &mut P,
    kit: &mut K,
    item: &WorkItem,
    at: Moment,
) -> Result<WorkOutcome, Refusal>
    ensures item { RunsItem item.now at item.now.task result (K.seen kit.old) (K.seen kit.new)
        (P.reports port.old) (P.reports port.new) (P.stops port.new) }
    ensures refused { IsRefusal result (P.refused port.old) (P.refused port.new) }
    ensures heeded { IsHeededBy result (P.stops port.old) (P.stops port.new) }
{
    match &item.task {
        WorkTask::Batchlet { artifact } => {
            run_once(port, kit, artifact, item.partition, item.work, at)
        }
        WorkTask::Decision { artifact } => {
            run_once(port, kit, artifact, item.partition, item.work, at)
        }
        WorkTask::Chunk {
            reader,
            processor,
            writer,
            item_count,
            checkpoint,
        } => {
            let roles = find_roles(kit, reader, processor, writer);
            let chunk = Chunk {
                work: item.work,
                execution: item.execution,
                size: (*item_count).max(1),
                at,
            };
            end_chunk(
                alloc,
                port,
                kit,
                roles,
                item.partition,
                text_of(checkpoint),
                &chunk,
            )
        }
    }
}
