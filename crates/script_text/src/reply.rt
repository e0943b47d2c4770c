ghost use Rattle.std.specs.Prelude.{◌≡◌, true, Some, IfOk, OnOk};
ghost use Rattle.serde_json.specs.Data.{object};
ghost use Rattle.script_text.specs.Replies.{item_data, single_members, task_members, with_partition, reply_data, reply_text, bad_line_text};
ghost use Rattle.script_text.specs.Telling.{Adds, is_chunk};

use crate::objects::{Shown, text_or_null};
use crate::telling::{Told, line_from, new_line, tell_object, tell_one, tell_refused, tell_true};
use batch_history::{Reply, WorkItem, WorkTask};
use batch_ids::{OutOfMemory, Refusal, T256};
use json::Writer;
use std::alloc::Global;

/// Writes the line of the reply to a call, with its line feed. It is compact JSON, the members of
/// each object in rising order of their names.
///
/// It is `{"execution":N}`, `{"work":{..}}`, `{"closed":N}`, `{"nothing":true}`, `{"done":true}`,
/// `{"go":true}`, `{"stop":true}` or `{"refused":NAME}`.
///
/// A work item has the members `element`, `execution`, `kind` and `work`. For a batchlet or a
/// decision it also has `ref`. For a chunk it also has `checkpoint` and `processor` (null for
/// none), `item-count`, `reader` and `writer`. For a partitioned step it also has `partition`.
///
/// # Errors
///
/// Returns `OutOfMemory` if memory is refused.
pub fn reply_text(alloc: Global, reply: &Result<Reply, Refusal>) -> Result<Vec<u8>, OutOfMemory>
    ensures { IfOk result (λ text. text.items ≡ reply_text reply.now) }
{
    let mut out = new_line(alloc)?;
    tell_reply(&mut out, reply)?;
    line_from(out)
}

/// Writes the line of the reply to a line that is no command.
///
/// # Errors
///
/// Returns `OutOfMemory` if memory is refused.
pub fn bad_line_text(alloc: Global) -> Result<Vec<u8>, OutOfMemory>
    ensures { IfOk result (λ text. text.items ≡ bad_line_text) }
{
    let mut out = new_line(alloc)?;
    tell_refused(&mut out, "BadLine")?;
    line_from(out)
}

fn tell_reply(out: &mut Writer, reply: &Result<Reply, Refusal>) -> Result<(), OutOfMemory>
    ensures { OnOk result (Adds (reply_data reply.now) out.old out.new) }
{
    match reply {
        Ok(Reply::Execution(execution)) => tell_one(out, "execution", execution),
        Ok(Reply::Work(item)) => tell_one(out, "work", item),
        Ok(Reply::Closed(execution)) => tell_one(out, "closed", execution),
        Ok(Reply::Nothing) => tell_true(out, "nothing"),
        Ok(Reply::Done) => tell_true(out, "done"),
        Ok(Reply::Go) => tell_true(out, "go"),
        Ok(Reply::StopAsked) => tell_true(out, "stop"),
        Err(refusal) => tell_refused(out, refusal.name()),
    }
}

impl Told for WorkItem {
    ghost told = { item_data };

    fn tell(&self, out: &mut Writer) -> Result<(), OutOfMemory> {
        match &self.task {
            WorkTask::Batchlet { artifact } => tell_single(out, "batchlet", artifact, self),
            WorkTask::Decision { artifact } => tell_single(out, "decision", artifact, self),
            WorkTask::Chunk { .. } => tell_chunk(out, self),
        }
    }
}

/// Writes a work item that runs one artifact.
fn tell_single<'a>(
    out: &mut Writer,
    kind: &'a str,
    artifact: &'a T256,
    item: &'a WorkItem,
) -> Result<(), OutOfMemory>
    ensures { OnOk result (Adds
        (object (with_partition item.now.partition (single_members kind.now artifact.now item.now)))
        out.old out.new) }
{
    match item.partition {
        None => tell_object(
            out,
            &[
                ("element", Shown::Text(item.element.as_str())),
                ("execution", Shown::Count(item.execution.value())),
                ("kind", Shown::Text(kind)),
                ("ref", Shown::Text(artifact.as_str())),
                ("work", Shown::Count(item.work.value())),
            ],
        ),
        Some(partition) => tell_object(
            out,
            &[
                ("element", Shown::Text(item.element.as_str())),
                ("execution", Shown::Count(item.execution.value())),
                ("kind", Shown::Text(kind)),
                ("partition", Shown::Count(u64::from(partition))),
                ("ref", Shown::Text(artifact.as_str())),
                ("work", Shown::Count(item.work.value())),
            ],
        ),
    }
}

/// Writes a work item of a chunk.
fn tell_chunk(out: &mut Writer, item: &WorkItem) -> Result<(), OutOfMemory>
    requires { is_chunk item.now.task ≡ true }
    ensures { OnOk result (Adds (item_data item.now) out.old out.new) }
{
    match item.partition {
        None => tell_whole_chunk(out, item),
        Some(partition) => tell_partition(out, item, partition),
    }
}

/// Writes a work item of a chunk in a step without partitions.
fn tell_whole_chunk(out: &mut Writer, item: &WorkItem) -> Result<(), OutOfMemory>
    requires { is_chunk item.now.task ≡ true }
    ensures { OnOk result (Adds (object (task_members item.now.task item.now)) out.old out.new) }
{
    let WorkTask::Chunk {
        reader,
        processor,
        writer,
        item_count,
        checkpoint,
    } = &item.task
    else {
        unreachable!()
    };
    tell_object(
        out,
        &[
            ("checkpoint", text_or_null(checkpoint)),
            ("element", Shown::Text(item.element.as_str())),
            ("execution", Shown::Count(item.execution.value())),
            ("item-count", Shown::Count(u64::from(*item_count))),
            ("kind", Shown::Text("chunk")),
            ("processor", text_or_null(processor)),
            ("reader", Shown::Text(reader.as_str())),
            ("work", Shown::Count(item.work.value())),
            ("writer", Shown::Text(writer.as_str())),
        ],
    )
}

/// Writes a work item of a chunk in this partition of a step.
fn tell_partition(out: &mut Writer, item: &WorkItem, partition: u32) -> Result<(), OutOfMemory>
    requires { is_chunk item.now.task ≡ true }
    ensures { OnOk result (Adds
        (object (with_partition (Some partition) (task_members item.now.task item.now)))
        out.old out.new) }
{
    let WorkTask::Chunk {
        reader,
        processor,
        writer,
        item_count,
        checkpoint,
    } = &item.task
    else {
        unreachable!()
    };
    tell_object(
        out,
        &[
            ("checkpoint", text_or_null(checkpoint)),
            ("element", Shown::Text(item.element.as_str())),
            ("execution", Shown::Count(item.execution.value())),
            ("item-count", Shown::Count(u64::from(*item_count))),
            ("kind", Shown::Text("chunk")),
            ("partition", Shown::Count(u64::from(partition))),
            ("processor", text_or_null(processor)),
            ("reader", Shown::Text(reader.as_str())),
            ("work", Shown::Count(item.work.value())),
            ("writer", Shown::Text(writer.as_str())),
        ],
    )
}
