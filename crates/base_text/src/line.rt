ghost use Rattle.std.specs.Prelude.{◌≡◌, Some, None, Err, IfOk, IfErr};
ghost use Rattle.serde_json.specs.Read.{read};
ghost use Rattle.serde_json.specs.View.{view};
ghost use Rattle.lent_json.specs.Looks.{shown};
ghost use Rattle.base_text.specs.Lines.{has_job, short_line_in, base_line_in, line_in_read, base_line_of};

use crate::checkpoint::checkpoint_of;
use crate::execution::execution_of;
use crate::fault::BaseLineFault;
use crate::head::{BaseHead, head_of};
use crate::work::work_of;
use batch_history::{CheckpointRow, ExecutionRow, WorkRow};
use json_members::read_text;
use lent_json::{Look, Scratch, Unread, read_flat};
use serde_json::Value;
use simdutf8::compat::from_utf8;
use std::alloc::Global;

/// A line of a base.
#[derive(Debug, Drop)]
pub enum BaseLine {
    /// The first line.
    Head(BaseHead),
    /// The row of a job execution.
    Execution(ExecutionRow),
    /// The row of a work item.
    Work(WorkRow),
    /// The row of a checkpoint.
    Checkpoint(CheckpointRow),
}

/// Reads a line of a base, without its line feed. It is a JSON object of one of these kinds. The
/// members with `?` may be left out, and there are no others.
///
/// ```text
/// head           base: {count, execution, instance, rows, work}
/// job execution  abandoned? (a truth value, false), create, end?, execution, exit?, instance,
///                job, parameters?, plan, start?, status, stop? (a truth value, false), updated
/// plan           barred?: [step, ..], carried?: [{exit, step}, ..], from,
///                kept?: [{partition, step}, ..]
/// work item      claimer, element, end?, ended?, execution, exit?, kind (batchlet, chunk or
///                decision), metrics?, outcome? (COMPLETED, FAILED or STOPPED), partition?, start,
///                work
/// checkpoint     instance, mark, partition, step
/// ```
///
/// - The texts have at most 256 bytes: `element`, `exit`, `from`, `job` and `step`. A `mark` has at
///   most 65,536.
/// - `status` is the name of a batch status, apart from abandonment.
/// - `parameters` is an object of at most 64 texts, with keys of at most 256 bytes and values of at
///   most 4,096. `metrics` is an object of numbers by the metrics' names, each 0 if it is left out.
/// - The other members are numbers: whole, 0 to 2^64 - 1, without sign, point or exponent. A
///   `partition` is below 2^32.
/// - A work item that is over has `end`, `ended`, `exit` and `outcome`. A busy one has none of them.
///
/// A member that is null is not left out. If a member comes twice, the last one counts. The time is
/// that of reading the JSON. A line that is no job execution is read in one pass.
///
/// # Errors
///
/// - `NotABaseLine` if it is any other line.
/// - `OutOfMemory` if memory is refused.
pub fn read_base_line(alloc: Global, line: &[u8]) -> Result<BaseLine, BaseLineFault>
    ensures read { IfOk result (λ row. base_line_of line.now ≡ Some row) }
    ensures fault { IfErr result (λ fault. fault ≡ BaseLineFault.NotABaseLine
        → base_line_of line.now ≡ None) }
{
    match from_utf8(line) {
        Ok(text) => line_of_text(alloc, text),
        Err(_) => Err(BaseLineFault::NotABaseLine),
    }
}

/// Reads the line of a text. The plan of a job execution needs a tree, so a text that begins as one
/// is written is read as a tree at once.
fn line_of_text(alloc: Global, text: &str) -> Result<BaseLine, BaseLineFault>
    ensures read { IfOk result (λ line. line_in_read (read text.now) ≡ Some line) }
    ensures wrong { result ≡ Err BaseLineFault.NotABaseLine
        → line_in_read (read text.now) ≡ None }
{
    if text.starts_with("{\"create\"") || text.starts_with("{\"abandoned\"") {
        return line_of_tree(alloc, text);
    }
    let mut scratch = Scratch::new(alloc);
    let flat = read_flat(alloc, text, &mut scratch);
    match &flat {
        Ok(object) => line_of_object(alloc, text, Look::Flat(object)),
        Err(Unread::Other) => line_of_tree(alloc, text),
        Err(Unread::NoJson) => Err(BaseLineFault::NotABaseLine),
        Err(Unread::OutOfMemory) => Err(BaseLineFault::OutOfMemory),
    }
}

/// Reads the line of a text that was read as this object. The lists of a plan need a tree.
fn line_of_object(
    alloc: Global,
    text: &str,
    object: Look<'_, '_>,
) -> Result<BaseLine, BaseLineFault>
    requires { read text.now ≡ Some (shown object) }
    ensures read { IfOk result (λ line. line_in_read (read text.now) ≡ Some line) }
    ensures wrong { result ≡ Err BaseLineFault.NotABaseLine
        → line_in_read (read text.now) ≡ None }
{
    if has_job(object) {
        line_of_tree(alloc, text)
    } else {
        short_line_in(alloc, object)
    }
}

/// Reads the line of a text, by way of a tree.
fn line_of_tree(alloc: Global, text: &str) -> Result<BaseLine, BaseLineFault>
    ensures read { IfOk result (λ line. line_in_read (read text.now) ≡ Some line) }
    ensures wrong { result ≡ Err BaseLineFault.NotABaseLine
        → line_in_read (read text.now) ≡ None }
{
    let value = read_text(alloc, text)?;
    match &value {
        Some(value) => base_line_in(alloc, value),
        None => Err(BaseLineFault::NotABaseLine),
    }
}

/// Reads the line in a value.
#[tactic(auto, unfolding(crate::specs::Lines::base_line_in))]
fn base_line_in(alloc: Global, value: &Value) -> Result<BaseLine, BaseLineFault>
    ensures read { IfOk result (λ line. base_line_in (view value.now) ≡ Some line) }
    ensures wrong { result ≡ Err BaseLineFault.NotABaseLine → base_line_in (view value.now) ≡ None }
{
    if has_job(Look::Own(value)) {
        Ok(BaseLine::Execution(execution_of(alloc, value)?))
    } else {
        short_line_in(alloc, Look::Own(value))
    }
}

/// Reads the line in a value that is no job execution.
#[tactic(auto, unfolding(crate::specs::Lines::short_line_in))]
fn short_line_in(alloc: Global, value: Look<'_, '_>) -> Result<BaseLine, BaseLineFault>
    ensures read { IfOk result (λ line. short_line_in (shown value.entry) ≡ Some line) }
    ensures wrong { result ≡ Err BaseLineFault.NotABaseLine
        → short_line_in (shown value.entry) ≡ None }
{
    if value.number_at("work").is_some() {
        return Ok(BaseLine::Work(work_of(alloc, value)?));
    }
    if value.text_at("mark").is_some() {
        return Ok(BaseLine::Checkpoint(checkpoint_of(alloc, value)?));
    }
    match head_of(value) {
        Some(head) => Ok(BaseLine::Head(head)),
        None => Err(BaseLineFault::NotABaseLine),
    }
}

/// Checks whether a value may be a job execution.
fn has_job(value: Look<'_, '_>) -> bool
    ensures { result ≡ has_job (shown value.entry) }
{
    value.text_at("job").is_some()
}
