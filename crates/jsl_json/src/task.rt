ghost use Rattle.std.specs.Prelude.{◌≡◌, Some, None, Err, option_map, IfOk};
ghost use Rattle.serde_json.specs.View.{view};
ghost use Rattle.jsl_model.specs.declared.element.Task.TheVariants.{Batchlet};
ghost use Rattle.jsl_model.specs.Parts.{task_of};
ghost use Rattle.jsl_json.specs.Tasks.{truth_or, count_or, item_count_at, partitions_at, artifact_of, artifact_at, optional_artifact, chunk_of, task_at};

use crate::member_fault::MemberFault;
use crate::text::copy_of;
use jsl_model::TaskParts;
use json_members::{
    has_only, object_at, optional_number, optional_object, optional_truth, text_at,
};
use serde_json::Value;
use std::alloc::Global;

/// Reads a member's truth value, or returns `left_out` if the member is left out.
pub fn truth_or(value: &Value, name: &str, left_out: bool) -> Option<bool>
    ensures { result ≡ truth_or name.now left_out (view value.now) }
{
    Some(optional_truth(value, name)?.unwrap_or(left_out))
}

/// Reads a member's number, below 2^32, or returns `left_out` if the member is left out.
#[tactic(auto, unfolding(crate::specs::Tasks::count_or))]
pub fn count_or(value: &Value, name: &str, left_out: u32) -> Option<u32>
    ensures { result ≡ count_or name.now left_out (view value.now) }
{
    match optional_number(value, name)? {
        Some(found) => u32::try_from(found).ok(),
        None => Some(left_out),
    }
}

fn item_count_at(value: &Value) -> Option<u32>
    ensures { result ≡ item_count_at (view value.now) }
{
    let item_count = count_or(value, "item-count", 10)?;
    if item_count == 0 {
        None
    } else {
        Some(item_count)
    }
}

/// Reads the number of a step's partitions, from 1 to 64, if the step has one.
#[tactic(auto, unfolding(crate::specs::Tasks::partitions_at))]
pub fn partitions_at(value: &Value) -> Option<Option<u32>>
    ensures { result ≡ partitions_at (view value.now) }
{
    match optional_number(value, "partitions")? {
        None => Some(None),
        Some(partitions) => {
            if 1 <= partitions && partitions <= 64 {
                Some(Some(partitions as u32))
            } else {
                None
            }
        }
    }
}

#[tactic(auto, unfolding(crate::specs::Tasks::artifact_of))]
fn artifact_of(value: &Value) -> Option<&str>
    ensures { option_map (λ artifact. artifact.now) result ≡ artifact_of (view value.now) }
{
    if !has_only(value, &["ref"]) {
        return None;
    }
    text_at(value, "ref")
}

#[tactic(auto, unfolding(crate::specs::Tasks::artifact_at))]
fn artifact_at<'v>(value: &'v Value, name: &str) -> Option<&'v str>
    ensures { option_map (λ artifact. artifact.now) result ≡ artifact_at name.now (view value.now) }
{
    artifact_of(object_at(value, name)?)
}

#[tactic(auto, unfolding(crate::specs::Tasks::optional_artifact))]
fn optional_artifact<'v>(value: &'v Value, name: &str) -> Option<Option<&'v str>>
    ensures { option_map (option_map (λ artifact. artifact.now)) result
        ≡ optional_artifact name.now (view value.now) }
{
    match optional_object(value, name)? {
        Some(found) => Some(Some(artifact_of(found)?)),
        None => Some(None),
    }
}

fn batchlet_of(alloc: Global, value: &Value) -> Result<TaskParts, MemberFault>
    ensures read { IfOk result (λ task. option_map Batchlet (artifact_of (view value.now))
        ≡ Some (task_of task)) }
    ensures wrong { result ≡ Err MemberFault.Wrong → artifact_of (view value.now) ≡ None }
{
    let artifact = artifact_of(value).ok_or(MemberFault::Wrong)?;
    Ok(TaskParts::Batchlet {
        artifact: String::from_str(alloc, artifact)?,
    })
}

#[tactic(auto, unfolding(crate::specs::Tasks::chunk_of))]
fn chunk_of(alloc: Global, value: &Value) -> Result<TaskParts, MemberFault>
    ensures read { IfOk result (λ task. chunk_of (view value.now) ≡ Some (task_of task)) }
    ensures wrong { result ≡ Err MemberFault.Wrong → chunk_of (view value.now) ≡ None }
{
    if !has_only(value, &["item-count", "reader", "processor", "writer"]) {
        return Err(MemberFault::Wrong);
    }
    let item_count = item_count_at(value).ok_or(MemberFault::Wrong)?;
    let reader = artifact_at(value, "reader").ok_or(MemberFault::Wrong)?;
    let processor = optional_artifact(value, "processor").ok_or(MemberFault::Wrong)?;
    let writer = artifact_at(value, "writer").ok_or(MemberFault::Wrong)?;
    Ok(TaskParts::Chunk {
        reader: String::from_str(alloc, reader)?,
        processor: copy_of(alloc, processor)?,
        writer: String::from_str(alloc, writer)?,
        item_count,
    })
}

/// Reads the task of a step: exactly one of a batchlet and a chunk.
#[tactic(auto, unfolding(crate::specs::Tasks::task_at))]
pub fn task_at(alloc: Global, value: &Value) -> Result<TaskParts, MemberFault>
    ensures read { IfOk result (λ task. task_at (view value.now) ≡ Some (task_of task)) }
    ensures wrong { result ≡ Err MemberFault.Wrong → task_at (view value.now) ≡ None }
{
    let batchlet = optional_object(value, "batchlet").ok_or(MemberFault::Wrong)?;
    let chunk = optional_object(value, "chunk").ok_or(MemberFault::Wrong)?;
    match (batchlet, chunk) {
        (Some(batchlet), None) => batchlet_of(alloc, batchlet),
        (None, Some(chunk)) => chunk_of(alloc, chunk),
        _ => Err(MemberFault::Wrong),
    }
}
