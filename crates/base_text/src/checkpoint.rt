ghost use Rattle.std.specs.Prelude.{◌≡◌, Some, None, Err, IfOk};
ghost use Rattle.lent_json.specs.Looks.{shown};
ghost use Rattle.base_text.specs.Checkpoints.{checkpoint_of};

use crate::bounded::{bounded_text_at, partition_at};
use crate::fault::BaseLineFault;
use batch_history::CheckpointRow;
use batch_ids::InstanceId;
use lent_json::Look;
use std::alloc::Global;
use walk_rules::WorkKey;

/// Reads the checkpoint in a value.
#[tactic(auto, unfolding(crate::specs::Checkpoints::checkpoint_of))]
pub fn checkpoint_of(alloc: Global, value: Look<'_, '_>) -> Result<CheckpointRow, BaseLineFault>
    ensures read { IfOk result (λ row. checkpoint_of (shown value.entry) ≡ Some row) }
    ensures wrong { result ≡ Err BaseLineFault.NotABaseLine
        → checkpoint_of (shown value.entry) ≡ None }
{
    if !value.has_only(&["instance", "mark", "partition", "step"]) {
        return Err(BaseLineFault::NotABaseLine);
    }
    let instance = value
        .number_at("instance")
        .ok_or(BaseLineFault::NotABaseLine)?;
    let partition = partition_at(value).ok_or(BaseLineFault::NotABaseLine)?;
    let element = bounded_text_at(alloc, value, "step")?;
    let mark = bounded_text_at(alloc, value, "mark")?;
    Ok(CheckpointRow {
        instance: InstanceId::new(instance),
        step: WorkKey { element, partition },
        mark,
    })
}
