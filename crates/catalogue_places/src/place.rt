ghost use Rattle.std.specs.Prelude.{◌≡◌, ◌≤◌, length, Some, IfOk};
ghost use Rattle.serde_json.specs.Data.{Data};
ghost use Rattle.serde_json.specs.Read.{read};
ghost use Rattle.catalogue_places.specs.Paths.{data_at};
ghost use Rattle.catalogue_places.specs.Places.{IsPlaced};

use batch_ids::OutOfMemory;
use json_places::{Step, byte_of};
use std::alloc::Global;

/// Returns the byte at which the value at the end of a path begins, counted from 0, in the text of a
/// catalogue. Returns `None` only if the text is no JSON value, or the path leads to no value in it.
///
/// # Errors
///
/// Returns `OutOfMemory` if memory is refused.
pub fn byte_in(alloc: Global, text: &str, path: &[Step]) -> Result<Option<usize>, OutOfMemory>
    requires { length text.now ≤ 16777216 }
    ensures { IfOk result (λ found. (d : Data) (e : Data) → read text.now ≡ Some d
        → data_at path.now d ≡ Some e → IsPlaced text.now path.now e found) }
{
    byte_of(alloc, text, path)
}
