ghost use Rattle.std.specs.Prelude.{◌≡◌, IfOk, option_map};
ghost use Rattle.serde_json.specs.View.{view};
ghost use Rattle.serde_json.specs.Read.{read};
ghost use Rattle.json_members.specs.Members.{data_of};

use batch_ids::OutOfMemory;
use serde_json::Value;
use std::alloc::{AllocError, Global};

/// Reads the bytes as a JSON value. Returns `None` if they are not UTF-8 or not one JSON value.
///
/// Lists and objects may nest 127 deep. If a member comes twice, its last value counts. A number
/// that no `f64` comes near is not read.
///
/// # Errors
///
/// Returns only `OutOfMemory`, if memory is refused.
pub fn read_value(alloc: Global, bytes: &[u8]) -> Result<Option<Value>, OutOfMemory>
    ensures { IfOk result (λ found. option_map view found ≡ data_of bytes.now) }
{
    match Value::from_slice(alloc, bytes) {
        Ok(value) => Ok(Some(value)),
        Err(error) if error.is_memory() => Err(AllocError),
        Err(_) => Ok(None),
    }
}

/// Reads a text as a JSON value, by the rules of [`read_value`]. Returns `None` if it is not one
/// JSON value.
///
/// # Errors
///
/// Returns only `OutOfMemory`, if memory is refused.
pub fn read_text(alloc: Global, text: &str) -> Result<Option<Value>, OutOfMemory>
    ensures { IfOk result (λ found. option_map view found ≡ read text.now) }
{
    match Value::from_str(alloc, text) {
        Ok(value) => Ok(Some(value)),
        Err(error) if error.is_memory() => Err(AllocError),
        Err(_) => Ok(None),
    }
}
