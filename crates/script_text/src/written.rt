ghost use Rattle.std.specs.Prelude.{◌≡◌, false, map, IfOk};
ghost use Rattle.serde_json.specs.View.{view};
ghost use Rattle.serde_json.specs.Written.{has_float};
ghost use Rattle.script_text.specs.Written.{line_of, counts_data};

use batch_ids::OutOfMemory;
use serde_json::{Map, Value, put};
use std::alloc::Global;

/// Returns the line of a value, with its line feed.
#[tactic(auto, unfolding(crate::specs::Written::line_of))]
pub fn line_of(alloc: Global, value: &Value) -> Result<Vec<u8>, OutOfMemory>
    requires { has_float (view value.now) ≡ false }
    ensures { IfOk result (λ text. text.items ≡ line_of (view value.now)) }
{
    let mut text = value.to_vec(alloc)?;
    text.push(b'\n')?;
    Ok(text)
}

/// Makes an object of counts by their names. A count of 0 is left out.
pub fn counts_value(alloc: Global, counts: &[(&str, u64)]) -> Result<Value, OutOfMemory>
    ensures { IfOk result (λ value. view value ≡ counts_data (map (λ named. (named.0.now, named.1)) counts.now)) }
{
    let mut members = Map::new(alloc);
    for (name, count) in counts {
        if *count != 0 {
            put(&mut members, alloc, name, Value::from(*count))?;
        }
    }
    Ok(Value::Object(members))
}
