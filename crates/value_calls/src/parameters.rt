//! Parameters of a job.
use anyhow::{Result, bail};
use batch_ids::Parameters;
use call_lines::{Line, told};
use std::alloc::{AllocError, Global};

/// Parameters: `count` short ones, and one more whose key and value have these lengths in bytes.
#[derive(Clone, Copy)]
struct Shape {
    count: usize,
    key: usize,
    value: usize,
}

/// Three parameters within the limits.
const THREE: Shape = Shape {
    count: 2,
    key: 4,
    value: 4,
};

/// Returns the parameters of a line's word: three of them, or with a key, a value or a number of
/// parameters that is one over its limit.
fn shape_of(word: &str) -> Option<Shape> {
    let mut shape = THREE;
    match word {
        "new" | "try_clone" => {}
        "new_long" => shape.value = 4_097,
        "new_long_key" => shape.key = 257,
        "new_many" => shape.count = 64,
        _ => return None,
    }
    Some(shape)
}

fn pairs(alloc: Global, shape: &Shape) -> Result<Vec<(String, String)>, AllocError> {
    let mut pairs = Vec::new(alloc);
    for number in 0..shape.count {
        let key = format!(in alloc; "k{number}")?;
        pairs.push((key, String::from_str(alloc, "v")?))?;
    }
    pairs.push((
        "x".repeat(alloc, shape.key)?,
        "x".repeat(alloc, shape.value)?,
    ))?;
    Ok(pairs)
}

/// Makes the call that a line names.
pub fn run_parameters<R: Print + AllocGlobal>(rt: &R, line: Line<'_>) -> Result<()> {
    let alloc = rt.alloc();
    let Some(shape) = shape_of(line.text) else {
        bail!("no call of parameters is named {}", line.text);
    };
    let given = pairs(alloc, &shape)?;
    if line.text == "try_clone" {
        let parameters = Parameters::new(alloc, given)?;
        return told!(rt, line, parameters.try_clone());
    }
    told!(rt, line, Parameters::new(alloc, given))
}
