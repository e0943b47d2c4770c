// The parameters of a job execution: an object of texts.
ghost use Rattle.std.specs.Prelude.{◌≡◌, true, false, Some, None, Err, IfOk};
ghost use Rattle.serde_json.specs.View.{view, members_view};
ghost use Rattle.batch_ids.specs.Parameters.{pairs_of};
ghost use Rattle.script_text.specs.Parameters.{are_texts, text_pairs, pairs_given};
ghost use Rattle.base_text.specs.Executions.{bounded_parameters_at, parameters_in};

use crate::fault::BaseLineFault;
use batch_ids::{Parameters, Refusal};
use json_members::optional_object;
use serde_json::{Map, Value};
use std::alloc::Global;

/// Reads the parameters of a job execution, none if they are left out.
pub fn bounded_parameters_at(alloc: Global, value: &Value) -> Result<Parameters, BaseLineFault>
    ensures read { IfOk result (λ made. bounded_parameters_at (view value.now) ≡ Some made) }
    ensures wrong { result ≡ Err BaseLineFault.NotABaseLine
        → bounded_parameters_at (view value.now) ≡ None }
{
    match optional_object(value, "parameters").ok_or(BaseLineFault::NotABaseLine)? {
        Some(object) => parameters_in(alloc, object),
        None => Ok(Parameters::none()),
    }
}

/// Reads the parameters in an object.
fn parameters_in(alloc: Global, object: &Value) -> Result<Parameters, BaseLineFault>
    ensures read { IfOk result (λ made. parameters_in (view object.now) ≡ Some made) }
    ensures wrong { result ≡ Err BaseLineFault.NotABaseLine
        → parameters_in (view object.now) ≡ None }
{
    let pairs = pairs_in(alloc, object)?;
    match Parameters::new(alloc, pairs) {
        Ok(parameters) => Ok(parameters),
        Err(Refusal::TextTooLong) => Err(BaseLineFault::NotABaseLine),
        Err(_) => Err(BaseLineFault::OutOfMemory),
    }
}

/// Reads the keys and values in an object.
fn pairs_in(alloc: Global, object: &Value) -> Result<Vec<(String, String)>, BaseLineFault>
    ensures read { IfOk result (λ pairs. pairs_given (Some (view object.now))
        ≡ Some (pairs_of pairs.items)) }
    ensures wrong { result ≡ Err BaseLineFault.NotABaseLine
        → pairs_given (Some (view object.now)) ≡ None }
{
    match object.as_object() {
        Some(members) => text_pairs(alloc, members),
        None => Err(BaseLineFault::NotABaseLine),
    }
}

/// Returns the name and the text of each member.
fn text_pairs(
    alloc: Global,
    members: &Map<String, Value>,
) -> Result<Vec<(String, String)>, BaseLineFault>
    ensures texts { IfOk result (λ _. are_texts (members_view members.now.entries) ≡ true) }
    ensures pairs { IfOk result (λ pairs. pairs_of pairs.items
        ≡ text_pairs (members_view members.now.entries)) }
    ensures wrong { result ≡ Err BaseLineFault.NotABaseLine
        → are_texts (members_view members.now.entries) ≡ false }
{
    let mut pairs = Vec::new(alloc);
    for (name, value) in members.iter() {
        let text = value.as_str().ok_or(BaseLineFault::NotABaseLine)?;
        let pair = (name.clone()?, String::from_str(alloc, text)?);
        pairs.push(pair)?;
    }
    Ok(pairs)
}
