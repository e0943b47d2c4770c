// The parameters of a job execution: an object of texts.
ghost use Rattle.std.specs.Prelude.{◌≡◌, ◌<◌, ◌≤◌, ℕ, List, true, IfOk, IfErr, OnOk, length, option_map, slice_set};
ghost use Rattle.std.specs.List.{insert};
ghost use Rattle.serde_json.specs.View.{view, members_view};
ghost use Rattle.batch_ids.specs.Parameters.{IsRising, pairs_of, parameters_of, with_pair};
ghost use Rattle.lent_json.specs.Looks.{shown};
ghost use Rattle.lent_json.specs.TextObjects.{texts_data};
ghost use Rattle.script_text.specs.Parameters.{parameters_at, parameters_within, parameters_data, given_pairs, text_pairs};
ghost use Rattle.script_text.specs.LentParameters.{lent_pairs};
ghost use Rattle.script_text.specs.RawCommands.{pairs_in};

use batch_ids::{OutOfMemory, Parameters, Refusal};
use lent_json::{Look, Scalar, Texts};
use serde_json::{Map, Value, put};
use std::alloc::{AllocError, Global};
use std::cmp::Ordering;

/// Returns the object of texts of the member `parameters`, which may be left out. Returns `None` if
/// it is there and no such object.
pub fn parameters_at<'v, 't>(value: Look<'v, 't>) -> Option<Option<Texts<'v, 't>>>
    ensures { option_map pairs_in result ≡ parameters_at (shown value.entry) }
{
    value.optional_texts("parameters")
}

/// Returns the parameters in an object of texts. Returns `None` if a key, a value or their number
/// is above its bound.
pub fn parameters_within(
    alloc: Global,
    object: Option<Texts<'_, '_>>,
) -> Result<Option<Parameters>, OutOfMemory>
    ensures { IfOk result (λ made. made ≡ parameters_within (pairs_in object.entry)) }
{
    let given = match object {
        Some(object) => given_pairs(alloc, object)?,
        None => Vec::new(alloc),
    };
    match Parameters::new(alloc, given) {
        Ok(parameters) => Ok(Some(parameters)),
        Err(Refusal::TextTooLong) => Ok(None),
        Err(_) => Err(AllocError),
    }
}

/// Returns the keys and values of an object.
fn given_pairs(alloc: Global, object: Texts<'_, '_>) -> Result<Vec<(String, String)>, OutOfMemory>
    ensures { IfOk result (λ pairs. pairs_of pairs.items ≡ given_pairs (texts_data object.entry)) }
{
    match object {
        Texts::Own(members) => text_pairs(alloc, members),
        Texts::Lent(texts) => lent_text_pairs(alloc, texts.members()),
    }
}

/// Returns the name and the text of each member.
fn text_pairs(
    alloc: Global,
    members: &Map<String, Value>,
) -> Result<Vec<(String, String)>, OutOfMemory>
    ensures { IfOk result (λ pairs. pairs_of pairs.items ≡ text_pairs (members_view members.now.entries)) }
{
    let mut pairs = Vec::new(alloc);
    for (name, value) in members.iter() {
        let text = value.as_str().unwrap_or("");
        let pair = (name.clone()?, String::from_str(alloc, text)?);
        pairs.push(pair)?;
    }
    Ok(pairs)
}

/// Like `text_pairs`, for borrowed members: each name once, with its last text, by rising names.
fn lent_text_pairs(
    alloc: Global,
    members: &[(&str, Scalar<'_>)],
) -> Result<Vec<(String, String)>, OutOfMemory>
    ensures { IfOk result (λ pairs. pairs_of pairs.items ≡ parameters_of (lent_pairs members.now)) }
{
    let mut pairs = Vec::new(alloc);
    for member in members {
        put_text(alloc, &mut pairs, member.0, member.1.text())?;
    }
    Ok(pairs)
}

/// Puts a text under its name, among pairs by rising names.
fn put_text(
    alloc: Global,
    pairs: &mut Vec<(String, String)>,
    name: &str,
    text: &str,
) -> Result<(), OutOfMemory>
    requires { IsRising (pairs_of pairs.old.items) }
    ensures { OnOk result (pairs_of pairs.new.items
        ≡ with_pair (pairs_of pairs.old.items) (name.now, text.now)) }
{
    let pair = (
        String::from_str(alloc, name)?,
        String::from_str(alloc, text)?,
    );
    match place_of(pairs.as_slice(), name) {
        Ok(at) => pairs[at] = pair,
        Err(at) => pairs.insert(at, pair)?,
    }
    Ok(())
}

/// Returns the place of this name among pairs by rising names, or else the place at which to insert
/// it, by halving. A name above all of them takes one comparison.
fn place_of(pairs: &[(String, String)], name: &str) -> Result<usize, usize>
    requires { IsRising (pairs_of pairs.now) }
    ensures held { IfOk result (λ at. (at < length pairs.now)
        × ((text : List ℕ) → with_pair (pairs_of pairs.now) (name.now, text)
        ≡ slice_set (pairs_of pairs.now) at (name.now, text))) }
    ensures absent { IfErr result (λ at. (at ≤ length pairs.now)
        × ((text : List ℕ) → with_pair (pairs_of pairs.now) (name.now, text)
        ≡ insert (pairs_of pairs.now) at (name.now, text))) }
{
    if is_above_all(name, pairs) {
        return Err(pairs.len());
    }
    let mut low = 0;
    let mut high = pairs.len();
    while low < high {
        let middle = low + (high - low) / 2;
        match pairs[middle].0.as_str().cmp(name) {
            Ordering::Less => low = middle + 1,
            Ordering::Equal => return Ok(middle),
            Ordering::Greater => high = middle,
        }
    }
    Err(low)
}

/// Checks whether a name is above those of all pairs, which are in rising order of their names.
fn is_above_all(name: &str, pairs: &[(String, String)]) -> bool
    requires { IsRising (pairs_of pairs.now) }
    ensures { result ≡ true → (text : List ℕ) → with_pair (pairs_of pairs.now) (name.now, text)
        ≡ insert (pairs_of pairs.now) (length pairs.now) (name.now, text) }
{
    match pairs.last() {
        Some(last) => last.0.as_str() < name,
        None => true,
    }
}

/// Returns parameters as they are written: an object of texts, by rising keys.
pub fn parameters_value(alloc: Global, parameters: &Parameters) -> Result<Value, OutOfMemory>
    ensures { IfOk result (λ value. view value ≡ parameters_data parameters.now) }
{
    let mut members = Map::new(alloc);
    for parameter in parameters.pairs() {
        let text = Value::try_from_str(alloc, parameter.value().as_str())?;
        put(&mut members, alloc, parameter.key().as_str(), text)?;
    }
    Ok(Value::Object(members))
}
