// The objects that are written.
ghost use Rattle.std.specs.Prelude.{◌≡◌, IfOk};
ghost use Rattle.serde_json.specs.Data.{object, put as with_member};
ghost use Rattle.serde_json.specs.View.{view, members_view};
ghost use Rattle.script_text.specs.Written.{one, text_or_null, count_or_null};
ghost use Rattle.script_text.specs.Shown.{shown_data, shown_members};

use crate::metrics::metrics_value;
use batch_ids::{Metrics, OutOfMemory, Text};
use serde_json::{Map, Value, put};
use std::alloc::Global;

/// The value of an object's member, borrowed by the function that writes it.
#[derive(Clone, Copy)]
pub enum Shown<'a> {
    /// Null.
    Null,
    /// A count, a number or a moment.
    Count(u64),
    /// A text.
    Text(&'a str),
    /// The metrics of a step execution.
    Metrics(&'a Metrics),
}

/// Returns this text, or null if there is none.
pub fn text_or_null<const MAX: usize>(text: &Option<Text<MAX>>) -> Shown<'_>
    ensures { shown_data result ≡ text_or_null text.now }
{
    match text {
        None => Shown::Null,
        Some(text) => Shown::Text(text.as_str()),
    }
}

/// Returns this moment, or null if there is none.
pub fn count_or_null(count: Option<u64>) -> Shown<'static>
    ensures { shown_data result ≡ count_or_null count }
{
    match count {
        None => Shown::Null,
        Some(count) => Shown::Count(count),
    }
}

fn shown_value(alloc: Global, shown: Shown<'_>) -> Result<Value, OutOfMemory>
    ensures { IfOk result (λ value. view value ≡ shown_data shown.entry) }
{
    match shown {
        Shown::Null => Ok(Value::Null),
        Shown::Count(count) => Ok(Value::from(count)),
        Shown::Text(text) => Value::try_from_str(alloc, text),
        Shown::Metrics(metrics) => metrics_value(alloc, metrics),
    }
}

/// Makes an object of these members.
pub fn object_value(alloc: Global, members: &[(&str, Shown<'_>)]) -> Result<Value, OutOfMemory>
    ensures { IfOk result (λ value. view value ≡ object (shown_members members.now)) }
{
    let members = members_of(alloc, members)?;
    Ok(Value::Object(members))
}

/// Makes a map of these members, to which more can be added.
pub fn members_of(
    alloc: Global,
    members: &[(&str, Shown<'_>)],
) -> Result<Map<String, Value>, OutOfMemory>
    ensures { IfOk result (λ made. members_view made.entries ≡ shown_members members.now) }
{
    let mut made = Map::new(alloc);
    for (name, shown) in members {
        put(&mut made, alloc, name, shown_value(alloc, *shown)?)?;
    }
    Ok(made)
}

/// Makes an object of these members and one more.
pub fn object_with(
    alloc: Global,
    mut members: Map<String, Value>,
    name: &str,
    value: Value,
) -> Result<Value, OutOfMemory>
    ensures { IfOk result (λ made. view made
        ≡ object (with_member name.now (view value) (members_view members.entries))) }
{
    put(&mut members, alloc, name, value)?;
    Ok(Value::Object(members))
}

/// Makes an object of one member.
pub fn one(alloc: Global, name: &str, value: Value) -> Result<Value, OutOfMemory>
    ensures { IfOk result (λ made. view made ≡ one name.now (view value)) }
{
    object_with(alloc, Map::new(alloc), name, value)
}
