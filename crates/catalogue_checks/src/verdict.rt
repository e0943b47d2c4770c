// The line about a catalogue.
ghost use Rattle.std.specs.Prelude.{◌≡◌, ◌++◌, false, length, string_bytes, Ok, Err, IfOk, OnOk};
ghost use Rattle.serde_json.specs.Data.{string, object, no_members, put as with_member};
ghost use Rattle.serde_json.specs.View.{view, members_view};
ghost use Rattle.serde_json.specs.Written.{has_float};
ghost use Rattle.jsl_json.specs.Catalogues.{is_out_of_memory};
ghost use Rattle.script_text.specs.Written.{count, count_or_null, with_members, line_of};
ghost use Rattle.catalogue_checks.specs.Verdicts.{good_data, good_text, fault_members, place_members, faulty_data, faulty_text};

use crate::member_text::member_text;
use batch_ids::OutOfMemory;
use fault_places::Place;
use jsl_json::ReadFault;
use serde_json::{Map, Value, put};
use std::alloc::Global;

/// What a check of a catalogue found.
#[derive(Debug, Drop)]
pub struct Checked {
    /// The line about it, with its line feed.
    pub text: Vec<u8>,
    /// Its fault, if it has one.
    pub outcome: Result<(), ReadFault>,
}

fn put_text(
    alloc: Global,
    members: &mut Map<String, Value>,
    name: &str,
    text: &str,
) -> Result<(), OutOfMemory>
    ensures { OnOk result (members_view members.new.entries
        ≡ with_member name.now (string text.now) (members_view members.old.entries)) }
{
    let value = Value::try_from_str(alloc, text)?;
    put(members, alloc, name, value)?;
    Ok(())
}

fn put_count(
    alloc: Global,
    members: &mut Map<String, Value>,
    name: &str,
    number: u64,
) -> Result<(), OutOfMemory>
    ensures { OnOk result (members_view members.new.entries
        ≡ with_member name.now (count number) (members_view members.old.entries)) }
{
    put(members, alloc, name, Value::from(number))?;
    Ok(())
}

fn put_count_or_null(
    alloc: Global,
    members: &mut Map<String, Value>,
    name: &str,
    number: Option<u64>,
) -> Result<(), OutOfMemory>
    ensures { OnOk result (members_view members.new.entries
        ≡ with_member name.now (count_or_null number) (members_view members.old.entries)) }
{
    match number {
        Some(number) => put_count(alloc, members, name, number),
        None => {
            put(members, alloc, name, Value::Null)?;
            Ok(())
        }
    }
}

/// Makes the members of a fault's line.
fn fault_members(alloc: Global, fault: ReadFault) -> Result<Map<String, Value>, OutOfMemory>
    ensures { IfOk result (λ made. members_view made.entries
        ≡ with_members no_members (fault_members fault)) }
{
    let mut members = Map::new(alloc);
    put_text(alloc, &mut members, "fault", fault.name())?;
    match fault {
        ReadFault::NotJson => Ok(members),
        ReadFault::NotACatalogue => Ok(members),
        ReadFault::BadElement { job, element } => {
            put_count(alloc, &mut members, "job", job)?;
            put_count_or_null(alloc, &mut members, "element", element)?;
            Ok(members)
        }
        ReadFault::InJob { job, .. } => {
            put_count(alloc, &mut members, "job", job)?;
            Ok(members)
        }
        ReadFault::OutOfMemory => Ok(members),
    }
}

/// Adds the members of a place, if there is one.
fn with_place(
    alloc: Global,
    members: Map<String, Value>,
    place: &Option<Place>,
) -> Result<Map<String, Value>, OutOfMemory>
    ensures { IfOk result (λ made. members_view made.entries
        ≡ with_members (members_view members.entries) (place_members place.now)) }
{
    let mut made = members;
    match place {
        Some(place) => {
            let text = member_text(alloc, place)?;
            put_count(alloc, &mut made, "byte", place.byte as u64)?;
            put_text(alloc, &mut made, "member", text.as_str())?;
            Ok(made)
        }
        None => Ok(made),
    }
}

/// Returns the line of a value, with its line feed.
#[tactic(auto, unfolding(script_text::specs::Written::line_of))]
fn line_of(alloc: Global, value: &Value) -> Result<Vec<u8>, OutOfMemory>
    requires { has_float (view value.now) ≡ false }
    ensures { IfOk result (λ text. text.items ≡ line_of (view value.now)) }
{
    let mut text = value.to_vec(alloc)?;
    text.push(b'\n')?;
    Ok(text)
}

fn faulty_value(
    alloc: Global,
    fault: ReadFault,
    place: &Option<Place>,
) -> Result<Value, OutOfMemory>
    ensures { IfOk result (λ value. view value ≡ faulty_data fault place.now) }
{
    let members = fault_members(alloc, fault)?;
    let members = with_place(alloc, members, place)?;
    Ok(Value::Object(members))
}

/// Writes the line about a catalogue that has a fault.
#[tactic(auto, using(crate::proofs::Floats::faulty_has_no_float))]
pub(crate) fn faulty(
    alloc: Global,
    fault: ReadFault,
    place: &Option<Place>,
) -> Result<Checked, OutOfMemory>
    ensures text { IfOk result (λ checked. checked.text.items ≡ faulty_text fault place.now) }
    ensures fault { IfOk result (λ checked. checked.outcome ≡ Err fault) }
{
    let value = faulty_value(alloc, fault, place)?;
    let text = line_of(alloc, &value)?;
    Ok(Checked {
        text,
        outcome: Err(fault),
    })
}

fn good_value(alloc: Global, jobs: u64) -> Result<Value, OutOfMemory>
    ensures { IfOk result (λ value. view value ≡ good_data jobs) }
{
    let mut members = Map::new(alloc);
    put_count(alloc, &mut members, "jobs", jobs)?;
    Ok(Value::Object(members))
}

/// Writes the line about a catalogue of so many jobs.
pub(crate) fn good(alloc: Global, jobs: u64) -> Result<Checked, OutOfMemory>
    ensures text { IfOk result (λ checked. checked.text.items ≡ good_text jobs) }
    ensures faultless { IfOk result (λ checked. checked.outcome ≡ Ok tt) }
{
    let value = good_value(alloc, jobs)?;
    let text = line_of(alloc, &value)?;
    Ok(Checked {
        text,
        outcome: Ok(()),
    })
}
