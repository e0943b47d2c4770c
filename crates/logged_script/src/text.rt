// The line of a fault.
ghost use Rattle.std.specs.Prelude.{◌≡◌, false, IfOk, OnOk};
ghost use Rattle.serde_json.specs.Data.{object, string, put as with_member, no_members};
ghost use Rattle.serde_json.specs.View.{view, members_view};
ghost use Rattle.serde_json.specs.Written.{has_float};
ghost use Rattle.script_text.specs.Written.{count, line_of};
ghost use Rattle.logged_script.specs.Texts.{log_fault_data, log_fault_text};

use crate::fault::LogFault;
use batch_ids::OutOfMemory;
use serde_json::{Map, Value, put};
use std::alloc::Global;

// Adds a number by its name.
fn put_number(
    members: &mut Map<String, Value>,
    alloc: Global,
    name: &str,
    number: usize,
) -> Result<(), OutOfMemory>
    ensures { OnOk result (members_view members.new.entries ≡ with_member name.now (count number) (members_view members.old.entries)) }
{
    put(members, alloc, name, Value::from(number as u64))?;
    Ok(())
}

// Returns the members of a fault.
fn fault_members(alloc: Global, fault: LogFault) -> Result<Map<String, Value>, OutOfMemory>
    ensures { IfOk result (λ members. object (members_view members.entries) ≡ log_fault_data fault) }
{
    let mut members = Map::new(alloc);
    put(
        &mut members,
        alloc,
        "fault",
        Value::try_from_str(alloc, fault.name())?,
    )?;
    match fault {
        LogFault::Damaged { number, byte } => {
            put_number(&mut members, alloc, "byte", byte)?;
            put_number(&mut members, alloc, "record", number)?;
        }
        LogFault::OtherCatalogue { job } => put_number(&mut members, alloc, "job", job)?,
        LogFault::BadBase { number } => put_number(&mut members, alloc, "record", number)?,
        LogFault::OtherReply { number } => put_number(&mut members, alloc, "record", number)?,
        LogFault::InUse => {}
        LogFault::Foreign => {}
        LogFault::Later => {}
    }
    Ok(members)
}

// Returns the line of a value, with its line feed.
#[tactic(auto, using(crate::proofs::Floats::line_is))]
fn line_of(alloc: Global, value: &Value) -> Result<Vec<u8>, OutOfMemory>
    requires { has_float (view value.now) ≡ false }
    ensures { IfOk result (λ text. text.items ≡ line_of (view value.now)) }
{
    let mut text = value.to_vec(alloc)?;
    text.push(b'\n')?;
    Ok(text)
}

/// Writes the line of a fault, with its line feed:
/// - `{"byte":N,"fault":"LogDamaged","record":N}` for a damaged record.
/// - `{"fault":NAME,"job":N}` for another catalogue.
/// - `{"fault":NAME,"record":N}` for a bad record of the base, and for another reply.
/// - `{"fault":NAME}` for any other fault.
///
/// # Errors
///
/// Returns `OutOfMemory` if memory is refused.
#[tactic(auto, using(crate::proofs::Floats::fault_has_no_float))]
pub fn log_fault_text(alloc: Global, fault: LogFault) -> Result<Vec<u8>, OutOfMemory>
    ensures { IfOk result (λ text. text.items ≡ log_fault_text fault) }
{
    let members = fault_members(alloc, fault)?;
    line_of(alloc, &Value::Object(members))
}
