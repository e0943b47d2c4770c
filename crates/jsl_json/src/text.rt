ghost use Rattle.std.specs.Prelude.{◌≡◌, Some, None, Err, option_map, string_bytes, IfOk};
ghost use Rattle.serde_json.specs.View.{view};
ghost use Rattle.json_members.specs.Members.{text_at, optional_text};
ghost use Rattle.jsl_model.specs.Parts.{bytes_of_option};

use crate::member_fault::MemberFault;
use batch_ids::OutOfMemory;
use json_members::{optional_text, text_at};
use serde_json::Value;
use std::alloc::Global;

/// Copies a text that may be left out.
pub fn copy_of(alloc: Global, text: Option<&str>) -> Result<Option<String>, OutOfMemory>
    ensures { IfOk result (λ copy. bytes_of_option copy
        ≡ option_map (λ text. text.now) text.entry) }
{
    match text {
        Some(text) => Ok(Some(String::from_str(alloc, text)?)),
        None => Ok(None),
    }
}

/// Reads a copy of a member's text.
pub fn text_of(alloc: Global, value: &Value, name: &str) -> Result<String, MemberFault>
    ensures read { IfOk result (λ text. text_at name.now (view value.now)
        ≡ Some (string_bytes text)) }
    ensures wrong { result ≡ Err MemberFault.Wrong → text_at name.now (view value.now) ≡ None }
{
    match text_at(value, name) {
        Some(text) => Ok(String::from_str(alloc, text)?),
        None => Err(MemberFault::Wrong),
    }
}

/// Reads a copy of the text of a member that may be left out.
pub fn optional_text_of(
    alloc: Global,
    value: &Value,
    name: &str,
) -> Result<Option<String>, MemberFault>
    ensures read { IfOk result (λ text. optional_text name.now (view value.now)
        ≡ Some (bytes_of_option text)) }
    ensures wrong { result ≡ Err MemberFault.Wrong
        → optional_text name.now (view value.now) ≡ None }
{
    match optional_text(value, name) {
        Some(text) => Ok(copy_of(alloc, text)?),
        None => Err(MemberFault::Wrong),
    }
}
