// The text of a place's member, as `jobs[2].elements[0].next`.
ghost use Rattle.std.specs.Prelude.{◌≡◌, [], map, string_bytes, IfOk, OnOk};
ghost use Rattle.std.specs.List.{list_all};
ghost use Rattle.serde_json.specs.Data.{string};
ghost use Rattle.serde_json.specs.Written.{compact_text};
ghost use Rattle.element_numbers.specs.Numbering.{key_of};
ghost use Rattle.catalogue_checks.specs.MemberTexts.{is_between, is_letter, is_plain_byte, is_plain, with_dot, with_item, with_plain, with_name, with_key, path_text_from, member_text};

use batch_ids::OutOfMemory;
use catalogue_places::Member;
use fault_places::Place;
use json_places::Step;
use serde_json::Value;
use std::alloc::Global;

fn is_between(first: u8, last: u8, byte: u8) -> bool
    ensures { result ≡ is_between first last byte }
{
    first <= byte && byte <= last
}

fn is_letter(byte: u8) -> bool
    ensures { result ≡ is_letter byte }
{
    is_between(b'a', b'z', byte) || is_between(b'A', b'Z', byte)
}

fn is_plain_byte(byte: u8) -> bool
    ensures { result ≡ is_plain_byte byte }
{
    is_letter(byte) || is_between(b'0', b'9', byte) || byte == b'-' || byte == b'_'
}

fn is_all_plain(name: &[u8]) -> bool
    ensures { result ≡ list_all is_plain_byte name.now }
{
    for byte in name {
        if !is_plain_byte(*byte) {
            return false;
        }
    }
    true
}

/// Checks whether a name needs no quotes.
fn is_plain(name: &str) -> bool
    ensures { result ≡ is_plain name.now }
{
    if name.is_empty() {
        return false;
    }
    is_all_plain(name.as_bytes())
}

fn push_item(alloc: Global, text: &mut String, number: usize) -> Result<(), OutOfMemory>
    ensures { OnOk result (string_bytes text.new ≡ with_item (string_bytes text.old) number) }
{
    let digits = number.to_string(alloc)?;
    text.push_str("[")?;
    text.push_str(digits.as_str())?;
    text.push_str("]")?;
    Ok(())
}

fn push_dot(text: &mut String) -> Result<(), OutOfMemory>
    ensures { OnOk result (string_bytes text.new ≡ with_dot (string_bytes text.old)) }
{
    if text.as_str().is_empty() {
        return Ok(());
    }
    text.push_str(".")?;
    Ok(())
}

fn push_plain(text: &mut String, name: &str) -> Result<(), OutOfMemory>
    ensures { OnOk result (string_bytes text.new ≡ with_plain (string_bytes text.old) name.now) }
{
    push_dot(text)?;
    text.push_str(name)?;
    Ok(())
}

/// Writes a name as a JSON text.
fn quoted(alloc: Global, name: &str) -> Result<String, OutOfMemory>
    ensures { IfOk result (λ text. string_bytes text ≡ compact_text (string name.now)) }
{
    let value = Value::try_from_str(alloc, name)?;
    let text = value.to_string(alloc)?;
    Ok(text)
}

fn push_name(alloc: Global, text: &mut String, name: &str) -> Result<(), OutOfMemory>
    ensures { OnOk result (string_bytes text.new ≡ with_name (string_bytes text.old) name.now) }
{
    if is_plain(name) {
        return push_plain(text, name);
    }
    let quoted = quoted(alloc, name)?;
    text.push_str("[")?;
    text.push_str(quoted.as_str())?;
    text.push_str("]")?;
    Ok(())
}

fn push_step(alloc: Global, text: &mut String, step: &Step) -> Result<(), OutOfMemory>
    ensures { OnOk result (string_bytes text.new
        ≡ with_key (string_bytes text.old) (key_of step.now)) }
{
    match step {
        Step::Item(number) => push_item(alloc, text, *number),
        Step::Member(name) => push_name(alloc, text, name.as_str()),
    }
}

fn path_text(alloc: Global, path: &[Step]) -> Result<String, OutOfMemory>
    ensures { IfOk result (λ text. string_bytes text
        ≡ path_text_from [] (map key_of path.now)) }
{
    let mut text = String::new(alloc);
    for step in path {
        push_step(alloc, &mut text, step)?;
    }
    Ok(text)
}

/// Returns the text of a place's member: the steps to the value, and the member that the value lacks.
pub(crate) fn member_text(alloc: Global, place: &Place) -> Result<String, OutOfMemory>
    ensures { IfOk result (λ text. string_bytes text ≡ member_text place.now) }
{
    let mut text = path_text(alloc, &place.path)?;
    match place.lacks {
        Some(member) => {
            push_name(alloc, &mut text, member.name())?;
            Ok(text)
        }
        None => Ok(text),
    }
}
