// Texts and numbers within the bounds of a row.
ghost use Rattle.std.specs.Prelude.{◌≡◌, Some, None, Err, IfOk};
ghost use Rattle.lent_json.specs.Looks.{shown};
ghost use Rattle.script_text.specs.Bounds.{text_within};
ghost use Rattle.base_text.specs.Bounded.{bounded_text_at, exit_at, partition_at, optional_partition_at};

use crate::fault::BaseLineFault;
use batch_ids::{T256, Text};
use lent_json::Look;
use std::alloc::Global;

/// Copies a text of at most `MAX` bytes.
pub fn text_within<const MAX: usize>(alloc: Global, text: &str) -> Result<Text<MAX>, BaseLineFault>
    ensures read { IfOk result (λ made. text_within MAX text.now ≡ Some made) }
    ensures wrong { result ≡ Err BaseLineFault.NotABaseLine → text_within MAX text.now ≡ None }
{
    if text.len() > MAX {
        return Err(BaseLineFault::NotABaseLine);
    }
    Ok(Text::within(alloc, text)?)
}

/// Copies a member's text, of at most `MAX` bytes.
pub fn bounded_text_at<const MAX: usize>(
    alloc: Global,
    value: Look<'_, '_>,
    name: &str,
) -> Result<Text<MAX>, BaseLineFault>
    ensures read { IfOk result (λ text. bounded_text_at MAX name.now (shown value.entry)
        ≡ Some text) }
    ensures wrong { result ≡ Err BaseLineFault.NotABaseLine
        → bounded_text_at MAX name.now (shown value.entry) ≡ None }
{
    match value.text_at(name) {
        Some(text) => text_within(alloc, text),
        None => Err(BaseLineFault::NotABaseLine),
    }
}

/// Copies the exit status, which may be left out.
pub fn exit_at(alloc: Global, value: Look<'_, '_>) -> Result<Option<T256>, BaseLineFault>
    ensures read { IfOk result (λ exit. exit_at (shown value.entry) ≡ Some exit) }
    ensures wrong { result ≡ Err BaseLineFault.NotABaseLine → exit_at (shown value.entry) ≡ None }
{
    match value.optional_text("exit") {
        Some(Some(exit)) => Ok(Some(text_within(alloc, exit)?)),
        Some(None) => Ok(None),
        None => Err(BaseLineFault::NotABaseLine),
    }
}

/// Reads the number of a partition, below 2^32.
pub fn partition_at(value: Look<'_, '_>) -> Option<u32>
    ensures { result ≡ partition_at (shown value.entry) }
{
    u32::try_from(value.number_at("partition")?).ok()
}

/// Reads the number of a partition, below 2^32, which may be left out.
pub fn optional_partition_at(value: Look<'_, '_>) -> Option<Option<u32>>
    ensures { result ≡ optional_partition_at (shown value.entry) }
{
    match value.optional_number("partition")? {
        Some(partition) => Some(Some(u32::try_from(partition).ok()?)),
        None => Some(None),
    }
}
