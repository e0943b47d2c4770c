// The tags of lines.
ghost use Rattle.std.specs.Prelude.{◌≡◌, ◌≤◌, ◌<◌, ◌==◌, IfSome, length, position};
ghost use Rattle.logged_script.specs.Tags.{begins_object, command_in, command_of};

use script_lines::MAX_LINE;

/// The most bytes of a tag.
pub const MAX_TAG: usize = 512;

// Checks whether a line begins with a brace.
fn begins_object(line: &[u8]) -> bool
    ensures { result ≡ begins_object line.now }
{
    match line {
        [first, ..] => *first == b'{',
        [] => false,
    }
}

// Returns the place of the first tab.
fn first_tab(line: &[u8]) -> Option<usize>
    ensures place { result ≡ position (λ byte. byte == 9) line.now }
    ensures within { IfSome result (λ at. at < length line.now) }
{
    line.iter().position(|byte| *byte == b'\t')
}

/// Returns the command of a line that may begin with a tag: what stands behind the first tab, if at
/// most [`MAX_TAG`] bytes stand before it. A line that begins with a brace, or is above [`MAX_LINE`]
/// bytes, has no tag.
pub fn command_of(line: &[u8]) -> &[u8]
    ensures command { result.now ≡ command_of line.now }
    ensures short { length result.now ≤ length line.now }
{
    if line.len() > MAX_LINE || begins_object(line) {
        return line;
    }
    match first_tab(line) {
        Some(at) if at <= MAX_TAG => line.split_at(at + 1).1,
        _ => line,
    }
}

// Returns the command of a line, which may begin with a tag only if lines have tags.
pub(crate) fn command_in<const TAGS: bool>(line: &[u8]) -> &[u8]
    ensures command { result.now ≡ command_in TAGS line.now }
    ensures short { length result.now ≤ length line.now }
{
    if TAGS { command_of(line) } else { line }
}
