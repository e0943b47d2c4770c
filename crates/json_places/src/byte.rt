ghost use Rattle.std.specs.Prelude.{◌≡◌, ℕ, ◌≤◌, length, Some, None, IfOk, MatchOption};
ghost use Rattle.json.specs.Json.{Json, document};
ghost use Rattle.json_places.specs.Inside.{value_at};
ghost use Rattle.json_places.specs.Starts.{BeginsAt};

use crate::path::Step;
use crate::scan::byte_of_token;
use crate::walk::token_of;
use json::{Error, MAX_LEN, Scratch, Tape};
use std::alloc::{AllocError, Global};

/// Returns the byte at which the value at the end of a path begins, from 0, in a text that is one
/// JSON value. Returns `None` if there is no such value in it.
///
/// The time and memory are proportional to the bytes of the text.
///
/// # Errors
///
/// Returns `AllocError` if memory is refused.
pub fn byte_of(alloc: Global, text: &str, path: &[Step]) -> Result<Option<usize>, AllocError>
    requires { length text.now ≤ MAX_LEN }
    ensures { IfOk result (λ found. (root : Json) → document text.now ≡ Some root
        → MatchOption found (value_at path.now root ≡ None)
        (λ byte. (n : ℕ) × (j : Json) × (value_at path.now root ≡ Some (n, j))
        × BeginsAt text.now n byte)) }
{
    let mut scratch = Scratch::new(alloc);
    match Tape::parse(text, &mut scratch, Vec::new(alloc)) {
        Ok(tape) => match token_of(tape.nodes(), path) {
            Some(number) => Ok(byte_of_token(text.as_bytes(), number)),
            None => Ok(None),
        },
        Err(Error::OutOfMemory) => Err(AllocError),
        Err(_) => Ok(None),
    }
}
