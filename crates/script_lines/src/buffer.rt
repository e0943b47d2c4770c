ghost use Rattle.std.specs.Prelude.{◌≡◌, length, IfOk};

use std::alloc::{AllocError, Global};

// A block is copied, since bytes that are set one by one cost a short script more than all its lines.
const BLOCK: usize = 4096;

// Creates a buffer of `size` bytes.
pub(crate) fn new_buffer(alloc: Global, size: usize) -> Result<Vec<u8>, AllocError>
    ensures { IfOk result (λ buffer. length buffer.items ≡ size) }
{
    let block = [0u8; BLOCK];
    let mut buffer = Vec::with_capacity(alloc, size)?;
    while buffer.len() < size {
        let more = BLOCK.min(size - buffer.len());
        buffer.extend_from_slice(&block[..more])?;
    }
    Ok(buffer)
}
