// A call that changes the file, followed by a sync.
ghost use Rattle.std.specs.Prelude.{◌≡◌, ◌≤◌, ◌<◌, length, OnOk, OnErr};
ghost use Rattle.log_host.specs.Host.{Only, Holds, Torn, LeavesOnly};

use crate::{Host, HostFault};

/// Writes, and waits until the bytes are on the disk. A crash at any moment of it leaves the file
/// with any bytes in the range.
///
/// # Errors
///
/// `HostFault` if the host failed. Nothing else is certain about the file then.
pub fn write_and_sync<H: Host>(host: &mut H, at: usize, bytes: &[u8]) -> Result<(), HostFault>
    requires place { at ≤ length (H.seen host.old) }
    requires durable { Only (H.seen host.old) (H.heard host.old) (H.may_leave host.old) }
    ensures written { OnOk result (Holds (H.seen host.old) at bytes.now (H.seen host.new)) }
    ensures durable { OnOk result (Only (H.seen host.new) (H.heard host.new) (H.may_leave host.new)) }
    ensures heard { H.heard host.new ≡ H.heard host.old }
    ensures any_moment { LeavesOnly H.moment H.left_since host.old host.new
        (λ c o. Torn at (length bytes.now) (H.seen host.old) c × (o ≡ H.heard host.old)) }
    ensures later { H.file_faults host.old ≤ H.file_faults host.new }
    ensures failed { OnErr result (H.file_faults host.old < H.file_faults host.new) }
    ensures listener { H.listener_faults host.new ≡ H.listener_faults host.old }
    ensures origin { H.origin host.new ≡ H.origin host.old }
{
    host.write_at(at, bytes)?;
    host.sync()?;
    Ok(())
}
