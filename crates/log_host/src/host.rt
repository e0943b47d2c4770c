// A file and a listener: the bytes written to the file, the bytes sent to the listener, and the
// bytes that a crash may leave.
ghost use Rattle.std.specs.Prelude.{◌≡◌, ◌≤◌, ◌<◌, ◌++◌, List, ℕ, length, take, IfOk, OnOk};
ghost use Rattle.log_host.specs.Host.{Follows, Hearing, Torn, Holds, Elapses, HasCause};
ghost use Rattle.log_host.specs.Past.{Past};

use std::error::Error;
use std::fmt;

/// A call of a host failed: the disk, or the listener. A full disk is one cause. The cause isn't
/// recorded, since no result depends on it.
#[derive(Clone, Copy, Debug, PartialEq, Eq)]
pub struct HostFault;

impl fmt::Display for HostFault {
    fn fmt<W: fmt::Write>(&self, f: &mut fmt::Formatter<W>) -> fmt::Result {
        f.write_str("the file or the listener failed")
    }
}

impl Error for HostFault {}

/// One file, and one listener to which the replies are sent.
pub trait Host {
    /// The bytes of the file, as a read would return them.
    ghost seen: { Self → List ℕ };

    /// All bytes that the listener has heard.
    ghost heard: { Self → List ℕ };

    /// The bytes that a crash at this moment may leave: those of the file, and those that the
    /// listener has heard.
    ghost may_leave: { Self → List ℕ → List ℕ → Type 0 };

    /// The moment, as a number that never falls.
    ghost moment: { Self → ℕ };

    /// The bytes that a crash at some moment since `t` might have left, during a call or between
    /// two calls.
    ghost left_since: { Self → ℕ → List ℕ → List ℕ → Type 0 };

    /// What became of the file and the listener before the host began. It never changes.
    ghost origin: { Self → Past };

    /// The number of failures of the file.
    ghost file_faults: { Self → ℕ };

    /// The number of failures of the listener.
    ghost listener_faults: { Self → ℕ };

    /// Writes over the bytes of the file, and past its end. Until a sync, a crash may leave any
    /// bytes in the range.
    ///
    /// # Errors
    ///
    /// `HostFault` if the file failed. Even then, a crash may leave any bytes in the range.
    fn write_at(&mut self, at: usize, bytes: &[u8]) -> Result<(), HostFault>
        requires { at ≤ length (seen self.old) }
        ensures written { OnOk result (Holds (seen self.old) at bytes.now (seen self.new)) }
        ensures heard { heard self.new ≡ heard self.old }
        ensures crash { Follows (Torn at (length bytes.now)) (may_leave self.old) (may_leave self.new) }
        ensures time { Elapses (moment self.old) (moment self.new) (left_since self.old) (left_since self.new) (may_leave self.new) }
        ensures cause { HasCause (file_faults self.old) (file_faults self.new) result }
        ensures listener { listener_faults self.new ≡ listener_faults self.old }
        ensures origin { origin self.new ≡ origin self.old };

    /// Waits until the file is on the disk. After it, a crash leaves the bytes that a read returns.
    ///
    /// # Errors
    ///
    /// `HostFault` if the file failed, now or before. Nothing more is certain to be on the disk
    /// then, and no later sync makes it certain.
    fn sync(&mut self) -> Result<(), HostFault>
        ensures durable { OnOk result ((c : List ℕ) (o : List ℕ) → may_leave self.new c o → c ≡ seen self.old) }
        ensures seen { seen self.new ≡ seen self.old }
        ensures heard { heard self.new ≡ heard self.old }
        ensures crash { (c : List ℕ) (o : List ℕ) → may_leave self.new c o → may_leave self.old c o }
        ensures time { Elapses (moment self.old) (moment self.new) (left_since self.old) (left_since self.new) (may_leave self.new) }
        ensures cause { HasCause (file_faults self.old) (file_faults self.new) result }
        ensures listener { listener_faults self.new ≡ listener_faults self.old }
        ensures origin { origin self.new ≡ origin self.old };

    /// Sends the listener a front of a piece, and returns its number of bytes. To send no byte of a
    /// piece that is not empty counts as a failure. A crash in the call may leave any front heard.
    ///
    /// # Errors
    ///
    /// `HostFault` if the listener failed. It may have heard any front of the piece then.
    fn tell(&mut self, piece: &[u8]) -> Result<usize, HostFault>
        ensures bound { IfOk result (λ n. n ≤ length piece.now) }
        ensures told { IfOk result (λ n. heard self.new ≡ heard self.old ++ take n piece.now) }
        ensures nothing { IfOk result (λ n. n ≡ 0 → 0 < length piece.now → listener_faults self.old < listener_faults self.new) }
        ensures crash { OnOk result ((c : List ℕ) (o : List ℕ) → may_leave self.new c o → (o ≡ heard self.new) × ((p : List ℕ) × may_leave self.old c p)) }
        ensures seen { seen self.new ≡ seen self.old }
        ensures time { Elapses (moment self.old) (moment self.new) (left_since self.old) (left_since self.new) (Hearing piece.now (may_leave self.old)) }
        ensures cause { HasCause (listener_faults self.old) (listener_faults self.new) result }
        ensures file { file_faults self.new ≡ file_faults self.old }
        ensures origin { origin self.new ≡ origin self.old };

    /// A crash may leave the bytes that a read returns. So no host can satisfy the calls' contracts
    /// by leaving nothing.
    ghost leaves_now: { (host : Self) → may_leave host (seen host) (heard host) };

    /// The current moment is one of the moments since an earlier one.
    ghost counts_now: { (host : Self) (t : ℕ) (c : List ℕ) (o : List ℕ) → t ≤ moment host → may_leave host c o → left_since host t c o };

    /// The current moment is the only one since itself.
    ghost only_now: { (host : Self) (c : List ℕ) (o : List ℕ) → left_since host (moment host) c o → may_leave host c o };
}
