// Readers that are called in turn with the listener.
ghost use Rattle.std.specs.Prelude.{◌≡◌, [], List, ℕ};
ghost use Rattle.script_lines.specs.Device.{Told};
ghost use Rattle.script_lines.specs.AtHand.{Filled};

use durable_log::{Host, Log};
use script_lines::{InputBuffer, LineFault, Source};

/// A reader of a script, which may forbid calls until the listener has heard some replies. A run is
/// proved for each reader, so also for one that forbids each call before the replies to all earlier
/// lines were heard.
pub trait Reader<H: Host> {
    /// The past of the reader's calls, and the bytes that it has left, if they are determined.
    ghost tape: { Self → Told };

    /// Whether the reader may be called after this past, when the listener has heard these bytes.
    ghost may_read: { Told → List ℕ → Type 0 };

    /// Calls the reader once, for at most 1,048,576 bytes. All bytes at hand must be used.
    ///
    /// # Errors
    ///
    /// `Read` if the reader failed in this call, or may not be called again. The reader has
    /// delivered no byte then.
    fn fill(&mut self, input: &mut InputBuffer, log: &Log<H>) -> Result<(), LineFault>
        requires used { input.old.bytes ≡ [] }
        requires in_turn { may_read (tape self.old) (H.heard log.now.host) }
        ensures { Filled (tape self.old) (tape self.new) input.old input.new result };
}

/// Each source is a reader that may be called at any time.
impl<S: Source, H: Host> Reader<H> for S {
    ghost tape = { S.tape };

    ghost may_read = { λ _ _. Unit {0} };

    fn fill(&mut self, input: &mut InputBuffer, _log: &Log<H>) -> Result<(), LineFault> {
        input.fill(self)
    }
}
