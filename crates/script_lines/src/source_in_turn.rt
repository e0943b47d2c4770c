ghost use Rattle.std.specs.Prelude.{◌≡◌, [], List, ℕ};
ghost use Rattle.script_lines.specs.Device.{Told};
ghost use Rattle.script_lines.specs.AtHand.{Filled};

use crate::device::{Sink, Source};
use crate::input_buffer::InputBuffer;
use crate::line_fault::LineFault;

/// A reader of lines, which may forbid calls until the writer has taken some replies. What is
/// proved for each such reader also holds for one that waits for each reply before its next line.
pub trait SourceInTurn<W: Sink> {
    /// The past of the reader's calls, and the bytes that it has left, if they are determined.
    ghost tape: { Self → Told };

    /// Whether the reader may be called after this past, when the writer has taken these bytes.
    ghost may_read: { Told → List ℕ → Type 0 };

    /// Calls the reader once, for at most 1,048,576 bytes. All bytes at hand must be used.
    ///
    /// # Errors
    ///
    /// `Read` if the reader failed in this call, or may not be called again. The reader has
    /// delivered no byte then.
    fn fill(&mut self, input: &mut InputBuffer, writer: &W) -> Result<(), LineFault>
        requires used { input.old.bytes ≡ [] }
        requires in_turn { may_read (tape self.old) (W.tape writer.now).bytes }
        ensures { Filled (tape self.old) (tape self.new) input.old input.new result };
}

/// Each source is a reader that may be called at any time.
impl<S: Source, W: Sink> SourceInTurn<W> for S {
    ghost tape = { S.tape };

    ghost may_read = { λ _ _. Unit {0} };

    fn fill(&mut self, input: &mut InputBuffer, _writer: &W) -> Result<(), LineFault> {
        input.fill(self)
    }
}
