// Engines that reply to lines.
ghost use Rattle.std.specs.Prelude.{◌≡◌, ◌<◌, List, ℕ, Bool, false, length, IfOk};
ghost use Rattle.script_log.specs.Runs.{History, after};
ghost use Rattle.script_lines.specs.declared.line.TheConstants.{MAX_LINE};

use std::alloc::{AllocError, Global};

/// The reply to a line, and whether the line is recorded.
#[derive(Drop)]
pub struct Answered {
    /// The bytes of the reply, with the line feed if it has one.
    pub text: Vec<u8>,
    /// Whether the line is recorded. It is recorded if it changed the replies to later lines.
    pub kept: bool,
}

/// An engine, which replies to lines after a history: a catalogue, the lines of a base, and recorded
/// lines. It need not store the lines. It may represent several histories, and its replies are due
/// after each of them.
pub trait Engine {
    /// Whether the engine represents this history.
    ghost stands: { Self → History → Type 0 };

    /// Whether a line is recorded after a history.
    ghost keeps: { History → List ℕ → Bool };

    /// The reply to a line after a history.
    ghost reply: { History → List ℕ → List ℕ };

    /// Returns the reply to a line, and whether the line is recorded.
    ///
    /// # Errors
    ///
    /// `AllocError` if memory is refused. It isn't specified then which history the engine
    /// represents.
    fn answer(&mut self, alloc: Global, line: &[u8]) -> Result<Answered, AllocError>
        ensures { IfOk result (λ answered. (h : History) → stands self.old h
            → (answered.text.items ≡ reply h line.now) × (answered.kept ≡ keeps h line.now) × stands self.new (after keeps h line.now)) };

    /// Returns the reply to a line of more than [`MAX_LINE`](script_lines::MAX_LINE) bytes, of
    /// which nothing was read into memory. Such a line is never recorded.
    ///
    /// # Errors
    ///
    /// `AllocError` if memory is refused. It isn't specified then which history the engine
    /// represents.
    fn answer_too_long(&mut self, alloc: Global) -> Result<Vec<u8>, AllocError>
        ensures { IfOk result (λ text. (h : History) (line : List ℕ) → MAX_LINE < length line → stands self.old h
            → (text.items ≡ reply h line) × (keeps h line ≡ false) × stands self.new h) };
}
