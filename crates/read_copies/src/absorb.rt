use batch_ids::{OutOfMemory, Refusal};
use jsl_model::Catalogue;
use op_log::Entry;
use std::alloc::Global;

/// The state after the first operations of a log, which answers questions about them.
pub trait Absorb: Drop {
    ghost use Rattle.std.specs.Prelude.{◌≡◌, ◌∷◌, ◌++◌, [], List, Result, IfOk, OnErr, OnOk};
    ghost use Rattle.batch_history.specs.Due.{IsDue};
    ghost use Rattle.batch_history.specs.declared.call.Entry.{Entry};
    ghost use Rattle.batch_ids.specs.declared.refusal.Refusal.{Refusal};
    ghost use Rattle.jsl_model.specs.Jobs.{JobTree};
    ghost use Rattle.seat_rules.specs.Places.{IsLegalLog};

    /// The type of a question.
    type Ask;

    /// The type of an answer.
    type Said;

    /// Relates a state to the catalogue and the log that it represents.
    ghost stands: { Self → List JobTree → List Entry → Type 0 };

    /// The answer to a question after a log over a catalogue.
    ghost answer: { List JobTree → List Entry → Self.Ask → Result Self.Said Refusal };

    /// What a state is begun under.
    ghost can_begin: { Type 0 };

    /// Returns the state after no operation, over this catalogue.
    ///
    /// # Errors
    ///
    /// Returns `OutOfMemory` if memory is refused.
    fn begin(alloc: Global, catalogue: Catalogue) -> Result<Self, OutOfMemory>
        requires { can_begin }
        ensures { IfOk result (λ state. stands state catalogue []) };

    /// Absorbs the next operation.
    ///
    /// # Errors
    ///
    /// Returns only `OutOfMemory`, with nothing changed, if memory is refused.
    fn absorb(&mut self, entry: &Entry) -> Result<(), OutOfMemory>
        requires next { (catalogue : List JobTree) × (log : List Entry) × stands self.old catalogue log × IsLegalLog catalogue (log ++ entry.now ∷ []) }
        ensures absorbed { (catalogue : List JobTree) (log : List Entry) → stands self.old catalogue log → IsLegalLog catalogue (log ++ entry.now ∷ []) → OnOk result (stands self.new catalogue (log ++ entry.now ∷ [])) }
        ensures refused { OnErr result (self.new ≡ self.old) };

    /// Answers a question.
    ///
    /// # Errors
    ///
    /// Returns the question's refusal if it applies, or `OutOfMemory` instead of any answer if
    /// memory is refused.
    fn tell(&self, ask: &Self::Ask) -> Result<Self::Said, Refusal>
        requires some { (catalogue : List JobTree) × (log : List Entry) × stands self.now catalogue log × IsLegalLog catalogue log }
        ensures { (catalogue : List JobTree) (log : List Entry) → stands self.now catalogue log → IsLegalLog catalogue log → IsDue result (answer catalogue log ask.now) };
}
