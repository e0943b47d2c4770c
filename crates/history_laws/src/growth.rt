ghost use Rattle.std.specs.Prelude.{ℕ, ◌≡◌, ◌++◌, List};
ghost use Rattle.batch_history.specs.declared.call.Entry.{Entry};
ghost use Rattle.batch_history.specs.Legal.{IsLegal};
ghost use Rattle.batch_history.specs.Rows.{history, rows};
ghost use Rattle.jsl_model.specs.Jobs.{JobTree};

/// A legal history over a catalogue is also legal over that catalogue with more jobs after its own,
/// with equal rows. So a log may go on over a catalogue to which jobs were added.
///
/// The function does nothing: its contract is the law, of every legal history.
pub fn legal_histories_stay_legal_over_more_jobs()
    ensures legal { (limit : ℕ) (catalogue more : List JobTree) (log : List Entry) → IsLegal limit (history catalogue log)
        → IsLegal limit (history (catalogue ++ more) log) }
    ensures rows { (limit : ℕ) (catalogue more : List JobTree) (log : List Entry) → IsLegal limit (history catalogue log)
        → rows (history (catalogue ++ more) log) ≡ record (rows (history catalogue log)) { catalogue = catalogue ++ more } }
{}
