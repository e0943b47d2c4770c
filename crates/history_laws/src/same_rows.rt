ghost use Rattle.std.specs.Prelude.{ℕ, ◌≡◌, ◌++◌, List};
ghost use Rattle.batch_history.specs.declared.call.Call.{Call};
ghost use Rattle.batch_history.specs.declared.call.Entry.{Entry};
ghost use Rattle.batch_history.specs.declared.query.Query.{Query};
ghost use Rattle.batch_history.specs.Answers.{answer};
ghost use Rattle.batch_history.specs.Legal.{IsLegal};
ghost use Rattle.batch_history.specs.Replies.{reply};
ghost use Rattle.batch_history.specs.Rows.{History, history, rows};

/// No call and no query tells two histories with equal rows apart:
///
/// - Each call has the same reply after both, and each query the same answer.
/// - If both are legal, operations that may follow one may follow the other. The rows are equal
///   after them too.
///
/// So the rows are enough to go on from: a log may forget the operations that made them.
///
/// The function does nothing: its contract is the law, of all histories.
pub fn histories_with_the_same_rows_are_answered_alike()
    ensures reply { (limit : ℕ) (g h : History) → rows g ≡ rows h → (who : ℕ) (call : Call)
        → reply limit g who call ≡ reply limit h who call }
    ensures answer { (g h : History) → rows g ≡ rows h → (query : Query)
        → answer g query ≡ answer h query }
    ensures legal { (limit : ℕ) (g h : History) (more : List Entry) → IsLegal limit h → rows g ≡ rows h
        → IsLegal limit (history g.catalogue (g.log ++ more)) → IsLegal limit (history h.catalogue (h.log ++ more)) }
    ensures rows { (limit : ℕ) (g h : History) (more : List Entry) → IsLegal limit h → rows g ≡ rows h
        → IsLegal limit (history g.catalogue (g.log ++ more))
        → rows (history g.catalogue (g.log ++ more)) ≡ rows (history h.catalogue (h.log ++ more)) }
{}
