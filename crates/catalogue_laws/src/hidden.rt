ghost use Rattle.std.specs.Prelude.{ℕ, ◌≡◌, List, Ok};
ghost use Rattle.batch_history.specs.declared.call.Call.{Call};
ghost use Rattle.batch_history.specs.declared.call.Entry.{Entry};
ghost use Rattle.batch_history.specs.declared.query.Query.{Query};
ghost use Rattle.batch_history.specs.Answers.{answer_by};
ghost use Rattle.batch_history.specs.NextRows.{rows_after};
ghost use Rattle.batch_history.specs.Replies.{reply_by};
ghost use Rattle.batch_history.specs.Rows.{Rows};
ghost use Rattle.catalogue_laws.specs.Leaving.{AreNamed, CanBeMade, over_hidden};
ghost use Rattle.jsl_model.specs.Jobs.{JobTree};

/// Jobs under ids that are too long for any call change nothing: each call has the same reply, each
/// query the same answer, and an operation leads to the same rows.
///
/// The function does nothing: its contract is the law, of rows whose job executions are of jobs of
/// their catalogue.
pub fn hidden_jobs_change_no_reply()
    ensures reply { (limit : ℕ) (hidden : List JobTree) (r : Rows) (who : ℕ) (call : Call) → AreNamed r
        → CanBeMade call → reply_by limit (over_hidden hidden r) who call ≡ reply_by limit r who call }
    ensures answer { (hidden : List JobTree) (r : Rows) (query : Query) → AreNamed r
        → answer_by (over_hidden hidden r) query ≡ answer_by r query }
    ensures rows { (limit : ℕ) (hidden : List JobTree) (r : Rows) (e : Entry) → AreNamed r
        → CanBeMade e.call → reply_by limit r e.who e.call ≡ Ok e.reply
        → rows_after (over_hidden hidden r) e ≡ over_hidden hidden (rows_after r e) }
    ensures named { (limit : ℕ) (r : Rows) (e : Entry) → AreNamed r
        → reply_by limit r e.who e.call ≡ Ok e.reply → AreNamed (rows_after r e) }
{}
