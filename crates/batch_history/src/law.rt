ghost use Rattle.std.specs.Prelude.{ℕ, ◌≡◌, Ok, false};
ghost use Rattle.batch_history.specs.declared.call.Entry.{Entry};
ghost use Rattle.batch_history.specs.Legal.{IsLegal, grown};
ghost use Rattle.batch_history.specs.Replies.{is_nothing, reply};
ghost use Rattle.batch_history.specs.Rows.{History};

/// A legal history stays legal if an operation is added with the reply due to it, unless that is
/// Nothing.
///
/// The function does nothing: its contract is the law.
pub fn legal_histories_grow()
    ensures { (limit : ℕ) (h : History) (e : Entry) → IsLegal limit h
        → reply limit h e.who e.call ≡ Ok e.reply → is_nothing e.reply ≡ false
        → IsLegal limit (grown h e) }
{}
