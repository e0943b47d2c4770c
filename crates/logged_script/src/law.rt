// The history for which a log stands.
ghost use Rattle.std.specs.Prelude.{◌≡◌, Bool, List, [], ℕ, length, map, nat_lt};
ghost use Rattle.batch_history.specs.Legal.{IsLegal, most_numbered};
ghost use Rattle.batch_history.specs.Rows.{History, history, rows};
ghost use Rattle.catalogue_laws.specs.Leaving.{name_in_past, over_hidden, with_hidden};
ghost use Rattle.catalogue_laws.specs.Renaming.{entry_renamed};
ghost use Rattle.script_engine.specs.ByRows.{line_text_by};
ghost use Rattle.script_engine.specs.Script.{begin, line_history};
ghost use Rattle.script_log.specs.Runs.{History as LogHistory};
ghost use Rattle.logged_script.specs.Compactions.{IsCompactedOver};
ghost use Rattle.logged_script.specs.Histories.{IsOfBase, history_at, is_kept, jobs_at, reply_at, rows_at};
ghost use Rattle.logged_script.specs.Tags.{command_in};

/// A log stands for legal histories of the job repository, with or without tags: for each one with
/// the rows of its base, and behind it the operations of its lines' commands. A log without a base
/// stands for these operations alone.
///
/// - Its rows are those of each such history. Only the catalogue of that may have more jobs, under
///   names that no line can give.
/// - A line is logged exactly if the history has one more operation after its command.
/// - The reply to a line is the one that is due to its command after each such history.
///
/// The function does nothing: its contract is the law, of all logs.
pub fn logs_stand_for_legal_histories()
    ensures begun { (h : LogHistory) → h.base ≡ [] → IsOfBase h (begin (jobs_at h)) }
    ensures legal { (tags : Bool) (h : LogHistory) (g : History) → IsOfBase h g
        → IsLegal most_numbered (history_at tags h g) }
    ensures rows { (tags : Bool) (h : LogHistory) (g : History) → (from : IsOfBase h g)
        → rows (history_at tags h g) ≡ over_hidden from.hidden (rows_at tags h) }
    ensures kept { (tags : Bool) (h : LogHistory) (g : History) (line : List ℕ) → IsOfBase h g
        → is_kept tags h line ≡ nat_lt (length (history_at tags h g).log)
        (length (line_history most_numbered (history_at tags h g) (command_in tags line)).log) }
    ensures reply { (tags : Bool) (h : LogHistory) (g : History) (line : List ℕ) → IsOfBase h g
        → reply_at tags h line
        ≡ line_text_by most_numbered (rows (history_at tags h g)) (command_in tags line) }
{}

/// A compacted log stands for the operations for which it stood before.
///
/// - Over the same jobs these are the same histories.
/// - Over other jobs there is such a history for each one before. Its operations are the same, but
///   the starts of job instances that are gone name jobs that no line can name.
///
/// So all that holds of legal histories holds of it, since the first day. The function does nothing:
/// its contract is the law, of all logs.
pub fn compacted_logs_stand_for_the_same_operations()
    ensures same { (tags : Bool) (h now : LogHistory) (line : List ℕ) (g : History) → IsCompactedOver tags h line now
        → jobs_at now ≡ (rows_at tags h).catalogue → IsOfBase h g → IsOfBase now (history_at tags h g) }
    ensures other { (tags : Bool) (h now : LogHistory) (line : List ℕ) (g : History) → IsCompactedOver tags h line now
        → IsOfBase h g → IsOfBase now (history (with_hidden (jobs_at now) (history_at tags h g).catalogue)
        (map (entry_renamed (name_in_past (rows (history_at tags h g)))) (history_at tags h g).log)) }
{}
