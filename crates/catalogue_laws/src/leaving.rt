ghost use Rattle.std.specs.Prelude.{ℕ, ◌≡◌, List, map};
ghost use Rattle.batch_history.specs.declared.call.Entry.{Entry};
ghost use Rattle.batch_history.specs.Legal.{IsLegal};
ghost use Rattle.batch_history.specs.Rows.{history, rows};
ghost use Rattle.catalogue_laws.specs.Leaving.{AreShort, KeepsJobs, name_in_past, with_hidden};
ghost use Rattle.catalogue_laws.specs.Renaming.{entry_renamed};
ghost use Rattle.jsl_model.specs.Jobs.{JobTree};

/// A catalogue may leave out the jobs that no row names, or have other ones under their ids. There
/// is a legal history with the same rows, and with the same operations: only the starts of job
/// instances that are gone name other jobs. These stand behind the new catalogue, under ids that
/// are too long for any call.
///
/// The function does nothing: its contract is the law, of every legal history.
pub fn jobs_that_no_row_names_may_leave_a_catalogue()
    ensures legal { (limit : ℕ) (earlier now : List JobTree) (log : List Entry) → AreShort now
        → KeepsJobs (rows (history earlier log)) now → IsLegal limit (history earlier log)
        → IsLegal limit (history (with_hidden now earlier) (map (entry_renamed (name_in_past (rows (history earlier log)))) log)) }
    ensures rows { (limit : ℕ) (earlier now : List JobTree) (log : List Entry) → AreShort now
        → KeepsJobs (rows (history earlier log)) now → IsLegal limit (history earlier log)
        → rows (history (with_hidden now earlier) (map (entry_renamed (name_in_past (rows (history earlier log)))) log))
        ≡ record (rows (history earlier log)) { catalogue = with_hidden now earlier } }
{}
