ghost use Rattle.std.specs.Prelude.{ℕ, ◌≡◌, List, map};
ghost use Rattle.batch_history.specs.declared.call.Entry.{Entry};
ghost use Rattle.batch_history.specs.Legal.{IsLegal};
ghost use Rattle.batch_history.specs.Rows.{history, rows};
ghost use Rattle.catalogue_laws.specs.Renaming.{HasRenamed, entry_renamed, rows_renamed};
ghost use Rattle.jsl_model.specs.Jobs.{JobTree};

/// A legal history stays legal over another catalogue, in which each of its jobs stands under
/// another name, if its starts name these. Its rows are the same, with these names. So a job that
/// no row names any more may have had any name, and a catalogue may leave it out.
///
/// The function does nothing: its contract is the law, of every legal history.
pub fn legal_histories_stay_legal_with_jobs_renamed()
    ensures legal { (limit : ℕ) (name_of : List ℕ → List ℕ) (catalogue other : List JobTree) (log : List Entry)
        → HasRenamed name_of catalogue other → IsLegal limit (history catalogue log)
        → IsLegal limit (history other (map (entry_renamed name_of) log)) }
    ensures rows { (limit : ℕ) (name_of : List ℕ → List ℕ) (catalogue other : List JobTree) (log : List Entry)
        → HasRenamed name_of catalogue other → IsLegal limit (history catalogue log)
        → rows (history other (map (entry_renamed name_of) log)) ≡ rows_renamed name_of other (rows (history catalogue log)) }
{}
