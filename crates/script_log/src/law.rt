// Laws of a log that begins with a base.
ghost use Rattle.std.specs.Prelude.{◌≡◌, ◌∷◌, ◌++◌, [], List, ℕ, Bool, map};
ghost use Rattle.durable_log.specs.Format.{LogRecord};
ghost use Rattle.script_log.specs.Runs.{History, catalogue_record, base_record, records_of_lines, history_of};
ghost use Rattle.script_log.specs.Bases.{IsBaseOf};

/// A law: a log of a catalogue and a base has these in its history, and no lines. The base is in its
/// place.
pub fn a_catalogue_and_a_base_begin_a_history()
    ensures history { (text : List ℕ) (lines : List (List ℕ))
        → history_of (catalogue_record text ∷ map base_record lines) ≡ record { catalogue = text; base = lines; lines = [] } }
    ensures in_place { (text : List ℕ) (lines : List (List ℕ))
        → IsBaseOf (catalogue_record text ∷ map base_record lines) (map base_record lines) }
{}

/// A law: the base of a log stays in its place, and is the same, whatever lines of a run are
/// recorded, and if a further catalogue is.
pub fn the_base_stays_in_its_place()
    ensures run { (keeps : History → List ℕ → Bool) (reply : History → List ℕ → List ℕ) (records base : List LogRecord) (lines : List (List ℕ))
        → IsBaseOf records base → IsBaseOf (records ++ records_of_lines keeps reply (history_of records) lines) base }
    ensures catalogue { (records base : List LogRecord) (text : List ℕ)
        → IsBaseOf records base → IsBaseOf (records ++ catalogue_record text ∷ []) base }
{}
