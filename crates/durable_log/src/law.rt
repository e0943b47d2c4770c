ghost use Rattle.std.specs.Prelude.{◌⊎◌, ◌≢◌, ◌<◌, ◌+◌, ◌%◌, ◌^◌, ◌∷◌, ◌++◌, [], List, ℕ, length};
ghost use Rattle.durable_log.specs.Format.{LogRecord, shut};
ghost use Rattle.durable_log.specs.Files.{header, log_of, sealed_log_of, StandsFor};
ghost use Rattle.durable_log.specs.Logs.{AreSmall};
ghost use Rattle.durable_log.specs.Damage.{OneOff, written, IsRefused};

/// A law: if one byte of a file was changed, the file is refused, or it has the same records. It
/// holds for each byte: of the header, a gate, a space, a mark, a length, a number, a check, a line,
/// a line feed or a seal.
pub fn one_changed_byte_is_found()
    ensures { (records : List LogRecord) (file : List ℕ) → AreSmall records → OneOff (log_of records) file ⊎ OneOff (sealed_log_of records) file
        → StandsFor records file ⊎ IsRefused file }
{}

/// A law: if a record follows other records than those that it was written after, so that its
/// number isn't theirs, the file is refused, whatever else it has. The number counts modulo 2^32.
pub fn a_record_out_of_place_is_found()
    ensures { (front others : List LogRecord) (r : LogRecord) (rest : List ℕ)
        → AreSmall front → AreSmall (r ∷ []) → length front % 2 ^ 32 ≢ length others % 2 ^ 32
        → IsRefused (header ++ (written [] front ++ (written others (r ∷ []) ++ rest))) }
{}

/// A law: a file in which a record was left out is refused, unless that record was the last.
pub fn a_record_left_out_is_found()
    ensures { (front back : List LogRecord) (r next : LogRecord) → AreSmall (front ++ r ∷ next ∷ back)
        → IsRefused (header ++ (written [] front ++ (written (front ++ r ∷ []) (next ∷ back) ++ shut))) }
{}

/// A law: a file in which a record was doubled is refused.
pub fn a_doubled_record_is_found()
    ensures { (front back : List LogRecord) (r : LogRecord) → AreSmall (front ++ r ∷ back)
        → IsRefused (header ++ (written [] (front ++ r ∷ []) ++ (written front (r ∷ back) ++ shut))) }
{}

/// A law: a file in which two records changed places is refused. Fewer than 2^32 records may be
/// between them.
pub fn exchanged_records_are_found()
    ensures { (front between back : List LogRecord) (r q : LogRecord)
        → AreSmall (front ++ (r ∷ between) ++ q ∷ back) → length between + 1 < 2 ^ 32
        → IsRefused (header ++ (written [] front
        ++ (written (front ++ r ∷ between) (q ∷ [])
        ++ (written (front ++ r ∷ []) between
        ++ (written front (r ∷ [])
        ++ (written (front ++ (r ∷ between) ++ q ∷ []) back ++ shut)))))) }
{}
