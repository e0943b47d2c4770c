ghost use Rattle.std.specs.Prelude.{ℕ, List, ◌≡◌};
ghost use Rattle.batch_ids.specs.Parameters.{Pair, IsRising, parameters_of, value_given_last, value_of};

/// Proves that the last value given with a key is the key's value, and that a key that was not
/// given has no value. No other pairs by rising keys have these values.
///
/// The function does nothing: its contract is the law. See Jakarta Batch 2.1, "JobOperator"
/// (`start`).
pub fn the_value_given_last_counts()
    ensures values { (given : List Pair) (key : List ℕ)
        → value_of (parameters_of given) key ≡ value_given_last given key }
    ensures rising { (given : List Pair) → IsRising (parameters_of given) }
    ensures alone { (given pairs : List Pair) → IsRising pairs
        → ((key : List ℕ) → value_of pairs key ≡ value_given_last given key)
        → pairs ≡ parameters_of given }
{}
