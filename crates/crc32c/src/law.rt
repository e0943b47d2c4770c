ghost use Rattle.std.specs.Prelude.{◌≡◌, ◌<◌, ◌^◌, ◌++◌, ◌∷◌, [], List, ℕ};
ghost use Rattle.crc32c.specs.Check.{check_after, check_of};

/// A law: the check of bytes in two parts is that of the second, begun from that of the first.
pub fn parts_are_one()
    ensures { (check : ℕ) (front back : List ℕ)
        → check_after check (front ++ back) ≡ check_after (check_after check front) back }
{}

/// A law: begun from different checks, the same bytes have different checks.
pub fn checks_stay_apart()
    ensures { (check other : ℕ) (bytes : List ℕ) → check < 2 ^ 32 → other < 2 ^ 32
        → check_after check bytes ≡ check_after other bytes → check ≡ other }
{}

/// A law: begun from the same check, bytes that differ in one byte have different checks.
pub fn one_byte_is_seen()
    ensures { (check : ℕ) (front back : List ℕ) (a b : ℕ) → check < 2 ^ 32 → a < 256 → b < 256
        → check_after check (front ++ a ∷ back) ≡ check_after check (front ++ b ∷ back) → a ≡ b }
{}

/// A law: the check of the digits 1 to 9 in ASCII is the one that catalogues of CRCs have.
pub fn the_known_check()
    ensures { check_of (49 ∷ 50 ∷ 51 ∷ 52 ∷ 53 ∷ 54 ∷ 55 ∷ 56 ∷ 57 ∷ []) ≡ 0xe306_9283 }
{}
