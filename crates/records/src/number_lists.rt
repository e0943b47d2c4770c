ghost use Rattle.std.specs.List.{flat_map, list_any};
ghost use Rattle.std.specs.Prelude.{◌≡◌, ℕ, ◌==◌, ◌++◌, ◌∷◌, [], true, IfOk, OnOk, OnErr, if◌then◌else◌};
ghost use Rattle.records.specs.Indexes.{numbers_under, without_number};
ghost use Rattle.records.specs.Maps.{AreRising};

use batch_ids::{Listed, OutOfMemory};
use indexmap::IndexMap;
use record_lists::remove_number;
use std::alloc::Global;

/// Lists of numbers by number: the rows that belong to another row. A number without rows has an
/// empty list.
#[derive(Debug, Drop)]
pub struct NumberLists {
    alloc: Global,
    lists: IndexMap<u64, Listed<u64>>,
}

impl NumberLists {
    /// Returns empty lists. Allocates nothing.
    pub(crate) fn new(alloc: Global) -> NumberLists
        ensures { (q : ℕ) → numbers_under result q ≡ [] }
    {
        NumberLists {
            alloc,
            lists: IndexMap::new(alloc),
        }
    }

    /// Returns the numbers under `key`.
    pub(crate) fn under(&self, key: u64) -> &[u64]
        ensures { result.now ≡ numbers_under self.now key }
    {
        match self.lists.get(&key) {
            Some(numbers) => numbers.as_slice(),
            None => &[],
        }
    }

    /// Appends a number to the list of `key`.
    ///
    /// Returns `OutOfMemory`, with nothing changed, if memory is refused.
    pub(crate) fn push(&mut self, key: u64, number: u64) -> Result<(), OutOfMemory>
        ensures added { OnOk result ((q : ℕ) → numbers_under self.new q
            ≡ (if key == q then numbers_under self.old q ++ number ∷ [] else numbers_under self.old q)) }
        ensures unchanged { OnErr result ((q : ℕ)
            → numbers_under self.new q ≡ numbers_under self.old q) }
    {
        if let Some(known) = self.lists.get_mut(&key) {
            known.push(number)?;
            return Ok(());
        }
        let mut first = Listed::new(self.alloc);
        first.push(number)?;
        self.lists.insert(key, first)?;
        Ok(())
    }

    /// Removes a number from the list of `key`. Allocates nothing.
    pub(crate) fn leave_out(&mut self, key: u64, number: u64)
        ensures { (q : ℕ) → numbers_under self.new q
            ≡ (if key == q then without_number number (numbers_under self.old q) else numbers_under self.old q) }
    {
        self.leave_in_list(key, number);
        if self.under(key).is_empty() {
            self.remove(key);
        }
    }

    fn leave_in_list(&mut self, key: u64, number: u64)
        ensures { (q : ℕ) → numbers_under self.new q
            ≡ (if key == q then without_number number (numbers_under self.old q) else numbers_under self.old q) }
    {
        if let Some(known) = self.lists.get_mut(&key) {
            remove_number(known, number);
        }
    }

    /// Removes the list of `key`. Allocates nothing.
    pub(crate) fn remove(&mut self, key: u64)
        ensures { (q : ℕ) → numbers_under self.new q
            ≡ (if key == q then [] else numbers_under self.old q) }
    {
        self.lists.swap_remove(&key);
    }

    /// Removes the lists of these keys. Allocates nothing.
    pub(crate) fn remove_all(&mut self, keys: &[u64])
        ensures { (q : ℕ) → numbers_under self.new q
            ≡ (if list_any (λ key. key == q) keys.now then [] else numbers_under self.old q) }
    {
        for key in keys {
            self.remove(*key);
        }
    }
}

/// Follows two indexes: concatenates the lists in `second` of the numbers that `first` has under
/// `key`.
pub(crate) fn numbers_through(
    alloc: Global,
    first: &NumberLists,
    second: &NumberLists,
    key: u64,
) -> Result<Vec<u64>, OutOfMemory>
    ensures { IfOk result (λ numbers. numbers.items
        ≡ flat_map (numbers_under second.now) (numbers_under first.now key)) }
{
    let mut numbers = Vec::new(alloc);
    for middle in first.under(key) {
        numbers.extend_from_slice(second.under(*middle))?;
    }
    Ok(numbers)
}

/// Checks whether each number is above the one before it.
pub(crate) fn are_rising(numbers: &[u64]) -> bool
    ensures { result ≡ true → AreRising numbers.now }
{
    let mut place = numbers.len();
    while 1 < place {
        place -= 1;
        if numbers[place] <= numbers[place - 1] {
            return false;
        }
    }
    true
}
