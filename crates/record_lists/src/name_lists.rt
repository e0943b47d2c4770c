ghost use Rattle.std.specs.Prelude.{◌≡◌, ℕ, ◌==◌, ◌≤◌, ◌++◌, ◌∷◌, [], List, bytes_eq, position, slice_get, OnOk, OnErr, if◌then◌else◌};
ghost use Rattle.batch_history.specs.Lists.{is_at};
ghost use Rattle.record_lists.specs.Numbers.{numbers_named, without_number, AreFirstsUpTo};

use batch_ids::{Listed, OutOfMemory};
use indexmap::IndexMap;
use std::alloc::Global;

/// Lists of numbers by name, such as the numbers of each job's job instances. A name without
/// numbers has an empty list.
#[derive(Debug, Drop)]
pub struct NameLists {
    alloc: Global,
    lists: IndexMap<String, Listed<u64>>,
}

impl NameLists {
    /// Returns empty lists. Allocates nothing.
    pub fn new(alloc: Global) -> NameLists
        ensures { (q : List ℕ) → numbers_named result q ≡ [] }
    {
        NameLists {
            alloc,
            lists: IndexMap::new(alloc),
        }
    }

    /// Returns the numbers under a name, in the order in which they were appended.
    pub fn under(&self, name: &str) -> &[u64]
        ensures { result.now ≡ numbers_named self.now name.now }
    {
        match self.lists.get(name) {
            Some(numbers) => numbers.as_slice(),
            None => &[],
        }
    }

    /// Checks whether a number is the first of the list of a name. A name without numbers has none.
    pub fn is_first(&self, name: &str, number: u64) -> bool
        ensures { result ≡ is_at number (slice_get (numbers_named self.now name.now) 0) }
    {
        match self.under(name).first() {
            Some(first) => *first == number,
            None => false,
        }
    }

    /// Appends a number to the list of a name.
    ///
    /// # Errors
    ///
    /// Returns `OutOfMemory` if memory is refused. The lists are then as they were.
    pub fn push(&mut self, name: &str, number: u64) -> Result<(), OutOfMemory>
        ensures added { OnOk result ((q : List ℕ) → numbers_named self.new q
            ≡ (if bytes_eq name.now q then numbers_named self.old q ++ number ∷ [] else numbers_named self.old q)) }
        ensures unchanged { OnErr result ((q : List ℕ)
            → numbers_named self.new q ≡ numbers_named self.old q) }
    {
        if let Some(known) = self.lists.get_mut(name) {
            known.push(number)?;
            return Ok(());
        }
        let key = String::from_str(self.alloc, name)?;
        let mut first = Listed::new(self.alloc);
        first.push(number)?;
        self.lists.insert(key, first)?;
        Ok(())
    }

    /// Removes a number from the list of a name. Allocates nothing, and compares the numbers before
    /// the removed one.
    pub fn remove(&mut self, name: &str, number: u64)
        ensures { (q : List ℕ) → numbers_named self.new q
            ≡ (if bytes_eq name.now q then without_number number (numbers_named self.old q) else numbers_named self.old q) }
    {
        self.leave_out(name, number);
        if self.under(name).is_empty() {
            self.forget(name);
        }
    }

    fn leave_out(&mut self, name: &str, number: u64)
        ensures { (q : List ℕ) → numbers_named self.new q
            ≡ (if bytes_eq name.now q then without_number number (numbers_named self.old q) else numbers_named self.old q) }
    {
        if let Some(known) = self.lists.get_mut(name) {
            remove_number(known, number);
        }
    }

    /// Drops the empty list of a name.
    fn forget(&mut self, name: &str)
        requires { numbers_named self.old name.now ≡ [] }
        ensures { (q : List ℕ) → numbers_named self.new q ≡ numbers_named self.old q }
    {
        self.lists.swap_remove(name);
    }

    /// Returns the highest number that is the first of its list, or 0 if there are no lists.
    pub fn newest(&self) -> u64
        ensures bound { AreFirstsUpTo result self.now }
        ensures least { (bound : ℕ) → AreFirstsUpTo bound self.now → result ≤ bound }
    {
        let mut newest = 0;
        for (_name, numbers) in self.lists.iter() {
            if let Some(first) = numbers.as_slice().first() {
                newest = newest.max(*first);
            }
        }
        newest
    }
}

/// Removes the first occurrence of a number. Allocates nothing.
pub fn remove_number(numbers: &mut Listed<u64>, number: u64)
    ensures { numbers.new ≡ without_number number numbers.old }
{
    if let Some(place) = place_of(numbers.as_slice(), number) {
        numbers.remove(place);
    }
}

/// Returns the position of a number's first occurrence.
fn place_of(numbers: &[u64], number: u64) -> Option<usize>
    ensures { result ≡ position (λ n. n == number) numbers.now }
{
    numbers.iter().position(|n| *n == number)
}
