//! The numbers of the unfinished job executions of each job.
ghost use Rattle.std.specs.Prelude.{◌≡◌, ℕ, ◌==◌, ◌++◌, ◌∷◌, [], List, bytes_eq, IfOk, OnOk, if◌then◌else◌};
ghost use Rattle.std.specs.Bool.{OnTrue};
ghost use Rattle.records.specs.Indexes.{numbers_running, without_number};
ghost use Rattle.records.specs.Maps.{AreBelow};

use batch_ids::{ExecutionId, OutOfMemory};
use indexmap::IndexMap;
use std::alloc::Global;
use std::collections::BTreeSet;
use std::fmt::{self, Debug, Formatter};
use std::marker::Model;

/// A set of numbers in ascending order, as a tree. A number can be appended, and any can be removed
/// by a search of the tree.
#[derive(Drop)]
struct Numbers {
    set: BTreeSet<u64>,
}

impl Model for Numbers {
    ghost use Rattle.std.specs.Prelude.{ℕ, List};

    ghost Value = { List ℕ };

    ghost view = { λ numbers. numbers.set.keys };
}

impl Numbers {
    /// Returns a set of this number alone.
    fn of(alloc: Global, number: u64) -> Result<Numbers, OutOfMemory>
        ensures { IfOk result (λ numbers. numbers ≡ number ∷ []) }
    {
        let mut set = BTreeSet::new(alloc);
        set.insert(number)?;
        Ok(Numbers { set })
    }

    /// Checks whether all numbers of the set are below this one.
    fn are_below(&self, number: u64) -> bool
        ensures { OnTrue result (AreBelow number self.now) }
    {
        match self.set.last() {
            Some(last) => *last < number,
            None => true,
        }
    }

    /// Appends a number, and returns whether that succeeded. It fails if the set has a number that
    /// isn't below this one, or if memory is refused.
    fn push(&mut self, number: u64) -> bool
        ensures { OnTrue result (self.new ≡ self.old ++ number ∷ []) }
    {
        if !self.are_below(number) {
            return false;
        }
        match self.set.insert(number) {
            Ok(_) => true,
            Err(_) => false,
        }
    }

    /// Removes a number. Allocates nothing.
    fn leave_out(&mut self, number: u64)
        ensures { self.new ≡ without_number number self.old }
    {
        self.set.remove(&number);
    }

    fn is_empty(&self) -> bool
        ensures { OnTrue result (self.now ≡ []) }
    {
        self.set.is_empty()
    }

    /// Returns the job executions with these numbers.
    fn executions(&self, alloc: Global) -> Result<Vec<ExecutionId>, OutOfMemory>
        ensures { IfOk result (λ found. found.items ≡ self.now) }
    {
        let mut found = Vec::new(alloc);
        for number in self.set.iter() {
            found.push(ExecutionId::new(*number))?;
        }
        Ok(found)
    }
}

/// Prints the numbers as a list.
#[derive(Drop)]
struct Printed<'a> {
    numbers: &'a BTreeSet<u64>,
}

impl<'a> Debug for Printed<'a> {
    fn fmt<W: fmt::Write>(&self, f: &mut Formatter<W>) -> fmt::Result {
        let mut list = f.debug_list();
        for number in self.numbers.iter() {
            list.entry(number);
        }
        list.finish()
    }
}

impl Debug for Numbers {
    fn fmt<W: fmt::Write>(&self, f: &mut Formatter<W>) -> fmt::Result {
        let items = Printed { numbers: &self.set };
        f.debug_struct("Items").field("items", &items).finish()
    }
}

/// Numbers in ascending order, by name. A name without numbers has no list.
#[derive(Drop)]
pub struct RunningNames {
    alloc: Global,
    lists: IndexMap<String, Numbers>,
}

impl Debug for RunningNames {
    fn fmt<W: fmt::Write>(&self, f: &mut Formatter<W>) -> fmt::Result {
        f.debug_struct("NameLists")
            .field("alloc", &self.alloc)
            .field("lists", &self.lists)
            .finish()
    }
}

impl RunningNames {
    /// Returns empty lists. Allocates nothing.
    pub(crate) fn new(alloc: Global) -> RunningNames
        ensures { (q : List ℕ) → numbers_running result q ≡ [] }
    {
        RunningNames {
            alloc,
            lists: IndexMap::new(alloc),
        }
    }

    /// Returns the job executions with the numbers under a name.
    ///
    /// Returns `OutOfMemory` if memory is refused.
    pub(crate) fn executions(&self, name: &str) -> Result<Vec<ExecutionId>, OutOfMemory>
        ensures { IfOk result (λ found. found.items ≡ numbers_running self.now name.now) }
    {
        match self.lists.get(name) {
            Some(numbers) => numbers.executions(self.alloc),
            None => Ok(Vec::new(self.alloc)),
        }
    }

    /// Appends a number to the list of a name, and returns whether that succeeded. It fails if the
    /// list has a number that isn't below this one, or if memory is refused.
    pub(crate) fn push(&mut self, name: &str, number: u64) -> bool
        ensures { OnTrue result ((q : List ℕ) → numbers_running self.new q
            ≡ (if bytes_eq name.now q then numbers_running self.old q ++ number ∷ [] else numbers_running self.old q)) }
    {
        match self.lists.get_mut(name) {
            Some(known) => known.push(number),
            None => self.begin(name, number).is_ok(),
        }
    }

    /// Adds a list with one number for a name that has none.
    fn begin(&mut self, name: &str, number: u64) -> Result<(), OutOfMemory>
        requires { numbers_running self.old name.now ≡ [] }
        ensures { OnOk result ((q : List ℕ) → numbers_running self.new q
            ≡ (if bytes_eq name.now q then number ∷ [] else numbers_running self.old q)) }
    {
        let key = String::from_str(self.alloc, name)?;
        let first = Numbers::of(self.alloc, number)?;
        self.lists.insert(key, first)?;
        Ok(())
    }

    /// Removes a number from the list of a name. Allocates nothing, and costs a search of the
    /// list's tree.
    pub(crate) fn remove(&mut self, name: &str, number: u64)
        ensures { (q : List ℕ) → numbers_running self.new q
            ≡ (if bytes_eq name.now q then without_number number (numbers_running self.old q) else numbers_running self.old q) }
    {
        if self.leave_out(name, number) {
            self.forget(name);
        }
    }

    /// Removes a number from the list of a name, and returns whether the list is empty then. An
    /// empty list stays.
    fn leave_out(&mut self, name: &str, number: u64) -> bool
        ensures left { (q : List ℕ) → numbers_running self.new q
            ≡ (if bytes_eq name.now q then without_number number (numbers_running self.old q) else numbers_running self.old q) }
        ensures empty { OnTrue result (numbers_running self.new name.now ≡ []) }
    {
        match self.lists.get_mut(name) {
            Some(known) => {
                known.leave_out(number);
                known.is_empty()
            }
            None => false,
        }
    }

    /// Drops the empty list of a name.
    fn forget(&mut self, name: &str)
        requires { numbers_running self.old name.now ≡ [] }
        ensures { (q : List ℕ) → numbers_running self.new q ≡ numbers_running self.old q }
    {
        self.lists.swap_remove(name);
    }
}
