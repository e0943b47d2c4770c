ghost use Rattle.std.specs.Prelude.{ℕ, ◌≡◌, ◌==◌, ◌&&◌, ◌||◌, ◌++◌, ◌∷◌, [], true, false, is_some, List, bytes_eq, IfSome, OnOk, OnErr, if◌then◌else◌};
ghost use Rattle.records.specs.Indexes.{has_steps, numbers_named, numbers_of_step, without_number};

use batch_ids::OutOfMemory;
use indexmap::IndexMap;
use record_lists::NameLists;
use std::alloc::Global;

/// The work items of each step, for some of the job instances.
#[derive(Debug, Drop)]
pub struct StepLists {
    alloc: Global,
    lists: IndexMap<u64, NameLists>,
}

impl StepLists {
    /// Returns the lists of no job instance. Allocates nothing.
    pub(crate) fn new(alloc: Global) -> StepLists
        ensures { (i : ℕ) → has_steps result i ≡ false }
    {
        StepLists {
            alloc,
            lists: IndexMap::new(alloc),
        }
    }

    /// Returns the lists of a job instance, if it has any.
    pub(crate) fn of(&self, instance: u64) -> Option<&NameLists>
        ensures there { is_some result ≡ has_steps self.now instance }
        ensures lists { IfSome result (λ names. (q : List ℕ)
            → numbers_named names.now q ≡ numbers_of_step self.now instance q) }
    {
        self.lists.get(&instance)
    }

    /// Sets the lists of a job instance.
    ///
    /// Returns `OutOfMemory`, with nothing changed, if memory is refused.
    pub(crate) fn put(&mut self, instance: u64, names: NameLists) -> Result<(), OutOfMemory>
        ensures has { OnOk result ((i : ℕ)
            → has_steps self.new i ≡ (instance == i || has_steps self.old i)) }
        ensures lists { OnOk result ((i : ℕ) (q : List ℕ) → numbers_of_step self.new i q
            ≡ (if instance == i then numbers_named names q else numbers_of_step self.old i q)) }
        ensures had { OnErr result ((i : ℕ) → has_steps self.new i ≡ has_steps self.old i) }
        ensures unchanged { OnErr result ((i : ℕ) (q : List ℕ)
            → numbers_of_step self.new i q ≡ numbers_of_step self.old i q) }
    {
        self.lists.insert(instance, names)?;
        Ok(())
    }

    /// Appends a number to the list of a step, if the job instance has lists.
    ///
    /// Returns `OutOfMemory`, with nothing changed, if memory is refused.
    pub(crate) fn push(&mut self, instance: u64, step: &str, number: u64) -> Result<(), OutOfMemory>
        ensures has { (i : ℕ) → has_steps self.new i ≡ has_steps self.old i }
        ensures added { OnOk result ((i : ℕ) (q : List ℕ) → has_steps self.old i ≡ true
            → numbers_of_step self.new i q
            ≡ (if instance == i && bytes_eq step.now q then numbers_of_step self.old i q ++ number ∷ [] else numbers_of_step self.old i q)) }
        ensures unchanged { OnErr result ((i : ℕ) (q : List ℕ)
            → numbers_of_step self.new i q ≡ numbers_of_step self.old i q) }
    {
        match self.lists.get_mut(&instance) {
            Some(known) => known.push(step, number),
            None => Ok(()),
        }
    }

    /// Removes a number from the list of a step of a job instance. Allocates nothing.
    pub(crate) fn leave_out(&mut self, instance: u64, step: &str, number: u64)
        ensures has { (i : ℕ) → has_steps self.new i ≡ has_steps self.old i }
        ensures left { (i : ℕ) (q : List ℕ) → numbers_of_step self.new i q
            ≡ (if instance == i && bytes_eq step.now q then without_number number (numbers_of_step self.old i q) else numbers_of_step self.old i q) }
    {
        if let Some(known) = self.lists.get_mut(&instance) {
            known.remove(step, number);
        }
    }

    /// Removes the lists of a job instance. Allocates nothing.
    pub(crate) fn remove(&mut self, instance: u64)
        ensures has { (i : ℕ) → has_steps self.new i
            ≡ (if instance == i then false else has_steps self.old i) }
        ensures left { (i : ℕ) (q : List ℕ) → numbers_of_step self.new i q
            ≡ (if instance == i then [] else numbers_of_step self.old i q) }
    {
        self.lists.swap_remove(&instance);
    }

    /// Removes all lists unless `keeps`. Allocates nothing.
    pub(crate) fn keep_if(&mut self, keeps: bool)
        ensures has { (i : ℕ) → has_steps self.new i ≡ (keeps && has_steps self.old i) }
        ensures left { keeps ≡ true → (i : ℕ) (q : List ℕ)
            → numbers_of_step self.new i q ≡ numbers_of_step self.old i q }
    {
        if !keeps {
            self.lists = IndexMap::new(self.alloc);
        }
    }
}
