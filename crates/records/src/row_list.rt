//! Rows in ascending order of their numbers, of which any can be removed without moving the others.
ghost use Rattle.std.specs.Prelude.{◌≡◌, ◌==◌, ◌<◌, ◌≤◌, ◌^◌, ◌++◌, ◌∷◌, [], ℕ, Bool, List, not, true, false, is_some, find, filter, map, length, position, vec_len, vec_capacity, slice_get, Some, IfSome, OnOk};
ghost use Rattle.std.specs.List.{list_any};
ghost use Rattle.std.specs.Option.{option_copied};
ghost use Rattle.batch_history.specs.Lists.{change_first};
ghost use Rattle.records.specs.Maps.{AreBelow, AreRising};
ghost use Rattle.records.specs.Slots.{rows_in, slot_numbers, AreSlots, Rows};
ghost use Rattle.records.specs.declared.row_list.Slot.{Slot as OneSlot};

use batch_history::{ExecutionRow, JobInstance, WorkRow};
use batch_ids::OutOfMemory;
use std::alloc::Global;
use std::marker::Model;

/// A row that has a number of its own.
pub trait Numbered: Drop {
    ghost use Rattle.std.specs.Prelude.{◌≡◌, ℕ};

    /// The number of a row in contracts.
    ghost number: { Self → ℕ };

    /// Returns the number of the row.
    fn number(&self) -> u64
        ensures { result ≡ number self.now };
}

impl Numbered for JobInstance {
    ghost number = { λ row. row.instance };

    fn number(&self) -> u64 {
        self.instance.value()
    }
}

impl Numbered for ExecutionRow {
    ghost number = { λ row. row.execution };

    fn number(&self) -> u64 {
        self.execution.value()
    }
}

impl Numbered for WorkRow {
    ghost number = { λ row. row.work };

    fn number(&self) -> u64 {
        self.work.value()
    }
}

/// A slot of a list of rows: a number, and the row with this number until that is removed.
#[derive(Debug, Drop)]
pub struct Slot<T> {
    number: u64,
    row: Option<T>,
}

/// Rows in ascending order of their numbers. A removed row leaves an empty slot, so that no other
/// row moves.
#[derive(Debug, Drop)]
pub struct RowList<T: Numbered> {
    slots: Vec<Slot<T>>,
}

impl<T: Numbered> Model for RowList<T> {
    ghost use Rattle.std.specs.Prelude.{◌-◌, vec_len, vec_capacity};
    ghost use Rattle.records.specs.Slots.{rows_in, AreSlots, Rows};

    ghost Value = { Rows T };

    ghost view = { λ list. record {
      rows = rows_in list.slots.items;
      room = vec_capacity list.slots - vec_len list.slots;
    } };

    ghost invariant = { λ list. AreSlots T.number list.slots.items };
}

impl<T: Numbered> RowList<T> {
    /// Returns a list without rows. Allocates nothing.
    pub(crate) fn new(alloc: Global) -> RowList<T>
        ensures { result.rows ≡ [] }
    {
        RowList {
            slots: Vec::new(alloc),
        }
    }

    /// Returns the allocator of the rows.
    pub(crate) fn alloc(&self) -> Global {
        *self.slots.allocator()
    }

    /// Returns the row with this number, if it exists. Looks at the row's usual position, then does
    /// a binary search.
    pub(crate) fn get(&self, number: u64) -> Option<&T>
        ensures row { option_copied result ≡ find (λ row. T.number row == number) self.now.rows }
        ensures few { length self.now.rows < 2 ^ 63 }
    {
        let place = slot_place(self.slots.as_slice(), number)?;
        self.slots[place].row.as_ref()
    }

    /// Reserves room for a row. There are fewer than 2^63 rows.
    ///
    /// Returns `OutOfMemory`, with the rows unchanged, if memory is refused.
    pub(crate) fn reserve(&mut self) -> Result<(), OutOfMemory>
        ensures rows { self.new.rows ≡ self.old.rows }
        ensures few { OnOk result (length self.old.rows < 2 ^ 63) }
        ensures room { OnOk result (0 < self.new.room) }
    {
        self.slots.reserve(1)?;
        Ok(())
    }

    /// Appends a row, for which room was reserved. Its number must be above the existing ones.
    pub(crate) fn push_reserved(&mut self, row: T)
        requires room { 0 < self.old.room }
        requires above { AreBelow (T.number row) (map T.number self.old.rows) }
        ensures { self.new.rows ≡ self.old.rows ++ row ∷ [] }
    {
        let number = row.number();
        drop_from(&mut self.slots, number);
        self.slots.push_reserved(Slot {
            number,
            row: Some(row),
        });
    }

    /// Replaces the row with this number, which must exist.
    pub(crate) fn put(&mut self, number: u64, row: T)
        requires there { is_some (find (λ one. T.number one == number) self.old.rows) ≡ true }
        requires same { T.number row ≡ number }
        ensures { self.new.rows
            ≡ change_first (λ one. T.number one == number) (λ old. row) self.old.rows }
    {
        match slot_place(self.slots.as_slice(), number) {
            Some(place) => drop(self.slots[place].row.replace(row)),
            None => unreachable!(),
        }
    }

    /// Removes the rows with these numbers. Allocates nothing, and costs at most a binary search for
    /// each.
    pub(crate) fn remove_all(&mut self, numbers: &[u64])
        ensures { self.new.rows ≡ filter
            (λ row. not (list_any (λ n. n == T.number row) numbers.now)) self.old.rows }
    {
        for number in numbers {
            self.remove(*number);
        }
    }

    /// Removes the row with this number, if it exists. Allocates nothing, and costs a binary
    /// search.
    pub(crate) fn remove(&mut self, number: u64)
        ensures { self.new.rows ≡ filter (λ row. not (number == T.number row)) self.old.rows }
    {
        if let Some(place) = slot_place(self.slots.as_slice(), number) {
            drop(self.slots[place].row.take());
        }
    }

    /// Returns all rows, in ascending order of their numbers.
    pub(crate) fn rows(&self) -> RowsLeft<'_, T>
        ensures { rows_in result.slots.now ≡ self.now.rows }
    {
        RowsLeft {
            slots: self.slots.as_slice(),
        }
    }

    /// Returns the rows up to the one with this number. Returns all rows if this number has no
    /// slot.
    pub(crate) fn rows_through(&self, number: u64) -> RowsLeft<'_, T>
        ensures { (p : T → Bool) → ((row : T) → number < T.number row → p row ≡ false)
            → filter p (rows_in result.slots.now) ≡ filter p self.now.rows }
    {
        let slots = self.slots.as_slice();
        match slot_place(slots, number) {
            Some(place) => RowsLeft {
                slots: &slots[..place + 1],
            },
            None => RowsLeft { slots },
        }
    }
}

/// The remaining rows of a list that is being read.
#[derive(Debug, Drop)]
pub struct RowsLeft<'r, T> {
    slots: &'r [Slot<T>],
}

impl<'r, T> Iterator for RowsLeft<'r, T> {
    ghost use Rattle.std.specs.Iterator.{YieldsFirstRef, item_count};
    ghost use Rattle.records.specs.Slots.{rows_left};

    type Item = &'r T;

    ghost next_gives = { YieldsFirstRef rows_left };

    ghost remaining = { item_count rows_left };

    fn next(&mut self) -> Option<&'r T> {
        while let Some((first, others)) = self.slots.split_first() {
            self.slots = others;
            if let Some(row) = first.row.as_ref() {
                return Some(row);
            }
        }
        None
    }
}

/// Returns the position of the slot with this number, if there is one.
fn slot_place<T>(slots: &[Slot<T>], number: u64) -> Option<usize>
    ensures { AreRising (slot_numbers slots.now)
        → result ≡ position (λ (slot : OneSlot T). slot.number == number) slots.now }
{
    match gapless_place(slots, number) {
        Some(place) => Some(place),
        None => searched_place(slots, number),
    }
}

/// Returns the position of the slot with this number by a binary search.
fn searched_place<T>(slots: &[Slot<T>], number: u64) -> Option<usize>
    ensures { AreRising (slot_numbers slots.now)
        → result ≡ position (λ (slot : OneSlot T). slot.number == number) slots.now }
{
    slots.binary_search_by_key(&number, |slot| slot.number).ok()
}

/// Returns the position of the slot with this number if the slots up to it have successive numbers.
/// That is the usual case. After `None`, the slot may still exist.
fn gapless_place<T>(slots: &[Slot<T>], number: u64) -> Option<usize>
    ensures { AreRising (slot_numbers slots.now) → IfSome result (λ place.
        position (λ (slot : OneSlot T). slot.number == number) slots.now ≡ Some place) }
{
    let first = slots.first()?;
    let place = number.checked_sub(first.number)? as usize;
    let slot = slots.get(place)?;
    if slot.number == number {
        Some(place)
    } else {
        None
    }
}

/// Drops the slots with this number or one above it, which are empty.
fn drop_from<T: Numbered>(slots: &mut Vec<Slot<T>>, number: u64)
    requires slots { AreSlots T.number slots.old.items }
    requires above { AreBelow number (map T.number (rows_in slots.old.items)) }
    requires room { vec_len slots.old < vec_capacity slots.old }
    ensures rows { rows_in slots.new.items ≡ rows_in slots.old.items }
    ensures slots { AreSlots T.number slots.new.items }
    ensures above { AreBelow number (slot_numbers slots.new.items) }
    ensures room { vec_len slots.new < vec_capacity slots.new }
{
    while ends_from(slots.as_slice(), number) {
        drop(slots.pop());
    }
}

/// Checks whether the last slot has this number or one above it.
fn ends_from<T>(slots: &[Slot<T>], number: u64) -> bool
    ensures ends { result ≡ true → (front : List (OneSlot T)) × (last : OneSlot T)
        × (slots.now ≡ front ++ last ∷ []) × (number ≤ last.number) }
    ensures below { result ≡ false → AreRising (slot_numbers slots.now)
        → AreBelow number (slot_numbers slots.now) }
{
    match slots.last() {
        Some(last) => number <= last.number,
        None => false,
    }
}
