ghost use Rattle.std.specs.Prelude.{ℕ, ◌≡◌, ◌==◌, [], List, None, Some, filter, map, option_copied, slice_set, IfNone, IfOk, IfSome, OnErr, OnOk, length, ◌<◌, ◌++◌, ◌∷◌};
ghost use Rattle.record_lists.specs.Places.{is_place, mark_at, checkpoints_there, AreApart};
ghost use Rattle.record_lists.specs.Placed.{is_elsewhere, with_mark, without_mark, SetsMark};

use batch_history::CheckpointRow;
use batch_ids::{InstanceId, OutOfMemory, Text};
use std::alloc::Global;
use std::collections::BTreeMap;
use std::marker::Model;
use walk_rules::WorkKey;

/// Checkpoints in one list per job instance, by the number of the job instance. A job instance
/// without checkpoints has no list. Contracts see all checkpoints in a single list.
#[derive(Debug, Drop)]
pub struct CheckpointLists {
    alloc: Global,
    lists: BTreeMap<u64, Vec<CheckpointRow>>,
}

impl Model for CheckpointLists {
    ghost use Rattle.std.specs.Prelude.{List};
    ghost use Rattle.batch_history.specs.declared.rows.CheckpointRow.{CheckpointRow as Row};
    ghost use Rattle.record_lists.specs.Listed.{rows_listed, AreListed};

    ghost Value = { List Row };

    ghost view = { λ c. rows_listed (λ rows. rows.items) c.lists.entries };

    ghost invariant = { λ c. AreListed (λ rows. rows.items) c.lists.entries };
}

impl CheckpointLists {
    /// Returns lists without any checkpoint. Allocates nothing.
    pub fn new(alloc: Global) -> CheckpointLists
        ensures { result ≡ [] }
    {
        CheckpointLists {
            alloc,
            lists: BTreeMap::new(alloc),
        }
    }

    /// Returns the checkpoints of a job instance.
    fn of_instance(&self, i: InstanceId) -> &[CheckpointRow]
        ensures { result.now ≡ filter (λ row. row.instance == i) self.now }
    {
        match self.lists.get(&i.value()) {
            Some(rows) => rows.as_slice(),
            None => &[],
        }
    }

    /// Returns the checkpoint of a step of a job instance, or of a partition of the step, if there
    /// is one.
    pub fn mark(&self, i: InstanceId, step: &WorkKey) -> Option<&Text<65536>>
        ensures { option_copied result
            ≡ mark_at self.now record { instance = i; step = step.now } }
    {
        for row in self.of_instance(i) {
            if is_place(i, step, row) {
                return Some(&row.mark);
            }
        }
        None
    }

    /// Returns all checkpoints, in ascending order of the numbers of their job instances.
    ///
    /// # Errors
    ///
    /// Returns `OutOfMemory` if memory is refused.
    pub fn rows(&self) -> Result<Vec<&CheckpointRow>, OutOfMemory>
        ensures { IfOk result (λ found. map (λ row. row.now) found.items ≡ self.now) }
    {
        let mut found = Vec::new(self.alloc);
        for rows in self.lists.values() {
            add_rows(&mut found, rows.as_slice())?;
        }
        Ok(found)
    }

    /// Sets the checkpoint of a step, or of a partition of the step. It replaces the checkpoint that
    /// the step has, if any.
    ///
    /// # Errors
    ///
    /// Returns `OutOfMemory` if memory is refused. The checkpoints are then as they were, and the
    /// given one is dropped.
    pub fn put(&mut self, row: CheckpointRow) -> Result<(), OutOfMemory>
        ensures set { OnOk result (SetsMark self.old self.new
            record { instance = row.instance; step = row.step } (Some row.mark)) }
        ensures unchanged { OnErr result (self.new ≡ self.old) }
        ensures apart { OnOk result (AreApart self.new) }
    {
        let instance = row.instance.value();
        if let Some(known) = self.lists.get_mut(&instance) {
            put_row(known, row)?;
            return Ok(());
        }
        let mut first = Vec::new(self.alloc);
        first.push(row)?;
        self.lists.insert(instance, first)?;
        Ok(())
    }

    /// Removes the checkpoint of a step, or of a partition of the step, if there is one. Allocates
    /// nothing.
    pub fn clear(&mut self, i: InstanceId, step: &WorkKey)
        ensures set { SetsMark self.old self.new record { instance = i; step = step.now } None }
        ensures apart { AreApart self.new }
    {
        self.leave_out(i, step);
        if self.of_instance(i).is_empty() {
            self.remove_instance(i);
        }
    }

    fn leave_out(&mut self, i: InstanceId, step: &WorkKey)
        ensures set { SetsMark self.old self.new record { instance = i; step = step.now } None }
        ensures apart { AreApart self.new }
    {
        if let Some(known) = self.lists.get_mut(&i.value()) {
            remove_row(known, i, step);
        }
    }

    /// Removes all checkpoints of a job instance. Allocates nothing.
    pub fn remove_instance(&mut self, i: InstanceId)
        ensures { self.new ≡ checkpoints_there (λ j. j == i) self.old }
    {
        self.lists.remove(&i.value());
    }
}

/// Appends these checkpoints.
fn add_rows<'r>(
    found: &mut Vec<&'r CheckpointRow>,
    rows: &'r [CheckpointRow],
) -> Result<(), OutOfMemory>
    ensures { OnOk result (map (λ row. row.now) found.new.items
        ≡ map (λ row. row.now) found.old.items ++ rows.now) }
{
    for row in rows {
        found.push(row)?;
    }
    Ok(())
}

/// Sets a checkpoint in the list of its job instance.
fn put_row(rows: &mut Vec<CheckpointRow>, row: CheckpointRow) -> Result<(), OutOfMemory>
    ensures put { OnOk result (rows.new.items
        ≡ with_mark record { instance = row.instance; step = row.step } row.mark rows.old.items) }
    ensures unchanged { OnErr result (rows.new.items ≡ rows.old.items) }
{
    match place_of(rows.as_slice(), row.instance, &row.step) {
        Some(place) => rows[place] = row,
        None => rows.push(row)?,
    }
    Ok(())
}

fn remove_row(rows: &mut Vec<CheckpointRow>, i: InstanceId, step: &WorkKey)
    ensures { rows.new.items
        ≡ without_mark record { instance = i; step = step.now } rows.old.items }
{
    rows.retain(|row| is_elsewhere(i, step, row));
}

/// Returns the position of a step's checkpoint in the list, if there is one.
fn place_of(rows: &[CheckpointRow], i: InstanceId, step: &WorkKey) -> Option<usize>
    ensures held { IfSome result (λ k. (k < length rows.now)
        × ((mark : List ℕ) → with_mark record {
          instance = i;
          step = step.now;
        } mark rows.now
        ≡ slice_set rows.now k record {
          instance = i;
          step = step.now;
          mark = mark;
        })) }
    ensures absent { IfNone result ((mark : List ℕ)
        → with_mark record { instance = i; step = step.now } mark rows.now
        ≡ rows.now ++ record { instance = i; step = step.now; mark = mark } ∷ []) }
{
    for (place, row) in rows.iter().enumerate() {
        if is_place(i, step, row) {
            return Some(place);
        }
    }
    None
}

/// Checks whether a row is the checkpoint of this step of this job instance.
fn is_place(i: InstanceId, step: &WorkKey, row: &CheckpointRow) -> bool
    ensures { result ≡ is_place record { instance = i; step = step.now } row.now }
{
    row.instance == i && row.step == *step
}

/// Checks whether a row is the checkpoint of another step or job instance.
fn is_elsewhere(i: InstanceId, step: &WorkKey, row: &CheckpointRow) -> bool
    ensures { result ≡ is_elsewhere record { instance = i; step = step.now } row.now }
{
    !is_place(i, step, row)
}
