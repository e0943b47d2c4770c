ghost use Rattle.std.specs.Prelude.{ℕ, ◌≡◌, Some, true, IfOk, IfSome, find};
ghost use Rattle.std.specs.Option.{option_map};
ghost use Rattle.batch_ids.specs.declared.metric_step.MetricStep.{MetricStep as Step};
ghost use Rattle.batch_history.specs.NextRows.{over_as};
ghost use Rattle.batch_history.specs.Lists.{change_first};
ghost use Rattle.batch_history.specs.Replies.{first_ready, is_execution};
ghost use Rattle.batch_history.specs.Walks.{walk_value, known_elements};
ghost use Rattle.batch_history.specs.Works.{is_work};
ghost use Rattle.records.specs.Maps.{execution_numbers, AreRising};
ghost use Rattle.restart_rules.specs.Placed.{ArePlaced, is_placed};
ghost use Rattle.seq_repository.specs.Agendas.{agenda_of};
ghost use Rattle.seq_repository.specs.Following.{AreFollowed, kept_at};
ghost use Rattle.seq_repository.specs.Searches.{has_ready};

use crate::cursors::{self, Slot};
use batch_history::ExecutionRow;
use batch_ids::{ExecutionId, OutOfMemory, T256, WorkId, WorkOutcome};
use jsl_model::Catalogue;
use records::Records;
use reply_rules::first_ready;
use restart_rules::{state_fact, walk_value};
use std::alloc::Global;
use std::collections::{BTreeMap, BTreeSet};
use walk_rules::{Fact, Known, Value, WorkKey};

/// Returns the facts about the work keys of a job execution after a work item of it is over.
pub(crate) fn known_once_finished(
    alloc: Global,
    records: &Records,
    x: ExecutionId,
    w: WorkId,
    outcome: WorkOutcome,
    exit: &T256,
) -> Result<Vec<Known>, OutOfMemory>
    requires { IfSome (find (is_work w) records.now.works) (λ row. row.execution ≡ x) }
    ensures { (step : Step) (at number : ℕ)
        → IfOk result (λ known. known.items
        ≡ known_elements x (change_first (is_work w)
        (over_as outcome exit.now step at number) records.now.works)) }
{
    let mut known = Vec::new(alloc);
    let mut met = false;
    for row in records.works_of(x) {
        let here = !met && row.work == w;
        let fact = if here {
            Fact::Over(outcome, exit.try_clone()?)
        } else {
            state_fact(&row.state)?
        };
        known.push(Known {
            key: row.key()?,
            fact,
        })?;
        if here {
            met = true;
        }
    }
    Ok(known)
}

/// Returns the first work key of a walk that may be run now.
fn first_key(value: &Value) -> Result<Option<WorkKey>, OutOfMemory>
    ensures { IfOk result (λ key. key ≡ first_ready value.now) }
{
    match first_ready(value) {
        None => Ok(None),
        Some(key) => Ok(Some(key.try_clone()?)),
    }
}

/// Returns the first work key of a job execution that may be run now, from its stored walk if there
/// is one.
#[tactic(auto, using(crate::proofs::Followed::follows_value, crate::proofs::Followed::followed_at))]
fn next_key(
    alloc: Global,
    catalogue: &Catalogue,
    records: &Records,
    cursors: &BTreeMap<u64, Slot>,
    row: &ExecutionRow,
) -> Result<Option<WorkKey>, OutOfMemory>
    requires placed { is_placed catalogue.now row.now ≡ true }
    requires there { find (is_execution row.now.execution) records.now.executions ≡ Some row.now }
    requires followed { AreFollowed catalogue.now records.now.works records.now.executions
        (kept_at cursors.now) }
    ensures { IfOk result (λ key. key ≡ first_ready (walk_value catalogue.now records.now.works
        row.now.execution row.now.job row.now.plan)) }
{
    match cursors::kept(cursors, row.execution) {
        Some(cursor) => first_key(cursor.value()),
        None => {
            let value = walk_value(alloc, catalogue, records, row)?;
            first_key(&value)
        }
    }
}

/// A job execution that has something to do, and its first work key that may be run now.
#[derive(Debug, Drop)]
pub(crate) struct Claimable<'a> {
    pub(crate) row: &'a ExecutionRow,
    pub(crate) key: Option<WorkKey>,
}

/// Returns the first job execution that has something to do: the least on the agenda.
#[tactic(auto, using(crate::proofs::Agendas::least_there, crate::proofs::Agendas::least_first, crate::proofs::Agendas::none_due))]
pub(crate) fn find_claimable<'a>(
    alloc: Global,
    catalogue: &Catalogue,
    records: &'a Records,
    agenda: &BTreeSet<u64>,
    cursors: &BTreeMap<u64, Slot>,
) -> Result<Option<Claimable<'a>>, OutOfMemory>
    requires placed { ArePlaced catalogue.now records.now.executions }
    requires rising { AreRising (execution_numbers records.now.executions) }
    requires agenda { agenda.now.keys
        ≡ agenda_of catalogue.now records.now.works records.now.executions }
    requires followed { AreFollowed catalogue.now records.now.works records.now.executions
        (kept_at cursors.now) }
    ensures first { IfOk result (λ found. option_map (λ c. c.row.now) found
        ≡ find (has_ready catalogue.now records.now.works) records.now.executions) }
    ensures key { IfOk result (λ found. IfSome found (λ c. c.key
        ≡ first_ready (walk_value catalogue.now records.now.works
        c.row.now.execution c.row.now.job c.row.now.plan))) }
{
    let Some(x) = agenda.first() else {
        return Ok(None);
    };
    let Some(row) = records.execution(ExecutionId::new(*x)) else {
        unreachable!();
    };
    let key = next_key(alloc, catalogue, records, cursors, row)?;
    Ok(Some(Claimable { row, key }))
}
