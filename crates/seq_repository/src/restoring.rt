//! The agenda of a repository that is restored from rows, each of which shows what its walk comes
//! to.
ghost use Rattle.std.specs.Prelude.{◌≡◌, ◌≢◌, ◌↔◌, IsTrue, IfOk, MatchResult, true, is_some};
ghost use Rattle.batch_history.specs.Statuses.{batch_status, exit_status, is_finished};
ghost use Rattle.records.specs.Maps.{AreRising, execution_numbers};
ghost use Rattle.restart_rules.specs.Placed.{ArePlaced, is_placed};
ghost use Rattle.seq_repository.specs.Agendas.{agenda_of};
ghost use Rattle.seq_repository.specs.Searches.{has_ready};
ghost use Rattle.row_repository.specs.Settled.{AreSettled, IsSettled, Shows};

use crate::agenda;
use batch_history::ExecutionRow;
use batch_ids::{OutOfMemory, T256};
use jsl_model::Catalogue;
use records::Records;
use reply_rules::{batch_status, exit_status, first_ready, has_something, is_finished};
use restart_rules::walk_value;
use row_repository::RowFault;
use std::alloc::Global;
use std::collections::BTreeSet;
use walk_rules::Value;

/// Checks whether two exit statuses are equal.
fn is_same_exit(one: &Option<T256>, other: &Option<T256>) -> bool
    ensures { IsTrue result ↔ (one.now ≡ other.now) }
{
    match (one, other) {
        (None, None) => true,
        (Some(one), Some(other)) => one == other,
        _ => false,
    }
}

/// Checks whether a job execution shows the exit status that its walk comes to.
fn shows_exit(alloc: Global, row: &ExecutionRow, value: &Value) -> Result<bool, OutOfMemory>
    ensures { IfOk result (λ shown. IsTrue shown
        ↔ (row.now.exit ≡ exit_status row.now.stop row.now.start value.now)) }
{
    let exit = exit_status(alloc, row.stop, row.start, value)?;
    let shown = is_same_exit(&row.exit, &exit);
    drop(exit);
    Ok(shown)
}

/// Checks whether a job execution shows the batch status that its walk comes to.
fn shows_status(row: &ExecutionRow, value: &Value) -> bool
    ensures { IsTrue result
        ↔ (row.now.bare ≡ batch_status row.now.stop row.now.start value.now) }
{
    row.bare == batch_status(row.stop, row.start, value)
}

/// Checks whether a job execution has an end if it is finished.
fn shows_end(row: &ExecutionRow) -> bool
    ensures { IsTrue result ↔ (is_finished row.now.bare ≡ true → is_some row.now.end ≡ true) }
{
    row.end.is_some() || !is_finished(row.bare)
}

/// Checks whether a job execution shows what its walk comes to.
#[tactic(auto, using(crate::proofs::Gathering::shows_all))]
fn is_settled(alloc: Global, row: &ExecutionRow, value: &Value) -> Result<bool, OutOfMemory>
    ensures { IfOk result (λ settled. IsTrue settled ↔ Shows value.now row.now) }
{
    let exit = shows_exit(alloc, row, value)?;
    Ok(exit && shows_status(row, value) && shows_end(row))
}

/// Checks whether there is something to do for a job execution.
///
/// # Errors
///
/// `NotSettled` if it does not show what its walk comes to, and `OutOfMemory`.
fn ready_if_settled(
    alloc: Global,
    catalogue: &Catalogue,
    records: &Records,
    row: &ExecutionRow,
) -> Result<bool, RowFault>
    requires { is_placed catalogue.now row.now ≡ true }
    ensures ready { IfOk result (λ ready. ready ≡ has_ready catalogue.now records.now.works row.now) }
    ensures settled { MatchResult result (λ _. IsSettled catalogue.now records.now.works row.now)
        (λ fault. fault ≢ RowFault.OutOfMemory
        → IsSettled catalogue.now records.now.works row.now → ⊥) }
{
    let value = walk_value(alloc, catalogue, records, row)?;
    let ready = has_something(row.status(), first_ready(&value).is_some());
    let settled = is_settled(alloc, row, &value);
    drop(value);
    if settled? {
        Ok(ready)
    } else {
        Err(RowFault::NotSettled)
    }
}

/// Returns the agenda of these rows.
///
/// # Errors
///
/// `NotSettled` if a job execution does not show what its walk comes to, and `OutOfMemory`.
#[tactic(auto, using(crate::proofs::Gathering::gathered_all, crate::proofs::Gathering::gathered_none, crate::proofs::Gathering::gathered_on, crate::proofs::Gathering::gathered_settled, crate::proofs::Gathering::placed_next, crate::proofs::Gathering::settled_next))]
pub(crate) fn agenda_of(
    alloc: Global,
    catalogue: &Catalogue,
    records: &Records,
) -> Result<BTreeSet<u64>, RowFault>
    requires placed { ArePlaced catalogue.now records.now.executions }
    requires rising { AreRising (execution_numbers records.now.executions) }
    ensures agenda { IfOk result (λ agenda. agenda.keys
        ≡ agenda_of catalogue.now records.now.works records.now.executions) }
    ensures settled { MatchResult result
        (λ _. AreSettled catalogue.now records.now.works records.now.executions)
        (λ fault. fault ≢ RowFault.OutOfMemory
        → AreSettled catalogue.now records.now.works records.now.executions → ⊥) }
{
    let mut agenda = BTreeSet::new(alloc);
    for row in records.executions() {
        let ready = ready_if_settled(alloc, catalogue, records, row)?;
        agenda::put(&mut agenda, row.execution, ready)?;
    }
    Ok(agenda)
}
