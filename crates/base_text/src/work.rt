ghost use Rattle.std.specs.Prelude.{◌≡◌, Some, None, Err, IfOk};
ghost use Rattle.lent_json.specs.Looks.{shown};
ghost use Rattle.batch_ids.specs.Statuses.{outcome_named};
ghost use Rattle.base_text.specs.Works.{kind_named, kind_at, outcome_at, state_of, fits_state, fitting_row, work_members_of, work_of};

use crate::bounded::{bounded_text_at, exit_at, optional_partition_at};
use crate::fault::BaseLineFault;
use crate::metrics::metrics_at;
use batch_history::{WorkKind, WorkRow, WorkState};
use batch_ids::{ExecutionId, Metrics, Moment, T256, WorkId, WorkOutcome};
use lent_json::Look;
use std::alloc::Global;

/// The members of a work item that are no texts of its own.
#[derive(Clone, Copy, Debug)]
pub struct WorkMembers {
    pub work: u64,
    pub execution: u64,
    pub claimer: u64,
    pub partition: Option<u32>,
    pub kind: WorkKind,
    pub outcome: Option<WorkOutcome>,
    pub start: Moment,
    pub end: Option<Moment>,
    pub ended: Option<u64>,
    pub metrics: Metrics,
}

/// Reads the work item in a value.
#[tactic(auto, unfolding(crate::specs::Works::work_of))]
pub fn work_of(alloc: Global, value: Look<'_, '_>) -> Result<WorkRow, BaseLineFault>
    ensures read { IfOk result (λ row. work_of (shown value.entry) ≡ Some row) }
    ensures wrong { result ≡ Err BaseLineFault.NotABaseLine → work_of (shown value.entry) ≡ None }
{
    let names = [
        "claimer",
        "element",
        "end",
        "ended",
        "execution",
        "exit",
        "kind",
        "metrics",
        "outcome",
        "partition",
        "start",
        "work",
    ];
    if !value.has_only(&names) {
        return Err(BaseLineFault::NotABaseLine);
    }
    let members = work_members_of(value).ok_or(BaseLineFault::NotABaseLine)?;
    let element = bounded_text_at(alloc, value, "element")?;
    let exit = exit_at(alloc, value)?;
    let state = state_of(members.outcome, exit).ok_or(BaseLineFault::NotABaseLine)?;
    fitting_row(members, element, state)
}

#[tactic(auto, unfolding(crate::specs::Works::work_members_of))]
fn work_members_of(value: Look<'_, '_>) -> Option<WorkMembers>
    ensures { result ≡ work_members_of (shown value.entry) }
{
    Some(WorkMembers {
        work: value.number_at("work")?,
        execution: value.number_at("execution")?,
        claimer: value.number_at("claimer")?,
        partition: optional_partition_at(value)?,
        kind: kind_at(value)?,
        outcome: outcome_at(value)?,
        start: value.number_at("start")?,
        end: value.optional_number("end")?,
        ended: value.optional_number("ended")?,
        metrics: metrics_at(value)?,
    })
}

fn kind_at(value: Look<'_, '_>) -> Option<WorkKind>
    ensures { result ≡ kind_at (shown value.entry) }
{
    kind_named(value.text_at("kind")?)
}

fn kind_named(name: &str) -> Option<WorkKind>
    ensures { result ≡ kind_named name.now }
{
    match name {
        "batchlet" => Some(WorkKind::Batchlet),
        "chunk" => Some(WorkKind::Chunk),
        "decision" => Some(WorkKind::Decision),
        _ => None,
    }
}

fn outcome_at(value: Look<'_, '_>) -> Option<Option<WorkOutcome>>
    ensures { result ≡ outcome_at (shown value.entry) }
{
    match value.optional_text("outcome")? {
        Some(name) => Some(Some(outcome_named(name)?)),
        None => Some(None),
    }
}

fn outcome_named(name: &str) -> Option<WorkOutcome>
    ensures { result ≡ outcome_named name.now }
{
    name.parse().ok()
}

/// Returns the state of a work item, if it has both an outcome and an exit status, or neither.
fn state_of(outcome: Option<WorkOutcome>, exit: Option<T256>) -> Option<WorkState>
    ensures { result ≡ state_of outcome exit }
{
    match (outcome, exit) {
        (None, None) => Some(WorkState::Busy),
        (Some(outcome), Some(exit)) => Some(WorkState::Over(outcome, exit)),
        (None, Some(_)) => None,
        (Some(_), None) => None,
    }
}

/// Checks whether the moment or the number of a work item's end is there exactly if the work item
/// is over.
fn fits_state(state: &WorkState, end: Option<u64>) -> bool
    ensures { result ≡ fits_state state.now end }
{
    match state {
        WorkState::Busy => end.is_none(),
        WorkState::Over(_, _) => end.is_some(),
    }
}

/// Makes the row of a work item, if the moment and the number of its end fit its state.
fn fitting_row(
    members: WorkMembers,
    element: T256,
    state: WorkState,
) -> Result<WorkRow, BaseLineFault>
    ensures read { IfOk result (λ row. fitting_row members element state ≡ Some row) }
    ensures wrong { result ≡ Err BaseLineFault.NotABaseLine
        → fitting_row members element state ≡ None }
{
    if !fits_state(&state, members.end) || !fits_state(&state, members.ended) {
        return Err(BaseLineFault::NotABaseLine);
    }
    Ok(WorkRow {
        work: WorkId::new(members.work),
        execution: ExecutionId::new(members.execution),
        element,
        partition: members.partition,
        kind: members.kind,
        claimer: members.claimer,
        state,
        start: members.start,
        end: members.end,
        ended: members.ended,
        metrics: members.metrics,
    })
}
