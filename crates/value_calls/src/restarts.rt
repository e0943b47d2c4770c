//! Plans of first job executions and of restarts.
ghost use Rattle.std.specs.Prelude.{◌≡◌, ◌∷◌, [], IsTrue};
ghost use Rattle.records.specs.Maps.{execution_numbers};
ghost use Rattle.restart_rules.specs.Placed.{is_placed, IsPlaced};

use crate::rows::{add_works, execution, records_of};
use anyhow::{Result, bail};
use batch_history::ExecutionRow;
use batch_ids::{BatchStatus, ExecutionId, Refusal};
use call_lines::{Line, told};
use job_plans::Plan;
use jsl_json::read_catalogue;
use jsl_model::Catalogue;
use records::Records;
use restart_rules::{first_plan, restart_plan, restart_refusal};
use std::alloc::Global;

/// A step `s`, a step `t` of two partitions, and a step `u` with a start limit of 1. The job `once`
/// is not restartable.
const CATALOGUE: &[u8] =
    b"{\"jobs\":[{\"id\":\"j\",\"elements\":[{\"kind\":\"step\",\"id\":\"s\",\"next\":\"t\",\"batchlet\":{\"ref\":\"ok\"}},{\"kind\":\"step\",\"id\":\"t\",\"next\":\"u\",\"partitions\":2,\"batchlet\":{\"ref\":\"ok\"}},{\"kind\":\"step\",\"id\":\"u\",\"start-limit\":1,\"batchlet\":{\"ref\":\"ok\"}}]},{\"id\":\"once\",\"restartable\":false,\"elements\":[{\"kind\":\"step\",\"id\":\"s\",\"batchlet\":{\"ref\":\"ok\"}}]}]}";

/// A restart of a job execution.
#[derive(Clone, Copy)]
struct Restart {
    job: &'static str,
    bare: BatchStatus,
    abandoned: bool,
    /// Whether its job instance has a later one.
    later: bool,
    /// The job execution that is restarted.
    x: u64,
}

/// A restart that is accepted.
const FAILED: Restart = Restart {
    job: "j",
    bare: BatchStatus::Failed,
    abandoned: false,
    later: false,
    x: 1,
};

/// Returns the restart that is accepted, or the one with the refusal of this name.
fn restart_of(name: &str) -> Option<Restart> {
    let mut restart = FAILED;
    match name {
        "accepted" => {}
        "NoSuchJobExecutionException" => restart.x = 9,
        "JobExecutionNotMostRecentException" => restart.later = true,
        "JobExecutionAlreadyCompleteException" => restart.bare = BatchStatus::Completed,
        "STARTED" => restart.bare = BatchStatus::Started,
        "ABANDONED" => restart.abandoned = true,
        "not_restartable" => restart.job = "once",
        _ => return None,
    }
    Some(restart)
}

/// Checks whether the job of a row is in the catalogue, and its walk begins in it.
fn begins(catalogue: &Catalogue, row: &ExecutionRow) -> bool
    ensures { result ≡ is_placed catalogue.now row.now }
{
    match catalogue.job(row.job.as_str()) {
        None => false,
        Some(job) => row.plan.get().begins_in(job),
    }
}

/// Checks whether a job execution, if it exists, begins in the catalogue.
fn is_placed(records: &Records, catalogue: &Catalogue, x: ExecutionId) -> bool
    ensures { IsTrue result → IsPlaced catalogue.now records.now.executions x }
{
    match records.execution(x) {
        None => true,
        Some(row) => begins(catalogue, row),
    }
}

/// Returns the plan of the restart of a job execution, or its refusal.
fn plan_of(
    alloc: Global,
    records: &Records,
    catalogue: &Catalogue,
    x: ExecutionId,
) -> Result<Plan, Refusal>
    requires { IsPlaced catalogue.now records.now.executions x }
{
    if let Some(refusal) = restart_refusal(records, catalogue, x) {
        return Err(refusal);
    }
    match records.execution(x) {
        None => Err(Refusal::NoSuchJobExecutionException),
        Some(row) => Ok(restart_plan(alloc, records, catalogue, row)?),
    }
}

fn tell_plan<R: Print + AllocGlobal>(
    rt: &R,
    line: Line<'_>,
    records: &Records,
    catalogue: &Catalogue,
    x: ExecutionId,
) -> Result<()> {
    if is_placed(records, catalogue, x) {
        return told!(rt, line, plan_of(rt.alloc(), records, catalogue, x));
    }
    bail!("its walk begins in no job")
}

/// Adds the work items of the job execution that is restarted, and a later job execution, if the
/// kind of restart has one.
fn add_rows(alloc: Global, kind: Restart, records: &mut Records) -> Result<()>
    requires executions { execution_numbers records.old.executions ≡ 1 ∷ [] }
    requires works { records.old.works ≡ [] }
{
    add_works(alloc, records)?;
    if kind.later {
        let later = execution(alloc, 2, kind.job, kind.bare, kind.abandoned)?;
        records.add_execution(later)?;
    }
    Ok(())
}

/// Restarts a job execution of this kind.
fn run_kind<R: Print + AllocGlobal>(
    rt: &R,
    line: Line<'_>,
    catalogue: &Catalogue,
    kind: Restart,
) -> Result<()> {
    let mut records = records_of(rt.alloc(), kind.job, kind.bare, kind.abandoned)?;
    let added = add_rows(rt.alloc(), kind, &mut records);
    let told = match added {
        Ok(()) => tell_plan(rt, line, &records, catalogue, ExecutionId::new(kind.x)),
        Err(fault) => Err(fault),
    };
    drop(records);
    told
}

/// Makes the plan that a line names: `first_plan`, or that of a restart.
pub fn run_restart<R: Print + AllocGlobal>(rt: &R, line: Line<'_>) -> Result<()> {
    let catalogue = read_catalogue(rt.alloc(), CATALOGUE)?;
    match (restart_of(line.text), catalogue.job("j")) {
        (Some(kind), _) => run_kind(rt, line, &catalogue, kind),
        (None, Some(job)) => told!(rt, line, first_plan(rt.alloc(), job)),
        (None, None) => bail!("there is no job j"),
    }
}
