//! Rows of a job instance.
ghost use Rattle.std.specs.Prelude.{◌≡◌, ◌∷◌, [], IfOk, IsFalse};
ghost use Rattle.records.specs.Maps.{execution_numbers};

use anyhow::{Result, bail};
use batch_history::{ExecutionRow, JobInstance, WorkKind, WorkRow, WorkState};
use batch_ids::{
    BatchStatus, ExecutionId, InstanceId, Listed, Metrics, Parameters, Shared, T256, Text, WorkId,
    WorkOutcome,
};
use call_lines::{Line, tell, told};
use job_plans::Plan;
use records::Records;
use std::alloc::Global;
use walk_rules::WorkKey;

fn instance(alloc: Global, job: &str) -> Result<JobInstance> {
    let job = T256::new(alloc, job)?;
    let instance = InstanceId::new(1);
    Ok(JobInstance { instance, job })
}

/// Returns the plan of a first job execution, which begins at `s`.
fn plan(alloc: Global) -> Result<Shared<Plan>> {
    let from = T256::new(alloc, "s")?;
    let plan = Plan {
        from,
        carried: Listed::new(alloc),
        kept: Listed::new(alloc),
        barred: Listed::new(alloc),
    };
    Ok(Shared::new(alloc, plan)?)
}

/// Returns job execution `x` of job instance 1, with this batch status.
pub(crate) fn execution(
    alloc: Global,
    x: u64,
    job: &str,
    bare: BatchStatus,
    abandoned: bool,
) -> Result<ExecutionRow>
    ensures { IfOk result (λ row. row.execution ≡ x) }
{
    let job = T256::new(alloc, job)?;
    let plan = plan(alloc)?;
    Ok(ExecutionRow {
        execution: ExecutionId::new(x),
        instance: InstanceId::new(1),
        job,
        parameters: Parameters::none(),
        plan,
        stop: false,
        abandoned,
        bare,
        create: 1,
        start: None,
        end: None,
        exit: None,
        updated: 1,
    })
}

/// Returns work item `w` of job execution 1, which has ended.
fn work(
    alloc: Global,
    w: u64,
    step: &str,
    partition: Option<u32>,
    outcome: WorkOutcome,
) -> Result<WorkRow>
    ensures { IfOk result (λ row. row.work ≡ w) }
{
    let element = T256::new(alloc, step)?;
    let exit = T256::new(alloc, outcome.name())?;
    Ok(WorkRow {
        work: WorkId::new(w),
        execution: ExecutionId::new(1),
        element,
        partition,
        kind: WorkKind::Batchlet,
        claimer: 1,
        state: WorkState::Over(outcome, exit),
        start: 2,
        end: Some(3),
        ended: Some(w),
        metrics: Metrics::zero(),
    })
}

/// Returns the rows of a job instance with job execution 1.
pub(crate) fn records_of(
    alloc: Global,
    job: &str,
    bare: BatchStatus,
    abandoned: bool,
) -> Result<Records>
    ensures executions { IfOk result (λ records. execution_numbers records.executions ≡ 1 ∷ []) }
    ensures works { IfOk result (λ records. records.works ≡ []) }
{
    let instance = instance(alloc, job)?;
    let first = execution(alloc, 1, job, bare, abandoned)?;
    let mut records = Records::new(alloc);
    records.add_instance(instance, first)?;
    Ok(records)
}

/// Adds the work items of job execution 1: `s` and partition 0 of `t` are COMPLETED, partition 1 of
/// `t` and `u` are FAILED.
pub(crate) fn add_works(alloc: Global, records: &mut Records) -> Result<()>
    requires { records.old.works ≡ [] }
    ensures { records.new.executions ≡ records.old.executions }
{
    records.add_work(work(alloc, 1, "s", None, WorkOutcome::Completed)?)?;
    records.add_work(work(alloc, 2, "t", Some(0), WorkOutcome::Completed)?)?;
    records.add_work(work(alloc, 3, "t", Some(1), WorkOutcome::Failed)?)?;
    records.add_work(work(alloc, 4, "u", None, WorkOutcome::Failed)?)?;
    Ok(())
}

/// Prints rows, and what their readers find.
fn show<R: Print + AllocGlobal>(rt: &R, records: &Records) -> Result<()> {
    tell(rt, records)?;
    for found in records.instances_of("j") {
        tell(rt, found)?;
    }
    for found in records.executions_of(InstanceId::new(1)) {
        tell(rt, found.execution)?;
    }
    for found in records.works_of(ExecutionId::new(1)) {
        tell(rt, found.work)?;
    }
    Ok(())
}

/// Adds the first job execution to rows without any.
fn add_first(alloc: Global, line: Line<'_>, records: &mut Records) -> Result<bool>
    requires instances { records.old.instances ≡ [] }
    requires executions { records.old.executions ≡ [] }
    ensures { IfOk result (λ added. IsFalse added → records.new ≡ records.old) }
{
    let instance = instance(alloc, "j")?;
    let first = execution(alloc, 1, "j", BatchStatus::Starting, false)?;
    line.mark(alloc);
    let added = records.add_instance(instance, first);
    line.mark(alloc);
    Ok(added.is_ok())
}

/// Adds a second job execution.
fn add_second(alloc: Global, line: Line<'_>, records: &mut Records) -> Result<bool>
    requires { execution_numbers records.old.executions ≡ 1 ∷ [] }
    ensures { IfOk result (λ added. IsFalse added → records.new ≡ records.old) }
{
    let second = execution(alloc, 2, "j", BatchStatus::Starting, false)?;
    line.mark(alloc);
    let added = records.add_execution(second);
    line.mark(alloc);
    Ok(added.is_ok())
}

/// Adds the first work item.
fn add_item(alloc: Global, line: Line<'_>, records: &mut Records) -> Result<bool>
    requires { records.old.works ≡ [] }
    ensures { IfOk result (λ added. IsFalse added → records.new ≡ records.old) }
{
    let row = work(alloc, 1, "s", None, WorkOutcome::Completed)?;
    line.mark(alloc);
    let added = records.add_work(row);
    line.mark(alloc);
    Ok(added.is_ok())
}

/// Prints whether a row was added, and the rows.
fn tell_added<R: Print + AllocGlobal>(rt: &R, records: &Records, added: bool) -> Result<()> {
    if added {
        println!(rt; "Ok(())")?;
    } else {
        println!(rt; "Err(OutOfMemory)")?;
    }
    show(rt, records)
}

/// Adds the first job execution, again if it is refused memory.
fn add_first_twice<R: Print + AllocGlobal>(
    rt: &R,
    line: Line<'_>,
    records: &mut Records,
) -> Result<()>
    requires instances { records.old.instances ≡ [] }
    requires executions { records.old.executions ≡ [] }
{
    show(rt, records)?;
    let added = add_first(rt.alloc(), line, records)?;
    tell_added(rt, records, added)?;
    if !added {
        let added = add_first(rt.alloc(), line.unmarked(), records)?;
        tell_added(rt, records, added)?;
    }
    Ok(())
}

/// Adds a second job execution, again if it is refused memory.
fn add_second_twice<R: Print + AllocGlobal>(
    rt: &R,
    line: Line<'_>,
    records: &mut Records,
) -> Result<()>
    requires { execution_numbers records.old.executions ≡ 1 ∷ [] }
{
    show(rt, records)?;
    let added = add_second(rt.alloc(), line, records)?;
    tell_added(rt, records, added)?;
    if !added {
        let added = add_second(rt.alloc(), line.unmarked(), records)?;
        tell_added(rt, records, added)?;
    }
    Ok(())
}

/// Adds a work item, again if it is refused memory.
fn add_item_twice<R: Print + AllocGlobal>(
    rt: &R,
    line: Line<'_>,
    records: &mut Records,
) -> Result<()>
    requires { records.old.works ≡ [] }
{
    show(rt, records)?;
    let added = add_item(rt.alloc(), line, records)?;
    tell_added(rt, records, added)?;
    if !added {
        let added = add_item(rt.alloc(), line.unmarked(), records)?;
        tell_added(rt, records, added)?;
    }
    Ok(())
}

/// Adds a row of each kind to rows of its own.
fn add_row<R: Print + AllocGlobal>(rt: &R, line: Line<'_>) -> Result<()> {
    let alloc = rt.alloc();
    match line.text {
        "add_instance" => {
            let mut records = Records::new(alloc);
            let added = add_first_twice(rt, line, &mut records);
            drop(records);
            added
        }
        "add_execution" => {
            let mut records = records_of(alloc, "j", BatchStatus::Failed, false)?;
            let added = add_second_twice(rt, line, &mut records);
            drop(records);
            added
        }
        _ => {
            let mut records = records_of(alloc, "j", BatchStatus::Started, false)?;
            let added = add_item_twice(rt, line, &mut records);
            drop(records);
            added
        }
    }
}

/// Stores a checkpoint of the step `s`.
fn set_checkpoint<R: Print + AllocGlobal>(
    rt: &R,
    line: Line<'_>,
    records: &mut Records,
    data: &str,
) -> Result<()> {
    let alloc = rt.alloc();
    let key = WorkKey {
        element: T256::new(alloc, "s")?,
        partition: 0,
    };
    let mark = Text::<65536>::new(alloc, data)?;
    told!(
        rt,
        line,
        records.set_checkpoint(InstanceId::new(1), key, Some(mark))
    )?;
    show(rt, records)
}

/// Stores checkpoints: an unmarked one if `before` is given, then the marked one. It is stored again
/// in any case, since a stored checkpoint may be stored once more, and then another one.
fn set_checkpoints<R: Print + AllocGlobal>(
    rt: &R,
    line: Line<'_>,
    records: &mut Records,
    before: &str,
) -> Result<()> {
    if before.is_empty() {
        show(rt, records)?;
    } else {
        set_checkpoint(rt, line.unmarked(), records, before)?;
    }
    set_checkpoint(rt, line, records, "12")?;
    set_checkpoint(rt, line.unmarked(), records, "12")?;
    set_checkpoint(rt, line.unmarked(), records, "13")
}

/// Stores checkpoints in new rows.
fn run_checkpoint<R: Print + AllocGlobal>(rt: &R, line: Line<'_>, before: &str) -> Result<()> {
    let mut records = Records::new(rt.alloc());
    let stored = set_checkpoints(rt, line, &mut records, before);
    drop(records);
    stored
}

/// Makes the call of a reader.
fn read_rows<R: Print + AllocGlobal>(rt: &R, line: Line<'_>, records: &mut Records) -> Result<()>
    requires { records.old.works ≡ [] }
{
    add_works(rt.alloc(), records)?;
    let i = InstanceId::new(1);
    match line.text {
        "works_of_instance" => told!(rt, line, records.works_of_instance(i)),
        "steps_made" => told!(rt, line, records.steps_made(i)),
        "running_of" => told!(rt, line, records.running_of("j")),
        word => bail!("no call of rows is named {word}"),
    }
}

/// Makes the call of a reader, with rows of their own.
fn run_read<R: Print + AllocGlobal>(rt: &R, line: Line<'_>) -> Result<()> {
    let mut records = records_of(rt.alloc(), "j", BatchStatus::Started, false)?;
    let read = read_rows(rt, line, &mut records);
    drop(records);
    read
}

/// Makes the call that a line names, with rows of its own.
pub fn run_row<R: Print + AllocGlobal>(rt: &R, line: Line<'_>) -> Result<()> {
    let (word, rest) = line.parted();
    match word {
        "add_instance" | "add_execution" | "add_work" => add_row(rt, line),
        "set_checkpoint" => run_checkpoint(rt, line, rest),
        "job_instance.try_clone" => {
            let row = instance(rt.alloc(), "j")?;
            told!(rt, line, row.try_clone())
        }
        _ => run_read(rt, line),
    }
}
