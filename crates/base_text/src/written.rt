// The lines of rows as they are written, the members of each object by rising names. No contract
// speaks of them: `texts.rt` reads each line back before it hands it out.
use crate::head::BaseHead;
use batch_history::{CheckpointRow, ExecutionRow, WorkKind, WorkRow, WorkState};
use batch_ids::{Metric, Metrics, OutOfMemory, Parameters, T256};
use job_plans::Plan;
use json::Writer;
use walk_rules::WorkKey;

/// Writes a head.
pub fn write_head(out: &mut Writer, head: &BaseHead) -> Result<(), OutOfMemory> {
    out.begin_object()?;
    out.key("base")?;
    out.begin_object()?;
    write_number(out, "count", head.count)?;
    write_number(out, "execution", head.last.execution)?;
    write_number(out, "instance", head.last.instance)?;
    write_number(out, "rows", head.rows)?;
    write_number(out, "work", head.last.work)?;
    out.end_object()?;
    out.end_object()
}

/// Writes the row of a job execution.
pub fn write_execution(out: &mut Writer, row: &ExecutionRow) -> Result<(), OutOfMemory> {
    out.begin_object()?;
    write_if_true(out, "abandoned", row.abandoned)?;
    write_number(out, "create", row.create)?;
    write_number_if_there(out, "end", row.end)?;
    write_number(out, "execution", row.execution.value())?;
    write_text_if_there(out, "exit", row.exit.as_ref())?;
    write_number(out, "instance", row.instance.value())?;
    write_text(out, "job", row.job.as_str())?;
    write_parameters(out, &row.parameters)?;
    write_plan(out, row.plan.get())?;
    write_number_if_there(out, "start", row.start)?;
    write_text(out, "status", row.bare.name())?;
    write_if_true(out, "stop", row.stop)?;
    write_number(out, "updated", row.updated)?;
    out.end_object()
}

/// Writes the row of a work item.
pub fn write_work(out: &mut Writer, row: &WorkRow) -> Result<(), OutOfMemory> {
    out.begin_object()?;
    write_number(out, "claimer", row.claimer)?;
    write_text(out, "element", row.element.as_str())?;
    write_number_if_there(out, "end", row.end)?;
    write_number_if_there(out, "ended", row.ended)?;
    write_number(out, "execution", row.execution.value())?;
    write_exit(out, &row.state)?;
    write_text(out, "kind", kind_name(row.kind))?;
    write_metrics(out, &row.metrics)?;
    write_outcome(out, &row.state)?;
    write_number_if_there(out, "partition", row.partition.map(u64::from))?;
    write_number(out, "start", row.start)?;
    write_number(out, "work", row.work.value())?;
    out.end_object()
}

/// Writes the row of a checkpoint.
pub fn write_checkpoint(out: &mut Writer, row: &CheckpointRow) -> Result<(), OutOfMemory> {
    out.begin_object()?;
    write_number(out, "instance", row.instance.value())?;
    write_text(out, "mark", row.mark.as_str())?;
    write_number(out, "partition", u64::from(row.step.partition))?;
    write_text(out, "step", row.step.element.as_str())?;
    out.end_object()
}

fn write_number(out: &mut Writer, name: &str, number: u64) -> Result<(), OutOfMemory> {
    out.key(name)?;
    out.u64(number)
}

fn write_number_if_there(
    out: &mut Writer,
    name: &str,
    number: Option<u64>,
) -> Result<(), OutOfMemory> {
    match number {
        Some(number) => write_number(out, name, number),
        None => Ok(()),
    }
}

fn write_text(out: &mut Writer, name: &str, text: &str) -> Result<(), OutOfMemory> {
    out.key(name)?;
    out.string(text)
}

fn write_text_if_there(
    out: &mut Writer,
    name: &str,
    text: Option<&T256>,
) -> Result<(), OutOfMemory> {
    match text {
        Some(text) => write_text(out, name, text.as_str()),
        None => Ok(()),
    }
}

fn write_if_true(out: &mut Writer, name: &str, truth: bool) -> Result<(), OutOfMemory> {
    if !truth {
        return Ok(());
    }
    out.key(name)?;
    out.boolean(true)
}

/// Writes the member `parameters`, unless there are none.
fn write_parameters(out: &mut Writer, parameters: &Parameters) -> Result<(), OutOfMemory> {
    if parameters.is_empty() {
        return Ok(());
    }
    out.key("parameters")?;
    out.begin_object()?;
    for parameter in parameters.pairs() {
        write_text(out, parameter.key().as_str(), parameter.value().as_str())?;
    }
    out.end_object()
}

/// Writes the member `plan`, without its lists that are empty.
fn write_plan(out: &mut Writer, plan: &Plan) -> Result<(), OutOfMemory> {
    out.key("plan")?;
    out.begin_object()?;
    write_barred(out, plan.barred.as_slice())?;
    write_carried(out, plan.carried.as_slice())?;
    write_text(out, "from", plan.from.as_str())?;
    write_kept(out, plan.kept.as_slice())?;
    out.end_object()
}

fn write_barred(out: &mut Writer, steps: &[T256]) -> Result<(), OutOfMemory> {
    if steps.is_empty() {
        return Ok(());
    }
    out.key("barred")?;
    out.begin_array()?;
    for step in steps {
        out.string(step.as_str())?;
    }
    out.end_array()
}

fn write_carried(out: &mut Writer, steps: &[(T256, T256)]) -> Result<(), OutOfMemory> {
    if steps.is_empty() {
        return Ok(());
    }
    out.key("carried")?;
    out.begin_array()?;
    for step in steps {
        out.begin_object()?;
        write_text(out, "exit", step.1.as_str())?;
        write_text(out, "step", step.0.as_str())?;
        out.end_object()?;
    }
    out.end_array()
}

fn write_kept(out: &mut Writer, keys: &[WorkKey]) -> Result<(), OutOfMemory> {
    if keys.is_empty() {
        return Ok(());
    }
    out.key("kept")?;
    out.begin_array()?;
    for key in keys {
        out.begin_object()?;
        write_number(out, "partition", u64::from(key.partition))?;
        write_text(out, "step", key.element.as_str())?;
        out.end_object()?;
    }
    out.end_array()
}

/// Writes the member `exit` of a work item that is over.
fn write_exit(out: &mut Writer, state: &WorkState) -> Result<(), OutOfMemory> {
    match state {
        WorkState::Busy => Ok(()),
        WorkState::Over(_, exit) => write_text(out, "exit", exit.as_str()),
    }
}

/// Writes the member `outcome` of a work item that is over.
fn write_outcome(out: &mut Writer, state: &WorkState) -> Result<(), OutOfMemory> {
    match state {
        WorkState::Busy => Ok(()),
        WorkState::Over(outcome, _) => write_text(out, "outcome", outcome.name()),
    }
}

fn kind_name(kind: WorkKind) -> &'static str {
    match kind {
        WorkKind::Batchlet => "batchlet",
        WorkKind::Chunk => "chunk",
        WorkKind::Decision => "decision",
    }
}

/// The metrics by rising names.
const METRICS: [Metric; 8] = [
    Metric::CommitCount,
    Metric::FilterCount,
    Metric::ProcessSkipCount,
    Metric::ReadCount,
    Metric::ReadSkipCount,
    Metric::RollbackCount,
    Metric::WriteCount,
    Metric::WriteSkipCount,
];

/// Writes the member `metrics`, unless each is 0. A metric of 0 is left out.
fn write_metrics(out: &mut Writer, metrics: &Metrics) -> Result<(), OutOfMemory> {
    if *metrics == Metrics::zero() {
        return Ok(());
    }
    out.key("metrics")?;
    out.begin_object()?;
    for metric in &METRICS {
        let count = metrics.count(*metric);
        if count != 0 {
            write_number(out, metric.name(), count)?;
        }
    }
    out.end_object()
}
