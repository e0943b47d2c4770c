//! Walks of a job.
use anyhow::{Result, bail};
use batch_ids::{Listed, T256, WorkOutcome};
use call_lines::{Line, Script, echoed, tell, told};
use job_plans::Plan;
use job_walk::{Cursor, value_at_first};
use jsl_json::read_catalogue;
use jsl_model::Job;
use std::alloc::Global;
use walk_rules::{Fact, Known, Value, WorkKey};

fn key(alloc: Global, id: &str, partition: u32) -> Result<WorkKey> {
    let element = T256::new(alloc, id)?;
    Ok(WorkKey { element, partition })
}

/// Returns a plan that begins at `a`. Partition 1 of `s` was completed by an earlier job execution.
fn plan_of(alloc: Global) -> Result<Plan> {
    let mut kept = Listed::new(alloc);
    kept.push(key(alloc, "s", 1)?)?;
    Ok(Plan {
        from: T256::new(alloc, "a")?,
        carried: Listed::new(alloc),
        kept,
        barred: Listed::new(alloc),
    })
}

/// Returns the facts that step `a` is over and partition 0 of `s` is busy.
fn known_of(alloc: Global) -> Result<[Known; 2]> {
    let exit = T256::new(alloc, "COMPLETED")?;
    Ok([
        Known {
            key: key(alloc, "a", 0)?,
            fact: Fact::Over(WorkOutcome::Completed, exit),
        },
        Known {
            key: key(alloc, "s", 0)?,
            fact: Fact::Busy,
        },
    ])
}

/// Makes the call of a line that begins or resumes a walk, or finds its value.
fn run_new<R: Print + AllocGlobal>(
    rt: &R,
    line: Line<'_>,
    job: &Job,
    plan: &Plan,
    known: &[Known; 2],
) -> Result<()> {
    let alloc = rt.alloc();
    if !plan.begins_in(job) {
        bail!("the walk begins at no element");
    }
    match line.text {
        "new" => told!(rt, line, Cursor::new(alloc, job, plan)),
        "resume" => told!(rt, line, Cursor::resume(alloc, job, plan, known)),
        "value_at_first" => told!(rt, line, value_at_first(alloc, job, plan, known)),
        "fact.try_clone" => told!(rt, line, known[0].fact.try_clone()),
        "work_key.try_clone" => told!(rt, line, known[0].key.try_clone()),
        word => bail!("no call of a walk is named {word}"),
    }
}

/// Makes the call of a line with a work key, if it is ready or busy.
fn run_key<R: Print + AllocGlobal>(
    rt: &R,
    line: Line<'_>,
    cursor: &mut Cursor,
    word: &str,
    key: &WorkKey,
) -> Result<()> {
    if word == "take" && cursor.is_ready(key) {
        return told!(rt, line, cursor.take(key));
    }
    if word == "report" && cursor.is_busy(key) {
        let exit = T256::new(rt.alloc(), "COMPLETED")?;
        return told!(rt, line, cursor.report(key, WorkOutcome::Completed, &exit));
    }
    bail!("{}: it is neither ready nor busy", line.text)
}

fn copy_keys<R: Print + AllocGlobal>(rt: &R, line: Line<'_>, value: &Value) -> Result<()> {
    match value {
        Value::Open { ready, .. } => told!(rt, line, ready.try_clone()),
        _ => bail!("the walk is over"),
    }
}

/// Makes the call of a line with the walk. Other calls stand before it.
fn run_cursor<R: Print + AllocGlobal>(rt: &R, line: Line<'_>, cursor: &mut Cursor) -> Result<()> {
    let (word, id) = line.parted();
    match word {
        "show" => tell(rt, &*cursor),
        "try_clone" => told!(rt, line, cursor.try_clone()),
        "value.try_clone" => told!(rt, line, cursor.value().try_clone()),
        "work_keys.try_clone" => copy_keys(rt, line, cursor.value()),
        _ => {
            let key = key(rt.alloc(), id, 0)?;
            run_key(rt, line, cursor, word, &key)
        }
    }
}

/// Lets a clone of the walk, instead of the walk, go on from here.
fn swap(cursor: &mut Cursor) -> Result<()> {
    let copy = cursor.try_clone()?;
    *cursor = copy;
    Ok(())
}

fn run_lines<R: Print + AllocGlobal>(rt: &R, cursor: &mut Cursor, lines: &str) -> Result<()> {
    for text in lines.lines() {
        if text == "swap" {
            swap(cursor)?;
        } else {
            let line = echoed(rt, text)?;
            run_cursor(rt, line, cursor)?;
        }
    }
    Ok(())
}

/// Makes the calls of the lines before the word `walk`, which need a job alone, and then those of
/// the lines after it with a walk of job `j` of the script's catalogue.
pub fn run_walk<R: Print + AllocGlobal>(rt: &R, script: Script<'_>) -> Result<bool> {
    let alloc = rt.alloc();
    let catalogue = read_catalogue(alloc, script.first.text.as_bytes())?;
    let Some(job) = catalogue.job("j") else {
        bail!("there is no job j");
    };
    let plan = plan_of(alloc)?;
    let (before, lines) = script
        .lines
        .split_once("walk\n")
        .unwrap_or((script.lines, ""));
    let known = known_of(alloc)?;
    for text in before.lines() {
        let line = echoed(rt, text)?;
        run_new(rt, line, job, &plan, &known)?;
    }
    if plan.begins_in(job) {
        let mut cursor = Cursor::new(alloc, job, &plan)?;
        run_lines(rt, &mut cursor, lines)?;
    }
    Ok(true)
}
