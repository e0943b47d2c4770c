// Nights of jobs, and the consoles that look on.
use crate::dice::Dice;
use crate::script::Script;
use std::alloc::AllocError;

/// How many jobs the catalogue has.
const JOBS: u64 = 20;

/// How many steps a job has. The third from the end is a chunk.
const STEPS: u64 = 5;

/// How many job executions go on at a time.
const WIDTH: usize = 8;

/// A job execution that goes on, and how many steps it has left.
#[derive(Clone, Copy)]
struct Member {
    execution: u64,
    left: u64,
    work: u64,
    has_failed: bool,
}

/// What lies before the first night.
const NONE: Member = Member {
    execution: 0,
    left: 0,
    work: 0,
    has_failed: false,
};

/// The steps of a job, from their braces on.
const JOB: &str =
    "\"elements\":[{\"kind\":\"step\",\"id\":\"extract\",\"next\":\"validate\",\"batchlet\":{\"ref\":\"extract\"}},{\"kind\":\"step\",\"id\":\"validate\",\"next\":\"load\",\"transitions\":[{\"kind\":\"next\",\"on\":\"REDO*\",\"to\":\"load\"},{\"kind\":\"fail\",\"on\":\"BAD?\",\"exit-status\":\"bad input\"}],\"batchlet\":{\"ref\":\"validate\"}},{\"kind\":\"step\",\"id\":\"load\",\"next\":\"reconcile\",\"chunk\":{\"item-count\":100,\"reader\":{\"ref\":\"reader\"},\"processor\":{\"ref\":\"processor\"},\"writer\":{\"ref\":\"writer\"}}},{\"kind\":\"step\",\"id\":\"reconcile\",\"next\":\"report\",\"batchlet\":{\"ref\":\"reconcile\"}},{\"kind\":\"step\",\"id\":\"report\",\"batchlet\":{\"ref\":\"report\"}}]}";

fn catalogue(script: &mut Script) -> Result<(), AllocError> {
    script.part("{\"jobs\":[")?;
    for job in 0..JOBS {
        script.part(if job == 0 {
            "{\"id\":\"nightly-"
        } else {
            ",{\"id\":\"nightly-"
        })?;
        script.number(job)?;
        script.part("\",")?;
        script.part(JOB)?;
    }
    script.part("]}")?;
    script.end()
}

/// Starts a job, or restarts the one that failed in this place.
fn begin(script: &mut Script, dice: &mut Dice, member: &mut Member) -> Result<(), AllocError> {
    if member.has_failed {
        member.execution = script.restart(member.execution)?;
        member.has_failed = false;
    } else {
        let job = dice.below(JOBS);
        let day = if dice.percent(50) {
            20_240_101 + dice.below(28)
        } else {
            0
        };
        member.execution = script.start("nightly-", job, day)?;
        member.left = STEPS;
    }
    Ok(())
}

/// Asks a query, of a recent job execution half of the time.
fn ask(script: &mut Script, dice: &mut Dice) -> Result<(), AllocError> {
    let recent = if dice.percent(50) {
        200
    } else {
        script.executions
    };
    let x = script.executions.saturating_sub(dice.below(recent)).max(1);
    let job = dice.below(JOBS);
    let instance = dice.below(script.instances).saturating_add(1);
    let page = dice
        .below(1 + script.instances / (10 * JOBS))
        .saturating_mul(10);
    match dice.below(100) {
        0..=34 => script.ask("job_execution", "execution", x),
        35..=59 => script.ask("step_executions", "execution", x),
        60..=74 => script.ask("job_executions", "instance", instance),
        75..=84 => script.ask_page("nightly-", job, page),
        85..=92 => script.ask_alone("status_counts"),
        93..=94 => script.ask_job("running_executions", "nightly-", job),
        95..=96 => script.ask("parameters", "execution", x),
        97 => script.ask_job("job_instance_count", "nightly-", job),
        98 => script.ask("job_instance", "execution", x),
        _ => script.ask_alone("job_names"),
    }
}

/// Asks queries, until one is not asked with this share.
fn ask_some(script: &mut Script, dice: &mut Dice, share: u64) -> Result<(), AllocError> {
    for _query in 0..50 {
        if !dice.percent(share) {
            return Ok(());
        }
        ask(script, dice)?;
    }
    Ok(())
}

/// Reports what a work item came to; before that, that of a chunk has up to nine checkpoints.
fn report(script: &mut Script, dice: &mut Dice, member: &mut Member) -> Result<(), AllocError> {
    if member.left == 3 {
        for row in 0..dice.below(10) {
            script.checkpoint(member.work, 100 * row % 1_000_000)?;
        }
    }
    if dice.percent(3) {
        member.has_failed = true;
        return script.finish(member.work, "FAILED", "");
    }
    let exit = if member.left == 4 && dice.percent(10) {
        "REDO1"
    } else {
        ""
    };
    member.left = member.left.saturating_sub(1);
    script.finish(member.work, "COMPLETED", exit)
}

/// One step of each job execution that goes on: all are claimed, and then reported from a chosen place on.
fn round(
    script: &mut Script,
    dice: &mut Dice,
    members: &mut [Member; WIDTH],
    share: u64,
) -> Result<(), AllocError> {
    for member in members.iter_mut() {
        if member.left > 0 && !member.has_failed {
            member.work = script.claim()?;
        }
    }
    let first = dice.below(WIDTH as u64) as usize;
    for turn in 0..WIDTH {
        let member = &mut members[(first + 5 * turn) % WIDTH];
        if member.left > 0 && !member.has_failed {
            report(script, dice, member)?;
        }
        ask_some(script, dice, share)?;
    }
    Ok(())
}

/// Eight job executions, each to its end.
fn night(
    script: &mut Script,
    dice: &mut Dice,
    members: &mut [Member; WIDTH],
    share: u64,
) -> Result<(), AllocError> {
    for member in members.iter_mut() {
        begin(script, dice, member)?;
    }
    for _step in 0..STEPS {
        round(script, dice, members, share)?;
    }
    Ok(())
}

fn nights_with(
    script: &mut Script,
    dice: &mut Dice,
    size: u64,
    share: u64,
) -> Result<(), AllocError> {
    catalogue(script)?;
    let mut members = [NONE; WIDTH];
    for _night in 0..size {
        if script.lines() >= size {
            return Ok(());
        }
        night(script, dice, &mut members, share)?;
    }
    Ok(())
}

/// Nights with few queries.
pub(crate) fn nights(script: &mut Script, dice: &mut Dice, size: u64) -> Result<(), AllocError> {
    nights_with(script, dice, size, 10)
}

/// Nights with seven queries in ten lines.
pub(crate) fn consoles(script: &mut Script, dice: &mut Dice, size: u64) -> Result<(), AllocError> {
    nights_with(script, dice, size, 87)
}
