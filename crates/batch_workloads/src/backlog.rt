// Starts that are all made before the first claim.
use crate::dice::Dice;
use crate::script::Script;
use std::alloc::{AllocError, Global};

/// A work item that is claimed, and whether another step follows its own.
#[derive(Clone, Copy)]
struct Busy {
    work: u64,
    goes_on: bool,
}

/// A job of two steps, and one of one.
const CATALOGUE: &str =
    "{\"jobs\":[{\"id\":\"job-0\",\"elements\":[{\"kind\":\"step\",\"id\":\"only\",\"batchlet\":{\"ref\":\"only\"}}]},{\"id\":\"job-1\",\"elements\":[{\"kind\":\"step\",\"id\":\"first\",\"next\":\"second\",\"batchlet\":{\"ref\":\"first\"}},{\"kind\":\"step\",\"id\":\"second\",\"batchlet\":{\"ref\":\"second\"}}]}]}";

/// Starts so many job executions. Gives for each whether its job has two steps.
fn start_all(
    alloc: Global,
    script: &mut Script,
    dice: &mut Dice,
    count: u64,
) -> Result<Vec<bool>, AllocError> {
    let mut pairs = Vec::new(alloc);
    for _start in 0..count {
        let job = dice.below(2);
        script.start("job-", job, 0)?;
        pairs.push(job == 1)?;
    }
    Ok(pairs)
}

/// Claims the first work item of each.
fn claim_all(alloc: Global, script: &mut Script, pairs: &[bool]) -> Result<Vec<Busy>, AllocError> {
    let mut busy = Vec::new(alloc);
    for goes_on in pairs {
        let work = script.claim()?;
        busy.push(Busy {
            work,
            goes_on: *goes_on,
        })?;
    }
    Ok(busy)
}

/// Reports a work item, and claims the one behind it, or that of a job execution that is started now.
fn turn(script: &mut Script, dice: &mut Dice, one: &mut Busy) -> Result<(), AllocError> {
    script.finish(one.work, "COMPLETED", "")?;
    if one.goes_on {
        one.goes_on = false;
    } else {
        let job = dice.below(2);
        script.start("job-", job, 0)?;
        one.goes_on = job == 1;
    }
    one.work = script.claim()?;
    Ok(())
}

/// A fifth of the lines are starts, a fifth claims; then reports come in any order.
pub(crate) fn backlog(
    alloc: Global,
    script: &mut Script,
    dice: &mut Dice,
    size: u64,
) -> Result<(), AllocError> {
    script.part(CATALOGUE)?;
    script.end()?;
    let pairs = start_all(alloc, script, dice, size / 5)?;
    let mut busy = claim_all(alloc, script, pairs.as_slice())?;
    for _turn in 0..size {
        let place = dice.below(busy.len() as u64) as usize;
        let Some(one) = busy.get_mut(place) else {
            return Ok(());
        };
        if script.lines() >= size {
            return Ok(());
        }
        turn(script, dice, one)?;
    }
    Ok(())
}
