// Job executions of jobs of about a thousand elements, one after another.
use crate::deep_jobs::catalogue;
use crate::dice::Dice;
use crate::script::Script;
use std::alloc::{AllocError, Global};

/// A list of steps that is being run.
#[derive(Clone, Copy)]
struct Track {
    work: u64,
    left: u64,
}

/// So many lists at a time, each of so many steps.
#[derive(Clone, Copy)]
struct Stage {
    tracks: u64,
    steps: u64,
}

/// Nothing is run.
const NONE: Stage = Stage {
    tracks: 0,
    steps: 0,
};

/// What is run of a job, one stage after another.
fn stages_of(job: u64) -> [Stage; 2] {
    let stage = |tracks, steps| Stage { tracks, steps };
    match job {
        0 => [stage(1, 1_000), NONE],
        1 => [stage(1, 960), NONE],
        2 => [stage(60, 15), stage(1, 39)],
        3 => [stage(249, 3), NONE],
        _ => [stage(16, 1), stage(224, 3)],
    }
}

/// Claims the first step of each list.
fn claim_all(alloc: Global, script: &mut Script, stage: Stage) -> Result<Vec<Track>, AllocError> {
    let mut tracks = Vec::new(alloc);
    for _track in 0..stage.tracks {
        let work = script.claim()?;
        tracks.push(Track {
            work,
            left: stage.steps,
        })?;
    }
    Ok(tracks)
}

/// Reports a step of one of the lists, and claims the one behind it.
fn turn(script: &mut Script, dice: &mut Dice, tracks: &mut Vec<Track>) -> Result<(), AllocError> {
    let place = dice.below(tracks.len() as u64) as usize;
    let Some(track) = tracks.get_mut(place) else {
        return Ok(());
    };
    script.finish(track.work, "COMPLETED", "")?;
    track.left = track.left.saturating_sub(1);
    if track.left > 0 {
        track.work = script.claim()?;
    } else {
        tracks.swap_remove(place);
    }
    Ok(())
}

/// Runs lists of a job to their ends, taking turns by chance.
fn run_stage(
    alloc: Global,
    script: &mut Script,
    dice: &mut Dice,
    stage: Stage,
) -> Result<(), AllocError> {
    let mut tracks = claim_all(alloc, script, stage)?;
    for _turn in 0..4_000 {
        if tracks.is_empty() {
            return Ok(());
        }
        turn(script, dice, &mut tracks)?;
    }
    Ok(())
}

/// Runs one of the jobs.
fn run_job(
    alloc: Global,
    script: &mut Script,
    dice: &mut Dice,
    job: u64,
) -> Result<(), AllocError> {
    script.start("deep-", job, 0)?;
    for stage in stages_of(job) {
        run_stage(alloc, script, dice, stage)?;
    }
    Ok(())
}

/// Runs jobs in an order that is drawn by chance.
pub(crate) fn deep(
    alloc: Global,
    script: &mut Script,
    dice: &mut Dice,
    size: u64,
) -> Result<(), AllocError> {
    catalogue(script)?;
    let first = dice.below(5);
    for job in 0..size {
        if script.lines() >= size {
            return Ok(());
        }
        run_job(alloc, script, dice, (first % 5 + job % 5) % 5)?;
    }
    Ok(())
}
