//! Catalogues, and what is made of one.
use crate::jobs::job;
use anyhow::{Result, bail};
use batch_ids::OutOfMemory;
use call_lines::{Line, Script, echoed, tell, told};
use jsl_json::read_catalogue;
use jsl_model::{Body, Catalogue, Element, Job};
use seat_rules::SeatTable;
use std::alloc::Global;

/// Makes a table of seats.
fn made_table(alloc: Global, catalogue: &Catalogue) -> std::result::Result<(), OutOfMemory> {
    drop(SeatTable::new(alloc, catalogue)?);
    Ok(())
}

/// Makes the call of an element.
fn run_element<R: Print + AllocGlobal>(rt: &R, line: Line<'_>, element: &Element) -> Result<()> {
    let Body::Step(step) = &element.body else {
        bail!("it is no step");
    };
    told!(rt, line, step.task.try_clone())
}

/// Makes the call of a job that the line's first word names. The rest is the job's id, and an
/// element's.
fn run_job<R: Print + AllocGlobal>(rt: &R, line: Line<'_>, word: &str, job: &Job) -> Result<()> {
    match (word, job.elements().first()) {
        ("job.try_clone", _) => told!(rt, line, job.try_clone()),
        ("job.element", _) => tell(rt, job.element("t")),
        ("task.try_clone", Some(element)) => run_element(rt, line, element),
        _ => bail!("no call of a catalogue is named {word}"),
    }
}

/// Adds a job to the catalogue.
fn add<R: Print + AllocGlobal>(
    rt: &R,
    line: Line<'_>,
    catalogue: &mut Catalogue,
    id: &str,
) -> Result<()> {
    let given = job(rt.alloc(), id)?;
    told!(rt, line, catalogue.add(given))
}

/// Makes the call of a line.
fn run_line<R: Print + AllocGlobal>(
    rt: &R,
    line: Line<'_>,
    catalogue: &mut Catalogue,
) -> Result<()> {
    let alloc = rt.alloc();
    let (word, id) = line.parted();
    match word {
        "show" => tell(rt, &*catalogue),
        "add" => add(rt, line, catalogue, id),
        "try_clone" => told!(rt, line, catalogue.try_clone()),
        "artifacts" => told!(rt, line, catalogue.artifacts()),
        "artifacts_of_a_clone" => {
            let copy = catalogue.try_clone()?;
            told!(rt, line, copy.artifacts())
        }
        "table" => told!(rt, line, made_table(alloc, catalogue)),
        _ => match catalogue.job(id) {
            Some(job) => run_job(rt, line, word, job),
            None => bail!("there is no job {id}"),
        },
    }
}

/// Makes the call of each line with the catalogue of the script.
pub fn run_catalogue<R: Print + AllocGlobal>(rt: &R, script: Script<'_>) -> Result<bool> {
    let mut catalogue = read_catalogue(rt.alloc(), script.first.text.as_bytes())?;
    for text in script.lines.lines() {
        let line = echoed(rt, text)?;
        run_line(rt, line, &mut catalogue)?;
    }
    Ok(true)
}
