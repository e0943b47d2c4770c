// Jobs of about a thousand elements.
use crate::script::Script;
use std::alloc::AllocError;

/// Adds a step whose id is a prefix and two numbers. It goes on to another of the list, to one of another
/// list, or ends it.
fn step(script: &mut Script, prefix: &str, list: u64, place: u64) -> Result<(), AllocError> {
    script.part("{\"kind\":\"step\",\"id\":\"")?;
    script.id(prefix, list, place)?;
    script.part("\",\"batchlet\":{\"ref\":\"ok\"}")
}

/// Adds where an element goes on.
fn next(script: &mut Script, prefix: &str, list: u64, place: u64) -> Result<(), AllocError> {
    script.part(",\"next\":\"")?;
    script.id(prefix, list, place)?;
    script.part("\"")
}

/// Adds a list of steps, the last of which goes on nowhere yet: its brace is open.
fn open_steps(script: &mut Script, prefix: &str, list: u64, count: u64) -> Result<(), AllocError> {
    for place in 0..count {
        if place > 0 {
            next(script, prefix, list, place)?;
            script.part("},")?;
        }
        step(script, prefix, list, place)?;
    }
    Ok(())
}

/// Adds a list of steps.
fn steps(script: &mut Script, prefix: &str, list: u64, count: u64) -> Result<(), AllocError> {
    open_steps(script, prefix, list, count)?;
    script.part("}")
}

/// Begins an element that holds others.
fn open(script: &mut Script, kind: &str, prefix: &str, list: u64) -> Result<(), AllocError> {
    script.part("{\"kind\":\"")?;
    script.part(kind)?;
    script.part("\",\"id\":\"")?;
    script.id(prefix, list, 0)?;
    script.part("\"")
}

/// Begins a job.
fn open_job(script: &mut Script, job: u64) -> Result<(), AllocError> {
    script.part("{\"id\":\"deep-")?;
    script.number(job)?;
    script.part("\",\"elements\":[")
}

/// A job that is one list.
fn linear(script: &mut Script) -> Result<(), AllocError> {
    open_job(script, 0)?;
    steps(script, "l", 0, 1_000)?;
    script.part("]}")
}

/// A job of sixteen levels of lists, each in a flow in the middle of the one above.
fn nested(script: &mut Script) -> Result<(), AllocError> {
    open_job(script, 1)?;
    for level in 0..15 {
        open_steps(script, "a", level, 30)?;
        next(script, "f", level, 0)?;
        script.part("},")?;
        open(script, "flow", "f", level)?;
        next(script, "b", level, 0)?;
        script.part(",\"elements\":[")?;
    }
    steps(script, "c", 0, 60)?;
    for level in 0..15 {
        script.part("]},")?;
        steps(script, "b", 14 - level, 30)?;
    }
    script.part("]}")
}

/// Flows of a split, numbered from this number on, each of so many steps.
fn flows(script: &mut Script, first: u64, count: u64, length: u64) -> Result<(), AllocError> {
    for flow in 0..count {
        if flow > 0 {
            script.part(",")?;
        }
        let number = first.wrapping_add(flow);
        open(script, "flow", "v", number)?;
        script.part(",\"elements\":[")?;
        steps(script, "y", number, length)?;
        script.part("]}")?;
    }
    Ok(())
}

/// A job of a split of 60 flows, with a list behind it.
fn wide(script: &mut Script) -> Result<(), AllocError> {
    open_job(script, 2)?;
    open(script, "split", "w", 0)?;
    next(script, "x", 0, 0)?;
    script.part(",\"flows\":[")?;
    flows(script, 0, 60, 15)?;
    script.part("]},")?;
    steps(script, "x", 0, 39)?;
    script.part("]}")
}

/// A job of a split of 249 flows.
fn fan(script: &mut Script) -> Result<(), AllocError> {
    open_job(script, 3)?;
    open(script, "split", "w", 0)?;
    script.part(",\"flows\":[")?;
    flows(script, 0, 249, 3)?;
    script.part("]}]}")
}

/// A job of a split of 16 flows, in each of which stands a split of 14 flows.
fn grid(script: &mut Script) -> Result<(), AllocError> {
    open_job(script, 4)?;
    open(script, "split", "w", 0)?;
    script.part(",\"flows\":[")?;
    for flow in 0..16 {
        script.part(if flow == 0 { "" } else { "," })?;
        open(script, "flow", "g", flow)?;
        script.part(",\"elements\":[")?;
        open_steps(script, "h", flow, 1)?;
        next(script, "s", flow, 0)?;
        script.part("},")?;
        open(script, "split", "s", flow)?;
        script.part(",\"flows\":[")?;
        flows(script, 14 * flow, 14, 3)?;
        script.part("]}]}")?;
    }
    script.part("]}]}")
}

/// Five jobs, `deep-0` to `deep-4`.
pub(crate) fn catalogue(script: &mut Script) -> Result<(), AllocError> {
    script.part("{\"jobs\":[")?;
    linear(script)?;
    script.part(",")?;
    nested(script)?;
    script.part(",")?;
    wide(script)?;
    script.part(",")?;
    fan(script)?;
    script.part(",")?;
    grid(script)?;
    script.part("]}")?;
    script.end()
}
