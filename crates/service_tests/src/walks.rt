use batch_ids::{BatchStatus, Listed, OutOfMemory, T256, WorkOutcome};
use job_plans::{Plan, find_partitions};
use job_walk::Cursor;
use jsl_json::read_catalogue;
use jsl_model::Catalogue;
use std::alloc::Global;
use std::test::Fail;
use walk_rules::{Value, WorkKey};

/// A step `a`, and then a split of a flow with `s` and a flow with `t`.
const CATALOGUE: &[u8] = br#"{"jobs":[{"id":"j","elements":[
    {"kind":"step","id":"a","next":"k","batchlet":{"ref":"ok"}},
    {"kind":"split","id":"k","flows":[
        {"kind":"flow","id":"f","elements":[{"kind":"step","id":"s","batchlet":{"ref":"ok"}}]},
        {"kind":"flow","id":"g","elements":[{"kind":"step","id":"t","batchlet":{"ref":"ok"}}]}]}]}]}"#;

/// A step `p` of three partitions.
const PARTITIONED: &[u8] = br#"{"jobs":[{"id":"j","elements":[
    {"kind":"step","id":"p","partitions":3,"batchlet":{"ref":"ok"}}]}]}"#;

/// Returns the walk of a catalogue's job by a plan that begins in it.
fn walk_by(alloc: Global, catalogue: &Catalogue, plan: &Plan) -> Result<Cursor, Fail> {
    let job = catalogue.job("j").ok_or("no job")?;
    if !plan.begins_in(job) {
        return Err("the walk begins at no element".into());
    }
    Ok(Cursor::new(alloc, job, plan)?)
}

/// Returns a walk of the job whose step `a` was completed by an earlier job execution.
fn begun(alloc: Global) -> Result<Cursor, Fail> {
    let mut carried = Listed::new(alloc);
    carried.push((T256::new(alloc, "a")?, T256::empty()))?;
    let from = T256::new(alloc, "a")?;
    let plan = Plan {
        from,
        carried,
        kept: Listed::new(alloc),
        barred: Listed::new(alloc),
    };
    let cursor = walked(alloc, CATALOGUE, &plan);
    drop(plan);
    cursor
}

/// Returns a walk of the job with the partitioned step, whose partition 1 was completed by an
/// earlier job execution.
fn begun_in_partitions(alloc: Global) -> Result<Cursor, Fail> {
    let mut kept = Listed::new(alloc);
    kept.push(partition_of(alloc, "p", 1)?)?;
    let from = T256::new(alloc, "p")?;
    let plan = Plan {
        from,
        carried: Listed::new(alloc),
        kept,
        barred: Listed::new(alloc),
    };
    let cursor = walked(alloc, PARTITIONED, &plan);
    drop(plan);
    cursor
}

/// Returns the walk of a job, from the text of its catalogue, by a plan.
fn walked(alloc: Global, text: &[u8], plan: &Plan) -> Result<Cursor, Fail> {
    let catalogue = read_catalogue(alloc, text)?;
    let cursor = walk_by(alloc, &catalogue, plan);
    drop(catalogue);
    cursor
}

fn partition_of(alloc: Global, id: &str, partition: u32) -> Result<WorkKey, Fail> {
    let element = T256::new(alloc, id)?;
    Ok(WorkKey { element, partition })
}

/// Returns the work key of a step that isn't partitioned.
pub(crate) fn key_of(alloc: Global, id: &str) -> Result<WorkKey, Fail> {
    partition_of(alloc, id, 0)
}

/// Takes a work key, if it is ready.
pub(crate) fn take(cursor: &mut Cursor, key: &WorkKey) -> Result<(), OutOfMemory> {
    if cursor.is_ready(key) {
        cursor.take(key)?;
    }
    Ok(())
}

/// Reports a work key, if it is busy.
pub(crate) fn report(
    cursor: &mut Cursor,
    key: &WorkKey,
    outcome: WorkOutcome,
    exit: &T256,
) -> Result<(), OutOfMemory> {
    if cursor.is_busy(key) {
        cursor.report(key, outcome, exit)?;
    }
    Ok(())
}

/// Checks whether a walk has ended as FAILED.
fn has_failed(cursor: &Cursor) -> bool {
    let failed = BatchStatus::Failed;
    matches!(cursor.value(), Value::Ended { status, .. } if *status == failed)
}

/// Takes and reports the steps `s` and `t` of a walk. Returns whether both are ready at first;
/// whether `s` is busy and `t` ready then; whether both are busy; whether `t` alone is busy after
/// `s` has failed; and whether the walk has failed at the end.
fn walk_both(
    cursor: &mut Cursor,
    s: &WorkKey,
    t: &WorkKey,
    exit: &T256,
) -> Result<[bool; 5], Fail> {
    let both_ready = cursor.is_ready(s) && cursor.is_ready(t);
    take(cursor, s)?;
    let one_busy = cursor.is_busy(s) && cursor.is_ready(t);
    take(cursor, t)?;
    let both_busy = cursor.is_busy(s) && cursor.is_busy(t);
    report(cursor, s, WorkOutcome::Failed, exit)?;
    let last_busy = !cursor.is_busy(s) && cursor.is_busy(t);
    report(cursor, t, WorkOutcome::Completed, exit)?;
    Ok([
        both_ready,
        one_busy,
        both_busy,
        last_busy,
        has_failed(cursor),
    ])
}

/// Does the same with these steps by their ids.
fn walk_s_and_t(alloc: Global, cursor: &mut Cursor) -> Result<[bool; 5], Fail> {
    let s = key_of(alloc, "s")?;
    let t = key_of(alloc, "t")?;
    walk_both(cursor, &s, &t, &T256::empty())
}

#[test]
fn a_walk_is_told_what_is_taken_and_reported(rt: HostRuntime) -> Result<(), Fail> {
    let mut cursor = begun(rt.alloc())?;
    let came = walk_s_and_t(rt.alloc(), &mut cursor);
    drop(cursor);
    assert_eq!(rt; came?, [true; 5]);
    Ok(())
}

/// Returns a walk whose step `s` is busy.
fn begun_and_taken(alloc: Global) -> Result<Cursor, Fail> {
    let s = key_of(alloc, "s")?;
    let mut cursor = begun(alloc)?;
    take(&mut cursor, &s)?;
    Ok(cursor)
}

/// Checks whether two walks print alike.
fn print_alike(alloc: Global, one: &Cursor, other: &Cursor) -> Result<bool, Fail> {
    let printed = format!(in alloc; "{one:?}")?;
    let wanted = format!(in alloc; "{other:?}")?;
    Ok(printed == wanted)
}

/// Walks a clone to its end: `s` fails before `t` is taken. Returns whether nothing is ready after
/// `t` is taken, and whether the clone has failed at the end.
fn walk_copy(copy: &mut Cursor, s: &WorkKey, t: &WorkKey, exit: &T256) -> Result<[bool; 2], Fail> {
    report(copy, s, WorkOutcome::Failed, exit)?;
    take(copy, t)?;
    let none_ready = copy.ready().len() == 0;
    report(copy, t, WorkOutcome::Completed, exit)?;
    Ok([none_ready, has_failed(copy)])
}

/// Returns whether a clone prints like its walk, the results of walking it to its end, and whether
/// `s` is still busy and `t` still ready in the walk.
fn goes_on(alloc: Global, cursor: &Cursor, copy: &mut Cursor) -> Result<[bool; 4], Fail> {
    let alike = print_alike(alloc, copy, cursor)?;
    let s = key_of(alloc, "s")?;
    let t = key_of(alloc, "t")?;
    let [none_ready, failed] = walk_copy(copy, &s, &t, &T256::empty())?;
    let same = cursor.is_busy(&s) && cursor.is_ready(&t);
    Ok([alike, none_ready, failed, same])
}

#[test]
fn a_copied_walk_goes_on_by_itself(rt: HostRuntime) -> Result<(), Fail> {
    let cursor = begun_and_taken(rt.alloc())?;
    let came = copy_goes_on(rt.alloc(), &cursor);
    drop(cursor);
    assert_eq!(rt; came?, [true; 4]);
    Ok(())
}

/// Does the same with a clone that is made here.
fn copy_goes_on(alloc: Global, cursor: &Cursor) -> Result<[bool; 4], Fail> {
    let mut copy = cursor.try_clone()?;
    let came = goes_on(alloc, cursor, &mut copy);
    drop(copy);
    came
}

/// Takes and reports two partitions of a walk. Returns whether two are ready at first, whether
/// `last` is ready after `first` has failed, and whether the walk has failed at the end.
fn walk_partitions(
    cursor: &mut Cursor,
    first: &WorkKey,
    last: &WorkKey,
    exit: &T256,
) -> Result<[bool; 3], Fail> {
    let two_ready = cursor.ready().len() == 2;
    take(cursor, first)?;
    report(cursor, first, WorkOutcome::Failed, exit)?;
    let last_ready = cursor.is_ready(last);
    take(cursor, last)?;
    report(cursor, last, WorkOutcome::Completed, exit)?;
    Ok([two_ready, last_ready, has_failed(cursor)])
}

/// Does the same with the partitions 0 and 2 of the step `p`.
fn walk_first_and_last(alloc: Global, cursor: &mut Cursor) -> Result<[bool; 3], Fail> {
    let exit = T256::new(alloc, "not shown")?;
    let first = partition_of(alloc, "p", 0)?;
    let last = partition_of(alloc, "p", 2)?;
    walk_partitions(cursor, &first, &last, &exit)
}

#[test]
fn a_step_waits_for_its_partitions_and_is_failed_if_one_is(rt: HostRuntime) -> Result<(), Fail> {
    let mut cursor = begun_in_partitions(rt.alloc())?;
    let came = walk_first_and_last(rt.alloc(), &mut cursor);
    drop(cursor);
    assert_eq!(rt; came?, [true; 3]);
    Ok(())
}

/// Returns the number of partitions of a work key's step, in the job of a catalogue.
fn partitions_in(catalogue: &Catalogue, key: &WorkKey) -> Result<Option<u32>, Fail> {
    let job = catalogue.job("j").ok_or("no job")?;
    Ok(find_partitions(job, key))
}

/// Returns the number of partitions that is found by this partition of the step `p`.
fn partitions_by(alloc: Global, partition: u32) -> Result<Option<u32>, Fail> {
    let key = partition_of(alloc, "p", partition)?;
    let catalogue = read_catalogue(alloc, PARTITIONED)?;
    partitions_in(&catalogue, &key)
}

#[test]
fn partitions_of_a_step_are_found(rt: HostRuntime) -> Result<(), Fail> {
    assert!(rt; partitions_by(rt.alloc(), 0)? == Some(3));
    assert!(rt; partitions_by(rt.alloc(), 3)?.is_none());
    Ok(())
}

/// Returns the first `count` partitions of a step.
fn first_partitions(alloc: Global, id: &str, count: u32) -> Result<Listed<WorkKey>, Fail> {
    let mut partitions = Listed::new(alloc);
    for partition in 0..count {
        partitions.push(partition_of(alloc, id, partition)?)?;
    }
    Ok(partitions)
}

/// Returns a walk that begins at a step. The step's first partitions are kept, and the step may be
/// barred.
fn begun_with_kept(
    alloc: Global,
    text: &[u8],
    id: &str,
    count: u32,
    is_barred: bool,
) -> Result<Cursor, Fail> {
    let mut barred = Listed::new(alloc);
    if is_barred {
        barred.push(T256::new(alloc, id)?)?;
    }
    let plan = Plan {
        from: T256::new(alloc, id)?,
        carried: Listed::new(alloc),
        kept: first_partitions(alloc, id, count)?,
        barred,
    };
    let cursor = walked(alloc, text, &plan);
    drop(plan);
    cursor
}

/// Checks whether a walk has failed if its step `p` is barred and has `count` kept partitions.
fn fails_barred(alloc: Global, count: u32) -> Result<bool, Fail> {
    let cursor = begun_with_kept(alloc, PARTITIONED, "p", count, true)?;
    let failed = has_failed(&cursor);
    drop(cursor);
    Ok(failed)
}

#[test]
fn a_barred_step_fails_the_job_though_its_partitions_are_kept(rt: HostRuntime) -> Result<(), Fail> {
    assert!(rt; fails_barred(rt.alloc(), 3)?);
    assert!(rt; fails_barred(rt.alloc(), 2)?);
    Ok(())
}

/// Checks whether the step `a`, which isn't partitioned, is ready although a plan keeps its work
/// key.
fn is_ready_though_kept(alloc: Global) -> Result<bool, Fail> {
    let a = key_of(alloc, "a")?;
    let cursor = begun_with_kept(alloc, CATALOGUE, "a", 1, false)?;
    let ready = cursor.is_ready(&a);
    drop(cursor);
    Ok(ready)
}

#[test]
fn a_kept_partition_of_a_step_that_is_not_partitioned_counts_for_nothing(
    rt: HostRuntime,
) -> Result<(), Fail> {
    assert!(rt; is_ready_though_kept(rt.alloc())?);
    Ok(())
}
