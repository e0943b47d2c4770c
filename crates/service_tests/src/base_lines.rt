//! The exact lines of rows, and each optional member there and left out. A line is read back before
//! it is handed out, so a test need not read it again.
use base_text::{
    BaseHead, BaseLineFault, checkpoint_line, execution_line, head_text, read_base_line, work_line,
};
use batch_history::{CheckpointRow, ExecutionRow, LastNumbers, WorkKind, WorkRow, WorkState};
use batch_ids::{
    BatchStatus, ExecutionId, InstanceId, Listed, Metrics, Parameters, Shared, T256, Text, WorkId,
    WorkOutcome,
};
use job_plans::Plan;
use std::alloc::Global;
use std::test::Fail;
use walk_rules::WorkKey;

/// Each byte that JSON escapes, and characters of two, three and four bytes.
const ODD: &str = "\"\\/\u{8}\u{c}\n\r\t\u{0}\u{1f}\u{7f}\u{e9}\u{2028}\u{ffff}\u{1f600}";

fn has(bits: u32, bit: u32) -> bool {
    bits & bit != 0
}

fn number_if(there: bool, number: u64) -> Option<u64> {
    if there { Some(number) } else { None }
}

fn text_if(alloc: Global, there: bool, text: &str) -> Result<Option<T256>, Fail> {
    if !there {
        return Ok(None);
    }
    Ok(Some(T256::new(alloc, text)?))
}

/// Returns a job execution whose numbers and texts are these, with the optional members of these
/// bits.
fn execution(alloc: Global, bits: u32, number: u64, text: &str) -> Result<ExecutionRow, Fail> {
    let job = T256::new(alloc, text)?;
    let parameters = parameters(alloc, has(bits, 1), text)?;
    let plan = Shared::new(alloc, plan(alloc, bits, text)?)?;
    let exit = text_if(alloc, has(bits, 2), text)?;
    Ok(ExecutionRow {
        execution: ExecutionId::new(number),
        instance: InstanceId::new(number),
        job,
        parameters,
        plan,
        stop: has(bits, 4),
        abandoned: has(bits, 8),
        bare: BatchStatus::Started,
        create: number,
        start: number_if(has(bits, 16), number),
        end: number_if(has(bits, 32), number),
        exit,
        updated: number,
    })
}

fn parameters(alloc: Global, there: bool, text: &str) -> Result<Parameters, Fail> {
    let mut given = Vec::new(alloc);
    if there {
        given.push((String::from_str(alloc, text)?, String::from_str(alloc, "")?))?;
        given.push((String::from_str(alloc, "")?, String::from_str(alloc, text)?))?;
    }
    Ok(Parameters::new(alloc, given)?)
}

fn plan(alloc: Global, bits: u32, text: &str) -> Result<Plan, Fail> {
    let from = T256::new(alloc, text)?;
    let carried = carried(alloc, has(bits, 64), text)?;
    let kept = kept(alloc, has(bits, 128), text)?;
    let barred = barred(alloc, has(bits, 256), text)?;
    Ok(Plan {
        from,
        carried,
        kept,
        barred,
    })
}

fn carried(alloc: Global, there: bool, text: &str) -> Result<Listed<(T256, T256)>, Fail> {
    let mut carried = Listed::new(alloc);
    if there {
        carried.push((T256::new(alloc, text)?, T256::empty()))?;
        carried.push((T256::empty(), T256::new(alloc, text)?))?;
    }
    Ok(carried)
}

fn kept(alloc: Global, there: bool, text: &str) -> Result<Listed<WorkKey>, Fail> {
    let mut kept = Listed::new(alloc);
    if there {
        kept.push(key(alloc, text, u32::MAX)?)?;
        kept.push(key(alloc, text, 0)?)?;
    }
    Ok(kept)
}

fn barred(alloc: Global, there: bool, text: &str) -> Result<Listed<T256>, Fail> {
    let mut barred = Listed::new(alloc);
    if there {
        barred.push(T256::new(alloc, text)?)?;
        barred.push(T256::empty())?;
    }
    Ok(barred)
}

fn key(alloc: Global, id: &str, partition: u32) -> Result<WorkKey, Fail> {
    let element = T256::new(alloc, id)?;
    Ok(WorkKey { element, partition })
}

/// Returns a work item whose numbers and texts are these, with the optional members of these bits.
fn work(
    alloc: Global,
    bits: u32,
    outcome: WorkOutcome,
    number: u64,
    text: &str,
) -> Result<WorkRow, Fail> {
    let element = T256::new(alloc, text)?;
    let is_over = has(bits, 1);
    let state = match text_if(alloc, is_over, text)? {
        Some(exit) => WorkState::Over(outcome, exit),
        None => WorkState::Busy,
    };
    Ok(WorkRow {
        work: WorkId::new(number),
        execution: ExecutionId::new(number),
        element,
        partition: if has(bits, 2) { Some(u32::MAX) } else { None },
        kind: WorkKind::Chunk,
        claimer: number,
        state,
        start: number,
        end: number_if(is_over, number),
        ended: number_if(is_over, number),
        metrics: metrics(has(bits, 4), number),
    })
}

fn metrics(there: bool, number: u64) -> Metrics {
    let mut metrics = Metrics::zero();
    if there {
        metrics.write_count = number;
        metrics.commit_count = number;
    }
    metrics
}

fn checkpoint(alloc: Global, number: u64, step: &str, mark: &str) -> Result<CheckpointRow, Fail> {
    Ok(CheckpointRow {
        instance: InstanceId::new(number),
        step: key(alloc, step, 0)?,
        mark: Text::new(alloc, mark)?,
    })
}

#[test]
fn the_line_of_a_head(rt: HostRuntime) -> Result<(), Fail> {
    let head = BaseHead {
        count: u64::MAX,
        last: LastNumbers {
            instance: 1,
            execution: 2,
            work: 3,
        },
        rows: 0,
    };
    let line =
        br#"{"base":{"count":18446744073709551615,"execution":2,"instance":1,"rows":0,"work":3}}"#;
    let text = head_text(rt.alloc(), &head)?;
    assert!(rt; text.as_slice() == line.as_slice());
    Ok(())
}

/// The bits of optional members, and the line of a job execution with them.
const EXECUTIONS: [(u32, &str); 2] = [
    (
        0,
        r#"{"create":1,"execution":1,"instance":1,"job":"j","plan":{"from":"j"},"status":"STARTED","updated":1}"#,
    ),
    (
        511,
        r#"{"abandoned":true,"create":1,"end":1,"execution":1,"exit":"j","instance":1,"job":"j","parameters":{"":"j","j":""},"plan":{"barred":["j",""],"carried":[{"exit":"","step":"j"},{"exit":"j","step":""}],"from":"j","kept":[{"partition":4294967295,"step":"j"},{"partition":0,"step":"j"}]},"start":1,"status":"STARTED","stop":true,"updated":1}"#,
    ),
];

#[test]
fn the_lines_of_job_executions(rt: HostRuntime) -> Result<(), Fail> {
    for (bits, line) in &EXECUTIONS {
        let row = execution(rt.alloc(), *bits, 1, "j")?;
        let text = execution_line(rt.alloc(), &row)?.text;
        assert!(rt; text.as_slice() == line.as_bytes(), "{bits}");
    }
    Ok(())
}

#[test]
fn each_optional_member_of_a_job_execution(rt: HostRuntime) -> Result<(), Fail> {
    for bits in 0..512 {
        let row = execution(rt.alloc(), bits, u64::MAX, ODD)?;
        assert!(rt; execution_line(rt.alloc(), &row).is_ok(), "{bits}");
    }
    Ok(())
}

/// Every batch status.
const STATUSES: [BatchStatus; 7] = [
    BatchStatus::Starting,
    BatchStatus::Started,
    BatchStatus::Stopping,
    BatchStatus::Stopped,
    BatchStatus::Failed,
    BatchStatus::Completed,
    BatchStatus::Abandoned,
];

#[test]
fn each_batch_status(rt: HostRuntime) -> Result<(), Fail> {
    for status in &STATUSES {
        let mut row = execution(rt.alloc(), 0, 0, "")?;
        row.bare = *status;
        assert!(rt; execution_line(rt.alloc(), &row).is_ok(), "{status}");
    }
    Ok(())
}

/// Returns as many parameters as a job execution can have, each as long as can be.
fn most_parameters(alloc: Global) -> Result<Parameters, Fail> {
    let mut given = Vec::new(alloc);
    for number in 0..64 {
        let key = format!(in alloc; "{number:0>256}")?;
        given.push((key, "\n".repeat(alloc, 4096)?))?;
    }
    Ok(Parameters::new(alloc, given)?)
}

#[test]
fn the_greatest_job_execution(rt: HostRuntime) -> Result<(), Fail> {
    let text = "\u{1}".repeat(rt.alloc(), 256)?;
    let mut row = execution(rt.alloc(), 510, u64::MAX, text.as_str())?;
    row.parameters = most_parameters(rt.alloc())?;
    assert!(rt; row.parameters.len() == 64);
    assert!(rt; execution_line(rt.alloc(), &row).is_ok());
    Ok(())
}

/// The bits of optional members, and the line of a work item with them.
const WORKS: [(u32, &str); 2] = [
    (
        0,
        r#"{"claimer":1,"element":"e","execution":1,"kind":"chunk","start":1,"work":1}"#,
    ),
    (
        7,
        r#"{"claimer":1,"element":"e","end":1,"ended":1,"execution":1,"exit":"e","kind":"chunk","metrics":{"COMMIT_COUNT":1,"WRITE_COUNT":1},"outcome":"FAILED","partition":4294967295,"start":1,"work":1}"#,
    ),
];

#[test]
fn the_lines_of_work_items(rt: HostRuntime) -> Result<(), Fail> {
    for (bits, line) in &WORKS {
        let row = work(rt.alloc(), *bits, WorkOutcome::Failed, 1, "e")?;
        let text = work_line(rt.alloc(), &row)?.text;
        assert!(rt; text.as_slice() == line.as_bytes(), "{bits}");
    }
    Ok(())
}

/// Every kind of a work item with an outcome.
const KINDS: [(WorkKind, WorkOutcome); 3] = [
    (WorkKind::Batchlet, WorkOutcome::Completed),
    (WorkKind::Chunk, WorkOutcome::Failed),
    (WorkKind::Decision, WorkOutcome::Stopped),
];

#[test]
fn each_optional_member_of_a_work_item(rt: HostRuntime) -> Result<(), Fail> {
    for (kind, outcome) in &KINDS {
        for bits in 0..8 {
            let mut row = work(rt.alloc(), bits, *outcome, u64::MAX, ODD)?;
            row.kind = *kind;
            assert!(rt; work_line(rt.alloc(), &row).is_ok(), "{bits}");
        }
    }
    Ok(())
}

#[test]
fn a_work_item_that_no_history_has(rt: HostRuntime) -> Result<(), Fail> {
    let mut row = work(rt.alloc(), 0, WorkOutcome::Failed, 1, "e")?;
    row.ended = Some(1);
    assert!(rt; work_line(rt.alloc(), &row).is_err());
    Ok(())
}

#[test]
fn the_line_of_a_checkpoint(rt: HostRuntime) -> Result<(), Fail> {
    let row = checkpoint(rt.alloc(), u64::MAX, "s", ODD)?;
    let text = checkpoint_line(rt.alloc(), &row)?.text;
    let line =
        "{\"instance\":18446744073709551615,\"mark\":\"\\\"\\\\/\\b\\f\\n\\r\\t\\u0000\\u001f\u{7f}\u{e9}\u{2028}\u{ffff}\u{1f600}\",\"partition\":0,\"step\":\"s\"}";
    assert!(rt; text.as_slice() == line.as_bytes());
    Ok(())
}

#[test]
fn the_greatest_checkpoint(rt: HostRuntime) -> Result<(), Fail> {
    let step = "\u{1f600}".repeat(rt.alloc(), 64)?;
    let mark = "\u{0}".repeat(rt.alloc(), 65536)?;
    let row = checkpoint(rt.alloc(), u64::MAX, step.as_str(), mark.as_str())?;
    assert!(rt; checkpoint_line(rt.alloc(), &row).is_ok());
    Ok(())
}

/// Lines that are read, each of another spelling than a written one.
const READ: [&str; 5] = [
    r#" { "base" : { "work":3, "count":1, "count":4, "rows":0, "instance":1, "execution":2 } } "#,
    r#"{"step":"s","partition":0,"mark":"\u006d","instance":7}"#,
    r#"{"claimer":1,"element":"e","execution":1,"kind":"chunk","metrics":{},"start":1,"work":1}"#,
    r#"{"claimer":1,"element":"e","execution":1,"kind":"chunk","start":1,"work":null,"work":1}"#,
    r#"{"create":1,"execution":1,"instance":1,"job":"j","parameters":{},"plan":{"barred":[],"from":"j"},"status":"STARTED","stop":false,"updated":1}"#,
];

#[test]
fn lines_of_another_spelling(rt: HostRuntime) -> Result<(), Fail> {
    for line in &READ {
        assert!(rt;
            read_base_line(rt.alloc(), line.as_bytes()).is_ok(),
            "{line}"
        );
    }
    Ok(())
}

/// Lines that are no lines of a base.
const OTHERS: [&str; 24] = [
    "",
    "{",
    "[]",
    "{}",
    r#"{"base":7}"#,
    r#"{"base":{"count":1,"execution":2,"instance":1,"rows":0}}"#,
    r#"{"base":{"count":1,"execution":2,"instance":1,"rows":0,"work":3},"x":1}"#,
    r#"{"base":{"count":1,"execution":2,"instance":1,"rows":0,"work":18446744073709551616}}"#,
    r#"{"base":{"count":-1,"execution":2,"instance":1,"rows":0,"work":3}}"#,
    r#"{"instance":7,"mark":"m","step":"s"}"#,
    r#"{"instance":7,"mark":"m","partition":4294967296,"step":"s"}"#,
    r#"{"instance":7,"mark":"m","partition":0,"step":"s","x":null}"#,
    r#"{"claimer":1,"element":"e","execution":1,"kind":"flow","start":1,"work":1}"#,
    r#"{"claimer":1,"element":"e","execution":1,"kind":"chunk","metrics":{"X":1},"start":1,"work":1}"#,
    r#"{"claimer":1,"element":"e","execution":1,"kind":"chunk","outcome":"FAILED","start":1,"work":1}"#,
    r#"{"claimer":1,"element":"e","execution":1,"exit":"e","kind":"chunk","start":1,"work":1}"#,
    r#"{"claimer":1,"element":"e","end":1,"ended":1,"execution":1,"kind":"chunk","start":1,"work":1}"#,
    r#"{"claimer":1,"element":"e","end":1,"execution":1,"exit":"e","kind":"chunk","outcome":"FAILED","start":1,"work":1}"#,
    r#"{"claimer":1,"element":"e","ended":1,"execution":1,"exit":"e","kind":"chunk","outcome":"FAILED","start":1,"work":1}"#,
    r#"{"claimer":1,"element":"e","end":1,"ended":1,"execution":1,"exit":"e","kind":"chunk","outcome":"DONE","start":1,"work":1}"#,
    r#"{"create":1,"execution":1,"instance":1,"job":"j","plan":{},"status":"STARTED","updated":1}"#,
    r#"{"create":1,"execution":1,"instance":1,"job":"j","plan":{"from":"j","kept":[{"partition":0}]},"status":"STARTED","updated":1}"#,
    r#"{"create":1,"execution":1,"instance":1,"job":"j","parameters":{"a":1},"plan":{"from":"j"},"status":"STARTED","updated":1}"#,
    r#"{"create":1,"execution":1,"instance":1,"job":"j","plan":{"from":"j"},"status":"RUNNING","updated":1}"#,
];

#[test]
fn lines_that_are_none(rt: HostRuntime) -> Result<(), Fail> {
    for line in &OTHERS {
        let fault = read_base_line(rt.alloc(), line.as_bytes()).err();
        assert!(rt; fault == Some(BaseLineFault::NotABaseLine), "{line}");
    }
    Ok(())
}

#[test]
fn texts_above_their_bounds(rt: HostRuntime) -> Result<(), Fail> {
    let text = "x".repeat(rt.alloc(), 257)?;
    let lines = [
        format!(in rt.alloc(); r#"{{"instance":7,"mark":"m","partition":0,"step":"{text}"}}"#)?,
        format!(in rt.alloc();
            r#"{{"claimer":1,"element":"{text}","execution":1,"kind":"chunk","start":1,"work":1}}"#
        )?,
        format!(in rt.alloc();
            r#"{{"create":1,"execution":1,"instance":1,"job":"j","parameters":{{"{text}":""}},"plan":{{"from":"j"}},"status":"STARTED","updated":1}}"#
        )?,
        format!(in rt.alloc();
            r#"{{"create":1,"execution":1,"instance":1,"job":"j","plan":{{"barred":["{text}"],"from":"j"}},"status":"STARTED","updated":1}}"#
        )?,
    ];
    for line in &lines {
        let fault = read_base_line(rt.alloc(), line.as_bytes()).err();
        assert!(rt; fault == Some(BaseLineFault::NotABaseLine), "{line}");
    }
    Ok(())
}
