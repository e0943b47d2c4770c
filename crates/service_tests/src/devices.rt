//! Readers and writers that fail at any call.
use crate::flaky::{FlakyReader, FlakyWriter};
use batch_service::{answer_script, run_script};
use script_engine::{Counted, EngineFault, Summary};
use std::alloc::{AllocError, Global};
use std::test::Fail;

const SCRIPT: &str =
    r#"{"jobs":[{"id":"a","elements":[{"kind":"step","id":"s","batchlet":{"ref":"ok"}}]}]}
{"do":"start","by":1,"at":10,"job":"a"}
{"do":"claim","by":2,"at":20}
{"do":"finish","by":2,"at":30,"work":1,"outcome":"COMPLETED"}
{"ask":"job_execution","execution":1}
"#;

const REPLIES: [&str; 4] = [
    "{\"execution\":1}\n",
    "{\"work\":{\"element\":\"s\",\"execution\":1,\"kind\":\"batchlet\",\"ref\":\"ok\",\"work\":1}}\n",
    "{\"done\":true}\n",
    "{\"job_execution\":{\"create\":10,\"end\":30,\"execution\":1,\"exit\":\"COMPLETED\",\"instance\":1,\"job\":\"a\",\"start\":20,\"status\":\"COMPLETED\",\"updated\":30}}\n",
];

/// Returns the first `count` replies.
fn first_replies(alloc: Global, count: usize) -> Result<String, AllocError> {
    let mut text = String::new(alloc);
    for reply in REPLIES.iter().take(count) {
        text.push_str(reply)?;
    }
    Ok(text)
}

/// Returns the number of lines with a reply: all whole lines except the catalogue.
fn replies_due(bytes: &[u8]) -> usize {
    let feeds = bytes.iter().filter(|byte| **byte == b'\n').count();
    feeds.saturating_sub(1)
}

#[test]
fn a_script_is_summed_up(rt: HostRuntime) {
    let (replies, outcome) = answer_script(rt.alloc(), SCRIPT.as_bytes());
    drop(replies);
    let summary = Summary {
        lines: 4,
        entries: 3,
        refusals: 0,
        bad: 0,
    };
    assert!(rt; outcome == Ok(summary));
}

/// Checks a run whose reader fails after some bytes: it says so, after the replies to the lines
/// before.
fn is_broken_behind(alloc: Global, calls: usize) -> Result<bool, Fail> {
    let told = SCRIPT.as_bytes().get(..calls).unwrap_or(b"");
    let wanted = first_replies(alloc, replies_due(told))?;
    let mut reader = Counted::new(FlakyReader::new(SCRIPT.as_bytes(), calls));
    let mut writer = Counted::new(Vec::new(alloc));
    let outcome = run_script(alloc, &mut reader, &mut writer);
    let is_told = outcome == Err(EngineFault::Read);
    drop(outcome);
    let written = writer.into_inner();
    Ok(is_told && written.as_slice() == wanted.as_bytes())
}

// The last call is the one that would have reported the end.
#[test]
fn each_read_may_fail(rt: HostRuntime) -> Result<(), Fail> {
    for calls in 0..=SCRIPT.len() {
        assert!(rt; is_broken_behind(rt.alloc(), calls)?, "call {calls}");
    }
    Ok(())
}

/// Checks a run whose writer fails: it says so, and the writer has taken these bytes.
fn is_cut_by(alloc: Global, writer: FlakyWriter, wanted: &[u8]) -> bool {
    let mut reader = Counted::new(FlakyReader::new(SCRIPT.as_bytes(), usize::MAX));
    let mut writer = Counted::new(writer);
    let outcome = run_script(alloc, &mut reader, &mut writer);
    let is_told = outcome == Err(EngineFault::Write);
    drop(outcome);
    let taken = writer.into_inner().taken;
    is_told && taken.as_slice() == wanted
}

/// Checks a run whose writer fails after some calls, for each kind of failure. Each call takes a
/// piece of limited size.
fn is_cut_behind(alloc: Global, most: usize, good_calls: usize, wanted: &[u8]) -> bool {
    let fails = |is_silent| FlakyWriter {
        taken: Vec::new(alloc),
        most,
        good_calls,
        is_silent,
        has_failed: false,
    };
    is_cut_by(alloc, fails(false), wanted) && is_cut_by(alloc, fails(true), wanted)
}

#[test]
fn each_write_of_a_byte_may_fail(rt: HostRuntime) -> Result<(), Fail> {
    let all = first_replies(rt.alloc(), REPLIES.len())?;
    for calls in 0..all.len() {
        let wanted = all.as_bytes().get(..calls).unwrap_or(b"");
        assert!(rt; is_cut_behind(rt.alloc(), 1, calls, wanted), "call {calls}");
    }
    Ok(())
}

// Each reply is written in one piece, before the next byte of the script is read.
#[test]
fn each_write_of_a_line_may_fail(rt: HostRuntime) -> Result<(), Fail> {
    for calls in 0..REPLIES.len() {
        let wanted = first_replies(rt.alloc(), calls)?;
        let is_cut = is_cut_behind(rt.alloc(), usize::MAX, calls, wanted.as_bytes());
        assert!(rt; is_cut, "call {calls}");
    }
    Ok(())
}
