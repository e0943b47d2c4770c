use crate::flaky::{FlakyReader, FlakyWriter};
use batch_commands::{program, refuse_words};
use std::alloc::{AllocError, Global};
use std::io::{Error, ErrorKind, Read};
use std::sync::Wait;
use std::test::Fail;
use std::thread::Threads;

const SCRIPT: &[u8] = b"{\"jobs\":[]}\n{\"do\":\"start\",\"by\":1,\"at\":0,\"job\":\"a\"}\n";

/// A job of one chunk that filters items, and its start.
const CHUNK: &[u8] =
    b"{\"jobs\":[{\"id\":\"c\",\"elements\":[{\"kind\":\"step\",\"id\":\"s\",\"chunk\":{\"item-count\":2,\"reader\":{\"ref\":\"count:5\"},\"processor\":{\"ref\":\"odd\"},\"writer\":{\"ref\":\"sink\"}}}]}]}\n{\"job\":\"c\"}\n";

/// A command, its input of two lines, and the pieces of its output: the reply to the second line,
/// and the line of a run's job execution.
const COMMANDS: [(&str, &[u8], &[&str]); 2] = [
    ("script", SCRIPT, &["{\"refused\":\"JobStartException\"}\n"]),
    (
        "run",
        CHUNK,
        &[
            "{\"execution\":1}\n",
            "{\"execution\":1,\"exit\":\"COMPLETED\",\"status\":\"COMPLETED\",\"steps\":[{\"exit\":\"COMPLETED\",\"metrics\":{\"COMMIT_COUNT\":3,\"FILTER_COUNT\":2,\"READ_COUNT\":5,\"WRITE_COUNT\":3},\"status\":\"COMPLETED\",\"step\":\"s\"}]}\n",
        ],
    ),
];

/// Returns the first `count` of these pieces.
fn joined(alloc: Global, pieces: &[&str], count: usize) -> Result<String, AllocError> {
    let mut text = String::new(alloc);
    for piece in pieces.iter().take(count) {
        text.push_str(piece)?;
    }
    Ok(text)
}

/// Checks whether a fault of a device ends the program with this line on standard error and with
/// this output.
fn tells<R: Threads + Wait + AllocGlobal + Sync, D: Read + Drop>(
    rt: &R,
    word: &str,
    reader: D,
    writer: FlakyWriter,
    line: &str,
    wanted: &[u8],
) -> bool {
    let mut writer = writer;
    let mut faults = Vec::new(rt.alloc());
    let found = program(rt, &[word], reader, &mut writer, &mut faults);
    let is_told = faults.as_slice() == line.as_bytes();
    let is_written = writer.taken.as_slice() == wanted;
    drop(faults);
    drop(writer);
    found == 4 && is_told && is_written
}

/// Checks whether the program reports a reader that fails after `good_calls` calls, with this
/// output.
fn tells_read_fault<R: Threads + Wait + AllocGlobal + Sync>(
    rt: &R,
    word: &str,
    input: &[u8],
    good_calls: usize,
    wanted: &[u8],
) -> bool {
    let reader = FlakyReader::new(input, good_calls);
    let writer = FlakyWriter {
        taken: Vec::new(rt.alloc()),
        most: usize::MAX,
        good_calls: usize::MAX,
        is_silent: false,
        has_failed: true,
    };
    tells(rt, word, reader, writer, "batchctl: read fault\n", wanted)
}

/// Checks whether the program reports a writer that fails after some calls, with this output. Each
/// call takes a limited number of bytes.
fn tells_write_fault<R: Threads + Wait + AllocGlobal + Sync>(
    rt: &R,
    word: &str,
    input: &[u8],
    most: usize,
    good_calls: usize,
    wanted: &[u8],
) -> bool {
    let fails = |is_silent| FlakyWriter {
        taken: Vec::new(rt.alloc()),
        most,
        good_calls,
        is_silent,
        has_failed: false,
    };
    let line = "batchctl: write fault\n";
    tells(rt, word, input, fails(false), line, wanted)
        && tells(rt, word, input, fails(true), line, wanted)
}

/// Checks whether the program reports a fault of the reader at each call. The reply to the last
/// line is written after the reader has reported it whole.
fn tells_each_read_fault<R: Threads + Wait + AllocGlobal + Sync>(
    rt: &R,
    word: &str,
    input: &[u8],
    reply: &[u8],
) -> bool {
    for calls in 0..input.len() {
        if !tells_read_fault(rt, word, input, calls, b"") {
            return false;
        }
    }
    tells_read_fault(rt, word, input, input.len(), reply)
}

/// Checks whether the program reports a fault of the writer at each call, if each call takes one
/// byte.
fn tells_each_write_fault<R: Threads + Wait + AllocGlobal + Sync>(
    rt: &R,
    word: &str,
    input: &[u8],
    wanted: &[u8],
) -> bool {
    for calls in 0..wanted.len() {
        let front = wanted.get(..calls).unwrap_or(b"");
        if !tells_write_fault(rt, word, input, 1, calls, front) {
            return false;
        }
    }
    true
}

/// Checks whether the program reports a fault of the writer at each call, if each call takes a
/// whole piece.
fn tells_each_lost_piece<R: Threads + Wait + AllocGlobal + Sync>(
    rt: &R,
    word: &str,
    input: &[u8],
    pieces: &[&str],
) -> Result<bool, AllocError> {
    for calls in 0..pieces.len() {
        let wanted = joined(rt.alloc(), pieces, calls)?;
        if !tells_write_fault(rt, word, input, usize::MAX, calls, wanted.as_bytes()) {
            return Ok(false);
        }
    }
    Ok(true)
}

#[test]
fn each_read_of_a_command_may_fail(rt: HostRuntime) -> Result<(), Fail> {
    for (word, input, pieces) in &COMMANDS {
        let reply = joined(rt.alloc(), pieces, 1)?;
        assert!(rt;
            tells_each_read_fault(&rt, word, input, reply.as_bytes()),
            "{word}"
        );
    }
    Ok(())
}

#[test]
fn each_write_of_a_command_may_fail(rt: HostRuntime) -> Result<(), Fail> {
    for (word, input, pieces) in &COMMANDS {
        let wanted = joined(rt.alloc(), pieces, pieces.len())?;
        assert!(rt;
            tells_each_write_fault(&rt, word, input, wanted.as_bytes()),
            "{word}"
        );
        assert!(rt; tells_each_lost_piece(&rt, word, input, pieces)?, "{word}");
    }
    Ok(())
}

#[test]
fn a_failed_device_is_told_where_help_was_asked_for(rt: HostRuntime) {
    assert!(rt; tells_write_fault(&rt, "--help", b"", usize::MAX, 0, b""));
}

/// Faults of reading the words, with the exit status and the line on standard error.
const REFUSED_WORDS: [(ErrorKind, u8, &str); 2] = [
    (
        ErrorKind::InvalidData,
        2,
        "batchctl: a word of the command line is not UTF-8\n",
    ),
    (ErrorKind::OutOfMemory, 5, "batchctl: out of memory\n"),
];

#[test]
fn a_word_that_is_not_utf_8_refuses_the_command_line(rt: HostRuntime) {
    for (kind, status, wanted) in &REFUSED_WORDS {
        let mut faults = Vec::new(rt.alloc());
        let found = refuse_words(&Error::from(*kind), &mut faults);
        let is_told = faults.as_slice() == wanted.as_bytes();
        drop(faults);
        assert!(rt; found == *status, "{wanted}");
        assert!(rt; is_told, "{wanted}");
    }
}
