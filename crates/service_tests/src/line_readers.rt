//! Lines of a reader, in the way of a host that reads them itself.
use crate::flaky::FlakyReader;
use script_engine::{Counted, EngineFault, Line, Lines, Source};
use std::alloc::Global;
use std::test::Fail;

// Adds a line and a mark after it.
fn tell(told: &mut String, line: &Line) -> Result<(), Fail> {
    match line {
        Line::Whole(bytes) => told.push_str(str::from_utf8(bytes)?)?,
        Line::TooLong => told.push_str("too long")?,
    }
    told.push_str("|")?;
    Ok(())
}

// Adds the next line or fault to a text. Returns whether more lines may come.
fn tell_next<S: Source + Drop>(lines: &mut Lines<S>, told: &mut String) -> Result<bool, Fail> {
    if lines.has_failed() {
        told.push_str("failed")?;
        return Ok(false);
    }
    match lines.next_line() {
        Ok(Some(line)) => {
            tell(told, &line)?;
            Ok(true)
        }
        Ok(None) => {
            told.push_str("end")?;
            Ok(false)
        }
        Err(EngineFault::Read) => {
            told.push_str("read fault, ")?;
            Ok(true)
        }
        Err(_) => Err("another fault".into()),
    }
}

// Returns all lines as a text, at most eight.
fn tell_all<S: Source + Drop>(alloc: Global, lines: &mut Lines<S>) -> Result<String, Fail> {
    let mut told = String::new(alloc);
    for _line in 0..8_u64 {
        if !tell_next(lines, &mut told)? {
            return Ok(told);
        }
    }
    Ok(told)
}

// Texts, the number of bytes after which their reader fails, and the lines that are read.
const READERS: [(&str, usize, &str); 5] = [
    ("", 100, "end"),
    ("a\n\nbc", 100, "a||bc|end"),
    ("a\nb\n", 100, "a|b|end"),
    ("a\nbc\n", 0, "read fault, failed"),
    ("a\nbc\n", 3, "a|read fault, failed"),
];

#[test]
fn a_host_reads_lines_until_the_end_or_a_fault(rt: HostRuntime) -> Result<(), Fail> {
    for (text, good_calls, wanted) in &READERS {
        let reader = Counted::new(FlakyReader::new(text.as_bytes(), *good_calls));
        let mut lines = Lines::new(rt.alloc(), reader)?;
        let told = tell_all(rt.alloc(), &mut lines)?;
        drop(lines);
        assert!(rt; told.as_str() == *wanted, "{told}");
    }
    Ok(())
}
