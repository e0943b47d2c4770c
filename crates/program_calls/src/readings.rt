//! Calls that read or write texts: catalogues, lines of a script and of a run, replies.
ghost use Rattle.std.specs.Prelude.{◌≡◌};
ghost use Rattle.batch_history.specs.Legal.{most_operations};

use anyhow::{Result, bail};
use call_lines::{Line, Script, echoed, tell_refused, tell_text, told};
use jsl_json::read_catalogue;
use row_repository::RowRepository;
use script_engine::{
    Counted, EngineFault, Line as Read, Lines, Summary, answer_script, fault_text, read_start,
    run_script,
};
use script_text::CommandReader;

/// More lines than a script has.
const MOST_LINES: u64 = 1_000;

/// The capacity of a writer, so that it makes no requests of its own.
const ROOM: usize = 65_536;

/// Writes the line of a catalogue's fault.
fn tell_fault<R: Print + AllocGlobal>(rt: &R, line: Line<'_>, catalogue: &[u8]) -> Result<()> {
    let Err(fault) = read_catalogue(rt.alloc(), catalogue) else {
        bail!("the catalogue has no fault");
    };
    if fault.is_out_of_memory() {
        bail!("there is no memory for the catalogue");
    }
    told!(rt, line, fault_text(rt.alloc(), &fault))
}

/// Makes the call that a line names, on the bytes that follow the name.
pub fn run_reading<R: Print + AllocGlobal>(rt: &R, line: Line<'_>) -> Result<()> {
    let alloc = rt.alloc();
    let (word, text) = line.parted();
    let bytes = text.as_bytes();
    match word {
        "read_catalogue" => told!(rt, line, read_catalogue(alloc, bytes)),
        "fault_text" => tell_fault(rt, line, bytes),
        "read_start" => told!(rt, line, read_start(alloc, bytes)),
        _ => bail!("no reader is called {word}"),
    }
}

/// Lets one reader read each line.
pub fn run_commands<R: Print + AllocGlobal>(rt: &R, lines: &str) -> Result<bool> {
    let mut reader = CommandReader::new(rt.alloc());
    for text in lines.lines() {
        let line = echoed(rt, text)?;
        told!(rt, line, reader.read(line.text.as_bytes()))?;
    }
    Ok(true)
}

/// Returns whether the reader's next line was read, after it is printed.
fn tell_next<R: Print + AllocGlobal>(
    rt: &R,
    next: std::result::Result<Option<Read>, EngineFault>,
) -> Result<bool> {
    match next {
        Ok(Some(Read::Whole(bytes))) => {
            tell_text(rt, bytes)?;
            println!(rt; "")?;
            Ok(true)
        }
        Ok(Some(Read::TooLong)) => bail!("a line is too long"),
        Ok(None) => Ok(false),
        Err(fault) => {
            println!(rt; "Err({fault:?})")?;
            Ok(false)
        }
    }
}

/// Reads all lines. That of this number is the call.
fn read_lines<R: Print + AllocGlobal>(
    rt: &R,
    first: Line<'_>,
    number: u64,
    lines: &mut Lines<Counted<&[u8]>>,
) -> Result<()> {
    for at in 1..MOST_LINES {
        if lines.has_failed() {
            return Ok(());
        }
        let line = if at == number {
            first
        } else {
            first.unmarked()
        };
        line.mark(rt.alloc());
        let next = lines.next_line();
        line.mark(rt.alloc());
        if !tell_next(rt, next)? {
            return Ok(());
        }
    }
    Ok(())
}

/// Reads the lines of a script. The first line has the number of the one that is the call, from 1
/// on; 0 is the call that makes the reader. Returns whether there was the memory for it.
pub fn run_lines<R: Print + AllocGlobal>(rt: &R, script: Script<'_>) -> Result<bool> {
    let alloc = rt.alloc();
    let number = script.first.text.parse::<u64>()?;
    let making = if number == 0 {
        script.first
    } else {
        script.first.unmarked()
    };
    making.mark(alloc);
    let made = Lines::new(alloc, Counted::new(script.lines.as_bytes()));
    making.mark(alloc);
    match made {
        Ok(mut lines) => {
            let read = read_lines(rt, script.first, number, &mut lines);
            let failed = lines.has_failed();
            drop(lines);
            read?;
            Ok(!failed)
        }
        Err(_) => tell_refused(rt),
    }
}

/// Prints how a script ended, and its replies. Returns whether there was the memory for it.
fn tell_ran<R: Print>(
    rt: &R,
    outcome: std::result::Result<Summary, EngineFault>,
    written: Vec<u8>,
) -> Result<bool> {
    let ran = outcome.is_ok();
    println!(rt; "{outcome:?}")?;
    drop(outcome);
    tell_text(rt, written)?;
    Ok(ran)
}

/// Runs a script. The capacity for its replies is requested before the mark.
pub fn run_whole<J: RowRepository, R: Print + AllocGlobal>(
    rt: &R,
    script: Script<'_>,
) -> Result<bool>
    requires { J.limit ≡ most_operations }
{
    let alloc = rt.alloc();
    let mut written = Vec::<u8>::with_capacity(alloc, ROOM)?;
    script.first.mark(alloc);
    let outcome = run_script::<J, _, _>(
        alloc,
        &mut Counted::new(script.lines.as_bytes()),
        &mut Counted::new(&mut written),
    );
    script.first.mark(alloc);
    tell_ran(rt, outcome, written)
}

/// Answers a script that is a slice of bytes.
pub fn answer_whole<J: RowRepository, R: Print + AllocGlobal>(
    rt: &R,
    script: Script<'_>,
) -> Result<bool>
    requires { J.limit ≡ most_operations }
{
    let alloc = rt.alloc();
    script.first.mark(alloc);
    let (written, outcome) = answer_script::<J>(alloc, script.lines.as_bytes());
    script.first.mark(alloc);
    tell_ran(rt, outcome, written)
}
