//! The lines of a script, the marks around their calls, and the output.
use anyhow::{Result, bail};
use batch_history::{Answer, Call, Query, Reply};
use batch_ids::{Moment, OutOfMemory, Refusal};
use script_text::{Command, answer_text, read_command, reply_text};
use std::alloc::Global;
use std::fmt::Debug;
use std::sync::Wait;

/// The size of a request that is a mark. No other request has it.
const MARK: usize = 1_000_003;

/// What was done, if it was not refused.
pub type Tried<T> = std::result::Result<T, Refusal>;

/// The result of a call.
pub type Replied = Tried<Reply>;

/// The result of a query.
pub type Answered = Tried<Answer>;

/// What was made, if there was the memory for it.
pub type Made<T> = std::result::Result<T, OutOfMemory>;

/// A line of a script.
#[derive(Clone, Copy)]
pub struct Line<'a> {
    /// Whether there is a mark before and after its call.
    marked: bool,
    /// The text, without the mark.
    pub text: &'a str,
}

impl<'a> Line<'a> {
    /// Returns the line of this text. A text that begins with `! ` is marked.
    pub fn new(text: &'a str) -> Line<'a> {
        match text.strip_prefix("! ") {
            None => Line {
                marked: false,
                text,
            },
            Some(text) => Line { marked: true, text },
        }
    }

    /// Returns the same line without marks.
    pub fn unmarked(self) -> Line<'a> {
        Line {
            marked: false,
            text: self.text,
        }
    }

    /// Returns the first word and what follows it.
    pub fn parted(self) -> (&'a str, &'a str) {
        self.text.split_once(' ').unwrap_or((self.text, ""))
    }

    /// Marks where the counted requests begin or end, if the line is marked.
    pub fn mark(self, alloc: Global) {
        if self.marked {
            drop(Vec::<u8>::with_capacity(alloc, MARK));
        }
    }
}

/// A script for one object.
#[derive(Clone, Copy)]
pub struct Script<'a> {
    /// The line that the object is made of: a catalogue, if it has one.
    pub first: Line<'a>,
    /// The lines that it answers.
    pub lines: &'a str,
    /// The number of read copies of each kind, if it is an operator.
    pub copies: u64,
}

impl<'a> Script<'a> {
    /// Returns the same script without marks around the making of its object.
    pub fn unmarked(self) -> Script<'a> {
        Script {
            first: self.first.unmarked(),
            lines: self.lines,
            copies: self.copies,
        }
    }
}

/// Prints a line of a script, ahead of its call, and returns it.
pub fn echoed<'a>(rt: &impl Print, text: &'a str) -> Result<Line<'a>> {
    println!(rt; "> {text}")?;
    Ok(Line::new(text))
}

/// Prints a result.
pub fn tell<T: Debug + Drop>(rt: &impl Print, answer: T) -> Result<()> {
    println!(rt; "{answer:?}")?;
    Ok(())
}

/// Prints that there was no memory for an object, which is therefore not there.
pub fn tell_refused(rt: &impl Print) -> Result<bool> {
    println!(rt; "Err(OutOfMemory)")?;
    Ok(false)
}

/// Prints bytes that are lines.
pub fn tell_text(rt: &impl Print, text: Vec<u8>) -> Result<()> {
    let text = String::from_utf8(text)?;
    print!(rt; "{text}")?;
    Ok(())
}

/// Prints the line of a reply.
pub fn tell_reply(rt: &(impl Print + AllocGlobal), reply: Replied) -> Result<()> {
    let text = reply_text(rt.alloc(), &reply);
    drop(reply);
    tell_text(rt, text?)
}

/// Prints the line of an answer.
pub fn tell_answer(rt: &(impl Print + AllocGlobal), answer: Answered) -> Result<()> {
    let text = answer_text(rt.alloc(), &answer);
    drop(answer);
    tell_text(rt, text?)
}

/// An object that answers lines.
pub trait Answers {
    /// Makes the call of a line, by the session that the line names. Fails if it has no such session.
    fn act<R: Wait>(&mut self, rt: &R, by: u64, call: Call, at: Moment) -> Result<Replied>;

    /// Asks the query of a line. Fails if it has no session that could.
    fn ask<R: Wait>(&mut self, rt: &R, query: Query) -> Result<Answered>;

    /// Answers a line that is neither a call nor a query.
    fn other<R: Wait + Print + AllocGlobal>(&mut self, rt: &R, line: Line<'_>) -> Result<()>;
}

fn answer_line<A: Answers, R: Wait + Print + AllocGlobal>(
    rt: &R,
    object: &mut A,
    line: Line<'_>,
) -> Result<()> {
    let alloc = rt.alloc();
    match read_command(alloc, line.text.as_bytes())? {
        Command::Act { by, at, call } => {
            line.mark(alloc);
            let reply = object.act(rt, by, call, at);
            line.mark(alloc);
            tell_reply(rt, reply?)
        }
        Command::Ask(query) => {
            line.mark(alloc);
            let answer = object.ask(rt, query);
            line.mark(alloc);
            tell_answer(rt, answer?)
        }
        Command::BadLine => object.other(rt, line),
        Command::TextTooLong => bail!("a text is too long"),
    }
}

/// Lets an object answer each line.
pub fn answer_lines<A: Answers, R: Wait + Print + AllocGlobal>(
    rt: &R,
    object: &mut A,
    lines: &str,
) -> Result<()> {
    for text in lines.lines() {
        let line = echoed(rt, text)?;
        answer_line(rt, object, line)?;
    }
    Ok(())
}

/// Returns the query on a line.
pub fn query_in(alloc: Global, line: &str) -> Result<Query> {
    match read_command(alloc, line.as_bytes())? {
        Command::Ask(query) => Ok(query),
        _ => bail!("{line}: no query"),
    }
}

/// Makes a call without an object between two marks, and prints its result.
#[macro_export]
macro_rules! told {
    ($rt:ident, $line:ident, $call:expr) => {{
        $line.mark($rt.alloc());
        let answer = $call;
        $line.mark($rt.alloc());
        $crate::tell($rt, answer)
    }};
}
