//! The lines of a script of single calls, the marks around their calls, and the output.
#![tactic(auto)]

mod lines;

pub use lines::{
    Answered, Answers, Line, Made, Replied, Script, Tried, answer_lines, echoed, query_in, tell,
    tell_answer, tell_refused, tell_reply, tell_text,
};
