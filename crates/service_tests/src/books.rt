//! Full logs.
use crate::copies::{CALLS, catalogue};
use batch_service::Book;
use script_text::{Command, answer_text, read_command, reply_text};
use std::alloc::Global;
use std::test::Fail;

// Returns the text of the reply to a line.
fn reply_to<const LIMIT: u64>(
    alloc: Global,
    book: &mut Book<LIMIT>,
    line: &str,
) -> Result<Vec<u8>, Fail> {
    match read_command(alloc, line.as_bytes())? {
        Command::Act { by, at, call } => {
            let reply = book.act(by, call, at);
            let text = reply_text(alloc, &reply);
            drop(reply);
            Ok(text?)
        }
        Command::Ask(query) => {
            let answer = book.ask(&query);
            let text = answer_text(alloc, &answer);
            drop(answer);
            Ok(text?)
        }
        _ => Err("a line that is no command".into()),
    }
}

// Adds the replies to these lines.
fn reply_to_all<const LIMIT: u64>(
    alloc: Global,
    book: &mut Book<LIMIT>,
    lines: &[&str],
    replies: &mut Vec<u8>,
) -> Result<(), Fail> {
    for line in lines {
        replies.extend_from_slice(&reply_to(alloc, book, line)?)?;
    }
    Ok(())
}

// Returns the replies of this log, and its number of operations after them.
fn replies_of<const LIMIT: u64>(
    alloc: Global,
    mut book: Book<LIMIT>,
    lines: &[&str],
) -> Result<(Vec<u8>, usize), Fail> {
    let mut replies = Vec::new(alloc);
    let replied = reply_to_all(alloc, &mut book, lines, &mut replies);
    let len = book.len();
    drop(book);
    replied?;
    Ok((replies, len))
}

// A claim that finds nothing adds no entry. Each other call checks its own refusals first, and then
// whether the log is full.
const OF_ONE: &str = r#"{"nothing":true}
{"execution":1}
{"refused":"RepositoryFull"}
{"refused":"NoSuchWork"}
{"refused":"RepositoryFull"}
"#;

#[test]
fn a_full_log_refuses_what_would_be_entered(rt: HostRuntime) -> Result<(), Fail> {
    let lines = [CALLS[1], CALLS[0], CALLS[1], CALLS[2], CALLS[3]];
    let book = Book::<1>::new(rt.alloc(), catalogue(rt.alloc())?)?;
    let (replies, len) = replies_of(rt.alloc(), book, &lines)?;
    assert!(rt; replies.as_slice() == OF_ONE.as_bytes());
    assert_eq!(rt; len, 1);
    Ok(())
}

const STOP_OF_9: &str = r#"{"do":"stop","by":1,"at":0,"execution":9}"#;

const COUNT: &str = r#"{"ask":"job_instance_count","job":"a"}"#;

const OF_TWO: &str = r#"{"execution":1}
{"execution":2}
{"refused":"RepositoryFull"}
{"refused":"RepositoryFull"}
{"refused":"NoSuchJobExecutionException"}
{"refused":"RepositoryFull"}
{"count":2}
"#;

#[test]
fn a_log_of_two_operations_refuses_a_third(rt: HostRuntime) -> Result<(), Fail> {
    let lines = [
        CALLS[0], CALLS[0], CALLS[0], CALLS[1], STOP_OF_9, CALLS[3], COUNT,
    ];
    let book = Book::<2>::new(rt.alloc(), catalogue(rt.alloc())?)?;
    let (replies, len) = replies_of(rt.alloc(), book, &lines)?;
    assert!(rt; replies.as_slice() == OF_TWO.as_bytes());
    assert_eq!(rt; len, 2);
    Ok(())
}

#[test]
fn a_log_without_room_answers_a_claim(rt: HostRuntime) -> Result<(), Fail> {
    let book = Book::<0>::new(rt.alloc(), catalogue(rt.alloc())?)?;
    let (replies, len) = replies_of(rt.alloc(), book, &[CALLS[1], CALLS[0]])?;
    let wanted = "{\"nothing\":true}\n{\"refused\":\"RepositoryFull\"}\n";
    assert!(rt; replies.as_slice() == wanted.as_bytes());
    assert_eq!(rt; len, 0);
    Ok(())
}
