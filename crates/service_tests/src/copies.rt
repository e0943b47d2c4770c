//! Clones are equal to their originals if memory is ample.
use batch_history::Call;
use batch_service::Book;
use jsl_json::read_catalogue;
use jsl_model::Catalogue;
use script_text::{Command, read_command};
use std::alloc::Global;
use std::test::Fail;

const CATALOGUE: &[u8] =
    br#"{"jobs":[{"id":"a","elements":[{"kind":"step","id":"s","batchlet":{"ref":"ok"}}]}]}"#;

// The catalogue of one job of one step.
pub(crate) fn catalogue(alloc: Global) -> Result<Catalogue, Fail> {
    Ok(read_catalogue(alloc, CATALOGUE)?)
}

// A job that is started, claimed and finished; then each other call, with each member that it may
// have.
pub(crate) const CALLS: [&str; 10] = [
    r#"{"do":"start","by":1,"at":0,"job":"a","parameters":{"to":"1"}}"#,
    r#"{"do":"claim","by":1,"at":0}"#,
    r#"{"do":"finish","by":1,"at":0,"work":1,"outcome":"COMPLETED"}"#,
    r#"{"do":"stop","by":1,"at":0,"execution":1}"#,
    r#"{"do":"abandon","by":1,"at":0,"execution":1}"#,
    r#"{"do":"restart","by":1,"at":0,"execution":1,"parameters":{"to":"2"}}"#,
    r#"{"do":"checkpoint","by":1,"at":0,"work":1,"data":"4","metrics":{"READ_COUNT":2}}"#,
    r#"{"do":"finish","by":1,"at":0,"work":1,"outcome":"FAILED","exit":"bad","metrics":{"READ_COUNT":2}}"#,
    r#"{"do":"lose","by":1,"at":0,"work":1}"#,
    r#"{"do":"purge","by":1,"at":0,"instance":1}"#,
];

// Returns the call on a line.
pub(crate) fn call_of(alloc: Global, line: &str) -> Result<Call, Fail> {
    match read_command(alloc, line.as_bytes())? {
        Command::Act { call, .. } => Ok(call),
        _ => Err("a line that is no call".into()),
    }
}

#[test]
fn calls_are_copied(rt: HostRuntime) -> Result<(), Fail> {
    for line in &CALLS {
        assert!(rt; is_copied(rt.alloc(), line)?, "{line}");
    }
    Ok(())
}

fn is_copied(alloc: Global, line: &str) -> Result<bool, Fail> {
    let call = call_of(alloc, line)?;
    let copy = call.try_clone()?;
    let is_same = copy == call;
    drop(copy);
    drop(call);
    Ok(is_same)
}

// Returns a clone of the catalogue.
fn copied(alloc: Global) -> Result<Catalogue, Fail> {
    let catalogue = catalogue(alloc)?;
    Ok(catalogue.try_clone()?)
}

// Returns the number of calls that a log with room for three operations accepts.
fn entries_of(alloc: Global, catalogue: Catalogue) -> Result<usize, Fail> {
    let mut book = Book::<3>::new(alloc, catalogue)?;
    let entered = enter(alloc, &mut book);
    let len = book.len();
    drop(book);
    entered?;
    Ok(len)
}

// Makes the calls on a log.
fn enter(alloc: Global, book: &mut Book<3>) -> Result<(), Fail> {
    for line in &CALLS {
        let call = call_of(alloc, line)?;
        drop(book.act(1, call, 0));
    }
    Ok(())
}

// The clone has the job, which can be started, claimed and finished. Then the log is full.
#[test]
fn a_catalogue_is_copied(rt: HostRuntime) -> Result<(), Fail> {
    let copy = copied(rt.alloc())?;
    assert!(rt; copy.len() == 1);
    assert!(rt; entries_of(rt.alloc(), copy)? == 3);
    Ok(())
}
