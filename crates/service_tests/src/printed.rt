//! The printed forms of a book's unfinished job executions and walks, and of a job's index.
//!
//! `Debug` was once derived for these types. Their fields have changed since, but their printed
//! forms must not. This file's structs have the names and fields of that time, and derive `Debug`.
//! So an expected text is the derived form, and never the present output. The tests work out the
//! values of the structs from the calls and from the job's elements.
use crate::copies::call_of;
use crate::element_indexes::{Spot, add_all, catalogue_of, nest, split, steps};
use crate::walks::{key_of, report, take};
use batch_history::Call;
use batch_ids::{Listed, OutOfMemory, T256, WorkOutcome};
use batch_service::Book;
use job_plans::Plan;
use job_walk::Cursor;
use jsl_json::read_catalogue;
use jsl_model::{Catalogue, Job};
use std::alloc::{AllocError, Global};
use std::collections::BTreeMap;
use std::fmt::{self, Debug, Formatter};
use std::test::Fail;
use walk_rules::WorkKey;

/// The numbers of job executions, which were in the `Items` of a vector.
#[derive(Debug, Drop)]
struct Items<'a> {
    items: &'a [u64],
}

/// Numbers under names, in this order. They were in an `IndexMap`, whose `swap_remove` moves the
/// last name into the place of the removed one.
#[derive(Drop)]
struct Lists<'a> {
    lists: &'a [(&'a str, &'a [u64])],
}

impl<'a> Debug for Lists<'a> {
    fn fmt<W: fmt::Write>(&self, f: &mut Formatter<W>) -> fmt::Result {
        let mut map = f.debug_map();
        for (name, items) in self.lists.iter() {
            map.entry(name, &Items { items });
        }
        map.finish()
    }
}

/// The unfinished job executions of each job, as a book had them at that time.
#[derive(Debug, Drop)]
struct NameLists<'a> {
    alloc: Global,
    lists: Lists<'a>,
}

/// A job's index at that time: a map, which prints by rising ids.
#[derive(Debug, Drop)]
struct ElementIndex {
    spots: BTreeMap<T256, Spot>,
}

/// The printed forms of a value, on one line and on many.
#[derive(Drop)]
struct Texts {
    line: String,
    lines: String,
}

fn texts_of<V: Debug>(alloc: Global, value: &V) -> Result<Texts, AllocError> {
    let line = format!(in alloc; "{value:?}")?;
    let lines = format!(in alloc; "{value:#?}")?;
    Ok(Texts { line, lines })
}

fn is_same(one: &Texts, other: &Texts) -> bool {
    one.line == other.line && one.lines == other.lines
}

/// A line feed, and four spaces for each level of depth.
fn margin(alloc: Global, depth: usize) -> Result<String, AllocError> {
    let mut margin = String::from_str(alloc, "\n")?;
    for _level in 0..depth {
        margin.push_str("    ")?;
    }
    Ok(margin)
}

/// Returns a field on many lines, at this depth of a whole.
fn deep_field(alloc: Global, name: &str, lines: &str, depth: usize) -> Result<String, AllocError> {
    let margin = margin(alloc, depth)?;
    let lines = lines.replace(alloc, "\n", margin.as_str())?;
    format!(in alloc; "{margin}{name}: {lines}")
}

/// Checks whether the printed forms of a whole have a field of this name and value at this depth,
/// on one line and on many.
fn has_field(
    alloc: Global,
    whole: &Texts,
    name: &str,
    value: &Texts,
    depth: usize,
) -> Result<bool, AllocError> {
    let line = format!(in alloc; " {name}: {}", value.line)?;
    let lines = deep_field(alloc, name, value.lines.as_str(), depth)?;
    let has_line = whole.line.as_str().contains(line.as_str());
    Ok(has_line && whole.lines.as_str().contains(lines.as_str()))
}

/// Three jobs, each of a step `a` and then a step `b`.
const CATALOGUE: &[u8] = br#"{"jobs":[
    {"id":"j","elements":[{"kind":"step","id":"a","next":"b","batchlet":{"ref":"ok"}},
        {"kind":"step","id":"b","batchlet":{"ref":"ok"}}]},
    {"id":"k","elements":[{"kind":"step","id":"a","next":"b","batchlet":{"ref":"ok"}},
        {"kind":"step","id":"b","batchlet":{"ref":"ok"}}]},
    {"id":"l","elements":[{"kind":"step","id":"a","next":"b","batchlet":{"ref":"ok"}},
        {"kind":"step","id":"b","batchlet":{"ref":"ok"}}]}]}"#;

/// The steps of each job, in the order in which they run.
const STEPS: [&str; 2] = ["a", "b"];

/// Returns the walk of a job by a plan.
fn walk_by(alloc: Global, job: &Job, plan: &Plan) -> Result<Cursor, Fail> {
    if !plan.begins_in(job) {
        return Err("the walk begins at no element".into());
    }
    Ok(Cursor::new(alloc, job, plan)?)
}

/// Returns the walk of a job in its first job execution.
fn begun(alloc: Global, job: &Job) -> Result<Cursor, Fail> {
    let plan = Plan {
        from: T256::new(alloc, "a")?,
        carried: Listed::new(alloc),
        kept: Listed::new(alloc),
        barred: Listed::new(alloc),
    };
    let cursor = walk_by(alloc, job, &plan);
    drop(plan);
    cursor
}

/// Takes a step, and reports it as COMPLETED if it is to be over.
fn go_on(
    cursor: &mut Cursor,
    key: &WorkKey,
    exit: &T256,
    is_over: bool,
) -> Result<(), OutOfMemory> {
    take(cursor, key)?;
    if is_over {
        report(cursor, key, WorkOutcome::Completed, exit)?;
    }
    Ok(())
}

/// Takes the first `taken` steps, of which the first `over` are reported.
fn go_through(alloc: Global, cursor: &mut Cursor, taken: usize, over: usize) -> Result<(), Fail> {
    let exit = T256::new(alloc, "COMPLETED")?;
    for (place, id) in STEPS.iter().enumerate() {
        let key = key_of(alloc, id)?;
        if place < taken {
            go_on(cursor, &key, &exit, place < over)?;
        }
    }
    Ok(())
}

/// Returns the walk of a job with some steps taken, and some of these reported.
fn walk_of(alloc: Global, job: &Job, taken: usize, over: usize) -> Result<Cursor, Fail> {
    let mut cursor = begun(alloc, job)?;
    go_through(alloc, &mut cursor, taken, over)?;
    Ok(cursor)
}

/// Adds the walk of the job execution with this number.
fn keep_walk(
    walks: &mut BTreeMap<u64, Cursor>,
    number: u64,
    cursor: Cursor,
) -> Result<(), OutOfMemory> {
    match walks.insert(number, cursor) {
        Ok(_) => Ok(()),
        Err(_) => Err(AllocError),
    }
}

/// Job executions with walks: their numbers, their jobs, and the numbers of steps taken and
/// reported.
fn walks_of(
    alloc: Global,
    catalogue: &Catalogue,
    wanted: &[(u64, &str, usize, usize)],
) -> Result<BTreeMap<u64, Cursor>, Fail> {
    let mut walks = BTreeMap::new(alloc);
    for (number, name, taken, over) in wanted {
        let job = catalogue.job(name).ok_or("no job")?;
        let cursor = walk_of(alloc, job, *taken, *over)?;
        keep_walk(&mut walks, *number, cursor)?;
    }
    Ok(walks)
}

/// A call, and the book's state after it.
#[derive(Drop)]
struct Turn {
    call: &'static str,
    is_refused: bool,
    /// The unfinished job executions of each job.
    lists: &'static [(&'static str, &'static [u64])],
    /// The walks by the numbers of their job executions: their jobs, and the numbers of steps taken
    /// and reported.
    walks: &'static [(u64, &'static str, usize, usize)],
}

const TURNS: [Turn; 16] = [
    Turn {
        call: r#"{"do":"finish","by":1,"at":0,"work":1,"outcome":"COMPLETED"}"#,
        is_refused: true,
        lists: &[],
        walks: &[],
    },
    Turn {
        call: r#"{"do":"start","by":1,"at":0,"job":"j"}"#,
        is_refused: false,
        lists: &[("j", &[1])],
        walks: &[],
    },
    Turn {
        call: r#"{"do":"start","by":1,"at":0,"job":"k"}"#,
        is_refused: false,
        lists: &[("j", &[1]), ("k", &[2])],
        walks: &[],
    },
    Turn {
        call: r#"{"do":"start","by":1,"at":0,"job":"j"}"#,
        is_refused: false,
        lists: &[("j", &[1, 3]), ("k", &[2])],
        walks: &[],
    },
    Turn {
        call: r#"{"do":"start","by":1,"at":0,"job":"l"}"#,
        is_refused: false,
        lists: &[("j", &[1, 3]), ("k", &[2]), ("l", &[4])],
        walks: &[],
    },
    Turn {
        call: r#"{"do":"claim","by":1,"at":0}"#,
        is_refused: false,
        lists: &[("j", &[1, 3]), ("k", &[2]), ("l", &[4])],
        walks: &[(1, "j", 1, 0)],
    },
    Turn {
        call: r#"{"do":"claim","by":1,"at":0}"#,
        is_refused: false,
        lists: &[("j", &[1, 3]), ("k", &[2]), ("l", &[4])],
        walks: &[(1, "j", 1, 0), (2, "k", 1, 0)],
    },
    Turn {
        call: r#"{"do":"purge","by":1,"at":0,"instance":1}"#,
        is_refused: true,
        lists: &[("j", &[1, 3]), ("k", &[2]), ("l", &[4])],
        walks: &[(1, "j", 1, 0), (2, "k", 1, 0)],
    },
    Turn {
        call: r#"{"do":"finish","by":1,"at":0,"work":2,"outcome":"COMPLETED"}"#,
        is_refused: false,
        lists: &[("j", &[1, 3]), ("k", &[2]), ("l", &[4])],
        walks: &[(1, "j", 1, 0), (2, "k", 1, 1)],
    },
    Turn {
        call: r#"{"do":"finish","by":1,"at":0,"work":1,"outcome":"FAILED"}"#,
        is_refused: false,
        lists: &[("j", &[3]), ("k", &[2]), ("l", &[4])],
        walks: &[(2, "k", 1, 1)],
    },
    Turn {
        call: r#"{"do":"stop","by":1,"at":0,"execution":3}"#,
        is_refused: false,
        lists: &[("l", &[4]), ("k", &[2])],
        walks: &[(2, "k", 1, 1)],
    },
    Turn {
        call: r#"{"do":"claim","by":1,"at":0}"#,
        is_refused: false,
        lists: &[("l", &[4]), ("k", &[2])],
        walks: &[(2, "k", 2, 1)],
    },
    Turn {
        call: r#"{"do":"finish","by":1,"at":0,"work":3,"outcome":"COMPLETED"}"#,
        is_refused: false,
        lists: &[("l", &[4])],
        walks: &[],
    },
    Turn {
        call: r#"{"do":"purge","by":1,"at":0,"instance":2}"#,
        is_refused: false,
        lists: &[("l", &[4])],
        walks: &[],
    },
    Turn {
        call: r#"{"do":"stop","by":1,"at":0,"execution":4}"#,
        is_refused: false,
        lists: &[],
        walks: &[],
    },
    Turn {
        call: r#"{"do":"start","by":1,"at":0,"job":"j"}"#,
        is_refused: false,
        lists: &[("j", &[5])],
        walks: &[],
    },
];

/// Checks whether a book prints the lists and the walks of a turn.
fn prints(alloc: Global, book: &Texts, catalogue: &Catalogue, turn: &Turn) -> Result<bool, Fail> {
    let lists = Lists { lists: turn.lists };
    let lists = texts_of(alloc, &NameLists { alloc, lists })?;
    let walks = walks_of(alloc, catalogue, turn.walks)?;
    let cursors = texts_of(alloc, &walks)?;
    drop(walks);
    let has_lists = has_field(alloc, book, "by_name", &lists, 5)?;
    Ok(has_lists && has_field(alloc, book, "cursors", &cursors, 2)?)
}

/// Checks whether a call is refused.
fn refuses(book: &mut Book<16>, call: Call) -> bool {
    let reply = book.act(1, call, 0);
    let is_refused = reply.is_err();
    drop(reply);
    is_refused
}

/// Checks whether a book refuses a turn's call exactly if it should, and prints the right state
/// after it. A refused call leaves the printed form unchanged.
fn is_as_wanted(
    alloc: Global,
    book: &mut Book<16>,
    catalogue: &Catalogue,
    turn: &Turn,
) -> Result<bool, Fail> {
    let before = texts_of(alloc, book)?;
    let call = call_of(alloc, turn.call)?;
    let is_refused = refuses(book, call);
    let after = texts_of(alloc, book)?;
    let is_answered = is_refused == turn.is_refused && is_refused == is_same(&before, &after);
    Ok(is_answered && prints(alloc, &after, catalogue, turn)?)
}

/// Returns the number of turns before the first failure.
fn turns_as_wanted(
    alloc: Global,
    book: &mut Book<16>,
    catalogue: &Catalogue,
) -> Result<usize, Fail> {
    for (count, turn) in TURNS.iter().enumerate() {
        if !is_as_wanted(alloc, book, catalogue, turn)? {
            return Ok(count);
        }
    }
    Ok(TURNS.len())
}

/// Returns the same number for a book over this catalogue.
fn book_turns_as_wanted(alloc: Global, catalogue: &Catalogue) -> Result<usize, Fail> {
    let mut book = Book::<16>::new(alloc, catalogue.try_clone()?)?;
    let turns = turns_as_wanted(alloc, &mut book, catalogue);
    drop(book);
    turns
}

#[test]
fn a_book_prints_unfinished_job_executions_and_walks(rt: HostRuntime) -> Result<(), Fail> {
    let alloc = rt.alloc();
    let catalogue = read_catalogue(alloc, CATALOGUE)?;
    let turns = book_turns_as_wanted(alloc, &catalogue);
    drop(catalogue);
    assert_eq!(rt; turns?, TURNS.len());
    Ok(())
}

/// Checks whether a job prints the index of its elements.
fn prints_index(alloc: Global, job: &Job) -> Result<bool, Fail> {
    let mut spots = BTreeMap::new(alloc);
    add_all(&mut spots, job.elements(), None, 0)?;
    let wanted = texts_of(alloc, &ElementIndex { spots })?;
    let index = texts_of(alloc, job.index())?;
    let whole = texts_of(alloc, job)?;
    Ok(is_same(&index, &wanted) && has_field(alloc, &whole, "index", &wanted, 2)?)
}

/// Checks the same of the job with these elements.
fn prints_index_of(alloc: Global, elements: &str) -> Result<bool, Fail> {
    let catalogue = catalogue_of(alloc, elements)?;
    let as_wanted = match catalogue.job("j") {
        Some(job) => prints_index(alloc, job),
        None => Ok(false),
    };
    drop(catalogue);
    as_wanted
}

#[test]
fn a_job_prints_its_index_by_rising_ids(rt: HostRuntime) -> Result<(), Fail> {
    let alloc = rt.alloc();
    let list = steps(alloc, 0, 12)?;
    assert!(rt; prints_index_of(alloc, list.as_str())?);
    let flows = split(alloc, 9)?;
    assert!(rt; prints_index_of(alloc, flows.as_str())?);
    let inner = nest(alloc, 3)?;
    assert!(rt; prints_index_of(alloc, inner.as_str())?);
    Ok(())
}
