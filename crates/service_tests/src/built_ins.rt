// Each built-in artifact alone, in each use.
use built_in_artifacts::{BuiltIn, BuiltInArtifact};
use job_threads::{Artifact, ArtifactFault};
use std::alloc::{AllocError, Global};
use std::test::Fail;

/// Names, and the built-in artifacts with these names.
const NAMES: [(&str, &str); 26] = [
    ("ok", "ok"),
    ("fail", "fail"),
    ("odd", "odd"),
    ("sink", "sink"),
    ("exit:", "exit with "),
    ("exit:T", "exit with T"),
    ("exit:a:b", "exit with a:b"),
    ("count:0", "count to 0"),
    ("count:5", "count to 5"),
    ("count:010", "count to 10"),
    ("count:999999999", "count to 999999999"),
    ("", "none"),
    ("OK", "none"),
    ("ok ", "none"),
    ("okay", "none"),
    ("exit", "none"),
    ("count", "none"),
    ("count:", "none"),
    ("count:+1", "none"),
    ("count:-1", "none"),
    ("count:1 ", "none"),
    ("count:a", "none"),
    ("count:1234567890", "none"),
    ("count:٣", "none"),
    ("odd:", "none"),
    ("sink:1", "none"),
];

/// Returns a built-in artifact in words.
fn told(alloc: Global, built_in: &Option<BuiltIn>) -> Result<String, AllocError> {
    match built_in {
        None => String::from_str(alloc, "none"),
        Some(BuiltIn::Complete) => String::from_str(alloc, "ok"),
        Some(BuiltIn::Fail) => String::from_str(alloc, "fail"),
        Some(BuiltIn::Exit(exit)) => format!(in alloc; "exit with {}", exit.as_str()),
        Some(BuiltIn::Count(last)) => format!(in alloc; "count to {last}"),
        Some(BuiltIn::Odd) => String::from_str(alloc, "odd"),
        Some(BuiltIn::Sink) => String::from_str(alloc, "sink"),
    }
}

fn is_named(alloc: Global, name: &str, wanted: &str) -> Result<bool, Fail> {
    let built_in = BuiltIn::of(alloc, name)?;
    let told = told(alloc, &built_in)?;
    Ok(told.as_str() == wanted)
}

#[test]
fn names(rt: HostRuntime) -> Result<(), Fail> {
    for (name, wanted) in &NAMES {
        assert!(rt; is_named(rt.alloc(), name, wanted)?, "{name}");
    }
    Ok(())
}

/// Checks whether the name of a built-in artifact may have an exit status of `length` bytes.
fn is_exit_of(alloc: Global, length: usize) -> Result<bool, Fail> {
    let status = "T".repeat(alloc, length)?;
    let name = format!(in alloc; "exit:{status}")?;
    Ok(BuiltIn::of(alloc, name.as_str())?.is_some())
}

#[test]
fn an_exit_status_has_256_bytes_at_most(rt: HostRuntime) -> Result<(), Fail> {
    assert!(rt; is_exit_of(rt.alloc(), 256)?);
    assert!(rt; !is_exit_of(rt.alloc(), 257)?);
    Ok(())
}

/// Returns the artifact with this name, before its first call.
fn artifact_of(alloc: Global, name: &str) -> Result<BuiltInArtifact, Fail> {
    let built_in = BuiltIn::of(alloc, name)?.ok_or("not the name of a built-in artifact")?;
    Ok(BuiltInArtifact::new(alloc, built_in))
}

fn word<T: Drop>(answer: Result<T, ArtifactFault>) -> &'static str {
    match answer {
        Ok(_) => "answers",
        Err(ArtifactFault::Failed) => "faults",
        Err(ArtifactFault::OutOfMemory) => "wants memory",
    }
}

/// Names, and the results of a run, an open, a read, a process, a write and a checkpoint.
const USES: [(&str, &str); 6] = [
    ("ok", "answers faults faults faults faults faults"),
    ("fail", "faults faults faults faults faults faults"),
    ("exit:T", "answers faults faults faults faults faults"),
    ("count:5", "faults answers answers faults faults answers"),
    ("odd", "faults faults faults answers faults faults"),
    ("sink", "faults answers faults faults answers faults"),
];

/// Returns the result of each use of an artifact.
fn came_of(artifact: &mut BuiltInArtifact) -> [&'static str; 6] {
    [
        word(artifact.run()),
        word(artifact.open(None)),
        word(artifact.read()),
        word(artifact.process("1")),
        word(artifact.write(&[])),
        word(artifact.checkpoint()),
    ]
}

/// Checks whether an artifact begins, and whether its uses have these results.
fn is_used(alloc: Global, name: &str, wanted: &str) -> Result<bool, Fail> {
    let mut artifact = artifact_of(alloc, name)?;
    let begins = artifact.begin(Some(1)).is_ok();
    let came = came_of(&mut artifact);
    drop(artifact);
    let told = came.as_slice().join(alloc, " ")?;
    Ok(begins && told.as_str() == wanted)
}

#[test]
fn uses(rt: HostRuntime) -> Result<(), Fail> {
    for (name, wanted) in &USES {
        assert!(rt; is_used(rt.alloc(), name, wanted)?, "{name}");
    }
    Ok(())
}

/// Readers, each with a checkpoint or none if it is empty, and the items that they read from there.
/// Each item has the checkpoint after it.
const READ: [(&str, &str, &str); 6] = [
    ("count:3", "", "0 1@1 2@2 3@3 end"),
    ("count:9", "0007", "7 8@8 9@9 end"),
    ("count:010", "9", "9 10@10 end"),
    ("count:2", "0", "0 1@1 2@2 end"),
    ("count:0", "", "0 end"),
    ("count:5", "12", "12 end"),
];

/// Adds a reader's checkpoint to a text.
fn tell_checkpoint(reader: &mut BuiltInArtifact, told: &mut String) -> Result<(), Fail> {
    let checkpoint = reader.checkpoint()?;
    Ok(told.push_str(checkpoint.as_str())?)
}

/// Adds the next item and the checkpoint after it to a text. Returns whether there was an item.
fn tell_next(reader: &mut BuiltInArtifact, told: &mut String) -> Result<bool, Fail> {
    let Some(item) = reader.read()? else {
        return Ok(false);
    };
    write!(told, " {}@", item.as_str())?;
    drop(item);
    tell_checkpoint(reader, told)?;
    Ok(true)
}

fn read_all(reader: &mut BuiltInArtifact, told: &mut String) -> Result<(), Fail> {
    tell_checkpoint(reader, told)?;
    for _item in 0..9 {
        if !tell_next(reader, told)? {
            break;
        }
    }
    Ok(told.push_str(" end")?)
}

fn is_read(alloc: Global, name: &str, from: &str, wanted: &str) -> Result<bool, Fail> {
    let mut reader = artifact_of(alloc, name)?;
    let told = read_from(alloc, &mut reader, from)?;
    Ok(told.as_str() == wanted)
}

fn read_from(alloc: Global, reader: &mut BuiltInArtifact, from: &str) -> Result<String, Fail> {
    reader.open((!from.is_empty()).then_some(from))?;
    let mut told = String::new(alloc);
    read_all(reader, &mut told)?;
    Ok(told)
}

#[test]
fn readers(rt: HostRuntime) -> Result<(), Fail> {
    for (name, from, wanted) in &READ {
        assert!(rt; is_read(rt.alloc(), name, from, wanted)?, "{name}");
    }
    Ok(())
}

fn is_opened(alloc: Global, mark: &str) -> Result<bool, Fail> {
    let mut reader = artifact_of(alloc, "count:5")?;
    Ok(reader.open(Some(mark)).is_ok())
}

#[test]
fn no_reader_begins_at_what_is_no_number(rt: HostRuntime) -> Result<(), Fail> {
    for mark in &["", "a", "+1", "-1", "1 ", "1234567890"] {
        assert!(rt; !is_opened(rt.alloc(), mark)?, "{mark}");
    }
    Ok(())
}

fn ends_with(artifact: &mut BuiltInArtifact, wanted: &str) -> bool {
    matches!(artifact.run(), Ok(Some(exit)) if exit.as_str() == wanted)
}

fn is_exit(alloc: Global, name: &str, wanted: &str) -> Result<bool, Fail> {
    let mut artifact = artifact_of(alloc, name)?;
    Ok(ends_with(&mut artifact, wanted))
}

const EXITS: [(&str, &str); 2] = [("exit:T", "T"), ("exit:", "")];

#[test]
fn an_exit_status(rt: HostRuntime) -> Result<(), Fail> {
    for (name, wanted) in &EXITS {
        assert!(rt; is_exit(rt.alloc(), name, wanted)?, "{name}");
    }
    Ok(())
}

/// Items, and whether `odd` returns each of them.
const ITEMS: [(&str, bool); 14] = [
    ("1", true),
    ("13", true),
    ("", true),
    ("a", true),
    ("2a", true),
    ("é", true),
    ("5 ", true),
    ("0", false),
    ("2", false),
    ("4", false),
    ("6", false),
    ("8", false),
    ("10", false),
    ("a8", false),
];

/// Checks whether an item is returned unchanged, or filtered out.
fn is_processed(odd: &mut BuiltInArtifact, item: &str, is_kept: bool) -> bool {
    match odd.process(item) {
        Ok(Some(kept)) => is_kept && kept.as_str() == item,
        Ok(None) => !is_kept,
        Err(_) => false,
    }
}

#[test]
fn odd_items(rt: HostRuntime) -> Result<(), Fail> {
    let mut odd = artifact_of(rt.alloc(), "odd")?;
    for (item, is_kept) in &ITEMS {
        assert!(rt; is_processed(&mut odd, item, *is_kept), "{item}");
    }
    Ok(())
}
