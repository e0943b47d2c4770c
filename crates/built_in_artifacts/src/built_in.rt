ghost use Rattle.std.specs.Prelude.{◌≡◌, ◌≤◌, ◌<◌, length, IfOk, IfSome, IfNone, OnSome, option_map};
ghost use Rattle.built_in_artifacts.specs.declared.built_in.BuiltIn.{BuiltIn};
ghost use Rattle.built_in_artifacts.specs.Names.{IsNameOf};
ghost use Rattle.built_in_artifacts.specs.Means.{has_even_end};
ghost use Rattle.built_in_artifacts.specs.Uses.{RunsAs, StartsAs, ReadsAs, ProcessesAs, is_writer, MarksAs};

use crate::number::number_of;
use batch_ids::{OutOfMemory, T256};
use job_threads::ArtifactFault;
use std::alloc::Global;

/// The maximum length of an exit status, in bytes.
const LONGEST_EXIT: usize = 256;

/// A built-in artifact, as a catalogue names it. Calls of roles that it doesn't have fault.
#[derive(PartialEq, Eq, Debug, Drop)]
pub enum BuiltIn {
    /// `ok`: a batchlet or decider that completes without an exit status.
    Complete,
    /// `fail`: a batchlet or decider that faults.
    Fail,
    /// `exit:T`: a batchlet or decider that completes with the exit status `T`.
    Exit(T256),
    /// `count:N`: a reader of the numbers 1 to N in decimal.
    Count(u32),
    /// `odd`: a processor that filters out each item whose last character is an even digit.
    Odd,
    /// `sink`: a writer that takes every group.
    Sink,
}

/// Returns the artifact that completes with this exit status, or `None` if that is too long.
fn exit_with(alloc: Global, exit: &str) -> Result<Option<BuiltIn>, OutOfMemory>
    ensures some { IfOk result (λ found. IfSome found (λ b. (b ≡ BuiltIn.Exit exit.now)
        × (length exit.now ≤ 256))) }
    ensures none { IfOk result (λ found. IfNone found (256 < length exit.now)) }
{
    if exit.len() > LONGEST_EXIT {
        return Ok(None);
    }
    Ok(Some(BuiltIn::Exit(T256::within(alloc, exit)?)))
}

/// Checks whether the last character is an even digit.
fn ends_even(item: &str) -> bool
    ensures { result ≡ has_even_end item.now }
{
    matches!(
        item.as_bytes().last(),
        Some(b'0' | b'2' | b'4' | b'6' | b'8')
    )
}

impl BuiltIn {
    /// Returns the built-in artifact with this name, if there is one. There is none for an exit
    /// status of more than 256 bytes, or for a number that isn't 1 to 9 decimal digits.
    ///
    /// # Errors
    ///
    /// Returns `OutOfMemory` if memory is refused.
    pub fn of(alloc: Global, name: &str) -> Result<Option<BuiltIn>, OutOfMemory>
        ensures known { IfOk result (λ found. IfSome found (λ b. IsNameOf b name.now)) }
        ensures unknown { IfOk result (λ found. IfNone found ((b : BuiltIn) → ¬ IsNameOf b name.now)) }
    {
        if let Some(exit) = name.strip_prefix("exit:") {
            return exit_with(alloc, exit);
        }
        if let Some(digits) = name.strip_prefix("count:") {
            return Ok(number_of(digits).map(BuiltIn::Count));
        }
        Ok(match name {
            "ok" => Some(BuiltIn::Complete),
            "fail" => Some(BuiltIn::Fail),
            "odd" => Some(BuiltIn::Odd),
            "sink" => Some(BuiltIn::Sink),
            _ => None,
        })
    }

    /// Returns the exit status of a run.
    pub(crate) fn exit_status(&self) -> Result<Option<T256>, ArtifactFault>
        ensures { RunsAs self.now result }
    {
        match self {
            BuiltIn::Complete => Ok(None),
            BuiltIn::Exit(exit) => match exit.try_clone() {
                Ok(exit) => Ok(Some(exit)),
                Err(_) => Err(ArtifactFault::OutOfMemory),
            },
            BuiltIn::Fail | BuiltIn::Count(_) | BuiltIn::Odd | BuiltIn::Sink => {
                Err(ArtifactFault::Failed)
            }
        }
    }

    /// Returns the number after which an open at this checkpoint resumes, or `None` if it faults.
    pub(crate) fn opened_at(&self, checkpoint: Option<&str>) -> Option<u32>
        ensures { StartsAs self.now (option_map (λ s. s.now) checkpoint.entry) result }
    {
        match self {
            BuiltIn::Count(_) => match checkpoint {
                None => Some(0),
                Some(mark) => number_of(mark),
            },
            BuiltIn::Sink => Some(0),
            BuiltIn::Complete | BuiltIn::Fail | BuiltIn::Exit(_) | BuiltIn::Odd => None,
        }
    }

    /// Returns the item after this number.
    pub(crate) fn next_item(&self, alloc: Global, at: u32) -> Result<Option<String>, ArtifactFault>
        ensures answer { ReadsAs self.now at result }
        ensures fits { IfOk result (λ item. OnSome item (at < u32.MAX)) }
    {
        match self {
            BuiltIn::Count(last) => {
                if at >= *last {
                    return Ok(None);
                }
                match (at + 1).to_string(alloc) {
                    Ok(item) => Ok(Some(item)),
                    Err(_) => Err(ArtifactFault::OutOfMemory),
                }
            }
            BuiltIn::Complete | BuiltIn::Fail | BuiltIn::Exit(_) | BuiltIn::Odd | BuiltIn::Sink =>
                Err(ArtifactFault::Failed),
        }
    }

    /// Processes an item.
    pub(crate) fn made_of(&self, alloc: Global, item: &str) -> Result<Option<String>, ArtifactFault>
        ensures { ProcessesAs self.now item.now result }
    {
        match self {
            BuiltIn::Odd => {
                if ends_even(item) {
                    return Ok(None);
                }
                match String::from_str(alloc, item) {
                    Ok(item) => Ok(Some(item)),
                    Err(_) => Err(ArtifactFault::OutOfMemory),
                }
            }
            BuiltIn::Complete
            | BuiltIn::Fail
            | BuiltIn::Exit(_)
            | BuiltIn::Count(_)
            | BuiltIn::Sink => Err(ArtifactFault::Failed),
        }
    }

    /// Checks whether it is a writer, which takes groups.
    pub(crate) fn takes_groups(&self) -> bool
        ensures { result ≡ is_writer self.now }
    {
        match self {
            BuiltIn::Sink => true,
            BuiltIn::Complete
            | BuiltIn::Fail
            | BuiltIn::Exit(_)
            | BuiltIn::Count(_)
            | BuiltIn::Odd => false,
        }
    }

    /// Returns the checkpoint of a reader that has read up to this number.
    pub(crate) fn mark_at(&self, alloc: Global, at: u32) -> Result<String, ArtifactFault>
        ensures { MarksAs self.now at result }
    {
        match self {
            BuiltIn::Count(_) => match at.to_string(alloc) {
                Ok(mark) => Ok(mark),
                Err(_) => Err(ArtifactFault::OutOfMemory),
            },
            BuiltIn::Complete | BuiltIn::Fail | BuiltIn::Exit(_) | BuiltIn::Odd | BuiltIn::Sink =>
                Err(ArtifactFault::Failed),
        }
    }
}
