ghost use Rattle.std.specs.Prelude.{◌≡◌, Ok, map, string_bytes, option_map};
ghost use Rattle.job_threads.specs.Calls.{Beginning, Opening, Reading, Processing, Writing, Marking, Running};
ghost use Rattle.built_in_artifacts.specs.Means.{fresh};
ghost use Rattle.built_in_artifacts.specs.Shown.{shown};
ghost use Rattle.built_in_artifacts.specs.Uses.{RunsAs, OpensAs, ReadsAs, ProcessesAs, WritesAs, MarksAs};

use crate::built_in::BuiltIn;
use batch_ids::T256;
use job_threads::{Artifact, ArtifactFault, Happening, Tape};
use std::alloc::Global;

/// A running built-in artifact. It accepts every partition. A fault is `Failed` if the artifact
/// isn't meant for the call or for this checkpoint. Otherwise, it is `OutOfMemory` because memory
/// was refused.
#[derive(Drop)]
pub struct BuiltInArtifact {
    alloc: Global,
    built_in: BuiltIn,
    at: u32,
    tape: Tape,
}

impl BuiltInArtifact {
    /// Returns the artifact before its first call.
    pub fn new(alloc: Global, built_in: BuiltIn) -> BuiltInArtifact
        ensures meaning { ⟦<BuiltInArtifact as Artifact>⟧.meaning result ≡ fresh built_in }
        ensures same { result.built_in ≡ built_in }
    {
        BuiltInArtifact {
            alloc,
            built_in,
            at: 0,
            tape: Tape::new(),
        }
    }
}

impl Artifact for BuiltInArtifact {
    ghost use Rattle.built_in_artifacts.specs.Shown.{shown};

    ghost meaning = { shown };

    fn begin(&mut self, _partition: Option<u32>) -> Result<(), ArtifactFault>
        ensures told { Beginning _partition result (shown self.old) (shown self.new) }
        ensures answer { result ≡ Ok tt }
        ensures same { self.new.built_in ≡ self.old.built_in }
    {
        Ok(())
    }

    fn run(&mut self) -> Result<Option<T256>, ArtifactFault>
        ensures told { Running result (shown self.old) (shown self.new) }
        ensures answer { RunsAs self.old.built_in result }
        ensures same { self.new.built_in ≡ self.old.built_in }
    {
        let exit = self.built_in.exit_status();
        if exit.is_err() {
            self.tape = self.tape.then(Happening::Fault);
        }
        exit
    }

    fn open(&mut self, checkpoint: Option<&str>) -> Result<(), ArtifactFault>
        ensures told { Opening (option_map (λ s. s.now) checkpoint.entry) result (shown self.old) (shown self.new) }
        ensures answer { OpensAs self.old.built_in (option_map (λ s. s.now) checkpoint.entry) result }
        ensures same { self.new.built_in ≡ self.old.built_in }
    {
        match self.built_in.opened_at(checkpoint) {
            None => {
                self.tape = self.tape.then(Happening::OpenFault);
                Err(ArtifactFault::Failed)
            }
            Some(at) => {
                self.at = at;
                Ok(())
            }
        }
    }

    fn read(&mut self) -> Result<Option<String>, ArtifactFault>
        ensures told { Reading result (shown self.old) (shown self.new) }
        ensures answer { ReadsAs self.old.built_in self.old.at result }
        ensures same { self.new.built_in ≡ self.old.built_in }
    {
        match self.built_in.next_item(self.alloc, self.at) {
            Err(fault) => {
                self.tape = self.tape.then(Happening::Fault);
                Err(fault)
            }
            Ok(None) => Ok(None),
            Ok(Some(item)) => {
                self.at += 1;
                Ok(Some(item))
            }
        }
    }

    fn process(&mut self, item: &str) -> Result<Option<String>, ArtifactFault>
        ensures told { Processing item.now result (shown self.old) (shown self.new) }
        ensures answer { ProcessesAs self.old.built_in item.now result }
        ensures same { self.new.built_in ≡ self.old.built_in }
    {
        let made = self.built_in.made_of(self.alloc, item);
        if made.is_err() {
            self.tape = self.tape.then(Happening::Fault);
        }
        made
    }

    fn write(&mut self, items: &[String]) -> Result<(), ArtifactFault>
        ensures told { Writing (map string_bytes items.now) result (shown self.old) (shown self.new) }
        ensures answer { WritesAs self.old.built_in result }
        ensures same { self.new.built_in ≡ self.old.built_in }
    {
        if self.built_in.takes_groups() {
            self.tape = self.tape.then(Happening::Took(items));
            return Ok(());
        }
        self.tape = self.tape.then(Happening::Fault);
        Err(ArtifactFault::Failed)
    }

    fn checkpoint(&mut self) -> Result<String, ArtifactFault>
        ensures told { Marking result (shown self.old) (shown self.new) }
        ensures answer { MarksAs self.old.built_in self.old.at result }
        ensures same { self.new.built_in ≡ self.old.built_in }
    {
        let mark = self.built_in.mark_at(self.alloc, self.at);
        if mark.is_err() {
            self.tape = self.tape.then(Happening::Fault);
        }
        mark
    }
}
