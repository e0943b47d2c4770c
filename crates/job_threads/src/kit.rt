ghost use Rattle.std.specs.Prelude.{◌≡◌, ◌++◌, ◌∷◌, [], ◌<◌, List, ℕ, map, length, string_bytes, option_map, OnOk, IfOk, IfSome, OnErr};
ghost use Rattle.job_threads.specs.Meaning.{Known, known, place_of, place_from};
ghost use Rattle.job_threads.specs.Calls.{Beginning, Opening, Reading, Processing, Writing, Marking, Running, Turned};

use crate::artifact::{Artifact, ArtifactFault};
use batch_ids::{OutOfMemory, T256};
use std::alloc::Global;

/// Artifacts by index, as `run_item` calls them.
pub trait Artifacts {
    /// The artifacts with their names.
    ghost seen: { Self → List Known };

    /// Returns the index of the first artifact with this name.
    fn find(&self, name: &str) -> Option<usize>
        ensures place { result ≡ place_of name.now (seen self.now) }
        ensures within { IfSome result (λ at. at < length (seen self.now)) };

    /// Sets the partition of the work item.
    fn begin(&mut self, at: usize, partition: Option<u32>) -> Result<(), ArtifactFault>
        requires { at < length (seen self.old) }
        ensures { Turned at (Beginning partition result) (seen self.old) (seen self.new) };

    /// Runs a batchlet or a decider.
    fn run(&mut self, at: usize) -> Result<Option<T256>, ArtifactFault>
        requires { at < length (seen self.old) }
        ensures { Turned at (Running result) (seen self.old) (seen self.new) };

    /// Opens a reader or a writer.
    fn open(&mut self, at: usize, checkpoint: Option<&str>) -> Result<(), ArtifactFault>
        requires { at < length (seen self.old) }
        ensures { Turned at (Opening (option_map (λ s. s.now) checkpoint.entry) result) (seen
            self.old) (seen self.new) };

    /// Reads the next item.
    fn read(&mut self, at: usize) -> Result<Option<String>, ArtifactFault>
        requires { at < length (seen self.old) }
        ensures { Turned at (Reading result) (seen self.old) (seen self.new) };

    /// Processes an item.
    fn process(&mut self, at: usize, item: &str) -> Result<Option<String>, ArtifactFault>
        requires { at < length (seen self.old) }
        ensures { Turned at (Processing item.now result) (seen self.old) (seen self.new) };

    /// Writes a group.
    fn write(&mut self, at: usize, items: &[String]) -> Result<(), ArtifactFault>
        requires { at < length (seen self.old) }
        ensures { Turned at (Writing (map string_bytes items.now) result) (seen self.old) (seen
            self.new) };

    /// Returns the reader's checkpoint.
    fn checkpoint(&mut self, at: usize) -> Result<String, ArtifactFault>
        requires { at < length (seen self.old) }
        ensures { Turned at (Marking result) (seen self.old) (seen self.new) };
}

/// The indexes of a chunk's artifacts in a kit.
#[derive(Clone, Copy)]
pub(crate) struct Roles {
    pub(crate) reader: usize,
    pub(crate) processor: Option<usize>,
    pub(crate) writer: usize,
}

#[derive(Drop)]
struct Named {
    name: String,
    artifact: Box<dyn Artifact + Send>,
}

impl Named {
    fn begin(&mut self, partition: Option<u32>) -> Result<(), ArtifactFault>
        ensures told { Beginning partition result (meaning self.old.artifact) (meaning
            self.new.artifact) }
        ensures name { string_bytes self.new.name ≡ string_bytes self.old.name }
    {
        self.artifact.begin(partition)
    }

    fn run(&mut self) -> Result<Option<T256>, ArtifactFault>
        ensures told { Running result (meaning self.old.artifact) (meaning self.new.artifact) }
        ensures name { string_bytes self.new.name ≡ string_bytes self.old.name }
    {
        self.artifact.run()
    }

    fn open(&mut self, checkpoint: Option<&str>) -> Result<(), ArtifactFault>
        ensures told { Opening (option_map (λ s. s.now) checkpoint.entry) result (meaning
            self.old.artifact) (meaning self.new.artifact) }
        ensures name { string_bytes self.new.name ≡ string_bytes self.old.name }
    {
        self.artifact.open(checkpoint)
    }

    fn read(&mut self) -> Result<Option<String>, ArtifactFault>
        ensures told { Reading result (meaning self.old.artifact) (meaning self.new.artifact) }
        ensures name { string_bytes self.new.name ≡ string_bytes self.old.name }
    {
        self.artifact.read()
    }

    fn process(&mut self, item: &str) -> Result<Option<String>, ArtifactFault>
        ensures told { Processing item.now result (meaning self.old.artifact) (meaning
            self.new.artifact) }
        ensures name { string_bytes self.new.name ≡ string_bytes self.old.name }
    {
        self.artifact.process(item)
    }

    fn write(&mut self, items: &[String]) -> Result<(), ArtifactFault>
        ensures told { Writing (map string_bytes items.now) result (meaning self.old.artifact)
            (meaning self.new.artifact) }
        ensures name { string_bytes self.new.name ≡ string_bytes self.old.name }
    {
        self.artifact.write(items)
    }

    fn checkpoint(&mut self) -> Result<String, ArtifactFault>
        ensures told { Marking result (meaning self.old.artifact) (meaning self.new.artifact) }
        ensures name { string_bytes self.new.name ≡ string_bytes self.old.name }
    {
        self.artifact.checkpoint()
    }
}

/// Returns the index of the first artifact with this name.
fn find_name(all: &[Named], name: &str) -> Option<usize>
    ensures place { result ≡ place_from 0 name.now (map (λ e. string_bytes e.name) all.now) }
    ensures within { IfSome result (λ at. at < length all.now) }
{
    let mut at = 0;
    while at < all.len() {
        if all[at].name.as_str() == name {
            return Some(at);
        }
        at += 1;
    }
    None
}

/// The artifacts of one worker, by name. See Jakarta Batch 2.1, "Batch Artifacts". Contracts see
/// their names and meanings, in the order in which they were added.
#[derive(Drop)]
pub struct Kit {
    alloc: Global,
    all: Vec<Named>,
}

impl Kit {
    /// Returns a kit without artifacts.
    pub fn new(alloc: Global) -> Kit
        ensures { ⟦<Kit as Artifacts>⟧.seen result ≡ [] }
    {
        Kit {
            alloc,
            all: Vec::new(alloc),
        }
    }

    /// Adds an artifact. If several have the same name, the first is used.
    ///
    /// # Errors
    ///
    /// Returns `OutOfMemory` if memory is refused. The kit is then unchanged, and the artifact is
    /// dropped.
    pub fn add(&mut self, name: &str, artifact: Box<dyn Artifact + Send>) -> Result<(), OutOfMemory>
        ensures ok { OnOk result (⟦<Kit as Artifacts>⟧.seen self.new ≡ ⟦<Kit as Artifacts>⟧.seen
            self.old ++ known name.now (meaning artifact) ∷ []) }
        ensures err { OnErr result (⟦<Kit as Artifacts>⟧.seen self.new ≡ ⟦<Kit as Artifacts>⟧.seen
            self.old) }
    {
        let name = String::from_str(self.alloc, name)?;
        self.all.push(Named { name, artifact })?;
        Ok(())
    }
}

impl Artifacts for Kit {
    ghost seen = { λ k. map (λ e. known (string_bytes e.name) ((Artifact-box e.artifact).meaning e.artifact.value)) k.all.items };

    fn find(&self, name: &str) -> Option<usize> {
        find_name(self.all.as_slice(), name)
    }

    fn begin(&mut self, at: usize, partition: Option<u32>) -> Result<(), ArtifactFault> {
        self.all[at].begin(partition)
    }

    fn run(&mut self, at: usize) -> Result<Option<T256>, ArtifactFault> {
        self.all[at].run()
    }

    fn open(&mut self, at: usize, checkpoint: Option<&str>) -> Result<(), ArtifactFault> {
        self.all[at].open(checkpoint)
    }

    fn read(&mut self, at: usize) -> Result<Option<String>, ArtifactFault> {
        self.all[at].read()
    }

    fn process(&mut self, at: usize, item: &str) -> Result<Option<String>, ArtifactFault> {
        self.all[at].process(item)
    }

    fn write(&mut self, at: usize, items: &[String]) -> Result<(), ArtifactFault> {
        self.all[at].write(items)
    }

    fn checkpoint(&mut self, at: usize) -> Result<String, ArtifactFault> {
        self.all[at].checkpoint()
    }
}
