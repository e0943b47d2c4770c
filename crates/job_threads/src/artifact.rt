ghost use Rattle.std.specs.Prelude.{◌≡◌, List, ℕ, map, string_bytes, option_map};
ghost use Rattle.job_threads.specs.Meaning.{Meaning};
ghost use Rattle.job_threads.specs.Calls.{Beginning, Opening, Reading, Processing, Writing, Marking, Running};

use batch_ids::T256;

/// The fault of an artifact that couldn't do its part. Its work item is FAILED either way.
#[derive(Clone, Copy, PartialEq, Eq, Debug)]
pub enum ArtifactFault {
    /// The artifact failed.
    Failed,
    /// Memory was refused to the artifact.
    OutOfMemory,
}

/// An artifact that a work item runs: a batchlet, a decider, or the reader, processor or writer of
/// a chunk. It returns a fault from the calls of roles that it doesn't have. See Jakarta Batch 2.1,
/// "Batch Artifacts".
///
/// Contracts see the artifact's meaning, which is its own description. Each call's result agrees
/// with it.
pub trait Artifact: Drop {
    /// The artifact's description of itself.
    ghost meaning: { Self → Meaning };

    /// Sets the partition of the work item, from 0, if its step is partitioned. This is the first
    /// call for each work item.
    ///
    /// # Errors
    ///
    /// Returns an `ArtifactFault`. For a batchlet or decider, it has the effect of a fault of
    /// `run`, and for others that of a fault of `open`.
    fn begin(&mut self, partition: Option<u32>) -> Result<(), ArtifactFault>
        ensures { Beginning partition result (meaning self.old) (meaning self.new) };

    /// Runs a batchlet or a decider to its end. The exit status is optional.
    ///
    /// # Errors
    ///
    /// Returns an `ArtifactFault`: the work item is FAILED.
    fn run(&mut self) -> Result<Option<T256>, ArtifactFault>
        ensures { Running result (meaning self.old) (meaning self.new) };

    /// Opens a reader at a checkpoint, or at its beginning. A writer receives no checkpoint.
    ///
    /// # Errors
    ///
    /// Returns an `ArtifactFault`: the work item is FAILED, and no rollback is counted.
    fn open(&mut self, checkpoint: Option<&str>) -> Result<(), ArtifactFault>
        ensures { Opening (option_map (λ s. s.now) checkpoint.entry) result
            (meaning self.old) (meaning self.new) };

    /// Reads the next item. Returns `None` at the end.
    ///
    /// # Errors
    ///
    /// Returns an `ArtifactFault`: the work item is FAILED, and a rollback is counted.
    fn read(&mut self) -> Result<Option<String>, ArtifactFault>
        ensures { Reading result (meaning self.old) (meaning self.new) };

    /// Processes an item. Returns `None` if the item is filtered out.
    ///
    /// # Errors
    ///
    /// Returns an `ArtifactFault`: the work item is FAILED, and a rollback is counted.
    fn process(&mut self, item: &str) -> Result<Option<String>, ArtifactFault>
        ensures { Processing item.now result (meaning self.old) (meaning self.new) };

    /// Writes the items of a group that weren't filtered out.
    ///
    /// # Errors
    ///
    /// Returns an `ArtifactFault`: the work item is FAILED, and a rollback is counted.
    fn write(&mut self, items: &[String]) -> Result<(), ArtifactFault>
        ensures { Writing (map string_bytes items.now) result (meaning self.old) (meaning
            self.new) };

    /// Returns the reader's checkpoint, from which it resumes after a restart.
    ///
    /// # Errors
    ///
    /// Returns an `ArtifactFault`: the work item is FAILED, and a rollback is counted.
    fn checkpoint(&mut self) -> Result<String, ArtifactFault>
        ensures { Marking result (meaning self.old) (meaning self.new) };
}
