use batch_ids::T256;
use job_threads::{Artifact, ArtifactFault};
use std::alloc::Global;

/// An artifact that completes, reads no item, filters out every item, and takes each group.
#[derive(Drop)]
pub(crate) struct Quiet {
    pub(crate) alloc: Global,
}

impl Artifact for Quiet {
    ghost use Rattle.job_threads.specs.Meaning.{nobody};

    ghost meaning = { λ _. nobody };

    fn begin(&mut self, _partition: Option<u32>) -> Result<(), ArtifactFault> {
        Ok(())
    }

    fn run(&mut self) -> Result<Option<T256>, ArtifactFault> {
        Ok(None)
    }

    fn open(&mut self, _checkpoint: Option<&str>) -> Result<(), ArtifactFault> {
        Ok(())
    }

    fn read(&mut self) -> Result<Option<String>, ArtifactFault> {
        Ok(None)
    }

    fn process(&mut self, _item: &str) -> Result<Option<String>, ArtifactFault> {
        Ok(None)
    }

    fn write(&mut self, _items: &[String]) -> Result<(), ArtifactFault> {
        Ok(())
    }

    fn checkpoint(&mut self) -> Result<String, ArtifactFault> {
        Ok(String::new(self.alloc))
    }
}
