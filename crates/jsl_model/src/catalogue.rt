ghost use Rattle.std.specs.Prelude.{◌≡◌, ◌≤◌, ◌<◌, ◌↔◌, [], ◌++◌, ◌∷◌, find, length, map, option_copied, IsTrue, IsSome, IsNone, IfOk, OnOk, OnErr, Err};
ghost use Rattle.std.specs.List.{flat_map};
ghost use Rattle.std.specs.Str.{bytes_eq};
ghost use Rattle.jsl_model.specs.Trees.{artifacts};
ghost use Rattle.jsl_model.specs.Names.{distinct};
ghost use Rattle.jsl_model.specs.Catalogues.{AreJobs};

use crate::element::Element;
use crate::job::{Job, JobFault};
use crate::names::distinct;
use crate::naming::add_artifacts;
use crate::node::nodes_in;
use batch_ids::{Listed, OutOfMemory};
use std::alloc::Global;
use std::marker::Model;

/// The most jobs that a catalogue may have.
const MOST_JOBS: usize = 256;

/// A catalogue of the jobs that can be started: at most 256, each with an id of its own. Contracts
/// see the list of jobs, in the order in which they were added.
#[derive(Debug, Drop)]
pub struct Catalogue {
    alloc: Global,
    jobs: Listed<Job>,
}

impl Model for Catalogue {
    ghost use Rattle.std.specs.Prelude.{List};
    ghost use Rattle.std.specs.Coded.{codes};
    ghost use Rattle.jsl_model.specs.contracts.element.Body as body;
    ghost use Rattle.jsl_model.specs.Catalogues.{AreJobs};
    ghost use Rattle.jsl_model.specs.Jobs.{JobTree};

    ghost Value = { List JobTree };

    ghost coded = { Prim.hlevel (codes, body.the_row.coded) };

    ghost view = { λ catalogue. catalogue.jobs };

    ghost invariant = { λ catalogue. AreJobs catalogue.jobs };
}

impl Catalogue {
    /// Creates a catalogue without jobs. It takes no memory.
    pub fn new(alloc: Global) -> Catalogue
        ensures { result ≡ [] }
    {
        Catalogue {
            alloc,
            jobs: Listed::new(alloc),
        }
    }

    /// Adds a job at the end. If the job is refused, it is dropped, and the catalogue doesn't
    /// change. It takes time proportional to the number of jobs in the catalogue.
    ///
    /// # Errors
    ///
    /// The first of these that applies:
    /// - `TooMany`: the catalogue has 256 jobs already;
    /// - `DuplicateId`: the catalogue has a job with this id already;
    /// - `OutOfMemory`: memory was refused.
    pub fn add(&mut self, job: Job) -> Result<(), JobFault>
        ensures too_many { 256 ≤ length self.old → result ≡ Err JobFault.TooMany }
        ensures duplicate { length self.old < 256
            → IsSome (find (λ held. bytes_eq held.id job.id) self.old)
            → result ≡ Err JobFault.DuplicateId }
        ensures memory { length self.old < 256
            → IsNone (find (λ held. bytes_eq held.id job.id) self.old)
            → OnErr result (result ≡ Err JobFault.OutOfMemory) }
        ensures added { OnOk result (self.new ≡ self.old ++ job ∷ []) }
        ensures unchanged { OnErr result (self.new ≡ self.old) }
    {
        if self.len() >= MOST_JOBS {
            return Err(JobFault::TooMany);
        }
        match self.job(job.id().as_str()) {
            Some(_) => Err(JobFault::DuplicateId),
            None => {
                self.jobs.push(job)?;
                Ok(())
            }
        }
    }

    /// Returns the job with this id, if the catalogue has it. It takes time proportional to the
    /// number of jobs in the catalogue.
    pub fn job(&self, id: &str) -> Option<&Job>
        ensures { option_copied result ≡ find (λ job. bytes_eq job.id id.now) self.now }
    {
        for job in self.jobs.as_slice() {
            if job.id().as_str() == id {
                return Some(job);
            }
        }
        None
    }

    /// Returns the jobs, in the order in which they were added.
    pub fn jobs(&self) -> &[Job]
        ensures { result.now ≡ self.now }
    {
        self.jobs.as_slice()
    }

    /// Returns the number of jobs, at most 256.
    pub fn len(&self) -> usize
        ensures number { result ≡ length self.now }
        ensures kept { AreJobs self.now }
    {
        self.jobs.len()
    }

    /// Returns `true` if the catalogue has no job.
    pub fn is_empty(&self) -> bool
        ensures { IsTrue result ↔ (self.now ≡ []) }
    {
        self.jobs.is_empty()
    }

    /// Returns the names of all artifacts that the jobs name. Each name is there once, in the order
    /// of their first use. It takes time and memory proportional to the number of elements of the
    /// jobs.
    ///
    /// # Errors
    ///
    /// `OutOfMemory` if memory is refused.
    pub fn artifacts(&self) -> Result<Vec<&str>, OutOfMemory>
        ensures { IfOk result (λ names. map (λ name. name.now) names.items
            ≡ distinct (flat_map (λ job. artifacts job.elements) self.now)) }
    {
        let mut names = Vec::new(self.alloc);
        for job in self.jobs.as_slice() {
            add_all_artifacts(self.alloc, job.elements(), &mut names)?;
        }
        distinct(self.alloc, names.as_slice())
    }

    /// Returns an equal catalogue. It takes time and memory proportional to the number of elements
    /// of the jobs.
    ///
    /// # Errors
    ///
    /// `OutOfMemory` if memory is refused.
    pub fn try_clone(&self) -> Result<Catalogue, OutOfMemory>
        ensures { IfOk result (λ copy. copy ≡ self.now) }
    {
        let mut jobs = Vec::new(self.alloc);
        for job in self.jobs.as_slice() {
            jobs.push(job.try_clone()?)?;
        }
        Ok(Catalogue {
            alloc: self.alloc,
            jobs: Listed::from_vec(jobs),
        })
    }
}

/// Adds the names of the artifacts that elements name, at all depths.
fn add_all_artifacts<'a>(
    alloc: Global,
    elements: &'a [Element],
    names: &mut Vec<&'a str>,
) -> Result<(), OutOfMemory>
    ensures { OnOk result (map (λ name. name.now) names.new.items
        ≡ map (λ name. name.now) names.old.items ++ artifacts elements.now) }
{
    let nodes = nodes_in(alloc, elements)?;
    for node in nodes.as_slice() {
        if let Some(body) = node.body {
            add_artifacts(body, names)?;
        }
    }
    Ok(())
}
