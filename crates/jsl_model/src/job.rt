ghost use Rattle.std.specs.Prelude.{◌≡◌, ◌≤◌, false, length, find, option_copied, Some, None, Err, IfOk, IfErr, OnOk};
ghost use Rattle.std.specs.Str.{bytes_eq};
ghost use Rattle.jsl_model.specs.Parts.{tree_of};
ghost use Rattle.jsl_model.specs.Trees.{all_elements};
ghost use Rattle.jsl_model.specs.Faults.{fault_name, is_out_of_memory, job_fault, IsChecked};

use crate::building::{build_elements, build_text};
use crate::element::{Body, Element};
use crate::element_index::ElementIndex;
use crate::faults::fault_in;
use crate::finding::find_element;
use crate::parts::JobParts;
use batch_ids::{Listed, OutOfMemory, T256};
use std::alloc::{AllocError, AllocFailed, Global};
use std::marker::Model;
use std::sync::Arc;
use thiserror::Error;

/// A fault that prevents parts from being a job, or a job from being added to a catalogue. It
/// prints as its name.
#[derive(Clone, Copy, PartialEq, Eq, Debug, Error)]
pub enum JobFault {
    /// A text has more than 256 bytes.
    #[error("{}", self.name())]
    TextTooLong,
    /// An id or an artifact name is empty, or a list has no element, or a split has no flow. Or an
    /// item-count or a number of partitions is 0.
    #[error("{}", self.name())]
    Empty,
    /// An element is deeper than level 16. The elements of the job's own list are at level 1.
    #[error("{}", self.name())]
    TooDeep,
    /// A job has more than 1,000 elements, a step has more than 64 partitions, or a catalogue has
    /// 256 jobs already.
    #[error("{}", self.name())]
    TooMany,
    /// Two elements of a job have the same id, or a catalogue has a job with this id already.
    #[error("{}", self.name())]
    DuplicateId,
    /// A `next` or a `to` names no element of its own list.
    #[error("{}", self.name())]
    NoSuchTarget,
    /// The targets of `next` and `to` form a cycle in a list.
    #[error("{}", self.name())]
    Loop,
    /// A `restart` names no element of the job's own list.
    #[error("{}", self.name())]
    RestartNotJobLevel,
    /// Memory was refused.
    #[error("{}", self.name())]
    OutOfMemory,
}

impl JobFault {
    /// Returns the name that is printed.
    pub fn name(self) -> &'static str
        ensures name { result.now ≡ fault_name self }
        ensures short { length result.now ≤ 18 }
    {
        match self {
            JobFault::TextTooLong => "TextTooLong",
            JobFault::Empty => "Empty",
            JobFault::TooDeep => "TooDeep",
            JobFault::TooMany => "TooMany",
            JobFault::DuplicateId => "DuplicateId",
            JobFault::NoSuchTarget => "NoSuchTarget",
            JobFault::Loop => "Loop",
            JobFault::RestartNotJobLevel => "RestartNotJobLevel",
            JobFault::OutOfMemory => "OutOfMemory",
        }
    }
}

impl From<AllocError> for JobFault {
    ghost use Rattle.std.specs.Prelude.{◌≡◌};
    ghost use Rattle.jsl_model.specs.declared.job.JobFault.TheVariants.{OutOfMemory};

    ghost from_gives = { λ _ fault. fault ≡ OutOfMemory };

    fn from(_error: AllocError) -> JobFault {
        JobFault::OutOfMemory
    }
}

impl<T: Drop> From<AllocFailed<T>> for JobFault {
    ghost use Rattle.std.specs.Prelude.{◌≡◌};
    ghost use Rattle.jsl_model.specs.declared.job.JobFault.TheVariants.{OutOfMemory};

    ghost from_gives = { λ _ fault. fault ≡ OutOfMemory };

    fn from(_error: AllocFailed<T>) -> JobFault {
        JobFault::OutOfMemory
    }
}

/// The data that the copies of a job share.
#[derive(Debug, Drop)]
struct Shared {
    id: T256,
    restartable: bool,
    elements: Listed<Element>,
    index: ElementIndex,
}

/// A checked job, whose copies share its data (Jakarta Batch 2.1, "Job Specification Language",
/// section "Job"). Contracts see its id, whether it may be restarted, and its elements.
#[derive(Debug, Drop)]
pub struct Job {
    shared: Arc<Shared>,
}

impl Model for Job {
    ghost use Rattle.jsl_model.specs.Jobs.{JobTree};
    ghost use Rattle.jsl_model.specs.Faults.{IsChecked};
    ghost use Rattle.jsl_model.specs.contracts.element.Body as body;
    ghost use Rattle.std.specs.Arc.{arc_value};
    ghost use Rattle.std.specs.Coded.{codes};

    ghost Value = { JobTree };

    ghost coded = { Prim.hlevel (codes, body.the_row.coded) };

    ghost view = { λ job. record {
      id = (arc_value job.shared).id;
      restartable = (arc_value job.shared).restartable;
      elements = (arc_value job.shared).elements;
    } };

    ghost invariant = { λ job. IsChecked record {
      id = (arc_value job.shared).id;
      restartable = (arc_value job.shared).restartable;
      elements = (arc_value job.shared).elements;
    } };
}

impl Job {
    /// Builds a job from these parts, if they make one (Jakarta Batch 2.1, chapter "Job
    /// Specification Language"). The parts are dropped. It takes time that is nearly linear in the
    /// size of the parts.
    ///
    /// # Errors
    ///
    /// The first of these that applies, each tested over the whole job before the next one:
    /// - `TextTooLong`: a text (an id, a `next`, an artifact's name, an `on`, a `to`, an exit
    ///   status, a `restart`) has more than 256 bytes;
    /// - `Empty`: an id or an artifact's name is empty, a list has no element, a split has no flow,
    ///   or an item-count or a number of partitions is 0;
    /// - `TooDeep`: an element is deeper than level 16 (the job's own elements are at level 1,
    ///   those inside a flow one level deeper than the flow; the flows of a split are one level
    ///   deeper than the split, and their elements two);
    /// - `TooMany`: there are more than 1,000 elements, flows of splits included, or a step has
    ///   more than 64 partitions;
    /// - `DuplicateId`: two elements have the same id, flows of splits included;
    /// - `NoSuchTarget`: a `next` or a `to` names no element of its own list;
    /// - `Loop`: in a list, the targets of `next` and `to` form a cycle;
    /// - `RestartNotJobLevel`: a `restart` names no element of the job's own list.
    ///
    /// It may return `OutOfMemory` instead of any of these results, if memory is refused.
    pub fn check(alloc: Global, parts: JobParts) -> Result<Job, JobFault>
        ensures same { IfOk result (λ job. job ≡ tree_of parts) }
        ensures faultless { OnOk result (job_fault (tree_of parts) ≡ None) }
        ensures fault { IfErr result (λ fault. is_out_of_memory fault ≡ false
            → job_fault (tree_of parts) ≡ Some fault) }
    {
        let checked = Job::of_parts(alloc, &parts);
        drop(parts);
        checked
    }

    /// Like `check`, but doesn't drop the parts.
    fn of_parts(alloc: Global, parts: &JobParts) -> Result<Job, JobFault>
        ensures same { IfOk result (λ job. job ≡ tree_of parts.now) }
        ensures faultless { OnOk result (job_fault (tree_of parts.now) ≡ None) }
        ensures fault { IfErr result (λ fault. is_out_of_memory fault ≡ false
            → job_fault (tree_of parts.now) ≡ Some fault) }
    {
        let id = build_text(alloc, parts.id.as_str())?;
        let elements = build_elements(alloc, parts.elements.as_slice())?;
        match fault_in(alloc, &id, elements.as_slice())? {
            Some(fault) => Err(fault),
            None => {
                let index = ElementIndex::of(alloc, elements.as_slice())?;
                let shared = Arc::new(
                    alloc,
                    Shared {
                        id,
                        restartable: parts.restartable,
                        elements,
                        index,
                    },
                )?;
                Ok(Job { shared })
            }
        }
    }

    /// Returns the job's id, which has 1 to 256 bytes.
    pub fn id(&self) -> &T256
        ensures same { result.now ≡ self.now.id }
        ensures checked { IsChecked self.now }
    {
        &self.shared.id
    }

    /// Returns `true` if a job execution of this job may be restarted.
    pub fn restartable(&self) -> bool
        ensures { result ≡ self.now.restartable }
    {
        self.shared.restartable
    }

    /// Returns the job's elements, at least one. The job begins at the first.
    pub fn elements(&self) -> &[Element]
        ensures same { result.now ≡ self.now.elements }
        ensures checked { IsChecked self.now }
    {
        self.shared.elements.as_slice()
    }

    /// Returns the index of the job's elements and their work keys.
    pub fn index(&self) -> &ElementIndex {
        &self.shared.index
    }

    /// Returns the element with this id, at any depth, if there is one. A flow directly inside a
    /// split is no element, so it isn't found. The elements inside that flow are found.
    ///
    /// It takes time proportional to the number of elements of the job, and no memory.
    pub fn element(&self, id: &str) -> Option<&Element>
        ensures { option_copied result
            ≡ find (λ element. bytes_eq element.id id.now) (all_elements self.now.elements) }
    {
        find_element(self.elements(), id)
    }

    /// Returns an equal job, which shares the elements. It takes no memory.
    ///
    /// # Errors
    ///
    /// `OutOfMemory` if 2^63 jobs share the elements already.
    pub fn try_clone(&self) -> Result<Job, OutOfMemory>
        ensures { IfOk result (λ copy. copy ≡ self.now) }
    {
        let shared = self.shared.clone()?;
        Ok(Job { shared })
    }
}
