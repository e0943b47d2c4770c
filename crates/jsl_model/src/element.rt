ghost use Rattle.std.specs.Prelude.{◌≡◌, IfOk};

use batch_ids::{Listed, OutOfMemory, T256, try_clone_option};

/// The effect of a transition element that matches (Jakarta Batch 2.1, "Job Specification
/// Language", section "Transition Elements").
#[derive(Debug, Drop, PartialEq, Eq)]
pub enum Then {
    /// The job goes on to the element with this id, in the same list.
    Next {
        /// The id of that element.
        to: T256,
    },
    /// The job ends COMPLETED.
    End {
        /// The job's exit status. If it is `None`, the exit status is `COMPLETED`.
        exit_status: Option<T256>,
    },
    /// The job ends FAILED.
    Fail {
        /// The job's exit status. If it is `None`, the exit status is `FAILED`.
        exit_status: Option<T256>,
    },
    /// The job ends STOPPED.
    Stop {
        /// The job's exit status. If it is `None`, the exit status is `STOPPED`.
        exit_status: Option<T256>,
        /// The id of the job-level element at which a restart begins.
        restart: Option<T256>,
    },
}

/// A transition element, which says how the job goes on after an exit status (Jakarta Batch 2.1,
/// "Job Specification Language", section "Transition Elements").
#[derive(Debug, Drop, PartialEq, Eq)]
pub struct Transition {
    /// The pattern that the exit status has to match: `*` matches any characters, and `?` matches
    /// one.
    pub on: T256,
    /// Its effect if the exit status matches.
    pub then: Then,
}

/// The work of a step (Jakarta Batch 2.1, "Job Specification Language", section "Step").
#[derive(Debug, Drop, PartialEq, Eq)]
pub enum Task {
    /// A batchlet: one artifact, which is run once.
    Batchlet {
        /// The artifact's name.
        artifact: T256,
    },
    /// A chunk: items are read, processed and written in groups, with a checkpoint after each
    /// group.
    Chunk {
        /// The name of the artifact that reads items.
        reader: T256,
        /// The name of the artifact that processes an item. If it is `None`, no item is left out.
        processor: Option<T256>,
        /// The name of the artifact that writes a group of items.
        writer: T256,
        /// The number of items in a group, at least 1.
        item_count: u32,
    },
}

/// A step (Jakarta Batch 2.1, "Job Specification Language", section "Step").
#[derive(Debug, Drop, PartialEq, Eq)]
pub struct Step {
    /// How often the step may be started in one job instance. 0 sets no limit.
    pub start_limit: u32,
    /// Whether a restart runs the step again even if it is COMPLETED.
    pub allow_start_if_complete: bool,
    /// The number of partitions, from 1 to 64 (Jakarta Batch 2.1, "Step Partitioning"). If it is
    /// `None`, the step is not partitioned.
    pub partitions: Option<u32>,
    /// Its batchlet or chunk.
    pub task: Task,
}

/// An element of a job, of a flow, or of a flow of a split.
#[cycle(element)]
#[derive(Debug, Drop)]
pub struct Element {
    /// Its id, of at least one byte.
    pub id: T256,
    /// The id of the element that follows if this one is COMPLETED and no transition element
    /// matches.
    pub next: Option<T256>,
    /// Its transition elements. The first that matches takes effect.
    pub transitions: Listed<Transition>,
    /// Its kind, and the parts of that kind.
    pub body: Body,
}

/// An element's kind, with its parts (Jakarta Batch 2.1, "Job Specification Language", sections
/// "Step", "Flow", "Split" and "Decision").
#[cycle(element)]
#[derive(Debug, Drop)]
pub enum Body {
    /// A step.
    Step(Step),
    /// A flow: a list of elements, which begins at the first of them.
    Flow(Listed<Element>),
    /// A split: flows that run concurrently.
    Split(Listed<SplitFlow>),
    /// A decision: an artifact, whose exit status the transition elements match.
    Decision {
        /// The artifact's name.
        artifact: T256,
    },
}

/// A flow directly inside a split (Jakarta Batch 2.1, "Job Specification Language", section
/// "Split"). It has no `next` and no transition elements.
#[cycle(element)]
#[derive(Debug, Drop)]
pub struct SplitFlow {
    /// Its id, of at least one byte.
    pub id: T256,
    /// Its elements. The flow begins at the first of them.
    pub elements: Listed<Element>,
}

impl Task {
    /// Returns an equal task.
    ///
    /// # Errors
    ///
    /// `OutOfMemory` if memory is refused.
    pub fn try_clone(&self) -> Result<Task, OutOfMemory>
        ensures { IfOk result (λ copy. copy ≡ self.now) }
    {
        match self {
            Task::Batchlet { artifact } => {
                Ok(Task::Batchlet {
                    artifact: artifact.try_clone()?,
                })
            }
            Task::Chunk {
                reader,
                processor,
                writer,
                item_count,
            } => {
                Ok(Task::Chunk {
                    reader: reader.try_clone()?,
                    processor: try_clone_option(processor)?,
                    writer: writer.try_clone()?,
                    item_count: *item_count,
                })
            }
        }
    }
}
