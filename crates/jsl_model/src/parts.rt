use batch_ids::Listed;

/// The parts of a job as they were read, unchecked (Jakarta Batch 2.1, "Job Specification
/// Language"). `Job::check` builds a job from them.
#[derive(Debug, Drop)]
pub struct JobParts {
    /// The job's id.
    pub id: String,
    /// Whether a job execution of it may be restarted.
    pub restartable: bool,
    /// Its elements. The job begins at the first of them.
    pub elements: Listed<ElementParts>,
}

/// The parts of an element of a job, of a flow, or of a flow of a split.
#[cycle(parts)]
#[derive(Debug, Drop)]
pub struct ElementParts {
    /// Its id.
    pub id: String,
    /// Its kind, and all parts that an element of this kind may have besides its id.
    pub body: BodyParts,
}

/// An element's kind, with its parts (Jakarta Batch 2.1, "Job Specification Language", sections
/// "Step", "Flow", "Split" and "Decision"). A split has no transition elements, and a decision no
/// `next`.
#[cycle(parts)]
#[derive(Debug, Drop)]
pub enum BodyParts {
    /// A step.
    Step(StepParts),
    /// A flow.
    Flow {
        /// The id of the element that follows it.
        next: Option<String>,
        /// Its transition elements.
        transitions: Listed<TransitionParts>,
        /// Its elements. The flow begins at the first of them.
        elements: Listed<ElementParts>,
    },
    /// A split.
    Split {
        /// The id of the element that follows it.
        next: Option<String>,
        /// Its flows, which run concurrently.
        flows: Listed<SplitFlowParts>,
    },
    /// A decision.
    Decision {
        /// Its transition elements.
        transitions: Listed<TransitionParts>,
        /// The name of its artifact.
        artifact: String,
    },
}

/// The parts of a flow directly inside a split. It has no `next` and no transition elements.
#[cycle(parts)]
#[derive(Debug, Drop)]
pub struct SplitFlowParts {
    /// Its id.
    pub id: String,
    /// Its elements. The flow begins at the first of them.
    pub elements: Listed<ElementParts>,
}

/// The parts of a step (Jakarta Batch 2.1, "Job Specification Language", section "Step").
#[derive(Debug, Drop)]
pub struct StepParts {
    /// The id of the element that follows it.
    pub next: Option<String>,
    /// Its transition elements.
    pub transitions: Listed<TransitionParts>,
    /// How often the step may be started in one job instance. 0 sets no limit.
    pub start_limit: u32,
    /// Whether a restart runs the step again even if it is COMPLETED.
    pub allow_start_if_complete: bool,
    /// The number of partitions, from 1 to 64. If it is `None`, the step is not partitioned.
    pub partitions: Option<u32>,
    /// Its batchlet or chunk.
    pub task: TaskParts,
}

/// The work of a step, in parts.
#[derive(Debug, Drop)]
pub enum TaskParts {
    /// A batchlet: one artifact, which is run once.
    Batchlet {
        /// The artifact's name.
        artifact: String,
    },
    /// A chunk: items are read, processed and written in groups.
    Chunk {
        /// The name of the artifact that reads items.
        reader: String,
        /// The name of the artifact that processes an item.
        processor: Option<String>,
        /// The name of the artifact that writes a group of items.
        writer: String,
        /// The number of items in a group.
        item_count: u32,
    },
}

/// The parts of a transition element (Jakarta Batch 2.1, "Job Specification Language", section
/// "Transition Elements").
#[derive(Debug, Drop)]
pub struct TransitionParts {
    /// The pattern that the exit status has to match.
    pub on: String,
    /// Its effect if the exit status matches.
    pub then: ThenParts,
}

/// The effect of a transition element that matches, in parts.
#[derive(Debug, Drop)]
pub enum ThenParts {
    /// The job goes on to another element of the same list.
    Next {
        /// The id of that element.
        to: String,
    },
    /// The job ends COMPLETED.
    End {
        /// The job's exit status.
        exit_status: Option<String>,
    },
    /// The job ends FAILED.
    Fail {
        /// The job's exit status.
        exit_status: Option<String>,
    },
    /// The job ends STOPPED.
    Stop {
        /// The job's exit status.
        exit_status: Option<String>,
        /// The id of the job-level element at which a restart begins.
        restart: Option<String>,
    },
}
