//! Jobs as checked trees, and a catalogue of jobs (Jakarta Batch 2.1, "Job Specification
//! Language").
#![tactic(auto)]

mod building;
mod catalogue;
mod depth;
mod element;
mod element_index;
mod emptiness;
mod faults;
mod finding;
mod job;
mod lists;
mod names;
mod naming;
mod node;
mod parts;
mod targets;

pub use catalogue::Catalogue;
pub use element::{Body, Element, SplitFlow, Step, Task, Then, Transition};
pub use element_index::{ElementIndex, Outer};
pub use job::{Job, JobFault};
pub use parts::{
    BodyParts, ElementParts, JobParts, SplitFlowParts, StepParts, TaskParts, ThenParts,
    TransitionParts,
};
