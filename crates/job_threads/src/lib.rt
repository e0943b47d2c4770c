//! Workers: the artifacts of batch work, the code that runs a work item with them, and a pool of
//! threads.
#![tactic(auto)]

mod artifact;
mod chunk;
mod group;
mod item;
mod kit;
mod past;
mod port;
mod report;
mod session_port;
mod threads;
mod working;

pub use artifact::{Artifact, ArtifactFault};
pub use item::run_item;
pub use kit::{Artifacts, Kit};
pub use past::{Happening, Tape};
pub use port::{Claimed, Port};
pub use report::{Onward, Report};
pub use session_port::SessionPort;
pub use threads::{PoolReport, pool};
pub use working::{Gate, WorkerReport, worker};
