//! Finds ranks that rise along every target of a graph, or finds that the graph has a cycle.
#![tactic(auto)]

mod graph;
mod laws;
mod search;

pub use graph::Graph;
pub use laws::{cycle_is_a_path, ranked_has_no_cycle};
pub use search::ranks;
