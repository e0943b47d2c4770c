//! The built-in artifacts, which a catalogue can name without artifacts of its own.
#![tactic(auto)]

mod built_in;
mod built_in_artifact;
mod number;
mod pooling;

pub use built_in::BuiltIn;
pub use built_in_artifact::BuiltInArtifact;
pub use pooling::pool_with_built_ins;
