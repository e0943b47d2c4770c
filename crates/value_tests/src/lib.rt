//! Tests of values, of properties that no script in a file can show: identifiers, jobs, graphs,
//! members of JSON objects, and transition elements.
#![tactic(auto)]

#[cfg(test)]
mod identifiers;
#[cfg(test)]
mod jobs;
#[cfg(test)]
mod object_members;
#[cfg(test)]
mod patterns;
#[cfg(test)]
mod target_graphs;
