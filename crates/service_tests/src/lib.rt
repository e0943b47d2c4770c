//! Tests of the service and its walks, of properties that no script in a file can show: indexes of
//! elements, walks, clones, printed forms, the lines of a base, full logs, readers and writers that
//! fail, a list of events, built-in artifacts, threads that wait for one another, and a command line
//! that is not UTF-8.
#![tactic(auto)]

#[cfg(test)]
mod base_lines;
#[cfg(test)]
mod books;
#[cfg(test)]
mod built_ins;
#[cfg(test)]
mod command_lines;
#[cfg(test)]
mod copies;
#[cfg(test)]
mod crowds;
#[cfg(test)]
mod devices;
#[cfg(test)]
mod element_indexes;
#[cfg(test)]
mod flaky;
#[cfg(test)]
mod line_readers;
#[cfg(test)]
mod printed;
#[cfg(test)]
mod walks;
#[cfg(test)]
mod work_items;
#[cfg(test)]
mod worlds;
