//! The state of a repository.
use batch_history::LastNumbers;
use jsl_model::Catalogue;
use records::Records;
use std::alloc::Global;

/// The state from which a repository of at most `LIMIT` accepted operations replies to its calls.
/// It is its catalogue, its rows, how many operations it accepted, and the last numbers that these
/// gave.
///
/// A reply that gives a number requires the last one to be at most 4,294,967,296. The reply to a
/// restart requires that the walk of its job execution begins in its job. A repository ensures
/// both.
#[derive(Clone, Copy, Debug)]
pub struct Standing<'r, const LIMIT: u64> {
    /// The allocator for the replies.
    pub alloc: Global,
    /// The jobs that may be started.
    pub catalogue: &'r Catalogue,
    /// How many operations were accepted.
    pub count: u64,
    /// The last numbers that were given.
    pub last: LastNumbers,
    /// The rows.
    pub records: &'r Records,
}
