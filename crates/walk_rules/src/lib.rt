//! The rules of a walk over a list of elements. They give each element's own result, from the facts
//! about its work keys, and the progress of the walk.
#![tactic(auto)]

mod continuation;
mod copies;
mod element_result;
mod facts;
mod partitions;
mod progress;
mod splits;
mod work_key;
mod work_keys;

pub use continuation::{Continuation, continuation_after};
pub use copies::copies_of_known;
pub use element_result::{ElementResult, fact_of, name_of, result_by, runnable_result};
pub use facts::{Fact, Known, Value};
pub use partitions::{partitioned_result, step_result};
pub use progress::{Progress, place_in, walk_on};
pub use splits::{split_result, split_result_of};
pub use work_key::{WorkKey, has_key, key_of};
pub use work_keys::WorkKeys;
